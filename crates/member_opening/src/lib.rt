//! The parts of a deck's step: a member that has the lock reads, the deck's job begins and gets groups, and its text
//! goes into them.
#![tactic(auto)]

mod holding;
mod opening;
mod spooling;

pub use holding::take_hold;
pub use opening::{open_deck, take_groups};
pub use spooling::{spool_text, sync_volumes, write_pages};
