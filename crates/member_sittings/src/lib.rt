//! A member's sittings: what it does while it holds the lock, from the beginning of its step or after acts without the
//! lock, up to the next such acts or the step's end. And the acts of a deck that want no lock.
#![tactic(auto)]

mod asides;
mod closing;
mod ends;
mod seats;
mod sittings;

pub use asides::{found_by, found_with, spool_deck};
pub use closing::{end_sitting, give_up_sitting, pause_sitting};
pub use ends::{SittingEnd, release_of};
pub use seats::{keep_seat, take_seat};
pub use sittings::{SpooledDeck, close_deck, sit_command, sit_deck, sit_spooled};
