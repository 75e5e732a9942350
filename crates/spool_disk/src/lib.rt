//! The outside in memory: a plant with all of its history, and a source of bytes.
#![tactic(auto)]

mod base;
mod crash;
mod entry;
mod fuses;
mod health;
mod incoming;
mod lines;
mod memory;
mod places;
mod plan;
mod record;
mod sizes;
mod source;

pub use fuses::Fuses;
pub use health::{Counts, Health};
pub use memory::{MemPlant, PLANS_MOST};
pub use places::{PLACES, place_number, slot_number};
pub use sizes::Sizes;
pub use source::MemSource;
pub use spool_plant::{Act, Choice, Fuse, Got, Part, Plant, Source, Took};
