//! Slots in which records stand, and the list of them in ascending order: which slot a record of the list has, and what
//! becomes of the list where a slot is written.
#![tactic(auto)]

mod classes;
mod slots;
mod walking;

pub use classes::{Classed, best_slot_by_class};
pub use slots::{Found, Ordered, Rank, Test, best_slot, first_slot, free_slot, used_count};
