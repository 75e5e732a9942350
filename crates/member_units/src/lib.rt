//! A member's sittings of a step of work: units of one command, one after another, up to one that reads a text, to a
//! spent hold, or to the step's end.
#![tactic(auto)]

mod actions;
mod nexts;
mod sitting;
mod units;

pub use sitting::{resume_work, sit_work};
