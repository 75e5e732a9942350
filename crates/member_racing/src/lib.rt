//! A member's line in a race, a turn at a time at a value that others change between two turns: a refused try is made
//! again, the lock is had for a sitting alone, and the lock of a stopped member is taken over.
#![tactic(auto)]

mod opening;
mod racing;
mod sitting;
mod stages;
mod taking;

pub use racing::line_turn;
pub use stages::Stage;
