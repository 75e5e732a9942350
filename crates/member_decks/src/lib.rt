//! What a step gives that reads a deck, the lines with which it closes, and what is kept of it out of memory.
#![tactic(auto)]

mod examples;
mod keeping;
mod opening;
mod spooling;

pub use examples::examples_of_deck_steps;
pub use keeping::{finishing, give_up, last_lines};
pub use opening::Opened;
pub use spooling::SpoolError;
