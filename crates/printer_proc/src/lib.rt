//! How a printer prints an output: which lines come next, what stands on paper, and where it goes on after it was set
//! back or forward. A mark is the number of lines that were printed, counted over all copies.
#![tactic(auto)]

mod lines;
mod marks;

pub use lines::print_line;
pub use marks::{backspace, forward, next_chunk};
