//! What the console says of a step and of a run: closing lines, the lines of displays, and histories.
#![tactic(auto)]

mod displays;
mod histories;
mod lines;
mod steps;

pub use displays::show;
pub use histories::history;
pub use lines::{closing, details};
pub use steps::{one_line, reply_lines};
