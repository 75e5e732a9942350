//! The operator's commands as they are typed: read from a text, and written as one.
#![tactic(auto)]

mod forms;
pub mod laws;
mod places;
mod reading;
mod walks;
mod writing;

pub use reading::{CommandNo, read_command};
pub use writing::{WriteNo, write_command};
