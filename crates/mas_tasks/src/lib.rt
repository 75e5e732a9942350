//! What the words of the program ask for is done on a plant, with one thread.
#![tactic(auto)]

mod calm;
mod generating;
mod inspecting;
mod reporting;
mod saying;
mod tasks;

pub use calm::calm_top;
pub use tasks::{Task, race_of, status_of_no, task_of};
