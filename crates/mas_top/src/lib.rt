//! The top call: what the words of the program ask for is done on a plant, a race in threads.
#![tactic(auto)]

mod top;

pub use mas_tasks::{Task, calm_top, race_of, task_of};
pub use top::{mas_top, race_top};
