//! What stands before the lines of a run, however they are played then: its script is read, its queue is formatted or
//! found, and a warm run is reset. And how a run ends.
#![tactic(auto)]

mod ended;
mod formatted;
mod found;
mod members;
mod opening;
mod reading;
mod reset;
mod running;

pub use ended::{Ended, code, end_run, status_of, unbegun};
pub use found::status_of_start;
pub use opening::open_run;
pub use reading::{read_text, status_of_script};
pub use running::OpenRun;
