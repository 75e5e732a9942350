//! The report of a queue: its displays one after another.
#![tactic(auto)]

mod laws;
mod reports;

pub use laws::law_of_named_queues;
pub use reports::report;
