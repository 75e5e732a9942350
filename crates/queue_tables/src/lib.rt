//! The queues that the tables of a checkpoint tell.
#![tactic(auto)]

mod laws;

pub use laws::{law_of_orders, law_of_told_queues};
