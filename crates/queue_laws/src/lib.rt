//! What holds of every command on the queue, as contracts of functions that do nothing, worked examples of commands,
//! and the test of a command's limits.
#![tactic(auto)]

pub mod examples;
pub mod fitness;
pub mod laws;
