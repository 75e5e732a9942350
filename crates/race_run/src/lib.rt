//! A script that members race through: each plays its own lines in a thread of its own, a turn after the other at one
//! shared value, and after all of them the operator says the history.
#![tactic(auto)]

mod lines;
mod racers;
mod running;
mod top;

pub use top::race_script;
