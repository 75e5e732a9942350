//! A script that several members play, on plain data: what each line gives, what stops leave, and what holds of all.
#![tactic(auto)]

mod examples;
mod laws;

pub use examples::{
    examples_of_given_pieces, examples_of_lines, examples_of_members, examples_of_printing,
    examples_of_replacing, examples_of_stops,
};
pub use laws::{
    law_of_awake_runs, law_of_given_pieces, law_of_histories, law_of_locks, law_of_runs_of_one,
    law_of_stops, law_of_tests, law_of_whole_steps,
};
