//! The work that is made from a number: a script of so many decks, each of a job that copies a few lines to paper, and
//! the work on them; and what a run of it came to. It puts a spool to work without a script written by hand; the same
//! number makes the same script. Its text is this project's own.
#![tactic(auto)]

pub mod examples;
mod script;
mod summaries;

pub use examples::{examples_of_scripts, examples_of_summaries};
pub use script::{DECKS_MOST, generate};
pub use summaries::{Counted, Summary, summary_line, summary_of};
