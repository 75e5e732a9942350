//! The acts of a step of work that want no lock: a job's text is read, the texts of its outputs are written, and the
//! next lines of an output are printed.
#![tactic(auto)]

mod asides;
mod gone;
mod printing;
mod reading;
mod spooling;

pub use asides::{print_next_lines, read_job_text, write_outputs};
