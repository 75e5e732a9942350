//! The acts of a member's step that serves a line to another node, without the lock: the frame of the job that is
//! current on it is given, the bytes that wait are taken, and a job that came is acknowledged.
#![tactic(auto)]

mod acts;
mod asides;

pub use asides::{acknowledge, exchange};
pub use member_acts::{print_next_lines, read_job_text, write_outputs};
