//! What becomes of a job whose text was read, how a unit of work ends, and what a job's end leaves of the texts of a
//! queue.
#![tactic(auto)]

mod laws;
mod outcomes;
mod units;

pub use laws::law_of_ended_texts;
pub use outcomes::{Outcome, Read, outcome_of};
pub use units::{UnitEnd, end_by};
