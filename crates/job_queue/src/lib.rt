//! The jobs of the queue in their slots: each call is the definition's on the list of jobs, which the slots give by
//! ascending order.
#![tactic(auto)]

mod changing;
mod finding;
mod kinds;
mod places;

pub use changing::{JobsFull, add, advance, next_number};
pub use finding::{
    NoJob, find_convert, find_exec, find_in, find_job, find_working, first_in, place_of,
    select_convert, select_exec,
};
pub use places::{JobsByNumber, by_number, job_numbered};
