//! The tables of the queue as a checkpoint has them, their shape, and the spelling of their pages.
#![tactic(auto)]

mod copying;
mod levels;
mod sizes;
mod tables;

pub use levels::level_of;
pub use sizes::{bytes_in, law_of_page_sizes};
pub use tables::{
    FIRST_JOB_PAGE, JOBS_A_PAGE, OUTPUTS_A_PAGE, OWNERS_A_PAGE, Tables, first_group_page,
    first_output_page, page_count, pages_for,
};
