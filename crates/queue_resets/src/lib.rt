//! What the reset of a member leaves of jobs and outputs in their slots, and of the owners of groups: what is busy at
//! the member becomes free of it, and the groups that it took.
#![tactic(auto)]

mod resets;

pub use resets::{Who, is_one_of, reset_job_slots, reset_output_slots, reset_owner_list};
