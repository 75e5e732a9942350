//! Commands and work units on tables with an index: what is selected is found in a chain of the index, and not by a walk
//! over all slots.
#![tactic(auto)]

mod applying;
mod units;

pub use applying::apply_with;
pub use job_select::KeptIndex;
pub use units::{find_unit, unit_with};
