//! What the next run makes of what a run left.
#![tactic(auto)]

mod laws;

pub use laws::{law_of_crashes, law_of_early_crashes, law_of_next_runs, law_of_unarmed_runs};
