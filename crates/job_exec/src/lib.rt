//! What a job does: IEFBR14 does nothing, IEBGENER copies SYSUT1 to SYSUT2 (z/OS DFSMSdfp Utilities; its
//! tests, their order, texts and codes are this project's own). The definitions in specs/ say which outputs
//! the steps of a job give.
#![tactic(auto)]

mod listings;
mod running;

pub use listings::listing;
pub use running::{Ran, run_steps};
