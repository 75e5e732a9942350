//! What the acts of a step of work may do that want no lock, and what they show: definitions, and two
//! functions that are passed on.
#![tactic(auto)]

pub use member_sittings::{SittingEnd, found_by, found_with, release_of};
