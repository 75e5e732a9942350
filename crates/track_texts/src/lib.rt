//! The groups of every text of the spool, found in one look at the owners of all groups.
#![tactic(auto)]

mod index;

pub use index::TextGroups;
