//! A lost copy of a pair is replaced: another device takes its device's place, and a copy of the pages is formed on it.
#![tactic(auto)]

mod replacing;

pub use replacing::{ReplaceNo, replace};
