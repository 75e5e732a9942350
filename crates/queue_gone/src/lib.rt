//! Which texts of a queue are gone, and what a command leaves of them.
#![tactic(auto)]

mod laws;

pub use laws::law_of_gone_texts;
