//! What commands leave of the texts of a queue.
#![tactic(auto)]

mod entered;
mod laws;

pub use entered::law_of_entered_texts;
pub use laws::law_of_texts;
