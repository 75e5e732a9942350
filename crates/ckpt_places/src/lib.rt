//! How far the batch in flight has come on a copy of the checkpoint, and when it is kept: where each copy that counts
//! as alive has it.
#![tactic(auto)]

mod places;

pub use places::{Place, all_opened};
