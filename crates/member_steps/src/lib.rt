//! A command that a member gives in a step: it is done on the tables, written to both copies as a batch, and told on
//! the console.
#![tactic(auto)]

mod batches;
mod keeping;
mod laws;
mod playing;
mod telling;

pub use batches::play_batch;
pub use keeping::keep_batch;
pub use laws::law_of_told_steps;
pub use member_node::{Member, NodeNo};
pub use playing::give;
pub use telling::tell_lines;
