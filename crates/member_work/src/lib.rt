//! The parts of a member's step WORK n, units of work one after another: commands that it gives, batches that are kept.
#![tactic(auto)]

mod chunks;
mod examples;
mod giving;
mod laws;
mod playing;
mod spooling;

pub use chunks::chunk_end;
pub use examples::examples_of_work_steps;
pub use giving::{give as give_command, give_back, give_or_drop, groups_for_end, take_for_end};
pub use laws::kept_replies;
pub use playing::command_of;
pub use spooling::groups_of_outputs;
