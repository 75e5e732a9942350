//! A member with its own checkpoint: commands that it does on its tables, and the batch in which they are written to
//! both copies.
#![tactic(auto)]

mod batch;
mod checkpoint;
mod marking;
mod member;
mod reading;
mod replacing;
mod writing;

pub use checkpoint::{Checkpoint, Draft, blank};
pub use cmd_report::reply_lines;
pub use member::{Member, NodeNo};
pub use reading::TOO_HIGH;
