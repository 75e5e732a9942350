//! What a member gives in a sitting of a step, and what of it is kept; and what a sitting of work, or of a line to
//! another node, is and gives.
#![tactic(auto)]

mod ends;
mod giving;
mod parts;

pub use ends::{close_step, leave_step};
pub use giving::{give_up, keep, keep_full};
pub use parts::{Part, give_part};
