//! Tables brought up to pages that differ from theirs where marks are: only these pages are read, and only their slots
//! are written.
#![tactic(auto)]

mod bringing;
mod header;
mod kinds;
mod slots;

pub use bringing::{bring_up, can_bring_up, can_bring_up_spelled};
pub use header::{is_newer, level_at, order_of};
