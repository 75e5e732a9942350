//! Lines that reset a stopped member: by a member that has the lock, or takes it over first and finds out what became
//! of a batch in flight.
#![tactic(auto)]

mod resetting;

pub use member_hand::{Stand, act_then, enter, leave, next_holder, nothing_found, play_task, sit};
pub use resetting::{reset_line, take_line, take_lock};
