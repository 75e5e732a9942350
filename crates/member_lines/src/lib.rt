//! What becomes of a script's line that plays no task: whether it is played at all, what is said of one that isn't, the
//! lock from one line to another, a copy that is replaced, stops now and later, and the reset of a stopped member with
//! the takeover of its lock.
#![tactic(auto)]

mod admissions;
mod closings;
mod locks;
mod replacing;
mod resets;
mod stops;

pub use admissions::{Admission, admit};
pub use closings::{Closed, say_denied, say_refused, say_stopped};
pub use locks::{free_line, lock_line};
pub use replacing::replace_line;
pub use resets::sit_reset;
pub use stops::{arm_line, stop_line};
