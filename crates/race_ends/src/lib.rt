//! The two ends of a race, where no member plays: what stands in its way is said before it, its stops are armed, and
//! after it the operator says the history.
#![tactic(auto)]

mod before;
mod histories;

pub use before::prepare;
pub use histories::say_history;
