//! Members in threads of their own: the shared value in a gate, and a pass that takes turns at it with the calls that
//! one hand has.
#![tactic(auto)]

mod meet;
mod passing;
mod shared;

pub use meet::{Meet, NoMeet};
pub use passing::{Passing, Turn};
pub use shared::{Beginning, Shared};
