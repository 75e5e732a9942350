//! A lock between threads, each of which knows what it learnt. A value that members share lies in a gate. A member's
//! pass takes the turn, and with it the value, works on it, and gives it back. A pass remembers what it saw and did:
//! the value that it finds at its next turn goes on from there, and no other pass can have changed what is the member's
//! own. All this is said twice: of what a value tells without its content, and with it where the content is told. That
//! a pass ever gets the turn is not said.
#![tactic(auto)]

mod gate;
mod kept;
mod pass;
mod plays;
mod view;

pub use kept::Kept;
pub use pass::{Gate, Held, Pass};
pub use view::{Sight, View};
