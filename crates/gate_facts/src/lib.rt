//! What a value that members share tells of itself, as plain data, and what one who takes turns at it knows: which
//! value may be found at a turn, and which may be given back. Nothing here runs: the definitions in specs/ are what the
//! contracts of a gate, and of all that takes turns, speak of.
#![tactic(auto)]

mod desks;
mod facts;
mod laws;
mod marks;

pub use desks::{Desk, Group, Hold};
pub use facts::Facts;
pub use laws::{law_of_losses, law_of_turns};
pub use marks::Marks;
