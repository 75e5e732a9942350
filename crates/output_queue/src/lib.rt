//! The outputs of the queue in their slots: each call is the definition's on the list of outputs, which the slots give
//! by ascending order.
#![tactic(auto)]

mod adding;
mod finding;
mod kinds;
mod selecting;

pub use adding::{OutputsFull, add};
pub use finding::{NoOutput, find_elsewhere, find_output, find_printing, has_output, place_of};
pub use kinds::same_name;
pub use selecting::{find_for_printer, select};
