//! A member's step as a machine on plain data: its states, what a sitting under the lock gives from each of them, and
//! what holds of all.
#![tactic(auto)]

mod examples;
mod laws;
mod states;

pub use examples::{examples_of_lines, examples_of_sittings};
pub use laws::{
    law_of_batches, law_of_causes, law_of_ends, law_of_holds, law_of_lines, law_of_the_lock,
    law_of_units,
};
pub use states::{Aside, Found, Grant, Holder, Offer, Progress, Release, Service, State, Task};
