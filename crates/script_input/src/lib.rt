//! Reading the script that the program plays: what the script's language says of it, and that each of its steps is one
//! that is played.
#![tactic(auto)]

pub mod laws;
mod reading;
mod script;

pub use reading::{SourceError, read_source};
pub use script::{read_race, read_script};
