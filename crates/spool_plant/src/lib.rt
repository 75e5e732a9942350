//! The outside: devices, a console, printers and wires, as one trait, and sources of bytes.
#![tactic(auto)]

mod choice;
mod plant;
mod source;

pub use choice::Choice;
pub use plant::{Act, Fuse, Part, Plant, Took};
pub use source::{Got, Source};
