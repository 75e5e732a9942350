//! Custody of jobs between two nodes: which numbers a receiver keeps, the frame of a job, and why a job is neither
//! doubled nor lost on a wire that loses, repeats and reorders what it carries. The rules are this project's own;
//! network job entry (z/OS JES2, Network Job Entry Formats and Protocols) keeps a job at a node until the next one has
//! taken it over.
#![tactic(auto)]

mod custody;
mod laws;
mod wire;

pub use custody::{Custody, FrameOfNo, frame_of, judge};
pub use laws::{law_of_custody, law_of_examples, law_of_numbers};
pub use wire::{WireEvent, WireFrame, WireWorld, no_wire_doubles};
