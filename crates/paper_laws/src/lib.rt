//! Printed lines over plain data: what a member may print next, which Marks its printed lines allow, and what commands
//! and lines keep of what stands on paper.
#![tactic(auto)]

mod laws;
mod outputs;

pub use laws::law_of_paper;
pub use outputs::law_of_outputs;
