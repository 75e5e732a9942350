//! The converter: from the stored text of a job to its steps, or to its first JCL error (z/OS MVS JCL
//! Reference). The definitions in specs/ say which statements there are and what each means.
#![tactic(auto)]

mod convert_text;
mod dds;
mod execs;
mod statements;
mod steps;

pub use convert_text::{JclNo, convert};
pub use steps::{Dd, DdKind, Program, Step};
