//! The checker of images: what is wrong with the pages of a checkpoint, and with the texts that its spool volumes
//! hold. It only reads.
#![tactic(auto)]

mod checking;
mod groups;
mod lines;
mod reading;
mod records;
mod tallies;

pub use checking::{CheckNo, check};
pub use lines::check_line;
