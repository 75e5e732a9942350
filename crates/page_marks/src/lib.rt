//! Marks of the pages of a checkpoint that may differ from what tables are drawn as: who changes tables marks the pages
//! that show it, and who draws them draws these alone.
#![tactic(auto)]

mod marks;

pub use marks::{HEADER_PAGE, MARKS, MEMBERS_PAGE, Marks, NODES_PAGE};
