//! The process: what it is called with, how it ends, and what it lets go of then.
#![tactic(auto)]

mod args;
mod ending;
mod leavings;

pub use args::{folder_of, words_of};
pub use ending::{Ending, code_of, write_line_of};
pub use leavings::{close_files, let_journal_go, let_queue_go};
