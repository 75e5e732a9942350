//! A journal as memory keeps it: its contracts are those of a journal of entries, whose texts clauses alone see.
#![tactic(auto)]

mod batches;
mod entries;
mod journals;

pub use batches::{BriefBatch, BriefEntries};
pub use entries::{BriefCommand, BriefEntry, BriefReply};
pub use journals::BriefJournal;
