//! The journal.
use crate::commands::{Command, Reply};
use crate::ids::MemberId;
use crate::lists::List;

/// A command that was given, and its reply.
#[derive(Drop)]
pub struct Entry {
    /// The member that gave it.
    pub by: MemberId,
    /// The step in which it did.
    pub step: u32,
    /// The command.
    pub command: Command,
    /// Its reply.
    pub reply: Reply,
}

/// What became of a batch.
#[derive(Clone, Copy)]
pub enum Fate {
    /// It is committed.
    Kept,
    /// It was given up.
    Dropped,
    /// It is being written.
    Flying,
}

/// Entries that are kept together or not at all.
#[derive(Drop)]
pub struct Batch {
    /// The moment before its first write.
    pub first: u64,
    /// The moment after it was committed or given up. While it is flying this is the greatest number.
    pub last: u64,
    /// The member whose entries these are.
    pub by: MemberId,
    /// What became of it.
    pub fate: Fate,
    /// The entries in order.
    pub entries: List<Entry>,
}

/// The history of a run.
#[derive(Drop)]
pub struct Journal {
    /// The batches in order.
    pub batches: List<Batch>,
}
