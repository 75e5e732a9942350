//! The steps of a job.
use mas_types::{Class, Lines, List, Name8};

/// A program that a step runs.
#[derive(Clone, Copy)]
pub enum Program {
    /// IEFBR14, which does nothing.
    Br14,
    /// IEBGENER, which copies SYSUT1 to SYSUT2.
    Gener,
}

/// What a DD statement stands for.
#[derive(Drop)]
pub enum DdKind {
    /// Nothing is read, and what is written is dropped.
    Dummy,
    /// The cards of data behind it.
    Cards(Lines),
    /// An output, if lines are written.
    Sysout {
        class: Class,
        dest: Name8,
        forms: Name8,
        /// From 1 on.
        copies: u8,
        held: bool,
    },
}

/// A DD statement.
#[derive(Drop)]
pub struct Dd {
    /// Its name.
    pub name: Name8,
    /// What it stands for.
    pub kind: DdKind,
}

/// A step: an EXEC statement, and the DD statements up to the next one.
#[derive(Drop)]
pub struct Step {
    /// The program that it runs.
    pub program: Program,
    /// Its DD statements, in order.
    pub dds: List<Dd>,
}
