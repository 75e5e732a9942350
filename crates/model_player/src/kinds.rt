//! Kinds of units of work.

/// A kind of unit of work that a member tries.
#[derive(Clone, Copy)]
pub enum Kind {
    /// The output that is busy at the member is printed on, or is done.
    Print,
    /// An output that waits for the member's printer is taken.
    Pick,
    /// A job is purged.
    Purge,
    /// A job's outputs are gathered.
    Gather,
    /// The job that the member executes is run.
    Run,
    /// The job that the member converts is converted.
    Convert,
    /// A job that waits for execution is taken.
    TakeExec,
    /// A job that waits for conversion is taken.
    TakeConvert,
}
