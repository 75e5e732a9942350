//! What is planned of acts, and what becomes of an act.

/// What is planned of an act.
#[derive(Clone, Copy)]
pub enum Planned {
    /// The act fails.
    Fails,
    /// The act halts, and leaves at most so many of its bytes.
    Halts(u32),
}

/// A plan of the act that is made at a moment.
#[derive(Clone, Copy)]
pub struct Plan {
    /// The moment.
    pub moment: u64,
    /// What the act does.
    pub planned: Planned,
}

/// What becomes of an act.
#[derive(Clone, Copy)]
pub enum Course {
    /// The act is done.
    Go,
    /// The act fails.
    Fail,
    /// The act halts, and leaves at most so many of its bytes.
    Halt(usize),
}
