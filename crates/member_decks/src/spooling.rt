//! Why a text isn't written.

/// Why a text doesn't stand in its groups.
#[derive(Clone, Copy)]
pub enum SpoolError {
    /// This volume is lost.
    Lost(u8),
    /// The member was stopped.
    Halted,
}
