//! One member's page of the book.

/// How a member stands with the lock.
#[derive(Clone, Copy)]
pub struct Standing {
    /// It is stopped.
    pub stopped: bool,
    /// The tick at which it last gave the lock up between two steps, if it ever did.
    pub freed: Option<u64>,
    /// The commands that its hold has left.
    pub left: u16,
}
