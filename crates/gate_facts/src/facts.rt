//! What a shared value tells of itself. No value of this type is made: contracts alone speak of it.
use crate::desks::Desk;
use crate::marks::Marks;
use mas_types::{Entry, Lines, List, Queue};

/// A shared value. What is said of each member is a list, with member 0 first; a list that is too short counts as
/// filled up with what is empty.
pub struct Facts {
    /// The queue before the history.
    pub base: Queue,
    /// The entries that are kept, in order.
    pub kept: List<Entry>,
    /// The entries of each member's batches, whatever became of them, in order.
    pub begun: List<List<Entry>>,
    /// Which members are stopped.
    pub stopped: List<bool>,
    /// What each member has at hand.
    pub desks: List<Desk>,
    /// The console lines of each member, in order. Those of member 0 are all that are no other's.
    pub lines: List<Lines>,
    /// What only grows.
    pub marks: Marks,
}
