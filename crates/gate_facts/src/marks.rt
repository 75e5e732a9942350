//! What only grows. No value of this type is made: contracts alone speak of it.
use mas_types::List;

/// Counts and losses. A list that is too short counts as filled up with 0, or with copies that aren't lost.
pub struct Marks {
    /// The moment from which on the history is told.
    pub since: u64,
    /// The count of faults of each part.
    pub faults: List<u64>,
    /// The count of losses by command of each device.
    pub loses: List<u64>,
    /// The count of planned stops of each member.
    pub arms: List<u64>,
    /// The count of stops of each member.
    pub stops: List<u64>,
    /// Which devices hold a copy that counts as lost.
    pub lost: List<bool>,
}
