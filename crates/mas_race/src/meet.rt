//! Where threads can be made to meet.
use mas_types::MemberId;

/// What a worker calls about each step of its member, in its own thread and without the turn. A call may wait for those
/// of other workers.
pub trait Meet {
    /// Comes before the first try of the step.
    fn before(&self, by: MemberId, step: u32);

    /// Comes once the step has closed.
    fn after(&self, by: MemberId, step: u32);
}

/// Nobody meets.
#[derive(Clone, Copy)]
pub struct NoMeet;

impl Meet for NoMeet {
    fn before(&self, _by: MemberId, _step: u32) {}

    fn after(&self, _by: MemberId, _step: u32) {}
}
