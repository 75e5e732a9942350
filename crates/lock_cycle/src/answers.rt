//! Why the lock isn't had, given up or taken over.
use mas_types::MemberId;

/// Why a try at the lock is refused.
#[derive(Clone, Copy)]
pub enum LockNo {
    /// The member is stopped.
    Down,
    /// This other member holds the lock.
    Busy(MemberId),
    /// The member leaves the lock to others until the tick is this.
    Dormant(u64),
}

/// The lock is held by this member, which isn't the one meant, or by nobody, which is member 0.
#[derive(Clone, Copy)]
pub struct NotHolder(pub MemberId);

/// Why a lock isn't taken over.
#[derive(Clone, Copy)]
pub enum SeizeNo {
    /// The member that is to lose the lock isn't stopped.
    StillUp,
    /// The lock is held by this member, which isn't the one that is to lose it, or by nobody, which is member 0.
    NotHolder(MemberId),
}
