//! Numbers and names, and want of memory.
use crate::limits::PAGE_BYTES;
use std::alloc::AllocError;

/// Out of memory. What the call was lent is as it was.
#[derive(Clone, Copy)]
pub struct NoMemory;

impl From<AllocError> for NoMemory {
    fn from(_error: AllocError) -> Self {
        NoMemory
    }
}

/// A member of the spool from 1 to `MEMBERS_MOST`, or 0 for the operator. What is busy at member 0 is busy at nobody.
#[derive(Clone, Copy, PartialEq, Eq)]
pub struct MemberId(pub u8);

/// A job number from 1 to `NUMBER_MOST`, or 0 for none.
#[derive(Clone, Copy)]
pub struct JobNo(pub u32);

/// The index of an output of its job, from 1 to 32.
#[derive(Clone, Copy)]
pub struct OutNo(pub u8);

/// A track group, counted from 0 over all volumes: volume v has the groups from (v - 1) times the groups of a volume
/// on.
#[derive(Clone, Copy)]
pub struct GroupNo(pub u32);

/// A class of jobs or of output, a byte of A to Z and 0 to 9.
#[derive(Clone, Copy)]
pub struct Class(pub u8);

/// A priority from 0 to 15. A higher number is selected first.
#[derive(Clone, Copy)]
pub struct Prio(pub u8);

/// A name of 1 to 8 bytes of A to Z, 0 to 9, `@`, `#` and `$`, padded with blanks.
#[derive(Clone, Copy, PartialEq, Eq)]
pub struct Name8(pub [u8; 8]);

/// The bytes of a page of the checkpoint, or of a track group.
#[derive(Clone, Copy)]
pub struct Page(pub [u8; PAGE_BYTES]);

/// The level of a page: the one that the checkpoint had when the page was changed last.
pub type Level = u64;

/// A device.
#[derive(Clone, Copy)]
pub enum Dev {
    /// The first checkpoint data set.
    Ckpt1,
    /// The second checkpoint data set.
    Ckpt2,
    /// A spool volume, counted from 1.
    Spool(u8),
}
