//! Entries of a record of acts. The bytes of all entries stand in one list, in the order of the entries.

#[derive(Clone, Copy)]
pub(crate) enum Entry {
    // An act that changed nothing.
    Idle,
    // A write to a slot, from a place on, of so many bytes, of which so many were kept.
    Wrote(usize, usize, usize, usize),
    // A sync of a slot.
    Synced(usize),
    // A line on a place with so many bytes, whole or torn.
    Said(usize, usize, bool),
    // So many bytes, given on a wire or else taken from it, by a member.
    Passed(bool, u8, u8, usize),
    // A read of a slot.
    Fetched(usize),
    // Another device in the place of a slot's, which was lost since a moment, if it was.
    Renewed(usize, Option<u64>),
}
