//! What all forms of a copy have in block 0.
use mas_types::limits::PAGE_BYTES;

// The bytes of a page, and of block 0.
pub(crate) const BLOCK: u64 = PAGE_BYTES as u64;

/// The byte of an open gate. A gate with any other byte is closed.
pub const GATE_OPEN: u8 = 0xA5;

/// The byte that closes a gate.
pub const GATE_CLOSED: u8 = 0;

/// Where the VALID gate stands, in bytes from the first of the device.
pub const VALID_AT: u64 = 0;

/// Where the rest of block 0 begins.
pub const HEAD_AT: u64 = 1;
