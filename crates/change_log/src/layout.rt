//! Where the parts of a copy in the log form stand. Blocks are counted from 0.
ghost use Rattle.std.specs.Prelude.{◌≡◌, ◌+◌, ◌*◌, ◌≤◌, ◌<◌, length};
ghost use Rattle.mas_types.specs.Limits.{page_bytes, pages_most};
ghost use Rattle.change_log.specs.Logs.{slots, log_size, gate_of, directory_block, image_block, block_head, free_after};

use mas_types::limits::PAGE_BYTES;

/// The form of a copy of home pages and log slots.
pub const FORM_LOG: u8 = 2;

/// The number of log slots.
pub const SLOTS: u8 = 4;

// The bytes of a block.
pub(crate) const BLOCK: u64 = PAGE_BYTES as u64;

// Where the gate of slot 0 stands. Those of the others follow.
const GATES_AT: u64 = 8;

/// The bytes of device that a copy of so many pages needs.
pub fn size_of_log(pages: u16) -> u64
    ensures { result ≡ log_size pages }
{
    BLOCK * (5 + 5 * pages as u64)
}

/// Where the gate of a slot stands, in bytes from the first of the device. Slots are counted from 0.
pub fn gate_at(slot: u8) -> u64
    ensures { result ≡ gate_of slot }
{
    GATES_AT + slot as u64
}

/// The block of a slot's directory, for a copy of so many pages. Those of its images follow.
pub fn directory_place(pages: u16, slot: u8) -> u64
    requires slot { slot ≤ slots }
    requires pages { pages ≤ pages_most }
    ensures { result ≡ directory_block pages slot }
{
    1 + pages as u64 + slot as u64 * (pages as u64 + 1)
}

// The block of a slot's first image, for a copy of so many pages.
pub(crate) fn image_place(pages: u16, slot: u8) -> u16
    requires slot { slot < slots }
    requires pages { pages ≤ pages_most }
    ensures { result ≡ image_block pages slot 0 }
{
    directory_place(pages, slot) as u16 + 1
}

/// Block 0 of a copy of so many pages from byte 1 on, from the form to the gates, each of them closed.
pub fn log_head(pages: u16) -> [u8; 11]
    ensures { result ≡ block_head pages }
{
    let [high, low] = pages.to_be_bytes();
    [FORM_LOG, high, low, 0, 0, 0, 0, 0, 0, 0, 0]
}

/// The puts possible before the slots are closed again: the slots after the last whose gate is open, 4 where none is.
pub fn free_slots(gates: &[bool; SLOTS as usize]) -> u8
    ensures free { result ≡ free_after 0 gates.now }
    ensures few { result ≤ slots }
{
    let mut free = 0;
    for is_open in gates {
        free = if *is_open { 0 } else { free + 1 };
    }
    free
}
