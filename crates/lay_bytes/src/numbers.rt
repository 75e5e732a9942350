//! Numbers in a page, unsigned, the greatest byte first.
ghost use Rattle.std.specs.Prelude.{◌≡◌, ◌+◌, ◌≤◌, ◌++◌, length, take, drop};
ghost use Rattle.std.specs.Int.{w16, w32, w64, to_be_bytes, from_be_bytes};
ghost use Rattle.lay_bytes.specs.Fields.{piece};

/// The number of two bytes at an offset.
pub fn read_u16(page: &[u8], at: usize) -> u16
    requires { at + 2 ≤ length page.now }
    ensures { result ≡ from_be_bytes w16 (piece at 2 page.now) }
{
    u16::from_be_bytes([page[at], page[at + 1]])
}

/// The number of four bytes at an offset.
pub fn read_u32(page: &[u8], at: usize) -> u32
    requires { at + 4 ≤ length page.now }
    ensures { result ≡ from_be_bytes w32 (piece at 4 page.now) }
{
    u32::from_be_bytes([page[at], page[at + 1], page[at + 2], page[at + 3]])
}

/// The number of eight bytes at an offset.
pub fn read_u64(page: &[u8], at: usize) -> u64
    requires { at + 8 ≤ length page.now }
    ensures { result ≡ from_be_bytes w64 (piece at 8 page.now) }
{
    u64::from_be_bytes([
        page[at],
        page[at + 1],
        page[at + 2],
        page[at + 3],
        page[at + 4],
        page[at + 5],
        page[at + 6],
        page[at + 7],
    ])
}

/// Writes a number of two bytes at an offset. The other bytes stay.
pub fn write_u16(page: &mut [u8], at: usize, value: u16)
    requires { at + 2 ≤ length page.old }
    ensures { page.new ≡ take at page.old ++ to_be_bytes w16 value ++ drop (at + 2) page.old }
{
    page[at..at + 2].copy_from_slice(&value.to_be_bytes());
}

/// Writes a number of four bytes at an offset. The other bytes stay.
pub fn write_u32(page: &mut [u8], at: usize, value: u32)
    requires { at + 4 ≤ length page.old }
    ensures { page.new ≡ take at page.old ++ to_be_bytes w32 value ++ drop (at + 4) page.old }
{
    page[at..at + 4].copy_from_slice(&value.to_be_bytes());
}

/// Writes a number of eight bytes at an offset. The other bytes stay.
pub fn write_u64(page: &mut [u8], at: usize, value: u64)
    requires { at + 8 ≤ length page.old }
    ensures { page.new ≡ take at page.old ++ to_be_bytes w64 value ++ drop (at + 8) page.old }
{
    page[at..at + 8].copy_from_slice(&value.to_be_bytes());
}
