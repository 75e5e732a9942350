//! How many records a page of the spool holds.
ghost use Rattle.std.specs.Prelude.{◌≡◌, ◌+◌, ◌<◌, nat_lt, if◌then◌else◌, drop, slice_index, option_map, length};
ghost use Rattle.mas_check.specs.Records.{begins_record};
ghost use Rattle.mas_types.specs.Limits.{page_bytes};
ghost use Rattle.mas_types.specs.Records.{records_in};

use mas_types::limits::PAGE_BYTES;
use spool_text::is_line;

/// The byte after the records of a group.
const END_BYTE: u8 = 0xFF;

// Whether a record begins at a byte.
fn is_record_at(page: &[u8; 4096], at: usize) -> bool
    requires { at < length page.now }
    ensures { result ≡ begins_record (slice_index page.now at) (drop (at + 1) page.now) }
{
    let size = page[at] as usize;
    let rest = &page[at + 1..];
    size <= rest.len() && is_line(&rest[..size])
}

// The count of records, where the byte after them is on the page.
fn counted_up_to(at: usize, count: u16) -> Option<u16>
    ensures { result ≡ (if nat_lt at page_bytes then Some count else None) }
{
    if at < PAGE_BYTES { Some(count) } else { None }
}

/// The number of records that a page holds. None where it doesn't hold whole records and the byte after them.
pub(crate) fn count_records(page: &[u8; 4096]) -> Option<u16>
    ensures { result ≡ option_map length (records_in page.now) }
{
    let mut at = 0;
    let mut count = 0;
    while at < PAGE_BYTES && page[at] != END_BYTE {
        if !is_record_at(page, at) {
            return None;
        }
        at += 1 + page[at] as usize;
        count += 1;
    }
    counted_up_to(at, count)
}

/// A page has the size of a page.
pub(crate) fn law_of_page(page: &[u8; 4096])
    ensures { length page.now ≡ page_bytes }
{
    let _page = page;
}
