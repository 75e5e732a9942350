//! The level of pages, and their numbers.
ghost use Rattle.std.specs.Prelude.{◌≡◌, ◌+◌, ◌≤◌, ◌<◌, ℕ, length, take, drop, Contains};
ghost use Rattle.std.specs.Int.{from_be_bytes, w64};
ghost use Rattle.mas_types.specs.Limits.{page_bytes, pages_most};
ghost use Rattle.ckpt_copy.specs.Pages.{bytes_of, level, ArePages};
ghost use Rattle.duplex_pair.specs.Lagging.{AreNumbers};

use mas_types::Page;
use mas_types::limits::PAGES_MOST;

const MOST: usize = PAGES_MOST as usize;

// The level in a first page: the number of the eight bytes behind the first eight.
fn page_level(page: &Page) -> u64
    ensures level { result ≡ from_be_bytes w64 (take 8 (drop 8 page.now.0)) }
    ensures size { length page.now.0 ≡ page_bytes }
{
    let bytes = &page.0;
    u64::from_be_bytes([
        bytes[8], bytes[9], bytes[10], bytes[11], bytes[12], bytes[13], bytes[14], bytes[15],
    ])
}

/// The level of pages, which stands in the first of them. It is 0 where there are none.
pub fn pages_level(pages: &[Page]) -> u64
    ensures { result ≡ level (bytes_of pages.now) }
{
    if pages.is_empty() {
        return 0;
    }
    page_level(&pages[0])
}

/// The numbers of pages from 0 on, as many as a checkpoint may have.
pub fn page_numbers() -> [u16; MOST]
    ensures { AreNumbers result }
{
    let mut numbers = [0; MOST];
    for page in 0..PAGES_MOST {
        numbers[page as usize] = page;
    }
    numbers
}

/// The numbers among these that are of a checkpoint of so many pages.
pub fn first_numbers(numbers: &[u16; MOST], count: u16) -> &[u16]
    requires numbers { AreNumbers numbers.now }
    requires some { 1 ≤ count }
    requires few { count ≤ pages_most }
    ensures pages { ArePages count result.now }
    ensures all { (p : ℕ) → p < count → Contains result.now p }
{
    &numbers[..count as usize]
}
