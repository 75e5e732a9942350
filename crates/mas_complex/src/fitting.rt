//! Whether the pages of two copies fit each other.
ghost use Rattle.mas_complex.specs.Names.{pages_most};
ghost use Rattle.std.specs.Prelude.{◌≡◌, ◌+◌, ◌≤◌, ◌<◌, ◌++◌, [], ◌∷◌, if◌then◌else◌, length, take};
ghost use Rattle.mas_complex.specs.Fits.{are_same, differ_at, first_page, found_numbers, fits as fits_spec};

use ckpt_tables::level_of;
use duplex_pair::pages_level;
use lay_bytes::is_same_page;
use mas_types::Page;
use mas_types::limits::PAGES_MOST;

// The numbers that a checkpoint can have.
pub(crate) const NUMBERS: usize = PAGES_MOST as usize;

/// Whether two lists of pages are the same, byte for byte.
#[tactic(auto, using(crate::proofs::Found::same_only))]
pub fn same_pages(found: &[Page], other: &[Page]) -> bool
    ensures { result ≡ are_same found.now other.now }
{
    if found.len() != other.len() {
        return false;
    }
    for page in 0..found.len() {
        if !is_same_page(&found[page], &other[page]) {
            return false;
        }
    }
    true
}

// The pages of two copies differ only in those of this level, as the first page found gives it.
#[tactic(auto, using(crate::proofs::Found::differ_only))]
fn differ_only_at(found: &[Page], other: &[Page], reached: u64) -> bool
    requires few { length found.now ≤ pages_most }
    ensures { result ≡ differ_at (first_page found.now) reached 0 found.now other.now }
{
    if found.len() != other.len() {
        return false;
    }
    for page in 0..found.len() {
        if !is_same_page(&found[page], &other[page])
            && level_of(&found[0], page as u16) != reached
        {
            return false;
        }
    }
    true
}

/// Whether another copy's pages fit those that were found: they are the same, or their level is one less, they differ
/// only in pages that have the found level, and the copy has room for a put. A copy that doesn't fit counts as one that
/// can't be read.
pub fn fits(found: &[Page], other: &[Page], room: u8) -> bool
    requires few { length found.now ≤ pages_most }
    ensures { result ≡ fits_spec found.now other.now room }
{
    let reached = pages_level(found);
    let lower = pages_level(other);
    if lower == reached {
        return same_pages(found, other);
    }
    reached > 0 && lower == reached - 1 && room >= 1 && differ_only_at(found, other, reached)
}

// Adds a number after the first `count`, where it is asked for. Answers how many there are then.
fn note(numbers: &mut [u16; NUMBERS], count: usize, number: u16, asked: bool) -> usize
    requires { count < pages_most }
    ensures few { result ≤ count + 1 }
    ensures noted { take result numbers.new ≡ take count numbers.old ++ (if asked then number ∷ [] else []) }
{
    if asked {
        numbers[count] = number;
        return count + 1;
    }
    count
}

/// Lays down the numbers of page 0 and of the pages that have the level found, as page 0 gives it. Answers how many
/// they are.
pub(crate) fn list_found(found: &[Page], numbers: &mut [u16; NUMBERS]) -> usize
    requires few { length found.now ≤ pages_most }
    ensures few { result ≤ length found.now }
    ensures listed { take result numbers.new ≡ found_numbers found.now }
{
    let reached = pages_level(found);
    let mut count = 0;
    for page in 0..found.len() {
        let is_found = level_of(&found[0], page as u16) == reached;
        count = note(numbers, count, page as u16, (page == 0) | is_found);
    }
    count
}
