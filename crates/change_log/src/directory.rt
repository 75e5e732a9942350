//! The directory of a log slot as bytes.
ghost use Rattle.std.specs.Prelude.{◌≡◌, ◌+◌, ◌*◌, ◌≤◌, ◌<◌, ◌++◌, length, take, drop, slice_index};
ghost use Rattle.mas_types.specs.Limits.{page_bytes, pages_most};
ghost use Rattle.change_log.specs.Directories.{words, ascend, are_pages, with_numbers, directory, directory_front};
ghost use Rattle.change_log.specs.Listings.{IsListing};

use crate::places::PLACES;
use lay_bytes::{is_zero, put, write_u16};
use mas_types::limits::PAGE_BYTES;

// Where the level stands, and where the numbers of the pages begin.
const LEVEL_AT: usize = 8;

const NUMBERS_AT: usize = 16;

/// The pages that a slot has images of: the first `count` of these numbers.
#[derive(Clone, Copy)]
pub struct Listed {
    /// The numbers of the pages, ascending, and then zeros.
    pub numbers: [u16; PLACES],
    /// How many of them are listed.
    pub count: u16,
}

// The number of two bytes that stands there.
fn number_at(block: &[u8; PAGE_BYTES], at: usize) -> u16
    requires { at + 2 ≤ page_bytes }
    ensures { result ≡ 256 * slice_index block.now at + slice_index block.now (at + 1) }
{
    u16::from_be_bytes([block[at], block[at + 1]])
}

// The first numbers of the directory, so many of them.
fn read_numbers(block: &[u8; PAGE_BYTES], count: u16) -> [u16; PLACES]
    requires { count ≤ pages_most }
    ensures { take count result ≡ words count (drop 16 block.now) }
{
    let mut numbers = [0; PLACES];
    for i in 0..count {
        let place = i as usize;
        numbers[place] = number_at(block, NUMBERS_AT + 2 * place);
    }
    numbers
}

// Whether each number is above the one before it, and below a bound.
fn do_ascend(numbers: &[u16], first: u16, bound: u16) -> bool
    ensures { result ≡ ascend bound first numbers.now }
{
    let mut last = first;
    for number in numbers {
        if *number <= last || *number >= bound {
            return false;
        }
        last = *number;
    }
    true
}

// Whether these are numbers of pages, ascending from 0.
fn list_pages(numbers: &[u16], pages: u16) -> bool
    ensures { result ≡ are_pages pages numbers.now }
{
    match numbers {
        [] => false,
        [first, rest @ ..] => *first == 0 && pages > 0 && do_ascend(rest, 0, pages),
    }
}

/// Reads the directory of a slot of a copy of so many pages. It is None exactly where the block isn't a directory.
pub fn read_directory(block: &[u8; PAGE_BYTES], pages: u16) -> Option<Listed>
    requires { pages ≤ pages_most }
    ensures { IsListing result pages block.now }
{
    let count = number_at(block, 0);
    if count > pages {
        return None;
    }
    let numbers = read_numbers(block, count);
    let are_pages = list_pages(&numbers[..count as usize], pages);
    let are_zero = is_zero(&block[2..LEVEL_AT]);
    let is_rest_zero = is_zero(&block[NUMBERS_AT + 2 * count as usize..]);
    if are_pages && are_zero && is_rest_zero {
        Some(Listed { numbers, count })
    } else {
        None
    }
}

// Writes numbers after the level, one after another. The other bytes stay.
fn put_numbers(numbers: &[u16], into: &mut [u8])
    requires { 16 + 2 * length numbers.now ≤ length into.old }
    ensures { into.new ≡ with_numbers numbers.now into.old }
{
    for (i, number) in numbers.iter().enumerate() {
        write_u16(into, NUMBERS_AT + 2 * i, *number);
    }
}

// Writes a directory. What is after its numbers stays.
fn put_directory(level: &[u8; 8], numbers: &[u16], into: &mut [u8])
    requires few { length numbers.now < 65536 }
    requires room { 16 + 2 * length numbers.now ≤ length into.old }
    ensures { into.new ≡ directory_front level.now numbers.now ++ drop (16 + 2 * length numbers.now) into.old }
{
    put(&(numbers.len() as u16).to_be_bytes(), 0, into);
    put(&[0; 6], 2, into);
    put(level, LEVEL_AT, into);
    put_numbers(numbers, into);
}

/// The directory of a slot with images of these pages, at a level of eight bytes.
pub fn write_directory(level: &[u8; 8], numbers: &[u16]) -> [u8; PAGE_BYTES]
    requires { length numbers.now ≤ pages_most }
    ensures { result ≡ directory level.now numbers.now }
{
    let mut block = [0; PAGE_BYTES];
    put_directory(level, numbers, &mut block);
    block
}
