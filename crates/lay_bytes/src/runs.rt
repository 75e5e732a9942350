//! Tests of bytes, many at once.
ghost use Rattle.std.specs.Prelude.{◌≡◌, ◌+◌, ◌≤◌, length};
ghost use Rattle.std.specs.Str.{bytes_eq};
ghost use Rattle.lay_bytes.specs.Bytes.{are_zeros};
ghost use Rattle.lay_bytes.specs.Fields.{piece};

use mas_types::limits::PAGE_BYTES;
use mas_types::{Name8, Page};
use std::simd::prelude::*;

/// The number of bytes that are tested at once.
const LANES: usize = 64;

// Whether the bytes from an offset on are the same.
fn is_same_run(a: &[u8; PAGE_BYTES], b: &[u8; PAGE_BYTES], at: usize) -> bool
    requires { at + LANES ≤ PAGE_BYTES }
    ensures { result ≡ bytes_eq (piece at LANES a.now) (piece at LANES b.now) }
{
    let differs = u8x64::from_slice(&a[at..]).simd_ne(u8x64::from_slice(&b[at..]));
    !differs.any()
}

/// Whether two pages are the same, byte for byte.
pub fn is_same_page(a: &Page, b: &Page) -> bool
    ensures { result ≡ bytes_eq a.now.0 b.now.0 }
{
    for run in 0..PAGE_BYTES / LANES {
        if !is_same_run(&a.0, &b.0, LANES * run) {
            return false;
        }
    }
    true
}

/// Whether two names are the same.
pub fn is_same_name(a: &Name8, b: &Name8) -> bool
    ensures { result ≡ bytes_eq a.now.0 b.now.0 }
{
    let differs = u8x8::from_array(a.0).simd_ne(u8x8::from_array(b.0));
    !differs.any()
}

// Whether so many bytes from an offset on are zero.
fn is_zero_run(bytes: &[u8], at: usize) -> bool
    requires { at + LANES ≤ length bytes.now }
    ensures { result ≡ are_zeros (piece at LANES bytes.now) }
{
    let differs = u8x64::from_slice(&bytes[at..]).simd_ne(u8x64::splat(0));
    !differs.any()
}

fn is_zero_rest(bytes: &[u8]) -> bool
    ensures { result ≡ are_zeros bytes.now }
{
    bytes.iter().all(|b| *b == 0)
}

/// Whether all bytes are zero.
pub fn is_zero(bytes: &[u8]) -> bool
    ensures { result ≡ are_zeros bytes.now }
{
    let mut at = 0;
    while LANES <= bytes.len() - at {
        if !is_zero_run(bytes, at) {
            return false;
        }
        at += LANES;
    }
    is_zero_rest(&bytes[at..])
}
