//! Lines out of groups.
ghost use Rattle.std.specs.Prelude.{◌≡◌, ◌+◌, ◌-◌, ◌<◌, ◌≤◌, ◌++◌, ◌&&◌, ◌↔◌, nat_le, length, take, drop, true, false, Some, IsSome, OnOk, is_some, OnErr, slice_index};
ghost use Rattle.mas_types.specs.Fit.{is_text_byte as is_text_byte_lem, is_text_line};
ghost use Rattle.mas_types.specs.Records.{is_record, records_in, HoldsNoRecords};
ghost use Rattle.brief_queue.specs.Records.{count_of};
ghost use Rattle.spool_text.specs.Reading.{AddsRecords, AddsFirst};

use crate::END_BYTE;
use brief_queue::BriefLines;
use mas_types::limits::{LINE_BYTES, PAGE_BYTES};
use mas_types::{Lines, NoMemory, Page};
use std::alloc::Global;
use std::simd::prelude::*;

/// Why a group gave no text.
#[derive(Clone, Copy)]
pub enum TextNo {
    /// The group holds no records.
    Bad,
    /// Out of memory.
    NoMemory,
}

fn is_text_byte(byte: u8) -> bool
    ensures { result ≡ is_text_byte_lem byte }
{
    (0x20..=0x7E).contains(&byte)
}

/// The number of bytes that are tested at once.
const LANES: usize = 16;

/// Whether so many bytes from an offset on may stand in a text.
fn is_text_run(bytes: &[u8], at: usize) -> bool
    requires { at + LANES ≤ length bytes.now }
    ensures { result ≡ is_text_line (take LANES (drop at bytes.now)) }
{
    let run = u8x16::from_slice(&bytes[at..]);
    let is_below = run.simd_lt(u8x16::splat(0x20));
    let is_above = run.simd_gt(u8x16::splat(0x7E));
    !is_below.any() && !is_above.any()
}

fn is_text_rest(bytes: &[u8]) -> bool
    ensures { result ≡ is_text_line bytes.now }
{
    bytes.iter().all(|byte| is_text_byte(*byte))
}

/// Whether all bytes may stand in a text.
fn is_text(bytes: &[u8]) -> bool
    ensures { result ≡ is_text_line bytes.now }
{
    let mut at = 0;
    while LANES <= bytes.len() - at {
        if !is_text_run(bytes, at) {
            return false;
        }
        at += LANES;
    }
    is_text_rest(&bytes[at..])
}

/// Whether the bytes may be a line of a text.
pub fn is_line(bytes: &[u8]) -> bool
    ensures { result ≡ is_record bytes.now }
{
    bytes.len() <= LINE_BYTES && is_text(bytes)
}

/// Whether a record begins at a byte.
fn is_record_at(group: &[u8; 4096], at: usize) -> bool
    requires { at < length group.now }
    ensures { let size = slice_index group.now at in let rest = drop (at + 1) group.now in
        result ≡ (nat_le size (length rest) && is_record (take size rest)) }
{
    let size = group[at] as usize;
    let rest = &group[at + 1..];
    size <= rest.len() && is_line(&rest[..size])
}

// How many records the bytes hold, none where they hold none.
fn count_in(group: &[u8; 4096]) -> Option<u16>
    ensures { result ≡ count_of (records_in group.now) }
{
    let mut at = 0;
    let mut count: u16 = 0;
    while at < PAGE_BYTES && group[at] != END_BYTE {
        if !is_record_at(group, at) {
            return None;
        }
        at += 1 + group[at] as usize;
        count += 1;
    }
    if at < PAGE_BYTES { Some(count) } else { None }
}

/// Whether the bytes are records and the byte after them.
fn holds_records(group: &[u8; 4096]) -> bool
    ensures { result ≡ is_some (records_in group.now) }
{
    count_in(group).is_some()
}

/// Adds the records of a group.
fn push_records(group: &[u8; 4096], into: &mut Lines) -> Result<(), NoMemory>
    requires { IsSome (records_in group.now) }
    ensures ok { OnOk result (AddsRecords group.now into.old into.new) }
    ensures err { OnErr result (AddsFirst group.now into.old into.new) }
{
    let mut at = 0;
    while group[at] != END_BYTE {
        let text = at + 1;
        let size = group[at] as usize;
        into.push(&group[text..text + size])?;
        at = text + size;
    }
    Ok(())
}

/// Adds the lines that a group holds, one for each record. `Bad` comes exactly where the group holds no records: it
/// must be whole records, each one length byte of 0 to 132 and as many bytes of 0x20 to 0x7E, and then the byte 0xFF;
/// what stands after that doesn't matter. After `Bad` the lines are as they were. After `NoMemory` the first ones of
/// the group's lines are added, so many as there was memory for.
pub fn unpack(_alloc: Global, group: &Page, into: &mut Lines) -> Result<(), TextNo>
    ensures ok { OnOk result (AddsRecords group.now.0 into.old into.new) }
    ensures bad { (result ≡ Err TextNo.Bad) ↔ HoldsNoRecords group.now.0 }
    ensures unchanged { result ≡ Err TextNo.Bad → into.new ≡ into.old }
    ensures no_memory { result ≡ Err TextNo.NoMemory → AddsFirst group.now.0 into.old into.new }
{
    if !holds_records(&group.0) {
        return Err(TextNo::Bad);
    }
    match push_records(&group.0, into) {
        Ok(()) => Ok(()),
        Err(NoMemory) => Err(TextNo::NoMemory),
    }
}

/// Adds the lines that a group holds, of which memory keeps no byte; false where it holds no records, as `unpack` has
/// it. Then the lines are as they were.
pub fn add_lines(group: &Page, into: &mut BriefLines) -> bool
    ensures added { result ≡ true → AddsRecords group.now.0 into.old into.new }
    ensures none { result ≡ false → HoldsNoRecords group.now.0 }
    ensures unchanged { result ≡ false → into.new ≡ into.old }
{
    match count_in(&group.0) {
        Some(count) => {
            into.add_group(group, count);
            true
        }
        None => false,
    }
}
