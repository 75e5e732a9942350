//! Lines into groups.
ghost use Rattle.std.specs.Prelude.{◌≡◌, ◌+◌, ◌-◌, ◌<◌, ◌≤◌, ◌∷◌, ◌++◌, [], length, take, drop, replicate, Some, slice_get, All};
ghost use Rattle.mas_types.specs.Fit.{AreLines};
ghost use Rattle.mas_types.specs.Limits.{page_bytes, line_bytes};
ghost use Rattle.mas_types.specs.Owners.{groups_needed as groups_needed_lem};
ghost use Rattle.mas_types.specs.Records.{record_of, records_of, end_byte};
ghost use Rattle.spool_text.specs.Texts.{grouped, packed, lines_at};

use crate::END_BYTE;
use mas_types::limits::PAGE_BYTES;
use mas_types::{Lines, Page};

/// How many groups the lines take; at least one. A line goes into the present group where its record and the byte after
/// the records still fit, else into the next. There are at most 9,999 lines, each of at most 132 bytes from 0x20 to
/// 0x7E.
pub fn groups_needed(lines: &Lines) -> u32
    requires { AreLines lines.now }
    ensures { result ≡ groups_needed_lem lines.now }
{
    let mut used = 0;
    let mut groups = 1;
    for line in lines.lines_from(0) {
        let size = line.len();
        if used + size + 2 <= PAGE_BYTES {
            used += size + 1;
        } else {
            used = size + 1;
            groups += 1;
        }
    }
    groups
}

/// The place of the first line that stands in the group.
fn first_line(lines: &Lines, group: u32) -> usize
    requires text { AreLines lines.now }
    requires group { group < groups_needed_lem lines.now }
    ensures within { result ≤ length lines.now }
    ensures begins { lines_at 0 (drop result lines.now) ≡ lines_at group lines.now }
{
    let mut used = 0;
    let mut more = group;
    if more == 0 {
        return 0;
    }
    for at in 0..lines.len() {
        let size = lines.line(at).len();
        if used + size + 2 <= PAGE_BYTES {
            used += size + 1;
        } else {
            used = size + 1;
            more -= 1;
            if more == 0 {
                return at;
            }
        }
    }
    unreachable!()
}

/// Writes bytes from an offset on.
fn put(bytes: &[u8], at: usize, into: &mut [u8; 4096])
    requires { at + length bytes.now ≤ page_bytes }
    ensures { take (at + length bytes.now) into.new ≡ take at into.old ++ bytes.now }
{
    into[at..at + bytes.len()].copy_from_slice(bytes);
}

/// Writes a line as a record.
fn put_record(line: &[u8], at: usize, into: &mut [u8; 4096])
    requires short { length line.now ≤ line_bytes }
    requires room { at + 1 + length line.now ≤ page_bytes }
    ensures { take (at + 1 + length line.now) into.new ≡ take at into.old ++ record_of line.now }
{
    put(&[line.len() as u8], at, into);
    put(line, at + 1, into);
}

/// Writes the records of a group that begins with the line at `first`. The answer is how many bytes they are.
fn put_records(lines: &Lines, first: usize, into: &mut [u8; 4096]) -> usize
    requires text { AreLines lines.now }
    requires within { first ≤ length lines.now }
    ensures room { result < page_bytes }
    ensures records { take result into.new ≡ records_of (lines_at 0 (drop first lines.now)) }
{
    let mut used = 0;
    for line in lines.lines_from(first) {
        if used + line.len() + 2 > PAGE_BYTES {
            break;
        }
        put_record(line, used, into);
        used += line.len() + 1;
    }
    used
}

/// Writes the byte after the records, and zeros up to the end.
fn put_end(at: usize, into: &mut [u8; 4096])
    requires { at < page_bytes }
    ensures { into.new ≡ take at into.old ++ end_byte ∷ replicate (page_bytes - (at + 1)) 0 }
{
    into[at] = END_BYTE;
    into[at + 1..].fill(0);
}

/// Writes one group of the lines, counted from 0 and below `groups_needed`: the records of its lines, the byte 0xFF,
/// and zeros. The lines are as in `groups_needed`.
pub fn pack(lines: &Lines, group: u32, into: &mut Page)
    requires text { AreLines lines.now }
    requires group { group < groups_needed_lem lines.now }
    ensures { slice_get (packed lines.now) group ≡ Some into.new.0 }
{
    let first = first_line(lines, group);
    let end = put_records(lines, first, &mut into.0);
    put_end(end, &mut into.0);
}
