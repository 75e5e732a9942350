//! What a record has of lines, of wires and of reads.
ghost use Rattle.std.specs.Prelude.{◌≡◌, ◌+◌, ◌≤◌, ◌++◌, ◌∷◌, [], length, filter, IfOk, OnOk};
ghost use Rattle.spool_disk.specs.Deeds.{gather, gives, lines_of};
ghost use Rattle.spool_disk.specs.Entries.{kept_by, kept_in, deed_of, deeds_of, reads_at};
ghost use Rattle.spool_disk.specs.Whole.{whole_lines};

use crate::crash::bytes_of;
use crate::entry::Entry;
use mas_types::{Lines, List, NoMemory};
use std::alloc::Global;

// Adds an entry's line, if it is a whole one on the place, to others.
fn add_whole(entry: &Entry, bytes: &[u8], place: usize, lines: &mut Lines) -> Result<(), NoMemory>
    ensures { OnOk result (lines.new ≡ lines.old ++ whole_lines (lines_of place (deed_of entry.now bytes.now ∷ []))) }
{
    match *entry {
        Entry::Said(at, _, true) if at == place => lines.push(bytes),
        _ => Ok(()),
    }
}

// Adds the whole lines of a record on a place to others.
pub(crate) fn add_wholes(
    log: &[Entry],
    arena: &[u8],
    place: usize,
    lines: &mut Lines,
) -> Result<(), NoMemory>
    requires { kept_in log.now ≤ length arena.now }
    ensures { OnOk result (lines.new ≡ lines.old ++ whole_lines (lines_of place (deeds_of log.now arena.now))) }
{
    let mut from = 0;
    for entry in log {
        let kept = bytes_of(entry);
        add_whole(entry, &arena[from..from + kept], place, lines)?;
        from += kept;
    }
    Ok(())
}

// Adds the bytes that an entry gave on a wire to others.
fn add_given(entry: &Entry, bytes: &[u8], wire: u8, given: &mut List<u8>) -> Result<(), NoMemory>
    ensures { OnOk result (given.new ≡ given.old ++ gives wire (deed_of entry.now bytes.now)) }
{
    match *entry {
        Entry::Passed(true, on, _, _) if on == wire => push_all(bytes, given),
        _ => Ok(()),
    }
}

fn push_all(bytes: &[u8], list: &mut List<u8>) -> Result<(), NoMemory>
    ensures { OnOk result (list.new ≡ list.old ++ bytes.now) }
{
    for byte in bytes {
        list.push(*byte)?;
    }
    Ok(())
}

// The bytes that a record gave on a wire.
pub(crate) fn all_given(
    alloc: Global,
    log: &[Entry],
    arena: &[u8],
    wire: u8,
) -> Result<List<u8>, NoMemory>
    requires { kept_in log.now ≤ length arena.now }
    ensures { IfOk result (λ given. given ≡ gather (gives wire) (deeds_of log.now arena.now)) }
{
    let mut given = List::new(alloc);
    let mut from = 0;
    for entry in log {
        let kept = bytes_of(entry);
        add_given(entry, &arena[from..from + kept], wire, &mut given)?;
        from += kept;
    }
    Ok(given)
}

fn is_fetch(entry: &Entry, slot: usize) -> bool
    ensures { result ≡ reads_at slot entry.now }
{
    match *entry {
        Entry::Fetched(place) => place == slot,
        _ => false,
    }
}

// How many reads of a slot a record has.
pub(crate) fn count_reads(log: &[Entry], slot: usize) -> usize
    ensures { result ≡ length (filter (reads_at slot) log.now) }
{
    log.iter().filter(|entry| is_fetch(entry, slot)).count()
}
