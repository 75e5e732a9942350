//! What a crash leaves of the devices, of the console and of the printers.
ghost use Rattle.std.specs.Prelude.{◌≡◌, ◌+◌, ◌≤◌, ◌<◌, ◌++◌, ◌∷◌, [], ℕ, List, length, take, drop, IfOk, OnOk, if◌then◌else◌, slice_index, false};
ghost use Rattle.spool_plant.specs.View.{Disk};
ghost use Rattle.spool_disk.specs.Deeds.{overwrite, effect, after, lines_of};
ghost use Rattle.spool_disk.specs.Entries.{kept_by, kept_in, deed_of, deeds_of};
ghost use Rattle.spool_plant.specs.Crash.{IsOnes, is_in};
ghost use Rattle.spool_disk.specs.Settled.{last_synced, Leaves, is_sync, IsQuiet, EndsSynced};
ghost use Rattle.spool_disk.specs.Standing.{bytes_at};
ghost use Rattle.spool_disk.specs.State.{first_lines};
ghost use Rattle.spool_disk.specs.LeavesAt.{LeavesAt};

use crate::base::Base;
use crate::entry::Entry;
use crate::record::{clear, copy};
use spool_plant::Choice;
use std::alloc::{AllocError, Global};

// Puts bytes over others, if they fit.
fn over(disk: &mut [u8], at: usize, bytes: &[u8])
    ensures { disk.new ≡ overwrite at bytes.now disk.old }
{
    if bytes.len() <= disk.len() && at <= disk.len() - bytes.len() {
        disk[at..at + bytes.len()].copy_from_slice(bytes);
    }
}

// Makes ones of a stretch, as far as it is there.
fn ones(disk: &mut [u8], at: usize, len: usize)
    ensures { (k : ℕ) → k < length disk.old
        → slice_index disk.new k ≡ (if is_in at len k then 255 else slice_index disk.old k) }
{
    let end = at.saturating_add(len).min(disk.len());
    for i in at.min(end)..end {
        disk[i] = 0xff;
    }
}

// The bytes that an entry has in the record.
pub(crate) fn bytes_of(entry: &Entry) -> usize
    ensures { result ≡ kept_by entry.now }
{
    match *entry {
        Entry::Wrote(_, _, _, kept) | Entry::Said(_, kept, _) | Entry::Passed(_, _, _, kept) =>
            kept,
        Entry::Idle | Entry::Synced(_) | Entry::Fetched(_) | Entry::Renewed(_, _) => 0,
    }
}

// Does what an entry with its bytes did to the bytes of a slot.
fn redo(entry: &Entry, bytes: &[u8], slot: usize, disk: &mut [u8])
    ensures { (d : Disk) → disk.old ≡ d.bytes → disk.new ≡ (effect slot d (deed_of entry.now bytes.now)).bytes }
{
    match *entry {
        Entry::Wrote(place, at, _, _) if place == slot => over(disk, at, bytes),
        Entry::Renewed(place, _) if place == slot => clear(disk),
        _ => {}
    }
}

// Does what all entries did, and answers how many bytes they have.
fn replay(log: &[Entry], arena: &[u8], slot: usize, disk: &mut [u8]) -> usize
    requires { kept_in log.now ≤ length arena.now }
    ensures used { result ≡ kept_in log.now }
    ensures disk { (d : Disk) → disk.old ≡ d.bytes → disk.new ≡ (after slot d (deeds_of log.now arena.now)).bytes }
{
    let mut from = 0;
    for entry in log {
        let kept = bytes_of(entry);
        redo(entry, &arena[from..from + kept], slot, disk);
        from += kept;
    }
    from
}

// Makes ones of what an entry wrote to a slot.
fn paint_one(entry: &Entry, slot: usize, image: &mut [u8])
    ensures { (d : Disk) (bytes : List ℕ) → length bytes ≤ kept_by entry.now → is_sync slot entry.now ≡ false
        → IsOnes d image.old → IsOnes (effect slot d (deed_of entry.now bytes)) image.new }
{
    match *entry {
        Entry::Wrote(place, at, len, kept) if place == slot => {
            let reach = len.max(kept);
            ones(image, at, reach);
        }
        _ => {}
    }
}

// Makes ones of all that entries wrote to a slot, none of which is a sync of it.
fn paint(log: &[Entry], slot: usize, image: &mut [u8])
    ensures { (d : Disk) (arena : List ℕ) → IsQuiet slot log.now → IsOnes d image.old
        → IsOnes (after slot d (deeds_of log.now arena)) image.new }
{
    for entry in log {
        paint_one(entry, slot, image);
    }
}

// The later place where an entry is a sync of a slot or its renewal, and else the earlier one.
fn latest(entry: &Entry, slot: usize, earlier: usize, later: usize) -> usize
    ensures { result ≡ (if is_sync slot entry.now then later else earlier) }
{
    match *entry {
        Entry::Synced(place) | Entry::Renewed(place, _) if place == slot => later,
        _ => earlier,
    }
}

// How many entries there are up to the last sync of a slot, or its last renewal.
fn last_sync(log: &[Entry], slot: usize) -> usize
    ensures within { result ≤ length log.now }
    ensures ends { EndsSynced slot (take result log.now) }
    ensures quiet { IsQuiet slot (drop result log.now) }
{
    let mut last = 0;
    for (i, entry) in log.iter().enumerate() {
        last = latest(entry, slot, last, i + 1);
    }
    last
}

// Makes what a crash leaves of the bytes that a slot had at first.
fn shape(log: &[Entry], arena: &[u8], slot: usize, choice: Choice, image: &mut [u8])
    requires { kept_in log.now ≤ length arena.now }
    ensures { (d : Disk) → image.old ≡ d.bytes → d.unsynced ≡ []
        → Leaves choice (last_synced slot d.bytes d (deeds_of log.now arena.now))
        (after slot d (deeds_of log.now arena.now)) image.new }
{
    if image.is_empty() {
        return;
    }
    let last = last_sync(log, slot);
    let (settled, unsynced) = log.split_at(last);
    let used = replay(settled, arena, slot, image);
    match choice {
        Choice::Old => {}
        Choice::New => {
            let (_, rest) = arena.split_at(used);
            replay(unsynced, rest, slot, image);
        }
        Choice::Ones => paint(unsynced, slot, image),
    }
}

fn image_of(
    alloc: Global,
    start: &[u8],
    log: &[Entry],
    arena: &[u8],
    slot: usize,
    choice: Choice,
) -> Result<Vec<u8>, AllocError>
    requires { kept_in log.now ≤ length arena.now }
    ensures { IfOk result (λ image. (d : Disk) → start.now ≡ d.bytes → d.unsynced ≡ []
        → Leaves choice (last_synced slot d.bytes d (deeds_of log.now arena.now))
        (after slot d (deeds_of log.now arena.now)) image.items) }
{
    let mut image = copy(alloc, start)?;
    shape(log, arena, slot, choice, &mut image);
    Ok(image)
}

// What a crash leaves of each device.
fn images(
    alloc: Global,
    base: &Base,
    log: &[Entry],
    arena: &[u8],
    choice: Choice,
) -> Result<Vec<Vec<u8>>, AllocError>
    requires { kept_in log.now ≤ length arena.now }
    ensures len { IfOk result (λ all. length all.items ≡ 258) }
    ensures each { IfOk result (λ all. (slot : ℕ) → slot < 258
        → LeavesAt choice base.now slot (deeds_of log.now arena.now) (bytes_at all.items slot)) }
{
    let start = base.start.as_slice();
    let mut all = Vec::with_capacity(alloc, start.len())?;
    for (slot, disk) in start.iter().enumerate() {
        let image = image_of(alloc, disk, log, arena, slot, choice)?;
        all.push(image)?;
    }
    Ok(all)
}

// Adds an entry's line, if it is one, to others.
fn add_line(
    entry: &Entry,
    bytes: &[u8],
    said: &mut Vec<Entry>,
    text: &mut Vec<u8>,
) -> Result<(), AllocError>
    requires fits { kept_in said.old.items ≡ length text.old.items }
    requires kept { kept_by entry.now ≡ length bytes.now }
    ensures lines { OnOk result ((place : ℕ)
        → lines_of place (deeds_of said.new.items text.new.items)
        ≡ lines_of place (deeds_of said.old.items text.old.items)
        ++ lines_of place (deed_of entry.now bytes.now ∷ [])) }
    ensures fits { OnOk result (kept_in said.new.items ≡ length text.new.items) }
{
    if let Entry::Said(_, _, _) = *entry {
        text.extend_from_slice(bytes)?;
        said.push(*entry)?;
    }
    Ok(())
}

// Adds the lines of a record to others.
fn add_lines(
    log: &[Entry],
    arena: &[u8],
    said: &mut Vec<Entry>,
    text: &mut Vec<u8>,
) -> Result<(), AllocError>
    requires arena { kept_in log.now ≤ length arena.now }
    requires fits { kept_in said.old.items ≡ length text.old.items }
    ensures lines { OnOk result ((place : ℕ)
        → lines_of place (deeds_of said.new.items text.new.items)
        ≡ lines_of place (deeds_of said.old.items text.old.items) ++ lines_of place (deeds_of log.now arena.now)) }
    ensures fits { OnOk result (kept_in said.new.items ≡ length text.new.items) }
{
    let mut from = 0;
    for entry in log {
        let kept = bytes_of(entry);
        add_line(entry, &arena[from..from + kept], said, text)?;
        from += kept;
    }
    Ok(())
}

// What a plant begins with after a crash.
pub(crate) fn crashed_base(
    alloc: Global,
    base: &Base,
    log: &[Entry],
    arena: &[u8],
    choice: Choice,
) -> Result<Base, AllocError>
    requires { kept_in log.now ≤ length arena.now }
    ensures sizes { IfOk result (λ b. b.sizes ≡ base.now.sizes) }
    ensures each { IfOk result (λ b. (slot : ℕ) → slot < 258
        → LeavesAt choice base.now slot (deeds_of log.now arena.now) (bytes_at b.start.items slot)) }
    ensures lines { IfOk result (λ b. (place : ℕ)
        → first_lines b place ≡ first_lines base.now place ++ lines_of place (deeds_of log.now arena.now)) }
{
    let start = images(alloc, base, log, arena, choice)?;
    let mut said = Vec::new(alloc);
    let mut text = Vec::new(alloc);
    add_lines(&base.said, &base.text, &mut said, &mut text)?;
    add_lines(log, arena, &mut said, &mut text)?;
    Ok(Base {
        sizes: base.sizes,
        start,
        said,
        text,
    })
}
