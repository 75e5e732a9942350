//! What a run leaves, and what a start of it finds.
use crate::bases::base_of;
use crate::cases::{Case, crashed, start};
use crate::player::{Played, Player};
use crate::queues::add_queue;
use brief_journal::BriefBatch;
use brief_queue::BriefJob;
use mas_types::{Dev, Fate, Lines, MemberId, NoMemory, Phase, Status, status_line};
use spool_disk::MemPlant;
use spool_plant::{Act, Choice, Part, Plant};
use std::alloc::Global;
use tests_lines::Writer;

const SYSA: MemberId = MemberId(1);

const SYSB: MemberId = MemberId(2);

/// Who reads and writes from outside of a run.
const OPERATOR: MemberId = MemberId(0);

/// The one volume, which has all texts.
pub const VOLUME: Dev = Dev::Spool(1);

/// The bytes of a block.
pub const BLOCK: usize = 4096;

/// The pages of a copy, which stand at home in the blocks behind the first one.
const PAGES: u8 = 6;

/// The slots behind them, each a directory and room for an image of each page.
const SLOTS: u8 = 4;

/// The byte of an open gate.
const OPEN: u8 = 165;

/// How many of the jobs are entered, and once more how many there are: after how many batches of decks the queue is.
pub fn batches_of_decks(jobs: &[BriefJob]) -> u64 {
    let mut count = 0u64;
    for job in jobs {
        count = count.saturating_add(if job.phase == Phase::Input { 1 } else { 2 });
    }
    count
}

/// How many batches were kept at a moment, and how many had begun.
pub fn kept_and_begun(batches: &[BriefBatch], t: u64) -> (u64, u64) {
    let mut kept = 0u64;
    let mut begun = 0u64;
    for batch in batches {
        kept = kept.saturating_add(u64::from(batch.last() <= t));
        begun = begun.saturating_add(u64::from(batch.first() <= t));
    }
    (kept, begun)
}

// How many batches are kept, or in flight.
fn fated(batches: &[BriefBatch], fate: Fate) -> u64 {
    let mut count = 0u64;
    for batch in batches {
        count = count.saturating_add(u64::from(batch.fate() == fate));
    }
    count
}

/// How a run ended.
pub fn add_status(alloc: Global, line: &mut Writer, status: &Status) {
    match status_line(alloc, status) {
        Ok(None) => line.add(b"DONE"),
        Ok(Some(text)) => line.add(text.as_slice()),
        Err(_) => line.lack(),
    }
}

/// Which parts are lost.
pub fn add_lost(line: &mut Writer, plant: &MemPlant) {
    line.add(b", lost");
    line.add_flag(b" CKPT1", plant.lost(Part::Disk(Dev::Ckpt1)));
    line.add_flag(b" CKPT2", plant.lost(Part::Disk(Dev::Ckpt2)));
    line.add_flag(b" SPOOL1", plant.lost(Part::Disk(Dev::Spool(1))));
    line.add_flag(b" PRT1", plant.lost(Part::Printer(SYSA)))
}

// The lines from one on, behind a word.
fn add_paper(line: &mut Writer, word: &[u8], lines: Result<Lines, NoMemory>, from: usize) {
    line.add(word);
    line.add_read(lines, from);
}

// Which parts are lost, what stands on the console from a line on, and what on SYSA's paper, and on SYSB's if it
// printed.
fn add_outside(alloc: Global, line: &mut Writer, plant: &MemPlant, said: usize) {
    add_lost(line, plant);
    add_paper(line, b", says", plant.console_lines(alloc), said);
    add_paper(line, b", paper", plant.printer_lines(alloc, SYSA), 0);
    let other = plant.printer_lines(alloc, SYSB);
    if !matches!(&other, Ok(lines) if lines.len() == 0) {
        add_paper(line, b", paper of SYSB", other, 0);
    }
}

/// How a run ended: its status, how many batches are kept and how many in flight, what is lost, and what it said and
/// printed.
pub fn add_ended(alloc: Global, line: &mut Writer, ended: &Played) {
    let batches = ended.journal.batches();
    add_status(alloc, line, &ended.status);
    line.add_number(b", kept ", fated(batches, Fate::Kept));
    line.add_number(b", flying ", fated(batches, Fate::Flying));
    add_outside(alloc, line, &ended.plant, 0)
}

/// The bytes of a device; none where it can't be read.
pub fn content(alloc: Global, plant: &mut MemPlant, dev: Dev) -> Result<Vec<u8>, NoMemory> {
    let size = plant.size(dev) as usize;
    let mut bytes = vec![in alloc; 0u8; size]?;
    match plant.read(OPERATOR, dev, 0, &mut bytes) {
        Act::Done => Ok(bytes),
        _ => Ok(Vec::new(alloc)),
    }
}

/// Writes bytes where the device has room for them.
pub fn put(plant: &mut MemPlant, dev: Dev, at: u64, bytes: &[u8]) {
    let size = plant.size(dev);
    let count = bytes.len() as u64;
    if at <= size && count <= size - at {
        let _ = plant.write(OPERATOR, dev, at, bytes);
    }
}

/// A block of a device's bytes; it has fewer bytes where the device ends.
pub fn block(bytes: &[u8], number: usize) -> &[u8] {
    let start = number.saturating_mul(BLOCK).min(bytes.len());
    let (_, rest) = bytes.split_at(start);
    &rest[..BLOCK.min(rest.len())]
}

// The byte at a place, 0 where there is none.
fn byte(bytes: &[u8], at: usize) -> u8 {
    match bytes.get(at) {
        Some(byte) => *byte,
        None => 0,
    }
}

// In which block the image of a page stands in a slot, where the slot's directory lists the page.
fn listed(copy: &[u8], slot: u8, page: u8) -> Option<usize> {
    let first = 7 * (slot as usize + 1);
    let directory = block(copy, first);
    let count = byte(directory, 1);
    let mut place = None;
    for at in 0..PAGES {
        if at < count && byte(directory, 17 + 2 * at as usize) == page {
            place = Some(first + 1 + at as usize);
        }
    }
    place
}

// In which block a page of a copy stands: at home, or in the last open slot that lists it.
fn place(copy: &[u8], page: u8) -> usize {
    let mut place = 1 + page as usize;
    for slot in 0..SLOTS {
        if byte(copy, 8 + slot as usize) == OPEN {
            place = listed(copy, slot, page).unwrap_or(place);
        }
    }
    place
}

// Two copies that can be read have the same pages.
fn are_equal(first: &[u8], second: &[u8]) -> bool {
    if first.len() == 0 {
        return false;
    }
    for page in 0..PAGES {
        if block(first, place(first, page)) != block(second, place(second, page)) {
            return false;
        }
    }
    true
}

/// The queue that a start finds behind an ended run.
pub fn add_left<P: Player>(player: &P, line: &mut Writer, ended: &Played) -> Result<(), NoMemory> {
    let alloc = player.alloc();
    let mut left = crashed(alloc, &ended.plant, ended.plant.now(), Choice::Old)?;
    let volume = content(alloc, &mut left, VOLUME)?;
    let next = start(player, b"", left)?;
    line.add(b", then ");
    add_status(alloc, line, &next.status);
    add_queue(line, &base_of(alloc, volume.as_slice(), &next.base)?);
    Ok(())
}

// Loses what is lost in a crash, and writes the byte of another hand.
fn change(case: &Case, left: &mut MemPlant) {
    if let Some(dev) = case.gone {
        left.lose(dev);
    }
    if let Some((dev, place, byte)) = case.byte {
        put(left, dev, place, &[byte]);
    }
}

// How a start ended: its status, its batches, the queue that it found, what is lost, and what it said and printed.
fn add_start(
    alloc: Global,
    line: &mut Writer,
    ended: &Played,
    said: usize,
    volume: &[u8],
) -> Result<(), NoMemory> {
    add_status(alloc, line, &ended.status);
    line.add_number(b", batches ", ended.journal.len() as u64);
    line.add(b",");
    add_queue(line, &base_of(alloc, volume, &ended.base)?);
    add_outside(alloc, line, &ended.plant, said);
    Ok(())
}

/// Tells whether both copies read as the same pages.
pub fn add_equal(alloc: Global, line: &mut Writer, plant: &mut MemPlant) -> Result<(), NoMemory> {
    let first = content(alloc, plant, Dev::Ckpt1)?;
    let second = content(alloc, plant, Dev::Ckpt2)?;
    let equal = are_equal(first.as_slice(), second.as_slice());
    line.add_flag(b", copies are equal", equal);
    line.add_flag(b", copies differ", !equal);
    Ok(())
}

// All that is told of a start.
fn add_found<P: Player>(
    player: &P,
    line: &mut Writer,
    case: &Case,
    ended: &mut Played,
    said: usize,
    volume: &[u8],
) -> Result<u64, NoMemory> {
    add_start(player.alloc(), line, ended, said, volume)?;
    if case.next.bytes().len() > 0 {
        add_left(player, line, ended)?;
    }
    if case.equal {
        add_equal(player.alloc(), line, &mut ended.plant)?;
    }
    Ok(batches_of_decks(ended.base.jobs()))
}

/// How many lines the console has.
pub fn count_said(alloc: Global, plant: &MemPlant) -> Result<usize, NoMemory> {
    Ok(plant.console_lines(alloc)?.len())
}

/// Tells a start of what a crash leaves. It gives after how many batches of decks its queue is.
pub fn found<P: Player>(
    player: &P,
    line: &mut Writer,
    case: &Case,
    left: Box<MemPlant>,
) -> Result<u64, NoMemory> {
    let mut left = left;
    change(case, &mut left);
    let said = count_said(player.alloc(), &left)?;
    let volume = content(player.alloc(), &mut left, VOLUME)?;
    let mut ended = start(player, case.next.bytes(), left)?;
    add_found(player, line, case, &mut ended, said, volume.as_slice())
}
