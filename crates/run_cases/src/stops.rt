//! A stop at each act of a stretch, up to the first that no run comes to, and behind each one a crash at each moment
//! from there on: with each image, with both copies and with either one lost. What a start finds then must be the queue
//! after the kept batches, or that with the batch in flight; with both copies exactly where either one has it. Each
//! step that the console told is kept by then, each line that an output's mark counts stands on some paper, and the
//! start after that one finds the same queue, reset.
use crate::bases::base_of;
use crate::cases::{Case, crashed, start};
use crate::looks::{VOLUME, content, kept_and_begun};
use crate::modes::Told;
use crate::plain::lines_of;
use crate::player::{Played, Player};
use crate::queues::add_queue;
use brief_journal::BriefBatch;
use brief_queue::{BriefOutput, BriefQueue};
use mas_types::words::{push_digits, push_output_key};
use mas_types::{Dev, Fate, Lines, List, MEMBERS_MOST, MemberId, NoMemory, Status};
use spool_disk::MemPlant;
use spool_plant::{Choice, Part, Plant};
use std::alloc::Global;
use tests_lines::Writer;

// What a start may find.
#[derive(Clone, Copy)]
enum Find {
    // The queue after the kept batches, where none is in flight.
    Settled,
    // That, where one is.
    Without,
    // The queue with the batch in flight.
    With,
    // No copy is left.
    Nothing,
    // Anything else.
    Wrong,
}

// What was found behind a stop.
#[derive(Clone, Copy)]
struct Tally {
    settled: bool,
    without: bool,
    with: bool,
    wrong: u64,
}

impl Tally {
    fn note(&mut self, find: Find) {
        match find {
            Find::Settled => self.settled = true,
            Find::Without => self.without = true,
            Find::With => self.with = true,
            Find::Nothing => {}
            Find::Wrong => self.wrong = self.wrong.saturating_add(1),
        }
    }

    fn add(&self, line: &mut Writer) {
        line.add_flag(b"none in flight, ", self.settled);
        line.add_flag(b"in flight and dropped, ", self.without);
        line.add_flag(b"in flight and kept, ", self.with);
        line.add_number(b"wrong ", self.wrong)
    }
}

// Whether a start's line is the one at a place.
fn is_there(lines: &[Writer], at: u64, line: &[u8]) -> bool {
    match lines.get(at as usize) {
        Some(there) => there.bytes() == line,
        None => false,
    }
}

// The place of the queue after so many batches: the last of them that was kept made it.
fn place_of(batches: &[BriefBatch], ended: u64) -> u64 {
    let mut place = 0u64;
    let mut number = 0u64;
    for batch in batches {
        number = number.saturating_add(1);
        if number <= ended && batch.fate() == Fate::Kept {
            place = number;
        }
    }
    place
}

// What a start found behind a crash at a moment, by its line.
fn find_of(lines: &[Writer], batches: &[BriefBatch], t: u64, line: &[u8]) -> Find {
    let (ended, begun) = kept_and_begun(batches, t);
    let is_kept = is_there(lines, place_of(batches, ended), line);
    if begun <= ended {
        return if is_kept { Find::Settled } else { Find::Wrong };
    }
    if is_kept {
        Find::Without
    } else if is_there(lines, begun, line) {
        Find::With
    } else {
        Find::Wrong
    }
}

// How the line of that number of an output begins on paper.
fn front_of(alloc: Global, output: &BriefOutput, number: u32) -> Result<List<u8>, NoMemory> {
    let mut front = List::new(alloc);
    push_output_key(&mut front, output.job, output.index)?;
    front.push(b' ')?;
    push_digits(&mut front, 8, number as u64)?;
    front.push(b' ')?;
    Ok(front)
}

// A line of some paper begins so.
fn is_on_paper(alloc: Global, plant: &MemPlant, front: &[u8]) -> Result<bool, NoMemory> {
    for member in 1..=MEMBERS_MOST {
        let lines = plant.printer_lines(alloc, MemberId(member))?;
        for at in 0..lines.len() {
            if lines.line(at).starts_with(front) {
                return Ok(true);
            }
        }
    }
    Ok(false)
}

// Each line that the output's mark counts stands on some paper.
fn is_printed(alloc: Global, plant: &MemPlant, output: &BriefOutput) -> Result<bool, NoMemory> {
    for number in 1..=output.mark {
        let front = front_of(alloc, output, number)?;
        if !is_on_paper(alloc, plant, front.as_slice())? {
            return Ok(false);
        }
    }
    Ok(true)
}

// Each line that a mark counts stands on some paper.
fn are_printed(alloc: Global, plant: &MemPlant, queue: &BriefQueue) -> Result<bool, NoMemory> {
    for output in queue.outputs() {
        if !is_printed(alloc, plant, output)? {
            return Ok(false);
        }
    }
    Ok(true)
}

// The step of a console's line, in the five digits behind a member's name.
fn step_of(line: &[u8]) -> u32 {
    let mut step = 0u32;
    for byte in line.iter().skip(5).take(5) {
        step = step
            .saturating_mul(10)
            .saturating_add(byte.saturating_sub(b'0') as u32);
    }
    step
}

fn has_step(batch: &BriefBatch, step: u32) -> bool {
    for entry in batch.briefs() {
        if entry.step == step {
            return true;
        }
    }
    false
}

// Each batch with an entry of the step was kept by a moment.
fn is_step_kept(batches: &[BriefBatch], step: u32, t: u64) -> bool {
    for batch in batches {
        if has_step(batch, step) && (batch.fate() != Fate::Kept || batch.last() > t) {
            return false;
        }
    }
    true
}

// Each line of a console tells a step that was kept by a moment, but for those that say of a stop.
fn are_told_kept(console: &Lines, batches: &[BriefBatch], t: u64) -> bool {
    for at in 0..console.len() {
        let line = console.line(at);
        if !line.ends_with(b" STOPPED") && !is_step_kept(batches, step_of(line), t) {
            return false;
        }
    }
    true
}

// Each line that stood on the console at a moment tells a step that was kept by then.
fn is_told_kept(alloc: Global, run: &Played, t: u64) -> Result<bool, NoMemory> {
    let left = crashed(alloc, &run.plant, t, Choice::Old)?;
    let console = left.console_lines(alloc)?;
    Ok(are_told_kept(&console, run.journal.batches(), t))
}

// The queue that a start found on a volume, and behind it the one that the start after it finds.
fn line_of<P: Player>(player: &P, first: &Played, volume: &[u8]) -> Result<Writer, NoMemory> {
    let alloc = player.alloc();
    let mut left = crashed(alloc, &first.plant, first.plant.now(), Choice::New)?;
    let then = content(alloc, &mut left, VOLUME)?;
    let second = start(player, b"", left)?;
    let mut line = Writer::new(alloc);
    add_queue(&mut line, &base_of(alloc, volume, &first.base)?);
    add_queue(&mut line, &base_of(alloc, then.as_slice(), &second.base)?);
    Ok(line)
}

// What a start finds on what a crash at a moment left.
fn judge<P: Player>(
    player: &P,
    lines: &[Writer],
    batches: &[BriefBatch],
    t: u64,
    left: Box<MemPlant>,
) -> Result<Find, NoMemory> {
    let mut left = left;
    let volume = content(player.alloc(), &mut left, VOLUME)?;
    let first = start(player, b"", left)?;
    let line = line_of(player, &first, volume.as_slice())?;
    let printed = are_printed(player.alloc(), &first.plant, &first.base)?;
    if printed && matches!(&first.status, Status::Done) {
        Ok(find_of(lines, batches, t, line.bytes()))
    } else {
        Ok(Find::Wrong)
    }
}

// What a start finds behind a crash at a moment, with a copy lost besides, if one is.
fn found_at<P: Player>(
    player: &P,
    run: &Played,
    lines: &[Writer],
    t: u64,
    choice: Choice,
    gone: Option<Dev>,
) -> Result<Find, NoMemory> {
    let mut left = crashed(player.alloc(), &run.plant, t, choice)?;
    if let Some(dev) = gone {
        left.lose(dev);
    }
    if left.lost(Part::Disk(Dev::Ckpt1)) && left.lost(Part::Disk(Dev::Ckpt2)) {
        return Ok(Find::Nothing);
    }
    judge(player, lines, run.journal.batches(), t, left)
}

// The three starts behind a crash at a moment with one image.
fn image_at<P: Player>(
    player: &P,
    run: &Played,
    lines: &[Writer],
    t: u64,
    choice: Choice,
    tally: &mut Tally,
) -> Result<(), NoMemory> {
    let both = found_at(player, run, lines, t, choice, None)?;
    let second = found_at(player, run, lines, t, choice, Some(Dev::Ckpt1))?;
    let first = found_at(player, run, lines, t, choice, Some(Dev::Ckpt2))?;
    tally.note(both);
    tally.note(second);
    tally.note(first);
    let either = matches!(first, Find::With) || matches!(second, Find::With);
    if matches!(both, Find::With) != either {
        tally.note(Find::Wrong);
    }
    Ok(())
}

// The starts behind a crash at a moment.
fn crash_at<P: Player>(
    player: &P,
    run: &Played,
    lines: &[Writer],
    t: u64,
    tally: &mut Tally,
) -> Result<(), NoMemory> {
    if !is_told_kept(player.alloc(), run, t)? {
        tally.note(Find::Wrong);
    }
    image_at(player, run, lines, t, Choice::Old, tally)?;
    image_at(player, run, lines, t, Choice::New, tally)?;
    image_at(player, run, lines, t, Choice::Ones, tally)
}

// How many reads were done since a moment.
fn reads_from(plant: &MemPlant, t: u64) -> u64 {
    let first = plant.reads_from(Dev::Ckpt1, t);
    let second = plant.reads_from(Dev::Ckpt2, t);
    let volume = plant.reads_from(Dev::Spool(1), t);
    first.saturating_add(second).saturating_add(volume)
}

// The starts behind a crash at each moment from one on. Behind a read a moment is as the one before it.
fn crashes_from<P: Player>(
    player: &P,
    run: &Played,
    lines: &[Writer],
    from: u64,
) -> Result<Tally, NoMemory> {
    let mut tally = Tally {
        settled: false,
        without: false,
        with: false,
        wrong: 0,
    };
    for t in from..=run.plant.now() {
        let before = reads_from(&run.plant, t.saturating_sub(1));
        if t == from || before == reads_from(&run.plant, t) {
            crash_at(player, run, lines, t, &mut tally)?;
        }
    }
    Ok(tally)
}

// What starts find behind a stop at an act of a run.
fn tally_of<P: Player>(player: &P, case: &Case, run: &Played, act: u64) -> Result<Tally, NoMemory> {
    let lines = lines_of(player.alloc(), case.script.bytes(), &run.journal)?;
    crashes_from(player, run, lines.as_slice(), act)
}

// What starts find behind a stop at an act; none where the run doesn't come to it.
fn tally_at<P: Player>(player: &P, case: &Case, act: u64) -> Result<Option<Tally>, NoMemory> {
    let run = case.run(player)?;
    if act >= run.plant.now() {
        return Ok(None);
    }
    Ok(Some(tally_of(player, case, &run, act)?))
}

impl<P: Player> Told<P> {
    // What starts find behind a stop at an act.
    fn stop(&mut self, tally: &Tally, act: u64) {
        let mut line = Writer::new(self.alloc);
        tally.add(&mut line);
        self.at(act, line)
    }

    /// Each act of a stretch halts, up to the first that no run comes to, with a crash at each moment behind it.
    pub fn stops(&mut self, case: &mut Case, from: u64, to: u64) -> Result<(), NoMemory> {
        for act in from..=to {
            case.halts = act;
            let Some(tally) = tally_at(&self.player, case, act)? else {
                break;
            };
            self.stop(&tally, act);
        }
        self.end();
        Ok(())
    }
}
