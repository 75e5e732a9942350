//! A plant in memory, which keeps a record of all acts.
ghost use Rattle.std.specs.Prelude.{◌≡◌, ◌≢◌, ◌⊎◌, ◌+◌, ◌-◌, ◌≤◌, ◌<◌, ◌++◌, ℕ, length, min, slice_index, false, true, is_some, take, vec_capacity, IfOk, IfErr, if◌then◌else◌};
ghost use Rattle.mas_types.specs.declared.ids.Dev.{Dev};
ghost use Rattle.spool_disk.specs.Places.{slot_of, place_of};
ghost use Rattle.spool_plant.specs.Acts.{next, top};
ghost use Rattle.spool_disk.specs.Health.{health_at, since_of};
ghost use Rattle.spool_disk.specs.Courses.{plan_at, is_print, as_planned as planned_course};
ghost use Rattle.spool_disk.specs.Kept.{size_at};

use crate::base::{Base, blank_base};
use crate::crash::crashed_base;
use crate::fuses::Fuses;
use crate::health::{Counts, Health, crashed_parts, sound_parts};
use crate::incoming::Incoming;
use crate::lines::{add_wholes, all_given, count_reads};
use crate::places::{place_number, slot_number};
use crate::plan::{Course, Plan, Planned};
use crate::record::Record;
use crate::sizes::Sizes;
use mas_types::{Dev, Lines, List, MemberId, NoMemory};
use spool_plant::{Act, Choice, Fuse, Part, Plant, Took};
use std::alloc::{AllocError, Global};

/// How many acts may be planned.
pub const PLANS_MOST: usize = 64;

/// A plant in memory, which tells its content and keeps a record of all acts. The record's room is taken when the plant
/// is made, so no act runs out of memory. An act that doesn't fit the record fails.
#[derive(Drop)]
pub struct MemPlant {
    /// The number of acts that were made.
    moment: u64,
    /// The record of all acts.
    kept: Record,
    /// The counts of faults, stops, losses and armed calls.
    counts: Counts,
    /// The moment behind the last act that was halted, 0 where there was none.
    halt: u64,
    /// The plans that are still to come, at most 64.
    plans: Vec<Plan>,
    /// The stops that are armed.
    fuses: Fuses,
    /// The bytes that wait on the wires.
    incoming: Incoming,
    ghost in_step: { (length kept.log.items ≤ moment)
        × (length kept.log.items < kept.acts → length kept.log.items ≡ moment) },
    ghost planned: { (length plans.items ≤ 64) × (64 ≤ vec_capacity plans) },
    ghost lost_by_now: { (place : ℕ) → since_of (health_at counts.parts.items place).since ≤ moment },
    ghost lost_still: { (place : ℕ) → is_some (health_at counts.parts.items place).since ≡ true
        → (health_at counts.parts.items place).lost ≡ true },
}

// The first plan of a moment.
fn planned_at(plans: &[Plan], moment: u64) -> Option<Planned>
    ensures { result ≡ plan_at plans.now moment }
{
    plans
        .iter()
        .find(|plan| plan.moment == moment)
        .map(|plan| plan.planned)
}

// What becomes of an act with so many bytes that fits, of which it is known whether it halts by an armed stop.
fn as_planned(planned: Option<Planned>, halts: bool, len: usize, by: MemberId, lost: bool) -> Course
    ensures { result ≡ planned_course planned halts len by.0 lost }
{
    match planned {
        Some(Planned::Fails) => Course::Fail,
        Some(Planned::Halts(keep)) if by.0 > 0 => Course::Halt(keep as usize),
        None if halts && by.0 > 0 => Course::Halt(len / 2),
        _ if lost => Course::Fail,
        _ => Course::Go,
    }
}

fn prints(part: Part) -> bool
    ensures { result ≡ is_print part }
{
    matches!(part, Part::Printer(_))
}

impl MemPlant {
    ghost use Rattle.spool_disk.specs.Courses.{course_of};
    ghost use Rattle.spool_disk.specs.declared.plan.Course.TheVariants.{Go, Halt};
    ghost use Rattle.spool_disk.specs.MemView.{mem_view, mem_book, state_of, SameReads};
    ghost use Rattle.spool_disk.specs.Deeds.{Idle, Wrote, Synced, Said, Passed, Fetched, idled};
    ghost use Rattle.spool_disk.specs.State.{recorded, halted, failed, lost, renewed};
    ghost use Rattle.spool_plant.specs.Acts.{Acts};
    ghost use Rattle.spool_disk.specs.Failing.{FailsAlone};
    ghost use Rattle.spool_plant.specs.declared.plant.Act.TheVariants.{Failed};
    ghost use Rattle.spool_disk.specs.Courses.{spent, renews_now};

    // What becomes of an act with so many bytes to record.
    fn course(&self, by: MemberId, part: Part, len: usize) -> Course
        ensures course { result ≡ course_of (mem_book self.now) (mem_view self.now) by.0 part len }
        ensures go { result ≡ Go → (self.now.moment < self.now.kept.acts) × (self.now.moment < top)
            × (length self.now.kept.arena.items + len ≤ self.now.kept.room) × ((mem_view self.now).lost part ≡ false) }
        ensures halt { (keep : ℕ) → result ≡ Halt keep → (self.now.moment < self.now.kept.acts)
            × (self.now.moment < top) × (length self.now.kept.arena.items + len ≤ self.now.kept.room) × (0 < by.0) }
    {
        let room = self.kept.room - self.kept.arena.len();
        if self.moment < self.kept.acts as u64 && len <= room {
            let lost = self.counts.parts[place_number(part)].lost;
            let halts = self.fuses.halts(by, prints(part));
            as_planned(planned_at(&self.plans, self.moment), halts, len, by, lost)
        } else {
            Course::Fail
        }
    }

    // An act that changes nothing.
    fn note_idle(&mut self)
        requires { self.old.moment < self.old.kept.acts }
        ensures state { state_of self.new ≡ recorded (state_of self.old) Idle (state_of self.old).stops }
        ensures book { mem_book self.new ≡ mem_book self.old }
    {
        self.kept.add_idle();
        self.moment += 1;
    }

    fn note_sync(&mut self, slot: usize)
        requires { self.old.moment < self.old.kept.acts }
        ensures state { state_of self.new ≡ recorded (state_of self.old) (Synced slot) (state_of self.old).stops }
        ensures book { mem_book self.new ≡ mem_book self.old }
    {
        self.kept.add_sync(slot);
        self.moment += 1;
    }

    fn note_read(&mut self, slot: usize)
        requires { self.old.moment < self.old.kept.acts }
        ensures state { state_of self.new ≡ recorded (state_of self.old) (Fetched slot) (state_of self.old).stops }
        ensures book { mem_book self.new ≡ mem_book self.old }
    {
        self.kept.add_read(slot);
        self.moment += 1;
    }

    fn note_line(&mut self, place: usize, text: &[u8], whole: bool)
        requires acts { self.old.moment < self.old.kept.acts }
        requires room { length self.old.kept.arena.items + length text.now ≤ self.old.kept.room }
        ensures state { state_of self.new
            ≡ recorded (state_of self.old) (Said place text.now whole) (state_of self.old).stops }
        ensures book { mem_book self.new ≡ spent (length text.now) (mem_book self.old) }
    {
        self.kept.add_line(place, text, whole);
        self.moment += 1;
    }

    // A write of so many bytes, of which these came.
    fn note_write(&mut self, slot: usize, at: usize, len: usize, bytes: &[u8])
        requires acts { self.old.moment < self.old.kept.acts }
        requires room { length self.old.kept.arena.items + length bytes.now ≤ self.old.kept.room }
        requires there { slot < 258 }
        requires within { at + length bytes.now ≤ size_at self.old.kept.base slot }
        requires few { length bytes.now ≤ len }
        ensures state { state_of self.new
            ≡ recorded (state_of self.old) (Wrote slot at len bytes.now) (state_of self.old).stops }
        ensures book { mem_book self.new ≡ spent (length bytes.now) (mem_book self.old) }
    {
        self.kept.add_write(slot, at, len, bytes);
        self.moment += 1;
    }

    // Another device in a device's place.
    fn note_renewal(&mut self, dev: Dev)
        requires { self.old.moment < self.old.kept.acts }
        ensures state { state_of self.new ≡ renewed (state_of self.old) dev }
        ensures book { mem_book self.new ≡ mem_book self.old }
        ensures few { slot_of dev < 258 }
    {
        let slot = slot_number(dev);
        let since = self.counts.parts[4 * slot].since;
        self.kept.add_renewal(slot, since);
        self.counts.renew(slot);
        self.moment += 1;
    }

    // A renewal that fits, and of which no fault is planned.
    fn may_renew(&self) -> bool
        ensures course { result ≡ renews_now (mem_book self.now) (mem_view self.now) }
        ensures small { result ≡ true → (self.now.moment < self.now.kept.acts) × (self.now.moment < top) }
    {
        self.moment < self.kept.acts as u64
            && !matches!(planned_at(&self.plans, self.moment), Some(Planned::Fails))
    }

    // Bytes given on a wire, or else taken from it.
    fn note_passed(&mut self, given: bool, wire: u8, by: MemberId, bytes: &[u8])
        requires acts { self.old.moment < self.old.kept.acts }
        requires room { length self.old.kept.arena.items + length bytes.now ≤ self.old.kept.room }
        ensures state { state_of self.new
            ≡ recorded (state_of self.old) (Passed given wire by.0 bytes.now) (state_of self.old).stops }
        ensures book { mem_book self.new ≡ spent (length bytes.now) (mem_book self.old) }
    {
        self.kept.add_passed(given, wire, by.0, bytes);
        self.moment += 1;
    }

    // A stop of a member in the act that was made last.
    fn stop(&mut self, by: MemberId)
        ensures state { state_of self.new
            ≡ record (state_of self.old) { stops = halted (state_of self.old).stops by.0 (state_of self.old).now } }
        ensures book { mem_book self.new ≡ mem_book self.old }
        ensures fits { slice_index (state_of self.old).stops.counts by.0 ≤ top }
        ensures there { by.0 < length (state_of self.old).stops.counts }
    {
        self.counts.stop(by.0 as usize);
        self.halt = self.moment;
    }

    // A moment in which nothing is done.
    fn pass(&mut self)
        ensures moment { self.new.moment ≡ next self.old.moment }
        ensures small { self.old.moment ≤ top }
        ensures base { self.new.kept.base ≡ self.old.kept.base }
        ensures deeds { (state_of self.new).deeds ≡ idled self.old.kept.acts (state_of self.old).deeds }
        ensures counts { self.new.counts ≡ self.old.counts }
        ensures halt { self.new.halt ≡ self.old.halt }
        ensures incoming { self.new.incoming ≡ self.old.incoming }
        ensures book { mem_book self.new ≡ mem_book self.old }
    {
        self.kept.add_pass();
        self.moment = self.moment.saturating_add(1);
    }

    // A moment in which a part fails.
    fn pass_failing(&mut self, part: Part)
        ensures state { state_of self.new ≡ failed self.old.kept.acts (state_of self.old) part }
        ensures book { mem_book self.new ≡ mem_book self.old }
        ensures small { self.old.moment ≤ top }
        ensures few { place_of part < 1032 }
        ensures fits { (health_at self.old.counts.parts.items (place_of part)).faults ≤ top }
    {
        let now = self.moment;
        self.pass();
        self.counts.fail(place_number(part), now);
    }

    // A moment in which a device is lost.
    fn pass_losing(&mut self, dev: Dev)
        ensures state { state_of self.new ≡ lost self.old.kept.acts (state_of self.old) dev }
        ensures book { mem_book self.new ≡ mem_book self.old }
        ensures small { self.old.moment ≤ top }
        ensures few { slot_of dev < 258 }
        ensures fits { slice_index self.old.counts.loses.items (slot_of dev) ≤ top }
    {
        let now = self.moment;
        self.pass();
        self.counts.lose(slot_number(dev), now);
    }

    // A fault of a part.
    fn fail(&mut self, part: Part)
        ensures acts { (by : ℕ) → Acts by part (mem_view self.old) (mem_view self.new) Failed }
        ensures alone { FailsAlone part (mem_view self.old) (mem_view self.new) }
        ensures book { mem_book self.new ≡ mem_book self.old }
        ensures reads { (d : Dev) → SameReads d self.old self.new }
    {
        self.pass_failing(part);
    }
}

// The first bytes, at most so many.
fn first(bytes: &[u8], keep: usize) -> &[u8]
    ensures { result.now ≡ take keep bytes.now }
{
    &bytes[..keep.min(bytes.len())]
}

impl MemPlant {
    ghost use Rattle.std.specs.Prelude.{◌==◌, true, false};
    ghost use Rattle.spool_disk.specs.MemView.{mem_book, state_of};
    ghost use Rattle.spool_disk.specs.Deeds.{Idle, Said};
    ghost use Rattle.spool_disk.specs.State.{recorded};
    ghost use Rattle.spool_disk.specs.Courses.{spent, deed_left};

    // What a halted line leaves on its place.
    fn note_part(&mut self, place: usize, line: &[u8], keep: usize)
        requires acts { self.old.moment < self.old.kept.acts }
        requires room { length self.old.kept.arena.items + length line.now ≤ self.old.kept.room }
        ensures state { state_of self.new
            ≡ recorded (state_of self.old) (deed_left place keep line.now) (state_of self.old).stops }
        ensures book { mem_book self.new ≡ spent (min keep (length line.now)) (mem_book self.old) }
    {
        if line.len() <= keep {
            self.note_line(place, line, true);
        } else if keep == 0 {
            self.note_idle();
        } else {
            self.note_line(place, first(line, keep), false);
        }
    }
}

impl MemPlant {
    ghost use Rattle.spool_disk.specs.MemView.{mem_view, mem_book, mem_lost, mem_reads, mem_given, state_of, SameReads};
    ghost use Rattle.spool_plant.specs.View.{paper_now};
    ghost use Rattle.spool_disk.specs.State.{lines_in};
    ghost use Rattle.spool_disk.specs.CameIn.{CameIn};
    ghost use Rattle.spool_disk.specs.Begins.{BeginsWith, IsCrashed, IsBlank};
    ghost use Rattle.spool_disk.specs.Whole.{whole_lines};
    ghost use Rattle.spool_disk.specs.Courses.{empty_book, with_plan};
    ghost use Rattle.spool_plant.specs.declared.plant.Part.{Part};
    ghost use Rattle.spool_disk.specs.declared.plan.Planned.TheVariants.{Fails, Halts};

    // A plant that begins so.
    fn begin(
        alloc: Global,
        base: Base,
        parts: Vec<Health>,
        acts: usize,
        bytes: usize,
    ) -> Result<MemPlant, AllocError>
        requires many { length parts.items ≡ 1032 }
        requires first { (place : ℕ) → since_of (health_at parts.items place).since ≤ 0 }
        requires none { (place : ℕ) → (health_at parts.items place).faults ≡ 0 }
        requires lost { (place : ℕ) → is_some (health_at parts.items place).since ≡ true
            → (health_at parts.items place).lost ≡ true }
        ensures view { IfOk result (λ p. BeginsWith base parts.items (mem_view p)) }
        ensures book { IfOk result (λ p. mem_book p ≡ empty_book acts bytes) }
    {
        let kept = Record::new(alloc, base, acts, bytes)?;
        let counts = Counts::new(alloc, parts)?;
        let plans = Vec::with_capacity(alloc, PLANS_MOST)?;
        let incoming = Incoming::new(alloc)?;
        Ok(MemPlant {
            moment: 0,
            kept,
            counts,
            halt: 0,
            plans,
            fuses: Fuses::new(),
            incoming,
        })
    }

    /// A plant of zeroed devices. Its record has room for so many acts, and for so many bytes that they write, say,
    /// print, give and take. NoMemory comes where the devices or the record find no memory.
    pub fn new(alloc: Global, sizes: Sizes, acts: usize, bytes: usize) -> Result<MemPlant, NoMemory>
        ensures view { IfOk result (λ p. IsBlank sizes (mem_view p)) }
        ensures book { IfOk result (λ p. mem_book p ≡ empty_book acts bytes) }
    {
        let base = blank_base(alloc, sizes)?;
        let parts = sound_parts(alloc)?;
        Ok(MemPlant::begin(alloc, base, parts, acts, bytes)?)
    }

    /// Plans the act that is made while `now` is that number: it fails. The first plan of a moment counts. `lose`,
    /// which has no answer, passes a plan over.
    pub fn fail_at(&mut self, act: u64)
        requires { length (mem_book self.old).plans < PLANS_MOST }
        ensures view { mem_view self.new ≡ mem_view self.old }
        ensures book { mem_book self.new ≡ with_plan (record { moment = act; planned = Fails }) (mem_book self.old) }
        ensures reads { (d : Dev) → SameReads d self.old self.new }
    {
        self.plans.push_reserved(Plan {
            moment: act,
            planned: Planned::Fails,
        });
    }

    /// Plans the act that is made while `now` is that number: it halts, and leaves its first `keep` bytes, or all
    /// where it has fewer. Of a line that has bytes, of which none is left, nothing stands on its place. The operator
    /// never halts: a plan for it is passed over, as by `lose`. Otherwise as `fail_at`.
    pub fn halt_at(&mut self, act: u64, keep: u32)
        requires { length (mem_book self.old).plans < PLANS_MOST }
        ensures view { mem_view self.new ≡ mem_view self.old }
        ensures book { mem_book self.new
            ≡ with_plan (record { moment = act; planned = Halts keep }) (mem_book self.old) }
        ensures reads { (d : Dev) → SameReads d self.old self.new }
    {
        self.plans.push_reserved(Plan {
            moment: act,
            planned: Planned::Halts(keep),
        });
    }

    /// What a crash at a moment up to now leaves, with unsynced bytes by the choice. What was lost at that moment is
    /// lost, and the console and the printers hold what they held, a torn line too. Nothing waits on a wire, nothing is
    /// planned or armed, no act was made, and the record is empty and has the same room. NoMemory comes where the new
    /// plant finds none.
    pub fn crash_at(&self, alloc: Global, t: u64, choice: Choice) -> Result<MemPlant, NoMemory>
        requires { t ≤ (mem_view self.now).now }
        ensures view { IfOk result (λ p. IsCrashed choice t (mem_view self.now) (mem_view p)) }
        ensures lost { IfOk result (λ p. (part : Part) → (mem_view p).lost part ≡ mem_lost self.now t part) }
        ensures book { IfOk result (λ p. mem_book p ≡ empty_book (mem_book self.now).acts (mem_book self.now).bytes) }
    {
        let end = (t as usize).min(self.kept.log.len());
        let (log, later) = self.kept.log.split_at(end);
        let base = crashed_base(alloc, &self.kept.base, log, &self.kept.arena, choice)?;
        let parts = crashed_parts(alloc, &self.counts.parts, later, t)?;
        Ok(MemPlant::begin(alloc, base, parts, self.kept.acts, self.kept.room)?)
    }

    // The lines that stand whole on a place now.
    fn lines_at(&self, alloc: Global, place: usize) -> Result<Lines, NoMemory>
        ensures { IfOk result (λ lines. lines ≡ whole_lines (lines_in (state_of self.now) self.now.moment place)) }
    {
        let mut lines = Lines::new(alloc);
        add_wholes(
            &self.kept.base.said,
            &self.kept.base.text,
            place,
            &mut lines,
        )?;
        add_wholes(&self.kept.log, &self.kept.arena, place, &mut lines)?;
        Ok(lines)
    }

    /// The lines that stand whole on the console now. NoMemory comes where they find none.
    pub fn console_lines(&self, alloc: Global) -> Result<Lines, NoMemory>
        ensures { IfOk result (λ lines. lines
            ≡ whole_lines ((mem_view self.now).world (mem_view self.now).now).console) }
    {
        self.lines_at(alloc, place_number(Part::Console))
    }

    /// The lines that stand whole on a member's printer now. NoMemory comes where they find none.
    pub fn printer_lines(&self, alloc: Global, by: MemberId) -> Result<Lines, NoMemory>
        ensures { IfOk result (λ lines. lines ≡ whole_lines (paper_now (mem_view self.now) by.0)) }
    {
        self.lines_at(alloc, place_number(Part::Printer(by)))
    }

    /// How many reads of a device were done since a moment.
    pub fn reads_from(&self, dev: Dev, t: u64) -> u64
        ensures { result ≡ mem_reads self.now dev t }
    {
        let start = (t as usize).min(self.kept.log.len());
        let (_, log) = self.kept.log.split_at(start);
        count_reads(log, slot_number(dev)) as u64
    }

    /// More bytes wait on a wire. After NoMemory nothing has changed.
    pub fn wire_in(&mut self, _alloc: Global, wire: u8, bytes: &[u8]) -> Result<(), NoMemory>
        ensures added { IfOk result (λ u. CameIn wire bytes.now (mem_view self.old) (mem_view self.new)) }
        ensures none { IfErr result (λ e. mem_view self.new ≡ mem_view self.old) }
        ensures book { mem_book self.new ≡ mem_book self.old }
        ensures reads { (d : Dev) → SameReads d self.old self.new }
    {
        self.incoming.add(wire, bytes)?;
        Ok(())
    }

    /// The bytes that were given on a wire, by whatever member. NoMemory comes where they find none.
    pub fn wire_out(&self, alloc: Global, wire: u8) -> Result<List<u8>, NoMemory>
        ensures { IfOk result (λ bytes. bytes ≡ mem_given self.now wire) }
    {
        all_given(alloc, &self.kept.log, &self.kept.arena, wire)
    }
}

impl Plant for MemPlant {
    ghost use Rattle.spool_disk.specs.MemView.{mem_view, mem_book, mem_reads, SameReads};
    ghost use Rattle.spool_disk.specs.Took.{IsRead, IfTook};
    ghost use Rattle.spool_disk.specs.MemLaws.{mem_sized, mem_there};
    ghost use Rattle.spool_disk.specs.Courses.{course_of, answer, spent_by, spent_taking, acted, left_of, with_stop, renews_now};
    ghost use Rattle.spool_plant.specs.Acts.{Acts, Reads, Writes, Syncs, Says, Prints, GivesOn, Takes, FitsInto, act_of, Arms, Renews, RenewsThere, Loses, LosesThere};
    ghost use Rattle.spool_plant.specs.View.{disk_now, paper_now, given_now};
    ghost use Rattle.spool_disk.specs.Deeds.{overwrite};
    ghost use Rattle.spool_disk.specs.declared.plan.Course.TheVariants.{Go, Fail, Halt};
    ghost use Rattle.spool_plant.specs.declared.plant.Act.TheVariants.{Done, Failed};
    ghost use Rattle.spool_plant.specs.declared.plant.Part.TheVariants.{Disk, Console, Printer, Wire};

    ghost tells = { Unit {0} };

    ghost view = { mem_view };

    ghost sized = { λ m told t le d. mem_sized m t d };

    ghost there = { λ m told d whole. mem_there m d whole };

    // Halts are planned by moments too.
    ghost halts_none = { ⊥ };

    ghost unstopped = { λ m never member. absurd never };

    ghost halts_armed = { ⊥ };

    ghost unarmed = { λ m never member none. absurd never };

    fn now(&self) -> u64 {
        self.moment
    }

    fn size(&self, dev: Dev) -> u64 {
        self.kept.size(slot_number(dev))
    }

    fn lost(&self, part: Part) -> bool {
        self.counts.parts[place_number(part)].lost
    }

    fn read(&mut self, by: MemberId, dev: Dev, at: u64, into: &mut [u8]) -> Act
        requires { at + length into.old ≤ (mem_view self.old).size dev }
        ensures acts { Acts by.0 (Disk dev) (mem_view self.old) (mem_view self.new) result }
        ensures content { Reads dev at (mem_view self.old) (mem_view self.new) into.new result }
        ensures course { result ≡ answer (course_of (mem_book self.old) (mem_view self.old) by.0 (Disk dev) 0) }
        ensures book { mem_book self.new ≡ acted by.0 (Disk dev) (mem_book self.old) }
        ensures reads { IsRead result → (t : ℕ) → t ≤ (mem_view self.old).now
            → mem_reads self.new dev t ≡ mem_reads self.old dev t + 1 }
        ensures else_reads { (d : Dev) → (d ≢ dev) ⊎ (result ≢ Done) → SameReads d self.old self.new }
    {
        let course = self.course(by, Part::Disk(dev), 0);
        self.fuses.burn(by, false);
        match course {
            Course::Go => {
                let slot = slot_number(dev);
                self.kept.read(slot, at as usize, into);
                self.note_read(slot);
                Act::Done
            }
            Course::Halt(_) => {
                self.note_idle();
                self.stop(by);
                Act::Halted
            }
            Course::Fail => {
                self.fail(Part::Disk(dev));
                Act::Failed
            }
        }
    }

    fn write(&mut self, by: MemberId, dev: Dev, at: u64, bytes: &[u8]) -> Act
        requires { at + length bytes.now ≤ (mem_view self.old).size dev }
        ensures acts { Acts by.0 (Disk dev) (mem_view self.old) (mem_view self.new) result }
        ensures content { Writes dev at bytes.now (mem_view self.old) (mem_view self.new) result }
        ensures course { result ≡ answer
            (course_of (mem_book self.old) (mem_view self.old) by.0 (Disk dev) (length bytes.now)) }
        ensures kept { (keep : ℕ) → course_of (mem_book self.old) (mem_view self.old) by.0 (Disk dev) (length bytes.now)
            ≡ Halt keep → (disk_now (mem_view self.new) dev).bytes
            ≡ overwrite at (take keep bytes.now) (disk_now (mem_view self.old) dev).bytes }
        ensures book { mem_book self.new
            ≡ acted by.0 (Disk dev) (spent_by
            (course_of (mem_book self.old) (mem_view self.old) by.0 (Disk dev) (length bytes.now)) (length bytes.now)
            (mem_book self.old)) }
        ensures reads { (d : Dev) → SameReads d self.old self.new }
    {
        let course = self.course(by, Part::Disk(dev), bytes.len());
        self.fuses.burn(by, false);
        match course {
            Course::Go => {
                self.note_write(slot_number(dev), at as usize, bytes.len(), bytes);
                Act::Done
            }
            Course::Halt(keep) => {
                let some = first(bytes, keep);
                self.note_write(slot_number(dev), at as usize, bytes.len(), some);
                self.stop(by);
                Act::Halted
            }
            Course::Fail => {
                self.fail(Part::Disk(dev));
                Act::Failed
            }
        }
    }

    fn sync(&mut self, by: MemberId, dev: Dev) -> Act
        ensures acts { Acts by.0 (Disk dev) (mem_view self.old) (mem_view self.new) result }
        ensures content { Syncs dev (mem_view self.old) (mem_view self.new) result }
        ensures course { result ≡ answer (course_of (mem_book self.old) (mem_view self.old) by.0 (Disk dev) 0) }
        ensures book { mem_book self.new ≡ acted by.0 (Disk dev) (mem_book self.old) }
        ensures reads { (d : Dev) → SameReads d self.old self.new }
    {
        let course = self.course(by, Part::Disk(dev), 0);
        self.fuses.burn(by, false);
        match course {
            Course::Go => {
                self.note_sync(slot_number(dev));
                Act::Done
            }
            Course::Halt(_) => {
                self.note_idle();
                self.stop(by);
                Act::Halted
            }
            Course::Fail => {
                self.fail(Part::Disk(dev));
                Act::Failed
            }
        }
    }

    fn say(&mut self, by: MemberId, line: &[u8]) -> Act
        ensures acts { Acts by.0 Console (mem_view self.old) (mem_view self.new) result }
        ensures content { Says line.now (mem_view self.old) (mem_view self.new) result }
        ensures course { result ≡ answer
            (course_of (mem_book self.old) (mem_view self.old) by.0 Console (length line.now)) }
        ensures kept { (keep : ℕ) → course_of (mem_book self.old) (mem_view self.old) by.0 Console (length line.now)
            ≡ Halt keep → ((mem_view self.new).world (mem_view self.new).now).console
            ≡ ((mem_view self.old).world (mem_view self.old).now).console ++ left_of keep line.now }
        ensures book { mem_book self.new
            ≡ acted by.0 Console (spent_by
            (course_of (mem_book self.old) (mem_view self.old) by.0 Console (length line.now)) (length line.now)
            (mem_book self.old)) }
        ensures reads { (d : Dev) → SameReads d self.old self.new }
    {
        let course = self.course(by, Part::Console, line.len());
        self.fuses.burn(by, false);
        let place = place_number(Part::Console);
        match course {
            Course::Go => {
                self.note_line(place, line, true);
                Act::Done
            }
            Course::Halt(keep) => {
                self.note_part(place, line, keep);
                self.stop(by);
                Act::Halted
            }
            Course::Fail => {
                self.fail(Part::Console);
                Act::Failed
            }
        }
    }

    fn print(&mut self, by: MemberId, line: &[u8]) -> Act
        ensures acts { Acts by.0 (Printer by) (mem_view self.old) (mem_view self.new) result }
        ensures content { Prints by.0 line.now (mem_view self.old) (mem_view self.new) result }
        ensures course { result ≡ answer
            (course_of (mem_book self.old) (mem_view self.old) by.0 (Printer by) (length line.now)) }
        ensures kept { (keep : ℕ) → course_of (mem_book self.old) (mem_view self.old) by.0 (Printer by)
            (length line.now) ≡ Halt keep → paper_now (mem_view self.new) by.0
            ≡ paper_now (mem_view self.old) by.0 ++ left_of keep line.now }
        ensures book { mem_book self.new
            ≡ acted by.0 (Printer by) (spent_by
            (course_of (mem_book self.old) (mem_view self.old) by.0 (Printer by) (length line.now)) (length line.now)
            (mem_book self.old)) }
        ensures reads { (d : Dev) → SameReads d self.old self.new }
    {
        let part = Part::Printer(by);
        let course = self.course(by, part, line.len());
        self.fuses.burn(by, true);
        let place = place_number(part);
        match course {
            Course::Go => {
                self.note_line(place, line, true);
                Act::Done
            }
            Course::Halt(keep) => {
                self.note_part(place, line, keep);
                self.stop(by);
                Act::Halted
            }
            Course::Fail => {
                self.fail(part);
                Act::Failed
            }
        }
    }

    fn give(&mut self, by: MemberId, wire: u8, bytes: &[u8]) -> Act
        ensures acts { Acts by.0 (Wire wire) (mem_view self.old) (mem_view self.new) result }
        ensures content { GivesOn wire by.0 bytes.now (mem_view self.old) (mem_view self.new) result }
        ensures course { result ≡ answer
            (course_of (mem_book self.old) (mem_view self.old) by.0 (Wire wire) (length bytes.now)) }
        ensures kept { (keep : ℕ) → course_of (mem_book self.old) (mem_view self.old) by.0 (Wire wire)
            (length bytes.now) ≡ Halt keep
            → given_now (mem_view self.new) wire by.0 ≡ given_now (mem_view self.old) wire by.0 ++ take keep bytes.now }
        ensures book { mem_book self.new
            ≡ acted by.0 (Wire wire) (spent_by
            (course_of (mem_book self.old) (mem_view self.old) by.0 (Wire wire) (length bytes.now)) (length bytes.now)
            (mem_book self.old)) }
        ensures reads { (d : Dev) → SameReads d self.old self.new }
    {
        let course = self.course(by, Part::Wire(wire), bytes.len());
        self.fuses.burn(by, false);
        match course {
            Course::Go => {
                self.note_passed(true, wire, by, bytes);
                Act::Done
            }
            Course::Halt(keep) => {
                self.note_passed(true, wire, by, first(bytes, keep));
                self.stop(by);
                Act::Halted
            }
            Course::Fail => {
                self.fail(Part::Wire(wire));
                Act::Failed
            }
        }
    }

    fn take(&mut self, by: MemberId, wire: u8, into: &mut [u8]) -> Took
        ensures acts { Acts by.0 (Wire wire) (mem_view self.old) (mem_view self.new) (act_of result) }
        ensures fits { FitsInto (length into.old) result }
        ensures content { Takes wire by.0 (mem_view self.old) (mem_view self.new) into.new result }
        ensures course { act_of result
            ≡ answer (course_of (mem_book self.old) (mem_view self.old) by.0 (Wire wire)
            (min (length ((mem_view self.old).waiting wire)) (length into.old))) }
        ensures all { IfTook result (λ n. n ≡ min (length ((mem_view self.old).waiting wire)) (length into.old)) }
        ensures book { mem_book self.new
            ≡ acted by.0 (Wire wire) (spent_taking
            (course_of (mem_book self.old) (mem_view self.old) by.0 (Wire wire)
            (min (length ((mem_view self.old).waiting wire)) (length into.old)))
            (min (length ((mem_view self.old).waiting wire)) (length into.old)) (mem_book self.old)) }
        ensures reads { (d : Dev) → SameReads d self.old self.new }
    {
        let n = self.incoming.count(wire).min(into.len());
        let course = self.course(by, Part::Wire(wire), n);
        self.fuses.burn(by, false);
        match course {
            Course::Go => {
                let taken = &mut into[..n];
                self.incoming.take(wire, taken);
                self.note_passed(false, wire, by, taken);
                Took::Bytes(n)
            }
            Course::Halt(_) => {
                self.note_idle();
                self.stop(by);
                Took::Halted
            }
            Course::Fail => {
                self.fail(Part::Wire(wire));
                Took::Failed
            }
        }
    }

    fn arm(&mut self, member: MemberId, fuse: Fuse, n: u32)
        ensures arms { Arms member.0 (mem_view self.old) (mem_view self.new) }
        ensures book { mem_book self.new ≡ with_stop member.0 fuse n (mem_book self.old) }
        ensures reads { (d : Dev) → SameReads d self.old self.new }
    {
        self.counts.arm(member.0 as usize);
        self.fuses.arm(member, fuse, n);
    }

    fn renew(&mut self, dev: Dev) -> Act
        ensures acts { Renews dev (mem_view self.old) (mem_view self.new) result }
        ensures content { RenewsThere dev (mem_view self.old) (mem_view self.new) result }
        ensures course { result ≡ (if renews_now (mem_book self.old) (mem_view self.old) then Done else Failed) }
        ensures book { mem_book self.new ≡ mem_book self.old }
        ensures reads { (d : Dev) → SameReads d self.old self.new }
    {
        if self.may_renew() {
            self.note_renewal(dev);
            Act::Done
        } else {
            self.fail(Part::Disk(dev));
            Act::Failed
        }
    }

    fn lose(&mut self, dev: Dev)
        ensures acts { Loses (Disk dev) (mem_view self.old) (mem_view self.new) }
        ensures content { LosesThere dev (mem_view self.old) (mem_view self.new) }
        ensures book { mem_book self.new ≡ mem_book self.old }
        ensures reads { (d : Dev) → SameReads d self.old self.new }
    {
        self.pass_losing(dev);
    }
}
