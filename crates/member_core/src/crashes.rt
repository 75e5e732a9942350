//! What stops and crashes leave.
ghost use Rattle.std.specs.Prelude.{◌≡◌, ◌<◌, List, length, map, IfOk, OnOk, OnErr};
ghost use Rattle.mas_types.specs.declared.journals.Entry.{Entry};
ghost use Rattle.mas_types.specs.Lists.{change_at};
ghost use Rattle.member_core.specs.declared.worlds.Left.{Left};
ghost use Rattle.member_core.specs.declared.worlds.Event.TheVariants as event;
ghost use Rattle.member_core.specs.Worlds.{at_or, kept, member_at, member_in, no_copy, on_copies, on_member};
ghost use Rattle.member_core.specs.Events.{after_crash, after_stop, anyone_opens as anyone_opens_lem, has_fallen, has_stopped, is_hit as is_hit_lem, is_longer as is_longer_lem, left_of as left_of_lem, moved, opens_first as opens_first_lem, opens_second as opens_second_lem, possible};
ghost use Rattle.member_core.specs.Steps.{AreStepsBelow, crash_reads};

use crate::batches::{is_past_kept, kept_entries};
use crate::people::{is_up, own_count, stage_of, step_of};
use crate::worlds::{At, CopyAt, Left, MemberAt, World};
use mas_types::{Copied, Entry, List, MemberId, NoMemory};
use std::alloc::Global;

fn is_longer(copy: &CopyAt) -> bool
    ensures { result ≡ is_longer_lem copy.now.reads copy.now.next }
{
    match &copy.next {
        Some(next) => copy.reads.len() < next.len(),
        None => false,
    }
}

fn is_hit(copy: &CopyAt, opens: bool) -> bool
    ensures { result ≡ is_hit_lem opens copy.now }
{
    opens && copy.good && is_longer(copy)
}

/// A copy of what the act in hand left of a list and the next one.
fn left_of(
    alloc: Global,
    left: Left,
    reads: &List<Entry>,
    next: &Option<List<Entry>>,
) -> Result<List<Entry>, NoMemory>
    ensures { IfOk result (λ entries. entries ≡ left_of_lem left reads.now next.now) }
{
    match left {
        Left::Old => reads.copy(alloc),
        Left::New => match next {
            Some(next) => next.copy(alloc),
            None => reads.copy(alloc),
        },
    }
}

/// Whether the member's next event writes the gate of the first copy.
fn opens_first(world: &World, m: MemberId) -> bool
    ensures { result ≡ opens_first_lem (kept world.now) (member_at world.now m).stage (member_at world.now m).own }
{
    match stage_of(&world.members, m) {
        At::Logged2 => true,
        At::Read2 => is_past_kept(&world.journal.batches, own_count(&world.members, m)),
        _ => false,
    }
}

/// Whether the member's next event writes the gate of the second copy.
fn opens_second(world: &World, m: MemberId) -> bool
    ensures { result ≡ opens_second_lem (kept world.now) (member_at world.now m).stage (member_at world.now m).own }
{
    match stage_of(&world.members, m) {
        At::Opened1 => true,
        At::Read2 => is_past_kept(&world.journal.batches, own_count(&world.members, m)),
        _ => false,
    }
}

/// What a stop leaves of the copy at a place.
fn stopped_reads(
    alloc: Global,
    copies: &List<CopyAt>,
    at: usize,
    left: Left,
) -> Result<List<Entry>, NoMemory>
    ensures { IfOk result (λ reads. at < length copies.now
        → reads ≡ left_of_lem left (at_or no_copy at copies.now).reads (at_or no_copy at copies.now).next) }
{
    if at >= copies.len() {
        return Ok(List::new(alloc));
    }
    let copy = copies.item(at);
    left_of(alloc, left, &copy.reads, &copy.next)
}

fn stop_copy(copy: &mut CopyAt, opens: bool, reads: List<Entry>)
    ensures { (l : Left) → reads ≡ left_of_lem l copy.old.reads copy.old.next → copy.new ≡ after_stop l opens copy.old }
{
    if is_hit(copy, opens) {
        copy.sure = false;
        copy.reads = reads;
    }
}

fn stop_at(copies: &mut List<CopyAt>, at: usize, opens: bool, reads: List<Entry>)
    ensures { (l : Left) → (at < length copies.old
        → reads ≡ left_of_lem l (at_or no_copy at copies.old).reads (at_or no_copy at copies.old).next)
        → copies.new ≡ change_at at (after_stop l opens) copies.old }
{
    if at < copies.len() {
        stop_copy(copies.item_mut(at), opens, reads);
    }
}

/// Both copies after a stop. Without memory they stay.
fn stop_copies(
    alloc: Global,
    copies: &mut List<CopyAt>,
    first: bool,
    second: bool,
    left: Left,
) -> Result<(), NoMemory>
    ensures ok { OnOk result (copies.new ≡ on_copies (after_stop left first) (after_stop left second) copies.old) }
    ensures err { OnErr result (copies.new ≡ copies.old) }
{
    let first_reads = stopped_reads(alloc, copies, 0, left)?;
    let second_reads = stopped_reads(alloc, copies, 1, left)?;
    stop_at(copies, 0, first, first_reads);
    stop_at(copies, 1, second, second_reads);
    Ok(())
}

fn put_stopped(members: &mut List<MemberAt>, m: MemberId)
    requires { (member_in members.old m).step < 4294967295 }
    ensures { members.new ≡ on_member m has_stopped members.old }
{
    let step = step_of(members, m) + 1;
    if (m.0 as usize) < members.len() {
        let member = members.item_mut(m.0 as usize);
        member.up = false;
        member.step = step;
    }
}

/// A member stops in its next act, which left an old gate or a new one. False where it isn't up. Without memory the
/// world stays.
pub fn stop(alloc: Global, world: &mut World, m: MemberId, left: Left) -> Result<bool, NoMemory>
    requires { (member_at world.old m).step < 4294967295 }
    ensures answer { IfOk result (λ done. done ≡ possible world.old (event.Stop m left)) }
    ensures moves { OnOk result (world.new ≡ moved world.old (event.Stop m left)) }
    ensures stays { OnErr result (world.new ≡ world.old) }
{
    if !is_up(&world.members, m) {
        return Ok(false);
    }
    let first = opens_first(world, m);
    let second = opens_second(world, m);
    stop_copies(alloc, &mut world.copies, first, second, left)?;
    put_stopped(&mut world.members, m);
    Ok(true)
}

/// Whether the next event of the holder, or of member 0, writes the gate of the first copy.
fn anyone_opens_first(world: &World) -> bool
    ensures { result ≡ anyone_opens_lem (opens_first_lem (kept world.now)) world.now }
{
    (is_up(&world.members, world.holder) && opens_first(world, world.holder))
        || opens_first(world, MemberId(0))
}

/// Whether the next event of the holder, or of member 0, writes the gate of the second copy.
fn anyone_opens_second(world: &World) -> bool
    ensures { result ≡ anyone_opens_lem (opens_second_lem (kept world.now)) world.now }
{
    (is_up(&world.members, world.holder) && opens_second(world, world.holder))
        || opens_second(world, MemberId(0))
}

/// What a crash leaves of a copy: an unsure gate is old with the kept entries.
fn left_by_crash(
    alloc: Global,
    copy: &CopyAt,
    kept: &List<Entry>,
    left: Left,
) -> Result<List<Entry>, NoMemory>
    ensures { IfOk result (λ reads. reads ≡ crash_reads left kept.now copy.now) }
{
    if copy.sure {
        left_of(alloc, left, &copy.reads, &copy.next)
    } else {
        left_of(alloc, left, kept, &copy.next)
    }
}

fn crashed_reads(
    alloc: Global,
    copies: &List<CopyAt>,
    at: usize,
    kept: &List<Entry>,
    left: Left,
) -> Result<List<Entry>, NoMemory>
    ensures { IfOk result (λ reads. at < length copies.now
        → reads ≡ crash_reads left kept.now (at_or no_copy at copies.now)) }
{
    if at >= copies.len() {
        return Ok(List::new(alloc));
    }
    left_by_crash(alloc, copies.item(at), kept, left)
}

fn crash_copy(copy: &mut CopyAt, opens: bool, reads: List<Entry>)
    ensures { (l : Left) (kept : List Entry) → reads ≡ crash_reads l kept copy.old
        → copy.new ≡ after_crash l kept opens copy.old }
{
    if copy.sure {
        if is_hit(copy, opens) {
            copy.reads = reads;
        }
    } else {
        copy.sure = true;
        copy.reads = reads;
    }
}

fn crash_at(copies: &mut List<CopyAt>, at: usize, opens: bool, reads: List<Entry>)
    ensures { (l : Left) (kept : List Entry)
        → (at < length copies.old → reads ≡ crash_reads l kept (at_or no_copy at copies.old))
        → copies.new ≡ change_at at (after_crash l kept opens) copies.old }
{
    if at < copies.len() {
        crash_copy(copies.item_mut(at), opens, reads);
    }
}

/// Both copies after a crash. Without memory they stay.
fn crash_copies(
    alloc: Global,
    copies: &mut List<CopyAt>,
    kept: &List<Entry>,
    first: bool,
    second: bool,
    left: Left,
) -> Result<(), NoMemory>
    ensures ok { OnOk result (copies.new
        ≡ on_copies (after_crash left kept.now first) (after_crash left kept.now second) copies.old) }
    ensures err { OnErr result (copies.new ≡ copies.old) }
{
    let first_reads = crashed_reads(alloc, copies, 0, kept, left)?;
    let second_reads = crashed_reads(alloc, copies, 1, kept, left)?;
    crash_at(copies, 0, first, first_reads);
    crash_at(copies, 1, second, second_reads);
    Ok(())
}

fn fall(alloc: Global, member: &mut MemberAt)
    requires { member.old.step < 4294967295 }
    ensures { member.new ≡ has_fallen member.old }
{
    member.up = false;
    member.stage = At::Away;
    member.batch = List::new(alloc);
    member.step += 1;
}

/// Each member falls.
fn fall_all(alloc: Global, members: &mut [MemberAt])
    requires { AreStepsBelow 4294967295 members.old }
    ensures { members.new ≡ map has_fallen members.old }
{
    for member in members.iter_mut() {
        fall(alloc, member);
    }
}

/// All members crash, and the act in hand left an old gate or a new one. It is always possible. Without memory the
/// world stays.
pub fn crash(alloc: Global, world: &mut World, left: Left) -> Result<bool, NoMemory>
    requires { AreStepsBelow 4294967295 world.old.members }
    ensures answer { IfOk result (λ done. done ≡ possible world.old (event.Crash left)) }
    ensures moves { OnOk result (world.new ≡ moved world.old (event.Crash left)) }
    ensures stays { OnErr result (world.new ≡ world.old) }
{
    let first = anyone_opens_first(world);
    let second = anyone_opens_second(world);
    let kept = kept_entries(alloc, &world.journal.batches)?;
    crash_copies(alloc, &mut world.copies, &kept, first, second, left)?;
    fall_all(alloc, world.members.as_mut_slice());
    world.holder = MemberId(0);
    Ok(true)
}
