//! A new world.
ghost use Rattle.std.specs.Prelude.{◌≡◌, ◌∷◌, ◌++◌, [], false, List, map, IfOk, OnOk, OnErr};
ghost use Rattle.std.specs.List.{list_any};
ghost use Rattle.mas_types.specs.declared.queues.Queue.{Queue};
ghost use Rattle.mas_types.specs.declared.journals.Entry.{Entry};
ghost use Rattle.mas_types.specs.Ids.{nobody};
ghost use Rattle.mas_types.specs.Lists.{change_at};
ghost use Rattle.mas_types.specs.Sound.{IsSound};
ghost use Rattle.member_core.specs.declared.worlds.Event.TheVariants as event;
ghost use Rattle.member_core.specs.Worlds.{absent as no_member, on_copies};
ghost use Rattle.member_core.specs.Events.{after_start, has_risen, is_nobody_up as are_all_down, moved, new_copy as fresh_copy, new_member as fresh_member, new_members as fresh_members, possible, restart_entry as restart_entry_lem, risen, start};
ghost use Rattle.member_core.specs.Holds.{Holds};
ghost use Rattle.member_core.specs.Steps.{AreStepsBelow};

use crate::batches::{fate_by, is_past_kept, settle, with_entry};
use crate::pair::{is_any_good, longest};
use crate::worlds::{At, CopyAt, MemberAt, World};
use mas_types::{Command, Copied, Entry, Journal, List, MemberId, NoMemory, Queue, Reply};
use std::alloc::Global;

impl World {
    /// The world over a base: both copies good, the members from 1 on up and away, and nothing in the journal. NoMemory
    /// comes only when out of memory.
    pub fn new(alloc: Global, base: &Queue) -> Result<World, NoMemory>
        ensures value { IfOk result (λ world. world ≡ start base.now) }
        ensures holds { IsSound base.now → IfOk result Holds }
        ensures steps { IfOk result (λ world. AreStepsBelow 2 world.members) }
    {
        new_world(alloc, base)
    }
}

fn new_world(alloc: Global, base: &Queue) -> Result<World, NoMemory>
    ensures { IfOk result (λ world. world ≡ start base.now) }
{
    Ok(World {
        base: base.copy(alloc)?,
        journal: Journal {
            batches: List::new(alloc),
        },
        copies: new_copies(alloc)?,
        holder: MemberId(0),
        members: new_members(alloc, base.config.members)?,
        printed: List::new(alloc),
        unsynced: List::new(alloc),
        told: List::new(alloc),
    })
}

fn new_copy(alloc: Global) -> CopyAt
    ensures { result ≡ fresh_copy }
{
    CopyAt {
        good: true,
        reads: List::new(alloc),
        next: None,
        sure: true,
    }
}

fn new_copies(alloc: Global) -> Result<List<CopyAt>, NoMemory>
    ensures { IfOk result (λ copies. copies ≡ fresh_copy ∷ (fresh_copy ∷ [])) }
{
    let mut copies = List::new(alloc);
    copies.push(new_copy(alloc))?;
    copies.push(new_copy(alloc))?;
    Ok(copies)
}

fn absent(alloc: Global) -> MemberAt
    ensures { result ≡ no_member }
{
    MemberAt {
        up: false,
        stage: At::Away,
        own: List::new(alloc),
        batch: List::new(alloc),
        printed: 0,
        step: 0,
    }
}

fn new_member(alloc: Global) -> MemberAt
    ensures { result ≡ fresh_member }
{
    MemberAt {
        up: true,
        stage: At::Away,
        own: List::new(alloc),
        batch: List::new(alloc),
        printed: 0,
        step: 1,
    }
}

/// Member 0, and so many members that are up.
#[tactic(auto, using(crate::proofs::Loops::new_more))]
fn new_members(alloc: Global, count: u8) -> Result<List<MemberAt>, NoMemory>
    ensures { IfOk result (λ members. members ≡ no_member ∷ fresh_members count) }
{
    let mut members = List::new(alloc);
    members.push(absent(alloc))?;
    for _i in 0..count {
        members.push(new_member(alloc))?;
    }
    Ok(members)
}

fn is_any_up(members: &List<MemberAt>) -> bool
    ensures { result ≡ list_any (λ a. a.up) members.now }
{
    members.as_slice().iter().any(|a| a.up)
}

/// Whether no member is up.
fn is_nobody_up(members: &List<MemberAt>) -> bool
    ensures { result ≡ are_all_down members.now }
{
    !is_any_up(members)
}

fn start_copy(copy: &mut CopyAt, found: bool, own: List<Entry>)
    ensures { copy.new ≡ after_start found own copy.old }
{
    copy.sure = true;
    copy.next = None;
    if found && copy.good {
        copy.reads = own;
    }
}

fn start_at(copies: &mut List<CopyAt>, at: usize, found: bool, own: List<Entry>)
    ensures { copies.new ≡ change_at at (after_start found own) copies.old }
{
    if at < copies.len() {
        start_copy(copies.item_mut(at), found, own);
    }
}

fn rise(alloc: Global, member: &mut MemberAt)
    ensures { member.new ≡ has_risen member.old }
{
    member.up = true;
    member.stage = At::Away;
    member.batch = List::new(alloc);
}

/// Each member rises.
fn rise_all(alloc: Global, members: &mut [MemberAt])
    ensures { members.new ≡ map has_risen members.old }
{
    for member in members.iter_mut() {
        rise(alloc, member);
    }
}

fn begin_restart(member: &mut MemberAt, own: List<Entry>, batch: List<Entry>)
    ensures { member.new ≡ record {
      up = false;
      stage = At.Ready;
      own = own;
      batch = batch;
      printed
          = member.old.printed;
      step = 0;
    } }
{
    member.up = false;
    member.stage = At::Ready;
    member.own = own;
    member.batch = batch;
    member.step = 0;
}

/// The members after a start: member 0 has the batch Restart, the others are up and away.
fn rise_members(alloc: Global, members: &mut List<MemberAt>, own: List<Entry>, batch: List<Entry>)
    ensures { (found : List Entry) (e : Entry) → own ≡ found ++ e ∷ [] → batch ≡ e ∷ []
        → members.new ≡ risen found e members.old }
{
    rise_all(alloc, members.as_mut_slice());
    if members.len() > 0 {
        begin_restart(members.item_mut(0), own, batch);
    }
}

fn restart_entry() -> Entry
    ensures { (Q : Queue) → result ≡ restart_entry_lem Q }
{
    Entry {
        by: MemberId(0),
        step: 0,
        command: Command::Restart,
        reply: Reply::Plain,
    }
}

fn start_copies(copies: &mut List<CopyAt>, found: bool, first: List<Entry>, second: List<Entry>)
    ensures { (own : List Entry) → first ≡ own → second ≡ own
        → copies.new ≡ on_copies (after_start found own) (after_start found own) copies.old }
{
    start_at(copies, 0, found, first);
    start_at(copies, 1, found, second);
}

/// Nobody holds the lock, and every group is synced.
fn end_start(alloc: Global, world: &mut World)
    ensures { world.new ≡ record world.old { holder = nobody; unsynced = [] } }
{
    world.holder = MemberId(0);
    world.unsynced = List::new(alloc);
}

/// A start: where no member is up and a copy is good, the longest list that a good copy reads counts, the batch in
/// flight has its fate by it, and member 0 has the batch Restart. False where that isn't so. Without memory the world
/// stays.
pub fn start_again(alloc: Global, world: &mut World) -> Result<bool, NoMemory>
    ensures answer { IfOk result (λ done. done ≡ possible world.old event.Start) }
    ensures moves { OnOk result (world.new ≡ moved world.old event.Start) }
    ensures stays { OnErr result (world.new ≡ world.old) }
{
    if !is_nobody_up(&world.members) || !is_any_good(&world.copies) {
        return Ok(false);
    }
    let found = longest(alloc, &world.copies)?;
    let is_found = is_past_kept(&world.journal.batches, found.len());
    let first = found.copy(alloc)?;
    let second = found.copy(alloc)?;
    let own = with_entry(alloc, &found, restart_entry())?;
    let batch = with_entry(alloc, &List::new(alloc), restart_entry())?;
    settle(world.journal.batches.as_mut_slice(), fate_by(is_found));
    start_copies(&mut world.copies, is_found, first, second);
    rise_members(alloc, &mut world.members, own, batch);
    end_start(alloc, world);
    Ok(true)
}
