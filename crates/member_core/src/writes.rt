//! Commands of a member, and how its batch gets onto both copies.
ghost use Rattle.std.specs.Prelude.{◌≡◌, ◌&&◌, not, ◌∷◌, [], Some, IfOk, OnOk, OnErr, option_copied};
ghost use Rattle.std.specs.List.{list_all};
ghost use Rattle.mas_types.specs.Queue.{output_at, has_key as key_of_output};
ghost use Rattle.mas_types.specs.declared.ids.Dev.TheVariants as dev;
ghost use Rattle.mas_types.specs.Run.{run};
ghost use Rattle.mas_types.specs.Step.{step};
ghost use Rattle.queue_laws.specs.OwnerChange.{is_thing as is_of_thing};
ghost use Rattle.member_core.specs.declared.worlds.Event.TheVariants as event;
ghost use Rattle.member_core.specs.Worlds.{member_at, on_member};
ghost use Rattle.member_core.specs.Events.{allowed, has_done, has_written, is_synced as each_synced, is_thing_at as thing_at, possible, moved, printed_after as count_after, written_stage as stage_written};
ghost use Rattle.paper_laws.specs.Counts.{may_mark as mark_allowed};

use crate::batches::{keep_once, with_entry};
use crate::pair::{all_read, next_first, next_second, open_first, open_second};
use crate::people::{
    acts, copy_batch, copy_own, has_no_batch, is_same, is_somebody, is_up, own_count, printed_of,
    put_stage, stage_of, step_of,
};
use crate::stages::{is_logged1, is_logged2, is_opened1, is_ready};
use crate::worlds::{At, MemberAt, World};
use mas_types::{
    Batch, Command, Copied, Entry, Fate, GroupNo, JobNo, List, MemberId, NoMemory, OutNo, Output,
    Owner, Queue, Reply,
};
use std::alloc::Global;

fn has_key(output: &Output, job: JobNo, index: OutNo) -> bool
    ensures { result ≡ key_of_output job index output.now }
{
    output.job.0 == job.0 && output.index.0 == index.0
}

/// The output with that job and index.
pub fn find_output(queue: &Queue, job: JobNo, index: OutNo) -> Option<&Output>
    ensures { option_copied result ≡ output_at queue.now job index }
{
    queue
        .outputs
        .as_slice()
        .iter()
        .find(|o| has_key(o, job, index))
}

/// A mark of the output is at most at what was printed, where it is busy at the member.
fn may_mark_output(m: MemberId, printed: u32, at: u32, output: &Output) -> bool
    ensures { result ≡ mark_allowed m printed at (Some output.now) }
{
    !is_same(output.busy, m) || at as u64 <= output.mark as u64 + printed as u64
}

fn may_mark(queue: &Queue, m: MemberId, printed: u32, job: JobNo, index: OutNo, at: u32) -> bool
    ensures { result ≡ mark_allowed m printed at (output_at queue.now job index) }
{
    match find_output(queue, job, index) {
        None => true,
        Some(output) => may_mark_output(m, printed, at, output),
    }
}

/// Whether the member may give the command, on the queue after its own list.
pub fn is_allowed(world: &World, queue: &Queue, by: MemberId, command: &Command) -> bool
    requires here { queue.now ≡ run world.now.base (member_at world.now by).own }
    ensures { result ≡ allowed world.now by command.now }
{
    match command {
        Command::Reset { of } => !is_up(&world.members, *of),
        Command::Restart => false,
        Command::Mark { job, index, at } => {
            may_mark(queue, by, printed_of(&world.members, by), *job, *index, *at)
        }
        _ => true,
    }
}

/// After Pick, Mark, Back and Forward a member counts its printed lines anew.
fn printed_after(command: &Command, printed: u32) -> u32
    ensures { result ≡ count_after command.now printed }
{
    match command {
        Command::Pick => 0,
        Command::Mark { .. } => 0,
        Command::Back { .. } => 0,
        Command::Forward { .. } => 0,
        _ => printed,
    }
}

fn do_at(
    alloc: Global,
    member: &mut MemberAt,
    command: &Command,
    entry: Entry,
) -> Result<(), NoMemory>
    ensures ok { OnOk result (member.new ≡ has_done command.now entry member.old) }
    ensures err { OnErr result (member.new ≡ member.old) }
{
    let second = entry.copy(alloc)?;
    let own = with_entry(alloc, &member.own, entry)?;
    let batch = with_entry(alloc, &member.batch, second)?;
    member.own = own;
    member.batch = batch;
    member.printed = printed_after(command, member.printed);
    Ok(())
}

fn do_in(
    alloc: Global,
    members: &mut List<MemberAt>,
    m: MemberId,
    command: &Command,
    entry: Entry,
) -> Result<(), NoMemory>
    ensures ok { OnOk result (members.new ≡ on_member m (has_done command.now entry) members.old) }
    ensures err { OnErr result (members.new ≡ members.old) }
{
    if m.0 as usize >= members.len() {
        return Ok(());
    }
    do_at(alloc, members.item_mut(m.0 as usize), command, entry)
}

/// A member gives a command, with its reply on the queue after its own list. False where it can't. Without memory the
/// world stays.
pub fn do_command(
    alloc: Global,
    world: &mut World,
    queue: &Queue,
    by: MemberId,
    command: &Command,
    reply: Reply,
) -> Result<bool, NoMemory>
    requires here { queue.now ≡ run world.old.base (member_at world.old by).own }
    requires answered { reply ≡ (step queue.now by command.now).1 }
    ensures answer { IfOk result (λ done. done ≡ possible world.old (event.Do by command.now)) }
    ensures moves { OnOk result (world.new ≡ moved world.old (event.Do by command.now)) }
    ensures stays { OnErr result (world.new ≡ world.old) }
{
    if !is_up(&world.members, by)
        || !is_ready(stage_of(&world.members, by))
        || !is_allowed(world, queue, by, command)
    {
        return Ok(false);
    }
    let entry = Entry {
        by,
        step: step_of(&world.members, by),
        command: command.copy(alloc)?,
        reply,
    };
    do_in(alloc, &mut world.members, by, command, entry)?;
    Ok(true)
}

fn is_thing(owner: Owner) -> bool
    ensures { result ≡ is_of_thing owner }
{
    match owner {
        Owner::Deck { .. } => true,
        Owner::Output { .. } => true,
        _ => false,
    }
}

/// Whether the group is a deck's or an output's.
fn is_thing_at(queue: &Queue, group: GroupNo) -> bool
    ensures { result ≡ thing_at queue.now group }
{
    if group.0 as usize >= queue.owners.len() {
        return false;
    }
    is_thing(*queue.owners.item(group.0 as usize))
}

fn is_no_thing_at(queue: &Queue, group: GroupNo) -> bool
    ensures { result ≡ not (thing_at queue.now group) }
{
    !is_thing_at(queue, group)
}

/// Whether no group of a deck or an output is among those that aren't synced.
fn is_synced(queue: &Queue, unsynced: &List<GroupNo>) -> bool
    ensures { result ≡ each_synced queue.now unsynced.now }
{
    unsynced
        .as_slice()
        .iter()
        .all(|g| is_no_thing_at(queue, *g))
}

/// A member, or member 0, logs its batch on the first copy. False where it can't. Without memory the world stays.
pub fn log_first(
    alloc: Global,
    world: &mut World,
    queue: &Queue,
    by: MemberId,
) -> Result<bool, NoMemory>
    requires here { queue.now ≡ run world.old.base (member_at world.old by).own }
    ensures answer { IfOk result (λ done. done ≡ possible world.old (event.Log by dev.Ckpt1)) }
    ensures moves { OnOk result (world.new ≡ moved world.old (event.Log by dev.Ckpt1)) }
    ensures stays { OnErr result (world.new ≡ world.old) }
{
    if !acts(&world.members, by) || !is_ready(stage_of(&world.members, by)) {
        return Ok(false);
    }
    if has_no_batch(&world.members, by) || !is_synced(queue, &world.unsynced) {
        return Ok(false);
    }
    let own = copy_own(alloc, &world.members, by)?;
    let entries = copy_batch(alloc, &world.members, by)?;
    world.journal.batches.push(Batch {
        first: 0,
        last: 0,
        by,
        fate: Fate::Flying,
        entries,
    })?;
    next_first(&mut world.copies, own);
    put_stage(&mut world.members, by, At::Logged1);
    Ok(true)
}

/// A member, or member 0, logs its batch on the second copy. False where it can't. Without memory the world stays.
pub fn log_second(
    alloc: Global,
    world: &mut World,
    queue: &Queue,
    by: MemberId,
) -> Result<bool, NoMemory>
    requires here { queue.now ≡ run world.old.base (member_at world.old by).own }
    ensures answer { IfOk result (λ done. done ≡ possible world.old (event.Log by dev.Ckpt2)) }
    ensures moves { OnOk result (world.new ≡ moved world.old (event.Log by dev.Ckpt2)) }
    ensures stays { OnErr result (world.new ≡ world.old) }
{
    if !acts(&world.members, by)
        || !is_logged1(stage_of(&world.members, by))
        || !is_synced(queue, &world.unsynced)
    {
        return Ok(false);
    }
    let own = copy_own(alloc, &world.members, by)?;
    next_second(&mut world.copies, own);
    put_stage(&mut world.members, by, At::Logged2);
    Ok(true)
}

/// A member, or member 0, opens the first copy. False where it can't. Without memory the world stays.
pub fn open_copy1(alloc: Global, world: &mut World, by: MemberId) -> Result<bool, NoMemory>
    ensures answer { IfOk result (λ done. done ≡ possible world.old (event.OpenCopy by dev.Ckpt1)) }
    ensures moves { OnOk result (world.new ≡ moved world.old (event.OpenCopy by dev.Ckpt1)) }
    ensures stays { OnErr result (world.new ≡ world.old) }
{
    if !acts(&world.members, by) || !is_logged2(stage_of(&world.members, by)) {
        return Ok(false);
    }
    let count = own_count(&world.members, by);
    let own = copy_own(alloc, &world.members, by)?;
    open_first(&mut world.copies, own);
    let read = all_read(&world.copies, count);
    keep_once(read, &mut world.journal.batches);
    put_stage(&mut world.members, by, At::Opened1);
    Ok(true)
}

fn written_stage(m: MemberId) -> At
    ensures { result ≡ stage_written m }
{
    if is_somebody(m) { At::Ready } else { At::Away }
}

fn put_written(alloc: Global, members: &mut List<MemberAt>, m: MemberId)
    ensures { members.new ≡ on_member m (has_written (stage_written m)) members.old }
{
    let stage = written_stage(m);
    if (m.0 as usize) < members.len() {
        let member = members.item_mut(m.0 as usize);
        member.stage = stage;
        member.batch = List::new(alloc);
    }
}

/// A member, or member 0, opens the second copy, and its batch is written. False where it can't. Without memory the
/// world stays.
pub fn open_copy2(alloc: Global, world: &mut World, by: MemberId) -> Result<bool, NoMemory>
    ensures answer { IfOk result (λ done. done ≡ possible world.old (event.OpenCopy by dev.Ckpt2)) }
    ensures moves { OnOk result (world.new ≡ moved world.old (event.OpenCopy by dev.Ckpt2)) }
    ensures stays { OnErr result (world.new ≡ world.old) }
{
    if !acts(&world.members, by) || !is_opened1(stage_of(&world.members, by)) {
        return Ok(false);
    }
    let count = own_count(&world.members, by);
    let own = copy_own(alloc, &world.members, by)?;
    open_second(&mut world.copies, own);
    let read = all_read(&world.copies, count);
    keep_once(read, &mut world.journal.batches);
    put_written(alloc, &mut world.members, by);
    Ok(true)
}
