//! One event after another.
ghost use Rattle.std.specs.Prelude.{◌≡◌, ◌<◌, ◌+◌, ◌++◌, ℕ, true, length, IfOk, OnOk, OnErr};
ghost use Rattle.std.specs.List.{AllByRecursion};
ghost use Rattle.mas_types.specs.Fit.{IsFit};
ghost use Rattle.mas_types.specs.Run.{run as run_lem};
ghost use Rattle.mas_types.specs.Sound.{IsSound};
ghost use Rattle.mas_types.specs.Step.{may_give, step};
ghost use Rattle.queue_laws.specs.Runs.{IsGiven};
ghost use Rattle.mas_types.specs.declared.ids.Dev.TheVariants as dev;
ghost use Rattle.member_core.specs.declared.worlds.Event.TheVariants as event;
ghost use Rattle.member_core.specs.Worlds.{flying, kept, member_at};
ghost use Rattle.member_core.specs.Events.{moved, possible, runs, start};
ghost use Rattle.member_core.specs.Holds.{Holds};
ghost use Rattle.member_core.specs.Right.{FindsRight, IsRight};
ghost use Rattle.member_core.specs.Steps.{AreStepsBelow};
ghost use Rattle.member_core.specs.Told.{IsFitEvent};

use crate::acts::{lose, spool_write, tell};
use crate::batches::{both_entries, kept_entries};
use crate::crashes::{crash, stop};
use crate::people::{acts, copy_own, has_no_batch, is_up, stage_of};
use crate::renewing::renew;
use crate::spools::{print_line, spool_sync};
use crate::stages::{is_logged1, is_ready};
use crate::starts::start_again;
use crate::turns::{free, lock, primary, read_first, read_second, seize};
use crate::worlds::{Event, World};
use crate::writes::{do_command, is_allowed, log_first, log_second, open_copy1, open_copy2};
use mas_types::{Command, Copied, Dev, GroupNo, List, MemberId, NoMemory, Queue, Reply};
use model_queue::{run, step_plain};
use std::alloc::Global;

/// The queue after the member's own list.
fn own_queue(alloc: Global, world: &World, m: MemberId) -> Result<Queue, NoMemory>
    requires sound { IsSound world.now.base }
    requires given { AllByRecursion (IsGiven world.now.base) (member_at world.now m).own }
    ensures value { IfOk result (λ queue. queue ≡ run_lem world.now.base (member_at world.now m).own) }
    ensures sound { IfOk result IsSound }
{
    let own = copy_own(alloc, &world.members, m)?;
    run(alloc, &world.base, &own)
}

/// The queue after the kept entries.
fn kept_queue(alloc: Global, world: &World) -> Result<Queue, NoMemory>
    requires { Holds world.now }
    ensures value { IfOk result (λ queue. queue ≡ run_lem world.now.base (kept world.now)) }
    ensures sound { IfOk result IsSound }
{
    let entries = kept_entries(alloc, &world.journal.batches)?;
    run(alloc, &world.base, &entries)
}

/// The queue after the kept entries and those in flight.
fn both_queue(alloc: Global, world: &World) -> Result<Queue, NoMemory>
    requires { Holds world.now }
    ensures { IfOk result (λ queue. queue ≡ run_lem world.now.base (kept world.now ++ flying world.now)) }
{
    let entries = both_entries(alloc, &world.journal.batches)?;
    run(alloc, &world.base, &entries)
}

/// The reply to a command on a queue.
fn reply_on(
    alloc: Global,
    queue: &Queue,
    by: MemberId,
    command: &Command,
) -> Result<Reply, NoMemory>
    requires sound { IsSound queue.now }
    requires fit { IsFit command.now }
    requires by { may_give queue.now by command.now ≡ true }
    ensures { IfOk result (λ reply. reply ≡ (step queue.now by command.now).1) }
{
    let mut after = queue.copy(alloc)?;
    step_plain(alloc, &mut after, by, command)
}

/// A member gives a command. False where it can't. Without memory the world stays.
pub fn give(
    alloc: Global,
    world: &mut World,
    by: MemberId,
    command: &Command,
) -> Result<bool, NoMemory>
    requires holds { Holds world.old }
    requires fit { IsFit command.now }
    ensures answer { IfOk result (λ done. done ≡ possible world.old (event.Do by command.now)) }
    ensures moves { OnOk result (world.new ≡ moved world.old (event.Do by command.now)) }
    ensures stays { OnErr result (world.new ≡ world.old) }
{
    if !is_up(&world.members, by) || !is_ready(stage_of(&world.members, by)) {
        return Ok(false);
    }
    let queue = own_queue(alloc, world, by)?;
    if !is_allowed(world, &queue, by, command) {
        return Ok(false);
    }
    let reply = reply_on(alloc, &queue, by, command)?;
    do_command(alloc, world, &queue, by, command, reply)
}

fn log_copy1(alloc: Global, world: &mut World, by: MemberId) -> Result<bool, NoMemory>
    requires { Holds world.old }
    ensures answer { IfOk result (λ done. done ≡ possible world.old (event.Log by dev.Ckpt1)) }
    ensures moves { OnOk result (world.new ≡ moved world.old (event.Log by dev.Ckpt1)) }
    ensures stays { OnErr result (world.new ≡ world.old) }
{
    if !acts(&world.members, by) || !is_ready(stage_of(&world.members, by)) {
        return Ok(false);
    }
    let queue = own_queue(alloc, world, by)?;
    log_first(alloc, world, &queue, by)
}

fn log_copy2(alloc: Global, world: &mut World, by: MemberId) -> Result<bool, NoMemory>
    requires { Holds world.old }
    ensures answer { IfOk result (λ done. done ≡ possible world.old (event.Log by dev.Ckpt2)) }
    ensures moves { OnOk result (world.new ≡ moved world.old (event.Log by dev.Ckpt2)) }
    ensures stays { OnErr result (world.new ≡ world.old) }
{
    if !acts(&world.members, by) || !is_logged1(stage_of(&world.members, by)) {
        return Ok(false);
    }
    let queue = own_queue(alloc, world, by)?;
    log_second(alloc, world, &queue, by)
}

/// A member, or member 0, logs its batch on a copy. False where it can't. Without memory the world stays.
pub fn log(alloc: Global, world: &mut World, by: MemberId, copy: Dev) -> Result<bool, NoMemory>
    requires { Holds world.old }
    ensures answer { IfOk result (λ done. done ≡ possible world.old (event.Log by copy)) }
    ensures moves { OnOk result (world.new ≡ moved world.old (event.Log by copy)) }
    ensures stays { OnErr result (world.new ≡ world.old) }
{
    match copy {
        Dev::Ckpt1 => log_copy1(alloc, world, by),
        Dev::Ckpt2 => log_copy2(alloc, world, by),
        Dev::Spool(_) => Ok(false),
    }
}

/// A member, or member 0, opens a copy. False where it can't. Without memory the world stays.
pub fn open_copy(
    alloc: Global,
    world: &mut World,
    by: MemberId,
    copy: Dev,
) -> Result<bool, NoMemory>
    ensures answer { IfOk result (λ done. done ≡ possible world.old (event.OpenCopy by copy)) }
    ensures moves { OnOk result (world.new ≡ moved world.old (event.OpenCopy by copy)) }
    ensures stays { OnErr result (world.new ≡ world.old) }
{
    match copy {
        Dev::Ckpt1 => open_copy1(alloc, world, by),
        Dev::Ckpt2 => open_copy2(alloc, world, by),
        Dev::Spool(_) => Ok(false),
    }
}

/// A member writes a group that is its own. False where it isn't. Without memory the world stays.
pub fn write_group(
    alloc: Global,
    world: &mut World,
    by: MemberId,
    group: GroupNo,
) -> Result<bool, NoMemory>
    requires { Holds world.old }
    ensures answer { IfOk result (λ done. done ≡ possible world.old (event.SpoolWrite by group)) }
    ensures moves { OnOk result (world.new ≡ moved world.old (event.SpoolWrite by group)) }
    ensures stays { OnErr result (world.new ≡ world.old) }
{
    let short = kept_queue(alloc, world)?;
    let long = both_queue(alloc, world)?;
    spool_write(world, &short, &long, by, group)
}

/// A member prints the next line of its output. False where it can't. Without memory the world stays.
pub fn print(alloc: Global, world: &mut World, by: MemberId) -> Result<bool, NoMemory>
    requires { Holds world.old }
    ensures answer { IfOk result (λ done. done ≡ possible world.old (event.PrintLine by)) }
    ensures moves { OnOk result (world.new ≡ moved world.old (event.PrintLine by)) }
    ensures stays { OnErr result (world.new ≡ world.old) }
{
    let short = kept_queue(alloc, world)?;
    let long = both_queue(alloc, world)?;
    print_line(world, &short, &long, by)
}

/// One event: false exactly where it isn't possible, and then nothing changes. Without memory the world stays. Each
/// member's step is below the greatest u32, and none grows by more than one.
pub fn world_step(alloc: Global, world: &mut World, event: &Event) -> Result<bool, NoMemory>
    requires holds { Holds world.old }
    requires fit { IsFitEvent event.now }
    requires steps { AreStepsBelow 4294967295 world.old.members }
    ensures answer { IfOk result (λ done. done ≡ possible world.old event.now) }
    ensures moves { OnOk result (world.new ≡ moved world.old event.now) }
    ensures stays { OnErr result (world.new ≡ world.old) }
    ensures holds { Holds world.new }
    ensures steps { (bound : ℕ) → AreStepsBelow bound world.old.members → AreStepsBelow (bound + 1) world.new.members }
{
    happen(alloc, world, event)
}

fn happen(alloc: Global, world: &mut World, event: &Event) -> Result<bool, NoMemory>
    requires holds { Holds world.old }
    requires fit { IsFitEvent event.now }
    requires steps { AreStepsBelow 4294967295 world.old.members }
    ensures answer { IfOk result (λ done. done ≡ possible world.old event.now) }
    ensures moves { OnOk result (world.new ≡ moved world.old event.now) }
    ensures stays { OnErr result (world.new ≡ world.old) }
{
    match event {
        Event::Lock(m) => Ok(lock(world, *m)),
        Event::FirstRead(m) => Ok(read_first(world, *m)),
        Event::SecondRead(m) => read_second(alloc, world, *m),
        Event::Primary(m) => primary(alloc, world, *m),
        Event::Do(m, command) => give(alloc, world, *m, command),
        Event::Log(m, copy) => log(alloc, world, *m, *copy),
        Event::OpenCopy(m, copy) => open_copy(alloc, world, *m, *copy),
        Event::Free(m) => Ok(free(world, *m)),
        Event::Tell(m) => tell(world, *m),
        Event::SpoolWrite(m, group) => write_group(alloc, world, *m, *group),
        Event::SpoolSync(m, volume) => Ok(spool_sync(world, *m, *volume)),
        Event::PrintLine(m) => print(alloc, world, *m),
        Event::Stop(m, left) => stop(alloc, world, *m, *left),
        Event::Seize(by, of) => Ok(seize(world, *by, *of)),
        Event::Lose(copy) => Ok(lose(world, *copy)),
        Event::Renew(m, copy) => renew(alloc, world, *m, *copy),
        Event::Crash(left) => crash(alloc, world, *left),
        Event::Start => start_again(alloc, world),
    }
}

/// Runs the events over a base, those skipped that aren't possible. Whatever they are, the world is right: where a copy
/// is good, what a start would find is the run of the kept entries, with or without the batch in flight, and holds all
/// that was told. NoMemory comes only when out of memory.
pub fn no_run_loses(alloc: Global, base: &Queue, events: &List<Event>) -> Result<World, NoMemory>
    requires sound { IsSound base.now }
    requires fit { AllByRecursion IsFitEvent events.now }
    requires few { length events.now < 4294967295 }
    ensures world { IfOk result (λ world. world ≡ runs (start base.now) events.now) }
    ensures right { IfOk result IsRight }
    ensures finds { IfOk result FindsRight }
{
    let mut world = World::new(alloc, base)?;
    for event in events.as_slice() {
        let _possible = world_step(alloc, &mut world, event)?;
    }
    Ok(world)
}
