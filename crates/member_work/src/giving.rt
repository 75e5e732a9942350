//! Commands of a unit on a member's tables, and the groups for a job's outputs.
ghost use Rattle.member_work.specs.Names.{Queue, groups_of_outputs as groups_of_outputs_lem, is_cancelled as is_cancelled_lem, job_at, AreOutputs, Tell, TellSound, entry_of, IsNamedEnd};
ghost use Rattle.std.specs.Prelude.{◌≡◌, ◌+◌, ◌≤◌, ◌<◌, ◌^◌, IfOk, OnErr};
ghost use Rattle.member_work.specs.Giving.{CanGive, GivesAs, IsOwn, IsSoundPlain, LeavesTexts, MayGiveOne, gives_back, gives_one, gives_or_drops, gives_takes};
ghost use Rattle.member_work.specs.Units.{groups_for_end as groups_for_end_lem};

use crate::spooling::groups_of_outputs;
use ckpt_tables::Tables;
use job_outcome::{UnitEnd, end_by};
use job_queue::find_job;
use mas_types::{Command, JobNo, List, NoMemory, OutSpec, Reply};
use member_node::Member;
use queue_texts::law_of_texts;
use std::alloc::Global;

// Nobody's job: Drop of it gives up a member's groups alone.
const NO_JOB: JobNo = JobNo(0);

// Whether the job was cancelled.
fn is_cancelled(tables: &Tables, job: JobNo) -> bool
    ensures { (Q : Queue) → Tell tables.now Q → result ≡ is_cancelled_lem (job_at Q job) }
{
    match find_job(tables.jobs.as_slice(), job) {
        Some(found) => found.item.cancelled,
        None => false,
    }
}

/// The groups that Ended with these outputs needs of the member: none for a cancelled job.
pub fn groups_for_end(tables: &Tables, job: JobNo, specs: &[OutSpec]) -> u32
    requires { AreOutputs specs.now }
    ensures groups { (Q : Queue) → Tell tables.now Q → result ≡ groups_for_end_lem Q job specs.now }
    ensures all { 1 ≤ result → result ≡ groups_of_outputs_lem specs.now }
{
    if is_cancelled(tables, job) {
        return 0;
    }
    groups_of_outputs(specs)
}

/// Does a command on the member's tables; answers how a unit ends with it. NoMemory leaves the member as it was.
pub fn give(
    member: &mut Member,
    alloc: Global,
    step: u32,
    command: Command,
) -> Result<UnitEnd, NoMemory>
    requires { MayGiveOne member.old command }
    ensures does { GivesAs (gives_one step member.old.id command)
        (λ Q disks per. IsSoundPlain member.old.checkpoint.tables command) member.old member.new result }
    ensures named { IfOk result IsNamedEnd }
    ensures err { OnErr result (member.new ≡ member.old) }
{
    law_of_texts();
    member.do_command(alloc, step, command)?;
    Ok(end_by(member.last_reply()))
}

/// The member's groups become free, after a command with which a unit ends so. NoMemory leaves the member as it was.
pub fn give_back(
    member: &mut Member,
    alloc: Global,
    step: u32,
    end: UnitEnd,
) -> Result<UnitEnd, NoMemory>
    requires can { CanGive member.old }
    requires order { member.old.checkpoint.tables.order + 32 < 2 ^ 63 }
    ensures does { GivesAs (gives_back step end) (λ Q disks per. TellSound member.old.checkpoint.tables)
        member.old member.new result }
    ensures err { OnErr result (member.new ≡ member.old) }
{
    give(member, alloc, step, Command::Drop { job: NO_JOB })?;
    Ok(end)
}

/// Gives a command, and after a refused one the member's groups become free. NoMemory leaves the command, if it was
/// given before.
pub fn give_or_drop(
    member: &mut Member,
    alloc: Global,
    step: u32,
    command: Command,
) -> Result<UnitEnd, NoMemory>
    requires can { CanGive member.old }
    requires own { IsOwn member.old command }
    requires order { member.old.checkpoint.tables.order + 64 < 2 ^ 63 }
    ensures does { GivesAs (gives_or_drops step member.old.id command)
        (λ Q. LeavesTexts member.old.checkpoint.tables Q (entry_of Q member.old.id step command)) member.old member.new
        result }
    ensures named { IfOk result IsNamedEnd }
{
    let end = give(member, alloc, step, command)?;
    if let UnitEnd::Refused(_) = &end {
        return give_back(member, alloc, step, end);
    }
    Ok(end)
}

/// Takes so many groups: a Take gives all of them or all that are free, and then the next is refused. After a refused
/// Take the member's groups become free. NoMemory leaves the commands that were given before.
pub fn take_for_end(
    member: &mut Member,
    alloc: Global,
    step: u32,
    needed: u32,
) -> Result<UnitEnd, NoMemory>
    requires can { CanGive member.old }
    requires needed { 1 ≤ needed }
    requires order { member.old.checkpoint.tables.order + 96 < 2 ^ 63 }
    ensures does { GivesAs (gives_takes step member.old.id needed)
        (λ Q disks per. TellSound member.old.checkpoint.tables) member.old member.new result }
    ensures named { IfOk result IsNamedEnd }
{
    law_of_texts();
    let end = give(member, alloc, step, Command::Take { want: needed })?;
    let Reply::Count(taken) = member.last_reply() else {
        return give_back(member, alloc, step, end);
    };
    let taken = *taken;
    if taken == needed {
        return Ok(UnitEnd::Done);
    }
    let want = needed - taken;
    give_or_drop(member, alloc, step, Command::Take { want })
}
