//! The job that a member runs or converts, on a plain queue.
ghost use Rattle.std.specs.Prelude.{◌≡◌, ◌*◌, ◌≤◌, All, length, option_copied, IfOk, IfSome};
ghost use Rattle.mas_types.specs.Fit.{IsOutSpec, IsText};
ghost use Rattle.mas_types.specs.Limits.{index_most};
ghost use Rattle.job_outcome.specs.Outcomes.{AreFitOutputs};
ghost use Rattle.model_player.specs.Ends.{IsNamed};
ghost use Rattle.model_player.specs.Jobs.{is_at_work as is_at_work_lem, job_at_work as job_at_work_lem};
ghost use Rattle.model_player.specs.Sounds.{AreSound};

use crate::acts::go_aside;
use crate::ends::{End, PlayError};
use crate::giving::{give, take_groups};
use crate::spools::Spool;
use job_outcome::{Outcome, Read, outcome_of};
use mas_types::{
    Closing, Command, Copied, Job, JobNo, List, MemberId, OutSpec, Phase, Queue, Text,
};
use model_queue::groups::groups_needed;
use queue_laws::fitness::is_fit;
use std::alloc::Global;

// Nobody's job: Drop of it gives up a member's groups alone.
const NO_JOB: JobNo = JobNo(0);

// The groups that the outputs need.
fn groups_of(outputs: &[OutSpec]) -> u32
    requires few { length outputs.now ≤ index_most }
    requires each { All IsOutSpec outputs.now }
    ensures { result ≤ 10000 * length outputs.now }
{
    match outputs {
        [] => 0,
        [first, rest @ ..] => groups_needed(&first.text) + groups_of(rest),
    }
}

// The unit ends so. Where that is a refusal, the member's groups become free.
fn free_after(alloc: Global, spool: &mut Spool, by: MemberId, end: End) -> Result<End, PlayError>
    requires sound { AreSound spool.old.queues }
    requires named { IsNamed end }
    ensures sound { AreSound spool.new.queues }
    ensures named { IfOk result IsNamed }
{
    if let End::Refused(_) = end {
        give(alloc, spool, by, Command::Drop { job: NO_JOB })?;
    }
    Ok(end)
}

// How so many groups weren't all taken, if so. Else outputs are written to them aside.
fn take_for(
    alloc: Global,
    spool: &mut Spool,
    by: MemberId,
    groups: u32,
) -> Result<Option<End>, PlayError>
    requires { AreSound spool.old.queues }
    ensures sound { AreSound spool.new.queues }
    ensures named { IfOk result (λ end. IfSome end IsNamed) }
{
    if groups == 0 {
        return Ok(None);
    }
    let why = take_groups(alloc, spool, by, groups)?;
    if why.is_none() {
        go_aside(alloc, spool, by)?;
    }
    Ok(why)
}

// Ends a job with these outputs, which need so many groups.
fn end_job(
    alloc: Global,
    spool: &mut Spool,
    by: MemberId,
    job: JobNo,
    groups: u32,
    outputs: List<OutSpec>,
) -> Result<End, PlayError>
    requires { AreSound spool.old.queues }
    ensures sound { AreSound spool.new.queues }
    ensures named { IfOk result IsNamed }
{
    let end = match take_for(alloc, spool, by, groups)? {
        None => give(alloc, spool, by, Command::Ended { job, outputs })?,
        Some(why) => why,
    };
    free_after(alloc, spool, by, end)
}

// The job of this number goes on so.
fn go_on(
    alloc: Global,
    spool: &mut Spool,
    by: MemberId,
    job: JobNo,
    cancelled: bool,
    outcome: Outcome,
) -> Result<End, PlayError>
    requires sound { AreSound spool.old.queues }
    requires fits { AreFitOutputs outcome }
    ensures sound { AreSound spool.new.queues }
    ensures named { IfOk result IsNamed }
{
    match outcome {
        Outcome::Convert => give(alloc, spool, by, Command::Converted { job }),
        Outcome::End(outputs) => {
            let groups = if cancelled {
                0
            } else {
                groups_of(outputs.as_slice())
            };
            end_job(alloc, spool, by, job, groups, outputs)
        }
        Outcome::Stop(Closing::NoText(group)) => Ok(End::NoText(group)),
        Outcome::Stop(_) => Err(PlayError::Unplayed),
    }
}

// What becomes of a job that is run, or else converted.
fn outcome_at(alloc: Global, job: &Job, runs: bool) -> Result<Outcome, PlayError>
    requires { IsText job.now.text }
    ensures { IfOk result AreFitOutputs }
{
    let fields = job.fields;
    if !is_fit(&Command::Begin { fields }) {
        return Err(PlayError::Unplayed);
    }
    let read = match &job.text {
        Text::Whole(lines) => Read::Lines(lines.copy(alloc)?),
        Text::Gone(group, _) => Read::Gone(*group),
    };
    let outcome = outcome_of(alloc, runs, &fields, &read);
    drop(read);
    Ok(outcome?)
}

// The job that the member runs, or else converts.
fn job_at_work(queue: &Queue, by: MemberId, runs: bool) -> Option<&Job>
    ensures { option_copied result ≡ job_at_work_lem runs queue.now by }
{
    queue
        .jobs
        .as_slice()
        .iter()
        .find(|job| is_at_work(job, by, runs))
}

fn is_at_work(job: &Job, by: MemberId, runs: bool) -> bool
    ensures { result ≡ is_at_work_lem runs by job.now }
{
    let in_phase = match job.phase {
        Phase::Execute => runs,
        Phase::Convert => !runs,
        _ => false,
    };
    in_phase && job.busy.0 == by.0
}

/// Runs the job at the member, or else converts it; none where there is none. Its text is read aside. The errors are
/// those of `give`.
pub fn try_job(
    alloc: Global,
    spool: &mut Spool,
    by: MemberId,
    runs: bool,
) -> Result<Option<End>, PlayError>
    requires { AreSound spool.old.queues }
    ensures sound { AreSound spool.new.queues }
    ensures named { IfOk result (λ end. IfSome end IsNamed) }
{
    let Some(job) = job_at_work(&spool.queues.queue, by, runs) else {
        return Ok(None);
    };
    let (number, cancelled) = (job.number, job.cancelled);
    let outcome = outcome_at(alloc, job, runs)?;
    match go_aside(alloc, spool, by) {
        Ok(()) => Ok(Some(go_on(alloc, spool, by, number, cancelled, outcome)?)),
        Err(no) => {
            drop(outcome);
            Err(no)
        }
    }
}
