//! New jobs, and jobs that go on.
ghost use Rattle.std.specs.Prelude.{◌≡◌, ◌<◌, ◌≤◌, ◌++◌, ◌∷◌, [], ℕ, List, All, IfOk, IfErr, OnOk, OnErr, None, Some, length, if◌then◌else◌, position, is_none, slice_set};
ghost use Rattle.mas_types.specs.declared.jobs.Job.{Job};
ghost use Rattle.mas_types.specs.Lists.{change_first};
ghost use Rattle.mas_types.specs.Limits.{number_most};
ghost use Rattle.mas_types.specs.Queue.{has_number};
ghost use Rattle.mas_types.specs.Number.{after, is_number_used, next_number as next_number_lem};
ghost use Rattle.mas_types.specs.Commands.Input.{new_job};
ghost use Rattle.lay_bytes.specs.Used.{used};
ghost use Rattle.job_queue.specs.Jobs.{AreJobs, new_rec};
ghost use Rattle.job_queue.specs.Advance.{advanced, refusal_of};

use crate::finding::find_job;
use crate::kinds::is_in;
use lay_bytes::JobRec;
use mas_types::{JobFields, JobNo, MemberId, NUMBER_MOST, Phase, Refusal, purge_if};
use queue_slots::{free_slot, used_count};

/// No slot is free.
#[derive(Clone, Copy)]
pub struct JobsFull;

fn is_used(jobs: &[Option<JobRec>], n: u32) -> bool
    ensures { (js : List Job) → AreJobs jobs.now js → result ≡ is_number_used js n }
{
    find_job(jobs, JobNo(n)).is_some()
}

fn number_after(n: u32) -> u32
    ensures value { result ≡ after n }
    ensures small { result ≤ number_most }
{
    if n < NUMBER_MOST { n + 1 } else { 1 }
}

/// The number of a new job: the first after the last one that no job has, with 1 after 99,999.
pub fn next_number(jobs: &[Option<JobRec>], last: JobNo) -> JobNo
    requires few { length jobs.now < number_most }
    requires last { last.0 ≤ number_most }
    ensures value { (js : List Job) → AreJobs jobs.now js → result ≡ next_number_lem js last }
    ensures small { result.0 ≤ number_most }
{
    let mut n = number_after(last.0);
    let mut more = used_count(jobs);
    while more > 0 && is_used(jobs, n) {
        n = number_after(n);
        more -= 1;
    }
    JobNo(n)
}

/// A new job in the lowest free slot, with the next number and an order above those of the others: in Input, busy at
/// the member, with no text. `JobsFull` exactly where no slot is free, and nothing is changed then.
pub fn add(
    jobs: &mut [Option<JobRec>],
    last: JobNo,
    order: u64,
    fields: &JobFields,
    by: MemberId,
) -> Result<JobNo, JobsFull>
    requires few { length jobs.old < number_most }
    requires last { last.0 ≤ number_most }
    requires above { All (λ r. r.order < order) (used jobs.old) }
    ensures number { IfOk result (λ n. (js : List Job) → AreJobs jobs.old js → n ≡ next_number_lem js last) }
    ensures added { IfOk result (λ n. (js : List Job) → AreJobs jobs.old js
        → AreJobs jobs.new (js ++ new_job by n fields.now ∷ [])) }
    ensures placed { IfOk result (λ n. (at : ℕ) × (position is_none jobs.old ≡ Some at)
        × (jobs.new ≡ slice_set jobs.old at (Some (new_rec by n fields.now order)))) }
    ensures small { IfOk result (λ n. n.0 ≤ number_most) }
    ensures room { OnOk result ((js : List Job) → AreJobs jobs.old js → length js < length jobs.old) }
    ensures full { OnErr result ((js : List Job) → AreJobs jobs.old js → length js ≡ length jobs.old) }
    ensures unchanged { OnErr result (jobs.new ≡ jobs.old) }
{
    let Some(at) = free_slot(jobs) else {
        return Err(JobsFull);
    };
    let number = next_number(jobs, last);
    jobs[at] = Some(new_record(number, order, *fields, by));
    Ok(number)
}

fn new_record(number: JobNo, order: u64, fields: JobFields, by: MemberId) -> JobRec
    ensures { result ≡ new_rec by number fields order }
{
    JobRec {
        number,
        fields,
        phase: Phase::Input,
        cancelled: false,
        busy: by,
        cards: 0,
        order,
    }
}

/// The job goes on from one phase to another, or to Purge where it is cancelled, and is busy no longer. `NoJob` where
/// none has the number, `WrongPhase` where it isn't in the first phase, `InUse` where it isn't busy at the member,
/// tried in this order; nothing is changed then.
pub fn advance(
    jobs: &mut [Option<JobRec>],
    by: MemberId,
    job: JobNo,
    from: Phase,
    to: Phase,
) -> Result<(), Refusal>
    ensures moved { OnOk result ((js : List Job) → AreJobs jobs.old js
        → AreJobs jobs.new (change_first (has_number job) (advanced to) js)) }
    ensures allowed { OnOk result ((js : List Job) → AreJobs jobs.old js → refusal_of by job from js ≡ None) }
    ensures refused { IfErr result
        (λ why. (js : List Job) → AreJobs jobs.old js → refusal_of by job from js ≡ Some why) }
    ensures unchanged { OnErr result (jobs.new ≡ jobs.old) }
{
    let Some(found) = find_job(jobs, job) else {
        return Err(Refusal::NoJob);
    };
    let old = found.item;
    if !is_in(old.phase, from) {
        return Err(Refusal::WrongPhase(old.phase));
    }
    if old.busy.0 != by.0 {
        return Err(Refusal::InUse(old.busy));
    }
    jobs[found.at] = Some(advanced_record(&old, to));
    Ok(())
}

fn advanced_record(old: &JobRec, to: Phase) -> JobRec
    ensures { result ≡ record old.now
        { phase = if old.now.cancelled then Phase.Purge else to; busy = record { 0 = 0 } } }
{
    JobRec {
        phase: purge_if(old.cancelled, to),
        busy: MemberId(0),
        ..*old
    }
}
