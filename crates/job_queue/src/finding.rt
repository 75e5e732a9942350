//! Jobs by number and by phase, and those that are selected.
ghost use Rattle.std.specs.Prelude.{◌≡◌, ◌&&◌, ℕ, List, IfSome, IfNone, IfOk, OnErr, None, Some, find, option_map, slice_get, length, ◌<◌};
ghost use Rattle.mas_types.specs.declared.jobs.Job.{Job};
ghost use Rattle.mas_types.specs.declared.queues.Queue.{Queue};
ghost use Rattle.mas_types.specs.Lists.{is_greatest_of, has_first_key_of};
ghost use Rattle.mas_types.specs.Queue.{has_number, is_in, is_busy_at, first_in as first_in_lem};
ghost use Rattle.mas_types.specs.Selection.{job_prio, may_convert, may_execute, has_class, is_for_convert, for_convert};
ghost use Rattle.mas_types.specs.Ids.{same_number};
ghost use Rattle.queue_slots.specs.Listed.{listed};
ghost use Rattle.job_queue.specs.Jobs.{AreJobs, HasJob, in_phase, order_of};

use crate::kinds::{ForConvert, ForExec, InPhase, Numbered, WorkingAt};
use lay_bytes::JobRec;
use mas_types::{Class, JobNo, List, MemberId, Phase};
use queue_slots::{Found, best_slot, best_slot_by_class, first_slot};

/// No job has the number.
#[derive(Clone, Copy)]
pub struct NoJob;

/// The slot of the job with a number, the first where several have it; none exactly where none has it.
pub fn find_job(jobs: &[Option<JobRec>], job: JobNo) -> Option<Found<JobRec>>
    ensures here { IfSome result (λ f. slice_get jobs.now f.at ≡ Some (Some f.item)) }
    ensures some { IfSome result (λ f. (js : List Job) → AreJobs jobs.now js
        → HasJob (has_number job) jobs.now js f.at f.item) }
    ensures none { IfNone result ((js : List Job) → AreJobs jobs.now js → find (has_number job) js ≡ None) }
    ensures listed { option_map (λ f. f.item) result ≡ find (λ r. same_number r.number job) (listed order_of jobs.now) }
{
    first_slot(jobs, &Numbered(job))
}

/// The place of the slot of the job with a number. `NoJob` exactly where none has it.
pub fn place_of(jobs: &[Option<JobRec>], job: JobNo) -> Result<usize, NoJob>
    ensures within { IfOk result (λ at. at < length jobs.now) }
    ensures at { IfOk result (λ at. (js : List Job) → AreJobs jobs.now js → (r : _)
        × HasJob (has_number job) jobs.now js at r) }
    ensures none { OnErr result ((js : List Job) → AreJobs jobs.now js → find (has_number job) js ≡ None) }
{
    match find_job(jobs, job) {
        Some(found) => Ok(found.at),
        None => Err(NoJob),
    }
}

/// The slot of the first job in a phase; none exactly where none is in it.
pub fn find_in(jobs: &[Option<JobRec>], phase: Phase) -> Option<Found<JobRec>>
    ensures here { IfSome result (λ f. slice_get jobs.now f.at ≡ Some (Some f.item)) }
    ensures some { IfSome result (λ f. (js : List Job) → AreJobs jobs.now js
        → HasJob (is_in (in_phase phase)) jobs.now js f.at f.item) }
    ensures none { IfNone result ((js : List Job) → AreJobs jobs.now js → find (is_in (in_phase phase)) js ≡ None) }
{
    first_slot(jobs, &InPhase(phase))
}

/// The slot of the first job in a phase that is busy at a member; none exactly where there is none.
pub fn find_working(jobs: &[Option<JobRec>], by: MemberId, phase: Phase) -> Option<Found<JobRec>>
    ensures here { IfSome result (λ f. slice_get jobs.now f.at ≡ Some (Some f.item)) }
    ensures some { IfSome result (λ f. (js : List Job) → AreJobs jobs.now js
        → HasJob (λ j. in_phase phase j.phase && is_busy_at by j) jobs.now js f.at f.item) }
    ensures none { IfNone result ((js : List Job) → AreJobs jobs.now js
        → find (λ j. in_phase phase j.phase && is_busy_at by j) js ≡ None) }
{
    first_slot(jobs, &WorkingAt { by, phase })
}

/// The slot of the job selected for conversion: of those that wait for it, of those of the greatest priority, the
/// first; none exactly where none waits.
pub fn find_convert(jobs: &[Option<JobRec>]) -> Option<Found<JobRec>>
    ensures here { IfSome result (λ f. slice_get jobs.now f.at ≡ Some (Some f.item)) }
    ensures some { IfSome result (λ f. (js : List Job) → AreJobs jobs.now js
        → HasJob (is_greatest_of job_prio may_convert js) jobs.now js f.at f.item) }
    ensures none { IfNone result ((js : List Job) → AreJobs jobs.now js
        → find (is_greatest_of job_prio may_convert js) js ≡ None) }
{
    best_slot(jobs, &ForConvert)
}

/// The slot of the job selected for execution: of those that wait for it, of those of the first class that any of them
/// has, of those of the greatest priority, the first; none exactly where none of these classes waits.
pub fn find_exec(jobs: &[Option<JobRec>], classes: &List<Class>) -> Option<Found<JobRec>>
    ensures here { IfSome result (λ f. slice_get jobs.now f.at ≡ Some (Some f.item)) }
    ensures some { IfSome result (λ f. (js : List Job) → AreJobs jobs.now js
        → HasJob (is_greatest_of job_prio (has_first_key_of has_class classes.now may_execute js) js) jobs.now js f.at
        f.item) }
    ensures none { IfNone result ((js : List Job) → AreJobs jobs.now js
        → find (is_greatest_of job_prio (has_first_key_of has_class classes.now may_execute js) js) js ≡ None) }
{
    best_slot_by_class(jobs, classes, &ForExec)
}

fn number_of(found: Option<Found<JobRec>>) -> Option<JobNo>
    ensures { result ≡ option_map (λ f. f.item.number) found }
{
    match found {
        Some(found) => Some(found.item.number),
        None => None,
    }
}

/// The first job in a phase; none exactly where none is in it.
pub fn first_in(jobs: &[Option<JobRec>], phase: Phase) -> Option<JobNo>
    ensures { (Q : Queue) → AreJobs jobs.now Q.jobs
        → result ≡ option_map (λ j. j.number) (first_in_lem (in_phase phase) Q) }
{
    number_of(find_in(jobs, phase))
}

/// The job selected for conversion; none exactly where none is selected.
pub fn select_convert(jobs: &[Option<JobRec>]) -> Option<JobNo>
    ensures { (Q : Queue) → AreJobs jobs.now Q.jobs → result ≡ option_map (λ j. j.number) (for_convert Q) }
{
    number_of(find_convert(jobs))
}

/// The job selected for execution by initiators of these classes; none exactly where none is selected.
pub fn select_exec(jobs: &[Option<JobRec>], classes: &List<Class>) -> Option<JobNo>
    ensures { (Q : Queue) → AreJobs jobs.now Q.jobs
        → result ≡ option_map (λ j. j.number)
        (find (is_greatest_of job_prio (has_first_key_of has_class classes.now may_execute Q.jobs) Q.jobs) Q.jobs) }
{
    number_of(find_exec(jobs, classes))
}
