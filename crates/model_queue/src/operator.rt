//! What an operator changes in jobs and outputs.
ghost use Rattle.std.specs.Prelude.{◌≡◌, if◌then◌else◌};
ghost use Rattle.mas_types.specs.Lists.{change};
ghost use Rattle.mas_types.specs.Queue.{change_job as change_job_lem, job_at as job_at_lem};
ghost use Rattle.mas_types.specs.Sound.{IsSound};
ghost use Rattle.mas_types.specs.Row.{ComesTo};
ghost use Rattle.mas_types.specs.Commands.Operator.{cancel_out_row, cancel_row, cancelled, held_row, is_busy as is_busy_lem, is_held_of, out_row, released, set_class_row, set_out_row, set_prio_row, without_outputs_of};

use crate::conditions::is_somebody;
use crate::groups::{JobsOutputGroups, free_groups};
use crate::jobs::{HasClass, HasPrio, IsCancelled, IsHeld, change_job, job_at};
use crate::outputs::{HeldOf, IsOfClass, IsReleased, OfJob, change_output};
use crate::picking::{change_each, count, remove_each};
use crate::printing::remove_output;
use crate::refusing::{has_run, is_purged, no_job, not_cancelled, not_ours};
use mas_types::{Class, JobNo, List, MemberId, OutNo, Output, Prio, Queue, Reply};

/// Hold, Release: the job is held, or no longer.
pub fn set_held(queue: &mut Queue, job: JobNo, held: bool) -> Reply
    ensures { ComesTo queue.old (held_row queue.old job held) queue.new result }
{
    match no_job(queue, job) {
        Some(why) => Reply::No(why),
        None => {
            change_job(&mut queue.jobs, job, &IsHeld(held));
            Reply::Job(job)
        }
    }
}

/// SetPrio: the job has another priority.
pub fn set_prio(queue: &mut Queue, job: JobNo, prio: Prio) -> Reply
    ensures { ComesTo queue.old (set_prio_row queue.old job prio) queue.new result }
{
    match is_purged(queue, job) {
        Some(why) => Reply::No(why),
        None => {
            change_job(&mut queue.jobs, job, &HasPrio(prio));
            Reply::Job(job)
        }
    }
}

/// SetClass: the job has another class.
pub fn set_class(queue: &mut Queue, job: JobNo, class: Class) -> Reply
    ensures { ComesTo queue.old (set_class_row queue.old job class) queue.new result }
{
    match has_run(queue, job) {
        Some(why) => Reply::No(why),
        None => {
            change_job(&mut queue.jobs, job, &HasClass(class));
            Reply::Job(job)
        }
    }
}

fn is_busy(queue: &Queue, job: JobNo) -> bool
    ensures { result ≡ is_busy_lem (job_at_lem queue.now job) }
{
    match job_at(&queue.jobs, job) {
        Some(job) => is_somebody(job.busy),
        None => false,
    }
}

fn remove_outputs_of(queue: &mut Queue, job: JobNo)
    ensures { queue.new ≡ without_outputs_of job queue.old }
{
    free_groups(
        &mut queue.owners,
        &JobsOutputGroups {
            outputs: &queue.outputs,
            of: job,
        },
    );
    remove_each(&mut queue.outputs, &OfJob(job));
}

fn remove_outputs_unless(busy: bool, queue: &mut Queue, job: JobNo)
    ensures { queue.new ≡ (if busy then queue.old else without_outputs_of job queue.old) }
{
    if !busy {
        remove_outputs_of(queue, job);
    }
}

fn cancel_job(queue: &mut Queue, job: JobNo)
    ensures { queue.new ≡ change_job_lem job cancelled
        (if is_busy_lem (job_at_lem queue.old job) then queue.old else without_outputs_of job queue.old) }
{
    let busy = is_busy(queue, job);
    remove_outputs_unless(busy, queue, job);
    change_job(&mut queue.jobs, job, &IsCancelled);
}

/// Cancel: a busy job becomes cancelled; any other loses its outputs and goes to Purge.
pub fn cancel(queue: &mut Queue, by: MemberId, job: JobNo) -> Reply
    ensures { ComesTo queue.old (cancel_row queue.old by job) queue.new result }
{
    match not_cancelled(queue, by, job) {
        Some(why) => Reply::No(why),
        None => {
            cancel_job(queue, job);
            Reply::Job(job)
        }
    }
}

fn release_held(outputs: &mut List<Output>, job: JobNo)
    ensures { outputs.new ≡ change (is_held_of job) released outputs.old }
{
    change_each(outputs.as_mut_slice(), &HeldOf(job), &IsReleased);
}

/// Out: the held outputs of the job are released.
pub fn out(queue: &mut Queue, job: JobNo) -> Reply
    requires { IsSound queue.old }
    ensures { ComesTo queue.old (out_row queue.old job) queue.new result }
{
    match no_job(queue, job) {
        Some(why) => Reply::No(why),
        None => {
            let held = count(&queue.outputs, &HeldOf(job));
            release_held(&mut queue.outputs, job);
            Reply::Count(held as u32)
        }
    }
}

/// CancelOut: the output goes, printed or not.
pub fn cancel_out(queue: &mut Queue, by: MemberId, job: JobNo, index: OutNo) -> Reply
    ensures { ComesTo queue.old (cancel_out_row queue.old by job index) queue.new result }
{
    match not_ours(queue, by, job, index) {
        Some(why) => Reply::No(why),
        None => {
            remove_output(queue, job, index);
            Reply::Output(job, index)
        }
    }
}

/// SetOut: the output has another class.
pub fn set_out(queue: &mut Queue, by: MemberId, job: JobNo, index: OutNo, class: Class) -> Reply
    ensures { ComesTo queue.old (set_out_row queue.old by job index class) queue.new result }
{
    match not_ours(queue, by, job, index) {
        Some(why) => Reply::No(why),
        None => {
            change_output(&mut queue.outputs, job, index, &IsOfClass(class));
            Reply::Output(job, index)
        }
    }
}
