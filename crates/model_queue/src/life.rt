//! How a job goes on: conversion, execution, its outputs, and purge.
ghost use Rattle.std.specs.Prelude.{◌≡◌, ◌∷◌, ◌++◌, [], ◌≤◌, ◌<◌, length, All, IfOk, IfSome, IfNone, OnErr, Some, None, slice_get, slice_set, if◌then◌else◌};
ghost use Rattle.std.specs.List.{list_any};
ghost use Rattle.mas_types.specs.declared.jobs.Job.{Job};
ghost use Rattle.mas_types.specs.declared.jobs.Phase.TheVariants as phase;
ghost use Rattle.mas_types.specs.Fit.{IsOutSpec};
ghost use Rattle.mas_types.specs.Lists.{change_first as change_first_lem, first_some};
ghost use Rattle.mas_types.specs.Owners.{handed_out};
ghost use Rattle.mas_types.specs.Queue.{change_job as change_job_lem, has_number, is_of, job_at as job_at_lem};
ghost use Rattle.mas_types.specs.Selection.{for_execute, is_for_execute};
ghost use Rattle.mas_types.specs.Row.{ComesTo, refused_where};
ghost use Rattle.mas_types.specs.Commands.Life.{are_outputs_full, converted_row, ended as ended_lem, ended_row, gather_row, groups_of_outputs, is_cancelled as is_cancelled_lem, lacks_groups, new_output as new_output_lem, new_outputs as new_outputs_lem, purge_row, take_convert_row, take_exec_row, with_outputs as with_outputs_lem};
ghost use Rattle.model_queue.specs.Ends.{end_row};
ghost use Rattle.model_queue.specs.Places.{StandsAt};

use crate::conditions::are_too_many;
use crate::groups::{DeckGroups, free_groups, hand_out, places_of_outputs};
use crate::jobs::{
    BusyAt, ForConvert, ForExecute, HasEnded, InOutput, InPurge, IsConverted, change_job, job_at,
};
use crate::outputs::{has_output, setting_of};
use crate::picking::{Changes, best_place, best_place_by_class, first_place};
use crate::refusing::{not_in_convert, not_running, too_few_groups};
use mas_types::{
    Copied, Job, JobNo, List, MemberId, NoMemory, OutNo, OutSpec, Output, Owner, Phase, Queue,
    Refusal, Reply, Text,
};
use std::alloc::Global;

/// The job at a place is changed. Its number.
fn change_at<F: Changes<Job>>(jobs: &mut List<Job>, at: usize, change: &F) -> JobNo
    requires { at < length jobs.old }
    ensures { (j : Job) → slice_get jobs.old at ≡ Some j → (result ≡ j.number)
        × (jobs.new ≡ slice_set jobs.old at (F.changed change.now j)) }
{
    let number = jobs.item(at).number;
    change.change(jobs.item_mut(at));
    number
}

/// TakeConvert: the job selected for conversion becomes busy at the member.
pub fn take_convert(queue: &mut Queue, by: MemberId) -> Reply
    ensures { ComesTo queue.old (take_convert_row queue.old by) queue.new result }
{
    match best_place(&queue.jobs, &ForConvert) {
        Some(at) => Reply::Job(change_at(&mut queue.jobs, at, &BusyAt(by))),
        None => Reply::No(Refusal::Nothing),
    }
}

fn place_for_execute(queue: &Queue, by: MemberId) -> Option<usize>
    ensures some { IfSome result (λ at. StandsAt (is_for_execute queue.now by) queue.now.jobs at) }
    ensures none { IfNone result (for_execute queue.now by ≡ None) }
{
    match setting_of(queue, by) {
        Some(setting) => best_place_by_class(&queue.jobs, &setting.init, &ForExecute),
        None => None,
    }
}

/// TakeExec: the job selected for execution becomes busy at the member.
pub fn take_exec(queue: &mut Queue, by: MemberId) -> Reply
    ensures { ComesTo queue.old (take_exec_row queue.old by) queue.new result }
{
    match place_for_execute(queue, by) {
        Some(at) => Reply::Job(change_at(&mut queue.jobs, at, &BusyAt(by))),
        None => Reply::No(Refusal::Nothing),
    }
}

/// Converted: the job goes to Execute, or to Purge where it is cancelled.
pub fn converted(queue: &mut Queue, by: MemberId, job: JobNo) -> Reply
    ensures { ComesTo queue.old (converted_row queue.old by job) queue.new result }
{
    match not_in_convert(queue, by, job) {
        Some(why) => Reply::No(why),
        None => {
            change_job(&mut queue.jobs, job, &IsConverted);
            Reply::Job(job)
        }
    }
}

fn new_output(alloc: Global, job: JobNo, index: u8, spec: &OutSpec) -> Result<Output, NoMemory>
    ensures { IfOk result (λ output. output ≡ new_output_lem job index spec.now) }
{
    Ok(Output {
        job,
        index: OutNo(index),
        class: spec.class,
        dest: spec.dest,
        forms: spec.forms,
        copies: spec.copies,
        held: spec.held,
        busy: MemberId(0),
        mark: 0,
        text: Text::Whole(spec.text.copy(alloc)?),
    })
}

/// A copy of the outputs, and a job's new ones, with indexes from 1 on.
fn with_outputs(
    alloc: Global,
    outputs: &List<Output>,
    job: JobNo,
    specs: &List<OutSpec>,
) -> Result<List<Output>, NoMemory>
    requires { length specs.now ≤ 32 }
    ensures { IfOk result (λ all. all ≡ outputs.now ++ new_outputs_lem job 1 specs.now) }
{
    let mut all = outputs.copy(alloc)?;
    let mut index = 1;
    for spec in specs.as_slice() {
        all.push(new_output(alloc, job, index, spec)?)?;
        index += 1;
    }
    Ok(all)
}

fn too_many_outputs(queue: &Queue, specs: &List<OutSpec>) -> Option<Refusal>
    ensures { result ≡ refused_where (are_outputs_full queue.now specs.now) Refusal.OutputsFull }
{
    if are_too_many(
        queue.config.outputs as usize,
        queue.outputs.len(),
        specs.len(),
    ) {
        Some(Refusal::OutputsFull)
    } else {
        None
    }
}

/// Why a job doesn't end with these outputs, which take so many groups.
fn not_ended(queue: &Queue, by: MemberId, specs: &List<OutSpec>, groups: usize) -> Option<Refusal>
    requires { groups ≡ groups_of_outputs specs.now }
    ensures { result ≡ first_some (refused_where (are_outputs_full queue.now specs.now) Refusal.OutputsFull
        ∷ (refused_where (lacks_groups queue.now by specs.now) Refusal.Nothing ∷ [])) }
{
    match too_many_outputs(queue, specs) {
        Some(why) => Some(why),
        None => too_few_groups(queue, by, groups),
    }
}

fn end_job(queue: &mut Queue, by: MemberId, job: JobNo, outputs: List<Output>, places: &List<Owner>)
    ensures { queue.new ≡ record queue.old {
      jobs = change_first_lem (has_number job) ended_lem queue.old.jobs;
      outputs = outputs;
      owners = handed_out by places.now queue.old.owners;
    } }
{
    change_job(&mut queue.jobs, job, &HasEnded);
    queue.outputs = outputs;
    hand_out(&mut queue.owners, by, places);
}

/// A running job that isn't cancelled comes to its end.
fn end_running(
    alloc: Global,
    queue: &mut Queue,
    by: MemberId,
    job: JobNo,
    specs: &List<OutSpec>,
) -> Result<Reply, NoMemory>
    requires few { length specs.now ≤ 32 }
    requires each { All IsOutSpec specs.now }
    ensures ok { IfOk result (λ reply. ComesTo queue.old (end_row queue.old by job specs.now) queue.new reply) }
    ensures err { OnErr result (queue.new ≡ queue.old) }
{
    let places = places_of_outputs(alloc, job, specs)?;
    match not_ended(queue, by, specs, places.len()) {
        Some(why) => Ok(Reply::No(why)),
        None => {
            let outputs = with_outputs(alloc, &queue.outputs, job, specs)?;
            end_job(queue, by, job, outputs, &places);
            Ok(Reply::Count(specs.len() as u32))
        }
    }
}

/// A cancelled job comes to its end without outputs.
fn end_cancelled(alloc: Global, queue: &mut Queue, by: MemberId, job: JobNo) -> Reply
    ensures queue { queue.new ≡ with_outputs_lem by job [] (change_job_lem job ended_lem queue.old) }
    ensures reply { result ≡ Reply.Count 0 }
{
    change_job(&mut queue.jobs, job, &HasEnded);
    hand_out(&mut queue.owners, by, &List::new(alloc));
    Reply::Count(0)
}

fn is_cancelled(queue: &Queue, job: JobNo) -> bool
    ensures { result ≡ is_cancelled_lem (job_at_lem queue.now job) }
{
    match job_at(&queue.jobs, job) {
        Some(job) => job.cancelled,
        None => false,
    }
}

/// Ended: the job has run, and its outputs stand last in the list. A cancelled job gets none. After NoMemory nothing is
/// changed.
pub fn ended(
    alloc: Global,
    queue: &mut Queue,
    by: MemberId,
    job: JobNo,
    specs: &List<OutSpec>,
) -> Result<Reply, NoMemory>
    requires few { length specs.now ≤ 32 }
    requires each { All IsOutSpec specs.now }
    ensures ok { IfOk result (λ reply. ComesTo queue.old (ended_row queue.old by job specs.now) queue.new reply) }
    ensures err { OnErr result (queue.new ≡ queue.old) }
{
    if let Some(why) = not_running(queue, by, job) {
        return Ok(Reply::No(why));
    }
    if is_cancelled(queue, job) {
        return Ok(end_cancelled(alloc, queue, by, job));
    }
    end_running(alloc, queue, by, job, specs)
}

/// The job goes to Hardcopy if it has outputs, and else to Purge.
#[derive(Clone, Copy)]
struct IsGathered<'a> {
    outputs: &'a List<Output>,
}

impl<'a> Changes<Job> for IsGathered<'a> {
    ghost changed = { λ s j. record j
        { phase = if list_any (is_of j.number) s.outputs.now then phase.Hardcopy else phase.Purge } };

    fn change(&self, item: &mut Job) {
        item.phase = gathered_phase(self.outputs, item.number);
    }
}

fn gathered_phase(outputs: &List<Output>, job: JobNo) -> Phase
    ensures { result ≡ (if list_any (is_of job) outputs.now then Phase.Hardcopy else Phase.Purge) }
{
    if has_output(outputs, job) {
        Phase::Hardcopy
    } else {
        Phase::Purge
    }
}

/// Gather: the first job in Output goes to Hardcopy, or to Purge where it has no output.
pub fn gather(queue: &mut Queue) -> Reply
    ensures { ComesTo queue.old (gather_row queue.old) queue.new result }
{
    match first_place(&queue.jobs, &InOutput) {
        Some(at) => Reply::Job(change_at(
            &mut queue.jobs,
            at,
            &IsGathered {
                outputs: &queue.outputs,
            },
        )),
        None => Reply::No(Refusal::Nothing),
    }
}

/// Purge: the first job in Purge goes, and the groups of its deck become Free.
pub fn purge(queue: &mut Queue) -> Reply
    ensures { ComesTo queue.old (purge_row queue.old) queue.new result }
{
    let Some(at) = first_place(&queue.jobs, &InPurge) else {
        return Reply::No(Refusal::Nothing);
    };
    let number = queue.jobs.item(at).number;
    drop(queue.jobs.remove(at));
    free_groups(&mut queue.owners, &DeckGroups(number));
    Reply::Job(number)
}
