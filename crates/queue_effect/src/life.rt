//! How a job goes on: conversion, execution, its outputs, and purge.
ghost use Rattle.std.specs.Prelude.{◌≡◌, ◌≤◌, ℕ, if◌then◌else◌, IfSome, IfNone, None, Some, slice_get};
ghost use Rattle.mas_types.specs.declared.queues.Queue.{Queue};
ghost use Rattle.mas_types.specs.Ids.{nobody};
ghost use Rattle.mas_types.specs.Limits.{members_most};
ghost use Rattle.mas_types.specs.Queue.{is_in, first_in as first_in_lem, has_output as has_output_lem};
ghost use Rattle.mas_types.specs.Selection.{is_for_convert, for_convert as for_convert_lem, is_for_execute, for_execute as for_execute_lem};
ghost use Rattle.mas_types.specs.Commands.Life.{take_convert_row, take_exec_row, converted_row, gather_row, purge_row};
ghost use Rattle.job_queue.specs.Jobs.{HasJob, in_phase};
ghost use Rattle.queue_telling.specs.Orders.{HaveOrders};
ghost use Rattle.queue_telling.specs.Telling.{Tell};
ghost use Rattle.queue_effect.specs.Standing.{Plays, IfRefused, AreFit, IsFitJob};
ghost use Rattle.page_marks.specs.Marks.{Touches};

use crate::groups::free_groups;
use crate::lookups::{put_job, setting, take_job};
use crate::working::{Stage, job_at_work};
use ckpt_tables::Tables;
use job_queue::{find_convert, find_exec, find_in};
use lay_bytes::JobRec;
use mas_types::{JobNo, MemberId, Phase, Refusal, Reply, Thing, purge_if};
use output_queue::has_output;
use page_marks::Marks;
use queue_slots::Found;

fn for_convert(tables: &Tables) -> Option<Found<JobRec>>
    ensures here { IfSome result (λ f. slice_get tables.now.jobs f.at ≡ Some (Some f.item)) }
    ensures some { IfSome result (λ f. (Q : Queue) → Tell tables.now Q
        → HasJob (is_for_convert Q) tables.now.jobs Q.jobs f.at f.item) }
    ensures none { IfNone result ((Q : Queue) → Tell tables.now Q → for_convert_lem Q ≡ None) }
{
    find_convert(tables.jobs.as_slice())
}

fn for_execute(tables: &Tables, by: MemberId) -> Option<Found<JobRec>>
    ensures here { IfSome result (λ f. slice_get tables.now.jobs f.at ≡ Some (Some f.item)) }
    ensures some { IfSome result (λ f. (Q : Queue) → Tell tables.now Q
        → HasJob (is_for_execute Q by) tables.now.jobs Q.jobs f.at f.item) }
    ensures none { IfNone result ((Q : Queue) → Tell tables.now Q → for_execute_lem Q by ≡ None) }
{
    match setting(tables, by) {
        Some(setting) => find_exec(tables.jobs.as_slice(), &setting.init),
        None => None,
    }
}

fn first_job_in(tables: &Tables, phase: Phase) -> Option<Found<JobRec>>
    ensures here { IfSome result (λ f. slice_get tables.now.jobs f.at ≡ Some (Some f.item)) }
    ensures some { IfSome result (λ f. (Q : Queue) → Tell tables.now Q
        → HasJob (is_in (in_phase phase)) tables.now.jobs Q.jobs f.at f.item) }
    ensures none { IfNone result ((Q : Queue) → Tell tables.now Q → first_in_lem (in_phase phase) Q ≡ None) }
{
    find_in(tables.jobs.as_slice(), phase)
}

fn busy_at(job: &JobRec, by: MemberId) -> JobRec
    ensures value { result ≡ record job.now { busy = by } }
    ensures fit { (n : ℕ) → by.0 ≤ members_most → IsFitJob n job.now → IsFitJob n result }
    ensures same_order { result.order ≡ job.now.order }
{
    JobRec { busy: by, ..*job }
}

/// The job in another phase.
pub fn in_phase_of(job: &JobRec, phase: Phase) -> JobRec
    ensures value { result ≡ record job.now { phase = phase } }
    ensures fit { (n : ℕ) → IsFitJob n job.now → IsFitJob n result }
    ensures same_order { result.order ≡ job.now.order }
{
    JobRec { phase, ..*job }
}

/// TakeConvert: the job selected for conversion becomes busy at the member.
pub fn take_convert(tables: &mut Tables, marks: &mut Marks, by: MemberId) -> Reply
    requires { by.0 ≤ members_most }
    ensures plays { Plays tables.old tables.new (λ Q. take_convert_row Q by) result }
    ensures refused { IfRefused result (tables.new ≡ tables.old) }
    ensures fit { AreFit tables.old → AreFit tables.new }
    ensures orders { HaveOrders tables.old → HaveOrders tables.new }
    ensures order { tables.new.order ≡ tables.old.order }
    ensures touches { AreFit tables.old → Touches marks.old.pages marks.new.pages tables.old tables.new }
{
    let Some(found) = for_convert(tables) else {
        return Reply::No(Refusal::Nothing);
    };
    put_job(tables, marks, found.at, busy_at(&found.item, by));
    Reply::Job(found.item.number)
}

/// TakeExec: the job selected for execution becomes busy at the member.
pub fn take_exec(tables: &mut Tables, marks: &mut Marks, by: MemberId) -> Reply
    requires { by.0 ≤ members_most }
    ensures plays { Plays tables.old tables.new (λ Q. take_exec_row Q by) result }
    ensures refused { IfRefused result (tables.new ≡ tables.old) }
    ensures fit { AreFit tables.old → AreFit tables.new }
    ensures orders { HaveOrders tables.old → HaveOrders tables.new }
    ensures order { tables.new.order ≡ tables.old.order }
    ensures touches { AreFit tables.old → Touches marks.old.pages marks.new.pages tables.old tables.new }
{
    let Some(found) = for_execute(tables, by) else {
        return Reply::No(Refusal::Nothing);
    };
    put_job(tables, marks, found.at, busy_at(&found.item, by));
    Reply::Job(found.item.number)
}

fn outputs_phase(tables: &Tables, job: JobNo) -> Phase
    ensures { (Q : Queue) → Tell tables.now Q
        → result ≡ (if has_output_lem job Q then Phase.Hardcopy else Phase.Purge) }
{
    if has_output(tables.outputs.as_slice(), job) {
        Phase::Hardcopy
    } else {
        Phase::Purge
    }
}

/// Gather: the first job in Output goes to Hardcopy, or to Purge where it has no output.
pub fn gather(tables: &mut Tables, marks: &mut Marks) -> Reply
    ensures plays { Plays tables.old tables.new gather_row result }
    ensures refused { IfRefused result (tables.new ≡ tables.old) }
    ensures fit { AreFit tables.old → AreFit tables.new }
    ensures orders { HaveOrders tables.old → HaveOrders tables.new }
    ensures order { tables.new.order ≡ tables.old.order }
    ensures touches { AreFit tables.old → Touches marks.old.pages marks.new.pages tables.old tables.new }
{
    let Some(found) = first_job_in(tables, Phase::Output) else {
        return Reply::No(Refusal::Nothing);
    };
    let phase = outputs_phase(tables, found.item.number);
    put_job(tables, marks, found.at, in_phase_of(&found.item, phase));
    Reply::Job(found.item.number)
}

/// Purge: the first job in Purge goes, and its groups become free.
pub fn purge(tables: &mut Tables, marks: &mut Marks) -> Reply
    ensures plays { Plays tables.old tables.new purge_row result }
    ensures refused { IfRefused result (tables.new ≡ tables.old) }
    ensures fit { AreFit tables.old → AreFit tables.new }
    ensures orders { HaveOrders tables.old → HaveOrders tables.new }
    ensures order { tables.new.order ≡ tables.old.order }
    ensures touches { AreFit tables.old → Touches marks.old.pages marks.new.pages tables.old tables.new }
{
    let Some(found) = first_job_in(tables, Phase::Purge) else {
        return Reply::No(Refusal::Nothing);
    };
    take_job(tables, marks, found.at);
    free_groups(tables, marks, Thing::Deck(found.item.number));
    Reply::Job(found.item.number)
}

fn converted_record(job: &JobRec) -> JobRec
    ensures value { result ≡ record job.now
        { phase = if job.now.cancelled then Phase.Purge else Phase.Execute; busy = nobody } }
    ensures fit { (n : ℕ) → IsFitJob n job.now → IsFitJob n result }
    ensures same_order { result.order ≡ job.now.order }
{
    JobRec {
        phase: purge_if(job.cancelled, Phase::Execute),
        busy: MemberId(0),
        ..*job
    }
}

/// Converted: the job goes to Execute, or to Purge where it is cancelled.
pub fn converted(tables: &mut Tables, marks: &mut Marks, by: MemberId, job: JobNo) -> Reply
    ensures plays { Plays tables.old tables.new (λ Q. converted_row Q by job) result }
    ensures refused { IfRefused result (tables.new ≡ tables.old) }
    ensures fit { AreFit tables.old → AreFit tables.new }
    ensures orders { HaveOrders tables.old → HaveOrders tables.new }
    ensures order { tables.new.order ≡ tables.old.order }
    ensures touches { AreFit tables.old → Touches marks.old.pages marks.new.pages tables.old tables.new }
{
    match job_at_work(tables, by, job, Stage::Convert) {
        Ok(found) => {
            put_job(tables, marks, found.at, converted_record(&found.item));
            Reply::Job(job)
        }
        Err(why) => Reply::No(why),
    }
}
