//! Show: what a display of the queue says.
ghost use Rattle.std.specs.Prelude.{◌≡◌, ◌≤◌, ◌++◌, ◌∷◌, [], All, drop, filter, map, IfOk, OnOk};
ghost use Rattle.mas_types.specs.declared.queues.Queue.{Queue};
ghost use Rattle.mas_types.specs.Ids.{same_number};
ghost use Rattle.mas_types.specs.Limits.{members_most};
ghost use Rattle.mas_types.specs.Shown.{show_row};
ghost use Rattle.mas_types.specs.Sorted.{in_order};
ghost use Rattle.queue_slots.specs.Listed.{listed};
ghost use Rattle.lay_bytes.specs.Used.{used};
ghost use Rattle.job_queue.specs.Jobs.{order_of as job_order};
ghost use Rattle.output_queue.specs.Outputs.{order_of as output_order};
ghost use Rattle.cmd_report.specs.Named.{IsNamed};
ghost use Rattle.queue_telling.specs.Telling.{Tell};
ghost use Rattle.queue_effect.specs.Standing.{Plays, AreEnds, AreFit};
ghost use Rattle.queue_effect.specs.Gone.{job_of as job_of_lem, output_of as output_of_lem, SaysAs, TellJob};

use crate::ends::Ends;
use ckpt_tables::Tables;
use cmd_report::show;
use job_queue::find_job;
use lay_bytes::{JobRec, OutRec};
use mas_types::{
    Copied, GroupNo, Job, JobNo, List, NoMemory, Output, Owner, Queue, Reply, Setting, Text, What,
};
use std::alloc::{AllocError, Global};

fn job_of(job: &JobRec) -> Job
    ensures { result ≡ job_of_lem job.now }
{
    Job {
        number: job.number,
        fields: job.fields,
        phase: job.phase,
        cancelled: job.cancelled,
        busy: job.busy,
        text: Text::Gone(GroupNo(0), job.cards),
    }
}

fn output_of(output: &OutRec) -> Output
    ensures { result ≡ output_of_lem output.now }
{
    Output {
        job: output.job,
        index: output.index,
        class: output.class,
        dest: output.dest,
        forms: output.forms,
        copies: output.copies,
        held: output.held,
        busy: output.busy,
        mark: output.mark,
        text: Text::Gone(GroupNo(0), output.lines),
    }
}

fn push_job(jobs: &mut Vec<JobRec>, slot: &Option<JobRec>) -> Result<(), AllocError>
    ensures { OnOk result (jobs.new.items ≡ jobs.old.items ++ used (slot.now ∷ [])) }
{
    match slot {
        Some(job) => {
            jobs.push(*job)?;
            Ok(())
        }
        None => Ok(()),
    }
}

fn used_jobs(alloc: Global, slots: &[Option<JobRec>]) -> Result<Vec<JobRec>, AllocError>
    ensures { IfOk result (λ jobs. jobs.items ≡ used slots.now) }
{
    let mut jobs = Vec::new(alloc);
    for slot in slots {
        push_job(&mut jobs, slot)?;
    }
    Ok(jobs)
}

/// The jobs in order, their texts told by their numbers of lines.
fn listed_jobs(alloc: Global, slots: &[Option<JobRec>]) -> Result<List<Job>, NoMemory>
    ensures { IfOk result (λ jobs. jobs ≡ map job_of_lem (listed job_order slots.now)) }
{
    let mut records = used_jobs(alloc, slots)?;
    records.sort_by_key(|job| job.order)?;
    let mut jobs = List::new(alloc);
    for job in records.as_slice() {
        jobs.push(job_of(job))?;
    }
    Ok(jobs)
}

fn push_output(outputs: &mut Vec<OutRec>, slot: &Option<OutRec>) -> Result<(), AllocError>
    ensures { OnOk result (outputs.new.items ≡ outputs.old.items ++ used (slot.now ∷ [])) }
{
    match slot {
        Some(output) => {
            outputs.push(*output)?;
            Ok(())
        }
        None => Ok(()),
    }
}

fn used_outputs(alloc: Global, slots: &[Option<OutRec>]) -> Result<Vec<OutRec>, AllocError>
    ensures { IfOk result (λ outputs. outputs.items ≡ used slots.now) }
{
    let mut outputs = Vec::new(alloc);
    for slot in slots {
        push_output(&mut outputs, slot)?;
    }
    Ok(outputs)
}

fn push_output_of(
    outputs: &mut Vec<OutRec>,
    slot: &Option<OutRec>,
    job: JobNo,
) -> Result<(), AllocError>
    ensures { OnOk result (outputs.new.items
        ≡ outputs.old.items ++ filter (λ r. same_number r.job job) (used (slot.now ∷ []))) }
{
    match slot {
        Some(output) if output.job.0 == job.0 => {
            outputs.push(*output)?;
            Ok(())
        }
        _ => Ok(()),
    }
}

fn used_outputs_of(
    alloc: Global,
    slots: &[Option<OutRec>],
    job: JobNo,
) -> Result<Vec<OutRec>, AllocError>
    ensures { IfOk result (λ outputs. outputs.items ≡ filter (λ r. same_number r.job job) (used slots.now)) }
{
    let mut outputs = Vec::new(alloc);
    for slot in slots {
        push_output_of(&mut outputs, slot, job)?;
    }
    Ok(outputs)
}

/// The outputs of these records in order, their texts told by their numbers of lines.
fn outputs_in_order(alloc: Global, records: Vec<OutRec>) -> Result<List<Output>, NoMemory>
    ensures { IfOk result (λ outputs. outputs ≡ map output_of_lem (in_order output_order records.items)) }
{
    let mut sorted = records;
    sorted.sort_by_key(|output| output.order)?;
    let mut outputs = List::new(alloc);
    for output in sorted.as_slice() {
        outputs.push(output_of(output))?;
    }
    Ok(outputs)
}

/// All outputs in order.
fn listed_outputs(alloc: Global, slots: &[Option<OutRec>]) -> Result<List<Output>, NoMemory>
    ensures { IfOk result (λ outputs. outputs ≡ map output_of_lem (listed output_order slots.now)) }
{
    let records = used_outputs(alloc, slots)?;
    outputs_in_order(alloc, records)
}

/// The outputs of a job in order.
fn outputs_of_job(
    alloc: Global,
    slots: &[Option<OutRec>],
    job: JobNo,
) -> Result<List<Output>, NoMemory>
    ensures { IfOk result (λ outputs. outputs
        ≡ map output_of_lem (filter (λ r. same_number r.job job) (listed output_order slots.now))) }
{
    let records = used_outputs_of(alloc, slots, job)?;
    outputs_in_order(alloc, records)
}

// The slots before the end, from which on nothing stands.
fn slots_to<T>(slots: &[Option<T>], end: usize) -> &[Option<T>]
    requires { used (drop end slots.now) ≡ [] }
    ensures { used result.now ≡ used slots.now }
{
    &slots[..end.min(slots.len())]
}

/// The job with a number, its text told by its number of lines; none where it isn't there.
fn job_alone(alloc: Global, tables: &Tables, ends: Ends, job: JobNo) -> Result<List<Job>, NoMemory>
    requires fit { AreFit tables.now }
    requires ends { AreEnds ends tables.now }
    ensures named { IfOk result (λ jobs. All (λ j. j.busy.0 ≤ members_most) jobs) }
    ensures same { IfOk result (λ jobs. (Q : Queue) → Tell tables.now Q → TellJob job jobs Q.jobs) }
{
    let slots = slots_to(tables.jobs.as_slice(), ends.jobs);
    let Some(found) = find_job(slots, job) else {
        return Ok(List::new(alloc));
    };
    let mut jobs = List::new(alloc);
    jobs.push(job_of(&found.item))?;
    Ok(jobs)
}

/// A queue of these jobs and outputs.
fn jobs_part(alloc: Global, tables: &Tables, jobs: List<Job>, outputs: List<Output>) -> Queue
    ensures { result ≡ record {
      config = tables.now.config;
      jobs = jobs;
      outputs = outputs;
      owners = [];
      members = [];
      routes = [];
      lines = [];
      last = tables.now.last;
    } }
{
    Queue {
        config: tables.config,
        jobs,
        outputs,
        owners: List::new(alloc),
        members: List::new(alloc),
        routes: List::new(alloc),
        lines: List::new(alloc),
        last: tables.last,
    }
}

/// A queue of these groups and settings.
fn groups_part(alloc: Global, tables: &Tables, owners: List<Owner>, members: List<Setting>) -> Queue
    ensures { result ≡ record {
      config = tables.now.config;
      jobs = [];
      outputs = [];
      owners = owners;
      members = members;
      routes = [];
      lines = [];
      last = tables.now.last;
    } }
{
    Queue {
        config: tables.config,
        jobs: List::new(alloc),
        outputs: List::new(alloc),
        owners,
        members,
        routes: List::new(alloc),
        lines: List::new(alloc),
        last: tables.last,
    }
}

/// What a display of the jobs shows.
fn queue_part(alloc: Global, tables: &Tables, ends: Ends) -> Result<Queue, NoMemory>
    requires fit { AreFit tables.now }
    requires ends { AreEnds ends tables.now }
    ensures named { IfOk result IsNamed }
    ensures same { IfOk result (λ part. (Q : Queue) → Tell tables.now Q → SaysAs What.Queue part Q) }
{
    let slots = slots_to(tables.jobs.as_slice(), ends.jobs);
    let jobs = listed_jobs(alloc, slots)?;
    let none = List::new(alloc);
    Ok(jobs_part(alloc, tables, jobs, none))
}

/// What a display of a job shows.
fn job_part(alloc: Global, tables: &Tables, ends: Ends, job: JobNo) -> Result<Queue, NoMemory>
    requires fit { AreFit tables.now }
    requires ends { AreEnds ends tables.now }
    ensures named { IfOk result IsNamed }
    ensures same { IfOk result (λ part. (Q : Queue) → Tell tables.now Q → SaysAs (What.Job job) part Q) }
{
    let jobs = job_alone(alloc, tables, ends, job)?;
    let slots = slots_to(tables.outputs.as_slice(), ends.outputs);
    let outputs = outputs_of_job(alloc, slots, job)?;
    Ok(jobs_part(alloc, tables, jobs, outputs))
}

/// What a display of the outputs shows.
fn outputs_part(alloc: Global, tables: &Tables, ends: Ends) -> Result<Queue, NoMemory>
    requires fit { AreFit tables.now }
    requires ends { AreEnds ends tables.now }
    ensures named { IfOk result IsNamed }
    ensures same { IfOk result (λ part. (Q : Queue) → Tell tables.now Q → SaysAs What.Outputs part Q) }
{
    let none = List::new(alloc);
    let slots = slots_to(tables.outputs.as_slice(), ends.outputs);
    let outputs = listed_outputs(alloc, slots)?;
    Ok(jobs_part(alloc, tables, none, outputs))
}

/// What a display of the groups shows.
fn spool_part(alloc: Global, tables: &Tables) -> Result<Queue, NoMemory>
    requires { AreFit tables.now }
    ensures named { IfOk result IsNamed }
    ensures same { IfOk result (λ part. (Q : Queue) → Tell tables.now Q → SaysAs What.Spool part Q) }
{
    let owners = tables.owners.copy(alloc)?;
    let none = List::new(alloc);
    Ok(groups_part(alloc, tables, owners, none))
}

/// What a display of the members shows.
fn members_part(alloc: Global, tables: &Tables) -> Result<Queue, NoMemory>
    requires { AreFit tables.now }
    ensures named { IfOk result IsNamed }
    ensures same { IfOk result (λ part. (Q : Queue) → Tell tables.now Q → SaysAs What.Members part Q) }
{
    let members = tables.members.copy(alloc)?;
    let none = List::new(alloc);
    Ok(groups_part(alloc, tables, none, members))
}

/// As much of the queue as the display shows.
fn shown_part(alloc: Global, tables: &Tables, ends: Ends, what: What) -> Result<Queue, NoMemory>
    requires fit { AreFit tables.now }
    requires ends { AreEnds ends tables.now }
    ensures named { IfOk result IsNamed }
    ensures same { IfOk result (λ part. (Q : Queue) → Tell tables.now Q → SaysAs what part Q) }
{
    match what {
        What::Queue => queue_part(alloc, tables, ends),
        What::Job(job) => job_part(alloc, tables, ends, job),
        What::Outputs => outputs_part(alloc, tables, ends),
        What::Spool => spool_part(alloc, tables),
        What::Members => members_part(alloc, tables),
    }
}

/// Show: the lines of a display, or NoJob where it is of a job that isn't there. Slots past the ends are not looked at.
/// NoMemory comes only when out of memory.
pub fn display(alloc: Global, tables: &Tables, ends: Ends, what: What) -> Result<Reply, NoMemory>
    requires fit { AreFit tables.now }
    requires ends { AreEnds ends tables.now }
    ensures { IfOk result (λ reply. Plays tables.now tables.now (λ Q. show_row Q what) reply) }
{
    let part = shown_part(alloc, tables, ends, what)?;
    let reply = show(alloc, &part, what)?;
    Ok(reply)
}
