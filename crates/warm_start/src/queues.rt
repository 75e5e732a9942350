//! The queue of tables without its texts.
ghost use Rattle.std.specs.Prelude.{◌≡◌, List, Option, IfOk, map};
ghost use Rattle.lay_bytes.specs.declared.records.JobRec.{JobRec as JobRecLem};
ghost use Rattle.lay_bytes.specs.declared.records.OutRec.{OutRec as OutRecLem};
ghost use Rattle.lay_bytes.specs.Used.{used};
ghost use Rattle.ckpt_pages.specs.QueueOf.{job_with, output_with, queue_of as queue_of_lem};
ghost use Rattle.mas_types.specs.Sorted.{in_order};
ghost use Rattle.warm_start.specs.Bare.{bare_text, bare_deck, bare_print};
ghost use Rattle.start_choice.specs.Usable.{StandForWhatIsTold};

use ckpt_tables::Tables;
use lay_bytes::{JobRec, OutRec};
use mas_types::{Copied, GroupNo, Job, Lines, List, NoMemory, Output, Queue, Text};
use std::alloc::{AllocError, Global};

// What stands in the slots that aren't free.
fn used_slots<T: Copy>(alloc: Global, slots: &[Option<T>]) -> Result<Vec<T>, AllocError>
    ensures { IfOk result (λ records. records.items ≡ used slots.now) }
{
    let mut records = Vec::new(alloc);
    for slot in slots {
        match slot {
            Some(record) => records.push(*record)?,
            None => {}
        }
    }
    Ok(records)
}

/// The records of jobs, in ascending order.
pub(crate) fn jobs_in_order(
    alloc: Global,
    slots: &[Option<JobRec>],
) -> Result<Vec<JobRec>, NoMemory>
    ensures { IfOk result (λ records. records.items ≡ in_order (λ r. r.order) (used slots.now)) }
{
    let mut records = used_slots(alloc, slots)?;
    records.sort_by_key(|record| record.order)?;
    Ok(records)
}

/// The records of outputs, in ascending order.
pub(crate) fn outputs_in_order(
    alloc: Global,
    slots: &[Option<OutRec>],
) -> Result<Vec<OutRec>, NoMemory>
    ensures { IfOk result (λ records. records.items ≡ in_order (λ r. r.order) (used slots.now)) }
{
    let mut records = used_slots(alloc, slots)?;
    records.sort_by_key(|record| record.order)?;
    Ok(records)
}

// A text of so many lines, which is gone where it has any.
fn text_of(alloc: Global, lines: u16) -> Text
    ensures { result ≡ bare_text lines }
{
    if lines == 0 {
        Text::Whole(Lines::new(alloc))
    } else {
        Text::Gone(GroupNo(0), lines)
    }
}

// The jobs of the slots, whose texts are gone.
fn jobs_of(alloc: Global, slots: &[Option<JobRec>]) -> Result<List<Job>, NoMemory>
    ensures { IfOk result (λ jobs. jobs ≡ map (job_with bare_deck) (in_order (λ r. r.order) (used slots.now))) }
{
    let records = jobs_in_order(alloc, slots)?;
    let mut jobs = List::new(alloc);
    for record in records.as_slice() {
        jobs.push(Job {
            number: record.number,
            fields: record.fields,
            phase: record.phase,
            cancelled: record.cancelled,
            busy: record.busy,
            text: text_of(alloc, record.cards),
        })?;
    }
    Ok(jobs)
}

// The outputs of the slots, whose texts are gone.
fn outputs_of(alloc: Global, slots: &[Option<OutRec>]) -> Result<List<Output>, NoMemory>
    ensures { IfOk result (λ outputs. outputs
        ≡ map (output_with bare_print) (in_order (λ r. r.order) (used slots.now))) }
{
    let records = outputs_in_order(alloc, slots)?;
    let mut outputs = List::new(alloc);
    for record in records.as_slice() {
        outputs.push(Output {
            job: record.job,
            index: record.index,
            class: record.class,
            dest: record.dest,
            forms: record.forms,
            copies: record.copies,
            held: record.held,
            busy: record.busy,
            mark: record.mark,
            text: text_of(alloc, record.lines),
        })?;
    }
    Ok(outputs)
}

/// The queue of tables: jobs and outputs by ascending order, whose texts are gone where they have lines, and all else
/// as the tables have it. NoMemory comes only when out of memory.
pub fn queue_of(alloc: Global, tables: &Tables) -> Result<Queue, NoMemory>
    ensures { IfOk result (λ queue. queue ≡ queue_of_lem tables.now bare_deck bare_print) }
{
    Ok(Queue {
        config: tables.config,
        jobs: jobs_of(alloc, tables.jobs.as_slice())?,
        outputs: outputs_of(alloc, tables.outputs.as_slice())?,
        owners: tables.owners.copy(alloc)?,
        members: tables.members.copy(alloc)?,
        routes: tables.routes.copy(alloc)?,
        lines: tables.lines.copy(alloc)?,
        last: tables.last,
    })
}

/// Pages stand for each queue that the tables tell which they spell.
pub fn law_of_found_queues()
    ensures stand { StandForWhatIsTold }
{}
