//! What is wrong with tables, found by sets of what stands in them: as `sound` finds it, in time that grows with the
//! tables and not with their square.
ghost use Rattle.std.specs.Prelude.{◌≡◌, ◌+◌, ◌<◌, ◌^◌, [], length, None, IfOk, IfSome};
ghost use Rattle.ckpt_pages.specs.Keys.{AreGroupKeys, AreJobKeys, AreOutputKeys, ArePlaceKeys};
ghost use Rattle.ckpt_pages.specs.Indexed.{is_wrong_job as is_wrong_job_lem, is_wrong_job_slot as is_wrong_job_slot_lem, is_wrong_output as is_wrong_output_lem, is_wrong_output_slot as is_wrong_output_slot_lem, is_wrong_owner as is_wrong_owner_lem, is_wrong_place as is_wrong_place_lem, first_job, first_output, AreSlotKeys};
ghost use Rattle.ckpt_tables.specs.Shape.{HasShape};
ghost use Rattle.ckpt_pages.specs.Sound.{wrong_slot, wrong_owner, wrong_place, fault_of};

use crate::faults::{TableFault, is_above, may_be_busy};
use crate::keys::{GroupKeys, JobKeys, OutputKeys, PlaceKeys};
use ckpt_tables::Tables;
use lay_bytes::{JobRec, OutRec};
use mas_types::{NoMemory, Owner, Phase};
use std::alloc::Global;

fn is_wrong_job(tables: &Tables, groups: &GroupKeys, before: &JobKeys, job: &JobRec) -> bool
    ensures { result ≡ is_wrong_job_lem tables.now groups.now before.now job.now }
{
    before.numbers.contains(&job.number.0)
        || before.orders.contains(&job.order)
        || tables.order <= job.order
        || is_above(tables, job.busy)
        || job.busy.0 != 0 && !may_be_busy(job.phase)
        || matches!(job.phase, Phase::Input) && job.cards > 0
        || job.cards > 0 && !groups.decks.contains(&job.number.0)
}

fn is_wrong_job_slot(
    tables: &Tables,
    groups: &GroupKeys,
    before: &JobKeys,
    slot: &Option<JobRec>,
) -> bool
    ensures { result ≡ is_wrong_job_slot_lem tables.now groups.now before.now slot.now }
{
    match slot {
        Some(job) => is_wrong_job(tables, groups, before, job),
        None => false,
    }
}

// The slot of the first wrong job. Where there is none, the keys are those of all jobs.
fn first_wrong_job(
    tables: &Tables,
    groups: &GroupKeys,
    jobs: &mut JobKeys,
) -> Result<Option<usize>, NoMemory>
    requires groups { AreGroupKeys groups.now tables.now.owners }
    requires empty { AreJobKeys jobs.old [] }
    ensures first { IfOk result (λ found. found ≡ first_job tables.now) }
    ensures within { IfOk result (λ found. IfSome found (λ slot. slot < length tables.now.jobs)) }
    ensures keys { IfOk result (λ found. found ≡ None → AreJobKeys jobs.new tables.now.jobs) }
{
    let slots = tables.jobs.as_slice();
    for (i, slot) in slots.iter().enumerate() {
        if is_wrong_job_slot(tables, groups, jobs, slot) {
            return Ok(Some(i));
        }
        jobs.add(slot)?;
    }
    Ok(None)
}

fn is_wrong_output(
    tables: &Tables,
    groups: &GroupKeys,
    jobs: &JobKeys,
    before: &OutputKeys,
    output: &OutRec,
) -> bool
    ensures { result ≡ is_wrong_output_lem tables.now groups.now jobs.now before.now output.now }
{
    let key = (output.job.0, output.index.0);
    jobs.orders.contains(&output.order)
        || before.orders.contains(&output.order)
        || tables.order <= output.order
        || !jobs.with_outputs.contains(&output.job.0)
        || before.prints.contains(&key)
        || output.busy.0 != 0 && before.printers.contains(&output.busy.0)
        || is_above(tables, output.busy)
        || output.mark as u64 > output.lines as u64 * output.copies as u64
        || output.lines > 0 && !groups.prints.contains(&key)
}

fn is_wrong_output_slot(
    tables: &Tables,
    groups: &GroupKeys,
    jobs: &JobKeys,
    before: &OutputKeys,
    slot: &Option<OutRec>,
) -> bool
    ensures { result ≡ is_wrong_output_slot_lem tables.now groups.now jobs.now before.now slot.now }
{
    match slot {
        Some(output) => is_wrong_output(tables, groups, jobs, before, output),
        None => false,
    }
}

// The slot of the first wrong output. Where there is none, the keys are those of all outputs.
fn first_wrong_output(
    tables: &Tables,
    groups: &GroupKeys,
    jobs: &JobKeys,
    outputs: &mut OutputKeys,
) -> Result<Option<usize>, NoMemory>
    requires few { length tables.now.jobs < 2 ^ 32 }
    requires groups { AreGroupKeys groups.now tables.now.owners }
    requires jobs { AreJobKeys jobs.now tables.now.jobs }
    requires empty { AreOutputKeys outputs.old [] }
    ensures first { IfOk result (λ found. found ≡ first_output tables.now) }
    ensures within { let all = length tables.now.jobs + length tables.now.outputs in
        IfOk result (λ found. IfSome found (λ slot. slot < all)) }
    ensures keys { IfOk result (λ found. found ≡ None → AreOutputKeys outputs.new tables.now.outputs) }
{
    let slots = tables.outputs.as_slice();
    let first = tables.jobs.len();
    for (i, slot) in slots.iter().enumerate() {
        if is_wrong_output_slot(tables, groups, jobs, outputs, slot) {
            return Ok(Some(first + i));
        }
        outputs.add(slot)?;
    }
    Ok(None)
}

// The slot of the first wrong job, or else of the first wrong output. Where there is none, the keys are those of all.
fn first_wrong_slot(
    alloc: Global,
    tables: &Tables,
    jobs: &mut JobKeys,
    outputs: &mut OutputKeys,
) -> Result<Option<usize>, NoMemory>
    requires shape { HasShape tables.now }
    requires no_jobs { AreJobKeys jobs.old [] }
    requires no_outputs { AreOutputKeys outputs.old [] }
    ensures first { IfOk result (λ found. found ≡ wrong_slot tables.now) }
    ensures within { IfOk result (λ found. IfSome found (λ slot. slot < 2 ^ 32)) }
    ensures keys { IfOk result (λ found. found ≡ None → AreSlotKeys tables.now jobs.new outputs.new) }
{
    let groups = GroupKeys::of(alloc, tables.owners.as_slice())?;
    match first_wrong_job(tables, &groups, jobs)? {
        Some(slot) => Ok(Some(slot)),
        None => first_wrong_output(tables, &groups, jobs, outputs),
    }
}

fn is_wrong_owner(tables: &Tables, jobs: &JobKeys, outputs: &OutputKeys, owner: &Owner) -> bool
    ensures { result ≡ is_wrong_owner_lem tables.now jobs.now outputs.now owner.now }
{
    match *owner {
        Owner::Free => false,
        Owner::Member(member) => member.0 == 0 || is_above(tables, member),
        Owner::Deck { job, place: _ } => !jobs.past_input.contains(&job.0),
        Owner::Output {
            job,
            index,
            place: _,
        } => !outputs.prints.contains(&(job.0, index.0)),
    }
}

fn first_wrong_owner(tables: &Tables, jobs: &JobKeys, outputs: &OutputKeys) -> Option<usize>
    requires { AreSlotKeys tables.now jobs.now outputs.now }
    ensures first { result ≡ wrong_owner tables.now }
    ensures within { IfSome result (λ group. group < length tables.now.owners) }
{
    let owners = tables.owners.as_slice();
    for (i, owner) in owners.iter().enumerate() {
        if is_wrong_owner(tables, jobs, outputs, owner) {
            return Some(i);
        }
    }
    None
}

fn is_wrong_place(all: &PlaceKeys, before: &PlaceKeys, owner: &Owner) -> bool
    ensures { result ≡ is_wrong_place_lem all.now before.now owner.now }
{
    before.has(owner) || !all.has_before(owner)
}

fn first_wrong_place(alloc: Global, tables: &Tables) -> Result<Option<usize>, NoMemory>
    ensures first { IfOk result (λ found. found ≡ wrong_place tables.now) }
    ensures within { IfOk result (λ found. IfSome found (λ group. group < length tables.now.owners)) }
{
    let owners = tables.owners.as_slice();
    let all = PlaceKeys::of(alloc, owners)?;
    let mut before = PlaceKeys::new(alloc);
    for (i, owner) in owners.iter().enumerate() {
        if is_wrong_place(&all, &before, owner) {
            return Ok(Some(i));
        }
        before.add(owner)?;
    }
    Ok(None)
}

/// The first fault of the tables, None where they are those of a queue: the fault that `sound` answers. It takes memory
/// and little time: each slot and each group is looked at two or three times, however many there are.
pub fn first_fault(alloc: Global, tables: &Tables) -> Result<Option<TableFault>, NoMemory>
    requires { HasShape tables.now }
    ensures { IfOk result (λ fault. fault ≡ fault_of tables.now) }
{
    let mut jobs = JobKeys::new(alloc);
    let mut outputs = OutputKeys::new(alloc);
    if let Some(slot) = first_wrong_slot(alloc, tables, &mut jobs, &mut outputs)? {
        return Ok(Some(TableFault::Number(slot as u32)));
    }
    if let Some(group) = first_wrong_owner(tables, &jobs, &outputs) {
        return Ok(Some(TableFault::Owner(group as u32)));
    }
    if let Some(group) = first_wrong_place(alloc, tables)? {
        return Ok(Some(TableFault::Place(group as u32)));
    }
    Ok(None)
}
