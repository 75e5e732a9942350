//! The queue that a run began with, with its texts. Memory keeps it without them: these come from the bytes that the
//! spool volume had before the run.
use brief_queue::{BriefJob, BriefOutput, BriefQueue, BriefText};
use mas_types::limits::PAGE_BYTES;
use mas_types::{
    Copied, GroupNo, Job, Lines, List, NoMemory, Output, Owner, Page, Queue, Text, Thing,
};
use spool_text::{TextNo, unpack};
use std::alloc::Global;
use track_groups::groups_of;

// The page of a group, blank where there is none.
fn page_of(volume: &[u8], group: GroupNo) -> Page {
    let mut page = Page([0; 4096]);
    let at = (group.0 as usize)
        .saturating_mul(PAGE_BYTES)
        .min(volume.len());
    let size = PAGE_BYTES.min(volume.len() - at);
    page.0[..size].copy_from_slice(&volume[at..at + size]);
    page
}

// The lines of a deck or of an output.
fn lines_of(
    alloc: Global,
    volume: &[u8],
    owners: &[Owner],
    thing: Thing,
) -> Result<Lines, NoMemory> {
    let mut lines = Lines::new(alloc);
    if owners.len() as u64 >= 1 << 32 {
        return Err(NoMemory);
    }
    let groups = groups_of(alloc, owners, thing)?;
    for group in groups.as_slice() {
        match unpack(alloc, &page_of(volume, *group), &mut lines) {
            Ok(()) | Err(TextNo::Bad) => {}
            Err(TextNo::NoMemory) => return Err(NoMemory),
        }
    }
    Ok(lines)
}

fn text_of(
    alloc: Global,
    volume: &[u8],
    owners: &[Owner],
    thing: Thing,
    text: &BriefText,
) -> Result<Text, NoMemory> {
    match text.what_is_gone() {
        Some((group, count)) => Ok(Text::Gone(group, count)),
        None => Ok(Text::Whole(lines_of(alloc, volume, owners, thing)?)),
    }
}

fn job_of(alloc: Global, volume: &[u8], owners: &[Owner], job: &BriefJob) -> Result<Job, NoMemory> {
    let thing = Thing::Deck(job.number);
    Ok(Job {
        number: job.number,
        fields: job.fields,
        phase: job.phase,
        cancelled: job.cancelled,
        busy: job.busy,
        text: text_of(alloc, volume, owners, thing, &job.text)?,
    })
}

fn output_of(
    alloc: Global,
    volume: &[u8],
    owners: &[Owner],
    output: &BriefOutput,
) -> Result<Output, NoMemory> {
    let thing = Thing::Output(output.job, output.index);
    Ok(Output {
        job: output.job,
        index: output.index,
        class: output.class,
        dest: output.dest,
        forms: output.forms,
        copies: output.copies,
        held: output.held,
        busy: output.busy,
        mark: output.mark,
        text: text_of(alloc, volume, owners, thing, &output.text)?,
    })
}

/// The queue that a run began with, by the bytes that the volume had then.
pub fn base_of(alloc: Global, volume: &[u8], base: &BriefQueue) -> Result<Queue, NoMemory> {
    let owners = base.owners();
    let mut jobs = List::new(alloc);
    for job in base.jobs() {
        jobs.push(job_of(alloc, volume, owners.as_slice(), job)?)?;
    }
    let mut outputs = List::new(alloc);
    for output in base.outputs() {
        outputs.push(output_of(alloc, volume, owners.as_slice(), output)?)?;
    }
    Ok(Queue {
        config: base.config(),
        jobs,
        outputs,
        owners: owners.copy(alloc)?,
        members: base.members.copy(alloc)?,
        routes: base.routes.copy(alloc)?,
        lines: base.lines.copy(alloc)?,
        last: base.last,
    })
}
