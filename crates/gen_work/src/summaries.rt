//! What a run came to: the decks that were entered, the lines that were printed, and the jobs that are left. All of it
//! stands in the commands that were kept, and in their replies.
ghost use Rattle.std.specs.Prelude.{◌≡◌, ◌+◌, ◌++◌, ◌∷◌, ◌&&◌, [], if◌then◌else◌, count_by, map, IfOk, OnOk};
ghost use Rattle.mas_types.specs.Ids.{same_index, same_number};
ghost use Rattle.mas_types.specs.Journal.{is_kept as is_kept_lem};
ghost use Rattle.brief_journal.specs.Brief.{command_of, entry_of, reply_of};
ghost use Rattle.gen_work.specs.Summaries.{count_in as count_in_lem, counted_as as counted_as_lem, counted_in, counted_of as counted_of_lem, dropped as dropped_lem, entries_kept, is_begun, is_entered, is_gone, is_refusal as is_refusal_lem, kept_in, mark_after as mark_after_lem, mark_then as mark_then_lem, printed_behind, printed_by as printed_by_lem, summary_line as summary_line_lem, summary_of as summary_of_lem};

use brief_journal::{BriefBatch, BriefCommand, BriefEntry, BriefJournal, BriefReply};
use brief_queue::BriefQueue;
use mas_types::words::{push_decimal, push_text};
use mas_types::{Fate, JobNo, List, NoMemory, OutNo};
use std::alloc::Global;

/// What a run came to.
#[derive(Clone, Copy)]
pub struct Summary {
    /// The decks that were entered.
    pub entered: u64,
    /// The lines that were printed.
    pub printed: u64,
    /// The jobs that are left.
    pub queued: u64,
}

/// What a command of a run that wasn't refused counts for.
#[derive(Clone, Copy)]
pub enum Counted {
    /// A job began.
    Begun,
    /// A deck was entered.
    Entered,
    /// The outputs of a job came, of which nothing is printed.
    Ended {
        /// The job.
        job: JobNo,
    },
    /// So many lines of an output were printed by then.
    Marked {
        /// The output's job.
        job: JobNo,
        /// The output's index.
        index: OutNo,
        /// The lines.
        lines: u32,
    },
    /// A job went.
    Gone,
}

fn is_refusal(reply: &BriefReply) -> bool
    ensures { result ≡ is_refusal_lem (reply_of reply.now) }
{
    matches!(reply, BriefReply::No(_))
}

fn count_in(reply: &BriefReply) -> u32
    ensures { result ≡ count_in_lem (reply_of reply.now) }
{
    match reply {
        BriefReply::Count(n) => *n,
        _ => 0,
    }
}

fn dropped(job: JobNo) -> Option<Counted>
    ensures { result ≡ dropped_lem job }
{
    if job.0 == 0 {
        None
    } else {
        Some(Counted::Gone)
    }
}

// What a command counts for, by the count that it answered.
fn counted_as(command: &BriefCommand, count: u32) -> Option<Counted>
    ensures { result ≡ counted_as_lem (command_of command.now) count }
{
    match command {
        BriefCommand::Begin => Some(Counted::Begun),
        BriefCommand::Enter(_) => Some(Counted::Entered),
        BriefCommand::Ended(job) => Some(Counted::Ended { job: *job }),
        BriefCommand::Mark(job, index, _) => Some(Counted::Marked {
            job: *job,
            index: *index,
            lines: count,
        }),
        BriefCommand::Drop(job) => dropped(*job),
        BriefCommand::Purge => Some(Counted::Gone),
        _ => None,
    }
}

fn counted_of(brief: &BriefEntry) -> Option<Counted>
    ensures { result ≡ counted_of_lem (entry_of brief.now) }
{
    if is_refusal(&brief.reply) {
        return None;
    }
    counted_as(&brief.command, count_in(&brief.reply))
}

fn push_entry(counted: &mut List<Counted>, brief: &BriefEntry) -> Result<(), NoMemory>
    ensures { OnOk result (counted.new ≡ counted.old ++ counted_in (entry_of brief.now ∷ [])) }
{
    match counted_of(brief) {
        Some(one) => counted.push(one),
        None => Ok(()),
    }
}

fn push_entries(counted: &mut List<Counted>, briefs: &[BriefEntry]) -> Result<(), NoMemory>
    ensures { OnOk result (counted.new ≡ counted.old ++ counted_in (map entry_of briefs.now)) }
{
    for brief in briefs {
        push_entry(counted, brief)?;
    }
    Ok(())
}

fn is_kept(fate: Fate) -> bool
    ensures { result ≡ is_kept_lem fate }
{
    matches!(fate, Fate::Kept)
}

// Adds what the entries of a batch count for, if it was kept.
#[tactic(auto, using(crate::proofs::BriefLemmas::all_count))]
fn push_batch(counted: &mut List<Counted>, batch: &BriefBatch) -> Result<(), NoMemory>
    ensures { OnOk result (counted.new ≡ counted.old ++ counted_in (entries_kept batch.now)) }
{
    if !is_kept(batch.fate()) {
        return Ok(());
    }
    push_entries(counted, batch.briefs())
}

// What the entries that were kept count for.
fn counted_by(alloc: Global, batches: &[BriefBatch]) -> Result<List<Counted>, NoMemory>
    ensures { IfOk result (λ all. all ≡ counted_in (kept_in batches.now)) }
{
    let mut counted = List::new(alloc);
    for batch in batches {
        push_batch(&mut counted, batch)?;
    }
    Ok(counted)
}

fn is_key(job: JobNo, index: OutNo, n: JobNo, i: OutNo) -> bool
    ensures { result ≡ (same_number job n && same_index index i) }
{
    job.0 == n.0 && index.0 == i.0
}

// The first of the two where the test holds.
fn first_if(test: bool, first: u32, second: u32) -> u32
    ensures { result ≡ (if test then first else second) }
{
    if test { first } else { second }
}

// The mark of an output after one more, which was this one before.
fn mark_then(n: JobNo, i: OutNo, mark: u32, one: Counted) -> u32
    ensures { result ≡ mark_then_lem n i mark one }
{
    match one {
        Counted::Ended { job } => first_if(job.0 == n.0, 0, mark),
        Counted::Marked { job, index, lines } => first_if(is_key(job, index, n, i), lines, mark),
        _ => mark,
    }
}

fn mark_after(n: JobNo, i: OutNo, before: &[Counted]) -> u32
    ensures { result ≡ mark_after_lem n i 0 before.now }
{
    let mut mark = 0;
    for one in before {
        mark = mark_then(n, i, mark, *one);
    }
    mark
}

// The lines that one tells, behind these.
fn printed_by(before: &[Counted], one: Counted) -> u32
    ensures { result ≡ printed_by_lem before.now one }
{
    match one {
        Counted::Marked { job, index, lines } => {
            lines.saturating_sub(mark_after(job, index, before))
        }
        _ => 0,
    }
}

// The sum. More than can be counted is no memory.
fn sum(a: u64, b: u64) -> Result<u64, NoMemory>
    ensures { IfOk result (λ n. n ≡ a + b) }
{
    match a.checked_add(b) {
        Some(n) => Ok(n),
        None => Err(NoMemory),
    }
}

fn printed(all: &[Counted]) -> Result<u64, NoMemory>
    ensures { IfOk result (λ lines. lines ≡ printed_behind [] all.now) }
{
    let mut lines = 0;
    for at in 0..all.len() {
        lines = sum(lines, printed_by(&all[..at], all[at]) as u64)?;
    }
    Ok(lines)
}

fn begun(all: &[Counted]) -> usize
    ensures { result ≡ count_by is_begun all.now }
{
    all.iter()
        .filter(|one| matches!(**one, Counted::Begun))
        .count()
}

fn entered(all: &[Counted]) -> usize
    ensures { result ≡ count_by is_entered all.now }
{
    all.iter()
        .filter(|one| matches!(**one, Counted::Entered))
        .count()
}

fn gone(all: &[Counted]) -> usize
    ensures { result ≡ count_by is_gone all.now }
{
    all.iter()
        .filter(|one| matches!(**one, Counted::Gone))
        .count()
}

/// What a run came to that began with a queue without outputs, by the commands of its journal that were kept: how many
/// decks were entered; how many lines were printed, which is the sum of what each Mark answered, less the mark of its
/// output before it; and how many jobs are left. NoMemory comes when out of memory, and where a number would be above
/// 2^64 - 1.
pub fn summary_of(
    alloc: Global,
    base: &BriefQueue,
    journal: &BriefJournal,
) -> Result<Summary, NoMemory>
    ensures { IfOk result (λ summary. summary ≡ summary_of_lem base.now journal.now) }
{
    let counted = counted_by(alloc, journal.batches())?;
    let all = counted.as_slice();
    let printed = printed(all)?;
    let jobs = sum(base.jobs().len() as u64, begun(all) as u64)?;
    Ok(Summary {
        entered: entered(all) as u64,
        printed,
        queued: jobs.saturating_sub(gone(all) as u64),
    })
}

/// The line that says it.
pub fn summary_line(alloc: Global, summary: Summary) -> Result<List<u8>, NoMemory>
    ensures { IfOk result (λ line. line ≡ summary_line_lem summary) }
{
    let mut line = List::new(alloc);
    push_text(&mut line, b"SUMMARY ENTERED ")?;
    push_decimal(&mut line, summary.entered)?;
    push_text(&mut line, b" PRINTED ")?;
    push_decimal(&mut line, summary.printed)?;
    push_text(&mut line, b" QUEUED ")?;
    push_decimal(&mut line, summary.queued)?;
    Ok(line)
}
