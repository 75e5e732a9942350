//! Whether the text of a job, or of an output, is gone.
ghost use Rattle.member_acts.specs.Names.{is_kept as is_kept_lem, job_at as job_at_lem, output_at as output_at_lem, IsSound, gone_at as gone_at_lem, gone_with as gone_with_lem, is_brought as is_brought_lem, brings_by, command_of, reply_of};
ghost use Rattle.std.specs.Prelude.{◌≡◌, ◌&&◌};
ghost use Rattle.std.specs.List.{list_any};
ghost use Rattle.std.specs.Option.{option_copied};
ghost use Rattle.member_acts.specs.Brings.{IsGoneSince};

use mas_complex::{
    BriefBatch, BriefCommand, BriefEntry, BriefJob, BriefOutput, BriefQueue, BriefReply, BriefText,
    Complex, Steady,
};
use mas_types::{Fate, GroupNo, JobNo, OutNo, Thing};
use member_work::kept_replies;
use spool_plant::Plant;

fn gone_with(text: &BriefText) -> Option<GroupNo>
    ensures { result ≡ gone_with_lem text.now }
{
    let (group, _) = text.what_is_gone()?;
    Some(group)
}

fn job_at(queue: &BriefQueue, job: JobNo) -> Option<&BriefJob>
    ensures { option_copied result ≡ job_at_lem queue.now job }
{
    queue.jobs().iter().find(|it| it.number().0 == job.0)
}

fn output_at(queue: &BriefQueue, job: JobNo, index: OutNo) -> Option<&BriefOutput>
    ensures { option_copied result ≡ output_at_lem queue.now job index }
{
    queue
        .outputs()
        .iter()
        .find(|it| it.job().0 == job.0 && it.index().0 == index.0)
}

// The group with which the text of a job, or of an output, is gone at this queue.
fn gone_at(queue: &BriefQueue, text: Thing) -> Option<GroupNo>
    ensures { result ≡ gone_at_lem text queue.now }
{
    match text {
        Thing::Deck(job) => gone_with(job_at(queue, job)?.text()),
        Thing::Output(job, index) => gone_with(output_at(queue, job, index)?.text()),
    }
}

// What gives a text its lines: the entry began a job of this number, or gave it its text; or it brought outputs of the
// job.
fn brings(text: Thing, brief: &BriefEntry) -> bool
    ensures { result ≡ brings_by text (command_of brief.now.command) (reply_of brief.now.reply) }
{
    match (text, &brief.command, &brief.reply) {
        (
            Thing::Deck(job),
            BriefCommand::Begin | BriefCommand::Enter(_) | BriefCommand::Got(..),
            BriefReply::Job(named),
        ) => named.0 == job.0,
        (Thing::Output(job, _), BriefCommand::Ended(ended), BriefReply::Count(_)) => {
            ended.0 == job.0
        }
        _ => false,
    }
}

// One of the batch's entries did.
fn is_brought(text: Thing, batch: &BriefBatch) -> bool
    ensures { result ≡ is_brought_lem (brings_by text) batch.now.entries }
{
    batch.briefs().iter().any(|brief| brings(text, brief))
}

// One of the entries of the kept batches did.
fn is_brought_in(text: Thing, batches: &[BriefBatch]) -> bool
    ensures { result ≡ list_any (λ b. is_kept_lem b.fate && is_brought_lem (brings_by text) b.entries) batches.now }
{
    batches.iter().any(|batch| matches!(batch.fate(), Fate::Kept) && is_brought(text, batch))
}

/// The group with which the text of a job, or of an output, is gone, None where it is whole; where content is told,
/// exactly. A text is gone only where it was when the run began: so this is the base's, unless a job of this number was
/// begun or entered since, or outputs of the job were brought. The batches aren't looked at where it was whole.
pub(crate) fn gone_group<P: Plant + Drop, C: Steady + Drop>(
    complex: &Complex<P, C>,
    text: Thing,
) -> Option<GroupNo>
    requires { P.tells → IsSound complex.now.base }
    ensures { IsGoneSince complex.now text result }
{
    kept_replies(complex);
    complex.kept_given();
    let Some(gone) = gone_at(&complex.base, text) else {
        return None;
    };
    if is_brought_in(text, complex.journal.batches()) {
        return None;
    }
    Some(gone)
}
