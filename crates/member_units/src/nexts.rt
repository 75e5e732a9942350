//! The acts for which a member's next unit of work waits.
ghost use Rattle.std.specs.Prelude.{◌≡◌, ◌≤◌};
ghost use Rattle.mas_types.specs.Limits.{members_most};
ghost use Rattle.mas_types.specs.Units.{unit_of};
ghost use Rattle.ckpt_tables.specs.Shape.{HasSpelling};
ghost use Rattle.queue_telling.specs.Telling.{Tell};
ghost use Rattle.mas_types.specs.declared.queues.Queue.{Queue};
ghost use Rattle.member_units.specs.Nexts.{AreActs, AreLines, IsText};

use job_queue::find_job;
use mas_types::{JobNo, OutNo, Unit};
use member_node::Member;
use member_work::chunk_end;
use output_queue::find_output;
use queue_texts::law_of_texts;
use step_turns::{Aside, Progress};

// The text of a job that is run, or else converted; none where there is no such job.
fn next_text(member: &Member, job: JobNo, runs: bool, progress: Progress) -> Option<Aside>
    requires { HasSpelling member.now.checkpoint.tables }
    ensures { IsText member.now.checkpoint.tables member.now.id runs job progress result }
{
    match find_job(member.checkpoint.tables.jobs.as_slice(), job) {
        Some(found) => Some(Aside::ReadText {
            runs,
            job: found.item.number,
            fields: found.item.fields,
            progress,
        }),
        None => None,
    }
}

// The next lines of an output; none where there is no such output.
fn next_lines(member: &Member, job: JobNo, output: OutNo, progress: Progress) -> Option<Aside>
    requires spelling { HasSpelling member.now.checkpoint.tables }
    requires by { member.now.id.0 ≤ members_most }
    ensures { AreLines member.now.checkpoint.tables member.now.id job output progress result }
{
    let tables = &member.checkpoint.tables;
    match find_output(tables.outputs.as_slice(), job, output) {
        Some(found) => Some(Aside::PrintLines {
            job: found.item.job,
            output: found.item.index,
            last: chunk_end(tables, member.id, &found.item),
            progress,
        }),
        None => None,
    }
}

/// The acts for which the member's next unit waits, where so many units are done and may be played after it; none where
/// it waits for none, or nothing is there that it is about.
pub(crate) fn aside_of(member: &Member, next: Unit, progress: Progress) -> Option<Aside>
    requires next { (Q : Queue) → Tell member.now.checkpoint.tables Q → next ≡ unit_of Q member.now.id }
    requires by { member.now.id.0 ≤ members_most }
    requires spelling { HasSpelling member.now.checkpoint.tables }
    ensures { AreActs member.now.checkpoint.tables member.now.id next progress result }
{
    law_of_texts();
    match next {
        Unit::Print(job, output) => next_lines(member, job, output, progress),
        Unit::Run(job) => next_text(member, job, true, progress),
        Unit::Convert(job) => next_text(member, job, false, progress),
        _ => None,
    }
}
