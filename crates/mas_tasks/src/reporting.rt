//! The report of the queue that is found.
ghost use Rattle.std.specs.Prelude.{◌≡◌, ◌≢◌, [], false, IfOk};
ghost use Rattle.cmd_report.specs.Named.{IsNamed};
ghost use Rattle.queue_report.specs.Reports.{report_lines};
ghost use Rattle.spool_plant.specs.Acts.{Goes};
ghost use Rattle.member_node.specs.Calls.{IsOnlyOn, console_now};
ghost use Rattle.run_opening.specs.Runs.{has_begun, Begins, IsUnbegun};
ghost use Rattle.run_opening.specs.Statuses.{IsCaused};
ghost use Rattle.mas_tasks.specs.Reports.{IsReport};
ghost use Rattle.mas_tasks.specs.Saying.{Says};
ghost use Rattle.mas_tasks.specs.ScriptRuns.{run_end};

use crate::saying::say_lines;
use mas_complex::{BriefJournal, BriefQueue};
use mas_types::{Lines, NoMemory, Queue, Status};
use queue_report::{law_of_named_queues, report};
use run_opening::{Ended, status_of_start, unbegun};
use spool_plant::Plant;
use std::alloc::Global;
use warm_start::found;

// The lines of the report of a queue, and the queue without its texts.
fn reported(alloc: Global, queue: Queue) -> Result<(Lines, BriefQueue), NoMemory>
    requires { IsNamed queue }
    ensures lines { IfOk result (λ both. both.0 ≡ report_lines queue) }
    ensures base { IfOk result (λ both. both.1 ≡ queue) }
{
    let lines = report(alloc, &queue)?;
    let base = BriefQueue::of(alloc, queue)?;
    Ok((lines, base))
}

// The report's end: its lines are said.
fn said<P: Plant + Drop>(
    alloc: Global,
    since: u64,
    queue: BriefQueue,
    lines: &Lines,
    plant: P,
) -> Ended<P>
    ensures says { Says P.tells lines.now (P.view plant) (P.view result.plant) result.status }
    ensures base { result.base ≡ queue }
    ensures since { result.since ≡ since }
    ensures journal { result.journal.batches ≡ [] }
{
    let mut plant = plant;
    let status = say_lines(&mut plant, lines);
    Ended {
        status,
        plant,
        base: queue,
        since,
        journal: BriefJournal::new(alloc),
    }
}

/// Says the queue that a start would find: the displays of its jobs, outputs, volumes and members, and then `END`. Both
/// copies are looked at, and none is changed or lost by a call.
pub(crate) fn report_queue<P: Plant + Drop>(alloc: Global, plant: P) -> Ended<P>
    ensures report { IsReport (run_end P.tells P.view plant result) }
    ensures words { result.status ≢ Status.Words }
    ensures cause { IsCaused result.status (P.view plant) (P.view result.plant) }
    ensures begun { Begins result.status result.base }
    ensures unbegun { has_begun result.base ≡ false
        → IsUnbegun result.base result.journal result.since (P.view result.plant).now }
    ensures unsaid { P.tells → has_begun result.base ≡ false
        → console_now (P.view result.plant) ≡ console_now (P.view plant) }
    ensures goes { Goes (P.view plant) (P.view result.plant) }
    ensures elsewhere { P.tells → IsOnlyOn (P.view plant) (P.view result.plant) }
{
    law_of_named_queues();
    let mut plant = plant;
    let since = plant.now();
    let queue = match found(alloc, &mut plant) {
        Ok(queue) => queue,
        Err(why) => return unbegun(alloc, status_of_start(why), plant),
    };
    let Ok((lines, base)) = reported(alloc, queue) else {
        return unbegun(alloc, Status::NoMemory, plant);
    };
    said(alloc, since, base, &lines, plant)
}
