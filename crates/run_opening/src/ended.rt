//! How a run ends.
ghost use Rattle.std.specs.Prelude.{◌≡◌};
ghost use Rattle.ckpt_form.specs.Form.{form_reads};
ghost use Rattle.mas_complex.specs.Headline.{Headline};
ghost use Rattle.mas_complex.specs.Journals.{end_of};
ghost use Rattle.run_opening.specs.Runs.{IsUnbegun};
ghost use Rattle.run_opening.specs.Statuses.{status_of as status_of_lem};
ghost use Rattle.mas_types.specs.Statuses.{status_code as code_of_status};

use ckpt_form::CopyForm;
use mas_complex::{BriefJournal, BriefQueue, Complex};
use mas_types::{Status, no_queue, status_code};
use member_node::NodeNo;
use spool_plant::Plant;
use std::alloc::Global;

/// How a run ended, and what it leaves.
///
/// A run has begun where `base` has members. A run that has not begun changed no queue.
#[derive(Drop)]
pub struct Ended<P> {
    /// How it ended.
    pub status: Status,
    /// The plant that was lent to the run.
    pub plant: P,
    /// The queue that the run began with.
    pub base: BriefQueue,
    /// The moment from which on the run keeps its promises: of a cold run the one after the formatting.
    pub since: u64,
    /// The commands of the run, with their replies.
    pub journal: BriefJournal,
}

/// The end of a run that has not begun.
pub fn unbegun<P: Plant + Drop>(alloc: Global, status: Status, plant: P) -> Ended<P>
    ensures status { result.status ≡ status }
    ensures plant { result.plant ≡ plant }
    ensures unbegun { IsUnbegun result.base result.journal result.since (P.view plant).now }
{
    let since = plant.now();
    Ended {
        status,
        plant,
        base: BriefQueue::without_jobs(alloc, no_queue(alloc)),
        since,
        journal: BriefJournal::new(alloc),
    }
}

/// What the answer of the steps means for the run.
pub fn status_of(answer: &Result<(), NodeNo>) -> Status
    ensures { result ≡ status_of_lem answer.now }
{
    match answer {
        Ok(()) | Err(NodeNo::Halted) => Status::Done,
        Err(NodeNo::NoMemory) => Status::NoMemory,
        Err(NodeNo::BothLost) => Status::BothLost,
        Err(NodeNo::ConsoleFault) => Status::ConsoleFault,
    }
}

/// The end of a run that has begun.
pub fn end_run<P: Plant + Drop>(status: Status, complex: Complex<P, CopyForm>) -> Ended<P>
    ensures status { result.status ≡ status }
    ensures base { result.base ≡ complex.base }
    ensures since { result.since ≡ complex.since }
    ensures plant { result.plant ≡ complex.plant }
    ensures journal { result.journal.batches ≡ end_of complex.placed complex.current complex.journal.batches }
    ensures headline { P.tells → ∥ Headline form_reads result.base result.since result.journal complex.renewals
        (P.view result.plant) ∥₁ }
{
    let end = complex.end();
    Ended {
        status,
        plant: end.plant,
        base: end.base,
        since: end.since,
        journal: end.journal,
    }
}

/// The code that the program ends with: 0 for Done, 1 for Words, 2 for BadLine and TooLong, 3 for SourceFault,
/// 4 for NotFormatted, 5 for BothLost, 6 for ConsoleFault, 7 for DeviceSize, 8 for NoMemory.
pub fn code(status: &Status) -> u8
    ensures { result ≡ code_of_status status.now }
{
    status_code(status)
}
