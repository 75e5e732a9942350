//! Outputs by key, by job and by printer, and the one that is selected.
ghost use Rattle.std.specs.Prelude.{◌≡◌, ◌<◌, ◌&&◌, not, ℕ, List, IfSome, IfNone, IfOk, OnErr, None, Some, find, slice_get, length};
ghost use Rattle.std.specs.List.{list_any};
ghost use Rattle.mas_types.specs.declared.jobs.Output.{Output};
ghost use Rattle.mas_types.specs.Ids.{same_member, is_somebody};
ghost use Rattle.mas_types.specs.Queue.{has_key, is_of, prints_at};
ghost use Rattle.output_queue.specs.Outputs.{AreOutputs, HasOutput};

use crate::kinds::{Elsewhere, Keyed, OfJob, PrintingAt};
use lay_bytes::OutRec;
use mas_types::{JobNo, MemberId, OutNo};
use queue_slots::{Found, first_slot};

/// The job has no output with that index.
#[derive(Clone, Copy)]
pub struct NoOutput;

/// The slot of the output of a job with an index, the first where there are several; none exactly where there is none.
pub fn find_output(outputs: &[Option<OutRec>], job: JobNo, index: OutNo) -> Option<Found<OutRec>>
    ensures here { IfSome result (λ f. slice_get outputs.now f.at ≡ Some (Some f.item)) }
    ensures some { IfSome result (λ f. (os : List Output) → AreOutputs outputs.now os
        → HasOutput (has_key job index) outputs.now os f.at f.item) }
    ensures none { IfNone result ((os : List Output) → AreOutputs outputs.now os → find (has_key job index) os ≡ None) }
{
    first_slot(outputs, &Keyed { job, index })
}

/// The place of the slot of the output of a job with an index. `NoOutput` exactly where there is none.
pub fn place_of(outputs: &[Option<OutRec>], job: JobNo, index: OutNo) -> Result<usize, NoOutput>
    ensures within { IfOk result (λ at. at < length outputs.now) }
    ensures at { IfOk result (λ at. (os : List Output) → AreOutputs outputs.now os → (r : _)
        × HasOutput (has_key job index) outputs.now os at r) }
    ensures none { OnErr result ((os : List Output) → AreOutputs outputs.now os → find (has_key job index) os ≡ None) }
{
    match find_output(outputs, job, index) {
        Some(found) => Ok(found.at),
        None => Err(NoOutput),
    }
}

/// The slot of the first output that is busy at a member, or at nobody where the member is 0; none exactly where there
/// is none.
pub fn find_printing(outputs: &[Option<OutRec>], by: MemberId) -> Option<Found<OutRec>>
    ensures here { IfSome result (λ f. slice_get outputs.now f.at ≡ Some (Some f.item)) }
    ensures some { IfSome result (λ f. (os : List Output) → AreOutputs outputs.now os
        → HasOutput (prints_at by) outputs.now os f.at f.item) }
    ensures none { IfNone result ((os : List Output) → AreOutputs outputs.now os → find (prints_at by) os ≡ None) }
{
    first_slot(outputs, &PrintingAt(by))
}

/// The slot of the first output of a job that is busy at another than the member; none exactly where there is none.
pub fn find_elsewhere(outputs: &[Option<OutRec>], job: JobNo, by: MemberId) -> Option<Found<OutRec>>
    ensures here { IfSome result (λ f. slice_get outputs.now f.at ≡ Some (Some f.item)) }
    ensures some { IfSome result (λ f. (os : List Output) → AreOutputs outputs.now os
        → HasOutput (λ o. is_of job o && is_somebody o.busy && not (same_member o.busy by)) outputs.now os f.at
        f.item) }
    ensures none { IfNone result ((os : List Output) → AreOutputs outputs.now os
        → find (λ o. is_of job o && is_somebody o.busy && not (same_member o.busy by)) os ≡ None) }
{
    first_slot(outputs, &Elsewhere { job, by })
}

/// Whether the job has an output.
pub fn has_output(outputs: &[Option<OutRec>], job: JobNo) -> bool
    ensures { (os : List Output) → AreOutputs outputs.now os → result ≡ list_any (is_of job) os }
{
    first_slot(outputs, &OfJob(job)).is_some()
}
