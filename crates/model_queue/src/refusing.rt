//! Why a row is refused: of the conditions that hold, the first.
ghost use Rattle.std.specs.Prelude.{◌≡◌, ◌∷◌, ◌++◌, [], ◌==◌, not, nat_lt, nat_le, None, Some, option_copied, if◌then◌else◌};
ghost use Rattle.mas_types.specs.Lists.{first_some};
ghost use Rattle.mas_types.specs.Ids.{same_member as same_member_lem};
ghost use Rattle.mas_types.specs.Queue.{in_convert, in_input, in_purge, job_at as job_at_lem, output_at as output_at_lem, knows_node as knows_node_lem};
ghost use Rattle.mas_types.specs.Owners.{member_count};
ghost use Rattle.mas_types.specs.Row.{job_not_at, none_such as none_such_lem, output_elsewhere, output_not_at as output_not_at_lem, refused_where, wrong_phase as wrong_phase_lem};
ghost use Rattle.mas_types.specs.Commands.Input.{not_in_input as not_in_input_lem};
ghost use Rattle.mas_types.specs.Commands.Life.{runs};
ghost use Rattle.mas_types.specs.Commands.Operator.{has_yet_to_run as has_yet_to_run_lem, not_ours as not_ours_lem, past_cancel as past_cancel_lem, printing_elsewhere as printing_elsewhere_lem};
ghost use Rattle.mas_types.specs.Commands.Wire.{again as again_lem, gap as gap_lem};

use crate::conditions::{
    has_yet_to_run, is_convert, is_elsewhere, is_input, is_purge, may_end, same_member,
};
use crate::groups::MembersGroups;
use crate::jobs::job_at;
use crate::outputs::{Elsewhere, output_at};
use crate::picking::{count, first};
use crate::wires::is_current;
use mas_types::{Job, JobNo, MemberId, OutNo, Output, Phase, Queue, Refusal};

/// No job has the number.
pub fn no_job(queue: &Queue, job: JobNo) -> Option<Refusal>
    ensures { result ≡ none_such_lem Refusal.NoJob (job_at_lem queue.now job) }
{
    match job_at(&queue.jobs, job) {
        Some(_) => None,
        None => Some(Refusal::NoJob),
    }
}

/// A phase that isn't a right one.
fn phase_unless(right: bool, phase: Phase) -> Option<Refusal>
    ensures { result ≡ (if right then None else Some (Refusal.WrongPhase phase)) }
{
    if right {
        None
    } else {
        Some(Refusal::WrongPhase(phase))
    }
}

/// The job isn't busy at the member.
fn busy_elsewhere(busy: MemberId, by: MemberId) -> Option<Refusal>
    ensures { result ≡ (if same_member_lem busy by then None else Some (Refusal.InUse busy)) }
{
    if same_member(busy, by) {
        None
    } else {
        Some(Refusal::InUse(busy))
    }
}

/// The first of two refusals.
fn or_else(first: Option<Refusal>, second: Option<Refusal>) -> Option<Refusal>
    ensures { result ≡ first_some (first ∷ (second ∷ [])) }
{
    match first {
        Some(why) => Some(why),
        None => second,
    }
}

/// A job that isn't in Input and busy at the member.
pub fn not_in_input(queue: &Queue, by: MemberId, job: JobNo) -> Option<Refusal>
    ensures { result ≡ first_some (not_in_input_lem queue.now by job) }
{
    match job_at(&queue.jobs, job) {
        Some(job) => or_else(
            phase_unless(is_input(job.phase), job.phase),
            busy_elsewhere(job.busy, by),
        ),
        None => Some(Refusal::NoJob),
    }
}

/// A job that isn't in Convert and busy at the member.
pub fn not_in_convert(queue: &Queue, by: MemberId, job: JobNo) -> Option<Refusal>
    ensures { result ≡ first_some (none_such_lem Refusal.NoJob (job_at_lem queue.now job)
        ∷ (wrong_phase_lem in_convert (job_at_lem queue.now job) ∷ (job_not_at by (job_at_lem queue.now job) ∷ []))) }
{
    match job_at(&queue.jobs, job) {
        Some(job) => or_else(
            phase_unless(is_convert(job.phase), job.phase),
            busy_elsewhere(job.busy, by),
        ),
        None => Some(Refusal::NoJob),
    }
}

/// A job that is in neither Convert nor Execute, or isn't busy at the member.
pub fn not_running(queue: &Queue, by: MemberId, job: JobNo) -> Option<Refusal>
    ensures { result ≡ first_some (none_such_lem Refusal.NoJob (job_at_lem queue.now job)
        ∷ (wrong_phase_lem runs (job_at_lem queue.now job) ∷ (job_not_at by (job_at_lem queue.now job) ∷ []))) }
{
    match job_at(&queue.jobs, job) {
        Some(job) => or_else(
            phase_unless(may_end(job.phase), job.phase),
            busy_elsewhere(job.busy, by),
        ),
        None => Some(Refusal::NoJob),
    }
}

/// A job in Purge, or none.
pub fn is_purged(queue: &Queue, job: JobNo) -> Option<Refusal>
    ensures { result ≡ first_some (none_such_lem Refusal.NoJob (job_at_lem queue.now job)
        ∷ (wrong_phase_lem (λ p. not (in_purge p)) (job_at_lem queue.now job) ∷ [])) }
{
    match job_at(&queue.jobs, job) {
        Some(job) => phase_unless(!is_purge(job.phase), job.phase),
        None => Some(Refusal::NoJob),
    }
}

/// A job past Execute, or none.
pub fn has_run(queue: &Queue, job: JobNo) -> Option<Refusal>
    ensures { result ≡ first_some (none_such_lem Refusal.NoJob (job_at_lem queue.now job)
        ∷ (wrong_phase_lem has_yet_to_run_lem (job_at_lem queue.now job) ∷ [])) }
{
    match job_at(&queue.jobs, job) {
        Some(job) => phase_unless(has_yet_to_run(job.phase), job.phase),
        None => Some(Refusal::NoJob),
    }
}

fn past_cancel(queue: &Queue, job: &Job) -> Option<Refusal>
    ensures { result ≡ past_cancel_lem queue.now (Some job.now) }
{
    phase_unless(!(is_purge(job.phase) || is_current(queue, job)), job.phase)
}

fn elsewhere(busy: MemberId, by: MemberId, output: &Output) -> Option<Refusal>
    requires { output.now.busy ≡ busy }
    ensures { result ≡ output_elsewhere by (Some output.now) }
{
    if is_elsewhere(busy, by) {
        Some(Refusal::InUse(busy))
    } else {
        None
    }
}

fn printing_elsewhere(queue: &Queue, by: MemberId, job: JobNo) -> Option<Refusal>
    ensures { result ≡ output_elsewhere by (printing_elsewhere_lem queue.now by job) }
{
    match first(&queue.outputs, &Elsewhere { job, by }) {
        Some(output) => elsewhere(output.busy, by, output),
        None => None,
    }
}

/// A job that is purged, is sent over a line, or has an output that is busy at another than the member; or none.
pub fn not_cancelled(queue: &Queue, by: MemberId, job: JobNo) -> Option<Refusal>
    ensures { result ≡ first_some (none_such_lem Refusal.NoJob (job_at_lem queue.now job)
        ∷ (past_cancel_lem queue.now (job_at_lem queue.now job)
        ∷ (output_elsewhere by (printing_elsewhere_lem queue.now by job) ∷ []))) }
{
    match job_at(&queue.jobs, job) {
        Some(found) => or_else(
            past_cancel(queue, found),
            printing_elsewhere(queue, by, job),
        ),
        None => Some(Refusal::NoJob),
    }
}

/// An output that is busy at another than the member, or none.
pub fn not_ours(queue: &Queue, by: MemberId, job: JobNo, index: OutNo) -> Option<Refusal>
    ensures { result ≡ first_some (not_ours_lem queue.now by job index) }
{
    match output_at(&queue.outputs, job, index) {
        Some(output) => elsewhere(output.busy, by, output),
        None => Some(Refusal::NoOutput),
    }
}

/// The output isn't busy at the member.
pub fn output_not_at(output: &Output, by: MemberId) -> Option<Refusal>
    ensures { result ≡ output_not_at_lem by (Some output.now) }
{
    busy_elsewhere(output.busy, by)
}

/// A number that doesn't follow the one that is kept.
pub fn out_of_order(kept: u32, number: u32) -> Option<Refusal>
    ensures { result ≡ first_some (again_lem kept number ∷ (gap_lem kept number ∷ [])) }
{
    if number <= kept {
        Some(Refusal::Again(number))
    } else if number - kept > 1 {
        Some(Refusal::Gap { number, kept })
    } else {
        None
    }
}

/// The member has fewer groups than are needed.
pub fn too_few_groups(queue: &Queue, by: MemberId, groups: usize) -> Option<Refusal>
    ensures { result ≡ refused_where (nat_lt (member_count by queue.now.owners) groups) Refusal.Nothing }
{
    if count(&queue.owners, &MembersGroups(by)) < groups {
        Some(Refusal::Nothing)
    } else {
        None
    }
}
