//! What a member does next in a sitting of a step of work: with the next unit, or with one that waited for acts.
ghost use Rattle.std.specs.Prelude.{◌≡◌, ◌+◌, ◌<◌, Bool, length, true, IfOk, IfSome, OnErr};
ghost use Rattle.member_units.specs.Names.{JobFields, ReadText, outcome_of as outcome_of_lem, AreMembersNamed, IsNamedEnd, Found as FoundLem, rests as rests_lem, printed_end as printed_end_lem, resumes, Works};
ghost use Rattle.member_units.specs.Actions.{GoesAfter, GoesOn, IsFirst, IsRead, MayGoOn, is_text, unit_done, wait_after};

use crate::nexts::aside_of;
use job_outcome::{Outcome, Read, UnitEnd, outcome_of};
use mas_complex::{Complex, Steady};
use mas_types::{Closing, Command, JobNo, NoMemory};
use member_giving::Part;
use member_node::Member;
use member_work::{command_of, groups_for_end};
use queue_indexed::find_unit;
use spool_plant::Plant;
use std::alloc::Global;
use step_turns::{Aside, Found, Grant, Holder, Progress, State};

/// What a member does next in a sitting.
#[derive(Drop)]
pub(crate) enum Action {
    /// The step closes so.
    Close(Closing),
    /// The sitting ends in this state of the step, which isn't told.
    Wait(State),
    /// A part is given, and once it is done the step waits for these acts, or further units follow.
    Give(Part, Option<Aside>, Progress),
}

/// The acts for which a step waits after a part that ended so.
pub(crate) fn waits_then(end: &UnitEnd, then: Option<Aside>) -> Option<Aside>
    ensures { result ≡ wait_after end.now then }
{
    match end {
        UnitEnd::Done => then,
        _ => None,
    }
}

// Whether the sitting ends between two units, of which so many may still follow, since the hold is spent; under LOCK
// that cuts nothing within a step.
fn rests(holder: Holder, left: u16, given: u64) -> bool
    ensures { result ≡ rests_lem holder left given }
{
    if left == 0 {
        return false;
    }
    match holder.grant {
        Grant::ForStep => holder.hold as u64 <= given,
        Grant::ByLock => false,
    }
}

/// The next unit, where so many units are done and so many may still be played: the first that applies, from the
/// printer's on.
pub(crate) fn action_of<P: Plant + Drop, C: Steady + Drop>(
    member: &Member,
    complex: &Complex<P, C>,
    holder: Holder,
    progress: Progress,
) -> Action
    requires works { Works complex.now member.now holder }
    requires few { length member.now.batch < 64 }
    ensures { GoesOn complex.now member.now holder progress result }
{
    let done = progress.done;
    if progress.left == 0 {
        return Action::Close(Closing::DoneUnits(done as u32));
    }
    let left = progress.left - 1;
    let next = find_unit(&member.checkpoint.tables, &member.kept, member.id);
    if let Some(command) = command_of(next) {
        return Action::Give(Part::One(command), None, Progress { done, left });
    }
    match aside_of(member, next, Progress { done, left }) {
        Some(aside) => Action::Wait(State::Away(aside)),
        None => Action::Close(Closing::DoneUnits(done as u32)),
    }
}

/// What follows a unit that ended so, after so many commands of the sitting: the next unit, as long as the hold isn't
/// spent, or the step closes.
pub(crate) fn action_after<P: Plant + Drop, C: Steady + Drop>(
    member: &Member,
    complex: &Complex<P, C>,
    holder: Holder,
    end: UnitEnd,
    progress: Progress,
    given: u64,
) -> Action
    requires works { Works complex.now member.now holder }
    requires few { length member.now.batch < 64 }
    requires named { IsNamedEnd end }
    requires units { progress.done + progress.left < 9999 }
    ensures { GoesAfter complex.now member.now holder (unit_done end progress given) result }
{
    let done = progress.done + 1;
    let left = progress.left;
    match end {
        UnitEnd::Done => {
            if rests(holder, left, given) {
                return Action::Wait(State::Rested(Progress { done, left }));
            }
            action_of(member, complex, holder, Progress { done, left })
        }
        UnitEnd::Idle => Action::Close(Closing::DoneUnits(progress.done as u32)),
        UnitEnd::Refused(end) => Action::Close(end),
    }
}

// How the unit is refused once the text was read and the lines were to be printed; none where each of them stands on
// paper.
fn printed_end(found: &Found) -> Option<Closing>
    ensures is { result ≡ printed_end_lem found.now.printer found.now.read }
    ensures named { IfSome result AreMembersNamed }
{
    match &found.read {
        Read::Gone(group) => Some(Closing::NoText(*group)),
        Read::Lost(volume) => Some(Closing::SpoolLost(*volume)),
        Read::Lines(_) if found.printer => Some(Closing::PrinterLost),
        Read::Lines(_) => None,
    }
}

// How a job goes on whose text was read, in a step with this progress: it is converted, or the unit is refused, or it
// ends, for which its outputs' groups are taken where it has some.
fn action_by<P: Plant + Drop, C: Steady + Drop>(
    member: &Member,
    complex: &Complex<P, C>,
    holder: Holder,
    outcome: Outcome,
    job: JobNo,
    progress: Progress,
) -> Action
    requires { IsRead complex.now member.now holder outcome job }
    ensures { (runs : Bool) (fields : JobFields) (found : FoundLem) → outcome ≡ outcome_of_lem runs fields found.read
        → IsFirst complex.now member.now (resumes holder (ReadText runs job fields progress) found) result }
{
    match outcome {
        Outcome::Convert => { Action::Give(Part::One(Command::Converted { job }), None, progress) }
        Outcome::Stop(end) => Action::Close(end),
        Outcome::End(outputs) => {
            let needed = groups_for_end(&member.checkpoint.tables, job, outputs.as_slice());
            if needed == 0 {
                return Action::Give(Part::Ended(job, outputs), None, progress);
            }
            let then = Aside::SpoolOutputs {
                job,
                outputs,
                progress,
            };
            Action::Give(Part::Groups(needed), Some(then), progress)
        }
    }
}

/// How the unit goes on that waited for acts, by what was found in them. A job ends whose outputs were written, unless
/// a volume is lost; and lines that stand on paper are marked.
pub(crate) fn action_from<P: Plant + Drop, C: Steady + Drop>(
    member: &Member,
    alloc: Global,
    complex: &Complex<P, C>,
    holder: Holder,
    aside: Aside,
    found: &Found,
) -> Result<Action, NoMemory>
    requires { MayGoOn complex.now member.now holder aside found.now }
    ensures is { IfOk result (IsFirst complex.now member.now (resumes holder aside found.now)) }
    ensures text { OnErr result (is_text aside ≡ true) }
{
    match aside {
        Aside::ReadText {
            runs,
            job,
            fields,
            progress,
        } => {
            let outcome = outcome_of(alloc, runs, &fields, &found.read)?;
            Ok(action_by(member, complex, holder, outcome, job, progress))
        }
        Aside::SpoolOutputs {
            job,
            outputs,
            progress,
        } => match found.lost {
            Some(volume) => Ok(Action::Give(Part::Lost(volume), None, progress)),
            None => Ok(Action::Give(Part::Ended(job, outputs), None, progress)),
        },
        Aside::PrintLines {
            job,
            output,
            last,
            progress,
        } => match printed_end(found) {
            Some(end) => Ok(Action::Close(end)),
            None => {
                let index = output;
                let at = last;
                Ok(Action::Give(Part::One(Command::Mark { job, index, at }), None, progress))
            }
        },
        Aside::SpoolDeck { .. } | Aside::Exchange { .. } => unreachable!(),
        Aside::SpoolArrival { .. } | Aside::Acknowledge { .. } => unreachable!(),
    }
}
