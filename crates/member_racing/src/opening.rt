//! The first turn of a line, and each one in which its try is made again.
ghost use Rattle.std.specs.Prelude.{◌≡◌, IfOk};
ghost use Rattle.lock_cycle.specs.Books.{IsMember, left_of};
ghost use Rattle.mas_complex.specs.Parts.{parts_of};
ghost use Rattle.member_resets.specs.Plays.{played_in};
ghost use Rattle.race_turns.specs.Turns.{left_holder};
ghost use Rattle.member_racing.specs.Opened.{IfLeft, IsSeated, Tries, WaitsTurn};
ghost use Rattle.member_resets.specs.Resetting.{MayTakeOver};
ghost use Rattle.member_racing.specs.Waits.{HasEase};
ghost use Rattle.member_racing.specs.declared.stages.Stage.TheVariants.{Opens};
ghost use Rattle.member_racing.specs.Turning.{MayTurn, closed_by, raced_at, stood_at};
ghost use Rattle.step_turns.specs.declared.states.Grant.TheVariants.{ForStep};

use crate::sitting::sit_turn;
use crate::stages::Stage;
use crate::taking::take_and_reset;
use mas_complex::{Complex, Steady};
use mas_types::MemberId;
use member_lines::{Admission, Closed, admit, say_refused};
use member_node::{Member, NodeNo};
use member_resets::{Stand, nothing_found, reset_line, take_line};
use script_lang::Ask;
use spool_plant::Plant;
use std::alloc::Global;
use step_turns::{Grant, Holder, State};

// Who has the lock for its step, with what it has of its hold.
fn holder_for<P: Plant + Drop, C: Steady + Drop>(
    complex: &Complex<P, C>,
    by: MemberId,
    step: u32,
) -> Holder
    requires { IsMember complex.now.book by }
    ensures { result ≡ record { by = by; step = step; hold = left_of complex.now.book by; grant = ForStep } }
{
    Holder {
        by,
        step,
        hold: complex.hold_left(by),
        grant: Grant::ForStep,
    }
}

// The stopped member that holds the lock, if one does.
pub(crate) fn stopped_holder<P: Plant + Drop, C: Steady + Drop>(
    complex: &Complex<P, C>,
) -> Option<MemberId>
    requires { IsSeated complex.now.book }
    ensures { result ≡ left_holder complex.now.book }
{
    let holder = complex.holder();
    if holder.0 != 0 && complex.stopped(holder) {
        Some(holder)
    } else {
        None
    }
}

// A try that was refused: it is made again in another turn. Where a stopped member holds the lock, that is taken over
// first.
fn wait_turn<P: Plant + Drop, C: Steady + Drop>(
    member: &mut Member,
    alloc: Global,
    complex: &mut Complex<P, C>,
    step: u32,
    stage: Stage,
) -> Result<Stage, NodeNo>
    requires seated { IsSeated complex.old.book }
    requires may { IfLeft (left_holder complex.old.book) (MayTakeOver complex.old member.old step) }
    requires ease { HasEase complex.old member.old }
    ensures frame { parts_of complex.new ≡ played_in (parts_of complex.new) (parts_of complex.old) }
    ensures id { member.new.id ≡ member.old.id }
    ensures ease { IfOk result (λ s. HasEase complex.new member.new) }
    ensures waits { WaitsTurn (stood_at member.old.id step stage) complex.old complex.new result }
{
    let Some(of) = stopped_holder(complex) else {
        return Ok(stage);
    };
    take_and_reset(member, alloc, complex, step, of)?;
    Ok(stage)
}

// A line that closed, or got no further.
pub(crate) fn closed(said: Result<(), NodeNo>) -> Result<Stage, NodeNo>
    ensures { result ≡ closed_by said }
{
    match said {
        Ok(()) => Ok(Stage::Closed),
        Err(why) => Err(why),
    }
}

/// The first turn of a line: it is tested, and its member tries at the lock. One that gets it sits at once.
pub(crate) fn open_turn<P: Plant + Drop, C: Steady + Drop>(
    member: &mut Member,
    alloc: Global,
    complex: &mut Complex<P, C>,
    step: u32,
    asked: &Ask,
) -> Result<Stage, NodeNo>
    requires { MayTurn complex.old member.old step asked.now Opens }
    ensures frame { parts_of complex.new ≡ played_in (parts_of complex.new) (parts_of complex.old) }
    ensures id { member.new.id ≡ member.old.id }
    ensures ease { IfOk result (λ s. HasEase complex.new member.new) }
    ensures tries { Tries (raced_at member.old.id step asked.now Opens) complex.old complex.new member.old member.new
        result }
{
    let by = member.id;
    let Ok(admission) = admit(alloc, complex, by, asked) else {
        return Err(NodeNo::NoMemory);
    };
    match admission {
        Admission::Refused { sayer, end } => {
            let said = say_refused(alloc, complex, Closed { by, step, sayer }, &end);
            closed(said)
        }
        Admission::Denied(_) => wait_turn(member, alloc, complex, step, Stage::Opens),
        Admission::Plays(task) => {
            let holder = holder_for(complex, by, step);
            let stand = Stand {
                holder,
                state: State::Fresh(task),
                found: nothing_found(alloc),
            };
            sit_turn(member, alloc, complex, stand)
        }
        Admission::Resets(of) => {
            let holder = holder_for(complex, by, step);
            let reset = reset_line(member, alloc, complex, holder, of);
            closed(reset)
        }
        Admission::TakesOver(of) => {
            let taken = take_line(member, alloc, complex, step, of);
            closed(taken)
        }
        Admission::Replaces(_) | Admission::Locks | Admission::Frees | Admission::Unplayed =>
            unreachable!(),
    }
}
