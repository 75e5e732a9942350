//! One turn of a member's line in a race.
ghost use Rattle.std.specs.Prelude.{◌≡◌, ◌&&◌, IfOk, OnOk, not};
ghost use Rattle.mas_complex.specs.Parts.{parts_of};
ghost use Rattle.mas_race.specs.Between.{BetweenTurns, is_held};
ghost use Rattle.member_resets.specs.Plays.{played_in};
ghost use Rattle.member_racing.specs.Backs.{MayGoBack};
ghost use Rattle.member_racing.specs.Opened.{IsSeated, KeepsActing, TakesBeside, Tries};
ghost use Rattle.member_racing.specs.Stages.{IsBegun};
ghost use Rattle.member_racing.specs.Turned.{AddsOwn, Costs, TakesTurn};
ghost use Rattle.member_racing.specs.Turning.{EndsTurn, MayEnd, MayTurn, raced_at};
ghost use Rattle.member_racing.specs.Waits.{HasEase, Waits};
ghost use Rattle.member_resets.specs.Resetting.{MayTakeOver};

use crate::opening::{closed, open_turn, stopped_holder};
use crate::sitting::{act_turn, sit_turn};
use crate::stages::Stage;
use crate::taking::{take_and_reset, take_beside};
use mas_complex::{Complex, Steady};
use mas_types::MemberId;
use member_lines::say_stopped;
use member_node::{Member, NodeNo};
use script_lang::Ask;
use spool_plant::Plant;
use std::alloc::Global;

// A turn is taken below this level of the kept pages. A run begins far below it.
const LEVEL_MOST: u64 = (1 << 62) + (1 << 61);

// Takes the lock of a stopped member over, in a line that goes on as it stands.
fn take_up<P: Plant + Drop, C: Steady + Drop>(
    member: &mut Member,
    alloc: Global,
    complex: &mut Complex<P, C>,
    step: u32,
    stage: &Stage,
    of: MemberId,
) -> Result<(), NodeNo>
    requires may { MayTakeOver complex.old member.old step of }
    ensures frame { parts_of complex.new ≡ played_in (parts_of complex.new) (parts_of complex.old) }
    ensures id { member.new.id ≡ member.old.id }
    ensures ease { OnOk result (HasEase complex.new member.new) }
    ensures takes { TakesBeside step of complex.old complex.new member.old member.new result }
    ensures acting { OnOk result (KeepsActing stage.now stage.now member.old member.new) }
{
    match stage {
        Stage::Acts(_) => take_beside(member, alloc, complex, step, of),
        _ => take_and_reset(member, alloc, complex, step, of),
    }
}

// A further turn of a line whose member had the lock before. A stopped member that holds it now is taken over first.
fn next_turn<P: Plant + Drop, C: Steady + Drop>(
    member: &mut Member,
    alloc: Global,
    complex: &mut Complex<P, C>,
    step: u32,
    _asked: &Ask,
    stage: Stage,
) -> Result<Stage, NodeNo>
    requires may { MayTurn complex.old member.old step _asked.now stage }
    requires begun { IsBegun stage }
    ensures frame { parts_of complex.new ≡ played_in (parts_of complex.new) (parts_of complex.old) }
    ensures id { member.new.id ≡ member.old.id }
    ensures ease { IfOk result (λ s. HasEase complex.new member.new) }
    ensures acting { IfOk result (λ s. KeepsActing stage s member.old member.new) }
    ensures tries { Tries (raced_at member.old.id step _asked.now stage) complex.old complex.new member.old member.new
        result }
{
    if let Some(of) = stopped_holder(complex) {
        take_up(member, alloc, complex, step, &stage, of)?;
        return Ok(stage);
    }
    match stage {
        Stage::Sits(stand) => sit_turn(member, alloc, complex, stand),
        Stage::Acts(stand) => act_turn(member, alloc, complex, stand),
        Stage::Opens | Stage::Closed => unreachable!(),
    }
}

// Neither copy counts as alive.
fn both_lost<P: Plant + Drop, C: Steady + Drop>(complex: &Complex<P, C>) -> bool
    ensures { result ≡ (not complex.now.pair.first.alive && not complex.now.pair.second.alive) }
{
    !complex.pair.first.alive && !complex.pair.second.alive
}

// A member holds the lock that isn't stopped.
fn held_up<P: Plant + Drop, C: Steady + Drop>(complex: &Complex<P, C>) -> bool
    requires { IsSeated complex.now.book }
    ensures { result ≡ is_held complex.now.book }
{
    let holder = complex.holder();
    holder.0 != 0 && !complex.stopped(holder)
}

// What a turn does, before it is ended. Where both copies are lost, levels are used up, or the race of the member that
// holds the lock has ended, it does nothing.
fn try_turn<P: Plant + Drop, C: Steady + Drop>(
    member: &mut Member,
    alloc: Global,
    complex: &mut Complex<P, C>,
    step: u32,
    asked: &Ask,
    stage: Stage,
) -> Result<Stage, NodeNo>
    requires rest { BetweenTurns complex.old }
    requires waits { Waits complex.old member.old step asked.now stage }
    ensures frame { parts_of complex.new ≡ played_in (parts_of complex.new) (parts_of complex.old) }
    ensures id { member.new.id ≡ member.old.id }
    ensures ease { IfOk result (λ s. HasEase complex.new member.new) }
    ensures acting { IfOk result (λ s. KeepsActing stage s member.old member.new) }
    ensures tries { Tries (raced_at member.old.id step asked.now stage) complex.old complex.new member.old member.new
        result }
{
    if both_lost(complex) {
        return Err(NodeNo::BothLost);
    }
    if complex.level >= LEVEL_MOST {
        return Err(NodeNo::NoMemory);
    }
    if held_up(complex) {
        return Err(NodeNo::NoMemory);
    }
    complex.kept_pages();
    match stage {
        Stage::Opens => open_turn(member, alloc, complex, step, asked),
        Stage::Closed => Ok(Stage::Closed),
        Stage::Sits(_) | Stage::Acts(_) => next_turn(member, alloc, complex, step, asked, stage),
    }
}

// Ends a turn. A member that was halted in it is stopped in the book, what it had reserved is given up, and the
// operator says so: then its line has closed. After another error it keeps the lock, if it had that.
fn end_turn<P: Plant + Drop, C: Steady + Drop>(
    alloc: Global,
    complex: &mut Complex<P, C>,
    by: MemberId,
    step: u32,
    tried: Result<Stage, NodeNo>,
) -> Result<Stage, NodeNo>
    requires { MayEnd by step complex.old tried }
    ensures { EndsTurn by step complex.old complex.new tried result }
{
    match tried {
        Ok(stage) => Ok(stage),
        Err(NodeNo::Halted) => {
            complex.stop(by);
            complex.give_up_reserved();
            let said = say_stopped(alloc, complex, by, step);
            closed(said)
        }
        Err(NodeNo::BothLost) => Err(NodeNo::BothLost),
        Err(NodeNo::NoMemory) => {
            complex.give_up_reserved();
            Err(NodeNo::NoMemory)
        }
        Err(NodeNo::ConsoleFault) => {
            complex.give_up_reserved();
            Err(NodeNo::ConsoleFault)
        }
    }
}

/// One turn of a member's line in a race, at a value that others may have changed since the member's last turn. The
/// line is tested and its member tries at the lock; or its step goes on with a sitting, or with acts aside. In a race
/// nobody is told that the lock is held: a refused try leaves the line as it stood, and is made again in another
/// turn. Where a stopped member holds the lock, it is taken over first, and that member is reset as the next command
/// of the line. The lock is never held between two turns, except by a member that was stopped, or whose race ended
/// with an error as it had the lock: then the race is over for all.
///
/// What the value shows of the others may be handed back, and what holds between two turns holds again, whatever the
/// answer is. With Ok the member waits for its next turn. A member that was halted is stopped in the book in the same
/// turn, and the operator says so; its line has closed then.
///
/// BothLost comes only where both copies count as lost at the end of the turn, ConsoleFault only where the console's
/// count of faults rose. NoMemory is want of memory, or of levels above 2^62 + 2^61, or comes where another's race
/// ended as it held the lock. After any of them the member's race is over.
pub fn line_turn<P: Plant + Drop, C: Steady + Drop>(
    member: &mut Member,
    alloc: Global,
    complex: &mut Complex<P, C>,
    step: u32,
    asked: &Ask,
    stage: Stage,
) -> Result<Stage, NodeNo>
    requires rest { BetweenTurns complex.old }
    requires waits { Waits complex.old member.old step asked.now stage }
    ensures id { member.new.id ≡ member.old.id }
    ensures base { complex.new.base ≡ complex.old.base }
    ensures since { complex.new.since ≡ complex.old.since }
    ensures rest { BetweenTurns complex.new }
    ensures back { MayGoBack member.old.id complex.old complex.new }
    ensures adds { AddsOwn member.old.id complex.old complex.new }
    ensures costs { Costs member.old.id complex.old complex.new result }
    ensures turn { P.tells → TakesTurn (raced_at member.old.id step asked.now stage) complex.old complex.new result }
    ensures next { IfOk result (Waits complex.new member.new step asked.now) }
{
    let by = member.id;
    let tried = try_turn(member, alloc, complex, step, asked, stage);
    end_turn(alloc, complex, by, step, tried)
}
