//! Lines that only close: they say why nothing else is done.
ghost use Rattle.std.specs.Prelude.{◌≡◌, ◌+◌, ◌≤◌};
ghost use Rattle.mas_types.specs.Closings.{AreMembersNamed};
ghost use Rattle.mas_types.specs.Limits.{members_most};
ghost use Rattle.lock_cycle.specs.Books.{IsMember};
ghost use Rattle.mas_complex.specs.Parts.{parts_of};
ghost use Rattle.run_turns.specs.Admissions.{Denied, Refused, denied_closing};
ghost use Rattle.member_lines.specs.Closes.{Closes, IsSayer, SaysStopped, failed, stopped_so};
ghost use Rattle.member_lines.specs.Earlier.{IsStepKept, MaySayItsLine};

use crate::admissions::NOBODY;
use lock_cycle::LockNo;
use mas_complex::{Complex, Steady};
use mas_types::{Closing, MemberId, closing_line};
use member_node::NodeNo;
use spool_plant::{Act, Plant};
use std::alloc::Global;

/// The step that a closing line is of.
#[derive(Clone, Copy)]
pub struct Closed {
    /// Its member.
    pub by: MemberId,
    /// Its number, from 1.
    pub step: u32,
    /// Who says the line: the member, or the operator, which is member 0.
    pub sayer: MemberId,
}

// How a step closes whose member doesn't get the lock.
fn closing_of(why: LockNo) -> Closing
    ensures { result ≡ denied_closing why }
{
    match why {
        LockNo::Down => Closing::Down,
        LockNo::Busy(holder) => Closing::Busy(holder),
        LockNo::Dormant(tick) => Closing::Dormant(tick),
    }
}

// A member that was halted is stopped in the book; after any other error all is as it was.
pub(crate) fn stop_halted<P: Plant + Drop, C: Steady + Drop>(
    complex: &mut Complex<P, C>,
    by: MemberId,
    why: NodeNo,
)
    requires { IsMember complex.old.book by }
    ensures { parts_of complex.new ≡ stopped_so (failed why) by (parts_of complex.old) }
{
    if why == NodeNo::Halted {
        complex.stop(by);
    }
}

/// Closes a line that was refused before its try of the lock: its member, or the operator, says why. Nothing else is
/// done, but that a member which is halted at the line is stopped in the book.
///
/// NoMemory is want of memory for the line: then nothing is changed. ConsoleFault comes only where the console's count
/// of faults rose, Halted only where the member that says the line was stopped, which the operator never is.
pub fn say_refused<P: Plant + Drop, C: Steady + Drop>(
    alloc: Global,
    complex: &mut Complex<P, C>,
    of: Closed,
    end: &Closing,
) -> Result<(), NodeNo>
    requires says { IsSayer complex.old.book of.sayer of.by }
    requires by { of.by.0 ≤ members_most }
    requires named { AreMembersNamed end.now }
    requires kept { P.tells → IsStepKept complex.old of.by of.step }
    ensures frame { parts_of complex.new
        ≡ stopped_so result of.by (record (parts_of complex.old) { plant = complex.new.plant }) }
    ensures closed { Closes of.by of.step (Refused of.sayer end.now) of.sayer complex.old complex.new result }
{
    let Ok(line) = closing_line(alloc, of.by, of.step, end) else {
        return Err(NodeNo::NoMemory);
    };
    match complex.say(of.sayer, line.as_slice()) {
        Act::Done => Ok(()),
        Act::Failed => Err(NodeNo::ConsoleFault),
        Act::Halted => {
            complex.stop(of.by);
            Err(NodeNo::Halted)
        }
    }
}

/// Closes a line whose member doesn't get the lock: it says why. The errors are those of `say_refused`.
pub fn say_denied<P: Plant + Drop, C: Steady + Drop>(
    alloc: Global,
    complex: &mut Complex<P, C>,
    by: MemberId,
    step: u32,
    why: LockNo,
) -> Result<(), NodeNo>
    requires may { MaySayItsLine complex.old by step }
    requires named { AreMembersNamed (denied_closing why) }
    ensures frame { parts_of complex.new
        ≡ stopped_so result by (record (parts_of complex.old) { plant = complex.new.plant }) }
    ensures closed { Closes by step (Denied why) by complex.old complex.new result }
{
    let of = Closed {
        by,
        step,
        sayer: by,
    };
    say_refused(alloc, complex, of, &closing_of(why))
}

/// The operator says that a member stopped in its step, of which batches may stand already.
///
/// NoMemory is want of memory for the line: then nothing is changed. ConsoleFault comes only where the console's count
/// of faults rose.
pub fn say_stopped<P: Plant + Drop, C: Steady + Drop>(
    alloc: Global,
    complex: &mut Complex<P, C>,
    by: MemberId,
    step: u32,
) -> Result<(), NodeNo>
    requires by { by.0 ≤ members_most }
    requires kept { P.tells → IsStepKept complex.old by (step + 1) }
    ensures frame { parts_of complex.new ≡ record (parts_of complex.old) { plant = complex.new.plant } }
    ensures says { SaysStopped by step complex.old complex.new result }
{
    let Ok(line) = closing_line(alloc, by, step, &Closing::Stopped) else {
        return Err(NodeNo::NoMemory);
    };
    match complex.say(NOBODY, line.as_slice()) {
        Act::Done => Ok(()),
        Act::Failed => Err(NodeNo::ConsoleFault),
        Act::Halted => unreachable!(),
    }
}
