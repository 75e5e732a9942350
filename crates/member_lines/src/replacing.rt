//! A line that replaces a lost copy.
ghost use Rattle.std.specs.Prelude.{◌≡◌, ◌≤◌, None, Some, IfErr, IfOk, Err, OnOk};
ghost use Rattle.mas_types.specs.Closings.{AreMembersNamed};
ghost use Rattle.mas_types.specs.Limits.{members_most};
ghost use Rattle.lock_cycle.specs.Books.{IsMember};
ghost use Rattle.mas_complex.specs.Locking.{MayAct};
ghost use Rattle.mas_complex.specs.Parts.{parts_of};
ghost use Rattle.member_sittings.specs.Gates.{ActedOnCopies, TookSeat};
ghost use Rattle.member_sittings.specs.Sat.{seated_in};
ghost use Rattle.step_turns.specs.Sittings.{released};
ghost use Rattle.step_turns.specs.declared.states.State.TheVariants.{Told};
ghost use Rattle.run_turns.specs.Pieces.{released_by, replaced_closing};
ghost use Rattle.run_turns.specs.Sights.{Renewed};
ghost use Rattle.member_lines.specs.Closes.{ClosesHeld, ended_by, failed};
ghost use Rattle.member_lines.specs.Earlier.{IsStepKept};
ghost use Rattle.member_lines.specs.Replaces.{EndsAs, MayRenew, MayReplace, MaySitDown, RenewsAndCloses, ReplacesAndCloses, WasReplaced, found_of, replacing_in};

use crate::closings::{Closed, say_refused, stop_halted};
use mas_complex::{Complex, ReplaceNo, Steady};
use mas_types::{Closing, Dev, MemberId, Reply};
use member_node::{Member, NodeNo};
use member_sittings::{keep_seat, release_of, take_seat};
use spool_plant::Plant;
use std::alloc::Global;
use step_turns::{Grant, Holder, Release, State};

// How the step closes, by the answer of the replacement; or how the line ends, where it doesn't.
fn closing_of(answer: Result<(), ReplaceNo>, dev: Dev) -> Result<Closing, NodeNo>
    ensures closes { IfOk result (λ end. (found : Renewed) × (found_of answer ≡ Some found)
        × (end ≡ replaced_closing dev found)) }
    ensures ends { IfErr result (λ why. (found_of answer ≡ None) × EndsAs answer (failed why)) }
{
    match answer {
        Ok(()) => Ok(Closing::Reply(Reply::Plain)),
        Err(ReplaceNo::NotLost) => Ok(Closing::NotLost(dev)),
        Err(ReplaceNo::Failed) => Ok(Closing::CkptLost(dev)),
        Err(ReplaceNo::BothLost) => Err(NodeNo::BothLost),
        Err(ReplaceNo::Halted) => Err(NodeNo::Halted),
        Err(ReplaceNo::NoMemory) => Err(NodeNo::NoMemory),
    }
}

// The member takes its seat, if it got the lock for its step, or keeps the one that it has by LOCK.
fn sit_down<P: Plant + Drop, C: Steady + Drop>(
    member: &mut Member,
    alloc: Global,
    complex: &mut Complex<P, C>,
    grant: Grant,
) -> Result<(), NodeNo>
    requires { MaySitDown grant complex.old member.old }
    ensures frame { parts_of complex.new ≡ seated_in (parts_of complex.new) (parts_of complex.old) }
    ensures id { member.new.id ≡ member.old.id }
    ensures acts { ActedOnCopies member.old.id complex.old complex.new result }
    ensures seat { OnOk result (TookSeat complex.new member.new) }
{
    match grant {
        Grant::ForStep => take_seat(member, alloc, complex),
        Grant::ByLock => keep_seat(member, alloc, complex),
    }
}

// A member at its seat is to replace the copy on a device by the pages that it has. It has its seat still.
fn replace_at_seat<P: Plant + Drop, C: Steady + Drop>(
    member: &Member,
    complex: &mut Complex<P, C>,
    dev: Dev,
) -> Result<(), ReplaceNo>
    requires { MayRenew complex.old member.now dev }
    ensures { WasReplaced member.now dev complex.old complex.new result }
{
    member.replace(complex, dev)
}

// The holder gives the lock up at the end of a step that gave no command, or keeps what it has by LOCK.
fn leave_lock<P: Plant + Drop, C: Steady + Drop>(
    complex: &mut Complex<P, C>,
    by: MemberId,
    holder: Holder,
)
    requires may { MayAct complex.old.book by }
    requires member { IsMember complex.old.book by }
    requires none { complex.old.current ≡ None }
    requires unreserved { complex.old.reserved ≡ None }
    ensures { parts_of complex.new ≡ record (parts_of complex.old)
        { book = released_by (released holder.grant holder.hold 0 Told) complex.old.book by } }
{
    match release_of(holder, 0, &State::Told) {
        Release::Keep => {}
        Release::Inner => {
            let _left = complex.free(by, true);
        }
        Release::Outer => {
            let _left = complex.free(by, false);
        }
    }
}

// The holder says how its line closes, and leaves the lock, or keeps it. After an error it holds the lock still.
fn say_and_leave<P: Plant + Drop, C: Steady + Drop>(
    alloc: Global,
    complex: &mut Complex<P, C>,
    by: MemberId,
    holder: Holder,
    end: &Closing,
) -> Result<(), NodeNo>
    requires may { MayAct complex.old.book by }
    requires member { IsMember complex.old.book by }
    requires by { by.0 ≤ members_most }
    requires none { complex.old.current ≡ None }
    requires unreserved { complex.old.reserved ≡ None }
    requires named { AreMembersNamed end.now }
    requires kept { P.tells → IsStepKept complex.old by holder.step }
    ensures frame { parts_of complex.new
        ≡ ended_by result by (released holder.grant holder.hold 0 Told)
        (record (parts_of complex.old) { plant = complex.new.plant }) }
    ensures closed { ClosesHeld by holder end.now complex.old complex.new result }
{
    let step = holder.step;
    let of = Closed {
        by,
        step,
        sayer: by,
    };
    match say_refused(alloc, complex, of, end) {
        Ok(()) => {
            leave_lock(complex, by, holder);
            Ok(())
        }
        Err(why) => Err(why),
    }
}

// A member at its seat replaces the copy, says how that went, and leaves the lock or keeps it.
fn replace_and_close<P: Plant + Drop, C: Steady + Drop>(
    member: &Member,
    alloc: Global,
    complex: &mut Complex<P, C>,
    holder: Holder,
    dev: Dev,
) -> Result<(), NodeNo>
    requires may { MayRenew complex.old member.now dev }
    requires kept { P.tells → IsStepKept complex.old member.now.id holder.step }
    ensures frame { parts_of complex.new ≡ replacing_in (parts_of complex.new) (parts_of complex.old) }
    ensures renews { RenewsAndCloses member.now holder dev complex.old complex.new result }
{
    let by = member.id;
    match closing_of(replace_at_seat(member, complex, dev), dev) {
        Ok(end) => say_and_leave(alloc, complex, by, holder, &end),
        Err(why) => {
            stop_halted(complex, by, why);
            Err(why)
        }
    }
}

/// The member that has the lock replaces a lost copy by one of the pages that the other copy has: it takes its seat, or
/// keeps it, writes the new copy, says how that went, and leaves the lock, or keeps it where it has it by LOCK and some
/// of its hold is left. The step gives no command.
///
/// The line says that the copy isn't lost exactly where it counts as alive, and that it is lost again only where its
/// device's faults rose. BothLost comes only where both copies count as lost at the end of the call. NoMemory is want
/// of memory for its tables, the list of replacements or its line. Halted comes only where the member was stopped in
/// the call, and then it is stopped in the book; ConsoleFault only where the console's count of faults rose. After an
/// error it holds the lock still.
pub fn replace_line<P: Plant + Drop, C: Steady + Drop>(
    member: &mut Member,
    alloc: Global,
    complex: &mut Complex<P, C>,
    holder: Holder,
    dev: Dev,
) -> Result<(), NodeNo>
    requires may { MayReplace complex.old member.old holder dev }
    requires kept { P.tells → IsStepKept complex.old member.old.id holder.step }
    ensures frame { parts_of complex.new ≡ replacing_in (parts_of complex.new) (parts_of complex.old) }
    ensures id { member.new.id ≡ member.old.id }
    ensures replaces { ReplacesAndCloses member.old member.new holder dev complex.old complex.new result }
{
    let by = member.id;
    match sit_down(member, alloc, complex, holder.grant) {
        Ok(()) => replace_and_close(member, alloc, complex, holder, dev),
        Err(why) => {
            stop_halted(complex, by, why);
            Err(why)
        }
    }
}
