//! Lines that reset a stopped member.
ghost use Rattle.std.specs.Prelude.{◌≡◌, length, false, true, Ok, IfErr, OnOk};
ghost use Rattle.mas_types.specs.Fit.{IsConfig};
ghost use Rattle.lock_cycle.specs.Books.{IsMember, is_holder, is_stopped};
ghost use Rattle.member_resets.specs.Resetting.{HasReset, HasTakenOver, IsAfterReset, IsAfterTakeover, IsUnfound, MayReset, MayTakeOver, StandsBetween, StopsReset, TookLock, TookNone, node_no as node_no_lem, rested_in};
ghost use Rattle.mas_complex.specs.Parts.{parts_of};
ghost use Rattle.ckpt_places.specs.declared.places.Place.TheVariants.{Before as AtBefore};
ghost use Rattle.member_hand.specs.Plays.{played_in};

use mas_complex::{Complex, Place, Steady};
use mas_types::MemberId;
use member_hand::{enter, leave, stop_halted};
use member_lines::sit_reset;
use member_node::{Member, NodeNo};
use spool_plant::Plant;
use std::alloc::Global;
use step_turns::{Grant, Holder};
use warm_start::{TakeNo, takeover};

// The sitting of a reset, by a member that has the lock: it takes its seat, sits, and leaves the lock or keeps it. One
// that was halted isn't stopped in the book yet.
fn try_reset<P: Plant + Drop, C: Steady + Drop>(
    member: &mut Member,
    alloc: Global,
    complex: &mut Complex<P, C>,
    holder: Holder,
    of: MemberId,
) -> Result<(), NodeNo>
    requires may { MayReset complex.old member.old holder of }
    ensures frame { parts_of complex.new ≡ played_in (parts_of complex.new) (parts_of complex.old) }
    ensures id { member.new.id ≡ member.old.id }
    ensures members { length complex.new.book.members ≡ length complex.old.book.members }
    ensures reset { OnOk result (HasReset complex.old complex.new member.old holder of (Ok tt)) }
    ensures next { OnOk result
        (IsAfterReset complex.old complex.new member.old member.new holder of) }
    ensures cut { IfErr result (StopsReset complex.old complex.new member.old holder of) }
{
    enter(member, alloc, complex, holder)?;
    let end = sit_reset(member, alloc, complex, holder, of)?;
    leave(complex, holder.by, &end);
    Ok(())
}

/// A line that resets a stopped member which doesn't hold the lock, by one that has it: the member takes its seat,
/// gives the reset in one batch, says how that went, and leaves the lock, or keeps it where it has it by LOCK and some
/// of its hold is left. One that is halted in the line is stopped in the book in the same call, and holds the lock.
///
/// Halted comes only where the member was stopped, BothLost only where both copies count as lost, ConsoleFault only
/// where the console failed at the line. After an error the member can't go on.
pub fn reset_line<P: Plant + Drop, C: Steady + Drop>(
    member: &mut Member,
    alloc: Global,
    complex: &mut Complex<P, C>,
    holder: Holder,
    of: MemberId,
) -> Result<(), NodeNo>
    requires may { MayReset complex.old member.old holder of }
    ensures frame { parts_of complex.new ≡ played_in (parts_of complex.new) (parts_of complex.old) }
    ensures id { member.new.id ≡ member.old.id }
    ensures reset { HasReset complex.old complex.new member.old holder of result }
    ensures next { OnOk result
        (IsAfterReset complex.old complex.new member.old member.new holder of) }
{
    let by = holder.by;
    match try_reset(member, alloc, complex, holder, of) {
        Ok(()) => Ok(()),
        Err(why) => {
            stop_halted(complex, by, why);
            Err(why)
        }
    }
}

// Nothing is in flight: a copy that counts as lost is before any batch, as each that counts as alive is.
fn rest_copies<P: Plant + Drop, C: Steady + Drop>(complex: &mut Complex<P, C>)
    requires first { complex.old.pair.first.alive ≡ true → complex.old.first ≡ AtBefore }
    requires second { complex.old.pair.second.alive ≡ true → complex.old.second ≡ AtBefore }
    ensures { parts_of complex.new ≡ rested_in (parts_of complex.old) }
{
    complex.first = Place::Before;
    complex.second = Place::Before;
}

// What a line answers of whose takeover nothing was found out, where a copy counts as alive still, or none does.
fn node_no(no: TakeNo, some: bool) -> NodeNo
    requires { IsUnfound no }
    ensures { result ≡ node_no_lem some no }
{
    match no {
        TakeNo::BothLost => NodeNo::BothLost,
        TakeNo::Halted => NodeNo::Halted,
        TakeNo::NoMemory => {
            if some {
                NodeNo::NoMemory
            } else {
                NodeNo::BothLost
            }
        }
        TakeNo::StillUp | TakeNo::NotHolder => unreachable!(),
    }
}

/// Takes the lock of a stopped member over, by one that is up, and finds out what became of a batch in flight.
///
/// BothLost comes only where both copies count as lost, Halted only where the member was stopped: then it is stopped in
/// the book too. After an error the lock is taken over, and a batch in flight still is.
pub fn take_lock<P: Plant + Drop, C: Steady + Drop>(
    alloc: Global,
    complex: &mut Complex<P, C>,
    by: MemberId,
    of: MemberId,
) -> Result<(), NodeNo>
    requires by { IsMember complex.old.book by }
    requires of { IsMember complex.old.book of }
    requires up { is_stopped complex.old.book by ≡ false }
    requires stopped { is_stopped complex.old.book of ≡ true }
    requires holds { is_holder complex.old.book of ≡ true }
    requires stands { StandsBetween complex.old }
    requires config { IsConfig complex.old.base.config }
    ensures frame { parts_of complex.new ≡ played_in (parts_of complex.new) (parts_of complex.old) }
    ensures taken { OnOk result (TookLock complex.old complex.new by of) }
    ensures untaken { IfErr result (TookNone complex.old complex.new by of) }
{
    // The member reads what was found at its seat.
    let _found = match takeover(alloc, complex, by, of) {
        Ok(found) => found,
        Err(no) => {
            let some = complex.pair.first.alive || complex.pair.second.alive;
            return Err(node_no(no, some));
        }
    };
    rest_copies(complex);
    Ok(())
}

/// A line that resets a stopped member which holds the lock, by one that is up: the member takes the lock over and
/// finds out what became of a batch in flight, and then goes on as in `reset_line`.
///
/// The errors are those of `takeover` and `reset_line`. After one of the first the lock is taken over, and a batch in
/// flight still is. Out of memory, where no copy counts as alive either, the answer is BothLost.
pub fn take_line<P: Plant + Drop, C: Steady + Drop>(
    member: &mut Member,
    alloc: Global,
    complex: &mut Complex<P, C>,
    step: u32,
    of: MemberId,
) -> Result<(), NodeNo>
    requires may { MayTakeOver complex.old member.old step of }
    ensures frame { parts_of complex.new ≡ played_in (parts_of complex.new) (parts_of complex.old) }
    ensures id { member.new.id ≡ member.old.id }
    ensures taken { HasTakenOver complex.old complex.new member.old step of result }
    ensures next { OnOk result (IsAfterTakeover complex.old complex.new member.old member.new) }
{
    let by = member.id;
    take_lock(alloc, complex, by, of)?;
    let holder = Holder {
        by,
        step,
        hold: complex.hold_left(by),
        grant: Grant::ForStep,
    };
    reset_line(member, alloc, complex, holder, of)
}
