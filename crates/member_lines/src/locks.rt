//! The lock from one line to another.
ghost use Rattle.std.specs.Prelude.{◌≡◌, None, true};
ghost use Rattle.lock_cycle.specs.Books.{is_holder};
ghost use Rattle.mas_complex.specs.Parts.{parts_of};
ghost use Rattle.member_sittings.specs.Gates.{MayTakeSeat};
ghost use Rattle.member_sittings.specs.Sat.{seated_in};
ghost use Rattle.run_turns.specs.Admissions.{Frees, Locks};
ghost use Rattle.member_lines.specs.Closes.{Closes, freed_by, stopped_so};
ghost use Rattle.member_lines.specs.Earlier.{IsStepKept, MaySayItsLine};
ghost use Rattle.member_lines.specs.Locks.{SeatsAndCloses};

use crate::closings::{Closed, say_refused, stop_halted};
use mas_complex::{Complex, Steady};
use mas_types::{Closing, MemberId, Reply};
use member_node::{Member, NodeNo};
use member_sittings::take_seat;
use spool_plant::Plant;
use std::alloc::Global;

/// The member that holds the lock says so, and gives it up. Nothing may be in flight.
///
/// The errors are those of `say_refused`. After one the member holds the lock still.
pub fn free_line<P: Plant + Drop, C: Steady + Drop>(
    alloc: Global,
    complex: &mut Complex<P, C>,
    by: MemberId,
    step: u32,
) -> Result<(), NodeNo>
    requires may { MaySayItsLine complex.old by step }
    requires holds { is_holder complex.old.book by ≡ true }
    requires none { complex.old.current ≡ None }
    ensures frame { parts_of complex.new
        ≡ freed_by result by (record (parts_of complex.old) { plant = complex.new.plant }) }
    ensures closed { Closes by step Frees by complex.old complex.new result }
{
    let of = Closed {
        by,
        step,
        sayer: by,
    };
    match say_refused(alloc, complex, of, &Closing::Reply(Reply::Plain)) {
        Ok(()) => {
            let _freed = complex.free(by, false);
            Ok(())
        }
        Err(why) => Err(why),
    }
}

/// The member that got the lock by a line of its own keeps it: it takes its seat, reading what the copies have and
/// making room for a batch, and says so.
///
/// BothLost comes only where both copies count as lost at the end of the call; NoMemory is want of memory for its
/// tables or its line. Halted comes only where the member was stopped in the call, and then it is stopped in the book;
/// ConsoleFault only where the console's count of faults rose. After an error it holds the lock still.
pub fn lock_line<P: Plant + Drop, C: Steady + Drop>(
    member: &mut Member,
    alloc: Global,
    complex: &mut Complex<P, C>,
    step: u32,
) -> Result<(), NodeNo>
    requires may { MayTakeSeat complex.old member.old }
    requires kept { P.tells → IsStepKept complex.old member.old.id step }
    ensures frame { parts_of complex.new
        ≡ stopped_so result member.old.id (seated_in (parts_of complex.new) (parts_of complex.old)) }
    ensures id { member.new.id ≡ member.old.id }
    ensures locks { SeatsAndCloses member.old member.new step Locks complex.old complex.new result }
{
    let by = member.id;
    match take_seat(member, alloc, complex) {
        Ok(()) => {
            let of = Closed {
                by,
                step,
                sayer: by,
            };
            say_refused(alloc, complex, of, &Closing::Reply(Reply::Plain))
        }
        Err(why) => {
            stop_halted(complex, by, why);
            Err(why)
        }
    }
}
