//! A member that got the lock takes its seat: it takes in what the copies have. One that held it knows what they have.
ghost use Rattle.std.specs.Prelude.{◌≡◌, Ok};
ghost use Rattle.member_sittings.specs.Gates.{AreBothLost, HaveRoom, MayKeepSeat, MayTakeSeat, Seats};

use mas_complex::{Complex, Steady};
use member_node::{Member, NodeNo, TOO_HIGH};
use member_opening::take_hold;
use spool_plant::Plant;
use std::alloc::Global;

/// What a member does that got the lock, before it sits: it reads the copies, brings its tables up to them, and makes
/// room for a batch. Others may have written since it did so last.
///
/// BothLost comes only where both copies count as lost at the end of the call, Halted only where the member was stopped
/// in it; NoMemory is want of memory for the tables. The journal, the volumes and the console are as they were.
pub fn take_seat<P: Plant + Drop, C: Steady + Drop>(
    member: &mut Member,
    alloc: Global,
    complex: &mut Complex<P, C>,
) -> Result<(), NodeNo>
    requires { MayTakeSeat complex.old member.old }
    ensures { Seats complex.old complex.new member.old member.new result }
{
    take_hold(member, alloc, complex)?;
    Ok(())
}

/// What a member does that holds the lock since an earlier sitting, and sits again: it makes room for a batch. It knows
/// what the copies have, since nobody else could write. So where content is told it reads nothing, and where both
/// copies have room, or both are lost, nothing is done at all. Elsewhere it reads them anew only if its orders or its
/// level are too high to go on.
///
/// The errors are those of `take_seat`.
pub fn keep_seat<P: Plant + Drop, C: Steady + Drop>(
    member: &mut Member,
    alloc: Global,
    complex: &mut Complex<P, C>,
) -> Result<(), NodeNo>
    requires { MayKeepSeat complex.old member.old }
    ensures seats { Seats complex.old complex.new member.old member.new result }
    ensures same { P.tells → member.new ≡ member.old }
    ensures idle { P.tells → HaveRoom complex.old → complex.new ≡ complex.old }
    ensures lost { P.tells → AreBothLost complex.old → (result ≡ Ok tt) × (complex.new ≡ complex.old) }
{
    if member.checkpoint.tables.order >= TOO_HIGH || member.checkpoint.level >= TOO_HIGH {
        return take_seat(member, alloc, complex);
    }
    if !complex.pair.first.alive && !complex.pair.second.alive {
        return Ok(());
    }
    member.primary(complex)
}
