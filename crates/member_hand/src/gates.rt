//! How a member comes to the lock and leaves it, at the ends of a sitting.
ghost use Rattle.std.specs.Prelude.{◌≡◌, Ok, OnOk};
ghost use Rattle.mas_complex.specs.Parts.{parts_of};
ghost use Rattle.member_sittings.specs.Gates.{ActedOnCopies, AreBothLost, HaveRoom};
ghost use Rattle.member_sittings.specs.Sat.{seated_in};
ghost use Rattle.member_sittings.specs.Whole.{MaySit};
ghost use Rattle.step_turns.specs.declared.states.Grant.TheVariants.{ByLock};
ghost use Rattle.member_hand.specs.Enters.{MayEnter};
ghost use Rattle.member_hand.specs.Locks.{MayLeave, left_book, next_holder as next_holder_lem};

use mas_complex::{Complex, Steady};
use mas_types::MemberId;
use member_node::{Member, NodeNo};
use member_sittings::{SittingEnd, keep_seat, take_seat};
use spool_plant::Plant;
use std::alloc::Global;
use step_turns::{Grant, Holder, Release};

/// The member that has the lock takes its seat, and may sit in this step: it reads what the copies have, and makes room
/// for a batch. One that has the lock by the operator's LOCK is at its seat still: it makes room alone. Where content
/// is told it reads nothing, and where both copies have room, or both are lost, nothing is done.
///
/// BothLost comes only where both copies count as lost at the end of the call, Halted only where the member was stopped
/// in it; NoMemory is want of memory for the tables. The journal, the volumes and the console are as they were.
pub fn enter<P: Plant + Drop, C: Steady + Drop>(
    member: &mut Member,
    alloc: Global,
    complex: &mut Complex<P, C>,
    holder: Holder,
) -> Result<(), NodeNo>
    requires { MayEnter complex.old member.old holder }
    ensures frame { parts_of complex.new ≡ seated_in (parts_of complex.new) (parts_of complex.old) }
    ensures id { member.new.id ≡ member.old.id }
    ensures acts { ActedOnCopies member.old.id complex.old complex.new result }
    ensures seat { OnOk result (MaySit complex.new member.new holder) }
    ensures same { P.tells → holder.grant ≡ ByLock → member.new ≡ member.old }
    ensures idle { P.tells → holder.grant ≡ ByLock → HaveRoom complex.old → complex.new ≡ complex.old }
    ensures lost { P.tells → holder.grant ≡ ByLock → AreBothLost complex.old
        → (result ≡ Ok tt) × (complex.new ≡ complex.old) }
{
    match holder.grant {
        Grant::ForStep => take_seat(member, alloc, complex),
        Grant::ByLock => keep_seat(member, alloc, complex),
    }
}

/// What a member does with the lock at a sitting's end: so many commands of its hold are spent, and it keeps the lock,
/// or gives it up within its step or at the step's end.
pub fn leave<P: Plant + Drop, C: Steady + Drop>(
    complex: &mut Complex<P, C>,
    by: MemberId,
    end: &SittingEnd,
)
    requires { MayLeave complex.old by }
    ensures frame { parts_of complex.new
        ≡ record (parts_of complex.old) { book = left_book complex.old.book by end.now.given end.now.release } }
{
    let left = complex.hold_left(by);
    let spent = end.given.min(left as u64) as u16;
    complex.spend(by, spent);
    match end.release {
        Release::Keep => {}
        Release::Inner => {
            let _left = complex.free(by, true);
        }
        Release::Outer => {
            let _left = complex.free(by, false);
        }
    }
}

/// Who holds the lock after a sitting that gave so many commands: the next grant brings a whole hold, and the
/// operator's LOCK goes on with what is left.
pub fn next_holder(holder: Holder, whole: u16, given: u64) -> Holder
    ensures { result ≡ next_holder_lem holder whole given }
{
    let hold = match holder.grant {
        Grant::ForStep => whole,
        Grant::ByLock => (holder.hold as u64).saturating_sub(given) as u16,
    };
    Holder { hold, ..holder }
}
