//! One turn in which a member tries at the lock.
ghost use Rattle.std.specs.Prelude.{◌≡◌, true, false, None, OnOk};
ghost use Rattle.gate_turns.specs.Turning.{Serves, IsMemberOf, KeepsRest, OfEach, MayTry, HasTried};

use crate::laws::law_of_lock_calls;
use crate::turns::Turns;
use lock_cycle::LockNo;
use mas_complex::{Complex, Steady};
use mas_types::MemberId;
use spool_plant::Plant;

/// One turn in which the member tries at the lock of the checkpoint, inside a step or between two, and which is given
/// back whether or not it got it. After Ok the member remembers that it has the lock. The value is just as it was found
/// except for the try, and the answer is that value's book's. Down, Busy and Dormant come as `try_lock` of the book
/// says.
pub fn try_in_turn<P: Plant + Drop, C: Steady + Drop, T: Turns<Complex<P, C>>>(
    turns: &mut T,
    by: MemberId,
    inner: bool,
) -> Result<(), LockNo>
    requires free { T.held turns.old ≡ None }
    requires serves { Serves (T.bound turns.old) by.0 }
    requires member { IsMemberOf (T.memory turns.old false).base.config by }
    requires may { OfEach (T.finds turns.old) (λ x. MayTry x by) }
    requires rests { KeepsRest T.rests by inner }
    ensures free { T.held turns.new ≡ None }
    ensures bound { T.bound turns.new ≡ T.bound turns.old }
    ensures place { T.place turns.new ≡ T.place turns.old }
    ensures base { (T.memory turns.new false).base ≡ (T.memory turns.old false).base }
    ensures ok { OnOk result (((T.memory turns.new false).desk by.0).hold.locked ≡ true) }
    ensures turn { HasTried (T.finds turns.old) (T.finds turns.new) (T.follows (T.place turns.old)) by inner result }
{
    law_of_lock_calls();
    turns.turn();
    let tried = turns.value().try_lock(by, inner);
    turns.back();
    tried
}
