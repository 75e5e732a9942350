//! A batch of a step that is kept, with nothing said.
ghost use Rattle.std.specs.Prelude.{◌≡◌, ◌+◌, ◌≤◌, ◌<◌, ◌^◌, All, None, length, true, false, OnOk};
ghost use Rattle.mas_types.specs.Limits.{members_most};
ghost use Rattle.mas_complex.specs.Journals.{begun, end_of};
ghost use Rattle.mas_complex.specs.Locking.{MayAct};
ghost use Rattle.queue_telling.specs.Telling.{TellSound};
ghost use Rattle.member_node.specs.Standing.{AreFit};
ghost use Rattle.member_node.specs.Batches.{CanDraw, HasDone};
ghost use Rattle.member_node.specs.Copies.{IsAtRest, first_of, second_of};
ghost use Rattle.member_steps.specs.Counting.{HasCounted};
ghost use Rattle.member_steps.specs.Keeping.{IsOnCopies, KeepLeaves};
ghost use Rattle.member_steps.specs.Noting.{KeepsNotes};
ghost use Rattle.member_steps.specs.Steps.{AreAllKept, IsBetween};
ghost use Rattle.mas_complex.specs.Paper.{printed_after};
ghost use Rattle.mas_complex.specs.CallCounts.{pair_of};
ghost use Rattle.mas_complex.specs.Parts.{parts_of};
ghost use Rattle.mas_complex.specs.Begins.{HasTextsWith, IsUntoldOf, MayBeginOf, kept_queue};

use mas_complex::{Complex, Steady};
use member_node::{Member, NodeNo};
use spool_plant::Plant;
use std::alloc::Global;

/// Keeps the member's batch, one of several of a step: nothing is said.
///
/// BothLost comes only where both copies count as lost at the end of the call, Halted only where the member was stopped
/// in it: the batch is in flight then. NoMemory leaves it unbegun.
pub fn keep_batch<P: Plant + Drop, C: Steady + Drop>(
    member: &mut Member,
    alloc: Global,
    complex: &mut Complex<P, C>,
) -> Result<(), NodeNo>
    requires by { member.old.id.0 ≤ members_most }
    requires may { MayAct complex.old.book member.old.id }
    requires some { 1 ≤ length member.old.batch }
    requires own { All (λ e. e.by ≡ member.old.id) member.old.batch }
    requires none { complex.old.current ≡ None }
    requires unplaced { complex.old.placed ≡ false }
    requires here { member.old.behind ≡ false }
    requires draws { CanDraw member.old.checkpoint }
    requires fit { AreFit member.old.checkpoint.tables }
    requires same_level { P.tells → complex.old.level ≡ member.old.checkpoint.level }
    requires done { P.tells → HasDone (kept_queue complex.old) member.old.batch member.old.checkpoint }
    requires small { complex.old.level + 1 < 2 ^ 63 }
    requires rests1 { IsAtRest P.tells (first_of complex.old) member.old.checkpoint.pages }
    requires rests2 { IsAtRest P.tells (second_of complex.old) member.old.checkpoint.pages }
    requires untold { P.tells → IsUntoldOf complex.old member.old.batch }
    requires allowed { P.tells → MayBeginOf complex.old member.old.batch }
    requires texts { P.tells → HasTextsWith complex.old member.old.batch }
    requires sound { P.tells → TellSound member.old.checkpoint.tables }
    requires level { member.old.checkpoint.level + 1 < 2 ^ 63 }
    requires room1 { complex.old.pair.first.alive ≡ true → 1 ≤ C.room complex.old.pair.first.copy }
    requires room2 { complex.old.pair.second.alive ≡ true → 1 ≤ C.room complex.old.pair.second.copy }
    ensures base { complex.new.base ≡ complex.old.base }
    ensures since { complex.new.since ≡ complex.old.since }
    ensures renewals { complex.new.renewals ≡ complex.old.renewals }
    ensures book { complex.new.book ≡ complex.old.book }
    ensures id { member.new.id ≡ member.old.id }
    ensures room { member.new.room ≡ member.old.room }
    ensures here { member.new.behind ≡ false }
    ensures tables { member.new.checkpoint.tables ≡ member.old.checkpoint.tables }
    ensures acts { IsOnCopies P.tells member.old.id.0 (pair_of complex.old) (pair_of complex.new) result }
    ensures leaves { KeepLeaves result complex.old.journal.batches
        (end_of complex.new.placed complex.new.current complex.new.journal.batches)
        (begun (P.view complex.old.plant).now member.old.id member.old.batch) (P.view complex.new.plant).now }
    ensures printed { OnOk result (complex.new.printed
        ≡ printed_after member.old.id member.old.batch complex.old.printed) }
    ensures unreserved { OnOk result (complex.new.reserved ≡ None) }
    ensures between { OnOk result (IsBetween P.tells (parts_of complex.new) member.new.batch member.new.checkpoint) }
    ensures rests1 { OnOk result (IsAtRest P.tells (first_of complex.new) member.new.checkpoint.pages) }
    ensures rests2 { OnOk result (IsAtRest P.tells (second_of complex.new) member.new.checkpoint.pages) }
    ensures kept { OnOk result (AreAllKept complex.old.journal.batches (P.view complex.old.plant).now
        → AreAllKept complex.new.journal.batches (P.view complex.new.plant).now) }
    ensures level { OnOk result (member.new.checkpoint.level ≤ member.old.checkpoint.level + 1) }
    ensures reached { OnOk result (complex.new.level ≤ complex.old.level + 1) }
    ensures notes { KeepsNotes complex.old complex.new member.old member.new result }
    ensures counts { HasCounted member.old.id member.old.batch complex.old.printed complex.new.printed result }
{
    let Ok(draft) = member.ready(alloc, complex) else {
        return Err(NodeNo::NoMemory);
    };
    member.write(complex, &draft)?;
    Ok(())
}
