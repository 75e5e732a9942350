//! A step whose commands are done: they are written, and its lines are said.
ghost use Rattle.std.specs.Prelude.{◌≡◌, ◌+◌, ◌≤◌, ◌<◌, ◌^◌, All, None, length, true, false, OnOk};
ghost use Rattle.mas_types.specs.Limits.{members_most};
ghost use Rattle.mas_complex.specs.Journals.{begun, end_of};
ghost use Rattle.mas_complex.specs.Locking.{MayAct};
ghost use Rattle.queue_telling.specs.Telling.{TellSound};
ghost use Rattle.member_node.specs.Standing.{AreFit};
ghost use Rattle.member_node.specs.Batches.{CanDraw, HasDone};
ghost use Rattle.member_node.specs.Copies.{IsAtRest, first_of, second_of};
ghost use Rattle.member_steps.specs.Counting.{HasCounted};
ghost use Rattle.member_steps.specs.Noting.{KeepsNotes};
ghost use Rattle.member_steps.specs.Saying.{TellKept};
ghost use Rattle.member_steps.specs.Steps.{AreAllKept, IsBetween, IsStep};
ghost use Rattle.mas_complex.specs.Paper.{printed_after};
ghost use Rattle.mas_complex.specs.CallCounts.{pair_of};
ghost use Rattle.mas_complex.specs.Parts.{parts_of};
ghost use Rattle.mas_complex.specs.Begins.{HasTextsWith, IsUntoldOf, MayBeginOf, kept_queue};
ghost use Rattle.member_node.specs.Writes.{journal_at};

use crate::keeping::keep_batch;
use crate::telling::tell_lines;
use mas_complex::{Complex, Steady};
use mas_types::Lines;
use member_node::{Member, NodeNo};
use spool_plant::Plant;
use std::alloc::Global;

/// Writes the commands that a member has done, as one batch, to both copies, and says lines then. The member holds the
/// lock, or is the operator while nobody does. All memory is taken before the first write. The texts of the queue with
/// the batch stand on the spool volumes, except those with a group on a volume that is lost. Each step that a line
/// tells is kept before, as far as it has been given. Once the batch is kept the member has noted its pages.
///
/// NoMemory leaves the shared value's journal and the copies as they were, BothLost and Halted perhaps the batch in
/// flight. After any of the four errors the member can't go on: its tables may be ahead of the copies.
pub fn play_batch<P: Plant + Drop, C: Steady + Drop>(
    member: &mut Member,
    alloc: Global,
    complex: &mut Complex<P, C>,
    lines: &Lines,
) -> Result<(), NodeNo>
    requires by { member.old.id.0 ≤ members_most }
    requires may { MayAct complex.old.book member.old.id }
    requires some { 1 ≤ length member.old.batch }
    requires own { All (λ e. e.by ≡ member.old.id) member.old.batch }
    requires none { complex.old.current ≡ None }
    requires unplaced { complex.old.placed ≡ false }
    requires here { member.old.behind ≡ false }
    requires draws { CanDraw member.old.checkpoint }
    requires fit { AreFit member.old.checkpoint.tables }
    requires same_level { P.tells → complex.old.level ≡ member.old.checkpoint.level }
    requires done { P.tells → HasDone (kept_queue complex.old) member.old.batch member.old.checkpoint }
    requires small { complex.old.level + 1 < 2 ^ 63 }
    requires rests1 { IsAtRest P.tells (first_of complex.old) member.old.checkpoint.pages }
    requires rests2 { IsAtRest P.tells (second_of complex.old) member.old.checkpoint.pages }
    requires sound { P.tells → TellSound member.old.checkpoint.tables }
    requires texts { P.tells → HasTextsWith complex.old member.old.batch }
    requires kept { P.tells → TellKept lines.now complex.old.journal.batches (P.view complex.old.plant).now }
    requires untold { P.tells → IsUntoldOf complex.old member.old.batch }
    requires allowed { P.tells → MayBeginOf complex.old member.old.batch }
    requires level { member.old.checkpoint.level + 1 < 2 ^ 63 }
    requires room1 { complex.old.pair.first.alive ≡ true → 1 ≤ C.room complex.old.pair.first.copy }
    requires room2 { complex.old.pair.second.alive ≡ true → 1 ≤ C.room complex.old.pair.second.copy }
    ensures base { complex.new.base ≡ complex.old.base }
    ensures since { complex.new.since ≡ complex.old.since }
    ensures renewals { complex.new.renewals ≡ complex.old.renewals }
    ensures book { complex.new.book ≡ complex.old.book }
    ensures id { member.new.id ≡ member.old.id }
    ensures room { member.new.room ≡ member.old.room }
    ensures behind { member.new.behind ≡ false }
    ensures tables { member.new.checkpoint.tables ≡ member.old.checkpoint.tables }
    ensures step { IsStep P.tells lines.now
        (begun (P.view complex.old.plant).now member.old.id member.old.batch)
        (journal_at complex.old.journal.batches (pair_of complex.old))
        (journal_at (end_of complex.new.placed complex.new.current complex.new.journal.batches) (pair_of complex.new))
        result }
    ensures printed { OnOk result (complex.new.printed
        ≡ printed_after member.old.id member.old.batch complex.old.printed) }
    ensures unreserved { OnOk result (complex.new.reserved ≡ None) }
    ensures between { OnOk result (IsBetween P.tells (parts_of complex.new) member.new.batch member.new.checkpoint) }
    ensures rests1 { OnOk result (IsAtRest P.tells (first_of complex.new) member.new.checkpoint.pages) }
    ensures rests2 { OnOk result (IsAtRest P.tells (second_of complex.new) member.new.checkpoint.pages) }
    ensures kept { OnOk result (AreAllKept complex.old.journal.batches (P.view complex.old.plant).now
        → AreAllKept complex.new.journal.batches (P.view complex.new.plant).now) }
    ensures level { OnOk result (member.new.checkpoint.level ≤ member.old.checkpoint.level + 1) }
    ensures reached { OnOk result (complex.new.level ≤ complex.old.level + 1) }
    ensures notes { KeepsNotes complex.old complex.new member.old member.new result }
    ensures counts { HasCounted member.old.id member.old.batch complex.old.printed complex.new.printed result }
{
    keep_batch(member, alloc, complex)?;
    tell_lines(member, complex, lines)
}
