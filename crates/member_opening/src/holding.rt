//! A member that got the lock takes in what the copies have.
ghost use Rattle.std.specs.Prelude.{◌≡◌, ◌≤◌, ◌<◌, length, true, false, OnOk};
ghost use Rattle.mas_types.specs.Limits.{members_most};
ghost use Rattle.mas_complex.specs.Locking.{MayAct};
ghost use Rattle.member_node.specs.Copies.{IsAtRest, first_of, second_of};
ghost use Rattle.member_node.specs.Reads.{AreLow, IsCalmOf, IsLowOf, too_high};
ghost use Rattle.member_steps.specs.Noting.{HasNotes, KeepsNotes};
ghost use Rattle.member_steps.specs.Steps.{IsAtLock, IsBetween, IsToldSound};
ghost use Rattle.mas_complex.specs.CallCounts.{pair_of};
ghost use Rattle.mas_complex.specs.Parts.{parts_of};
ghost use Rattle.mas_complex.specs.Begins.{kept_queue};
ghost use Rattle.member_decks.specs.Keeping.{IsOnCopies};

use mas_complex::{Complex, Steady};
use member_node::{Member, NodeNo};
use spool_plant::Plant;
use std::alloc::Global;

/// What a member does that got the lock, before its first command: it reads the copies, brings its tables up to them,
/// and makes room for a put. Its checkpoint may be of any time. Where content is told its tables tell the queue after
/// the kept batches then.
///
/// BothLost comes only where both copies count as lost at the end of the call, Halted only where the member was stopped
/// in it; NoMemory is want of memory for the tables. After an error the member's tables are those from before, or newer
/// ones. The journal, the volumes and the console are as they were.
pub fn take_hold<P: Plant + Drop, C: Steady + Drop>(
    member: &mut Member,
    alloc: Global,
    complex: &mut Complex<P, C>,
) -> Result<(), NodeNo>
    requires by { member.old.id.0 ≤ members_most }
    requires may { MayAct complex.old.book member.old.id }
    requires at_lock { IsAtLock complex.old.current complex.old.placed member.old.batch member.old.checkpoint
        member.old.room }
    requires calm1 { IsCalmOf (first_of complex.old) (length member.old.room) }
    requires calm2 { IsCalmOf (second_of complex.old) (length member.old.room) }
    requires low1 { IsLowOf P.tells (first_of complex.old) member.old.checkpoint.tables.config
        (length complex.old.journal.batches) }
    requires low2 { IsLowOf P.tells (second_of complex.old) member.old.checkpoint.tables.config
        (length complex.old.journal.batches) }
    requires sound { P.tells → IsToldSound (kept_queue complex.old) }
    requires config { complex.old.base.config ≡ member.old.checkpoint.tables.config }
    requires level { complex.old.level < too_high }
    requires noted { HasNotes complex.old member.old }
    ensures base { complex.new.base ≡ complex.old.base }
    ensures printed { complex.new.printed ≡ complex.old.printed }
    ensures since { complex.new.since ≡ complex.old.since }
    ensures renewals { complex.new.renewals ≡ complex.old.renewals }
    ensures book { complex.new.book ≡ complex.old.book }
    ensures journal { complex.new.journal ≡ complex.old.journal }
    ensures current { complex.new.current ≡ complex.old.current }
    ensures reserved { complex.new.reserved ≡ complex.old.reserved }
    ensures placed { complex.new.placed ≡ complex.old.placed }
    ensures level { complex.new.level ≡ complex.old.level }
    ensures id { member.new.id ≡ member.old.id }
    ensures acts { IsOnCopies P.tells member.old.id.0 (pair_of complex.old) (pair_of complex.new) result }
    ensures notes { KeepsNotes complex.old complex.new member.old member.new result }
    ensures here { OnOk result (member.new.behind ≡ false) }
    ensures between { OnOk result (IsBetween P.tells (parts_of complex.new) member.new.batch member.new.checkpoint) }
    ensures rests1 { OnOk result (IsAtRest P.tells (first_of complex.new) member.new.checkpoint.pages) }
    ensures rests2 { OnOk result (IsAtRest P.tells (second_of complex.new) member.new.checkpoint.pages) }
    ensures room1 { OnOk result (complex.new.pair.first.alive ≡ true → 1 ≤ C.room complex.new.pair.first.copy) }
    ensures room2 { OnOk result (complex.new.pair.second.alive ≡ true → 1 ≤ C.room complex.new.pair.second.copy) }
    ensures many { OnOk result (length member.new.room ≡ length member.new.checkpoint.pages) }
    ensures config { OnOk result (member.new.checkpoint.tables.config ≡ member.old.checkpoint.tables.config) }
    ensures order { OnOk result (member.new.checkpoint.tables.order < too_high) }
    ensures low { OnOk result (P.tells
        → AreLow member.old.checkpoint.tables.config (length complex.old.journal.batches)
        member.new.checkpoint.tables) }
    ensures high { OnOk result (member.new.checkpoint.level < too_high) }
{
    member.read_in(alloc, complex)?;
    member.primary(complex)
}
