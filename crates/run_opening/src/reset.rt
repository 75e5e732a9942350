//! Restart of all members, as the first batch of a warm run.
ghost use Rattle.std.specs.Prelude.{◌≡◌, ℕ, ◌+◌, ◌≤◌, ◌<◌, ◌^◌, [], length, true, false, None, OnOk, IsErrOf};
ghost use Rattle.mas_types.specs.Ids.{nobody};
ghost use Rattle.mas_types.specs.declared.queues.Queue.{Queue};
ghost use Rattle.spool_volumes.specs.Volumes.{AreRoomy};
ghost use Rattle.ckpt_tables.specs.Shape.{HasSpelling};
ghost use Rattle.duplex_pair.specs.Halves.{SomeAlive};
ghost use Rattle.duplex_pair.specs.Outcomes.{least_room};
ghost use Rattle.mas_complex.specs.Journals.{end_of};
ghost use Rattle.mas_complex.specs.Past.{noted_by, values_of};
ghost use Rattle.mas_complex.specs.CallCounts.{pair_of};
ghost use Rattle.queue_effect.specs.Standing.{AreFit};
ghost use Rattle.queue_telling.specs.Orders.{HaveOrders};
ghost use Rattle.queue_telling.specs.Telling.{Tell, TellSound};
ghost use Rattle.member_node.specs.Batches.{CanDraw, DrawsAnew, HasDone};
ghost use Rattle.member_node.specs.Copies.{IsAtRest, first_of, second_of};
ghost use Rattle.member_node.specs.Reads.{IsSettle};
ghost use Rattle.member_node.specs.declared.member.NodeNo.TheVariants as no_node;
ghost use Rattle.run_opening.specs.Resets.{restart_entries, HasReset};
ghost use Rattle.member_steps.specs.Steps.{IsAtLock};
ghost use Rattle.run_opening.specs.Shows.{QuietFor};

use mas_complex::{Complex, Steady};
use mas_types::{Command, NoMemory};
use member_node::{Member, NodeNo};
use queue_texts::law_of_texts;
use spool_plant::Plant;
use std::alloc::Global;

// Does Restart on the operator's tables.
fn give_restart(member: &mut Member, alloc: Global) -> Result<(), NoMemory>
    requires id { member.old.id ≡ nobody }
    requires nothing { member.old.batch ≡ [] }
    requires spelling { HasSpelling member.old.checkpoint.tables }
    requires fit { AreFit member.old.checkpoint.tables }
    requires sound { TellSound member.old.checkpoint.tables }
    requires here { member.old.behind ≡ false }
    requires order { member.old.checkpoint.tables.order + 32 < 2 ^ 63 }
    ensures id { member.new.id ≡ member.old.id }
    ensures room { member.new.room ≡ member.old.room }
    ensures behind { member.new.behind ≡ member.old.behind }
    ensures levels { member.new.checkpoint.levels ≡ member.old.checkpoint.levels }
    ensures level { member.new.checkpoint.level ≡ member.old.checkpoint.level }
    ensures pages { member.new.checkpoint.pages ≡ member.old.checkpoint.pages }
    ensures spelling { HasSpelling member.new.checkpoint.tables }
    ensures fit { AreFit member.new.checkpoint.tables }
    ensures entries { OnOk result (member.new.batch ≡ restart_entries) }
    ensures done { OnOk result ((Q : Queue) → HasDone Q member.old.batch member.old.checkpoint
        → HasDone Q member.new.batch member.new.checkpoint) }
    ensures sound { OnOk result (TellSound member.new.checkpoint.tables) }
    ensures config { member.new.checkpoint.tables.config ≡ member.old.checkpoint.tables.config }
    ensures order { member.new.checkpoint.tables.order ≤ member.old.checkpoint.tables.order + 32 }
{
    member.do_command(alloc, 0, Command::Restart)
}

// Makes room for the member's batch, where that changes a page and a copy that counts as alive has none. Else nothing
// is done.
fn make_room<P: Plant + Drop, C: Steady + Drop>(
    member: &Member,
    complex: &mut Complex<P, C>,
) -> Result<(), NodeNo>
    requires id { member.now.id ≡ nobody }
    requires here { member.now.behind ≡ false }
    requires draws { CanDraw member.now.checkpoint }
    requires free { complex.old.book.holder ≡ nobody }
    requires none { complex.old.current ≡ None }
    requires some { SomeAlive complex.old.pair.first.alive complex.old.pair.second.alive }
    requires rests1 { IsAtRest P.tells (first_of complex.old) member.now.checkpoint.pages }
    requires rests2 { IsAtRest P.tells (second_of complex.old) member.now.checkpoint.pages }
    ensures base { complex.new.base ≡ complex.old.base }
    ensures printed { complex.new.printed ≡ complex.old.printed }
    ensures since { complex.new.since ≡ complex.old.since }
    ensures renewals { complex.new.renewals ≡ complex.old.renewals }
    ensures book { complex.new.book ≡ complex.old.book }
    ensures journal { complex.new.journal ≡ complex.old.journal }
    ensures current { complex.new.current ≡ complex.old.current }
    ensures placed { complex.new.placed ≡ complex.old.placed }
    ensures level { complex.new.level ≡ complex.old.level }
    ensures had { complex.new.had ≡ complex.old.had }
    ensures rests1 { OnOk result (IsAtRest P.tells (first_of complex.new) member.now.checkpoint.pages) }
    ensures rests2 { OnOk result (IsAtRest P.tells (second_of complex.new) member.now.checkpoint.pages) }
    ensures room1 { OnOk result (complex.new.pair.first.alive ≡ true → DrawsAnew member.now.checkpoint
        → 1 ≤ C.room complex.new.pair.first.copy) }
    ensures room2 { OnOk result (complex.new.pair.second.alive ≡ true → DrawsAnew member.now.checkpoint
        → 1 ≤ C.room complex.new.pair.second.copy) }
    ensures settle { IsSettle P.tells 0 (pair_of complex.old) (pair_of complex.new) result }
    ensures operator { IsErrOf result no_node.Halted → ⊥ }
    ensures same { (DrawsAnew member.now.checkpoint → ⊥) → complex.new ≡ complex.old }
    ensures roomy { 1 ≤ least_room complex.old.pair.first.alive complex.old.pair.second.alive
        (C.room complex.old.pair.first.copy) (C.room complex.old.pair.second.copy) → complex.new ≡ complex.old }
{
    if !member.draws_anew() {
        return Ok(());
    }
    member.primary(complex)
}

/// Gives Restart as the first batch, by the operator, while nobody holds the lock. Where it changes a page and a
/// copy has no room for a put, room is made first. It is kept once each copy that is left has it. All memory that
/// its write needs is taken before.
pub(crate) fn restart<P: Plant + Drop, C: Steady + Drop>(
    operator: &mut Member,
    alloc: Global,
    complex: &mut Complex<P, C>,
) -> Result<(), NodeNo>
    requires id { operator.old.id ≡ nobody }
    requires here { operator.old.behind ≡ false }
    requires some { SomeAlive complex.old.pair.first.alive complex.old.pair.second.alive }
    requires free { complex.old.book.holder ≡ nobody }
    requires journal { complex.old.journal.batches ≡ [] }
    requires since { complex.old.since ≡ (P.view complex.old.plant).now }
    requires at_lock { IsAtLock complex.old.current complex.old.placed operator.old.batch
        operator.old.checkpoint operator.old.room }
    requires same_level { complex.old.level ≡ operator.old.checkpoint.level }
    requires queue { Tell operator.old.checkpoint.tables complex.old.base }
    requires fit { AreFit operator.old.checkpoint.tables }
    requires orders { HaveOrders operator.old.checkpoint.tables }
    requires sound { TellSound operator.old.checkpoint.tables }
    requires rests1 { IsAtRest P.tells (first_of complex.old) operator.old.checkpoint.pages }
    requires rests2 { IsAtRest P.tells (second_of complex.old) operator.old.checkpoint.pages }
    requires order { operator.old.checkpoint.tables.order < 2 ^ 62 }
    requires level { complex.old.level + 1 < 2 ^ 63 }
    requires roomy { P.tells → AreRoomy (P.view complex.old.plant) complex.old.base.config }
    ensures base { complex.new.base ≡ complex.old.base }
    ensures since { complex.new.since ≡ complex.old.since }
    ensures renewals { complex.new.renewals ≡ complex.old.renewals }
    ensures book { complex.new.book ≡ complex.old.book }
    ensures id { operator.new.id ≡ operator.old.id }
    ensures unreserved { OnOk result (complex.new.reserved ≡ None) }
    ensures reset { HasReset P.tells (end_of complex.new.placed complex.new.current complex.new.journal.batches)
        (pair_of complex.old) (pair_of complex.new) result }
    ensures fresh { OnOk result (length complex.new.journal.batches ≡ 1) }
    ensures printed { OnOk result (complex.new.printed ≡ complex.old.printed) }
    ensures noted { OnOk result ((m : ℕ) → 0 < m
        → noted_by (values_of complex.new.had) m ≡ noted_by (values_of complex.old.had) m) }
    ensures quiet { OnOk result (QuietFor complex.new (length operator.old.checkpoint.pages)) }
    ensures config { operator.new.checkpoint.tables.config ≡ operator.old.checkpoint.tables.config }
{
    let Ok(()) = give_restart(operator, alloc) else {
        return Err(NodeNo::NoMemory);
    };
    make_room(operator, complex)?;
    complex.kept_texts();
    law_of_texts();
    let Ok(draft) = operator.ready(alloc, complex) else {
        return Err(NodeNo::NoMemory);
    };
    operator.write(complex, &draft)?;
    Ok(())
}
