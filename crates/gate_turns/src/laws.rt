//! What calls of the shared value leave to the others.
ghost use Rattle.gate_turns.specs.Actors.{FailedTakeoversMayGoBack, LinesAreNamed, OthersLeaveGroups};
ghost use Rattle.gate_turns.specs.Actors.{OwnLeaveGroups, SaysForMayGoBack, TakeoversMayGoBack};
ghost use Rattle.gate_turns.specs.Busy.{BusyIsKnown, BusyStays};
ghost use Rattle.gate_turns.specs.Examples.{LinesAreTheirs};
ghost use Rattle.gate_turns.specs.Laws.{BatchesLeaveCounts, CallsMayGoBack, ClosingsTell, CopyActsCount};
ghost use Rattle.gate_turns.specs.Laws.{FreesMayGoBack, GivesUpMayGoBack, HasBegun, ItselfMayGoBack};
ghost use Rattle.gate_turns.specs.Laws.{KeepsMayGoBack, LossesCount, OneByOne, OnlyClosingsTell, OpensMayGoBack};
ghost use Rattle.gate_turns.specs.Laws.{PairActsCount, PassingLeavesGroups, PrintsMayGoBack, PutsMayGoBack};
ghost use Rattle.gate_turns.specs.Laws.{ReadsMayGoBack, RecoversMayGoBack, ReservesMayGoBack, SaysMayGoBack};
ghost use Rattle.gate_turns.specs.Laws.{SeizesMayGoBack, SpendsMayGoBack, StopsMayGoBack, SyncsMayGoBack};
ghost use Rattle.gate_turns.specs.Laws.{TriesMayGoBack, UnsyncedAsTheyAre, WritesMayGoBack};
ghost use Rattle.gate_turns.specs.Losses.{ArmsLeaveAllElse, FirstLossesMayGoBack, LossesAgainMayGoBack};
ghost use Rattle.gate_turns.specs.Losses.{LossesLeaveDesks, LossesLeaveHistory, LossesSpareHolders};
ghost use Rattle.gate_turns.specs.Renewals.{RenewalsLeaveCounts, RenewalsLeaveDesks, RenewalsLeaveHistory};
ghost use Rattle.gate_turns.specs.Untouched.{BooksAreQuiet, CallsAreQuiet, FatesAreQuiet, GivesUpAreQuiet};
ghost use Rattle.gate_turns.specs.Untouched.{KeepsBeginOwn, LogsBeginOwn, PrintsAreQuiet, ReservesAreQuiet};
ghost use Rattle.gate_turns.specs.Untouched.{SaysChangeNamed, SpoolActsAreQuiet};
ghost use Rattle.mas_complex.specs.Parts.{shown_of};

use mas_complex::{Complex, Steady};
use spool_plant::Plant;

/// A value may be given back as it was taken, and after several calls where it may be after each.
pub fn law_of_giving_back()
    ensures itself { ItselfMayGoBack }
    ensures one_by_one { OneByOne }
{}

/// After each call on the lock of the checkpoint the member that made it may give the value back. A member that leaves
/// the lock in the middle of a step frees it, and one that takes it again tries.
pub fn law_of_lock_calls()
    ensures tries { TriesMayGoBack }
    ensures frees { FreesMayGoBack }
    ensures stops { StopsMayGoBack }
    ensures seizes { SeizesMayGoBack }
    ensures spends { SpendsMayGoBack }
{}

/// After a batch of its own is kept without a write a member may give the value back.
pub fn law_of_kept_batches()
    ensures { KeepsMayGoBack }
{}

/// After each call on the copies, except one that keeps a batch, the member that holds the lock may give the value
/// back; so it may after it reserved a batch, or gave that up.
pub fn law_of_copy_calls()
    ensures copy { CopyActsCount }
    ensures pair { PairActsCount }
    ensures losses { LossesCount }
    ensures reserves { ReservesMayGoBack }
    ensures gives_up { GivesUpMayGoBack }
    ensures calls { CallsMayGoBack }
    ensures puts { PutsMayGoBack }
    ensures counts { BatchesLeaveCounts }
{}

/// After the member that holds the lock kept a batch of its own, or gave that of a stopped member its fate, it may give
/// the value back, where the batch leaves the groups of each other member that isn't stopped. So it does where no entry
/// is of such a member or resets it: where its entries are of one member, of the holder or of a stopped one, and reset
/// only stopped members. So a whole takeover, which takes the lock over first, may be one turn, whatever it answers.
pub fn law_of_fates()
    ensures passing { PassingLeavesGroups }
    ensures own { OwnLeaveGroups }
    ensures others { OthersLeaveGroups }
    ensures opens { OpensMayGoBack }
    ensures recovers { RecoversMayGoBack }
    ensures takeovers { TakeoversMayGoBack }
    ensures failed { FailedTakeoversMayGoBack }
{}

/// A member that said a line which begins with its own name may give the value back. So may one in whose pass the
/// operator said such a line. A line changes the lines of the member that its first word names, or the operator's.
pub fn law_of_lines()
    ensures says { SaysMayGoBack }
    ensures said_for { SaysForMayGoBack }
    ensures change { SaysChangeNamed }
    ensures named { LinesAreNamed }
{}

/// A member that printed a line may give the value back.
pub fn law_of_prints()
    ensures { PrintsMayGoBack }
{}

/// After each act on the spool a member may give the value back.
pub fn law_of_groups()
    ensures reads { ReadsMayGoBack }
    ensures syncs { SyncsMayGoBack }
    ensures writes { WritesMayGoBack }
    ensures unsynced { UnsyncedAsTheyAre }
{}

/// The loss of a device leaves all but marks, and the desk of a member that holds the lock: of that desk the pages, if
/// no other good copy reads them. So a copy that counts as lost may be lost again, by a line of the operator, whoever
/// holds the lock. One that counts as alive may be lost by the holder, and by another where the pages stay: nobody may
/// give back a value in which the pages were taken from another member that holds. An armed stop changes nothing but
/// the count of such calls.
pub fn law_of_losses()
    ensures desks { LossesLeaveDesks }
    ensures history { LossesLeaveHistory }
    ensures again { LossesAgainMayGoBack }
    ensures first { FirstLossesMayGoBack }
    ensures spared { LossesSpareHolders }
    ensures arms { ArmsLeaveAllElse }
{}

/// The replacement of a copy leaves the desk of each member but the one that replaces it, and what was kept, begun and
/// said, whatever it answers. Of the marks it leaves the first moment, and the counts of lost devices and of armed
/// stops. A copy that it formed counts as alive again: so only one who lends the value to nobody else may replace a
/// copy.
pub fn law_of_renewals()
    ensures desks { RenewalsLeaveDesks }
    ensures history { RenewalsLeaveHistory }
    ensures counts { RenewalsLeaveCounts }
{}

/// No call but one that says a line changes the lines of a member. None but those that begin a batch changes the
/// entries that a member began, and of these just the member's own.
pub fn law_of_quiet_calls()
    ensures books { BooksAreQuiet }
    ensures reserves { ReservesAreQuiet }
    ensures gives_up { GivesUpAreQuiet }
    ensures spool { SpoolActsAreQuiet }
    ensures prints { PrintsAreQuiet }
    ensures calls { CallsAreQuiet }
    ensures fates { FatesAreQuiet }
    ensures logs { LogsBeginOwn }
    ensures keeps { KeepsBeginOwn }
{}

/// What a member that isn't stopped has busy stays so, and its groups stay its own, while others take their turns: a
/// job keeps its phase and its text, an output its mark and its lines. Only a reset ends that, and none is of a member
/// that isn't stopped.
pub fn law_of_busy_things()
    ensures stays { BusyStays }
    ensures known { BusyIsKnown }
{}

/// A value whose plant tells its content began at a moment that is past, and the lines that stood on the console then
/// still do.
pub fn law_of_beginnings<P: Plant + Drop, C: Steady + Drop>(complex: &Complex<P, C>)
    ensures { P.tells → HasBegun (shown_of complex.now) }
{
    let _complex = complex;
}

/// The steps that lines tell are read from just the lines with which steps close, except those of members that were
/// stopped.
pub fn law_of_told_steps()
    ensures closings { ClosingsTell }
    ensures only { OnlyClosingsTell }
{}

/// Worked lines: whose they are.
pub fn examples_of_lines()
    ensures { LinesAreTheirs }
{}
