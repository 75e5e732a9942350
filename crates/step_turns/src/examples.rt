//! Worked examples, computed by the check.
ghost use Rattle.step_turns.specs.Examples.{CommandIsOneSitting, CopiesArePrinted, DeckIsTwoSittings, DeckSpendsTheLock, DeckUnderLock, FullBatchIsWritten, FullSpoolClosesTheDeck, FullSpoolRefusesTheUnit, LostPrinterRefusesTheUnit, LostTextRefusesTheUnit, LostVolumeDropsTheDeck, LostVolumeRefusesTheUnit, OneUnitIsDone, NullJobIsThreeSittings, OthersActBetween, SpentHoldIsGivenUp, SpentHoldUnderLock};
ghost use Rattle.step_turns.specs.LineExamples.{AckIsGiven, BadCardClosesTheLine, FrameIsGiven, FullSpoolClosesTheLine, GapIsPassedOver, GoneTextClosesTheLine, JobAfterAck, JobComesTwice, JobComesUnderLock, JobIsSent, JobIsThere, JobStays, LastNumberIsKept, LostLineKeepsTheJob, LostLineTakesNothing, LostVolumeClosesTheLine, OtherMemberGetsIt, UnknownNodeClosesTheLine};

/// How steps are cut: a deck and a command, each also under LOCK or with a lost volume; work with a job that does
/// nothing and with one of two outputs; a hold that is spent between two units; and what refuses a unit.
pub fn examples_of_sittings()
    ensures deck { DeckIsTwoSittings }
    ensures deck_under_lock { DeckUnderLock }
    ensures deck_spends { DeckSpendsTheLock }
    ensures deck_full { FullSpoolClosesTheDeck }
    ensures deck_lost { LostVolumeDropsTheDeck }
    ensures command { CommandIsOneSitting }
    ensures between { OthersActBetween }
    ensures null { NullJobIsThreeSittings }
    ensures one { OneUnitIsDone }
    ensures hold { SpentHoldIsGivenUp }
    ensures hold_under_lock { SpentHoldUnderLock }
    ensures batch { FullBatchIsWritten }
    ensures copies { CopiesArePrinted }
    ensures full { FullSpoolRefusesTheUnit }
    ensures volume { LostVolumeRefusesTheUnit }
    ensures text { LostTextRefusesTheUnit }
    ensures printer { LostPrinterRefusesTheUnit }
{}

/// How a step is cut that serves a line: a job that goes and is acknowledged or not, one that comes twice, also under
/// LOCK, and after another frame; a number that is left out; and all that closes the step otherwise.
pub fn examples_of_lines()
    ensures sent { JobIsSent }
    ensures stays { JobStays }
    ensures frame { FrameIsGiven }
    ensures last { LastNumberIsKept }
    ensures twice { JobComesTwice }
    ensures ack { AckIsGiven }
    ensures there { JobIsThere }
    ensures under_lock { JobComesUnderLock }
    ensures after_ack { JobAfterAck }
    ensures gap { GapIsPassedOver }
    ensures card { BadCardClosesTheLine }
    ensures node { UnknownNodeClosesTheLine }
    ensures full { FullSpoolClosesTheLine }
    ensures volume { LostVolumeClosesTheLine }
    ensures other { OtherMemberGetsIt }
    ensures nothing { LostLineTakesNothing }
    ensures keeps { LostLineKeepsTheJob }
    ensures text { GoneTextClosesTheLine }
{}
