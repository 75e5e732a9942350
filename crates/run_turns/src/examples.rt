//! Worked examples, computed by the check.
ghost use Rattle.run_turns.specs.Examples.{DormantOnce, FreeByAnother, HoldOfOne, LockAndBusy, MemberNotUp, NoSuchMember, ResetsRefused, RestartOrPurge, SpentHoldFrees, StopOfNone, TakeoverFrees, TwoMembers};
ghost use Rattle.run_turns.specs.GivenExamples.{PiecesAreWhatIsSaid, QueueRefuses, RunEndsInALine, RunGoesOnAfterAStop};
ghost use Rattle.run_turns.specs.LineExamples.{JobIsGotOnce, JobIsSentOn, StopAtTheAck, StopBeforeTheAck};
ghost use Rattle.run_turns.specs.PrintExamples.{PaperGoesOnAtTheMark, PrintingIsTakenOver};
ghost use Rattle.run_turns.specs.ReplaceExamples.{CopyIsNotReplaced, CopyIsReplaced, ReplacedUnderLock};
ghost use Rattle.run_turns.specs.StopExamples.{DeckStopsAnywhere, FlightIsSettled, LockIsFreeInTheMiddle, StartFindsAlike, StoppedHolderHolds};

/// What scripts of several members say: the lock from one line to another, stops, resets and a takeover, a hold that is
/// spent, and dormancy.
pub fn examples_of_members()
    ensures busy { LockAndBusy }
    ensures down { MemberNotUp }
    ensures takeover { TakeoverFrees }
    ensures refused { ResetsRefused }
    ensures restart { RestartOrPurge }
    ensures hold { HoldOfOne }
    ensures spent { SpentHoldFrees }
    ensures dormant { DormantOnce }
    ensures none { NoSuchMember }
    ensures two { TwoMembers }
    ensures free { FreeByAnother }
    ensures stop { StopOfNone }
{}

/// A member that stops at each act of a deck, with what a takeover finds, what a start would find, and who holds the
/// lock.
pub fn examples_of_stops()
    ensures deck { DeckStopsAnywhere }
    ensures settled { FlightIsSettled }
    ensures start { StartFindsAlike }
    ensures lock { LockIsFreeInTheMiddle }
    ensures holds { StoppedHolderHolds }
{}

/// A member that stops as it prints, and another that prints on: what they say, and what stands on their papers.
pub fn examples_of_printing()
    ensures console { PrintingIsTakenOver }
    ensures paper { PaperGoesOnAtTheMark }
{}

/// What a run comes to by the pieces that its lines gave, right or not: what is said and kept, the scene after a stop,
/// and the line in which it ends.
pub fn examples_of_given_pieces()
    ensures said { PiecesAreWhatIsSaid }
    ensures refused { QueueRefuses }
    ensures goes_on { RunGoesOnAfterAStop }
    ensures ends { RunEndsInALine }
{}

/// Members that serve a line to another node: a job that goes, one that comes twice, and a member that stops before it
/// has acknowledged one.
pub fn examples_of_lines()
    ensures goes { JobIsSentOn }
    ensures comes { JobIsGotOnce }
    ensures stops { StopAtTheAck }
    ensures before { StopBeforeTheAck }
{}

/// A copy that is replaced, one that isn't, and a holder of the lock that holds on.
pub fn examples_of_replacing()
    ensures replaced { CopyIsReplaced }
    ensures refused { CopyIsNotReplaced }
    ensures lock { ReplacedUnderLock }
{}
