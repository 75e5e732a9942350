//! Worked examples: small runs of events, computed by the check.
ghost use Rattle.member_core.specs.Examples.{OneGateTellsNothing, OldGateDrops, NewGateKeeps, SecondLockWaits, WholeTurnIsTold, BegunBatchTellsNothing, StartKeepsWhatACopyReads, UnsureGateFallsBack, AwayMayLock, LockedReadsFirst, FirstReadIsFollowed, SecondReadIsFollowed, ReadyGivesCommands, BatchIsLogged, FirstLogIsFollowed, SecondLogIsFollowed, FirstOpeningIsFollowed, WrittenBatchIsTold, StoppedIsTakenOver, CrashIsFollowedByStart, RenewedCopyIsRead, BatchKeepsFromRenewing, NothingRenewsBothCopies};

/// A turn of a member: the lock, and when its step is told.
pub fn examples_of_turns()
    ensures second_lock { SecondLockWaits }
    ensures whole_turn { WholeTurnIsTold }
    ensures one_gate { OneGateTellsNothing }
    ensures begun_batch { BegunBatchTellsNothing }
{}

/// What becomes of the batch in flight at a stop or a crash.
pub fn examples_of_falls()
    ensures old_gate { OldGateDrops }
    ensures new_gate { NewGateKeeps }
    ensures start { StartKeepsWhatACopyReads }
    ensures unsure_gate { UnsureGateFallsBack }
{}

/// Which events are possible in which stage of a member.
pub fn examples_of_stages()
    ensures away { AwayMayLock }
    ensures locked { LockedReadsFirst }
    ensures first_read { FirstReadIsFollowed }
    ensures second_read { SecondReadIsFollowed }
    ensures ready { ReadyGivesCommands }
    ensures batch { BatchIsLogged }
    ensures first_log { FirstLogIsFollowed }
    ensures second_log { SecondLogIsFollowed }
    ensures first_opening { FirstOpeningIsFollowed }
    ensures written { WrittenBatchIsTold }
    ensures stopped { StoppedIsTakenOver }
    ensures crashed { CrashIsFollowedByStart }
{}

/// When a copy is written anew, and that it counts then.
pub fn examples_of_renewals()
    ensures renewed { RenewedCopyIsRead }
    ensures batch { BatchKeepsFromRenewing }
    ensures both { NothingRenewsBothCopies }
{}
