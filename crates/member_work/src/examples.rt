//! Worked examples, computed by the check.
ghost use Rattle.member_work.specs.Examples.{BothAreReset, CancelledJobIsPurged, CopyIsDone, CopyWaits, ErrorIsListed, FirstJobIsTaken, FullOutputsRefuseTheUnit, FullSpoolRefusesTheUnit, GoneTextRefusesTheUnit, HoldOfOneIsGivenUp, LinesFollowTheMark, LostPrinterRefusesTheUnit, LostVolumeRefusesTheUnit, NullStepIsDone, ScanIsListed, UnreadTextRefusesTheUnit};

/// Jobs that do nothing, that copy, that have an error, that are scanned or cancelled; two jobs, of which the first is
/// taken, and two that are reset in the middle; and what refuses a unit: a full spool, too many outputs, a volume or a
/// printer that is lost, and a text that is gone.
pub fn examples_of_work_steps()
    ensures null { NullStepIsDone }
    ensures hold { HoldOfOneIsGivenUp }
    ensures copy { CopyIsDone }
    ensures waits { CopyWaits }
    ensures lines { LinesFollowTheMark }
    ensures printer { LostPrinterRefusesTheUnit }
    ensures error { ErrorIsListed }
    ensures scan { ScanIsListed }
    ensures first { FirstJobIsTaken }
    ensures reset { BothAreReset }
    ensures full { FullSpoolRefusesTheUnit }
    ensures outputs { FullOutputsRefuseTheUnit }
    ensures lost { LostVolumeRefusesTheUnit }
    ensures unread { UnreadTextRefusesTheUnit }
    ensures gone { GoneTextRefusesTheUnit }
    ensures cancelled { CancelledJobIsPurged }
{}
