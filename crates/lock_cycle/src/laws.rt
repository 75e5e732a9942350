//! What holds of every book.
ghost use Rattle.lock_cycle.specs.Laws.{TriesGrant, SeizesGrant, HoldersMayTry, RefusedTriesTick, StoppedTriesDoNothing, RefusedFreesDoNothing, RefusedSeizesDoNothing, DormantForSoLong, InnerTriesAreAwake, LastTriesAreAwake, HoldersStay, MembersStay, TicksDoNotFall, NobodyIsDormant, BusyWhileHeld, DormantOnce};

/// Who gets the lock has a whole hold, and no other member's standing changes.
pub fn law_of_grants()
    ensures tries { TriesGrant }
    ensures seizes { SeizesGrant }
    ensures again { HoldersMayTry }
{}

/// What a refused call changes.
pub fn law_of_refusals()
    ensures tries { RefusedTriesTick }
    ensures stopped { StoppedTriesDoNothing }
    ensures frees { RefusedFreesDoNothing }
    ensures seizes { RefusedSeizesDoNothing }
{}

/// How long a member leaves the lock to others.
pub fn law_of_dormancy()
    ensures long { DormantForSoLong }
    ensures inner { InnerTriesAreAwake }
    ensures last { LastTriesAreAwake }
    ensures never { NobodyIsDormant }
{}

/// How the lock passes from one holder to the next.
pub fn law_of_changes()
    ensures holders { HoldersStay }
    ensures members { MembersStay }
    ensures ticks { TicksDoNotFall }
{}

/// Two members at the lock, step by step.
pub fn law_of_worked_rows()
    ensures busy { BusyWhileHeld }
    ensures dormant { DormantOnce }
{}
