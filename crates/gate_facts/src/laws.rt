//! How one member's turn looks to the others.
ghost use Rattle.gate_facts.specs.Laws.{HoldersAreSpared, LossesAreKnown, LostMayBeLostAgain};
ghost use Rattle.gate_facts.specs.Laws.{NobodyElseLosesAgain, OthersStillKnow, WhatIsLeftIsKnown};

/// What a member may give back, every other member still knows, and what it gave back it knows itself.
pub fn law_of_turns()
    ensures others { OthersStillKnow }
    ensures itself { WhatIsLeftIsKnown }
{}

/// A copy that counts as lost may be lost again by a line of the operator, and by nothing else. That leaves to each
/// member what it has of the checkpoint, as all does that another one may give back. So no turn of another takes the
/// pages from a member that holds the lock, as the loss of the last good copy would.
pub fn law_of_losses()
    ensures spared { HoldersAreSpared }
    ensures again { LostMayBeLostAgain }
    ensures nobody_else { NobodyElseLosesAgain }
    ensures known { LossesAreKnown }
{}
