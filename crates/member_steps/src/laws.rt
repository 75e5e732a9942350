//! What the lines of steps tell.
ghost use Rattle.member_steps.specs.Untold.{TellNoLaterStep};

/// The lines of a member's step, those of a display too, tell no later step of it.
pub fn law_of_told_steps()
    ensures { TellNoLaterStep }
{}
