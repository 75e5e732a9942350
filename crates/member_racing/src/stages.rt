//! Where a member's line stands between two turns.
ghost use Rattle.std.specs.Prelude.{◌≡◌};
ghost use Rattle.step_turns.specs.States.{nothing_found};
ghost use Rattle.race_turns.specs.Turns.{stage_after};
ghost use Rattle.member_racing.specs.Stages.{IsStageOf, stage_of as stage_of_lem};

use member_resets::Stand;
use step_turns::State;

/// Where a member's line stands between two turns.
#[derive(Drop)]
pub enum Stage {
    /// Its first try is still to come, or was refused.
    Opens,
    /// It waits for a sitting.
    Sits(Stand),
    /// It waits for acts aside.
    Acts(Stand),
    /// It has closed.
    Closed,
}

// Where a line stands after a sitting of its step.
pub(crate) fn stage_of(stand: Stand) -> Stage
    requires { stand.found ≡ nothing_found }
    ensures stage { stage_of_lem result ≡ stage_after stand.state }
    ensures stand { IsStageOf stand result }
{
    match &stand.state {
        State::Told => Stage::Closed,
        State::Away(_) => Stage::Acts(stand),
        State::Fresh(_) | State::Rested(_) => Stage::Sits(stand),
    }
}
