//! A step that is cut into sittings gives what it gives as a whole.
#![tactic(auto)]

ghost use Rattle.step_laws.specs.Joins.{CommandIsCut, DeckIsCut, WorkIsCut, WorkIsOfLooks};

/// Over a queue that nobody else changes the sittings of a step give, one after another, just the batches of its deck,
/// its command or its units of work, and close with the same lines.
pub fn law_of_whole_steps()
    ensures deck { DeckIsCut }
    ensures command { CommandIsCut }
    ensures work { WorkIsCut }
    ensures looks { WorkIsOfLooks }
{}
