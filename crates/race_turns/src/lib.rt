//! A race of several members on plain data: what each turn of a member gives, by the queue and the book that it finds,
//! and where its turns stand in the one history. The definitions in specs/ are what the contract of a race speaks of.
#![tactic(auto)]

ghost use Rattle.race_turns.specs.Sides.{TurnsAreOneHistory};

/// A member takes turns at a value that others change between them. Each turn finds the queue after all that was kept
/// before it. If what a value shows a member stays from turn to turn, its turns stand in the history of the last value
/// in their order, each once, and that value has of the member what its turns left, and no more.
pub fn law_of_turns()
    ensures { TurnsAreOneHistory }
{}
