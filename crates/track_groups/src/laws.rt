//! What holds of every list of owners.
ghost use Rattle.track_groups.specs.Laws.{TakesTheLowest, GivesTheLowest, TextsAreNoMembers, GivesInTurn, HandsOut, AreItsOwn, PlacesAscend, GetsTheLowest, KeepsTheOthers, KeepsOtherTexts, FreeingKeepsTexts};

/// Taking and giving, group by group.
pub fn law_of_groups()
    ensures taken { TakesTheLowest }
    ensures given { GivesTheLowest }
{}

/// Giving one after the other, and then freeing.
pub fn law_of_giving()
    ensures texts { TextsAreNoMembers }
    ensures turns { GivesInTurn }
    ensures all { HandsOut }
{}

/// The groups of a text.
pub fn law_of_places()
    ensures own { AreItsOwn }
    ensures ascending { PlacesAscend }
{}

/// The groups of a text and those of a member, after the member gave some away.
pub fn law_of_texts()
    ensures lowest { GetsTheLowest }
    ensures others { KeepsTheOthers }
    ensures texts { KeepsOtherTexts }
    ensures freeing { FreeingKeepsTexts }
{}
