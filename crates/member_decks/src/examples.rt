//! Worked examples, computed by the check.
ghost use Rattle.member_decks.specs.Examples.{DeckIsEntered, FullSpoolDropsTheDeck, LostVolumeDropsTheDeck};

/// A deck that is entered, one for which the spool is too full, and one whose volume is lost.
pub fn examples_of_deck_steps()
    ensures entered { DeckIsEntered }
    ensures full { FullSpoolDropsTheDeck }
    ensures lost { LostVolumeDropsTheDeck }
{}
