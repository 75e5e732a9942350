//! What holds of the groups of every text.
ghost use Rattle.spool_text.specs.Laws.{ReadsWhatIsHeld, ReadsWhatIsPacked, HoldsItsLines, HasEachLine, HasNeededGroups, FillsPages};

/// What is read from a group is what it holds.
pub fn law_of_reading()
    ensures { ReadsWhatIsHeld }
{}

/// The lines of a text stand in its groups in order, and each group holds its own.
pub fn law_of_groups()
    ensures lines { HasEachLine }
    ensures count { HasNeededGroups }
    ensures pages { FillsPages }
    ensures held { HoldsItsLines }
{}

/// What is read from the groups of a text is the text.
pub fn law_of_texts()
    ensures { ReadsWhatIsPacked }
{}
