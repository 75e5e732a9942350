//! What is true of all decks and of their stored texts.
#![tactic(auto)]

ghost use Rattle.deck_laws.specs.Laws.{ReadsJobs, ConvertsTexts, KeepsLimits};

/// A deck gives a job with certain fields exactly where its cards are in the grammar and say these fields.
pub fn law_of_jobs()
    ensures { ReadsJobs }
{}

/// A stored text gives these steps exactly where its statements are in the grammar and say them.
pub fn law_of_texts()
    ensures { ConvertsTexts }
{}

/// The steps that a text within the limits gives are within those of a job.
pub fn law_of_limits()
    ensures { KeepsLimits }
{}
