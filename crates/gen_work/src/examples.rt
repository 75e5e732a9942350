//! Worked examples of the definitions, computed by the check.
ghost use Rattle.gen_work.specs.Examples.{ScriptsAreWritten};
ghost use Rattle.gen_work.specs.SummaryExamples.{SummariesAreTaken};

/// How the script of one deck and of five, first cards, decks and the work after them are written, at worked examples.
pub fn examples_of_scripts()
    ensures { ScriptsAreWritten }
{}

/// What a small history came to, and how a summary is written.
pub fn examples_of_summaries()
    ensures { SummariesAreTaken }
{}
