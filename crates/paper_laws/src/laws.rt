//! The laws.
ghost use Rattle.paper_laws.specs.Laws.{EntriesKeepLines, LinesKeepLines, MarksAnswerLines, PlainEntriesAreAllowed};

/// Where each line up to an output's mark stands on paper, and those that its member printed behind it, this stays so
/// after allowed commands, at each place, and after a line that the member prints next. So the lines that a Mark
/// answered stand there. Commands without a Mark are allowed.
pub fn law_of_paper()
    ensures entries { EntriesKeepLines }
    ensures lines { LinesKeepLines }
    ensures marks { MarksAnswerLines }
    ensures plain { PlainEntriesAreAllowed }
{}
