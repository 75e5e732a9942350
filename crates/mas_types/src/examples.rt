//! Worked examples of the definitions, computed by the check.
ghost use Rattle.mas_types.specs.Examples.{LinesAreWritten};

/// How each closing, refusal, display, history, line on paper, status and fault is written, and what a group of spool
/// text reads as, at worked examples.
pub fn law_of_lines()
    ensures { LinesAreWritten }
{}
