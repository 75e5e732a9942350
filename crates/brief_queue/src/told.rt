//! Lines that only clauses read.
ghost use Rattle.std.specs.Prelude.{◌≡◌, ℕ, List, [], ◌++◌};
ghost use base.Fml.{ftrue};
ghost use Rattle.mas_types.specs.Records.{records_in};
ghost use Rattle.brief_queue.specs.Records.{lines_of};

use mas_types::{Lines, Page};
use std::marker::Model;

/// Lines without a byte in memory.
#[derive(Drop)]
pub(crate) struct ToldLines {
    pub(crate) ghost lines: { List (List ℕ) },
}

impl Model for ToldLines {
    ghost also_owns = { λ _. ftrue };
}

impl ToldLines {
    // No lines.
    pub(crate) fn none() -> ToldLines
        ensures { result.lines ≡ [] }
    {
        ToldLines {}
    }

    // These lines.
    pub(crate) fn of(_lines: &Lines) -> ToldLines
        ensures { result.lines ≡ _lines.now }
    {
        ToldLines {}
    }

    // The lines with those of a group behind them.
    pub(crate) fn with_group(&self, _group: &Page) -> ToldLines
        ensures { result.lines ≡ self.now.lines ++ lines_of (records_in _group.now.0) }
    {
        ToldLines {}
    }
}
