//! Lines of which memory has the number.
ghost use Rattle.std.specs.Prelude.{◌≡◌, ◌++◌, [], Some, length, ◌==◌};
ghost use Rattle.mas_types.specs.Records.{records_in};
ghost use Rattle.brief_queue.specs.Records.{lines_of, count_of};

use crate::told::ToldLines;
use mas_types::Page;
use std::marker::Model;

/// Lines of which memory has the number alone. A contract sees the lines.
#[derive(Drop)]
pub struct BriefLines {
    // How many lines, or the greatest number where they are more.
    count: u32,
    lines: ToldLines,
}

impl Model for BriefLines {
    ghost use Rattle.std.specs.Prelude.{List, ℕ, length, ◌≡◌, ◌^◌, ◌-◌, min};

    ghost Value = { List (List ℕ) };

    ghost view = { λ a. a.lines.lines };

    ghost invariant = { λ a. a.count ≡ min (length a.lines.lines) (2 ^ 32 - 1) };
}

impl BriefLines {
    /// No lines.
    pub fn none() -> BriefLines
        ensures { result ≡ [] }
    {
        BriefLines {
            count: 0,
            lines: ToldLines::none(),
        }
    }

    /// Adds the lines of a group, which holds so many.
    pub fn add_group(&mut self, group: &Page, count: u16)
        requires { count_of (records_in group.now.0) ≡ Some count }
        ensures { self.new ≡ self.old ++ lines_of (records_in group.now.0) }
    {
        self.count = self.count.saturating_add(count as u32);
        self.lines = self.lines.with_group(group);
    }

    /// Whether there are so many lines.
    pub fn are(&self, count: u16) -> bool
        ensures { result ≡ (length self.now == count) }
    {
        self.count == count as u32
    }

    pub(crate) fn told(self) -> ToldLines
        ensures { result.lines ≡ self }
    {
        self.lines
    }
}
