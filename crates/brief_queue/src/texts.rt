//! A text without its lines.
ghost use Rattle.std.specs.Prelude.{◌≡◌};
ghost use Rattle.mas_types.specs.declared.jobs.Text.TheVariants.{Whole, Gone};
ghost use Rattle.brief_queue.specs.Shown.{what_is_gone as what_is_gone_lem};

use crate::lines::BriefLines;
use crate::told::ToldLines;
use mas_types::{GroupNo, Text};
use std::marker::Model;

/// A text of which memory has no lines. A contract sees the text.
#[derive(Drop)]
pub struct BriefText {
    // The group with which it is gone.
    gone: Option<GroupNo>,
    // How many lines a text that is gone had.
    count: u16,
    // The lines of one that isn't.
    lines: ToldLines,
}

impl Model for BriefText {
    ghost use Rattle.mas_types.specs.declared.jobs.Text.{Text};
    ghost use Rattle.brief_queue.specs.Shown.{text_shown};

    ghost Value = { Text };

    ghost view = { λ a. text_shown a.gone a.count a.lines.lines };
}

impl BriefText {
    /// A text that is there.
    pub fn whole(lines: BriefLines) -> BriefText
        ensures { result ≡ Whole lines }
    {
        BriefText {
            gone: None,
            count: 0,
            lines: lines.told(),
        }
    }

    /// A text that is gone with this group, and had so many lines.
    pub fn gone(group: GroupNo, count: u16) -> BriefText
        ensures { result ≡ Gone group count }
    {
        BriefText {
            gone: Some(group),
            count,
            lines: ToldLines::none(),
        }
    }

    /// A text that memory has.
    pub fn of(text: &Text) -> BriefText
        ensures { result ≡ text.now }
    {
        match text {
            Text::Whole(lines) => BriefText {
                gone: None,
                count: 0,
                lines: ToldLines::of(lines),
            },
            Text::Gone(group, count) => BriefText::gone(*group, *count),
        }
    }

    /// The group with which it is gone, and how many lines it had; none where it isn't gone.
    pub fn what_is_gone(&self) -> Option<(GroupNo, u16)>
        ensures { result ≡ what_is_gone_lem self.now }
    {
        match self.gone {
            Some(group) => Some((group, self.count)),
            None => None,
        }
    }
}
