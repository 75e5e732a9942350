//! Marks of pages that were read or drawn.
ghost use Rattle.std.specs.Prelude.{◌≡◌};
ghost use Rattle.member_node.specs.Mirrors.{marked_all, marked_by, marked_if};

use crate::checkpoint::Draft;
use page_marks::Marks;

/// Marks a page where it is asked for.
pub(crate) fn mark_if(marks: &mut Marks, page: usize, asked: bool)
    ensures { marks.new.pages ≡ marked_if asked page marks.old.pages }
{
    if asked {
        marks.put(page);
    }
}

// Marks each of these pages.
fn mark_each(marks: &mut Marks, pages: &[u16])
    ensures { marks.new.pages ≡ marked_all pages.now marks.old.pages }
{
    for page in pages {
        marks.put(*page as usize);
    }
}

/// Marks the pages that a draft changes.
pub(crate) fn mark_drawn(marks: &mut Marks, draft: &Draft)
    ensures { marks.new.pages ≡ marked_by draft.now marks.old.pages }
{
    match draft {
        Draft::Same => {}
        Draft::Changed(numbers) => mark_each(marks, numbers.as_slice()),
    }
}
