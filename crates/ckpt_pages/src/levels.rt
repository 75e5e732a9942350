//! The levels of pages, and which pages differ.
ghost use Rattle.std.specs.Prelude.{◌≡◌, ◌+◌, ◌*◌, ◌≤◌, length, IfOk};
ghost use Rattle.lay_bytes.specs.Fields.{piece};
ghost use Rattle.ckpt_tables.specs.Shape.{differing};
ghost use Rattle.ckpt_pages.specs.Given.{levels_given, AreTheirLevels};
ghost use Rattle.ckpt_pages.specs.Laws.{BeginsWithLevel, GivesLevels};

use ckpt_tables::level_of;
use lay_bytes::is_same_page;
use mas_types::{Level, List, NoMemory, Page};
use std::alloc::Global;

/// The numbers of page 0 and of the pages that differ, ascending. NoMemory comes only when out of memory.
pub fn changed(alloc: Global, old: &[Page], new: &[Page]) -> Result<List<u16>, NoMemory>
    requires same { length old.now ≡ length new.now }
    requires some { 1 ≤ length old.now }
    requires few { length old.now ≤ 323 }
    ensures { IfOk result (λ pages. pages ≡ differing old.now new.now) }
{
    let mut pages = List::new(alloc);
    for page in 0..new.len() {
        if page == 0 || !is_same_page(&old[page], &new[page]) {
            pages.push(page as u16)?;
        }
    }
    Ok(pages)
}

/// The level of each page, as page 0 gives it. NoMemory comes only when out of memory.
pub fn levels_of(alloc: Global, pages: &[Page]) -> Result<List<Level>, NoMemory>
    requires { length pages.now ≤ 323 }
    ensures { IfOk result (λ levels. levels ≡ levels_given pages.now) }
{
    let mut levels = List::new(alloc);
    for page in 0..pages.len() {
        levels.push(level_of(&pages[0], page as u16))?;
    }
    Ok(levels)
}

/// Page 0 of encoded pages gives each page the level that it was encoded with, and these are the levels of a
/// checkpoint.
pub fn law_of_levels()
    ensures first { BeginsWithLevel }
    ensures each { GivesLevels }
    ensures given { AreTheirLevels }
{}
