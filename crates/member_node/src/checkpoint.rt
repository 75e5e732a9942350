//! The checkpoint of a member: its tables, and the pages that were drawn from them.
ghost use Rattle.std.specs.Prelude.{◌≡◌, ◌+◌, ◌≤◌, ◌<◌, ◌^◌, [], ◌∷◌, ◌++◌, if◌then◌else◌, true, false, IfOk, OnOk, All, length};
ghost use Rattle.mas_types.specs.declared.ids.Page.{Page};
ghost use Rattle.mas_types.specs.Fit.{IsConfig};
ghost use Rattle.mas_types.specs.Limits.{page_bytes, routes_most};
ghost use Rattle.ckpt_copy.specs.Pages.{bytes_of, level as level_of, ArePages, Covers};
ghost use Rattle.mas_complex.specs.Changed.{NamesOnly};
ghost use Rattle.mas_complex.specs.Past.{IsNextOf};
ghost use Rattle.ckpt_pages.specs.Given.{levels_given};
ghost use Rattle.ckpt_tables.specs.Shape.{page_count as page_count_lem, HasShape, HasSpelling, AreLevels, IsRoute};
ghost use Rattle.ckpt_tables.specs.Pages.{page_of, Spell};
ghost use Rattle.ckpt_pages.specs.Starts.{empty_tables, first_levels as first_levels_lem};
ghost use Rattle.member_node.specs.Drawn.{AreDrawn, AreUnmarkedDrawn, drawn_again, raised};
ghost use Rattle.page_marks.specs.Marks.{is_marked};
ghost use Rattle.std.specs.Str.{bytes_eq};
ghost use Rattle.member_node.specs.Redrawn.{AreChanges, IsDraft, IsRedrawn, IsSameWhere};

use ckpt_pages::{empty, encode, encode_page, law_of_empty_tables};
use ckpt_tables::{Tables, page_count};
use lay_bytes::is_same_page;
use mas_types::limits::PAGE_BYTES;
use mas_types::{Config, Level, List, NoMemory, Page, Route};
use page_marks::Marks;
use std::alloc::Global;

/// Tables, and the pages that were drawn last, with their level and the level of each.
#[derive(Drop)]
pub struct Checkpoint {
    /// The queue in slots.
    pub tables: Tables,
    /// The level of the pages.
    pub level: Level,
    /// The level of each page.
    pub levels: List<Level>,
    /// The pages that were drawn or read last.
    pub pages: List<Page>,
}

/// What a write puts on the copies.
#[derive(Drop)]
pub enum Draft {
    /// No page changes, and nothing is written.
    Same,
    /// The numbers of page 0 and of the pages that change.
    Changed(List<u16>),
}

// So many pages of level 1.
fn first_levels(alloc: Global, count: u16) -> Result<List<Level>, NoMemory>
    ensures { IfOk result (λ levels. levels ≡ first_levels_lem count) }
{
    let mut levels = List::new(alloc);
    for _page in 0..count {
        levels.push(1)?;
    }
    Ok(levels)
}

// Gives the new level to these pages.
fn raise(levels: &mut [Level], pages: &[u16], level: Level)
    requires { All (λ page. page < length levels.old) pages.now }
    ensures { levels.new ≡ raised pages.now level levels.old }
{
    for page in pages {
        levels[*page as usize] = level;
    }
}

/// The checkpoint of an empty queue of a configuration and routes, with every page at level 1. NoMemory comes only when
/// out of memory.
pub fn blank(alloc: Global, config: &Config, routes: &List<Route>) -> Result<Checkpoint, NoMemory>
    requires config { IsConfig config.now }
    requires few { length routes.now ≤ routes_most }
    requires routes { All IsRoute routes.now }
    ensures tables { IfOk result (λ blank. blank.tables ≡ empty_tables config.now routes.now) }
    ensures level { IfOk result (λ blank. blank.level ≡ 1) }
    ensures drawn { IfOk result (λ blank. AreDrawn blank.tables 1 blank.levels blank.pages) }
{
    law_of_empty_tables();
    let tables = empty(alloc, config, routes)?;
    let levels = first_levels(alloc, page_count(config))?;
    let pages = encode(alloc, &tables, &levels)?;
    Ok(Checkpoint {
        tables,
        level: 1,
        levels,
        pages,
    })
}

// Adds a number where it is asked for.
fn note(numbers: &mut List<u16>, number: u16, asked: bool) -> Result<(), NoMemory>
    ensures { OnOk result (numbers.new ≡ numbers.old ++ (if asked then number ∷ [] else [])) }
{
    if asked {
        numbers.push(number)?;
    }
    Ok(())
}

// Whether a page is the one that the tables are drawn as with these levels: one without a mark is.
fn is_as_drawn(
    tables: &Tables,
    number: u16,
    levels: &List<Level>,
    marks: &Marks,
    own: &Page,
    room: &mut Page,
) -> bool
    requires shape { HasShape tables.now }
    requires number { number < page_count_lem tables.now.config }
    requires levels { length levels.now ≡ page_count_lem tables.now.config }
    requires size { length own.now.0 ≡ page_bytes }
    requires unchanged { is_marked marks.now.pages number ≡ false
        → own.now.0 ≡ page_of tables.now levels.now number }
    ensures same { result ≡ bytes_eq own.now.0 (page_of tables.now levels.now number) }
    ensures sized { length (page_of tables.now levels.now number) ≡ page_bytes }
{
    if !marks.has(number) {
        return true;
    }
    encode_page(tables, number, levels, room);
    is_same_page(own, room)
}

/// What the tables, drawn with these levels, change of pages: one that has a mark after another is drawn, and compared.
/// NoMemory comes only when out of memory.
pub(crate) fn draft_of(
    alloc: Global,
    tables: &Tables,
    levels: &List<Level>,
    pages: &[Page],
    marks: &Marks,
) -> Result<Draft, NoMemory>
    requires shape { HasShape tables.now }
    requires levels { length levels.now ≡ page_count_lem tables.now.config }
    requires pages { length pages.now ≡ page_count_lem tables.now.config }
    requires sized { All (λ page. length page.0 ≡ page_bytes) pages.now }
    requires unchanged { AreUnmarkedDrawn marks.now.pages tables.now levels.now pages.now }
    ensures { IfOk result (IsDraft tables.now levels.now pages.now) }
{
    let mut numbers = List::new(alloc);
    let mut same = true;
    let mut room = Page([0; PAGE_BYTES]);
    for number in 0..page_count(&tables.config) {
        let own = &pages[number as usize];
        let is_same = is_as_drawn(tables, number, levels, marks, own, &mut room);
        note(&mut numbers, number, (number == 0) | !is_same)?;
        same &= is_same;
    }
    if same {
        Ok(Draft::Same)
    } else {
        Ok(Draft::Changed(numbers))
    }
}

/// Whether these pages are those that the tables are drawn as with these levels.
pub(crate) fn is_spelling(
    tables: &Tables,
    levels: &List<Level>,
    pages: &[Page],
    marks: &Marks,
) -> bool
    requires shape { HasShape tables.now }
    requires levels { length levels.now ≡ page_count_lem tables.now.config }
    requires pages { length pages.now ≡ page_count_lem tables.now.config }
    requires sized { All (λ page. length page.0 ≡ page_bytes) pages.now }
    requires unchanged { AreUnmarkedDrawn marks.now.pages tables.now levels.now pages.now }
    ensures yes { result ≡ true → Spell tables.now levels.now pages.now }
    ensures no { result ≡ false → Spell tables.now levels.now pages.now → ⊥ }
{
    let mut room = Page([0; PAGE_BYTES]);
    for number in 0..page_count(&tables.config) {
        let own = &pages[number as usize];
        if !is_as_drawn(tables, number, levels, marks, own, &mut room) {
            return false;
        }
    }
    true
}

// Draws these pages again.
fn draw_pages(tables: &Tables, levels: &List<Level>, numbers: &[u16], pages: &mut [Page])
    requires shape { HasShape tables.now }
    requires levels { length levels.now ≡ page_count_lem tables.now.config }
    requires pages { length pages.old ≡ page_count_lem tables.now.config }
    requires numbers { All (λ page. page < length pages.old) numbers.now }
    requires sized { All (λ page. length page.0 ≡ page_bytes) pages.old }
    ensures drawn { pages.new ≡ drawn_again tables.now levels.now numbers.now pages.old }
    ensures sized { All (λ page. length page.0 ≡ page_bytes) pages.new }
{
    for number in numbers {
        encode_page(tables, *number, levels, &mut pages[*number as usize]);
    }
}

// Draws page 0 and the pages that differ again, with the next level.
fn take_changes(checkpoint: &mut Checkpoint, numbers: &[u16])
    requires spelling { HasSpelling checkpoint.old.tables }
    requires leveled { AreLevels checkpoint.old.tables checkpoint.old.level checkpoint.old.levels }
    requires level { checkpoint.old.level + 1 < 2 ^ 63 }
    requires pages { length checkpoint.old.pages ≡ page_count_lem checkpoint.old.tables.config }
    requires sized { All (λ page. length page.0 ≡ page_bytes) checkpoint.old.pages }
    requires differ { AreChanges checkpoint.old.tables checkpoint.old.levels checkpoint.old.pages numbers.now }
    requires aged { levels_given checkpoint.old.pages ≡ checkpoint.old.levels }
    requires at_level { level_of (bytes_of checkpoint.old.pages) ≡ checkpoint.old.level }
    ensures tables { checkpoint.new.tables ≡ checkpoint.old.tables }
    ensures level { checkpoint.new.level ≡ checkpoint.old.level + 1 }
    ensures drawn { AreDrawn checkpoint.new.tables checkpoint.new.level checkpoint.new.levels checkpoint.new.pages }
    ensures changed { ArePages (length checkpoint.new.pages) numbers.now }
    ensures covered { Covers (length checkpoint.new.pages) numbers.now (bytes_of checkpoint.old.pages)
        (bytes_of checkpoint.new.pages) }
    ensures exact { NamesOnly numbers.now (bytes_of checkpoint.old.pages) (bytes_of checkpoint.new.pages) }
    ensures leveled { IsNextOf (length checkpoint.new.pages) (bytes_of checkpoint.old.pages)
        (bytes_of checkpoint.new.pages) }
{
    checkpoint.level += 1;
    raise(checkpoint.levels.as_mut_slice(), numbers, checkpoint.level);
    draw_pages(
        &checkpoint.tables,
        &checkpoint.levels,
        numbers,
        checkpoint.pages.as_mut_slice(),
    );
}

/// Draws the pages of a draft again: where it has one they have the next level then.
pub(crate) fn redraw(checkpoint: &mut Checkpoint, draft: &Draft)
    requires spelling { HasSpelling checkpoint.old.tables }
    requires leveled { AreLevels checkpoint.old.tables checkpoint.old.level checkpoint.old.levels }
    requires level { checkpoint.old.level + 1 < 2 ^ 63 }
    requires pages { length checkpoint.old.pages ≡ page_count_lem checkpoint.old.tables.config }
    requires sized { All (λ page. length page.0 ≡ page_bytes) checkpoint.old.pages }
    requires aged { levels_given checkpoint.old.pages ≡ checkpoint.old.levels }
    requires at_level { level_of (bytes_of checkpoint.old.pages) ≡ checkpoint.old.level }
    requires draft { IsDraft checkpoint.old.tables checkpoint.old.levels checkpoint.old.pages draft.now }
    ensures tables { checkpoint.new.tables ≡ checkpoint.old.tables }
    ensures drawn { AreDrawn checkpoint.new.tables checkpoint.new.level checkpoint.new.levels checkpoint.new.pages }
    ensures draft { IsRedrawn draft.now checkpoint.old.level checkpoint.old.pages checkpoint.new.level
        checkpoint.new.pages }
    ensures same { IsSameWhere draft.now
        (Spell checkpoint.old.tables checkpoint.old.levels checkpoint.old.pages) }
{
    match draft {
        Draft::Same => {}
        Draft::Changed(numbers) => take_changes(checkpoint, numbers.as_slice()),
    }
}
