//! Tables brought up to newer pages.
ghost use Rattle.std.specs.Prelude.{◌≡◌, ◌+◌, ◌<◌, ◌≤◌, length, true, false};
ghost use Rattle.mas_types.specs.Fit.{IsConfig};
ghost use Rattle.ckpt_tables.specs.Shape.{page_count as page_count_lem, first_group_page as first_group_page_lem, HasSpelling};
ghost use Rattle.ckpt_tables.specs.Pages.{page_in};
ghost use Rattle.ckpt_pages.specs.Checkpoints.{IsCheckpoint, SpellSome};
ghost use Rattle.ckpt_tables.specs.declared.tables.Tables.{Tables as TablesLem};
ghost use Rattle.page_tables.specs.Bringing.{AreOlder, AreReadable, CanBringUp, IsLater, IsReadable, IsUpBefore, Takes, are_orders_low, groups_on as groups_on_lem, order_in, with_header};

use crate::header::{has_header, head_of, is_said, order_of};
use crate::slots::{are_slots, take_part};
use ckpt_tables::{
    FIRST_JOB_PAGE, JOBS_A_PAGE, OUTPUTS_A_PAGE, OWNERS_A_PAGE, Tables, bytes_in, first_group_page,
    first_output_page, law_of_page_sizes, page_count,
};
use lay_bytes::{JobRec, OutRec, read_u32};
use mas_types::{Config, JobNo, Owner, Page};
use page_marks::Marks;

// How many groups have their entries on a page of groups.
fn groups_on(config: &Config, page: u16) -> usize
    requires config { IsConfig config.now }
    requires from { first_group_page_lem config.now ≤ page }
    requires within { page < page_count_lem config.now }
    ensures { result ≡ groups_on_lem config.now page }
{
    let groups = config.volumes as usize * config.groups as usize;
    let before = OWNERS_A_PAGE * (page - first_group_page(config)) as usize;
    (groups - before).min(OWNERS_A_PAGE)
}

// Whether a page is one of slots or groups, and each of these can be read, with an order below this one.
fn is_readable(config: &Config, order: u64, page: &Page, number: u16) -> bool
    requires config { IsConfig config.now }
    requires within { number < page_count_lem config.now }
    ensures good { result ≡ true → IsReadable config.now order page.now.0 number }
    ensures bad { result ≡ false → IsReadable config.now order page.now.0 number → ⊥ }
{
    if number < FIRST_JOB_PAGE {
        return false;
    }
    if number < first_output_page(config) {
        return are_slots::<Option<JobRec>>(bytes_in(page), order, JOBS_A_PAGE);
    }
    if number < first_group_page(config) {
        return are_slots::<Option<OutRec>>(bytes_in(page), order, OUTPUTS_A_PAGE);
    }
    are_slots::<Owner>(bytes_in(page), order, groups_on(config, number))
}

// Whether a page has no mark, or can be read.
fn may_take(config: &Config, order: u64, page: &Page, number: u16, has_mark: bool) -> bool
    requires config { IsConfig config.now }
    requires within { number < page_count_lem config.now }
    ensures good { result ≡ true → has_mark ≡ true → IsReadable config.now order page.now.0 number }
    ensures bad { result ≡ false → (has_mark ≡ true → IsReadable config.now order page.now.0 number) → ⊥ }
{
    if !has_mark {
        return true;
    }
    is_readable(config, order, page, number)
}

// Whether each page with a mark can be read, page 0 aside.
fn are_readable(config: &Config, pages: &[Page], marks: &Marks) -> bool
    requires config { IsConfig config.now }
    requires count { length pages.now ≡ page_count_lem config.now }
    ensures good { result ≡ true → AreReadable config.now (order_in (page_in pages.now 0)) pages.now marks.now.pages }
    ensures bad { result ≡ false
        → AreReadable config.now (order_in (page_in pages.now 0)) pages.now marks.now.pages → ⊥ }
{
    let order = order_of(&pages[0]);
    for page in 1..pages.len() {
        let has_mark = marks.has(page as u16);
        if !may_take(config, order, &pages[page], page as u16, has_mark) {
            return false;
        }
    }
    true
}

// Whether page 0 gives no lower order than that of the tables, and each other page with a mark can be read.
fn is_later(tables: &Tables, pages: &[Page], marks: &Marks) -> bool
    requires config { IsConfig tables.now.config }
    requires count { length pages.now ≡ page_count_lem tables.now.config }
    ensures good { result ≡ true → IsLater tables.now pages.now marks.now.pages }
    ensures bad { result ≡ false → IsLater tables.now pages.now marks.now.pages → ⊥ }
{
    if order_of(&pages[0]) < tables.order {
        return false;
    }
    are_readable(&tables.config, pages, marks)
}

/// Whether tables can be brought up to pages in their place: page 0 has their configuration and gives no lower order,
/// and each other page with a mark is one of slots or groups that can be read, with no order that isn't below the next
/// one. The pages then spell tables, as those without a mark are the given tables'.
pub fn can_bring_up(tables: &Tables, pages: &[Page], marks: &Marks) -> bool
    requires spelling { HasSpelling tables.now }
    requires older { AreOlder tables.now pages.now marks.now.pages }
    ensures good { result ≡ true → CanBringUp tables.now pages.now marks.now.pages }
    ensures bad { result ≡ false → CanBringUp tables.now pages.now marks.now.pages → ⊥ }
    ensures spelled { result ≡ true → SpellSome pages.now }
{
    if pages.len() != page_count(&tables.config) as usize {
        return false;
    }
    if !has_header(&tables.config, pages) {
        return false;
    }
    law_of_page_sizes(pages);
    is_later(tables, pages, marks)
}

/// The same of pages that are known to spell tables: the fields and the levels of their page 0 aren't tested again.
pub fn can_bring_up_spelled(tables: &Tables, pages: &[Page], marks: &Marks) -> bool
    requires spelling { HasSpelling tables.now }
    requires spelled { SpellSome pages.now }
    ensures good { result ≡ true → CanBringUp tables.now pages.now marks.now.pages }
    ensures bad { result ≡ false → CanBringUp tables.now pages.now marks.now.pages → ⊥ }
{
    if pages.len() != page_count(&tables.config) as usize {
        return false;
    }
    if !is_said(&tables.config, &pages[0]) {
        return false;
    }
    is_later(tables, pages, marks)
}

// Writes what a page of slots or groups says.
fn take_page(tables: &mut Tables, page: &Page, number: u16)
    requires spelling { HasSpelling tables.old }
    requires within { number < page_count_lem tables.old.config }
    requires readable { IsReadable tables.old.config tables.old.order page.now.0 number }
    ensures { Takes number page.now.0 tables.old tables.new }
{
    let order = tables.order;
    let bytes = bytes_in(page);
    let first_output = first_output_page(&tables.config);
    let first_group = first_group_page(&tables.config);
    if number < first_output {
        let first = JOBS_A_PAGE * (number - FIRST_JOB_PAGE) as usize;
        take_part(bytes, order, &mut tables.jobs, first, JOBS_A_PAGE);
    } else if number < first_group {
        let first = OUTPUTS_A_PAGE * (number - first_output) as usize;
        take_part(bytes, order, &mut tables.outputs, first, OUTPUTS_A_PAGE);
    } else {
        let first = OWNERS_A_PAGE * (number - first_group) as usize;
        let count = groups_on(&tables.config, number);
        take_part(bytes, order, &mut tables.owners, first, count);
    }
}

// Writes the job number and the order that page 0 says.
fn take_header(tables: &mut Tables, page0: &Page)
    ensures { tables.new ≡ with_header page0.now.0 tables.old }
{
    let head = head_of(page0);
    tables.last = JobNo(read_u32(head, 32));
    tables.order = order_of(page0);
}

// Writes what a page says, where it has a mark.
fn take_newer(tables: &mut Tables, pages: &[Page], marks: &Marks, number: u16)
    requires spelling { HasSpelling tables.old }
    requires count { length pages.now ≡ page_count_lem tables.old.config }
    requires some { 1 ≤ number }
    requires within { number < length pages.now }
    requires readable { AreReadable tables.old.config tables.old.order pages.now marks.now.pages }
    ensures { (t : TablesLem) → IsUpBefore t pages.now marks.now.pages number tables.old
        → IsUpBefore t pages.now marks.now.pages (number + 1) tables.new }
{
    let page = &pages[number as usize];
    if marks.has(number) {
        take_page(tables, page, number);
    }
}

// Writes what each page with a mark says, page 0 aside.
fn take_pages(tables: &mut Tables, pages: &[Page], marks: &Marks)
    requires spelling { HasSpelling tables.old }
    requires older { AreOlder tables.old pages.now marks.now.pages }
    requires count { length pages.now ≡ page_count_lem tables.old.config }
    requires readable { AreReadable tables.old.config tables.old.order pages.now marks.now.pages }
    ensures { IsUpBefore tables.old pages.now marks.now.pages (length pages.now) tables.new }
{
    for number in 1..pages.len() {
        take_newer(tables, pages, marks, number as u16);
    }
}

/// Brings tables up to pages of which those without a mark are theirs, page 0 aside, where they can be brought up in
/// their place. The pages spell the tables then.
pub fn bring_up(tables: &mut Tables, pages: &[Page], marks: &Marks)
    requires spelling { HasSpelling tables.old }
    requires older { AreOlder tables.old pages.now marks.now.pages }
    requires can { CanBringUp tables.old pages.now marks.now.pages }
    ensures spelled { IsCheckpoint pages.now tables.new }
    ensures config { tables.new.config ≡ tables.old.config }
    ensures order { tables.new.order ≡ order_in (page_in pages.now 0) }
    ensures low { are_orders_low tables.old ≡ true → are_orders_low tables.new ≡ true }
{
    take_header(tables, &pages[0]);
    take_pages(tables, pages, marks);
}
