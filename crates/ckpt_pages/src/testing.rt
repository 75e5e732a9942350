//! Which page of a checkpoint is no spelling, found without memory.
ghost use Rattle.std.specs.Prelude.{◌≡◌, ◌+◌, ◌-◌, ◌*◌, ◌^◌, ◌≤◌, ◌<◌, length, true, false, None, IfSome};
ghost use Rattle.mas_types.specs.Limits.{page_bytes};
ghost use Rattle.ckpt_pages.specs.declared.nodes.Nodes.{Nodes as NodesLem};
ghost use Rattle.ckpt_pages.specs.Checkpoints.{IsLeastBad, SpellSome};
ghost use Rattle.ckpt_pages.specs.Headers.{IsHeader, NoHeader};
ghost use Rattle.ckpt_pages.specs.Nodes.{AreNodes};
ghost use Rattle.ckpt_pages.specs.Reading.{AreNoEntries, IsFirstBad};
ghost use Rattle.ckpt_pages.specs.Slots.{IsBadBehind};
ghost use Rattle.ckpt_pages.specs.Testing.{SomeEntries, SomePages, SomeLevels, NoLevels, SomeNodes, SomeSlots};

use crate::entries::Entry;
use crate::header::{Header, pages_asked, read_numbers};
use crate::nodes::NODE_FIELDS;
use ckpt_tables::{FIRST_JOB_PAGE, JOBS_A_PAGE, OUTPUTS_A_PAGE, OWNERS_A_PAGE, bytes_in};
use lay_bytes::{JobRec, OutRec, check_fields, is_zero, read_u64};
use mas_types::{Level, LineCount, Owner, Page, Route, Setting};

// Whether so many entries stand from the first byte on, and zeros after them.
fn are_entries<E: Entry>(bytes: &[u8], count: usize) -> bool
    requires { E.WIDTH * count ≤ length bytes.now }
    ensures good { result ≡ true → SomeEntries E.spelling E.has_spelling count bytes.now }
    ensures bad { result ≡ false → AreNoEntries E.spelling E.has_spelling count bytes.now }
{
    let mut at = 0;
    for _entry in 0..count {
        if !E::is_entry(&bytes[at..at + E::WIDTH]) {
            return false;
        }
        at += E::WIDTH;
    }
    is_zero(&bytes[at..])
}

// The first page, from this one on, that isn't one of so many items, so many to a page.
fn first_bad_of<E: Entry>(pages: &[Page], first: usize, a_page: usize, total: usize) -> Option<u16>
    requires some { 0 < a_page }
    requires room { E.WIDTH * a_page ≤ page_bytes }
    requires within { first ≤ length pages.now }
    requires enough { total ≤ a_page * (length pages.now - first) }
    requires few { length pages.now < 2 ^ 16 }
    ensures good { result ≡ None → SomePages E.spelling E.has_spelling a_page first total pages.now }
    ensures bad { IfSome result (IsFirstBad E.spelling E.has_spelling a_page first total pages.now) }
{
    let mut page = first;
    let mut rest = total;
    while rest > 0 {
        let count = rest.min(a_page);
        if !are_entries::<E>(bytes_in(&pages[page]), count) {
            return Some(page as u16);
        }
        rest -= count;
        page += 1;
    }
    None
}

// Whether so many levels from 1 to this one stand from the first byte on, this one first, and zeros after them.
fn are_levels(level: Level, bytes: &[u8], count: usize) -> bool
    requires some { 1 ≤ count }
    requires room { 8 * count ≤ length bytes.now }
    ensures good { result ≡ true → SomeLevels level count bytes.now }
    ensures bad { result ≡ false → NoLevels level count bytes.now }
{
    if read_u64(bytes, 0) != level {
        return false;
    }
    for page in 0..count {
        let age = read_u64(bytes, 8 * page);
        if age < 1 || level < age {
            return false;
        }
    }
    is_zero(&bytes[8 * count..])
}

// What page 0 says, where it is a spelling of so many pages.
fn header_in(pages: &[Page]) -> Option<Header>
    ensures found { IfSome result (λ header. IsHeader header pages.now) }
    ensures bad { result ≡ None → NoHeader pages.now }
{
    let page = pages.first()?;
    let (head, rest) = bytes_in(page).split_at(1024);
    let Ok(header) = read_numbers(head) else {
        return None;
    };
    if pages_asked(&header) != pages.len() {
        return None;
    }
    if are_levels(header.level, rest, pages.len()) {
        Some(header)
    } else {
        None
    }
}

// Whether page 2 is a spelling.
fn are_nodes(page: &[u8]) -> bool
    requires { length page.now ≡ page_bytes }
    ensures good { result ≡ true → SomeNodes page.now }
    ensures bad { result ≡ false → (nodes : NodesLem) → AreNodes page.now nodes → ⊥ }
{
    let (head, rest) = page.split_at(128);
    let Ok(()) = check_fields(&NODE_FIELDS, head) else {
        return false;
    };
    let (middle, tail) = rest.split_at(896);
    are_entries::<LineCount>(middle, 8) && are_entries::<Route>(tail, head[8] as usize)
}

// The first page after the nodes that is no spelling.
fn first_bad_slot(pages: &[Page], header: &Header) -> Option<u16>
    requires { IsHeader header.now pages.now }
    ensures good { result ≡ None → SomeSlots header.now pages.now }
    ensures bad { IfSome result (IsBadBehind header.now pages.now) }
{
    let first_job = FIRST_JOB_PAGE as usize;
    let jobs = header.jobs as usize;
    let first_output = first_job + jobs / JOBS_A_PAGE;
    let outputs = header.outputs as usize;
    let first_group = first_output + outputs / OUTPUTS_A_PAGE;
    let groups = header.volumes as usize * header.groups as usize;
    if let Some(bad) = first_bad_of::<Option<JobRec>>(pages, first_job, JOBS_A_PAGE, jobs) {
        return Some(bad);
    }
    if let Some(bad) = first_bad_of::<Option<OutRec>>(
        pages,
        first_output,
        OUTPUTS_A_PAGE,
        outputs,
    ) {
        return Some(bad);
    }
    first_bad_of::<Owner>(pages, first_group, OWNERS_A_PAGE, groups)
}

/// The least page that is no spelling, 0 where page 0 asks for another number of pages or there is none. Where there is
/// no such page all of them spell tables, and `decode` reads these if it gets its memory. This takes none.
pub fn first_bad(pages: &[Page]) -> Option<u16>
    ensures good { result ≡ None → SpellSome pages.now }
    ensures bad { IfSome result (IsLeastBad pages.now) }
{
    let Some(header) = header_in(pages) else {
        return Some(0);
    };
    if !are_entries::<Setting>(bytes_in(&pages[1]), header.members as usize) {
        return Some(1);
    }
    if !are_nodes(bytes_in(&pages[2])) {
        return Some(2);
    }
    first_bad_slot(pages, &header)
}
