//! Entries of one width, one after another.
ghost use Rattle.std.specs.Prelude.{◌≡◌, ℕ, ◌-◌, ◌*◌, ◌^◌, ◌≤◌, ◌<◌, All, List, length, true, false, Err, OnOk, IfOk, IfErr};
ghost use Rattle.mas_types.specs.Limits.{page_bytes};
ghost use Rattle.ckpt_pages.specs.declared.entries.EntryError.TheVariants.{Bad};
ghost use Rattle.ckpt_pages.specs.Testing.{SpellsOne};
ghost use Rattle.ckpt_pages.specs.Reading.{ReadsEntries, AreNoEntries, ArePages, IsFirstBad, IfBadPage, page_no};

use ckpt_tables::bytes_in;
use lay_bytes::is_zero;
use mas_types::{List, Page};
use std::alloc::Global;

/// Why bytes were not read.
#[derive(Clone, Copy)]
pub enum EntryError {
    /// The bytes are no spelling.
    Bad,
    /// Out of memory.
    NoMemory,
}

/// Why pages could not be decoded.
#[derive(Clone, Copy)]
pub enum PageNo {
    /// The page of this number is no spelling. It is the least such page.
    BadPage(u16),
    /// Out of memory.
    NoMemory,
}

impl EntryError {
    /// What is answered where this page was not read.
    pub(crate) fn at_page(self, page: u16) -> PageNo
        ensures { result ≡ page_no self page }
    {
        match self {
            EntryError::Bad => PageNo::BadPage(page),
            EntryError::NoMemory => PageNo::NoMemory,
        }
    }
}

/// A value whose entries all have one width.
pub(crate) trait Entry: Drop + Sized {
    ghost WIDTH: { ℕ };

    /// The bytes of a value's spelling.
    ghost spelling: { Self → List ℕ };

    /// That a value has a spelling.
    ghost has_spelling: { Self → Type 0 };

    /// The bytes of an entry.
    const WIDTH: usize;

    /// Reads an entry. `Bad` comes exactly where it is no spelling.
    fn read(alloc: Global, bytes: &[u8]) -> Result<Self, EntryError>
        requires { length bytes.now ≡ WIDTH }
        ensures found { IfOk result (λ x. has_spelling x × (bytes.now ≡ spelling x)) }
        ensures bad { result ≡ Err Bad → (x : Self) → has_spelling x → bytes.now ≡ spelling x → ⊥ };

    /// Whether the bytes are an entry. This takes no memory.
    fn is_entry(bytes: &[u8]) -> bool
        requires { length bytes.now ≡ WIDTH }
        ensures good { result ≡ true → SpellsOne has_spelling spelling bytes.now }
        ensures bad { result ≡ false → (x : Self) → has_spelling x → bytes.now ≡ spelling x → ⊥ };

    ghost size: { (x : Self) → has_spelling x → length (spelling x) ≡ WIDTH };

    ghost apart: { (x y : Self) → has_spelling x → has_spelling y → spelling x ≡ spelling y → x ≡ y };
}

/// Reads so many entries from the first byte on, and adds them. Only zeros may follow.
pub(crate) fn read_entries<E: Entry>(
    alloc: Global,
    bytes: &[u8],
    count: usize,
    into: &mut List<E>,
) -> Result<(), EntryError>
    requires { E.WIDTH * count ≤ length bytes.now }
    ensures ok { OnOk result (ReadsEntries E.spelling E.has_spelling count bytes.now into.old into.new) }
    ensures bad { result ≡ Err Bad → AreNoEntries E.spelling E.has_spelling count bytes.now }
{
    let mut at = 0;
    for _entry in 0..count {
        let item = E::read(alloc, &bytes[at..at + E::WIDTH])?;
        let Ok(()) = into.push(item) else {
            return Err(EntryError::NoMemory);
        };
        at += E::WIDTH;
    }
    if is_zero(&bytes[at..]) {
        Ok(())
    } else {
        Err(EntryError::Bad)
    }
}

/// Reads so many items from the first page on, so many to a page. Zeros fill each page.
pub(crate) fn read_pages<E: Entry>(
    alloc: Global,
    pages: &[Page],
    first: usize,
    a_page: usize,
    total: usize,
) -> Result<List<E>, PageNo>
    requires some { 0 < a_page }
    requires room { E.WIDTH * a_page ≤ page_bytes }
    requires within { first ≤ length pages.now }
    requires enough { total ≤ a_page * (length pages.now - first) }
    requires few { length pages.now < 2 ^ 16 }
    ensures ok { IfOk result (λ items. ArePages E.spelling E.has_spelling a_page first total pages.now items) }
    ensures bad { IfErr result (λ e. IfBadPage e (IsFirstBad E.spelling E.has_spelling a_page first total pages.now)) }
{
    let mut items = List::new(alloc);
    let mut page = first;
    let mut rest = total;
    while rest > 0 {
        let count = rest.min(a_page);
        match read_entries(alloc, bytes_in(&pages[page]), count, &mut items) {
            Ok(()) => {}
            Err(EntryError::Bad) => return Err(PageNo::BadPage(page as u16)),
            Err(EntryError::NoMemory) => return Err(PageNo::NoMemory),
        }
        rest -= count;
        page += 1;
    }
    Ok(items)
}
