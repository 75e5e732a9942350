//! The header.
ghost use Rattle.std.specs.Prelude.{◌≡◌, ◌≤◌, ◌&&◌, nat_le, length, Err, IfOk, IfErr};
ghost use Rattle.std.specs.List.{list_all};
ghost use Rattle.lay_bytes.specs.Fields.{pieces};
ghost use Rattle.ckpt_pages.specs.declared.header.Header.{Header as HeaderLem};
ghost use Rattle.ckpt_pages.specs.declared.entries.EntryError.TheVariants.{Bad};
ghost use Rattle.ckpt_pages.specs.Fields.{header_fields, header_in};
ghost use Rattle.ckpt_pages.specs.Headers.{HasNumbers, IsHeader, NoHeader, header_bytes, pages_of, is_whole as is_whole_lem, are_ages as are_ages_lem};

use crate::entries::{EntryError, read_entries};
use ckpt_tables::{JOBS_A_PAGE, OUTPUTS_A_PAGE, bytes_in, pages_for};
use lay_bytes::{Field, check_fields, read_u16, read_u32, read_u64};
use mas_types::{JobNo, Level, List, Page};
use std::alloc::Global;

/// What page 0 says except the levels of the other pages.
#[derive(Clone, Copy)]
pub(crate) struct Header {
    pub level: Level,
    pub members: u8,
    pub volumes: u8,
    pub jobs: u16,
    pub outputs: u16,
    pub groups: u16,
    pub hold: u16,
    pub dormancy: u16,
    pub last: JobNo,
    pub order: u64,
}

/// `MASCKPT1` as a number.
const MARK: u64 = 5_566_822_162_898_113_585;
/// The greatest level and the greatest order.
const AGE_MOST: u64 = 9_223_372_036_854_775_807;

const HEADER_FIELDS: [Field; 16] = [
    Field::Long(MARK, MARK),
    Field::Long(1, AGE_MOST),
    Field::Byte(1, 1),
    Field::Byte(1, 8),
    Field::Byte(1, 8),
    Field::Zeros(1),
    Field::Half(16, 2_048),
    Field::Half(32, 4_096),
    Field::Half(1, 4_096),
    Field::Half(1, 9_999),
    Field::Half(0, 9_999),
    Field::Zeros(2),
    Field::Word(0, 99_999),
    Field::Zeros(4),
    Field::Long(0, AGE_MOST),
    Field::Zeros(976),
];

fn header_of(head: &[u8]) -> Header
    requires { length head.now ≡ 1024 }
    ensures { result ≡ header_in (pieces 0 header_fields head.now) }
{
    Header {
        level: read_u64(head, 8),
        members: head[17],
        volumes: head[18],
        jobs: read_u16(head, 20),
        outputs: read_u16(head, 22),
        groups: read_u16(head, 24),
        hold: read_u16(head, 26),
        dormancy: read_u16(head, 28),
        last: JobNo(read_u32(head, 32)),
        order: read_u64(head, 40),
    }
}

fn is_whole(header: &Header) -> bool
    ensures { result ≡ is_whole_lem header.now }
{
    header.jobs % JOBS_A_PAGE as u16 == 0 && header.outputs % OUTPUTS_A_PAGE as u16 == 0
}

/// Reads the numbers of the header.
pub(crate) fn read_numbers(head: &[u8]) -> Result<Header, EntryError>
    requires { length head.now ≡ 1024 }
    ensures found { IfOk result (λ header. HasNumbers header × (head.now ≡ header_bytes header)) }
    ensures bad { result ≡ Err Bad → (header : HeaderLem) → HasNumbers header → head.now ≡ header_bytes header → ⊥ }
    ensures only { IfErr result (λ e. e ≡ Bad) }
{
    let Ok(()) = check_fields(&HEADER_FIELDS, head) else {
        return Err(EntryError::Bad);
    };
    let header = header_of(head);
    if is_whole(&header) {
        Ok(header)
    } else {
        Err(EntryError::Bad)
    }
}

/// The number of pages that a header asks for.
pub(crate) fn pages_asked(header: &Header) -> usize
    ensures { result ≡ pages_of header.now }
{
    pages_for(
        header.jobs,
        header.outputs,
        header.volumes as usize * header.groups as usize,
    )
}

/// Whether the levels are from 1 to the greatest.
fn are_within(level: Level, levels: &[Level]) -> bool
    ensures { result ≡ list_all (λ l. nat_le 1 l && nat_le l level) levels.now }
{
    levels.iter().all(|l| 1 <= *l && *l <= level)
}

/// Whether the first level is the greatest, and none is 0.
fn are_ages(level: Level, levels: &[Level]) -> bool
    requires { 1 ≤ length levels.now }
    ensures { result ≡ are_ages_lem level levels.now }
{
    levels[0] == level && are_within(level, levels)
}

/// Reads the header of so many pages. `Bad` comes exactly where page 0 is no spelling.
pub(crate) fn read_header(alloc: Global, pages: &[Page]) -> Result<Header, EntryError>
    ensures found { IfOk result (λ header. IsHeader header pages.now) }
    ensures bad { result ≡ Err Bad → NoHeader pages.now }
{
    let Some(page) = pages.first() else {
        return Err(EntryError::Bad);
    };
    let (head, rest) = bytes_in(page).split_at(1024);
    let header = read_numbers(head)?;
    if pages_asked(&header) != pages.len() {
        return Err(EntryError::Bad);
    }
    let mut levels = List::new(alloc);
    read_entries(alloc, rest, pages.len(), &mut levels)?;
    if are_ages(header.level, levels.as_slice()) {
        Ok(header)
    } else {
        Err(EntryError::Bad)
    }
}
