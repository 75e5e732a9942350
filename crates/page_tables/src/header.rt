//! The header of page 0, for tables of a known configuration.
ghost use Rattle.std.specs.Prelude.{◌≡◌, ◌+◌, ◌*◌, ◌≤◌, ◌<◌, length, take, drop, true, false, nat_lt};
ghost use Rattle.std.specs.Int.{w64, from_be_bytes};
ghost use Rattle.mas_types.specs.Fit.{IsConfig};
ghost use Rattle.mas_types.specs.Limits.{page_bytes};
ghost use Rattle.lay_bytes.specs.Fields.{piece, pieces};
ghost use Rattle.ckpt_tables.specs.Shape.{level_in, page_count as page_count_lem};
ghost use Rattle.ckpt_pages.specs.Fields.{header_fields, header_in};
ghost use Rattle.ckpt_pages.specs.Headers.{config_of};
ghost use Rattle.ckpt_pages.specs.Testing.{SomeLevels, NoLevels};
ghost use Rattle.page_tables.specs.Bringing.{HasHeader, IsHead, order_in, said_config};

use ckpt_tables::bytes_in;
use lay_bytes::{Field, check_fields, is_zero, read_u16, read_u64};
use mas_types::{Config, Level, Name8, Page};

/// `MASCKPT1` as a number.
const MARK: u64 = 5_566_822_162_898_113_585;
/// The greatest level and the greatest order.
const AGE_MOST: u64 = 9_223_372_036_854_775_807;
/// The bytes of the header.
const HEADER_BYTES: usize = 1_024;

const HEADER_FIELDS: [Field; 16] = [
    Field::Long(MARK, MARK),
    Field::Long(1, AGE_MOST),
    Field::Byte(1, 1),
    Field::Byte(1, 8),
    Field::Byte(1, 8),
    Field::Zeros(1),
    Field::Half(16, 2_048),
    Field::Half(32, 4_096),
    Field::Half(1, 4_096),
    Field::Half(1, 9_999),
    Field::Half(0, 9_999),
    Field::Zeros(2),
    Field::Word(0, 99_999),
    Field::Zeros(4),
    Field::Long(0, AGE_MOST),
    Field::Zeros(976),
];

// The bytes of page 0 before the levels.
pub(crate) fn head_of(page0: &Page) -> &[u8]
    ensures bytes { result.now ≡ take 1024 page0.now.0 }
    ensures size { length result.now ≡ 1024 }
{
    &bytes_in(page0)[..HEADER_BYTES]
}

/// The order that page 0 says, which the next job or output gets.
pub fn order_of(page0: &Page) -> u64
    ensures { result ≡ order_in page0.now.0 }
{
    read_u64(head_of(page0), 40)
}

// The number of eight bytes at an offset, which are copied at once.
fn long_at(bytes: &[u8], at: usize) -> u64
    requires { at + 8 ≤ length bytes.now }
    ensures { result ≡ from_be_bytes w64 (piece at 8 bytes.now) }
{
    let mut long = [0; 8];
    long.copy_from_slice(&bytes[at..at + 8]);
    u64::from_be_bytes(long)
}

/// The level of a page, as page 0 gives it, read with one test of its place.
pub fn level_at(page0: &Page, page: u16) -> Level
    requires { page < 384 }
    ensures { result ≡ level_in page0.now.0 page }
{
    if page == 0 {
        long_at(bytes_in(page0), 8)
    } else {
        long_at(bytes_in(page0), 1024 + 8 * page as usize)
    }
}

/// Whether a page is newer than pages of this level, as page 0 gives it.
pub fn is_newer(page0: &Page, page: u16, level: Level) -> bool
    requires { page < 384 }
    ensures { result ≡ nat_lt level (level_in page0.now.0 page) }
{
    level_at(page0, page) > level
}

// The configuration that a header says, with this name of the node, which stands on page 2.
fn config_in(head: &[u8], node: Name8) -> Config
    requires { length head.now ≡ 1024 }
    ensures { result ≡ config_of (header_in (pieces 0 header_fields head.now)) node }
{
    Config {
        members: head[17],
        jobs: read_u16(head, 20),
        outputs: read_u16(head, 22),
        volumes: head[18],
        groups: read_u16(head, 24),
        hold: read_u16(head, 26),
        dormancy: read_u16(head, 28),
        node,
    }
}

// Whether so many levels from 1 to this one stand from the first byte on, this one first, and zeros after them.
fn are_levels(level: Level, bytes: &[u8], count: usize) -> bool
    requires some { 1 ≤ count }
    requires room { 8 * count ≤ length bytes.now }
    ensures good { result ≡ true → SomeLevels level count bytes.now }
    ensures bad { result ≡ false → NoLevels level count bytes.now }
{
    if read_u64(bytes, 0) != level {
        return false;
    }
    for page in 0..count {
        let age = long_at(bytes, 8 * page);
        if age < 1 || level < age {
            return false;
        }
    }
    is_zero(&bytes[8 * count..])
}

// Whether two configurations are the same.
fn is_same(one: &Config, other: &Config) -> bool
    ensures same { result ≡ true → one.now ≡ other.now }
    ensures apart { result ≡ false → one.now ≡ other.now → ⊥ }
{
    *one == *other
}

// Whether page 0 says this configuration, except for the name of the node.
pub(crate) fn is_said(config: &Config, page0: &Page) -> bool
    ensures same { result ≡ true → said_config config.now.node page0.now.0 ≡ config.now }
    ensures other { result ≡ false → said_config config.now.node page0.now.0 ≡ config.now → ⊥ }
{
    let said = config_in(head_of(page0), config.node);
    is_same(&said, config)
}

// Whether a header has its fields, and says this configuration, except for the name of the node.
fn is_head(config: &Config, head: &[u8]) -> bool
    requires config { IsConfig config.now }
    requires size { length head.now ≡ 1024 }
    ensures good { result ≡ true → IsHead config.now head.now }
    ensures bad { result ≡ false → IsHead config.now head.now → ⊥ }
{
    let said = config_in(head, config.node);
    if !is_same(&said, config) {
        return false;
    }
    let Ok(()) = check_fields(&HEADER_FIELDS, head) else {
        return false;
    };
    true
}

// Whether page 0 is a header of this configuration, except for the name of the node.
pub(crate) fn has_header(config: &Config, pages: &[Page]) -> bool
    requires config { IsConfig config.now }
    requires count { length pages.now ≡ page_count_lem config.now }
    ensures good { result ≡ true → HasHeader config.now pages.now }
    ensures bad { result ≡ false → HasHeader config.now pages.now → ⊥ }
{
    let (head, rest) = bytes_in(&pages[0]).split_at(HEADER_BYTES);
    if !is_head(config, head) {
        return false;
    }
    are_levels(read_u64(head, 8), rest, pages.len())
}
