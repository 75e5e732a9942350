//! Decodes all pages of the largest spool, and encodes pages of it.
ghost use Rattle.std.specs.Prelude.{◌≡◌, length, IfOk};
ghost use Rattle.ckpt_tables.specs.Shape.{HasShape, page_count as page_count_lem};

use crate::samples::{first_levels, full_tables};
use ckpt_pages::{PageNo, decode, encode, encode_page};
use ckpt_tables::Tables;
use mas_types::{Level, List, NoMemory, Page};
use std::alloc::Global;

// Decodes all pages so many times.
fn decode_often(alloc: Global, pages: &[Page], count: u32) -> Result<(), PageNo> {
    for _time in 0..count {
        let _tables = decode(alloc, pages)?;
    }
    Ok(())
}

// Encodes so many pages, each in turn, and tells how many are not those.
fn encode_often(tables: &Tables, levels: &List<Level>, pages: &[Page], count: u32) -> u32
    requires shape { HasShape tables.now }
    requires levels { length levels.now ≡ 323 }
    requires counted { page_count_lem tables.now.config ≡ 323 }
    requires pages { length pages.now ≡ 323 }
{
    let mut page = Page([0; 4096]);
    let mut others = 0;
    for time in 0..count {
        let number = time % 323;
        encode_page(tables, number as u16, levels, &mut page);
        if page.0 != pages[number as usize].0 {
            others += 1;
        }
    }
    others
}

// All pages of the tables.
fn pages_of(alloc: Global, tables: &Tables, levels: &List<Level>) -> Result<List<Page>, NoMemory>
    requires shape { HasShape tables.now }
    requires levels { length levels.now ≡ 323 }
    requires pages { page_count_lem tables.now.config ≡ 323 }
    ensures { IfOk result (λ pages. length pages ≡ 323) }
{
    encode(alloc, tables, levels)
}

// How many pages of these tables were encoded to others than before.
fn others_of(alloc: Global, tables: &Tables, decodes: u32, encodes: u32) -> Result<u32, PageNo>
    requires shape { HasShape tables.now }
    requires pages { page_count_lem tables.now.config ≡ 323 }
{
    let Ok(levels) = first_levels(alloc) else {
        return Err(PageNo::NoMemory);
    };
    let Ok(pages) = pages_of(alloc, tables, &levels) else {
        return Err(PageNo::NoMemory);
    };
    decode_often(alloc, pages.as_slice(), decodes)?;
    Ok(encode_often(tables, &levels, pages.as_slice(), encodes))
}

// How many pages of full tables were encoded to others than before.
fn others(alloc: Global, decodes: u32, encodes: u32) -> Result<u32, PageNo> {
    let Ok(tables) = full_tables(alloc) else {
        return Err(PageNo::NoMemory);
    };
    let others = others_of(alloc, &tables, decodes, encodes);
    drop(tables);
    others
}

/// Decodes all pages so many times, and encodes so many of them, each as it was before.
pub fn run(alloc: Global, numbers: [u32; 3]) -> bool {
    matches!(others(alloc, numbers[0], numbers[1]), Ok(0))
}
