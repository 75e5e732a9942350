//! Pages that a start may begin with.
ghost use Rattle.std.specs.Prelude.{◌≡◌, true, false, IfOk, IfSome, IfNone};
ghost use Rattle.ckpt_tables.specs.Shape.{HasShape};
ghost use Rattle.start_choice.specs.Usable.{IsUsable, AreOf, MayStart};

use ckpt_pages::{PageNo, decode, first_fault};
use ckpt_tables::Tables;
use duplex_pair::pages_level;
use mas_types::{NoMemory, Page};
use std::alloc::Global;

/// From here on a level or an order leaves a run no room: no checkpoint of this program comes so far.
const TOO_HIGH: u64 = 1 << 62;

// Whether a run may start with these pages and the tables that they spell.
fn may_start(alloc: Global, pages: &[Page], tables: &Tables) -> Result<bool, NoMemory>
    requires { HasShape tables.now }
    ensures may { IfOk result (λ may. may ≡ true → MayStart pages.now tables.now) }
    ensures not { IfOk result (λ may. may ≡ false → MayStart pages.now tables.now → ⊥) }
{
    if pages_level(pages) >= TOO_HIGH || tables.order >= TOO_HIGH {
        return Ok(false);
    }
    match first_fault(alloc, tables)? {
        None => Ok(true),
        Some(_) => Ok(false),
    }
}

/// The tables that the pages of a checkpoint spell, where these are sound and a run finds levels and orders enough
/// above theirs; none exactly where the pages spell no tables, or other ones. NoMemory comes only when out of memory.
pub fn usable(alloc: Global, pages: &[Page]) -> Result<Option<Tables>, NoMemory>
    ensures tables { IfOk result (λ found. IfSome found (AreOf pages.now)) }
    ensures none { IfOk result (λ found. IfNone found (IsUsable pages.now → ⊥)) }
{
    let tables = match decode(alloc, pages) {
        Ok(tables) => tables,
        Err(PageNo::BadPage(_)) => return Ok(None),
        Err(PageNo::NoMemory) => return Err(NoMemory),
    };
    let may = may_start(alloc, pages, &tables)?;
    if may { Ok(Some(tables)) } else { Ok(None) }
}
