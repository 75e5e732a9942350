//! A member that took a group writes on it while another member holds the lock, which it doesn't get itself.
ghost use Rattle.std.specs.Prelude.{◌≡◌, ◌≤◌, ◌<◌, length, true, None};
ghost use Rattle.mas_types.specs.Fit.{IsConfig};
ghost use Rattle.spool_plant.specs.Acts.{top};
ghost use Rattle.ckpt_places.specs.declared.places.Place.TheVariants.{Before as AtBefore};
ghost use Rattle.mas_complex.specs.Locking.{MayAct};

use crate::quiet::Quiet;
use crate::shared::{FIRST, SECOND, halting, may_act, page, pages, taking};
use crate::writing::{formed, write};
use ckpt_copy::Copying;
use ckpt_form::CopyForm;
use lock_cycle::LockNo;
use mas_complex::Complex;
use mas_types::{Dev, GroupNo, NoMemory, Page};
use spool_plant::{Act, Plant};
use std::alloc::Global;

// An act that no run comes to.
const NEVER: u64 = 300;

// The second member gives the lock up, and the first one takes it. Then the second one writes on a group, and tries for
// the lock: whether the write is done and the try refused.
fn is_beside(complex: &mut Complex<Quiet, CopyForm>) -> bool
    requires may { MayAct complex.old.book SECOND }
    requires none { complex.old.current ≡ None }
    requires members { length complex.old.book.members ≡ 2 }
    requires config { IsConfig complex.old.base.config }
{
    let Ok(()) = complex.free(SECOND, false) else {
        return false;
    };
    let Ok(()) = complex.try_lock(FIRST, false) else {
        return false;
    };
    if complex.stopped(SECOND) {
        return false;
    }
    let wrote = complex.spool_write(SECOND, GroupNo(0), &page(7));
    match complex.try_lock(SECOND, false) {
        Err(LockNo::Busy(by)) => wrote == Act::Done && by == FIRST,
        _ => false,
    }
}

// The second member takes a group in a batch: whether it then writes beside the first one's lock.
fn is_beside_on(
    alloc: Global,
    complex: &mut Complex<Quiet, CopyForm>,
    pages: &[Page],
) -> Result<bool, NoMemory>
    requires none { complex.old.current ≡ None }
    requires unreserved { complex.old.reserved ≡ None }
    requires first { complex.old.first ≡ AtBefore }
    requires second { complex.old.second ≡ AtBefore }
    requires level { complex.old.level < top }
    requires six { length pages.now ≡ 6 }
    requires count1 { complex.old.pair.first.alive ≡ true
        → ⟦<CopyForm as Copying>⟧.count complex.old.pair.first.copy ≡ 6 }
    requires count2 { complex.old.pair.second.alive ≡ true
        → ⟦<CopyForm as Copying>⟧.count complex.old.pair.second.copy ≡ 6 }
    requires room1 { complex.old.pair.first.alive ≡ true
        → 1 ≤ ⟦<CopyForm as Copying>⟧.room complex.old.pair.first.copy }
    requires room2 { complex.old.pair.second.alive ≡ true
        → 1 ≤ ⟦<CopyForm as Copying>⟧.room complex.old.pair.second.copy }
    requires members { length complex.old.book.members ≡ 2 }
    requires config { IsConfig complex.old.base.config }
{
    let Ok(()) = complex.try_lock(SECOND, false) else {
        return Ok(false);
    };
    if !may_act(complex, SECOND) {
        return Ok(false);
    }
    complex.reserve(alloc, taking(alloc, SECOND)?)?;
    let Ok(()) = write(complex, SECOND, pages) else {
        return Ok(false);
    };
    Ok(is_beside(complex))
}

// Over two new copies: whether the second member writes beside the first one's lock.
fn is_beside_on_new(alloc: Global) -> Result<bool, NoMemory> {
    let plant = halting(alloc, NEVER)?;
    if plant.size(Dev::Ckpt1) < 4096 * 35 || plant.size(Dev::Ckpt2) < 4096 * 35 {
        return Ok(false);
    }
    let first = pages(alloc, 2)?;
    let second = pages(alloc, 3)?;
    match formed(alloc, plant, first.as_slice())? {
        Some(mut complex) => is_beside_on(alloc, &mut complex, second.as_slice()),
        None => Ok(false),
    }
}

#[test]
fn a_member_writes_beside_anothers_lock(rt: HostRuntime) {
    assert!(rt; matches!(is_beside_on_new(rt.alloc()), Ok(true)));
}
