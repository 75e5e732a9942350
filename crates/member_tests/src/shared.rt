//! A shared value over two copies of six pages and a spool volume, and batches of one command that are written to them.
ghost use Rattle.std.specs.Prelude.{◌≡◌, length, IfOk, true, All};
ghost use Rattle.lock_cycle.specs.Books.{IsMember};
ghost use Rattle.mas_complex.specs.Locking.{MayAct};

use crate::quiet::Quiet;
use ckpt_form::CopyForm;
use mas_complex::Complex;
use mas_types::{Command, Entry, List, MemberId, NoMemory, Page, Reply};
use spool_disk::{MemPlant, Sizes};
use std::alloc::Global;

pub(crate) const OPERATOR: MemberId = MemberId(0);

// The member that is stopped.
pub(crate) const FIRST: MemberId = MemberId(1);

// The member that takes over.
pub(crate) const SECOND: MemberId = MemberId(2);

// Room for a copy of six pages, and a volume of one group.
fn sizes() -> Sizes {
    Sizes {
        ckpt: 4096 * 35,
        volumes: 1,
        volume: 4096,
    }
}

// A page of equal bytes.
pub(crate) fn page(byte: u8) -> Page {
    Page([byte; 4096])
}

// Six pages: page 0 has the level.
pub(crate) fn pages(alloc: Global, level: u8) -> Result<List<Page>, NoMemory>
    ensures { IfOk result (λ pages. length pages ≡ 6) }
{
    let mut pages = List::new(alloc);
    let mut first = page(0);
    first.0[15] = level;
    pages.push(first)?;
    pages.push(page(1))?;
    pages.push(page(2))?;
    pages.push(page(3))?;
    pages.push(page(4))?;
    pages.push(page(5))?;
    Ok(pages)
}

// A batch in which a member takes a group.
pub(crate) fn taking(alloc: Global, by: MemberId) -> Result<List<Entry>, NoMemory>
    ensures one { IfOk result (λ entries. length entries ≡ 1) }
    ensures own { IfOk result (λ entries. All (λ e. e.by ≡ by) entries) }
{
    let mut entries = List::new(alloc);
    entries.push(Entry {
        by,
        step: 1,
        command: Command::Take { want: 1 },
        reply: Reply::Count(1),
    })?;
    Ok(entries)
}

// Whether the member holds and isn't stopped.
pub(crate) fn may_act(complex: &Complex<Quiet, CopyForm>, by: MemberId) -> bool
    requires { IsMember complex.now.book by }
    ensures { result ≡ true → MayAct complex.now.book by }
{
    complex.holder() == by && !complex.stopped(by)
}

// A plant in memory on which the act of this number halts.
pub(crate) fn halting(alloc: Global, act: u64) -> Result<Quiet, NoMemory> {
    let mut plant = MemPlant::new(alloc, sizes(), 400, 800_000)?;
    plant.halt_at(act, 10);
    Ok(Quiet { plant })
}
