//! A look at both copies of the checkpoint, which changes neither.
ghost use Rattle.std.specs.Prelude.{◌≡◌, IfOk, IfErr, true};
ghost use Rattle.ckpt_form.specs.Form.{form_reads, form_needs};
ghost use Rattle.warm_start.specs.Inspecting.{Looks, HasFound, FindsNone, HasLooked, SeesNone, AreFoundAgain, greatest as greatest_lem};

use crate::looking::look_at_both;
use crate::queues::queue_of;
use crate::starting::{choose_copy, refuse_small};
use ckpt_copy::Copying;
use ckpt_form::CopyForm;
use ckpt_pages::law_of_checkpoints;
use duplex_pair::{Look, Pair, better_of};
use mas_complex::Steady;
use mas_types::{CopyState, Dev, List, Page, Queue};
use spool_plant::Plant;
use start_choice::StartNo;
use std::alloc::Global;

/// The pages of a copy, until it is looked at.
const PAGES: u16 = 1;

// What looks at both copies give together: the pages of greatest level, the first on a tie, or why there are none.
fn greatest(first: Look, second: Look) -> Result<List<Page>, StartNo>
    ensures { result ≡ greatest_lem first second }
{
    match (first, second) {
        (Look::Pages(one), Look::Pages(two)) => Ok(better_of(one, two)),
        (Look::Pages(one), Look::Lost) => Ok(one),
        (Look::Pages(one), Look::Unread) => Ok(one),
        (Look::Lost, Look::Pages(two)) => Ok(two),
        (Look::Unread, Look::Pages(two)) => Ok(two),
        (Look::Lost, Look::Lost) => Err(StartNo::BothLost),
        (Look::Lost, Look::Unread) => Err(StartNo::NotFormatted {
            first: CopyState::Lost,
            second: CopyState::Unread,
        }),
        (Look::Unread, Look::Lost) => Err(StartNo::NotFormatted {
            first: CopyState::Unread,
            second: CopyState::Lost,
        }),
        (Look::Unread, Look::Unread) => Err(StartNo::NotFormatted {
            first: CopyState::Unread,
            second: CopyState::Unread,
        }),
    }
}

// The two copies, of which nothing is known yet.
fn copies() -> Pair<CopyForm>
    ensures alive1 { result.first.alive ≡ true }
    ensures alive2 { result.second.alive ≡ true }
{
    Pair::new(
        CopyForm::new(Dev::Ckpt1, PAGES),
        CopyForm::new(Dev::Ckpt2, PAGES),
    )
}

// The queue of the copy that counts.
fn find_queue<P: Plant, C: Steady + Drop>(
    alloc: Global,
    plant: &mut P,
    pair: &mut Pair<C>,
) -> Result<Queue, StartNo>
    requires alive1 { pair.old.first.alive ≡ true }
    requires alive2 { pair.old.second.alive ≡ true }
    ensures queue { IfOk result (HasFound C.reads P.tells C.needs (P.view plant.old) (P.view plant.new)) }
    ensures none { IfErr result (FindsNone C.reads P.tells C.needs (P.view plant.old) (P.view plant.new)) }
    ensures looks { Looks P.tells (P.view plant.old) (P.view plant.new) }
{
    let start = choose_copy(alloc, plant, pair)?;
    let needed = C::size_for(start.found.pages.len() as u16);
    refuse_small(plant, needed, &start.found.tables.config)?;
    let Ok(queue) = queue_of(alloc, &start.found.tables) else {
        return Err(StartNo::NoMemory);
    };
    Ok(queue)
}

// The pages of greatest level.
fn find_pages<P: Plant, C: Steady + Drop>(
    alloc: Global,
    plant: &mut P,
    pair: &mut Pair<C>,
) -> Result<List<Page>, StartNo>
    requires alive1 { pair.old.first.alive ≡ true }
    requires alive2 { pair.old.second.alive ≡ true }
    ensures pages { IfOk result (HasLooked C.reads P.tells (P.view plant.old) (P.view plant.new)) }
    ensures none { IfErr result (SeesNone C.reads P.tells (P.view plant.old) (P.view plant.new)) }
    ensures looks { Looks P.tells (P.view plant.old) (P.view plant.new) }
{
    let Ok((first, second)) = look_at_both(alloc, plant, pair) else {
        return Err(StartNo::NoMemory);
    };
    greatest(first, second)
}

/// The queue that a warm start would find, without its texts: that of the usable copy of greatest level, CKPT1 on a
/// tie.
///
/// Both copies are synced and read. No byte is changed and no copy is lost by a call; an act that fails loses its
/// device, as ever. Restart isn't given.
///
/// NotFormatted comes where no copy can be used while one isn't lost, with the state of each; BothLost where an act on
/// each copy failed; DeviceSize where a device is too small for the pages found, or a volume that isn't lost for the
/// groups of their configuration, the first such; NoMemory if the run is out of memory.
pub fn found<P: Plant>(alloc: Global, plant: &mut P) -> Result<Queue, StartNo>
    ensures queue { IfOk result (HasFound form_reads P.tells form_needs (P.view plant.old) (P.view plant.new)) }
    ensures none { IfErr result (FindsNone form_reads P.tells form_needs (P.view plant.old) (P.view plant.new)) }
    ensures looks { Looks P.tells (P.view plant.old) (P.view plant.new) }
{
    let mut pair = copies();
    find_queue(alloc, plant, &mut pair)
}

/// The pages of the copy of greatest level that reads, CKPT1 on a tie, whether they can be used or not.
///
/// Both copies are synced and read. No byte is changed and no copy is lost by a call; an act that fails loses its
/// device, as ever.
///
/// NotFormatted comes where no copy reads while one isn't lost, with the state of each; BothLost where an act on each
/// copy failed; NoMemory if the run is out of memory. DeviceSize never comes.
pub fn looked<P: Plant>(alloc: Global, plant: &mut P) -> Result<List<Page>, StartNo>
    ensures pages { IfOk result (HasLooked form_reads P.tells (P.view plant.old) (P.view plant.new)) }
    ensures none { IfErr result (SeesNone form_reads P.tells (P.view plant.old) (P.view plant.new)) }
    ensures looks { Looks P.tells (P.view plant.old) (P.view plant.new) }
{
    let mut pair = copies();
    find_pages(alloc, plant, &mut pair)
}

/// Whoever comes after a look, another look or a start, finds the pages and the tables that the look found, unless an
/// act on a copy failed.
pub fn law_of_looks()
    ensures again { AreFoundAgain }
{
    law_of_checkpoints();
}
