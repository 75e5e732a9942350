//! A run that begins with the queue that is found.
ghost use Rattle.std.specs.Prelude.{◌≡◌, ℕ, ◌≤◌, ◌<◌, ◌^◌, [], true, false, None, IfErr, IfOk};
ghost use Rattle.mas_types.specs.Fit.{IsConfig};
ghost use Rattle.mas_types.specs.Sound.{IsSound};
ghost use Rattle.mas_types.specs.declared.ids.Dev.TheVariants.{Ckpt1, Ckpt2};
ghost use Rattle.mas_types.specs.declared.ids.Dev.{Dev};
ghost use Rattle.spool_plant.specs.declared.plant.Part.TheVariants.{Disk};
ghost use Rattle.spool_plant.specs.View.{disk_now};
ghost use Rattle.ckpt_form.specs.Form.{form_reads, form_needs};
ghost use Rattle.ckpt_tables.specs.Shape.{page_count};
ghost use Rattle.duplex_pair.specs.Halves.{SomeAlive};
ghost use Rattle.spool_volumes.specs.Volumes.{AreRoomy};
ghost use Rattle.member_node.specs.Copies.{RestsAt};
ghost use Rattle.member_node.specs.Drawn.{AreDrawn};
ghost use Rattle.queue_effect.specs.Standing.{AreFit};
ghost use Rattle.queue_telling.specs.Orders.{HaveOrders};
ghost use Rattle.queue_telling.specs.Telling.{Tell, TellSound};
ghost use Rattle.run_opening.specs.Runs.{Begins};
ghost use Rattle.run_opening.specs.Unstarted.{status_of_start as status_of_start_lem};
ghost use Rattle.mas_complex.specs.Locking.{book_of};
ghost use Rattle.mas_complex.specs.Paper.{no_counts};
ghost use Rattle.mas_complex.specs.Past.{noted_by, values_of};
ghost use Rattle.mas_complex.specs.Renewals.{no_renewals};
ghost use Rattle.run_opening.specs.Openings.{EndsFirst, IsOpenRun, IsResetRun, IsUnreset};
ghost use Rattle.run_opening.specs.Wires.{HaveRead};

use crate::ended::{Ended, end_run, status_of, unbegun};
use crate::members::{members_of, readers_of};
use crate::reset::restart;
use crate::running::OpenRun;
use ckpt_copy::Copying;
use ckpt_form::CopyForm;
use duplex_pair::Pair;
use mas_types::{Dev, MemberId, Status};
use member_node::{Checkpoint, Member};
use queue_effect::law_of_fit_tables;
use queue_tables::law_of_told_queues;
use script_lang::Script;
use spool_plant::Plant;
use std::alloc::Global;
use warm_start::{StartNo, Started, Unstarted, warm};

/// The operator, who gives Restart.
const OPERATOR: MemberId = MemberId(0);

/// The pages of a copy, until it is looked at.
const PAGES: u16 = 1;

/// The status of a run whose start found no queue.
pub fn status_of_start(why: StartNo) -> Status
    ensures { result ≡ status_of_start_lem why }
{
    match why {
        StartNo::NotFormatted { first, second } => Status::NotFormatted { first, second },
        StartNo::BothLost => Status::BothLost,
        StartNo::DeviceSize { dev, size } => Status::DeviceSize { dev, size },
        StartNo::NoMemory => Status::NoMemory,
    }
}

// Gives Restart, by the operator with the checkpoint that is found. The run is open then; or it ended in that, out of
// memory, or as both copies were lost.
fn reset_found<P: Plant + Drop>(
    alloc: Global,
    found: Started<P, CopyForm>,
) -> Result<OpenRun<P, CopyForm>, Ended<P>>
    requires book { found.complex.book ≡ book_of found.complex.base.config }
    requires unreserved { found.complex.reserved ≡ None }
    requires printed { found.complex.printed ≡ no_counts }
    requires unrenewed { found.complex.renewals ≡ no_renewals }
    requires config { IsConfig found.complex.base.config }
    requires base_sound { IsSound found.complex.base }
    requires roomy { P.tells → AreRoomy (P.view found.complex.plant) found.complex.base.config }
    requires large { (form_needs (page_count found.complex.base.config) ≤ (P.view found.complex.plant).size Ckpt1)
        × (form_needs (page_count found.complex.base.config) ≤ (P.view found.complex.plant).size Ckpt2) }
    requires none { found.complex.current ≡ None }
    requires unplaced { found.complex.placed ≡ false }
    requires drawn { AreDrawn found.tables found.complex.level found.levels found.pages }
    requires queue { Tell found.tables found.complex.base }
    requires fit { AreFit found.tables }
    requires orders { HaveOrders found.tables }
    requires sound { TellSound found.tables }
    requires rests1 { RestsAt P.tells found.complex.pair.first.alive found.complex.first
        (⟦<CopyForm as Copying>⟧.count found.complex.pair.first.copy) found.pages
        (form_reads (disk_now (P.view found.complex.plant) Ckpt1).bytes) }
    requires rests2 { RestsAt P.tells found.complex.pair.second.alive found.complex.second
        (⟦<CopyForm as Copying>⟧.count found.complex.pair.second.copy) found.pages
        (form_reads (disk_now (P.view found.complex.plant) Ckpt2).bytes) }
    requires order { found.tables.order < 2 ^ 62 }
    requires level { found.complex.level < 2 ^ 62 }
    requires journal { found.complex.journal.batches ≡ [] }
    requires noted { (m : ℕ) → 0 < m → noted_by (values_of found.complex.had) m ≡ [] }
    requires since { found.complex.since ≡ (P.view found.complex.plant).now }
    requires some { SomeAlive found.complex.pair.first.alive found.complex.pair.second.alive }
    requires there1 { found.complex.pair.first.alive ≡ true → (P.view found.complex.plant).lost (Disk Ckpt1) ≡ false }
    requires there2 { found.complex.pair.second.alive ≡ true → (P.view found.complex.plant).lost (Disk Ckpt2) ≡ false }
    ensures reset { IfOk result (λ run. IsResetRun found.complex run.complex run.members) }
    ensures readers { IfOk result (λ run. HaveRead run.complex run.readers) }
    ensures ended { IfErr result (λ e. IsUnreset found.complex e.status e.base e.journal e.since (P.view e.plant)) }
{
    let Started {
        complex,
        tables,
        pages,
        levels,
    } = found;
    let mut complex = complex;
    let config = complex.base.config();
    let checkpoint = Checkpoint {
        tables,
        level: complex.level,
        levels,
        pages,
    };
    let Ok(members) = members_of(alloc, &config) else {
        return Err(end_run(Status::NoMemory, complex));
    };
    let Ok(readers) = readers_of(alloc, &config) else {
        return Err(end_run(Status::NoMemory, complex));
    };
    let Ok(operator) = Member::with(alloc, OPERATOR, checkpoint) else {
        return Err(end_run(Status::NoMemory, complex));
    };
    let mut operator = operator;
    match restart(&mut operator, alloc, &mut complex) {
        Ok(()) => Ok(OpenRun {
            complex,
            members,
            readers,
        }),
        Err(why) => Err(end_run(status_of(&Err(why)), complex)),
    }
}

/// Begins with the queue that the copies are found with, and gives Restart. The run is open then, and its lines can be
/// played. Or it ended before: the start found no queue, a device is too small, both copies were lost, or there was no
/// memory.
pub(crate) fn open_warm<P: Plant + Drop>(
    alloc: Global,
    script: &Script,
    plant: P,
) -> Result<OpenRun<P, CopyForm>, Ended<P>>
    ensures open { IfOk result (λ run. IsOpenRun false P.tells script.now (P.view plant) run.complex run.members) }
    ensures readers { IfOk result (λ run. HaveRead run.complex run.readers) }
    ensures ended { IfErr result (λ e. EndsFirst false P.tells (e.plant ≡ plant) script.now e.status e.base e.journal
        e.since (P.view plant) (P.view e.plant)) }
{
    let pair = Pair::new(
        CopyForm::new(Dev::Ckpt1, PAGES),
        CopyForm::new(Dev::Ckpt2, PAGES),
    );
    let found = match warm(alloc, plant, pair) {
        Ok(found) => found,
        Err(Unstarted { plant, why }) => {
            return Err(unbegun(alloc, status_of_start(why), plant));
        }
    };
    law_of_fit_tables();
    law_of_told_queues();
    reset_found(alloc, found)
}
