//! A run that begins with an empty queue.
ghost use Rattle.std.specs.Prelude.{◌≡◌, ◌*◌, ◌≤◌, [], true, false, length, All, IfOk, IfErr, OnOk, None, Some};
ghost use Rattle.mas_types.specs.Starts.{empty_queue as queue_without_jobs};
ghost use Rattle.mas_types.specs.Fit.{IsConfig};
ghost use Rattle.mas_types.specs.Limits.{routes_most, wires_most};
ghost use Rattle.mas_types.specs.Lists.{first_some};
ghost use Rattle.mas_types.specs.declared.ids.Dev.TheVariants.{Ckpt1, Ckpt2};
ghost use Rattle.mas_types.specs.declared.ids.Dev.{Dev};
ghost use Rattle.ckpt_tables.specs.Shape.{IsRoute};
ghost use Rattle.ckpt_pages.specs.Starts.{empty_tables};
ghost use Rattle.script_laws.specs.Limits.{IsScript};
ghost use Rattle.run_opening.specs.Refusals.{bytes_needed, refused_devices, IsDeviceSize};
ghost use Rattle.spool_volumes.specs.Volumes.{AreRoomy};
ghost use Rattle.member_node.specs.Drawn.{AreDrawn};
ghost use Rattle.run_opening.specs.Statuses.{is_of_text};
ghost use Rattle.run_opening.specs.Fresh.{AreFresh};
ghost use Rattle.run_opening.specs.Openings.{EndsFirst, IsOpenRun};
ghost use Rattle.run_opening.specs.Wires.{HaveRead};

use crate::ended::{Ended, unbegun};
use crate::found::status_of_start;
use crate::members::{members_of, readers_of};
use crate::running::OpenRun;
use ckpt_copy::Copying;
use ckpt_form::CopyForm;
use ckpt_tables::page_count;
use duplex_pair::Pair;
use mas_complex::{BriefQueue, Complex};
use mas_types::{Config, Dev, List, MemberId, NoMemory, Route, Status, empty_queue};
use member_node::{Checkpoint, Member, blank};
use nje_frames::FrameReader;
use queue_tables::law_of_told_queues;
use script_lang::Script;
use spool_plant::Plant;
use std::alloc::Global;
use warm_start::refuse_small;

/// The operator, who formats the copies.
const OPERATOR: MemberId = MemberId(0);

// What a cold run begins with.
#[derive(Drop)]
struct Beginning {
    base: BriefQueue,
    members: List<Member>,
    readers: List<FrameReader>,
    // What is formatted.
    checkpoint: Checkpoint,
}

// The empty queue of a configuration and routes, the members of the configuration, and the pages of the queue.
fn start(alloc: Global, config: &Config, routes: &List<Route>) -> Result<Beginning, NoMemory>
    requires config { IsConfig config.now }
    requires few { length routes.now ≤ routes_most }
    requires routes { All IsRoute routes.now }
    ensures base { IfOk result (λ start. start.base ≡ queue_without_jobs config.now routes.now) }
    ensures members { IfOk result (λ start. AreFresh config.now start.members) }
    ensures many { IfOk result (λ start. length start.readers ≡ wires_most * config.now.members) }
    ensures new { IfOk result (λ start. All (λ reader. reader ≡ Some []) start.readers) }
    ensures tables { IfOk result (λ start. start.checkpoint.tables ≡ empty_tables config.now routes.now) }
    ensures level { IfOk result (λ start. start.checkpoint.level ≡ 1) }
    ensures drawn { IfOk result (λ start.
        AreDrawn start.checkpoint.tables start.checkpoint.level start.checkpoint.levels start.checkpoint.pages) }
{
    Ok(Beginning {
        base: BriefQueue::without_jobs(alloc, empty_queue(alloc, config, routes)?),
        members: members_of(alloc, config)?,
        readers: readers_of(alloc, config)?,
        checkpoint: blank(alloc, config, routes)?,
    })
}

// How many bytes a checkpoint device needs.
fn bytes_for(config: &Config) -> u64
    requires { IsConfig config.now }
    ensures { result ≡ bytes_needed config.now }
{
    CopyForm::size_for(page_count(config))
}

// Refuses the first device that is too small for a configuration.
fn refuse_devices<P: Plant>(plant: &P, config: &Config) -> Result<(), Status>
    requires { IsConfig config.now }
    ensures refused { IfErr result
        (λ status. first_some (refused_devices config.now (P.view plant.now)) ≡ Some status) }
    ensures small { IfErr result (λ status. IsDeviceSize config.now status (P.view plant.now)) }
    ensures no_text { IfErr result (λ status. is_of_text status ≡ false) }
    ensures none { OnOk result (first_some (refused_devices config.now (P.view plant.now)) ≡ None) }
    ensures large { OnOk result ((bytes_needed config.now ≤ (P.view plant.now).size Ckpt1)
        × (bytes_needed config.now ≤ (P.view plant.now).size Ckpt2)) }
    ensures roomy { OnOk result (AreRoomy (P.view plant.now) config.now) }
{
    let needed = bytes_for(config);
    match refuse_small(plant, needed, config) {
        Ok(()) => Ok(()),
        Err(why) => Err(status_of_start(why)),
    }
}

/// Formats both copies with the empty queue of the script's configuration and routes. A copy that fails is left out.
/// The run is open then, and its lines can be played. Or it ended before: a device is too small, both copies were lost,
/// or there was no memory.
pub(crate) fn open_cold<P: Plant + Drop>(
    alloc: Global,
    script: &Script,
    plant: P,
) -> Result<OpenRun<P, CopyForm>, Ended<P>>
    requires fits { IsScript script.now }
    ensures config { IfOk result (λ run. run.complex.base.config ≡ script.now.config) }
    ensures open { IfOk result (λ run. IsOpenRun true P.tells script.now (P.view plant) run.complex run.members) }
    ensures readers { IfOk result (λ run. HaveRead run.complex run.readers) }
    ensures ended { IfErr result (λ e. EndsFirst true P.tells (e.plant ≡ plant) script.now e.status e.base e.journal
        e.since (P.view plant) (P.view e.plant)) }
{
    let config = &script.config;
    if let Err(status) = refuse_devices(&plant, config) {
        return Err(unbegun(alloc, status, plant));
    }
    let Ok(
        Beginning {
            base,
            members,
            readers,
            checkpoint,
        },
    ) = start(alloc, config, &script.routes)
    else {
        return Err(unbegun(alloc, Status::NoMemory, plant));
    };
    let mut plant = plant;
    let count = page_count(config);
    let mut pair = Pair::new(
        CopyForm::new(Dev::Ckpt1, count),
        CopyForm::new(Dev::Ckpt2, count),
    );
    // The operator never halts.
    let Ok(()) = pair.form(&mut plant, OPERATOR, checkpoint.pages.as_slice()) else {
        return Err(unbegun(alloc, Status::BothLost, plant));
    };
    law_of_told_queues();
    let complex = Complex::make(alloc, plant, pair, base, checkpoint.level);
    Ok(OpenRun {
        complex,
        members,
        readers,
    })
}
