//! A run up to its lines.
ghost use Rattle.std.specs.Prelude.{◌≡◌, ◌<◌, IfOk, IfErr};
ghost use Rattle.script_laws.specs.Limits.{IsScript};
ghost use Rattle.run_opening.specs.Openings.{EndsFirst, IsOpenRun};
ghost use Rattle.run_opening.specs.Wires.{HaveRead};

use crate::ended::Ended;
use crate::formatted::open_cold;
use crate::found::open_warm;
use crate::running::OpenRun;
use ckpt_form::CopyForm;
use script_lang::Script;
use spool_plant::Plant;
use std::alloc::Global;

/// Opens the run of a script that was read, cold or warm: what it begins with is formatted or found, and a warm one is
/// reset. Its lines can be played then. Or it ended before that.
pub fn open_run<P: Plant + Drop>(
    alloc: Global,
    cold: bool,
    script: &Script,
    plant: P,
) -> Result<OpenRun<P, CopyForm>, Ended<P>>
    requires fits { IsScript script.now }
    ensures open { IfOk result (λ run. IsOpenRun cold P.tells script.now (P.view plant) run.complex run.members) }
    ensures readers { IfOk result (λ run. HaveRead run.complex run.readers) }
    ensures ended { IfErr result (λ e. EndsFirst cold P.tells (e.plant ≡ plant) script.now e.status e.base e.journal
        e.since (P.view plant) (P.view e.plant)) }
{
    if cold {
        open_cold(alloc, script, plant)
    } else {
        open_warm(alloc, script, plant)
    }
}
