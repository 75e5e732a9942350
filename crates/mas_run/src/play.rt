//! The lines of a script that are played on a run that is open.
ghost use Rattle.mas_run.specs.Names.{steps_most, Dev, IsPlayed, Grows, IsCausedFrom, is_of_play, Proceeds, HaveRead};
ghost use Rattle.std.specs.Prelude.{◌≡◌, ◌≤◌, true, length, All};
ghost use Rattle.mas_run.specs.Runs.{IsOpenForLines, IsPlay, run_result};

use crate::running::Running;
use ckpt_form::CopyForm;
use mas_types::Dev;
use run_opening::{Ended, OpenRun, end_run, status_of};
use script_lang::Step;
use spool_plant::Plant;
use std::alloc::Global;

/// Plays the lines of a script on a run that is open, and ends it.
pub(crate) fn play_asked<P: Plant + Drop>(
    alloc: Global,
    lines: &[Step],
    run: OpenRun<P, CopyForm>,
) -> Ended<P>
    requires few { length lines.now ≤ steps_most }
    requires played { All IsPlayed lines.now }
    requires open { IsOpenForLines run.complex run.members }
    requires readers { HaveRead run.complex run.readers }
    ensures base { result.base ≡ run.complex.base }
    ensures since { result.since ≡ run.complex.since }
    ensures kind { is_of_play result.status ≡ true }
    ensures goes { Proceeds (P.view run.complex.plant) (P.view result.plant) }
    ensures grow { (d : Dev) → Grows ((P.view run.complex.plant).loses d) ((P.view result.plant).loses d) }
    ensures cause { IsCausedFrom run.complex.pair.first.alive run.complex.pair.second.alive result.status
        (P.view run.complex.plant) (P.view result.plant) }
    ensures play { IsPlay P.tells lines.now run.complex.journal.batches (P.view run.complex.plant)
        (run_result result.status result.base result.journal result.since (P.view result.plant)) }
{
    let OpenRun {
        complex,
        members,
        readers,
    } = run;
    let mut run = Running {
        complex,
        members,
        readers,
    };
    let answer = run.play_lines(alloc, lines);
    end_run(status_of(&answer), run.complex)
}
