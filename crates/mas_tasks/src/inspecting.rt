//! The check of the checkpoint that is found.
ghost use Rattle.std.specs.Prelude.{◌≡◌, IfOk};
ghost use Rattle.run_opening.specs.Runs.{IsUnbegun};
ghost use Rattle.mas_tasks.specs.Checks.{AreLinesOf, IsCheckRun};
ghost use Rattle.mas_tasks.specs.Saying.{Says};

use crate::saying::say_lines;
use mas_check::{CheckNo, check, check_line};
use mas_types::{Lines, NoMemory, Status, Verdict};
use run_opening::{Ended, status_of_start, unbegun};
use spool_plant::Plant;
use std::alloc::Global;
use warm_start::looked;

// The one line that says what a check answered.
fn lines_of(alloc: Global, answer: &Result<Verdict, CheckNo>) -> Result<Lines, NoMemory>
    ensures { IfOk result (AreLinesOf answer.now) }
{
    let line = check_line(alloc, answer)?;
    let mut lines = Lines::new(alloc);
    lines.push(line.as_slice())?;
    Ok(lines)
}

// The end of a check: its line is said.
fn say_answer<P: Plant + Drop>(alloc: Global, lines: &Lines, plant: P) -> Ended<P>
    ensures says { Says P.tells lines.now (P.view plant) (P.view result.plant) result.status }
    ensures unbegun { IsUnbegun result.base result.journal result.since (P.view result.plant).now }
{
    let mut plant = plant;
    let status = say_lines(&mut plant, lines);
    unbegun(alloc, status, plant)
}

/// Says what is wrong with the pages of greatest level that a copy reads as, those of CKPT1 on a tie, and with their
/// texts: one line. A run doesn't begin, and no byte of a device is changed.
pub(crate) fn check_found<P: Plant + Drop>(alloc: Global, plant: P) -> Ended<P>
    ensures check { IsCheckRun P.tells result.status (P.view plant) (P.view result.plant) }
    ensures unbegun { IsUnbegun result.base result.journal result.since (P.view result.plant).now }
{
    let mut plant = plant;
    let pages = match looked(alloc, &mut plant) {
        Ok(pages) => pages,
        Err(why) => return unbegun(alloc, status_of_start(why), plant),
    };
    let answer = check(alloc, &mut plant, pages.as_slice());
    let Ok(lines) = lines_of(alloc, &answer) else {
        return unbegun(alloc, Status::NoMemory, plant);
    };
    say_answer(alloc, &lines, plant)
}
