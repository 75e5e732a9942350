//! Gives a command that concerns no job, on a queue with the least or the most jobs.
ghost use Rattle.std.specs.Prelude.{◌≡◌, ◌≤◌, ◌%◌, length, IfOk};
ghost use Rattle.mas_types.specs.Limits.{jobs_least, jobs_most, jobs_step};
ghost use Rattle.mas_types.specs.Fit.{IsConfig, IsFit};
ghost use Rattle.ckpt_tables.specs.Shape.{HasShape};
ghost use Rattle.queue_effect.specs.Standing.{AreFit};

use crate::samples::fill_jobs;
use ckpt_pages::{empty, sound};
use ckpt_tables::Tables;
use mas_types::{Class, Command, Config, List, MemberId, Name8, NoMemory, Phase};
use page_marks::Marks;
use queue_effect::{Ends, apply, law_of_fit_tables};
use queue_laws::fitness::is_fit;
use std::alloc::Global;

/// Room for the least or the most jobs.
fn room(jobs: u16) -> u16
    ensures { (jobs_least ≤ result) × (result ≤ jobs_most) × (result % jobs_step ≡ 0) }
{
    if jobs > 16 { 2_048 } else { 16 }
}

fn config(jobs: u16) -> Config
    ensures { IsConfig result }
{
    Config {
        members: 2,
        jobs: room(jobs),
        outputs: 512,
        volumes: 1,
        groups: 512,
        hold: 64,
        dormancy: 0,
        node: Name8(*b"HERE    "),
    }
}

/// Tables with a job in each slot.
pub(crate) fn full_tables(alloc: Global, jobs: u16) -> Result<Tables, NoMemory>
    ensures shape { IfOk result HasShape }
    ensures order { IfOk result (λ tables. tables.order ≡ 10000) }
{
    let mut tables = empty(alloc, &config(jobs), &List::new(alloc))?;
    tables.order = 10_000;
    fill_jobs(tables.jobs.as_mut_slice(), Phase::Convert, 0);
    Ok(tables)
}

/// Gives the command so many times; how many of them found no memory.
fn give_often(alloc: Global, tables: &mut Tables, command: &Command, times: u32) -> u32
    requires fit { AreFit tables.old }
    requires order { tables.old.order ≤ 10000 }
    requires command { IsFit command.now }
{
    let mut marks = Marks::none();
    let mut without = 0;
    for _time in 0..times {
        let ends = Ends {
            jobs: tables.jobs.len(),
            outputs: tables.outputs.len(),
        };
        if apply(alloc, tables, &mut marks, ends, MemberId(1), command).is_err() {
            without += 1;
        }
    }
    without
}

fn classes(alloc: Global) -> Result<List<Class>, NoMemory> {
    let mut classes = List::new(alloc);
    classes.push(Class(b'A'))?;
    Ok(classes)
}

// How many commands on these tables found no memory; none where the tables or the command are not as they must be.
fn given(alloc: Global, tables: &mut Tables, times: u32) -> Result<Option<u32>, NoMemory>
    requires shape { HasShape tables.old }
    requires order { tables.old.order ≡ 10000 }
{
    let command = Command::SetInit {
        classes: classes(alloc)?,
    };
    law_of_fit_tables();
    let Ok(()) = sound(tables) else {
        return Ok(None);
    };
    if !is_fit(&command) {
        return Ok(None);
    }
    Ok(Some(give_often(alloc, tables, &command, times)))
}

// How many commands on full tables of so many jobs found no memory; none where they are not as they must be.
fn without_memory(alloc: Global, jobs: u32, times: u32) -> Result<Option<u32>, NoMemory> {
    let mut tables = full_tables(alloc, jobs.min(2_048) as u16)?;
    let without = given(alloc, &mut tables, times);
    drop(tables);
    without
}

/// Gives the command as often as the second number says, on a queue with as many jobs as the first says.
pub fn run(alloc: Global, numbers: [u32; 3]) -> bool {
    matches!(without_memory(alloc, numbers[0], numbers[1]), Ok(Some(0)))
}
