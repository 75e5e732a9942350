//! Plays the cases of standard input over a plant in memory, and writes what the runs say and leave.
#![tactic(auto)]

use mas_run::play_script;
use mas_types::NoMemory;
use run_cases::{Case, Played, Player, Run, Told, take};
use spool_disk::{MemPlant, MemSource};
use std::alloc::Global;
use std::io::Write;
use std::process::ExitCode;

/// Plays scripts as the program does.
#[derive(Drop)]
struct Spool {
    alloc: Global,
}

impl Player for Spool {
    fn alloc(&self) -> Global {
        self.alloc
    }

    fn play(&self, cold: bool, source: MemSource, plant: MemPlant) -> Result<Run, NoMemory> {
        let mut source = source;
        let ended = play_script(self.alloc, cold, false, &mut source, plant);
        let played = Played {
            status: ended.status,
            plant: ended.plant,
            base: ended.base,
            since: ended.since,
            journal: ended.journal,
        };
        played.boxed(self.alloc)
    }
}

// Takes each line of standard input.
fn run(rt: &HostRuntime, case: &mut Case, told: &mut Told<Spool>) -> Result<(), NoMemory> {
    for line in rt.lines(rt.alloc()) {
        let Ok(line) = line else {
            return Err(NoMemory);
        };
        take(case, told, line.as_str())?;
    }
    Ok(())
}

fn main(rt: HostRuntime) -> ExitCode {
    let mut told = Told::new(Spool { alloc: rt.alloc() });
    let mut case = Case::new(rt.alloc());
    let played = run(&rt, &mut case, &mut told);
    let is_whole = played.is_ok() && case.is_whole() && told.out.is_whole();
    if rt.stdout().write_all(told.out.bytes()).is_ok() && is_whole {
        ExitCode::SUCCESS
    } else {
        ExitCode::FAILURE
    }
}
