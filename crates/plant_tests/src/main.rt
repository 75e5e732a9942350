//! Acts on a plant in memory, as the lines of standard input ask for them: each line is told again, and behind it how
//! the act ended or what stands there. Checkpoints have four bytes and the one volume eight; a zero is told as a point
//! and a byte of ones as #.
#![tactic(auto)]

mod acts;
mod shows;

use acts::Plants;
use std::io::Write;
use std::process::ExitCode;

fn run(rt: &HostRuntime, plants: &mut Plants) {
    for line in rt.lines(rt.alloc()) {
        match line {
            Ok(line) => plants.read(line.as_str()),
            Err(_) => plants.out.lack(),
        }
    }
}

fn main(rt: HostRuntime) -> ExitCode {
    let Ok(mut plants) = Plants::new(rt.alloc()) else {
        return ExitCode::FAILURE;
    };
    run(&rt, &mut plants);
    if rt.stdout().write_all(plants.out.bytes()).is_ok() && plants.out.is_whole() {
        ExitCode::SUCCESS
    } else {
        ExitCode::FAILURE
    }
}
