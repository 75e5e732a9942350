//! Reads what standard input gives, line by line, as the first word of a line says: words of the program, operator's
//! commands, scripts, decks and JCL. It writes each line again, and behind it what was read, or why it was refused.
#![tactic(auto)]

mod commands;
mod decks;
mod generated;
mod reading;
mod scripts;
mod sources;

use reading::{Reading, read};
use std::io::Write;
use std::process::ExitCode;

fn run(rt: &HostRuntime, reading: &mut Reading) {
    for line in rt.lines(rt.alloc()) {
        match line {
            Ok(line) => read(reading, line.as_str()),
            Err(_) => reading.out.lack(),
        }
    }
}

fn main(rt: HostRuntime) -> ExitCode {
    let mut reading = Reading::new(rt.alloc());
    run(&rt, &mut reading);
    if rt.stdout().write_all(reading.out.bytes()).is_ok() && reading.is_whole() {
        ExitCode::SUCCESS
    } else {
        ExitCode::FAILURE
    }
}
