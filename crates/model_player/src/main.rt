//! Plays the script on standard input on a plain queue, from an empty one, without devices, and writes the lines that
//! its steps say; and then, each behind a byte 0, the paper of each of the eight printers. Behind a byte 0 a second
//! script may stand: it is played after a restart, on the queue that the first one left. Its lines stand behind a byte
//! 0 too, and behind them the eight papers as they are by then. `tests/plain` and `tests/stops` compare the consoles
//! and the paper of the program with them. Where a script isn't read, or a step isn't played here, the exit status
//! is 1.
//!
//! A line `STOP SYSx IN n` counts the acts that a member has here, which `acts` tells; they are other acts than those
//! of a device. `STOP SYSx PRINT n` counts printed lines, here as there.
#![tactic(auto)]

mod acts;
mod decks;
mod ends;
mod giving;
mod jobs;
mod kinds;
mod locks;
mod playing;
mod printing;
mod queues;
mod runs;
mod spools;
mod works;

ghost use Rattle.std.specs.Prelude.{IfOk};
ghost use Rattle.script_laws.specs.Limits.{IsScript};
ghost use Rattle.model_player.specs.Sounds.{AreSound};

use ends::PlayError;
use mas_types::Lines;
use runs::{play, restart, started};
use script_lang::{Script, read_script};
use script_laws::law_of_limits;
use spools::Spool;
use std::alloc::Global;
use std::io::{Read, Write};
use std::process::ExitCode;

// What stands before the first byte 0, and what stands behind it.
fn cut(bytes: &[u8]) -> (&[u8], Option<&[u8]>) {
    match bytes.iter().position(|byte| *byte == 0) {
        Some(at) => (&bytes[..at], Some(&bytes[at + 1..])),
        None => (bytes, None),
    }
}

// The script that these bytes are.
fn script_of(alloc: Global, bytes: &[u8], cold: bool) -> Result<Script, PlayError>
    ensures { IfOk result IsScript }
{
    law_of_limits();
    let Ok(script) = read_script(alloc, bytes, cold, false, false) else {
        return Err(PlayError::Unplayed);
    };
    Ok(script)
}

fn write(rt: &HostRuntime, lines: &Lines) -> Result<(), PlayError> {
    let mut out = rt.stdout();
    for at in 0..lines.len() {
        if out.write_all(lines.line(at)).is_err() || out.write_all(b"\n").is_err() {
            return Err(PlayError::Unplayed);
        }
    }
    Ok(())
}

// A byte 0 between two lists of lines.
fn part(rt: &HostRuntime) -> Result<(), PlayError> {
    if rt.stdout().write_all(&[0]).is_err() {
        return Err(PlayError::Unplayed);
    }
    Ok(())
}

// What was said, and what stands on each paper.
fn write_all(rt: &HostRuntime, spool: &Spool) -> Result<(), PlayError> {
    write(rt, &spool.members.console)?;
    for paper in spool.members.papers.as_slice() {
        part(rt)?;
        write(rt, paper)?;
    }
    Ok(())
}

// A script is played, and then all is written.
fn play_on(rt: &HostRuntime, spool: &mut Spool, script: &Script) -> Result<(), PlayError>
    requires { AreSound spool.old.queues }
    ensures { AreSound spool.new.queues }
{
    play(rt.alloc(), spool, script)?;
    write_all(rt, spool)
}

// The second script is played after a restart.
fn play_second(rt: &HostRuntime, spool: &mut Spool, bytes: &[u8]) -> Result<(), PlayError>
    requires { AreSound spool.old.queues }
{
    part(rt)?;
    restart(rt.alloc(), spool)?;
    let script = script_of(rt.alloc(), bytes, false)?;
    play_on(rt, spool, &script)
}

fn play_both(
    rt: &HostRuntime,
    spool: &mut Spool,
    script: &Script,
    second: Option<&[u8]>,
) -> Result<(), PlayError>
    requires { AreSound spool.old.queues }
{
    play_on(rt, spool, script)?;
    match second {
        Some(bytes) => play_second(rt, spool, bytes),
        None => Ok(()),
    }
}

fn run(rt: &HostRuntime, bytes: &[u8]) -> Result<(), PlayError> {
    let (first, second) = cut(bytes);
    let script = script_of(rt.alloc(), first, true)?;
    let mut spool = started(rt.alloc(), &script)?;
    let played = play_both(rt, &mut spool, &script, second);
    drop(spool);
    played
}

fn main(rt: HostRuntime) -> ExitCode {
    let mut bytes = Vec::new(rt.alloc());
    if rt.reader().read_to_end(&mut bytes).is_err() {
        return ExitCode::FAILURE;
    }
    match run(&rt, bytes.as_slice()) {
        Ok(()) => ExitCode::SUCCESS,
        Err(_) => ExitCode::FAILURE,
    }
}
