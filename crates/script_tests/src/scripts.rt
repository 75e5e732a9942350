//! Scripts, as they are read.
use crate::commands::add_meaning;
use crate::reading::{Run, add_refusal};
use mas_types::Dev;
use script_lang::{Ask, Script, ScriptNo, Step};
use spool_plant::Fuse;
use std::alloc::Global;
use tests_lines::Writer;

/// Of more steps only their number is told.
const TOLD: usize = 20;

fn add_device(out: &mut Writer, word: &[u8], dev: Dev) {
    out.add(word);
    match dev {
        Dev::Ckpt1 => out.add(b" CKPT1"),
        Dev::Ckpt2 => out.add(b" CKPT2"),
        Dev::Spool(volume) => out.add_number(b" SPOOL", volume as u64),
    }
}

fn add_step(out: &mut Writer, step: &Step) {
    out.add_number(b"; ", step.by.0 as u64);
    match &step.what {
        Ask::Deck(cards) => {
            out.add(b" DECK");
            out.add_lines(cards, 0)
        }
        Ask::Command(command) => {
            out.add(b" $");
            add_meaning(out, command)
        }
        Ask::Work(units) => out.add_number(b" WORK ", *units as u64),
        Ask::Lock => out.add(b" LOCK"),
        Ask::Free => out.add(b" FREE"),
        Ask::Line(line) => out.add_number(b" LINE ", *line as u64),
        Ask::Replace(dev) => add_device(out, b" REPLACE", *dev),
        Ask::Stop => out.add(b" STOP"),
        Ask::StopIn(Fuse::Any, acts) => out.add_number(b" STOP IN ", *acts as u64),
        Ask::StopIn(Fuse::Print, prints) => out.add_number(b" STOP PRINT ", *prints as u64),
        Ask::Lose(dev) => add_device(out, b" LOSE", *dev),
    }
}

fn add_steps(out: &mut Writer, script: &Script) {
    out.add_number(b"steps ", script.steps.len() as u64);
    out.add_config(&script.config);
    for route in script.routes.as_slice() {
        out.add_name(&route.name);
        out.add_number(b":", route.line as u64);
    }
    for step in script.steps.as_slice().iter().take(TOLD) {
        add_step(out, step);
    }
}

fn add_read(alloc: Global, out: &mut Writer, read: Result<Script, ScriptNo>) {
    match read {
        Ok(script) => add_steps(out, &script),
        Err(refusal) => add_refusal(alloc, out, &refusal),
    }
}

/// A script of the whole language.
pub fn add_script(alloc: Global, out: &mut Writer, text: &[u8], run: Run) {
    let read = script_lang::read_script(alloc, text, run.cold, run.race, run.only);
    add_read(alloc, out, read)
}

/// A script as a run of the program reads it.
pub fn add_input(alloc: Global, out: &mut Writer, text: &[u8], run: Run) {
    let read = script_input::read_script(alloc, text, run.cold, run.only);
    add_read(alloc, out, read)
}
