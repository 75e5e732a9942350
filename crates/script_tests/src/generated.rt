//! Scripts that are made from a number of decks, as they are read and as their jobs run.
use crate::decks::HERE;
use card_reader::read_deck;
use gen_work::{DECKS_MOST, generate};
use jcl_convert::convert;
use job_exec::run_steps;
use mas_types::{Lines, List, OutSpec};
use script_lang::{Ask, Script, read_script};
use std::alloc::Global;
use tests_lines::Writer;

/// The script of at most so many decks is told whole.
const TOLD: u32 = 4;

/// The Adler-32 checksum (RFC 1950).
fn checksum(text: &[u8]) -> u64 {
    let mut low = 1u64;
    let mut high = 0u64;
    for byte in text {
        low = low.wrapping_add(*byte as u64) % 65_521;
        high = high.wrapping_add(low) % 65_521;
    }
    high.wrapping_mul(65_536).wrapping_add(low)
}

fn line_count(outputs: &List<OutSpec>) -> u64 {
    let mut count = 0u64;
    for output in outputs.as_slice() {
        count = count.saturating_add(output.text.len() as u64);
    }
    count
}

// How many lines the job of a deck prints; none where the deck or its job is refused.
fn printed_by(alloc: Global, out: &mut Writer, cards: &Lines) -> u64 {
    let Ok(deck) = read_deck(alloc, HERE, cards) else {
        return 0;
    };
    let Ok(steps) = convert(alloc, &deck.fields, &deck.text) else {
        return 0;
    };
    match run_steps(alloc, &steps) {
        Ok(ran) => line_count(&ran.outputs),
        Err(_) => {
            out.lack();
            0
        }
    }
}

fn printed(alloc: Global, out: &mut Writer, script: &Script) -> u64 {
    let mut count = 0u64;
    for step in script.steps.as_slice() {
        if let Ask::Deck(cards) = &step.what {
            count = count.saturating_add(printed_by(alloc, out, cards));
        }
    }
    count
}

// What is told of the script of so many decks.
fn add_text(alloc: Global, out: &mut Writer, decks: u32, text: &[u8]) {
    out.add_number(b"bytes ", text.len() as u64);
    out.add_number(b", checksum ", checksum(text));
    if let Ok(script) = read_script(alloc, text, true, false, false) {
        out.add_number(b", steps ", script.steps.len() as u64);
        let lines = printed(alloc, out, &script);
        out.add_number(b", printed ", lines);
    }
    if decks <= TOLD {
        out.add(b"\n");
        out.add(text);
    }
}

/// The script of so many decks: how many bytes it has, their checksum, how many steps are read of it, and how many
/// lines its jobs print; of few decks the script itself.
pub fn add_generated(alloc: Global, out: &mut Writer, decks: Option<u64>) {
    let decks = decks.unwrap_or(1).min(DECKS_MOST as u64).max(1) as u32;
    match generate(alloc, decks) {
        Ok(text) => add_text(alloc, out, decks, text.as_slice()),
        Err(_) => out.lack(),
    }
}
