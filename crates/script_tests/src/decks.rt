//! Decks, their conversion, and what their steps do.
use crate::reading::add_refusal;
use card_reader::read_deck;
use jcl_convert::{Dd, DdKind, Program, Step, convert};
use job_exec::{Ran, listing, run_steps};
use mas_types::{Class, JobFields, Lines, List, Name8, NoMemory, OutSpec, Prio};
use std::alloc::Global;
use tests_lines::Writer;

/// The own node.
pub const HERE: Name8 = Name8(*b"HERE    ");

/// What the card of the converted jobs says.
const JOB: JobFields = JobFields {
    name: Name8(*b"A       "),
    class: Class(b'A'),
    msgclass: Class(b'M'),
    prio: Prio(5),
    held: false,
    scan: false,
    restart: true,
    dest: Name8(*b"SYSB    "),
    node: HERE,
    origin: HERE,
};

/// The cards of a deck, one on each line; none of a text that says so. Where there is no memory for a card, that is
/// told.
pub fn cards_of(alloc: Global, out: &mut Writer, text: &[u8]) -> Lines {
    let mut cards = Lines::new(alloc);
    if text == b"none".as_slice() {
        return cards;
    }
    for card in text.split(|byte| *byte == b'\n') {
        if cards.push(card).is_err() {
            out.lack();
        }
    }
    cards
}

/// What a deck says of its job, and how many cards are kept.
pub fn add_deck(alloc: Global, out: &mut Writer, cards: &Lines) {
    match read_deck(alloc, HERE, cards) {
        Ok(deck) => {
            out.add_number(b"cards ", deck.text.len() as u64);
            out.add_fields(&deck.fields)
        }
        Err(refusal) => add_refusal(alloc, out, &refusal),
    }
}

fn add_dd(out: &mut Writer, dd: &Dd) {
    out.add(b";");
    out.add_name(&dd.name);
    match &dd.kind {
        DdKind::Dummy => out.add(b" DUMMY"),
        DdKind::Cards(cards) => out.add_lines(cards, 0),
        DdKind::Sysout {
            class,
            dest,
            forms,
            copies,
            held,
        } => {
            out.add(&[b' ', class.0]);
            out.add_name(dest);
            out.add_name(forms);
            out.add_number(b" ", *copies as u64);
            out.add_flag(b" HELD", *held)
        }
    }
}

fn add_steps(out: &mut Writer, steps: &[Step]) {
    out.add_number(b"steps ", steps.len() as u64);
    for step in steps {
        match step.program {
            Program::Br14 => out.add(b"; IEFBR14"),
            Program::Gener => out.add(b"; IEBGENER"),
        }
        for dd in step.dds.as_slice() {
            add_dd(out, dd);
        }
    }
}

/// The steps of a job, each with its DD statements.
pub fn add_converted(alloc: Global, out: &mut Writer, cards: &Lines) {
    match convert(alloc, &JOB, cards) {
        Ok(steps) => add_steps(out, steps.as_slice()),
        Err(refusal) => add_refusal(alloc, out, &refusal),
    }
}

fn add_outputs(out: &mut Writer, outputs: &List<OutSpec>) {
    for output in outputs.as_slice() {
        out.add(&[b';', b' ', output.class.0]);
        out.add_name(&output.dest);
        out.add_name(&output.forms);
        out.add_number(b" ", output.copies as u64);
        out.add_flag(b" HELD", output.held);
        out.add_lines(&output.text, 0);
    }
}

fn add_ran(out: &mut Writer, ran: Result<Ran, NoMemory>) {
    match ran {
        Ok(ran) => {
            out.add_number(b"code ", ran.code as u64);
            add_outputs(out, &ran.outputs)
        }
        Err(_) => out.lack(),
    }
}

/// The condition code of a job's steps, and their outputs.
pub fn add_executed(alloc: Global, out: &mut Writer, cards: &Lines) {
    match convert(alloc, &JOB, cards) {
        Ok(steps) => add_ran(out, run_steps(alloc, &steps)),
        Err(refusal) => add_refusal(alloc, out, &refusal),
    }
}

/// A listing of one line.
pub fn add_listing(alloc: Global, out: &mut Writer, text: &[u8]) {
    match listing(alloc, &JOB, text) {
        Ok(outputs) => add_outputs(out, &outputs),
        Err(_) => out.lack(),
    }
}
