//! A line of standard input: its first word, and the text behind it, in which some bytes are written as a backslash and
//! a letter.
use crate::commands::{add_command, add_untyped, add_words};
use crate::decks::{add_converted, add_deck, add_executed, add_listing, cards_of};
use crate::generated::add_generated;
use crate::scripts::{add_input, add_script};
use crate::sources::{add_source, add_zeros};
use std::alloc::Global;
use std::fmt::Debug;
use tests_lines::{Writer, number_at};

/// How a script is read: cold, by members in threads, and only to format.
#[derive(Clone, Copy)]
pub struct Run {
    pub cold: bool,
    pub race: bool,
    pub only: bool,
}

const COLD: Run = Run {
    cold: true,
    race: false,
    only: false,
};

const WARM: Run = Run {
    cold: false,
    race: false,
    only: false,
};

const RACE: Run = Run {
    cold: true,
    race: true,
    only: false,
};

const FORMAT: Run = Run {
    cold: false,
    race: false,
    only: true,
};

const BEGIN: Run = Run {
    cold: true,
    race: false,
    only: true,
};

/// What is written so far, and what stands before the next text.
#[derive(Drop)]
pub struct Reading {
    pub alloc: Global,
    pub out: Writer,
    before: Writer,
}

impl Reading {
    /// Nothing is written.
    pub fn new(alloc: Global) -> Reading {
        Reading {
            alloc,
            out: Writer::new(alloc),
            before: Writer::new(alloc),
        }
    }

    /// There was memory for all of it.
    pub fn is_whole(&self) -> bool {
        self.out.is_whole() && self.before.is_whole()
    }

    // Writes a line again.
    fn echo(&mut self, line: &str) {
        self.out.add(line.as_bytes());
        self.out.add(b"\n ");
    }

    // Puts a text before the next one, so many times.
    fn put_before(&mut self, times: u64, text: &str) {
        for _time in 0..times {
            add_unescaped(&mut self.before, text);
        }
    }
}

// The byte that a letter behind a backslash stands for.
fn byte_of(letter: u8) -> u8 {
    match letter {
        b'n' => b'\n',
        b'r' => b'\r',
        b't' => b'\t',
        b's' => b' ',
        b'd' => 0x7F,
        b'o' => 1,
        _ => letter,
    }
}

fn add_unescaped(bytes: &mut Writer, text: &str) {
    let mut is_escaped = false;
    for byte in text.as_bytes() {
        if is_escaped {
            bytes.add(&[byte_of(*byte)]);
            is_escaped = false;
        } else if *byte == b'\\' {
            is_escaped = true;
        } else {
            bytes.add(&[*byte]);
        }
    }
}

/// Writes why something is refused.
pub fn add_refusal<E: Debug>(alloc: Global, out: &mut Writer, refusal: &E) {
    match format!(in alloc; "{refusal:?}") {
        Ok(text) => out.add(text.as_bytes()),
        Err(_) => out.lack(),
    }
}

// Reads the cards that a text is as the first letter of a word says.
fn add_cards(alloc: Global, out: &mut Writer, kind: &[u8], text: &[u8]) {
    let cards = cards_of(alloc, out, text);
    match kind {
        [b'd', ..] => add_deck(alloc, out, &cards),
        [b'j', ..] => add_converted(alloc, out, &cards),
        [b'e', ..] => add_executed(alloc, out, &cards),
        _ => {}
    }
}

// Reads a text as the first letter of a word says.
fn add_read(alloc: Global, out: &mut Writer, kind: &[u8], text: &[u8]) {
    match kind {
        [b'w', ..] => add_words(alloc, out, text),
        [b'o', ..] => add_command(alloc, out, text),
        [b'c', ..] => add_script(alloc, out, text, COLD),
        [b'l', ..] => add_script(alloc, out, text, WARM),
        [b'r', ..] => add_script(alloc, out, text, RACE),
        [b'f', ..] => add_script(alloc, out, text, FORMAT),
        [b'p', ..] => add_input(alloc, out, text, COLD),
        [b'g', ..] => add_input(alloc, out, text, WARM),
        [b'm', ..] => add_input(alloc, out, text, FORMAT),
        [b'b', ..] => add_input(alloc, out, text, BEGIN),
        [b'n', ..] => add_listing(alloc, out, text),
        kind => add_cards(alloc, out, kind, text),
    }
}

// Tells of a text as a word says, or of a number.
fn tell(reading: &mut Reading, kind: &[u8], number: Option<u64>) {
    let (alloc, out) = (reading.alloc, &mut reading.out);
    let text = reading.before.bytes();
    match kind {
        [b's', ..] => add_source(alloc, out, text, None),
        [b'a', ..] => add_source(alloc, out, b"SYSA DECK\n", number),
        [b'z', ..] => add_zeros(alloc, out, number),
        [b'g', b'e', ..] => add_generated(alloc, out, number),
        [b'u', ..] => add_untyped(alloc, out),
        kind => add_read(alloc, out, kind, text),
    }
}

/// Reads a line as its first word says.
pub fn read(reading: &mut Reading, line: &str) {
    let (kind, text) = line.split_once(' ').unwrap_or((line, ""));
    if kind == "times" {
        let (times, text) = text.split_once(' ').unwrap_or((text, ""));
        return reading.put_before(number_at(times, 0).unwrap_or(0), text);
    }
    reading.echo(line);
    add_unescaped(&mut reading.before, text);
    tell(reading, kind.as_bytes(), number_at(line, 1));
    reading.before.clear();
    reading.out.add(b"\n")
}
