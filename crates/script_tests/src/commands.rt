//! The program's words and the operator's commands, as they are read.
use crate::reading::add_refusal;
use mas_types::{Class, Command, JobNo, List, MemberId, Name8, OutNo, Prio, What};
use mas_words::{Verb, Words, WordsNo, read_words};
use operator_cmds::{read_command, write_command};
use std::alloc::{AllocError, Global};
use std::str;
use tests_lines::Writer;

fn words_in(alloc: Global, line: &str) -> Result<Vec<String>, AllocError> {
    let mut words = Vec::new(alloc);
    if line == "none" {
        return Ok(words);
    }
    for word in line.split(' ') {
        words.push(String::from_str(alloc, word)?)?;
    }
    Ok(words)
}

fn words_of(alloc: Global, text: &[u8]) -> Result<Words, WordsNo> {
    let Ok(line) = str::from_utf8(text) else {
        return Err(WordsNo::Words);
    };
    match words_in(alloc, line) {
        Ok(words) => read_words(alloc, &words),
        Err(_) => Err(WordsNo::NoMemory),
    }
}

fn add_verb(out: &mut Writer, verb: Verb) {
    match verb {
        Verb::Play => out.add(b"PLAY"),
        Verb::Race => out.add(b"RACE"),
        Verb::Format => out.add(b"FORMAT"),
        Verb::Report => out.add(b"REPORT"),
        Verb::Check => out.add(b"CHECK"),
        Verb::Generate(decks) => out.add_number(b"GENERATE ", decks as u64),
    }
}

fn add_read_words(out: &mut Writer, words: &Words) {
    add_verb(out, words.verb);
    out.add_flag(b" COLD", words.cold);
    out.add(b" [");
    out.add(words.dir.as_slice());
    out.add(b"]");
}

/// The words of a line, between blanks.
pub fn add_words(alloc: Global, out: &mut Writer, text: &[u8]) {
    match words_of(alloc, text) {
        Ok(words) => add_read_words(out, &words),
        Err(refusal) => add_refusal(alloc, out, &refusal),
    }
}

/// A command, the first word of what it does and its numbers.
pub fn add_meaning(out: &mut Writer, command: &Command) {
    match command {
        Command::Hold { job } => out.add_number(b" HOLD ", job.0 as u64),
        Command::SetPrio { job, prio } => {
            out.add_number(b" PRIORITY ", job.0 as u64);
            out.add_number(b" ", prio.0 as u64)
        }
        Command::SetOut { job, index, class } => {
            out.add_number(b" OUTPUT ", job.0 as u64);
            out.add_number(b" ", index.0 as u64);
            out.add(&[b' ', class.0])
        }
        Command::Reset { of } => out.add_number(b" RESET ", of.0 as u64),
        Command::Show { what: What::Queue } => out.add(b" QUEUE"),
        Command::Show {
            what: What::Outputs,
        } => out.add(b" OUTPUTS"),
        _ => {}
    }
}

// A command as it is written. Whether it is.
fn add_written(alloc: Global, out: &mut Writer, command: &Command) -> bool {
    match write_command(alloc, command) {
        Ok(written) => {
            out.add(written.as_slice());
            true
        }
        Err(refusal) => {
            add_refusal(alloc, out, &refusal);
            false
        }
    }
}

fn add_again(alloc: Global, out: &mut Writer, command: &Command) {
    if add_written(alloc, out, command) {
        add_meaning(out, command);
    }
}

/// A command as it is written again.
pub fn add_command(alloc: Global, out: &mut Writer, text: &[u8]) {
    match read_command(alloc, text) {
        Ok(command) => add_again(alloc, out, &command),
        Err(refusal) => add_refusal(alloc, out, &refusal),
    }
}

// Commands that no operator types, by what they do or by a number out of its range.
fn untyped(alloc: Global, at: u32) -> Command {
    match at {
        0 => Command::Restart,
        1 => Command::Gather,
        2 => Command::Take { want: 1 },
        3 => Command::Hold { job: JobNo(0) },
        4 => Command::Hold {
            job: JobNo(100_000),
        },
        5 => Command::CancelOut {
            job: JobNo(1),
            index: OutNo(33),
        },
        6 => Command::SetPrio {
            job: JobNo(1),
            prio: Prio(16),
        },
        7 => Command::SetClass {
            job: JobNo(1),
            class: Class(b'a'),
        },
        8 => Command::SetInit {
            classes: List::new(alloc),
        },
        9 => Command::SetPrt {
            classes: List::new(alloc),
            forms: Name8(*b"STD     "),
            lines: 20,
        },
        10 => Command::Back { lines: 0 },
        11 => Command::Forward { lines: 10_000_000 },
        12 => Command::Reset { of: MemberId(0) },
        _ => Command::Reset { of: MemberId(9) },
    }
}

/// What the writer of commands answers to each of those.
pub fn add_untyped(alloc: Global, out: &mut Writer) {
    for at in 0..14 {
        let command = untyped(alloc, at);
        add_written(alloc, out, &command);
        out.add(b" ");
    }
}
