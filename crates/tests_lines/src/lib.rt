//! Texts that tell of numbers, names, lines, jobs' fields and configurations, for programs that test by what they
//! write. What is added gives no result: a text keeps that memory ran out, and the program says so at its end.
#![tactic(auto)]

use itoa::Buffer;
use mas_types::{Config, JobFields, Lines, Name8, NoMemory};
use std::alloc::Global;

/// A text that is written part by part.
#[derive(Drop)]
pub struct Writer {
    bytes: Vec<u8>,
    is_whole: bool,
}

impl Writer {
    /// Nothing is written.
    pub fn new(alloc: Global) -> Writer {
        Writer {
            bytes: Vec::new(alloc),
            is_whole: true,
        }
    }

    /// What is written.
    pub fn bytes(&self) -> &[u8] {
        self.bytes.as_slice()
    }

    /// Nothing is written any more.
    pub fn clear(&mut self) {
        self.bytes.clear();
    }

    /// There was memory for all of it.
    pub fn is_whole(&self) -> bool {
        self.is_whole
    }

    /// There was no memory for what is told here.
    pub fn lack(&mut self) {
        self.is_whole = false;
    }

    /// Adds bytes.
    pub fn add(&mut self, bytes: &[u8]) {
        if self.bytes.extend_from_slice(bytes).is_err() {
            self.lack();
        }
    }

    /// Adds what another text has.
    pub fn add_text(&mut self, text: &Writer) {
        self.add(text.bytes());
        if !text.is_whole {
            self.lack();
        }
    }

    /// Adds a word and a number behind it.
    pub fn add_number(&mut self, word: &[u8], number: u64) {
        let mut buffer = Buffer::new();
        self.add(word);
        self.add(buffer.format(number).as_bytes());
    }

    /// Adds a word where something holds.
    pub fn add_flag(&mut self, word: &[u8], holds: bool) {
        if holds {
            self.add(word);
        }
    }

    /// Adds a blank and a name without the blanks behind it.
    pub fn add_name(&mut self, name: &Name8) {
        self.add(b" ");
        for byte in &name.0 {
            if *byte != b' ' {
                self.add(&[*byte]);
            }
        }
    }

    /// Adds the lines from one on, each in brackets; behind its number where a line stands several times.
    pub fn add_lines(&mut self, lines: &Lines, from: usize) {
        let count = lines.len();
        let mut same = 0u64;
        for at in from..count {
            let next = at.saturating_add(1);
            same = same.saturating_add(1);
            if next < count && lines.line(next) == lines.line(at) {
                continue;
            }
            self.add_number(b" ", same);
            self.add(b"[");
            self.add(lines.line(at));
            self.add(b"]");
            same = 0;
        }
    }

    /// Adds such lines, if there was memory for them.
    pub fn add_read(&mut self, lines: Result<Lines, NoMemory>, from: usize) {
        match lines {
            Ok(lines) => self.add_lines(&lines, from),
            Err(_) => self.lack(),
        }
    }

    /// Adds all that a deck says of its job.
    pub fn add_fields(&mut self, fields: &JobFields) {
        self.add_name(&fields.name);
        self.add(&[b' ', fields.class.0, fields.msgclass.0]);
        self.add_number(b" ", fields.prio.0 as u64);
        self.add_flag(b" held", fields.held);
        self.add_flag(b" scan", fields.scan);
        self.add_flag(b" restart", fields.restart);
        self.add_name(&fields.dest);
        self.add_name(&fields.node);
        self.add_name(&fields.origin);
    }

    /// Adds a configuration.
    pub fn add_config(&mut self, config: &Config) {
        self.add_number(b" config ", config.members as u64);
        self.add_number(b" ", config.jobs as u64);
        self.add_number(b" ", config.outputs as u64);
        self.add_number(b" ", config.volumes as u64);
        self.add_number(b" ", config.groups as u64);
        self.add_number(b" ", config.hold as u64);
        self.add_number(b" ", config.dormancy as u64);
        self.add_name(&config.node);
    }
}

/// The number that a word of a line is, counted from 0; none where it isn't there or is no number.
pub fn number_at(line: &str, at: usize) -> Option<u64> {
    let mut number = None;
    for word in line.split_whitespace().skip(at).take(1) {
        number = word.parse::<u64>().ok();
    }
    number
}
