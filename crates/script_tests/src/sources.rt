//! Sources of a script: bytes in memory, which may fail, and zeros, of which there may be no end.
use crate::reading::add_refusal;
use mas_types::List;
use script_input::{SourceError, read_source};
use spool_disk::MemSource;
use spool_plant::{Got, Source};
use std::alloc::Global;
use tests_lines::Writer;

/// So many zeros. The source doesn't tell how many.
#[derive(Drop)]
struct Zeros {
    left: usize,
}

impl Source for Zeros {
    ghost use Rattle.std.specs.Prelude.{[]};

    ghost tells = { ⊥ };

    ghost left = { λ _. [] };

    ghost faults = { λ _. 0 };

    fn next(&mut self, into: &mut [u8]) -> Got {
        let n = self.left.min(into.len());
        into[..n].fill(0);
        self.left -= n;
        Got::Bytes(n)
    }
}

fn list_of(alloc: Global, out: &mut Writer, bytes: &[u8]) -> List<u8> {
    let mut list = List::new(alloc);
    for byte in bytes {
        if list.push(*byte).is_err() {
            out.lack();
        }
    }
    list
}

// How many bytes were read.
fn add_count(alloc: Global, out: &mut Writer, read: Result<List<u8>, SourceError>) {
    match read {
        Ok(bytes) => out.add_number(b"bytes ", bytes.len() as u64),
        Err(refusal) => add_refusal(alloc, out, &refusal),
    }
}

/// What is read of a source of these bytes, which fails after so many.
pub fn add_source(alloc: Global, out: &mut Writer, text: &[u8], fails: Option<u64>) {
    let mut source = MemSource::new(list_of(alloc, out, text), fails);
    match read_source(alloc, &mut source) {
        Ok(bytes) => out.add(bytes.as_slice()),
        Err(refusal) => add_refusal(alloc, out, &refusal),
    }
}

/// What is read of so many zeros, and how many are left; without a number there is no end of them.
pub fn add_zeros(alloc: Global, out: &mut Writer, count: Option<u64>) {
    let many = count.unwrap_or(u64::MAX) as usize;
    let mut zeros = Zeros { left: many };
    let read = read_source(alloc, &mut zeros);
    add_count(alloc, out, read);
    out.add_number(b", taken ", many.saturating_sub(zeros.left) as u64)
}
