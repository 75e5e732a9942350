//! What a plant shows: bytes of devices, lines, and which parts are lost.
use crate::acts::add_act;
use mas_types::{Dev, Lines, List, MemberId, NoMemory};
use spool_disk::{MemPlant, MemSource};
use spool_plant::{Act, Got, Part, Plant, Source};
use std::alloc::Global;
use tests_lines::Writer;

/// Bytes, behind a blank.
pub fn add_bytes(out: &mut Writer, bytes: &[u8]) {
    out.add(b" ");
    for byte in bytes {
        let shown = match *byte {
            0 => b'.',
            255 => b'#',
            byte => byte,
        };
        out.add(&[shown]);
    }
}

/// The first four bytes of a device, or how their read ended.
pub fn add_device(out: &mut Writer, plant: &mut MemPlant, dev: Dev) {
    let mut into = [b'?'; 4];
    if plant.size(dev) < 4 {
        return;
    }
    match plant.read(MemberId(1), dev, 0, &mut into) {
        Act::Done => add_bytes(out, &into),
        act => add_act(out, act),
    }
}

fn add_paper(out: &mut Writer, word: &[u8], lines: Result<Lines, NoMemory>) {
    if !matches!(&lines, Ok(lines) if lines.len() == 0) {
        out.add(word);
        out.add_read(lines, 0);
    }
}

/// The whole lines of the console and of two printers, and the parts that are lost.
pub fn add_parts(alloc: Global, out: &mut Writer, plant: &MemPlant) {
    add_paper(out, b" said", plant.console_lines(alloc));
    let printer = plant.printer_lines(alloc, MemberId(1));
    add_paper(out, b" printed 1", printer);
    let printer = plant.printer_lines(alloc, MemberId(2));
    add_paper(out, b" printed 2", printer);
    out.add_flag(b" lost CKPT1", plant.lost(Part::Disk(Dev::Ckpt1)));
    out.add_flag(b" lost CKPT2", plant.lost(Part::Disk(Dev::Ckpt2)));
    out.add_flag(b" lost printer 1", plant.lost(Part::Printer(MemberId(1))));
    out.add_flag(b" lost printer 2", plant.lost(Part::Printer(MemberId(2))))
}

fn source(alloc: Global, out: &mut Writer, fail_at: Option<u64>) -> MemSource {
    let mut bytes = List::new(alloc);
    for byte in b"ABCDE" {
        if bytes.push(*byte).is_err() {
            out.lack();
        }
    }
    MemSource::new(bytes, fail_at)
}

/// What a source of five bytes gives in four calls of two bytes, where it fails behind so many.
pub fn add_source(alloc: Global, out: &mut Writer, fail_at: Option<u64>) {
    let mut source = source(alloc, out, fail_at);
    for _call in 0..4u8 {
        let mut into = [b'?'; 2];
        match source.next(&mut into) {
            Got::Bytes(count) => add_bytes(out, into.get(..count).unwrap_or(&[])),
            Got::End => out.add(b" end"),
            Got::Failed => out.add(b" failed"),
        }
    }
}
