//! What is done with a plant, and what is told of it.
use mas_types::{Dev, MemberId};
use spool_plant::{Act, Plant, Took};
use tests_lines::Writer;

const SYSA: MemberId = MemberId(1);

/// How an act ended, in a word behind a blank.
pub fn add_act(out: &mut Writer, act: Act) {
    match act {
        Act::Done => out.add(b" done"),
        Act::Failed => out.add(b" failed"),
        Act::Halted => out.add(b" halted"),
    }
}

// Writes two bytes of a device, and syncs it.
fn add_write<P: Plant>(out: &mut Writer, plant: &mut P, dev: Dev, at: u16, bytes: &[u8; 2]) {
    if plant.size(dev) >= at as u64 + 2 {
        add_act(out, plant.write(SYSA, dev, at as u64, bytes));
        add_act(out, plant.sync(SYSA, dev));
    }
}

/// Writes two bytes to CKPT1 and to volume 2, syncs each, and syncs a device that has no file.
pub fn use_devices<P: Plant>(out: &mut Writer, plant: &mut P) {
    out.add(b"devices");
    add_write(out, plant, Dev::Ckpt1, 10, b"AB");
    add_write(out, plant, Dev::Spool(2), 50_000, b"CD");
    add_act(out, plant.sync(SYSA, Dev::Spool(9)));
    out.add(b"\n");
}

/// Writes two bytes to volume 2 before those that stand there, and tells both.
pub fn write_before<P: Plant>(out: &mut Writer, plant: &mut P) {
    out.add(b"before");
    add_write(out, plant, Dev::Spool(2), 10, b"EF");
    out.add(b"\n");
    add_bytes(out, b"spool2", plant, Dev::Spool(2), 9);
    add_bytes(out, b"spool2", plant, Dev::Spool(2), 49_999);
}

/// Prints two lines, prints on a printer that has no file, gives bytes on a line, and says two lines.
pub fn use_lines<P: Plant>(out: &mut Writer, plant: &mut P) {
    out.add(b"printers");
    add_act(out, plant.print(SYSA, b"FIRST"));
    add_act(out, plant.print(SYSA, b"SECOND"));
    add_act(out, plant.print(MemberId(9), b"NOWHERE"));
    out.add(b"\nlines");
    add_act(out, plant.give(SYSA, 1, b"OUT"));
    out.add(b"\nconsole");
    add_act(out, plant.say(SYSA, b"SYSA SAYS"));
    add_act(out, plant.say(MemberId(0), b""));
    out.add(b"\n");
}

/// Four bytes of a device, from a place on.
pub fn add_bytes<P: Plant>(out: &mut Writer, word: &[u8], plant: &mut P, dev: Dev, at: u16) {
    let mut into = [9; 4];
    out.add(word);
    if plant.size(dev) >= at as u64 + 4 {
        add_act(out, plant.read(SYSA, dev, at as u64, &mut into));
        for byte in &into {
            out.add_number(b" ", *byte as u64);
        }
    }
    out.add(b"\n");
}

// Takes up to three bytes of what comes in on a line.
fn add_taken<P: Plant>(out: &mut Writer, plant: &mut P) {
    let mut into = [0; 3];
    match plant.take(SYSA, 1, &mut into) {
        Took::Bytes(count) => out.add_number(b" ", count as u64),
        Took::Failed => add_act(out, Act::Failed),
        Took::Halted => add_act(out, Act::Halted),
    }
}

/// What comes in on a line, three bytes at a time.
pub fn take_text<P: Plant>(out: &mut Writer, plant: &mut P) {
    out.add(b"taken");
    add_taken(out, plant);
    add_taken(out, plant);
    add_taken(out, plant);
    out.add(b"\n");
}
