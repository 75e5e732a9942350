//! A plant over the files of a folder, and a source over standard input, at work on a folder that isn't there yet. What
//! the first plant leaves is there for the second.
#![tactic(auto)]

mod plants;

use mas_types::{Dev, MemberId};
use plant_files::{FilePlant, Opening, StdSource, Streams};
use plant_fuse::Fused;
use plants::{add_act, add_bytes, take_text, use_devices, use_lines, write_before};
use spool_plant::{Fuse, Got, Part, Plant, Source};
use std::fs;
use std::io::Write;
use std::process::ExitCode;
use tests_lines::Writer;

const FOLDER: &str = "trial/below";

/// A plant over the files of the folder, whose members may stop.
type Plants = Fused<FilePlant<HostRuntime>>;

// How many bytes standard input gives.
fn read_source(rt: &HostRuntime, out: &mut Writer) {
    let mut source = StdSource::new(*rt);
    let mut count = 0usize;
    for _ in 0..64 {
        let mut bytes = [0; 16];
        match source.next(&mut bytes) {
            Got::Bytes(0) | Got::End | Got::Failed => break,
            Got::Bytes(n) => count = count.saturating_add(n),
        }
    }
    out.add_number(b"source gave ", count as u64);
    out.add(b"\n");
}

fn open(rt: &HostRuntime, opening: Opening) -> Option<Plants> {
    let streams = Streams::open(rt, rt.alloc()).ok()?;
    let plant = FilePlant::open(*rt, rt.alloc(), streams, FOLDER, opening).ok()?;
    Some(Fused::new(plant))
}

// Whether the folder is held by a plant.
fn is_held(rt: &HostRuntime) -> bool {
    match open(rt, Opening::Look) {
        Some(plant) => {
            drop(plant);
            false
        }
        None => true,
    }
}

// Whether the folder is held, and whether volumes are lost.
fn add_flags(rt: &HostRuntime, out: &mut Writer, plant: &Plants) {
    out.add_flag(b"held\n", is_held(rt));
    out.add_flag(b"volume 1 is lost\n", plant.lost(Part::Disk(Dev::Spool(1))));
    out.add_flag(b"volume 2 is lost\n", plant.lost(Part::Disk(Dev::Spool(2))));
}

// The first run writes, prints and says, and loses a volume.
fn write(rt: &HostRuntime, out: &mut Writer, plant: &mut Plants) {
    use_devices(out, plant);
    use_lines(out, plant);
    add_flags(rt, out, plant);
    plant.lose(Dev::Spool(1));
}

// The second run finds what the first one left, writes before it, and takes what came in on a line.
fn read(rt: &HostRuntime, out: &mut Writer, plant: &mut Plants) {
    add_bytes(out, b"ckpt1", plant, Dev::Ckpt1, 9);
    write_before(out, plant);
    add_flags(rt, out, plant);
    take_text(out, plant);
}

// The third run halts at a printed line, and renews a volume, a copy, and a device that has no file.
fn renew(out: &mut Writer, plant: &mut Plants) {
    plant.arm(MemberId(1), Fuse::Print, 1);
    out.add(b"printer");
    add_act(out, plant.print(MemberId(1), b"THIRD"));
    out.add(b"\nrenewed");
    add_act(out, plant.renew(Dev::Spool(1)));
    add_act(out, plant.renew(Dev::Ckpt1));
    add_act(out, plant.renew(Dev::Spool(9)));
    out.add(b"\n");
    out.add_flag(b"volume 1 is lost\n", plant.lost(Part::Disk(Dev::Spool(1))));
    add_bytes(out, b"spool1", plant, Dev::Spool(1), 9);
    add_bytes(out, b"ckpt1", plant, Dev::Ckpt1, 9);
}

// A run of that number, if the folder's plant is opened.
fn run(rt: &HostRuntime, out: &mut Writer, number: u8, opened: Option<Plants>) {
    let Some(plant) = opened else {
        return out.add(b"not opened\n");
    };
    let mut plant = plant;
    match number {
        1 => write(rt, out, &mut plant),
        2 => read(rt, out, &mut plant),
        _ => renew(out, &mut plant),
    }
}

// What a file has.
fn add_file(rt: &HostRuntime, out: &mut Writer, path: &str) {
    match fs::read_to_string(rt, path) {
        Ok(text) => out.add(text.as_bytes()),
        Err(_) => out.add(b"not read\n"),
    }
}

fn main(rt: HostRuntime) -> ExitCode {
    let mut out = Writer::new(rt.alloc());
    let _ = fs::remove_dir_all(&rt, "trial");
    read_source(&rt, &mut out);
    run(&rt, &mut out, 1, open(&rt, Opening::Make));
    let _ = fs::write(&rt, "trial/below/LINE1.IN", "INPUT");
    run(&rt, &mut out, 2, open(&rt, Opening::GoOn));
    run(&rt, &mut out, 3, open(&rt, Opening::Make));
    add_file(&rt, &mut out, "trial/below/PRT1");
    add_file(&rt, &mut out, "trial/below/LINE1.OUT");
    out.add(b"\n");
    let removed = fs::remove_dir_all(&rt, "trial");
    if removed.is_ok() && out.is_whole() && rt.stdout().write_all(out.bytes()).is_ok() {
        ExitCode::SUCCESS
    } else {
        ExitCode::FAILURE
    }
}
