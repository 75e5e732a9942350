//! Acts of members on a plant.
use crate::shows::{add_bytes, add_device, add_parts, add_source};
use mas_types::{Dev, MemberId, NoMemory};
use spool_disk::{MemPlant, Sizes};
use spool_plant::{Act, Choice, Fuse, Plant, Took};
use std::alloc::Global;
use std::mem::replace;
use tests_lines::{Writer, number_at};

const SIZES: Sizes = Sizes {
    ckpt: 4,
    volumes: 1,
    volume: 8,
};

/// An act that no line comes to.
const NEVER: u64 = u64::MAX;

/// A plant that was never written, with room for so many acts and bytes, and with one act that fails and four that
/// halt.
fn plant(alloc: Global, line: &str) -> Result<MemPlant, NoMemory> {
    let number = |at: usize| number_at(line, at).unwrap_or(NEVER);
    let keep = |at: usize| (number_at(line, at).unwrap_or(0) % 4096) as u32;
    let mut plant = MemPlant::new(alloc, SIZES, number(1) as usize, number(2) as usize)?;
    plant.fail_at(number(3));
    plant.halt_at(number(4), keep(5));
    plant.halt_at(number(6), keep(7));
    plant.halt_at(number(8), keep(9));
    plant.halt_at(number(10), keep(11));
    Ok(plant)
}

/// The word of a line at a place, counted from 0; empty where there is none.
fn word_at(line: &str, at: usize) -> &[u8] {
    let mut found: &[u8] = b"";
    for word in line.split_whitespace().skip(at).take(1) {
        found = word.as_bytes();
    }
    found
}

/// The operator or a member.
fn member_at(line: &str, at: usize) -> MemberId {
    MemberId((number_at(line, at).unwrap_or(0) % 9) as u8)
}

/// A wire of a line.
fn wire_at(line: &str, at: usize) -> u8 {
    (number_at(line, at).unwrap_or(0) % 9) as u8
}

/// A copy, or a volume.
fn device_at(line: &str, at: usize) -> Dev {
    match number_at(line, at).unwrap_or(0) {
        1 => Dev::Ckpt1,
        2 => Dev::Ckpt2,
        3 => Dev::Spool(1),
        _ => Dev::Spool(2),
    }
}

fn choice_of(word: &[u8]) -> Choice {
    match word {
        [b'o', b'l', ..] => Choice::Old,
        [b'n', ..] => Choice::New,
        _ => Choice::Ones,
    }
}

fn fuse_of(word: &[u8]) -> Fuse {
    match word {
        [b'p', ..] => Fuse::Print,
        _ => Fuse::Any,
    }
}

/// How an act ended.
pub fn add_act(out: &mut Writer, act: Act) {
    match act {
        Act::Done => out.add(b" done"),
        Act::Failed => out.add(b" failed"),
        Act::Halted => out.add(b" halted"),
    }
}

fn write(plant: &mut MemPlant, dev: Dev, at: u64, bytes: &[u8]) -> Act {
    let room = plant.size(dev);
    if at > room || bytes.len() as u64 > room - at {
        return Act::Failed;
    }
    plant.write(MemberId(1), dev, at, bytes)
}

// Takes up to four bytes from a wire.
fn add_taken(out: &mut Writer, plant: &mut MemPlant, wire: u8) {
    let mut into = [0; 4];
    match plant.take(MemberId(1), wire, &mut into) {
        Took::Bytes(count) => add_bytes(out, into.get(..count).unwrap_or(&[])),
        Took::Failed => add_act(out, Act::Failed),
        Took::Halted => add_act(out, Act::Halted),
    }
}

// What a crash leaves: the bytes of CKPT1, the whole lines, and the parts that are lost.
fn add_crash(alloc: Global, out: &mut Writer, left: Result<MemPlant, NoMemory>) {
    match left {
        Ok(mut left) => {
            add_device(out, &mut left, Dev::Ckpt1);
            add_parts(alloc, out, &left);
        }
        Err(_) => out.lack(),
    }
}

/// A plant, and what is told of it.
#[derive(Drop)]
pub struct Plants {
    alloc: Global,
    plant: MemPlant,
    pub out: Writer,
}

impl Plants {
    /// A plant without room for an act.
    pub fn new(alloc: Global) -> Result<Plants, NoMemory> {
        Ok(Plants {
            alloc,
            plant: MemPlant::new(alloc, SIZES, 0, 0)?,
            out: Writer::new(alloc),
        })
    }

    // An act that has an end.
    fn act(&mut self, line: &str) -> Option<Act> {
        let text = word_at(line, 2);
        match line.as_bytes() {
            [b'w', ..] => {
                let at = number_at(line, 2).unwrap_or(0);
                let bytes = word_at(line, 3);
                Some(write(&mut self.plant, device_at(line, 1), at, bytes))
            }
            [b's', b'y', ..] => Some(self.plant.sync(member_at(line, 1), device_at(line, 2))),
            [b's', b'a', ..] => Some(self.plant.say(member_at(line, 1), text)),
            [b'p', b'r', ..] => Some(self.plant.print(member_at(line, 1), text)),
            [b'g', ..] => {
                let bytes = word_at(line, 3);
                Some(self.plant.give(member_at(line, 1), wire_at(line, 2), bytes))
            }
            [b'r', b'e', b'n', ..] => Some(self.plant.renew(device_at(line, 1))),
            _ => None,
        }
    }

    // Another plant is at work.
    fn change(&mut self, plant: Result<MemPlant, NoMemory>) {
        match plant {
            Ok(plant) => drop(replace(&mut self.plant, plant)),
            Err(_) => self.out.lack(),
        }
    }

    // What is planned, lost, armed or comes in.
    fn set(&mut self, line: &str) {
        match line.as_bytes() {
            [b'p', b'l', ..] => self.change(plant(self.alloc, line)),
            [b'l', ..] => self.plant.lose(device_at(line, 1)),
            [b'a', ..] => {
                let count = (number_at(line, 3).unwrap_or(0) % 1_000_000) as u32;
                self.plant
                    .arm(member_at(line, 1), fuse_of(word_at(line, 2)), count);
            }
            [b'i', ..] => {
                let bytes = word_at(line, 2);
                let wire = wire_at(line, 1);
                if self.plant.wire_in(self.alloc, wire, bytes).is_err() {
                    self.out.lack();
                }
            }
            _ => {}
        }
    }

    // What stands there.
    fn show(&mut self, line: &str) {
        let (out, plant) = (&mut self.out, &mut self.plant);
        match line.as_bytes() {
            [b'r', b'e', b'a', b'd', b's', ..] => {
                let from = number_at(line, 2).unwrap_or(0);
                out.add_number(b" ", plant.reads_from(device_at(line, 1), from))
            }
            [b'r', b'e', b'a', ..] => add_device(out, plant, device_at(line, 1)),
            [b'b', ..] => out.add_number(b" ", plant.size(device_at(line, 1))),
            [b't', ..] => add_taken(out, plant, wire_at(line, 1)),
            [b'o', ..] => match plant.wire_out(self.alloc, wire_at(line, 1)) {
                Ok(bytes) => add_bytes(out, bytes.as_slice()),
                Err(_) => out.lack(),
            },
            [b'n', ..] => {
                out.add_number(b" moment ", plant.now());
                add_parts(self.alloc, out, plant)
            }
            [b'f', ..] => add_source(self.alloc, out, number_at(line, 1)),
            _ => {}
        }
    }

    // What a crash leaves: told, or gone on with.
    fn crash(&mut self, line: &str, goes_on: bool) {
        let moment = number_at(line, 1).unwrap_or(0);
        if moment > self.plant.now() {
            return;
        }
        let choice = choice_of(word_at(line, 2));
        let left = self.plant.crash_at(self.alloc, moment, choice);
        if goes_on {
            self.change(left)
        } else {
            add_crash(self.alloc, &mut self.out, left)
        }
    }

    /// Does what a line says, and tells of it.
    pub fn read(&mut self, line: &str) {
        self.out.add(line.as_bytes());
        match line.as_bytes() {
            [b'c', ..] => self.crash(line, false),
            [b'u', ..] => self.crash(line, true),
            _ => {
                self.set(line);
                match self.act(line) {
                    Some(act) => add_act(&mut self.out, act),
                    None => self.show(line),
                }
            }
        }
        self.out.add(b"\n");
    }
}
