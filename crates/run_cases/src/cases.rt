//! A case: its devices, its scripts, and what goes wrong.
use crate::player::{Player, Run};
use mas_types::{Dev, List, NoMemory};
use spool_disk::{MemPlant, MemSource, Sizes};
use spool_plant::{Choice, Plant};
use std::alloc::{AllocError, Global};
use tests_lines::{Writer, number_at};

/// An act that no run comes to.
pub const NEVER: u64 = u64::MAX;

/// Room enough for the acts of a run and of those who look at what it leaves.
const ACTS: usize = 400;

/// Room enough for the bytes that they write: a run, and those who look at what it leaves.
const BYTES: usize = 500_000;

/// What a case is about.
#[derive(Drop)]
pub struct Case {
    /// The bytes of each checkpoint data set.
    pub ckpt: u64,
    /// The bytes of the one volume.
    pub volume: u64,
    /// The script of the cold run.
    pub script: Writer,
    /// The script of the start after it.
    pub next: Writer,
    /// The lines that come belong to the start.
    pub to_next: bool,
    /// After how many bytes the source of the cold run fails.
    pub source: Option<u64>,
    /// What is lost from the begin on.
    pub lost: Option<Dev>,
    /// What is lost in a crash.
    pub gone: Option<Dev>,
    /// Acts that fail.
    pub fails: [u64; 2],
    /// An act that halts.
    pub halts: u64,
    /// Of which so many bytes are left.
    pub keep: u32,
    /// A byte that another hand writes behind the crash: where, and which.
    pub byte: Option<(Dev, u64, u8)>,
    /// Both copies are compared behind the start.
    pub equal: bool,
}

impl Case {
    /// A case in which nothing goes wrong, without lines, over devices that have just room for six pages and four
    /// groups.
    pub fn new(alloc: Global) -> Case {
        Case {
            ckpt: 4096 * 35,
            volume: 4096 * 4,
            script: Writer::new(alloc),
            next: Writer::new(alloc),
            to_next: false,
            source: None,
            lost: None,
            gone: None,
            fails: [NEVER; 2],
            halts: NEVER,
            keep: 0,
            byte: None,
            equal: false,
        }
    }

    /// Adds a line to one of its scripts.
    pub fn add(&mut self, line: &str) {
        let script = if self.to_next {
            &mut self.next
        } else {
            &mut self.script
        };
        script.add(line.as_bytes());
        script.add(b"\n");
    }

    /// There was memory for its scripts.
    pub fn is_whole(&self) -> bool {
        self.script.is_whole() && self.next.is_whole()
    }

    // Devices that were never written, what is planned for them, and what of them is lost.
    fn plant(&self, alloc: Global) -> Result<MemPlant, NoMemory> {
        let sizes = Sizes {
            ckpt: self.ckpt,
            volumes: 1,
            volume: self.volume,
        };
        let mut plant = MemPlant::new(alloc, sizes, ACTS, BYTES)?;
        plant.fail_at(self.fails[0]);
        plant.fail_at(self.fails[1]);
        plant.halt_at(self.halts, self.keep);
        if let Some(dev) = self.lost {
            plant.lose(dev);
        }
        Ok(plant)
    }

    /// The cold run.
    pub fn run<P: Player>(&self, player: &P) -> Result<Run, NoMemory> {
        let alloc = player.alloc();
        let source = source_of(alloc, self.script.bytes(), self.source)?;
        let plant = self.plant(alloc)?;
        player.play(true, source, plant)
    }
}

// A source of a script, which fails after so many bytes, if it does.
fn source_of(alloc: Global, script: &[u8], fault: Option<u64>) -> Result<MemSource, NoMemory> {
    let mut bytes = List::new(alloc);
    for byte in script {
        bytes.push(*byte)?;
    }
    Ok(MemSource::new(bytes, fault))
}

/// A plant in a box.
pub fn boxed(alloc: Global, plant: MemPlant) -> Result<Box<MemPlant>, NoMemory> {
    Ok(Box::new(alloc, plant).map_err(AllocError::from)?)
}

/// What a crash at a moment leaves, or one now if the moment is yet to come.
pub fn crashed(
    alloc: Global,
    plant: &MemPlant,
    moment: u64,
    choice: Choice,
) -> Result<Box<MemPlant>, NoMemory> {
    let left = plant.crash_at(alloc, moment.min(plant.now()), choice)?;
    boxed(alloc, left)
}

/// A warm run of a script over what is left.
pub fn start<P: Player>(player: &P, script: &[u8], left: Box<MemPlant>) -> Result<Run, NoMemory> {
    let source = source_of(player.alloc(), script, None)?;
    player.play(false, source, Box::into_inner(left))
}

/// The device of a number: both copies, and the volume.
pub fn device(number: Option<u64>) -> Option<Dev> {
    match number {
        Some(1) => Some(Dev::Ckpt1),
        Some(2) => Some(Dev::Ckpt2),
        Some(3) => Some(Dev::Spool(1)),
        _ => None,
    }
}

// The byte that another hand writes, where the line says one.
fn byte_of(line: &str) -> Option<(Dev, u64, u8)> {
    let dev = device(number_at(line, 1))?;
    let place = number_at(line, 2)?;
    let byte = number_at(line, 3)?;
    Some((dev, place, (byte % 256) as u8))
}

/// Sets what a line says by its first letter.
pub fn set(alloc: Global, case: &mut Case, word: u8, line: &str) {
    let first = number_at(line, 1);
    let second = number_at(line, 2);
    match word {
        b'c' => *case = Case::new(alloc),
        b's' => case.to_next = false,
        b'n' => case.to_next = true,
        b'd' => {
            case.ckpt = first.unwrap_or(0);
            case.volume = second.unwrap_or(0);
        }
        b'i' => case.source = first,
        b'l' => case.lost = device(first),
        b'g' => case.gone = device(first),
        b'f' => case.fails = [first.unwrap_or(NEVER), second.unwrap_or(NEVER)],
        b'h' => {
            case.halts = first.unwrap_or(NEVER);
            case.keep = (second.unwrap_or(0) % 65_536) as u32;
        }
        b'w' => case.byte = byte_of(line),
        b'e' => case.equal = true,
        _ => {}
    }
}
