//! Two members that enter a hundred decks each, and meet in their first steps.
use brief_journal::BriefJournal;
use mas_race::{Meet, NoMeet};
use mas_top::race_top;
use mas_types::{Lines, List, MemberId, NoMemory, Status};
use run_opening::{Ended, unbegun};
use spool_disk::{MemPlant, MemSource, Sizes};
use std::alloc::{AllocError, Global};
use std::sync::Wait;
use std::sync::atomic::{AtomicU64, Ordering};
use std::test::Fail;
use std::thread;
use std::thread::Threads;

// The decks that each member enters.
const DECKS: usize = 100;

// The entries of a deck: its job begins, takes a group, and is entered.
const ENTRIES: usize = 3;

// A worker gives up waiting after so many looks. Neither should come so far.
const LOOKS: u64 = 20_000_000;

/// The first steps of two members: each waits in `before`, and then in `after`, until the other one has come there.
#[derive(Drop)]
struct FirstSteps {
    before: AtomicU64,
    after: AtomicU64,
    missed: AtomicU64,
}

impl FirstSteps {
    fn new() -> FirstSteps {
        FirstSteps {
            before: AtomicU64::new(0),
            after: AtomicU64::new(0),
            missed: AtomicU64::new(0),
        }
    }

    // Waits until two have come to this place.
    fn wait_at(&self, place: &AtomicU64) {
        place.fetch_add(1, Ordering::SeqCst);
        for _look in 0..LOOKS {
            if place.load(Ordering::SeqCst) >= 2 {
                return;
            }
            thread::yield_now();
        }
        self.missed.fetch_add(1, Ordering::SeqCst);
    }

    // Both members came to both places, and none gave up waiting.
    fn have_met(&self) -> bool {
        self.before.load(Ordering::SeqCst) == 2
            && self.after.load(Ordering::SeqCst) == 2
            && self.missed.load(Ordering::SeqCst) == 0
    }
}

impl Meet for FirstSteps {
    fn before(&self, _by: MemberId, step: u32) {
        if step <= 2 {
            self.wait_at(&self.before);
        }
    }

    fn after(&self, _by: MemberId, step: u32) {
        if step <= 2 {
            self.wait_at(&self.after);
        }
    }
}

// A hundred decks at SYSA and at SYSB each, in turn.
fn script(alloc: Global) -> Result<List<u8>, NoMemory> {
    let mut bytes = List::new(alloc);
    for _deck in 0..DECKS {
        for byte in b"SYSA DECK\n//A JOB\n++END\nSYSB DECK\n//A JOB\n++END\n" {
            bytes.push(*byte)?;
        }
    }
    Ok(bytes)
}

// Room for the pages of both copies, the text of each job, and all acts.
fn plant(alloc: Global) -> Result<MemPlant, NoMemory> {
    let sizes = Sizes {
        ckpt: 1 << 20,
        volumes: 1,
        volume: 4096 * 512,
    };
    MemPlant::new(alloc, sizes, 400_000, 100_000_000)
}

// The words behind the program's name.
fn words(alloc: Global, asked: &[&str]) -> Result<Vec<String>, AllocError> {
    let mut words = Vec::new(alloc);
    for word in asked {
        words.push(String::from_str(alloc, word)?)?;
    }
    Ok(words)
}

// Does what the words ask for on a plant, with a script of these bytes.
fn does<R: Threads + Wait + Sync, M: Meet + Sync>(
    rt: &R,
    alloc: Global,
    asked: &[&str],
    script: List<u8>,
    plant: MemPlant,
    meet: &M,
) -> Ended<MemPlant> {
    let Ok(words) = words(alloc, asked) else {
        return unbegun(alloc, Status::NoMemory, plant);
    };
    let mut source = MemSource::new(script, None);
    race_top(rt, alloc, words.as_slice(), &mut source, plant, meet)
}

/// What a race left.
#[derive(Clone, Copy)]
struct Left {
    /// It ended well, and the journal has each member's entries.
    entries: bool,
    /// So did the report after it, and all lines are on the console.
    lines: bool,
}

// The queue is reported, and then all lines are on the console. What is left of a run is let go in one call.
fn is_reported<R: Threads + Wait + Sync>(rt: &R, alloc: Global, plant: MemPlant) -> bool {
    let told = does(rt, alloc, &["report"], List::new(alloc), plant, &NoMeet);
    let is_said = matches!(told.status, Status::Done) && has_said_all(alloc, &told.plant);
    drop(told);
    is_said
}

// The members race over their decks, and then the queue is reported on the same devices.
fn race<R: Threads + Wait + Sync, M: Meet + Sync>(
    rt: &R,
    alloc: Global,
    meet: &M,
) -> Result<Left, NoMemory> {
    let decks = script(alloc)?;
    let plant = plant(alloc)?;
    let Ended {
        status,
        plant,
        base,
        journal,
        ..
    } = does(rt, alloc, &["race", "--cold"], decks, plant, meet);
    let entries = matches!(status, Status::Done) && has_all(&journal);
    drop(base);
    drop(journal);
    let lines = is_reported(rt, alloc, plant);
    Ok(Left { entries, lines })
}

// A member's entries are those of its decks in their order, each deck's together. SYSA has the odd steps, SYSB the even
// ones.
fn gives_its_own(journal: &BriefJournal, by: MemberId) -> bool {
    let mut count = 0usize;
    let mut step = u32::from(by.0);
    for batch in journal.batches() {
        for entry in batch.briefs() {
            if entry.by == by {
                if entry.step != step {
                    return false;
                }
                count = count.saturating_add(1);
                if count % ENTRIES == 0 {
                    step = step.saturating_add(2);
                }
            }
        }
    }
    count == DECKS * ENTRIES
}

fn has_all(journal: &BriefJournal) -> bool {
    gives_its_own(journal, MemberId(1)) && gives_its_own(journal, MemberId(2))
}

// The lines from one on, up to another, all begin so.
fn all_begin(console: &Lines, from: usize, to: usize, first: &[u8]) -> bool {
    for at in from..to {
        if at >= console.len() || !console.line(at).starts_with(first) {
            return false;
        }
    }
    true
}

// The closing line of each deck, then the history and its end, and then the report: as many jobs, of a group each, and a
// line of each member.
fn says_all(console: &Lines) -> bool {
    let decks = 2 * DECKS;
    let ended = decks + decks * ENTRIES;
    let jobs = ended + 1;
    let volume = jobs + decks;
    console.len() == volume + 4
        && all_begin(console, 0, decks, b"SYS")
        && all_begin(console, decks, ended, b"H ")
        && all_begin(console, ended, jobs, b"H END 600")
        && all_begin(console, jobs, volume, b"JOB")
        && all_begin(console, volume, volume + 1, b"VOL1 FREE 312 OF 512")
        && all_begin(console, volume + 3, volume + 4, b"END")
}

fn has_said_all(alloc: Global, plant: &MemPlant) -> bool {
    match plant.console_lines(alloc) {
        Ok(console) => says_all(&console),
        Err(NoMemory) => false,
    }
}

#[test]
fn two_members_race(rt: HostRuntime) -> Result<(), Fail> {
    let left = race(&rt, rt.alloc(), &NoMeet).ok().ok_or("memory")?;
    assert!(rt; left.entries);
    assert!(rt; left.lines);
    Ok(())
}

#[test]
fn two_members_meet(rt: HostRuntime) -> Result<(), Fail> {
    let meet = FirstSteps::new();
    let left = race(&rt, rt.alloc(), &meet).ok().ok_or("memory")?;
    assert!(rt; left.entries);
    assert!(rt; left.lines);
    assert!(rt; meet.have_met());
    Ok(())
}
