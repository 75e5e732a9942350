//! What scripts are played on.
ghost use Rattle.std.specs.Prelude.{◌≤◌};
ghost use Rattle.mas_types.specs.Limits.{members_most};

use mas_types::{Lines, List, MEMBERS_MOST, MemberId, Queue};
use spool_plant::Fuse;

const MOST: usize = MEMBERS_MOST as usize;

/// The queue, and what is kept of it.
#[derive(Drop)]
pub struct Queues {
    /// The queue that all commands so far give.
    pub queue: Queue,
    /// The queue that the kept batches give.
    pub kept: Queue,
}

/// Who holds the lock of the checkpoint, and who is stopped. The holder has a name.
#[derive(Drop)]
pub struct Book {
    /// The member that holds the lock, 0 for nobody.
    pub holder: MemberId,
    /// Whether its LOCK took the lock.
    pub by_lock: bool,
    /// How many commands are left of the hold.
    pub left: u16,
    /// How many commands a whole hold has.
    pub hold: u16,
    /// For how many tries a member that gave the lock up leaves it to others.
    pub dormancy: u16,
    /// The tries that were counted.
    pub tick: u64,
    /// Whether a member is stopped, by its number less 1.
    pub stopped: [bool; MOST],
    /// The tick from which on a member may have the lock again, by its number less 1.
    pub wakes: [u64; MOST],

    ghost small: { holder.0 ≤ members_most },
}

/// A stop that is armed.
#[derive(Clone, Copy)]
pub struct Arm {
    /// The member that it stops.
    pub member: MemberId,
    /// The acts that it counts.
    pub fuse: Fuse,
    /// How many of them are left, with the one that halts; 0 for none.
    pub left: u32,
}

/// The members: their lock, their stops, and what they write.
#[derive(Drop)]
pub struct Members {
    /// The book of the lock.
    pub book: Book,
    /// The stops that are armed.
    pub arms: List<Arm>,
    /// What stands on each member's paper, by its number less 1.
    pub papers: List<Lines>,
    /// The lines that were said.
    pub console: Lines,
}

/// What scripts are played on.
#[derive(Drop)]
pub struct Spool {
    /// The queue of all members.
    pub queues: Queues,
    /// How many commands the batch has that isn't kept yet.
    pub given: u32,
    /// The members, with all but their queue.
    pub members: Members,
}

impl Book {
    /// The book of a run that begins: nobody holds the lock, and nobody is stopped.
    pub fn new(hold: u16, dormancy: u16) -> Book {
        Book {
            holder: MemberId(0),
            by_lock: false,
            left: hold,
            hold,
            dormancy,
            tick: 0,
            stopped: [false; MOST],
            wakes: [0; MOST],
        }
    }
}
