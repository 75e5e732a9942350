//! What plays the scripts of cases, and what a run leaves.
use brief_journal::BriefJournal;
use brief_queue::BriefQueue;
use mas_types::{NoMemory, Status};
use spool_disk::{MemPlant, MemSource};
use std::alloc::{AllocError, Global};

/// How a run ended, and what it leaves.
#[derive(Drop)]
pub struct Played {
    /// How it ended.
    pub status: Status,
    /// Its devices.
    pub plant: MemPlant,
    /// The queue that it began with.
    pub base: BriefQueue,
    /// The moment from which on it keeps its promises.
    pub since: u64,
    /// Its commands, with their replies.
    pub journal: BriefJournal,
}

/// A run that was played. It stands in a box, as its plant does after a crash: so whoever has one lets it go by one
/// call.
pub type Run = Box<Played>;

impl Played {
    /// The run in a box.
    pub fn boxed(self, alloc: Global) -> Result<Run, NoMemory> {
        Ok(Box::new(alloc, self).map_err(AllocError::from)?)
    }
}

/// What plays a script over the plant in memory.
pub trait Player {
    /// Whose memory it takes.
    fn alloc(&self) -> Global;

    /// A run of a script, cold or warm.
    fn play(&self, cold: bool, source: MemSource, plant: MemPlant) -> Result<Run, NoMemory>;
}
