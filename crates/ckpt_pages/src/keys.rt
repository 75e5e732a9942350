//! Which numbers, orders, indexes and places stand in tables: sets of them, so that a key is found without a walk.
ghost use Rattle.std.specs.Prelude.{◌≡◌, [], Some, OnOk, IfOk};
ghost use Rattle.ckpt_pages.specs.Keys.{Adds, AddsOne, AreGroupKeys, AreJobKeys, AreOutputKeys, ArePlaceKeys, has_place as has_place_lem, has_place_before as has_place_before_lem};

use crate::faults::{is_past_input, may_have_outputs};
use lay_bytes::{JobRec, OutRec};
use mas_types::{NoMemory, Owner};
use std::alloc::Global;
use std::collections::HashSet;
use std::hash::Hash;

// Adds a key where it is wanted.
fn add<K: Eq + Hash + Drop>(set: &mut HashSet<K>, wanted: bool, key: K) -> Result<(), NoMemory>
    ensures { OnOk result (Adds K.eq set.old wanted key set.new) }
{
    if !wanted {
        return Ok(());
    }
    match set.insert(key) {
        Ok(_) => Ok(()),
        Err(_) => Err(NoMemory),
    }
}

/// The texts that have groups.
#[derive(Drop)]
pub(crate) struct GroupKeys {
    /// The numbers of jobs whose decks have groups.
    pub(crate) decks: HashSet<u32>,
    /// The numbers of jobs with the indexes of their outputs that have groups.
    pub(crate) prints: HashSet<(u32, u8)>,
}

impl GroupKeys {
    fn new(alloc: Global) -> GroupKeys
        ensures { AreGroupKeys result [] }
    {
        GroupKeys {
            decks: HashSet::new(alloc),
            prints: HashSet::new(alloc),
        }
    }

    fn add(&mut self, owner: &Owner) -> Result<(), NoMemory>
        ensures { OnOk result (AddsOne AreGroupKeys self.old owner.now self.new) }
    {
        match *owner {
            Owner::Deck { job, place: _ } => add(&mut self.decks, true, job.0),
            Owner::Output {
                job,
                index,
                place: _,
            } => add(&mut self.prints, true, (job.0, index.0)),
            _ => Ok(()),
        }
    }

    /// The texts that have some of these groups.
    pub(crate) fn of(alloc: Global, owners: &[Owner]) -> Result<GroupKeys, NoMemory>
        ensures { IfOk result (λ keys. AreGroupKeys keys owners.now) }
    {
        let mut keys = GroupKeys::new(alloc);
        for owner in owners {
            keys.add(owner)?;
        }
        Ok(keys)
    }
}

/// The jobs in slots.
#[derive(Drop)]
pub(crate) struct JobKeys {
    pub(crate) numbers: HashSet<u32>,
    pub(crate) orders: HashSet<u64>,
    /// The numbers of jobs in a phase in which a job has outputs.
    pub(crate) with_outputs: HashSet<u32>,
    /// The numbers of jobs past their input.
    pub(crate) past_input: HashSet<u32>,
}

impl JobKeys {
    pub(crate) fn new(alloc: Global) -> JobKeys
        ensures { AreJobKeys result [] }
    {
        JobKeys {
            numbers: HashSet::new(alloc),
            orders: HashSet::new(alloc),
            with_outputs: HashSet::new(alloc),
            past_input: HashSet::new(alloc),
        }
    }

    fn add_job(&mut self, job: &JobRec) -> Result<(), NoMemory>
        ensures { OnOk result (AddsOne AreJobKeys self.old (Some job.now) self.new) }
    {
        let number = job.number.0;
        add(&mut self.numbers, true, number)?;
        add(&mut self.orders, true, job.order)?;
        add(&mut self.with_outputs, may_have_outputs(job.phase), number)?;
        add(&mut self.past_input, is_past_input(job.phase), number)
    }

    /// Adds what stands in a slot.
    pub(crate) fn add(&mut self, slot: &Option<JobRec>) -> Result<(), NoMemory>
        ensures { OnOk result (AddsOne AreJobKeys self.old slot.now self.new) }
    {
        match slot {
            Some(job) => self.add_job(job),
            None => Ok(()),
        }
    }
}

/// The outputs in slots.
#[derive(Drop)]
pub(crate) struct OutputKeys {
    pub(crate) orders: HashSet<u64>,
    /// The numbers of their jobs with their indexes.
    pub(crate) prints: HashSet<(u32, u8)>,
    /// The members at which they are busy.
    pub(crate) printers: HashSet<u8>,
}

impl OutputKeys {
    pub(crate) fn new(alloc: Global) -> OutputKeys
        ensures { AreOutputKeys result [] }
    {
        OutputKeys {
            orders: HashSet::new(alloc),
            prints: HashSet::new(alloc),
            printers: HashSet::new(alloc),
        }
    }

    fn add_output(&mut self, output: &OutRec) -> Result<(), NoMemory>
        ensures { OnOk result (AddsOne AreOutputKeys self.old (Some output.now) self.new) }
    {
        add(&mut self.orders, true, output.order)?;
        add(&mut self.prints, true, (output.job.0, output.index.0))?;
        add(&mut self.printers, true, output.busy.0)
    }

    /// Adds what stands in a slot.
    pub(crate) fn add(&mut self, slot: &Option<OutRec>) -> Result<(), NoMemory>
        ensures { OnOk result (AddsOne AreOutputKeys self.old slot.now self.new) }
    {
        match slot {
            Some(output) => self.add_output(output),
            None => Ok(()),
        }
    }
}

/// The places of texts that are taken.
#[derive(Drop)]
pub(crate) struct PlaceKeys {
    /// The number of a job with a place of its deck.
    decks: HashSet<(u32, u16)>,
    /// The number of a job and the index of its output, with a place of it.
    prints: HashSet<((u32, u8), u16)>,
}

impl PlaceKeys {
    pub(crate) fn new(alloc: Global) -> PlaceKeys
        ensures { ArePlaceKeys result [] }
    {
        PlaceKeys {
            decks: HashSet::new(alloc),
            prints: HashSet::new(alloc),
        }
    }

    /// Adds the place of a group.
    pub(crate) fn add(&mut self, owner: &Owner) -> Result<(), NoMemory>
        ensures { OnOk result (AddsOne ArePlaceKeys self.old owner.now self.new) }
    {
        match *owner {
            Owner::Deck { job, place } => add(&mut self.decks, true, (job.0, place)),
            Owner::Output { job, index, place } => {
                add(&mut self.prints, true, ((job.0, index.0), place))
            }
            _ => Ok(()),
        }
    }

    /// The places that these groups take.
    pub(crate) fn of(alloc: Global, owners: &[Owner]) -> Result<PlaceKeys, NoMemory>
        ensures { IfOk result (λ keys. ArePlaceKeys keys owners.now) }
    {
        let mut keys = PlaceKeys::new(alloc);
        for owner in owners {
            keys.add(owner)?;
        }
        Ok(keys)
    }

    /// Whether the place of a group is taken.
    pub(crate) fn has(&self, owner: &Owner) -> bool
        ensures { result ≡ has_place_lem self.now owner.now }
    {
        match *owner {
            Owner::Deck { job, place } => self.decks.contains(&(job.0, place)),
            Owner::Output { job, index, place } => {
                self.prints.contains(&((job.0, index.0), place))
            }
            _ => false,
        }
    }

    /// Whether the place before a group's is taken, where it isn't the first.
    pub(crate) fn has_before(&self, owner: &Owner) -> bool
        ensures { result ≡ has_place_before_lem self.now owner.now }
    {
        match *owner {
            Owner::Deck { job, place } if place > 0 => self.has(&Owner::Deck {
                job,
                place: place - 1,
            }),
            Owner::Output { job, index, place } if place > 0 => self.has(&Owner::Output {
                job,
                index,
                place: place - 1,
            }),
            _ => true,
        }
    }
}
