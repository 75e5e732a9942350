//! What is known of each part, and counts.
ghost use Rattle.std.specs.Prelude.{◌≡◌, ◌+◌, ◌*◌, ◌<◌, ◌≤◌, ◌∷◌, [], ℕ, length, slice_set, slice_index, IfOk, map, replicate};
ghost use Rattle.spool_plant.specs.Acts.{next, top};
ghost use Rattle.spool_disk.specs.Begins.{restarted};
ghost use Rattle.spool_disk.specs.Known.{known_health};
ghost use Rattle.spool_disk.specs.Health.{sound, health_at, lost_from, lost_after, failed_after, renewed_after};

use crate::entry::Entry;
use crate::places::PLACES;
use std::alloc::{AllocError, Global};

/// A part: its faults, the moment from which it is lost, and that it is lost now. At the greatest moment it may be
/// lost now and yet at no moment.
#[derive(Clone, Copy)]
pub struct Health {
    /// The acts on it that failed.
    pub faults: u64,
    /// The moment from which on it is lost, none where it is lost at none.
    pub since: Option<u64>,
    /// It is lost now.
    pub lost: bool,
}

fn lost_since(since: Option<u64>, now: u64) -> Option<u64>
    ensures { result ≡ lost_from since now }
{
    match since {
        Some(moment) => Some(moment),
        None if now == u64::MAX => None,
        None => Some(now + 1),
    }
}

impl Health {
    // The part, lost by an act at a moment.
    fn losing(self, now: u64) -> Health
        ensures { result ≡ lost_after self now }
    {
        Health {
            faults: self.faults,
            since: lost_since(self.since, now),
            lost: true,
        }
    }

    // The part after a fault at a moment.
    fn failing(self, now: u64) -> Health
        ensures value { result ≡ failed_after self now }
        ensures fits { self.faults ≤ top }
    {
        Health {
            faults: self.faults.saturating_add(1),
            since: lost_since(self.since, now),
            lost: true,
        }
    }
}

/// What is counted of parts by their places, of members by their numbers, and of devices by their slots.
#[derive(Drop)]
pub struct Counts {
    /// How each part is.
    pub parts: Vec<Health>,
    /// The stops of each member.
    pub stops: Vec<u64>,
    /// The calls that lost each device.
    pub loses: Vec<u64>,
    /// The calls that armed a stop of each member.
    pub arms: Vec<u64>,
    ghost parts_len: { length parts.items ≡ 1032 },
    ghost stops_len: { length stops.items ≡ 256 },
    ghost loses_len: { length loses.items ≡ 258 },
    ghost arms_len: { length arms.items ≡ 256 },
}

impl Counts {
    /// A fault of a part at a moment.
    pub fn fail(&mut self, place: usize, now: u64)
        requires { place < 1032 }
        ensures parts { self.new.parts.items
            ≡ slice_set self.old.parts.items place (failed_after (health_at self.old.parts.items place) now) }
        ensures stops { self.new.stops.items ≡ self.old.stops.items }
        ensures loses { self.new.loses.items ≡ self.old.loses.items }
        ensures arms { self.new.arms.items ≡ self.old.arms.items }
        ensures fits { (health_at self.old.parts.items place).faults ≤ top }
    {
        let health = self.parts[place];
        self.parts[place] = health.failing(now);
    }

    /// A call at a moment that loses a device.
    pub fn lose(&mut self, slot: usize, now: u64)
        requires { slot < 258 }
        ensures parts { self.new.parts.items
            ≡ slice_set self.old.parts.items (4 * slot) (lost_after (health_at self.old.parts.items (4 * slot)) now) }
        ensures stops { self.new.stops.items ≡ self.old.stops.items }
        ensures loses { self.new.loses.items
            ≡ slice_set self.old.loses.items slot (next (slice_index self.old.loses.items slot)) }
        ensures arms { self.new.arms.items ≡ self.old.arms.items }
        ensures fits { slice_index self.old.loses.items slot ≤ top }
    {
        let health = self.parts[4 * slot];
        self.parts[4 * slot] = health.losing(now);
        self.loses[slot] = self.loses[slot].saturating_add(1);
    }

    /// Another device comes in the place of a slot's.
    pub fn renew(&mut self, slot: usize)
        requires { slot < 258 }
        ensures parts { self.new.parts.items
            ≡ slice_set self.old.parts.items (4 * slot) (renewed_after (health_at self.old.parts.items (4 * slot))) }
        ensures stops { self.new.stops.items ≡ self.old.stops.items }
        ensures loses { self.new.loses.items ≡ self.old.loses.items }
        ensures arms { self.new.arms.items ≡ self.old.arms.items }
    {
        let health = self.parts[4 * slot];
        self.parts[4 * slot] = health.renewing();
    }

    /// A stop of a member.
    pub fn stop(&mut self, by: usize)
        requires { by < 256 }
        ensures parts { self.new.parts.items ≡ self.old.parts.items }
        ensures loses { self.new.loses.items ≡ self.old.loses.items }
        ensures arms { self.new.arms.items ≡ self.old.arms.items }
        ensures stops { self.new.stops.items
            ≡ slice_set self.old.stops.items by (next (slice_index self.old.stops.items by)) }
        ensures fits { slice_index self.old.stops.items by ≤ top }
    {
        self.stops[by] = self.stops[by].saturating_add(1);
    }

    /// A call that arms a stop of a member.
    pub fn arm(&mut self, member: usize)
        requires { member < 256 }
        ensures parts { self.new.parts.items ≡ self.old.parts.items }
        ensures stops { self.new.stops.items ≡ self.old.stops.items }
        ensures loses { self.new.loses.items ≡ self.old.loses.items }
        ensures arms { self.new.arms.items
            ≡ slice_set self.old.arms.items member (next (slice_index self.old.arms.items member)) }
    {
        self.arms[member] = self.arms[member].saturating_add(1);
    }
}

impl Counts {
    /// Counts that stand at 0, and these parts. AllocError comes only when out of memory.
    pub fn new(alloc: Global, parts: Vec<Health>) -> Result<Counts, AllocError>
        requires { length parts.items ≡ 1032 }
        ensures parts { IfOk result (λ c. c.parts.items ≡ parts.items) }
        ensures stops { IfOk result (λ c. c.stops.items ≡ replicate 256 0) }
        ensures loses { IfOk result (λ c. c.loses.items ≡ replicate 258 0) }
        ensures arms { IfOk result (λ c. c.arms.items ≡ replicate 256 0) }
    {
        let stops = vec![in alloc; 0; 256]?;
        let loses = vec![in alloc; 0; 258]?;
        let arms = vec![in alloc; 0; 256]?;
        Ok(Counts {
            parts,
            stops,
            loses,
            arms,
        })
    }
}

// Parts that are all sound.
pub(crate) fn sound_parts(alloc: Global) -> Result<Vec<Health>, AllocError>
    ensures { IfOk result (λ v. v.items ≡ replicate 1032 sound) }
{
    let part = Health {
        faults: 0,
        since: None,
        lost: false,
    };
    vec![in alloc; part; PLACES]
}

impl Health {
    // The part, which has another in its place.
    fn renewing(self) -> Health
        ensures { result ≡ renewed_after self }
    {
        Health {
            faults: self.faults,
            since: None,
            lost: false,
        }
    }

    // The part after a crash at a moment.
    fn restarting(self, t: u64) -> Health
        ensures { result ≡ restarted t self }
    {
        let lost = match self.since {
            Some(since) => since <= t,
            None => false,
        };
        Health {
            faults: 0,
            since: if lost { Some(0) } else { None },
            lost,
        }
    }
}

// A part as it was known before an entry.
fn forget(parts: &mut [Health], entry: &Entry)
    requires { length parts.old ≡ 1032 }
    ensures len { length parts.new ≡ 1032 }
    ensures each { (place : ℕ) → health_at parts.new place
        ≡ known_health place (entry.now ∷ []) (health_at parts.old place) }
{
    match *entry {
        Entry::Renewed(slot, since) if slot < 258 => parts[4 * slot].since = since,
        _ => {}
    }
}

// The parts as they were known before entries.
fn forget_all(parts: &mut [Health], later: &[Entry])
    requires { length parts.old ≡ 1032 }
    ensures len { length parts.new ≡ 1032 }
    ensures each { (place : ℕ) → health_at parts.new place ≡ known_health place later.now (health_at parts.old place) }
{
    for back in 0..later.len() {
        forget(parts, &later[later.len() - 1 - back]);
    }
}

fn copy_parts(alloc: Global, parts: &[Health]) -> Result<Vec<Health>, AllocError>
    ensures { IfOk result (λ v. v.items ≡ parts.now) }
{
    parts.to_vec(alloc)
}

fn restarted_parts(alloc: Global, parts: &[Health], t: u64) -> Result<Vec<Health>, AllocError>
    ensures { IfOk result (λ v. v.items ≡ map (restarted t) parts.now) }
{
    parts.iter().map(|part| part.restarting(t)).collect(alloc)
}

// The parts after a crash at a moment, after which the record has these entries.
pub(crate) fn crashed_parts(
    alloc: Global,
    parts: &[Health],
    later: &[Entry],
    t: u64,
) -> Result<Vec<Health>, AllocError>
    requires { length parts.now ≡ 1032 }
    ensures len { IfOk result (λ v. length v.items ≡ 1032) }
    ensures each { IfOk result (λ v. (place : ℕ)
        → health_at v.items place ≡ restarted t (known_health place later.now (health_at parts.now place))) }
{
    let mut then = copy_parts(alloc, parts)?;
    forget_all(&mut then, later);
    restarted_parts(alloc, &then, t)
}
