//! What the groups of each text come to: their records, and the last of their places.
ghost use Rattle.std.specs.Prelude.{◌≡◌, ◌+◌, ◌≤◌, ◌<◌, ◌^◌, [], ◌∷◌, ◌++◌, List, length, OnOk, IfOk};
ghost use Rattle.mas_types.specs.declared.queues.Owner.{Owner as OwnerLem};
ghost use Rattle.mas_check.specs.declared.groups.Group.{Group as GroupLem};
ghost use Rattle.mas_check.specs.Tallies.{tally_in, tally_at, Counts, AreTallies, HaveFew};

use crate::groups::Group;
use mas_types::{NoMemory, Owner};
use std::alloc::Global;
use std::collections::HashMap;
use std::hash::Hash;

/// What the groups of one text come to.
#[derive(Clone, Copy)]
pub(crate) struct Tally {
    /// The greatest of their places.
    pub(crate) last: u16,
    /// Their records. A group that holds none adds none.
    pub(crate) records: u64,
}

// The tally of no groups.
const NONE: Tally = Tally {
    last: 0,
    records: 0,
};

// The tally under a key.
fn tally_of<K: Eq + Hash + Drop>(tallies: &HashMap<K, Tally>, key: &K) -> Tally
    ensures { result ≡ tally_in K.eq tallies.now key.now }
{
    match tallies.get(key) {
        Some(tally) => *tally,
        None => NONE,
    }
}

// Counts a group in.
fn count_in<K: Eq + Hash + Drop>(
    tallies: &mut HashMap<K, Tally>,
    key: K,
    place: u16,
    records: u16,
) -> Result<(), NoMemory>
    requires { (tally_in K.eq tallies.old key).records < 2 ^ 63 }
    ensures { OnOk result (Counts K.eq tallies.old key place records tallies.new) }
{
    let before = tally_of(tallies, &key);
    let tally = Tally {
        last: before.last.max(place),
        records: before.records + records as u64,
    };
    match tallies.insert(key, tally) {
        Ok(_) => Ok(()),
        Err(_) => Err(NoMemory),
    }
}

/// The tallies of all texts.
#[derive(Drop)]
pub(crate) struct Tallies {
    /// By the number of the job.
    decks: HashMap<u32, Tally>,
    /// By the number of the job and the index of the output.
    prints: HashMap<(u32, u8), Tally>,
}

impl Tallies {
    fn new(alloc: Global) -> Tallies
        ensures none { AreTallies result [] }
        ensures few { HaveFew 0 result }
    {
        Tallies {
            decks: HashMap::new(alloc),
            prints: HashMap::new(alloc),
        }
    }

    fn add(&mut self, group: &Group) -> Result<(), NoMemory>
        requires { (o : OwnerLem) → (tally_at self.old o).records < 2 ^ 63 }
        ensures counted { OnOk result ((groups : List GroupLem) → AreTallies self.old groups
            → AreTallies self.new (groups ++ group.now ∷ [])) }
        ensures few { OnOk result ((o : OwnerLem)
            → (tally_at self.new o).records ≤ (tally_at self.old o).records + 65535) }
    {
        let records = group.records.unwrap_or(0);
        match group.owner {
            Owner::Deck { job, place } => count_in(&mut self.decks, job.0, place, records),
            Owner::Output { job, index, place } => {
                count_in(&mut self.prints, (job.0, index.0), place, records)
            }
            Owner::Free => Ok(()),
            Owner::Member(_) => Ok(()),
        }
    }

    /// The tallies of the texts that these groups are of.
    pub(crate) fn of(alloc: Global, groups: &[Group]) -> Result<Tallies, NoMemory>
        requires { length groups.now < 2 ^ 32 }
        ensures { IfOk result (λ tallies. AreTallies tallies groups.now) }
    {
        let mut tallies = Tallies::new(alloc);
        for group in groups {
            tallies.add(group)?;
        }
        Ok(tallies)
    }

    /// The tally of a group's text.
    pub(crate) fn tally(&self, owner: &Owner) -> Tally
        ensures { result ≡ tally_at self.now owner.now }
    {
        match *owner {
            Owner::Deck { job, place: _ } => tally_of(&self.decks, &job.0),
            Owner::Output {
                job,
                index,
                place: _,
            } => tally_of(&self.prints, &(job.0, index.0)),
            _ => NONE,
        }
    }
}
