//! An index from texts to their groups.
ghost use Rattle.std.specs.Prelude.{◌≡◌, ◌<◌, ◌^◌, [], ◌∷◌, ◌++◌, List, length, map, IfOk, OnOk};
ghost use Rattle.mas_types.specs.declared.queues.Owner.{Owner as OwnerLem};
ghost use Rattle.mas_types.specs.Sorted.{in_order};
ghost use Rattle.track_groups.specs.Places.{groups_of as groups_of_lem};
ghost use Rattle.track_texts.specs.Index.{key_of as key_of_lem, placed as placed_lem, groups_at, Adds, KeepsOthers, AreTextGroups};

use mas_types::{GroupNo, List, NoMemory, Owner, Thing};
use std::alloc::Global;
use std::collections::HashMap;

/// A group with its place in its text.
#[derive(Clone, Copy)]
struct TextGroup {
    place: u16,
    group: GroupNo,
}

/// The groups of each text.
#[derive(Drop)]
pub struct TextGroups {
    /// By the number of the job, with 0 for its deck, or the index of its output and one more.
    groups: HashMap<(u32, u16), List<TextGroup>>,
}

fn key_of(thing: Thing) -> (u32, u16)
    ensures { result ≡ key_of_lem thing }
{
    match thing {
        Thing::Deck(job) => (job.0, 0),
        Thing::Output(job, index) => (job.0, index.0 as u16 + 1),
    }
}

// The key of a group's text, and its place there; none where it is in no text.
fn placed(owner: Owner) -> Option<((u32, u16), u16)>
    ensures { result ≡ placed_lem owner }
{
    match owner {
        Owner::Deck { job, place } => Some(((job.0, 0), place)),
        Owner::Output { job, index, place } => Some(((job.0, index.0 as u16 + 1), place)),
        _ => None,
    }
}

// Takes the groups under a key out. Those under other keys stay.
fn take_out(
    alloc: Global,
    groups: &mut HashMap<(u32, u16), List<TextGroup>>,
    key: (u32, u16),
) -> Result<List<TextGroup>, NoMemory>
    ensures own { IfOk result (λ own. own ≡ groups_at groups.old key) }
    ensures others { OnOk result (KeepsOthers key groups.old groups.new) }
{
    match groups.insert(key, List::new(alloc)) {
        Ok(old) => Ok(old.unwrap_or(List::new(alloc))),
        Err(_) => Err(NoMemory),
    }
}

// Adds a group under a key.
fn add_under(
    alloc: Global,
    groups: &mut HashMap<(u32, u16), List<TextGroup>>,
    key: (u32, u16),
    group: TextGroup,
) -> Result<(), NoMemory>
    ensures { OnOk result (Adds groups.old key group groups.new) }
{
    let mut own = take_out(alloc, groups, key)?;
    own.push(group)?;
    match groups.insert(key, own) {
        Ok(_) => Ok(()),
        Err(_) => Err(NoMemory),
    }
}

fn copied(alloc: Global, groups: &[TextGroup]) -> Result<Vec<TextGroup>, NoMemory>
    ensures { IfOk result (λ copy. copy.items ≡ groups.now) }
{
    let mut copy = Vec::new(alloc);
    copy.extend_from_slice(groups)?;
    Ok(copy)
}

// The numbers of groups in the order of their places.
fn in_places(alloc: Global, groups: &[TextGroup]) -> Result<List<GroupNo>, NoMemory>
    ensures { IfOk result (λ sorted. sorted ≡ map (λ g. g.group) (in_order (λ g. g.place) groups.now)) }
{
    let mut placed = copied(alloc, groups)?;
    placed.sort_by_key(|group| group.place)?;
    let mut sorted = List::new(alloc);
    for group in placed.as_slice() {
        sorted.push(group.group)?;
    }
    Ok(sorted)
}

impl TextGroups {
    fn new(alloc: Global) -> TextGroups
        ensures { AreTextGroups result [] }
    {
        TextGroups {
            groups: HashMap::new(alloc),
        }
    }

    // Adds the next group.
    fn add(&mut self, alloc: Global, group: GroupNo, owner: Owner) -> Result<(), NoMemory>
        ensures { OnOk result ((before : List OwnerLem) → length before ≡ group.0 → AreTextGroups self.old before
            → AreTextGroups self.new (before ++ owner ∷ [])) }
    {
        match placed(owner) {
            Some((key, place)) => {
                add_under(alloc, &mut self.groups, key, TextGroup { place, group })
            }
            None => Ok(()),
        }
    }

    /// The groups of each text, by the owners of all groups in order; group 0 is the first. There are fewer than 2^32
    /// groups in all. NoMemory comes only when out of memory.
    pub fn of(alloc: Global, owners: &[Owner]) -> Result<TextGroups, NoMemory>
        requires { length owners.now < 2 ^ 32 }
        ensures { IfOk result (λ texts. AreTextGroups texts owners.now) }
    {
        let mut texts = TextGroups::new(alloc);
        for (at, owner) in owners.iter().enumerate() {
            texts.add(alloc, GroupNo(at as u32), *owner)?;
        }
        Ok(texts)
    }

    // The groups of a text in ascending number.
    fn found(&self, thing: Thing) -> &[TextGroup]
        ensures { result.now ≡ groups_at self.now.groups (key_of_lem thing) }
    {
        let key = key_of(thing);
        match self.groups.get(&key) {
            Some(groups) => groups.as_slice(),
            None => &[],
        }
    }

    /// The groups of the deck or the output in the order of their places; none where it has none: as
    /// `track_groups::groups_of` has them. NoMemory comes only when out of memory.
    pub fn groups_of(&self, alloc: Global, thing: Thing) -> Result<List<GroupNo>, NoMemory>
        ensures { IfOk result (λ groups. (owners : List OwnerLem) → AreTextGroups self.now owners
            → groups ≡ groups_of_lem thing owners) }
    {
        in_places(alloc, self.found(thing))
    }
}
