//! The groups of texts: which of them hold no records of their text.
ghost use Rattle.std.specs.Prelude.{◌≡◌, ◌<◌, ◌^◌, length, IfOk, IfSome};
ghost use Rattle.mas_check.specs.Groups.{has_text as has_text_lem, cards_in as cards_in_lem, prints_in as prints_in_lem, lines_of as lines_of_lem, wrong_group};
ghost use Rattle.mas_check.specs.Tallies.{place_of as place_of_lem, is_wrong_group as is_wrong_group_lem};

use crate::tallies::Tallies;
use ckpt_tables::Tables;
use lay_bytes::{JobRec, OutRec};
use mas_types::{JobNo, NoMemory, OutNo, Owner};
use std::alloc::Global;

/// A group as it was found.
#[derive(Clone, Copy)]
pub(crate) struct Group {
    /// Whose it is.
    pub(crate) owner: Owner,
    /// The number of records on its page, of a group of a text. None where the page holds none.
    pub(crate) records: Option<u16>,
}

/// Whether a group is of a deck or of an output.
pub(crate) fn has_text(owner: &Owner) -> bool
    ensures { result ≡ has_text_lem owner.now }
{
    matches!(owner, Owner::Deck { .. } | Owner::Output { .. })
}

fn place_of(owner: &Owner) -> u16
    ensures { result ≡ place_of_lem owner.now }
{
    match *owner {
        Owner::Deck { job: _, place } => place,
        Owner::Output {
            job: _,
            index: _,
            place,
        } => place,
        _ => 0,
    }
}

fn cards_in(slots: &[Option<JobRec>], number: JobNo) -> u16
    ensures { result ≡ cards_in_lem number slots.now }
{
    for slot in slots {
        if let Some(job) = slot
            && job.number.0 == number.0
        {
            return job.cards;
        }
    }
    0
}

fn prints_in(slots: &[Option<OutRec>], number: JobNo, index: OutNo) -> u16
    ensures { result ≡ prints_in_lem number index slots.now }
{
    for slot in slots {
        if let Some(output) = slot
            && output.job.0 == number.0
            && output.index.0 == index.0
        {
            return output.lines;
        }
    }
    0
}

// How many lines the slot of a text counts.
fn lines_of(tables: &Tables, owner: &Owner) -> u16
    ensures { result ≡ lines_of_lem tables.now owner.now }
{
    match *owner {
        Owner::Deck { job, place: _ } => cards_in(tables.jobs.as_slice(), job),
        Owner::Output {
            job,
            index,
            place: _,
        } => prints_in(tables.outputs.as_slice(), job, index),
        _ => 0,
    }
}

fn is_wrong_group(tables: &Tables, tallies: &Tallies, group: &Group) -> bool
    ensures { result ≡ is_wrong_group_lem tables.now tallies.now group.now }
{
    let tally = tallies.tally(&group.owner);
    has_text(&group.owner)
        && (group.records.is_none()
            || place_of(&group.owner) >= tally.last
                && tally.records != lines_of(tables, &group.owner) as u64)
}

/// The first group of a text that holds no records of it.
pub(crate) fn first_wrong_group(
    alloc: Global,
    tables: &Tables,
    groups: &[Group],
) -> Result<Option<usize>, NoMemory>
    requires { length groups.now < 2 ^ 32 }
    ensures first { IfOk result (λ found. found ≡ wrong_group tables.now groups.now) }
    ensures within { IfOk result (λ found. IfSome found (λ group. group < length groups.now)) }
{
    let tallies = Tallies::of(alloc, groups)?;
    for (i, group) in groups.iter().enumerate() {
        if is_wrong_group(tables, &tallies, group) {
            return Ok(Some(i));
        }
    }
    Ok(None)
}
