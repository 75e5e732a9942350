//! Whose the track groups are, and what becomes of them.
ghost use Rattle.std.specs.Prelude.{◌≡◌, ◌&&◌, ◌≤◌, ◌+◌, ◌-◌, ◌++◌, nat_lt, if◌then◌else◌, All, length, filter, drop, unwrap_or, IfOk, OnOk};
ghost use Rattle.mas_types.specs.declared.queues.Owner.TheVariants as owner;
ghost use Rattle.mas_types.specs.Fit.{AreLines, IsOutSpec};
ghost use Rattle.mas_types.specs.Lists.{head};
ghost use Rattle.mas_types.specs.Queue.{is_of};
ghost use Rattle.mas_types.specs.Owners.{deck_places as deck_places_lem, freed, groups_needed as groups_needed_lem, handed_out, is_deck_of, is_free as is_free_lem, is_held_by, is_members, is_of_any, is_output_of, output_places, taken};
ghost use Rattle.mas_types.specs.Commands.Life.{groups_of_outputs, places_of_outputs as places_of_outputs_lem};

use crate::conditions::{same_index, same_member, same_number};
use crate::outputs::Keyed;
use crate::picking::{Changes, Picks, change_each, is_any};
use mas_types::{JobNo, Lines, List, MemberId, NoMemory, OutNo, OutSpec, Output, Owner};
use std::alloc::Global;

/// The Free groups.
#[derive(Clone, Copy)]
pub struct IsFree;

impl Picks<Owner> for IsFree {
    ghost picks = { λ s g. is_free_lem g };

    fn picks(&self, item: &Owner) -> bool {
        is_free(*item)
    }
}

fn is_free(owner: Owner) -> bool
    ensures { result ≡ is_free_lem owner }
{
    matches!(owner, Owner::Free)
}

/// The groups of a member.
#[derive(Clone, Copy)]
pub struct MembersGroups(pub MemberId);

impl Picks<Owner> for MembersGroups {
    ghost picks = { λ s g. is_members s.0 g };

    fn picks(&self, item: &Owner) -> bool {
        match item {
            Owner::Member(m) => same_member(*m, self.0),
            _ => false,
        }
    }
}

/// The groups of members that are picked.
#[derive(Clone, Copy)]
pub struct HeldGroups<'a, P> {
    /// The members.
    pub members: &'a P,
}

impl<'a, P: Picks<MemberId>> Picks<Owner> for HeldGroups<'a, P> {
    ghost picks = { λ s g. is_held_by (P.picks s.members.now) g };

    fn picks(&self, item: &Owner) -> bool {
        match item {
            Owner::Member(m) => self.members.picks(m),
            _ => false,
        }
    }
}

/// The groups of a job's deck.
#[derive(Clone, Copy)]
pub struct DeckGroups(pub JobNo);

impl Picks<Owner> for DeckGroups {
    ghost picks = { λ s g. is_deck_of s.0 g };

    fn picks(&self, item: &Owner) -> bool {
        match item {
            Owner::Deck { job, .. } => same_number(*job, self.0),
            _ => false,
        }
    }
}

/// The groups of an output.
#[derive(Clone, Copy)]
pub struct OutputGroups {
    /// The job of the output.
    pub job: JobNo,
    /// The index of the output.
    pub index: OutNo,
}

impl Picks<Owner> for OutputGroups {
    ghost picks = { λ s g. is_output_of s.job s.index g };

    fn picks(&self, item: &Owner) -> bool {
        match item {
            Owner::Output { job, index, .. } => {
                same_number(*job, self.job) && same_index(*index, self.index)
            }
            _ => false,
        }
    }
}

/// The outputs of a job that have a key.
#[derive(Clone, Copy)]
struct OfJobKeyed {
    of: JobNo,
    key: Keyed,
}

impl Picks<Output> for OfJobKeyed {
    ghost use Rattle.mas_types.specs.Queue.{has_key};

    ghost picks = { λ s o. is_of s.of o && has_key s.key.job s.key.index o };

    fn picks(&self, item: &Output) -> bool {
        same_number(item.job, self.of) && self.key.picks(item)
    }
}

/// The groups of the outputs of a job.
#[derive(Clone, Copy)]
pub struct JobsOutputGroups<'a> {
    /// The outputs of the queue.
    pub outputs: &'a List<Output>,
    /// The job.
    pub of: JobNo,
}

impl<'a> Picks<Owner> for JobsOutputGroups<'a> {
    ghost picks = { λ s g. is_of_any (filter (is_of s.of) s.outputs.now) g };

    fn picks(&self, item: &Owner) -> bool {
        match item {
            Owner::Output { job, index, .. } => is_any(
                self.outputs,
                &OfJobKeyed {
                    of: self.of,
                    key: Keyed {
                        job: *job,
                        index: *index,
                    },
                },
            ),
            _ => false,
        }
    }
}

/// The group becomes Free.
#[derive(Clone, Copy)]
struct Frees;

impl Changes<Owner> for Frees {
    ghost changed = { λ s g. owner.Free };

    fn change(&self, item: &mut Owner) {
        *item = Owner::Free;
    }
}

fn free_in<P: Picks<Owner>>(owners: &mut [Owner], test: &P)
    ensures { owners.new ≡ freed (P.picks test.now) owners.old }
{
    change_each(owners, test, &Frees);
}

/// The groups that are picked become Free.
pub fn free_groups<P: Picks<Owner>>(owners: &mut List<Owner>, test: &P)
    ensures { owners.new ≡ freed (P.picks test.now) owners.old }
{
    free_in(owners.as_mut_slice(), test);
}

fn take_group(owner: &mut Owner, by: MemberId, left: u32) -> u32
    ensures owner { owner.new ≡ (if is_free_lem owner.old && nat_lt 0 left then Owner.Member by else owner.old) }
    ensures left { result ≡ (if is_free_lem owner.old && nat_lt 0 left then left - 1 else left) }
{
    if is_free(*owner) && left > 0 {
        *owner = Owner::Member(by);
        left - 1
    } else {
        left
    }
}

fn take_in(owners: &mut [Owner], by: MemberId, want: u32)
    ensures { owners.new ≡ taken by want owners.old }
{
    let mut left = want;
    for owner in owners.iter_mut() {
        left = take_group(owner, by, left);
    }
}

/// The lowest Free groups become the member's, so many or all that there are.
pub fn take_groups(owners: &mut List<Owner>, by: MemberId, want: u32)
    ensures { owners.new ≡ taken by want owners.old }
{
    take_in(owners.as_mut_slice(), by, want);
}

/// How many groups the lines take, where they are within the limits of a text.
pub fn groups_needed(lines: &Lines) -> u32
    requires { AreLines lines.now }
    ensures value { result ≡ groups_needed_lem lines.now }
    ensures few { result ≤ 10000 }
{
    let mut used: usize = 0;
    let mut groups: u32 = 1;
    for at in 0..lines.len() {
        let size = lines.line(at).len();
        if used + size + 2 <= 4096 {
            used = used + size + 1;
        } else {
            used = size + 1;
            groups += 1;
        }
    }
    groups
}

/// The places of a deck with these cards. NoMemory comes only when out of memory.
pub fn deck_places(alloc: Global, job: JobNo, text: &Lines) -> Result<List<Owner>, NoMemory>
    requires { AreLines text.now }
    ensures { IfOk result (λ places. places ≡ deck_places_lem job (groups_needed_lem text.now)) }
{
    let count = groups_needed(text);
    let mut places = List::new(alloc);
    for place in 0..count {
        places.push(Owner::Deck {
            job,
            place: place as u16,
        })?;
    }
    Ok(places)
}

fn push_places(
    places: &mut List<Owner>,
    job: JobNo,
    index: OutNo,
    count: u32,
) -> Result<(), NoMemory>
    requires { count ≤ 10000 }
    ensures { OnOk result (places.new ≡ places.old ++ output_places job index count) }
{
    for place in 0..count {
        places.push(Owner::Output {
            job,
            index,
            place: place as u16,
        })?;
    }
    Ok(())
}

/// The places of a job's outputs, with indexes from 1 on. NoMemory comes only when out of memory.
pub fn places_of_outputs(
    alloc: Global,
    job: JobNo,
    specs: &List<OutSpec>,
) -> Result<List<Owner>, NoMemory>
    requires few { length specs.now ≤ 32 }
    requires each { All IsOutSpec specs.now }
    ensures value { IfOk result (λ places. places ≡ places_of_outputs_lem job 1 specs.now) }
    ensures groups { IfOk result (λ places. length places ≡ groups_of_outputs specs.now) }
{
    let mut places = List::new(alloc);
    let mut index = 1;
    for spec in specs.as_slice() {
        push_places(&mut places, job, OutNo(index), groups_needed(&spec.text))?;
        index += 1;
    }
    Ok(places)
}

fn owner_at(new: &List<Owner>, next: usize) -> Owner
    ensures { result ≡ unwrap_or (head (drop next new.now)) Owner.Free }
{
    if next < new.len() {
        *new.item(next)
    } else {
        Owner::Free
    }
}

fn next_after(new: &List<Owner>, next: usize) -> usize
    ensures { result ≡ (if nat_lt next (length new.now) then next + 1 else next) }
{
    if next < new.len() { next + 1 } else { next }
}

fn hand_out_in(owners: &mut [Owner], by: MemberId, new: &List<Owner>)
    ensures { owners.new ≡ handed_out by new.now owners.old }
{
    let test = MembersGroups(by);
    let mut next = 0;
    for owner in owners.iter_mut() {
        if test.picks(owner) {
            *owner = owner_at(new, next);
            next = next_after(new, next);
        }
    }
}

/// The groups of the member get the new owners in order, the lowest the first of them; those left over become Free.
pub fn hand_out(owners: &mut List<Owner>, by: MemberId, new: &List<Owner>)
    ensures { owners.new ≡ handed_out by new.now owners.old }
{
    hand_out_in(owners.as_mut_slice(), by, new);
}
