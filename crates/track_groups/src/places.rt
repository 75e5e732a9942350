//! What the owners of groups say, and the groups of texts and members.
ghost use Rattle.std.specs.Prelude.{◌≡◌, ◌<◌, ◌^◌, length, IfOk, Some, slice_get};
ghost use Rattle.mas_types.specs.Owners.{free_count as free_count_lem, member_count as member_count_lem};
ghost use Rattle.track_groups.specs.Groups.{held_by as held_by_lem};
ghost use Rattle.track_groups.specs.Places.{place_of as place_of_lem, placed_from, groups_of as groups_of_lem};

use crate::kinds::{is_free, is_members, is_things};
use mas_types::{GroupNo, List, MemberId, NoMemory, Owner, Thing};
use std::alloc::{AllocError, Global};

/// A group with its place in its text.
#[derive(Clone, Copy)]
struct Placed {
    place: u16,
    group: GroupNo,
}

/// The owner of a group. The group is one of these.
pub fn owner(owners: &[Owner], group: GroupNo) -> Owner
    requires { group.0 < length owners.now }
    ensures { slice_get owners.now group.0 ≡ Some result }
{
    owners[group.0 as usize]
}

/// How many groups are free. There are fewer than 2^32 groups in all, as their numbers have 32 bits.
pub fn free_count(owners: &[Owner]) -> u32
    requires { length owners.now < 2 ^ 32 }
    ensures { result ≡ free_count_lem owners.now }
{
    owners.iter().filter(|owner| is_free(**owner)).count() as u32
}

/// How many groups the member has. There are fewer than 2^32 groups in all.
pub fn member_count(owners: &[Owner], by: MemberId) -> u32
    requires { length owners.now < 2 ^ 32 }
    ensures { result ≡ member_count_lem by owners.now }
{
    owners
        .iter()
        .filter(|owner| is_members(**owner, by))
        .count() as u32
}

/// The groups of the member, ascending; none where it has none. There are fewer than 2^32 groups in all. NoMemory comes
/// only when out of memory.
pub fn held_by(alloc: Global, owners: &[Owner], by: MemberId) -> Result<List<GroupNo>, NoMemory>
    requires { length owners.now < 2 ^ 32 }
    ensures { IfOk result (λ groups. groups ≡ held_by_lem by owners.now) }
{
    let mut groups = List::new(alloc);
    for (at, owner) in owners.iter().enumerate() {
        if is_members(*owner, by) {
            groups.push(GroupNo(at as u32))?;
        }
    }
    Ok(groups)
}

fn place_of(owner: Owner) -> u16
    ensures { result ≡ place_of_lem owner }
{
    match owner {
        Owner::Deck { place, .. } => place,
        Owner::Output { place, .. } => place,
        _ => 0,
    }
}

/// The groups of the deck or the output with their places, in ascending number.
fn placed_groups(alloc: Global, owners: &[Owner], thing: Thing) -> Result<Vec<Placed>, AllocError>
    requires { length owners.now < 2 ^ 32 }
    ensures { IfOk result (λ groups. groups.items ≡ placed_from thing 0 owners.now) }
{
    let mut groups = Vec::new(alloc);
    for (at, owner) in owners.iter().enumerate() {
        if is_things(*owner, thing) {
            groups.push(Placed {
                place: place_of(*owner),
                group: GroupNo(at as u32),
            })?;
        }
    }
    Ok(groups)
}

/// The groups of the deck or the output, in the order of their places; none where it has none. There are fewer than
/// 2^32 groups in all. NoMemory comes only when out of memory.
pub fn groups_of(alloc: Global, owners: &[Owner], thing: Thing) -> Result<List<GroupNo>, NoMemory>
    requires { length owners.now < 2 ^ 32 }
    ensures { IfOk result (λ groups. groups ≡ groups_of_lem thing owners.now) }
{
    let mut placed = placed_groups(alloc, owners, thing)?;
    placed.sort_by_key(|group| group.place)?;
    let mut groups = List::new(alloc);
    for group in placed.as_slice() {
        groups.push(group.group)?;
    }
    Ok(groups)
}
