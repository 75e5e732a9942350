//! Changes of the owners of groups.
ghost use Rattle.std.specs.Prelude.{◌≡◌, ◌+◌, ◌<◌, ◌≤◌, OnOk, OnErr, IfOk, min, if◌then◌else◌};
ghost use Rattle.mas_types.specs.Owners.{is_members as is_members_lem, free_count, member_count, taken, freed};
ghost use Rattle.track_groups.specs.Groups.{is_things as is_things_lem, first_places, given};

use crate::kinds::{is_free, is_members, is_things, owner_at};
use mas_types::{MemberId, Owner, Thing};

/// No group is free.
#[derive(Clone, Copy)]
pub struct SpoolFull;

fn free_if(test: bool, owner: Owner) -> Owner
    ensures { result ≡ (if test then Owner.Free else owner) }
{
    if test { Owner::Free } else { owner }
}

/// The `want` lowest free groups, or all free ones where they are fewer, become the member's. The answer is their
/// number. `SpoolFull` comes exactly where no group is free, whatever `want` is, and nothing is changed then.
pub fn take(owners: &mut [Owner], by: MemberId, want: u32) -> Result<u32, SpoolFull>
    ensures owners { owners.new ≡ taken by want owners.old }
    ensures count { IfOk result (λ n. n ≡ min want (free_count owners.old)) }
    ensures free { OnOk result (0 < free_count owners.old) }
    ensures full { OnErr result (free_count owners.old ≡ 0) }
    ensures unchanged { OnErr result (owners.new ≡ owners.old) }
{
    let mut found = false;
    let mut count = 0;
    for owner in owners.iter_mut() {
        if is_free(*owner) {
            found = true;
            if count < want {
                *owner = Owner::Member(by);
                count += 1;
            }
        }
    }
    if found { Ok(count) } else { Err(SpoolFull) }
}

/// The `count` lowest groups of the member become the deck's or the output's, with places from 0; the member's others
/// stay the member's. The member has so many, and they are at most 65,536, as places have 16 bits.
pub fn give_to(owners: &mut [Owner], by: MemberId, thing: Thing, count: u32)
    requires few { count ≤ 65536 }
    requires room { count ≤ member_count by owners.old }
    ensures owners { owners.new ≡ given by (first_places thing count) owners.old }
    ensures left { member_count by owners.new + count ≡ member_count by owners.old }
{
    let mut place = 0;
    for owner in owners.iter_mut() {
        if place < count && is_members(*owner, by) {
            *owner = owner_at(thing, place as u16);
            place += 1;
        }
    }
}

/// The groups of the deck or the output become free.
pub fn free_thing(owners: &mut [Owner], thing: Thing)
    ensures { owners.new ≡ freed (is_things_lem thing) owners.old }
{
    for owner in owners.iter_mut() {
        *owner = free_if(is_things(*owner, thing), *owner);
    }
}

/// The groups of the member become free.
pub fn free_member(owners: &mut [Owner], by: MemberId)
    ensures { owners.new ≡ freed (is_members_lem by) owners.old }
{
    for owner in owners.iter_mut() {
        *owner = free_if(is_members(*owner, by), *owner);
    }
}
