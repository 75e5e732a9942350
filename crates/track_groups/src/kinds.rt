//! What a group's owner is.
ghost use Rattle.std.specs.Prelude.{◌≡◌};
ghost use Rattle.mas_types.specs.Owners.{is_free as is_free_lem, is_members as is_members_lem};
ghost use Rattle.track_groups.specs.Groups.{is_things as is_things_lem, owner_at as owner_at_lem};

use mas_types::{MemberId, Owner, Thing};

/// Whether nobody owns the group.
pub fn is_free(owner: Owner) -> bool
    ensures { result ≡ is_free_lem owner }
{
    matches!(owner, Owner::Free)
}

/// Whether the member owns the group.
pub fn is_members(owner: Owner, of: MemberId) -> bool
    ensures { result ≡ is_members_lem of owner }
{
    match owner {
        Owner::Member(m) => m.0 == of.0,
        _ => false,
    }
}

/// Whether the deck or the output owns the group, at whatever place.
pub fn is_things(owner: Owner, thing: Thing) -> bool
    ensures { result ≡ is_things_lem thing owner }
{
    match (thing, owner) {
        (Thing::Deck(n), Owner::Deck { job, .. }) => job.0 == n.0,
        (Thing::Output(n, i), Owner::Output { job, index, .. }) => job.0 == n.0 && index.0 == i.0,
        _ => false,
    }
}

/// The owner of a group that has this place, from 0, in the text of the deck or the output.
pub fn owner_at(thing: Thing, place: u16) -> Owner
    ensures { result ≡ owner_at_lem thing place }
{
    match thing {
        Thing::Deck(job) => Owner::Deck { job, place },
        Thing::Output(job, index) => Owner::Output { job, index, place },
    }
}
