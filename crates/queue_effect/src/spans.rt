//! Between which groups those that a change is for stand, and the change of these alone.
ghost use Rattle.std.specs.Prelude.{◌≡◌, ◌≤◌, ◌<◌, ◌+◌, ◌==◌, min, if◌then◌else◌, IfOk, OnOk, OnErr};
ghost use Rattle.mas_types.specs.Owners.{freed, is_free, is_members, taken, free_count, member_count};
ghost use Rattle.track_groups.specs.Groups.{is_things, first_places, given};
ghost use Rattle.queue_effect.specs.Spans.{HoldsAll, HoldsEnough, StaysOutside, is_jobs_print};

use mas_types::{JobNo, MemberId, Owner, Thing};
use track_groups::{SpoolFull, free_member, free_thing, give_to, take};

/// Which groups are sought.
pub(crate) trait Seeks {
    ghost use Rattle.std.specs.Prelude.{Bool};
    ghost use Rattle.mas_types.specs.declared.queues.Owner.{Owner};

    ghost seeks: { Self → Owner → Bool };

    /// Whether a group with this owner is sought.
    fn seeks(&self, owner: &Owner) -> bool
        ensures { result ≡ seeks self.now owner.now };
}

/// The free groups.
#[derive(Clone, Copy)]
pub(crate) struct FreeGroups;

impl Seeks for FreeGroups {
    ghost seeks = { λ s g. is_free g };

    fn seeks(&self, owner: &Owner) -> bool {
        matches!(owner, Owner::Free)
    }
}

/// The groups of a member.
#[derive(Clone, Copy)]
pub(crate) struct MembersGroups(pub MemberId);

impl Seeks for MembersGroups {
    ghost seeks = { λ s g. is_members s.0 g };

    fn seeks(&self, owner: &Owner) -> bool {
        match owner {
            Owner::Member(holder) => holder.0 == self.0.0,
            _ => false,
        }
    }
}

/// The groups of a deck or an output.
#[derive(Clone, Copy)]
pub(crate) struct ThingsGroups(pub Thing);

impl Seeks for ThingsGroups {
    ghost seeks = { λ s g. is_things s.0 g };

    fn seeks(&self, owner: &Owner) -> bool {
        match (self.0, owner) {
            (Thing::Deck(n), Owner::Deck { job, .. }) => job.0 == n.0,
            (Thing::Output(n, i), Owner::Output { job, index, .. }) => {
                job.0 == n.0 && index.0 == i.0
            }
            _ => false,
        }
    }
}

/// The groups that are said to be of outputs of a job.
#[derive(Clone, Copy)]
pub(crate) struct PrintsGroups(pub JobNo);

impl Seeks for PrintsGroups {
    ghost seeks = { λ s g. is_jobs_print s.0 g };

    fn seeks(&self, owner: &Owner) -> bool {
        match owner {
            Owner::Output { job, .. } => job.0 == self.0.0,
            _ => false,
        }
    }
}

/// The groups from one on, up to another, without it.
#[derive(Clone, Copy)]
pub(crate) struct Span {
    /// The first one.
    pub first: usize,
    /// The one after the last.
    pub end: usize,
}

fn first_of(found: usize, at: usize, first: usize) -> usize
    ensures { result ≡ (if found == 0 then at else first) }
{
    if found == 0 { at } else { first }
}

/// Between which groups the lowest of those sought stand, so many of them, or all where they are fewer.
pub(crate) fn span_of<S: Seeks>(owners: &[Owner], sought: &S, most: usize) -> Span
    ensures { HoldsEnough (S.seeks sought.now) most result owners.now }
{
    let mut first = 0;
    let mut end = 0;
    let mut found = 0;
    for at in 0..owners.len() {
        if sought.seeks(&owners[at]) {
            first = first_of(found, at, first);
            end = at + 1;
            found += 1;
            if found == most {
                return Span { first, end };
            }
        }
    }
    Span { first, end }
}

/// Between which groups all that are sought stand.
pub(crate) fn span_of_all<S: Seeks>(owners: &[Owner], sought: &S) -> Span
    ensures { HoldsAll (S.seeks sought.now) result owners.now }
{
    span_of(owners, sought, owners.len())
}

/// The groups of a deck or an output become free; the span holds all of them.
pub(crate) fn free_things_in(owners: &mut [Owner], span: Span, thing: Thing)
    requires { HoldsAll (is_things thing) span owners.old }
    ensures value { owners.new ≡ freed (is_things thing) owners.old }
    ensures rest { StaysOutside span owners.old owners.new }
{
    free_thing(&mut owners[span.first..span.end], thing);
}

/// The groups of a member become free; the span holds all of them.
pub(crate) fn free_members_in(owners: &mut [Owner], span: Span, by: MemberId)
    requires { HoldsAll (is_members by) span owners.old }
    ensures value { owners.new ≡ freed (is_members by) owners.old }
    ensures rest { StaysOutside span owners.old owners.new }
{
    free_member(&mut owners[span.first..span.end], by);
}

/// The lowest free groups become the member's; the span holds so many of them, or all.
pub(crate) fn take_in(
    owners: &mut [Owner],
    span: Span,
    by: MemberId,
    want: u32,
) -> Result<u32, SpoolFull>
    requires { HoldsEnough is_free want span owners.old }
    ensures owners { owners.new ≡ taken by want owners.old }
    ensures count { IfOk result (λ n. n ≡ min want (free_count owners.old)) }
    ensures free { OnOk result (0 < free_count owners.old) }
    ensures full { OnErr result (free_count owners.old ≡ 0) }
    ensures unchanged { OnErr result (owners.new ≡ owners.old) }
    ensures rest { StaysOutside span owners.old owners.new }
{
    take(&mut owners[span.first..span.end], by, want)
}

/// A text gets the lowest groups of the member, which has so many; the span holds so many of them, or all.
pub(crate) fn give_in(owners: &mut [Owner], span: Span, by: MemberId, thing: Thing, count: u32)
    requires few { count ≤ 65536 }
    requires room { count ≤ member_count by owners.old }
    requires holds { HoldsEnough (is_members by) count span owners.old }
    ensures value { owners.new ≡ given by (first_places thing count) owners.old }
    ensures left { member_count by owners.new + count ≡ member_count by owners.old }
    ensures rest { StaysOutside span owners.old owners.new }
{
    give_to(&mut owners[span.first..span.end], by, thing, count);
}
