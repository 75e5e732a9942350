//! Whose the track groups of the tables are.
ghost use Rattle.std.specs.Prelude.{◌≡◌, ◌≤◌, ◌==◌, ◌+◌, List, length, min, filter, if◌then◌else◌, IfOk, OnOk, OnErr, true, false};
ghost use Rattle.mas_types.specs.declared.jobs.Output.{Output};
ghost use Rattle.mas_types.specs.Owners.{freed, is_members, taken, free_count, member_count, handed_out, is_of_any};
ghost use Rattle.mas_types.specs.Queue.{is_of};
ghost use Rattle.track_groups.specs.Groups.{is_things, first_places, given};
ghost use Rattle.output_queue.specs.Outputs.{AreOutputs};
ghost use Rattle.queue_telling.specs.Orders.{HaveOrders};
ghost use Rattle.queue_effect.specs.Spans.{HoldsAll, StaysOutside, is_jobs_print};
ghost use Rattle.queue_effect.specs.Standing.{AreFit};
ghost use Rattle.page_marks.specs.Marks.{Touches};

use crate::spans::{
    FreeGroups, MembersGroups, PrintsGroups, Span, ThingsGroups, free_members_in, free_things_in,
    give_in, span_of, span_of_all, take_in,
};
use ckpt_tables::Tables;
use lay_bytes::OutRec;
use mas_types::{JobNo, MemberId, Owner, Thing};
use output_queue::find_output;
use page_marks::Marks;
use track_groups::{SpoolFull, law_of_giving};

/// The groups of a deck or an output become free.
pub fn free_groups(tables: &mut Tables, marks: &mut Marks, thing: Thing)
    ensures value { tables.new ≡ record tables.old { owners = freed (is_things thing) tables.old.owners } }
    ensures fit { AreFit tables.old → AreFit tables.new }
    ensures orders { HaveOrders tables.old → HaveOrders tables.new }
    ensures touches { AreFit tables.old → Touches marks.old.pages marks.new.pages tables.old tables.new }
{
    let span = span_of_all(tables.owners.as_slice(), &ThingsGroups(thing));
    marks.put_groups_between(&tables.config, span.first, span.end);
    free_things_in(tables.owners.as_mut_slice(), span, thing);
}

/// The groups of a member become free.
pub fn free_members(tables: &mut Tables, marks: &mut Marks, by: MemberId)
    ensures value { tables.new ≡ record tables.old { owners = freed (is_members by) tables.old.owners } }
    ensures fit { AreFit tables.old → AreFit tables.new }
    ensures orders { HaveOrders tables.old → HaveOrders tables.new }
    ensures touches { AreFit tables.old → Touches marks.old.pages marks.new.pages tables.old tables.new }
{
    let span = span_of_all(tables.owners.as_slice(), &MembersGroups(by));
    marks.put_groups_between(&tables.config, span.first, span.end);
    free_members_in(tables.owners.as_mut_slice(), span, by);
}

/// The lowest free groups become the member's. `SpoolFull` where none is free; nothing is changed then.
pub fn take_groups(
    tables: &mut Tables,
    marks: &mut Marks,
    by: MemberId,
    want: u32,
) -> Result<u32, SpoolFull>
    ensures taken { OnOk result (tables.new ≡ record tables.old { owners = taken by want tables.old.owners }) }
    ensures count { IfOk result (λ n. n ≡ min want (free_count tables.old.owners)) }
    ensures some { OnOk result ((free_count tables.old.owners == 0) ≡ false) }
    ensures full { OnErr result ((free_count tables.old.owners == 0) ≡ true) }
    ensures unchanged { OnErr result (tables.new ≡ tables.old) }
    ensures fit { AreFit tables.old → AreFit tables.new }
    ensures orders { HaveOrders tables.old → HaveOrders tables.new }
    ensures touches { AreFit tables.old → Touches marks.old.pages marks.new.pages tables.old tables.new }
{
    let span = span_of(tables.owners.as_slice(), &FreeGroups, want as usize);
    marks.put_groups_between(&tables.config, span.first, span.end);
    take_in(tables.owners.as_mut_slice(), span, by, want)
}

/// A text gets the lowest groups of the member, which has so many.
pub fn give_groups(tables: &mut Tables, marks: &mut Marks, by: MemberId, thing: Thing, count: u32)
    requires few { count ≤ 65536 }
    requires room { count ≤ member_count by tables.old.owners }
    ensures value { tables.new ≡ record tables.old { owners = given by (first_places thing count) tables.old.owners } }
    ensures left { member_count by tables.new.owners + count ≡ member_count by tables.old.owners }
    ensures fit { AreFit tables.old → AreFit tables.new }
    ensures orders { HaveOrders tables.old → HaveOrders tables.new }
    ensures touches { AreFit tables.old → Touches marks.old.pages marks.new.pages tables.old tables.new }
{
    let span = span_of(tables.owners.as_slice(), &MembersGroups(by), count as usize);
    marks.put_groups_between(&tables.config, span.first, span.end);
    give_in(tables.owners.as_mut_slice(), span, by, thing, count);
}

/// A text gets the lowest groups of the member, which has so many, and the member's others become free.
pub fn hand_out(tables: &mut Tables, marks: &mut Marks, by: MemberId, thing: Thing, count: u32)
    requires few { count ≤ 65536 }
    requires room { count ≤ member_count by tables.old.owners }
    ensures value { tables.new ≡ record tables.old
        { owners = handed_out by (first_places thing count) tables.old.owners } }
    ensures fit { AreFit tables.old → AreFit tables.new }
    ensures orders { HaveOrders tables.old → HaveOrders tables.new }
    ensures touches { AreFit tables.old → Touches marks.old.pages marks.new.pages tables.old tables.new }
{
    law_of_giving();
    give_groups(tables, marks, by, thing, count);
    free_members(tables, marks, by);
}

fn is_print_of(owner: Owner, outputs: &[Option<OutRec>], of: JobNo) -> bool
    ensures { (os : List Output) → AreOutputs outputs.now os → result ≡ is_of_any (filter (is_of of) os) owner }
{
    match owner {
        Owner::Output { job, index, .. } => {
            job.0 == of.0 && find_output(outputs, job, index).is_some()
        }
        _ => false,
    }
}

fn free_if(test: bool, owner: Owner) -> Owner
    ensures { result ≡ (if test then Owner.Free else owner) }
{
    if test { Owner::Free } else { owner }
}

fn free_owners(owners: &mut [Owner], outputs: &[Option<OutRec>], job: JobNo)
    ensures value { (os : List Output) → AreOutputs outputs.now os
        → owners.new ≡ freed (is_of_any (filter (is_of job) os)) owners.old }
    ensures length { length owners.new ≡ length owners.old }
{
    for owner in owners.iter_mut() {
        *owner = free_if(is_print_of(*owner, outputs, job), *owner);
    }
}

fn free_prints_in(owners: &mut [Owner], span: Span, outputs: &[Option<OutRec>], job: JobNo)
    requires { HoldsAll (is_jobs_print job) span owners.old }
    ensures value { (os : List Output) → AreOutputs outputs.now os
        → owners.new ≡ freed (is_of_any (filter (is_of job) os)) owners.old }
    ensures rest { StaysOutside span owners.old owners.new }
{
    free_owners(&mut owners[span.first..span.end], outputs, job);
}

/// The groups of the outputs of a job become free.
pub fn free_prints(tables: &mut Tables, marks: &mut Marks, job: JobNo)
    ensures value { (os : List Output) → AreOutputs tables.old.outputs os
        → tables.new ≡ record tables.old { owners = freed (is_of_any (filter (is_of job) os)) tables.old.owners } }
    ensures fit { AreFit tables.old → AreFit tables.new }
    ensures orders { HaveOrders tables.old → HaveOrders tables.new }
    ensures jobs { tables.new.jobs ≡ tables.old.jobs }
    ensures order { tables.new.order ≡ tables.old.order }
    ensures touches { AreFit tables.old → Touches marks.old.pages marks.new.pages tables.old tables.new }
{
    let span = span_of_all(tables.owners.as_slice(), &PrintsGroups(job));
    marks.put_groups_between(&tables.config, span.first, span.end);
    free_prints_in(
        tables.owners.as_mut_slice(),
        span,
        tables.outputs.as_slice(),
        job,
    );
}
