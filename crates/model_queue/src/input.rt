//! How a job comes into the queue: Begin, Take, Drop and Enter.
ghost use Rattle.std.specs.Prelude.{◌≡◌, ◌∷◌, ◌++◌, [], ◌==◌, ◌≤◌, nat_lt, nat_le, min, not, if◌then◌else◌, length, false, IfOk, OnOk, OnErr};
ghost use Rattle.mas_types.specs.Fit.{AreLines};
ghost use Rattle.mas_types.specs.Lists.{change_first, first_some};
ghost use Rattle.mas_types.specs.Number.{next_number as next_number_lem};
ghost use Rattle.mas_types.specs.Owners.{deck_places as deck_places_lem, free_count, groups_needed as groups_needed_lem, member_count};
ghost use Rattle.mas_types.specs.Queue.{has_number, knows_node as knows_node_lem};
ghost use Rattle.mas_types.specs.Row.{ComesTo, refused_where};
ghost use Rattle.mas_types.specs.Commands.Input.{begin_row, begun, drop_row, enter_row, entered, not_in_input as not_in_input_lem, phase_entered as phase_entered_lem, take_row};
ghost use Rattle.model_queue.specs.Entered.{entered_job};

use crate::conditions::same_name;
use crate::groups::{
    IsFree, MembersGroups, deck_places, free_groups, groups_needed, hand_out, take_groups,
};
use crate::jobs::{Numbered, remove_job};
use crate::numbers::next_number;
use crate::picking::{count, first_place};
use crate::refusing::{not_in_input, too_few_groups};
use crate::wires::has_route;
use mas_types::{
    Copied, Job, JobFields, JobNo, Lines, List, MemberId, Name8, NoMemory, Owner, Phase, Queue,
    Refusal, Reply, Text,
};
use std::alloc::Global;

fn knows_node(queue: &Queue, node: &Name8) -> bool
    ensures { result ≡ knows_node_lem queue.now node.now }
{
    same_name(node, &queue.config.node) || has_route(queue, node)
}

fn not_begun(queue: &Queue, fields: &JobFields) -> Option<Refusal>
    ensures { result ≡ first_some (refused_where (not (knows_node_lem queue.now fields.now.node)) Refusal.NoNode
        ∷ (refused_where (nat_le queue.now.config.jobs (length queue.now.jobs)) Refusal.JobsFull ∷ [])) }
{
    if !knows_node(queue, &fields.node) {
        Some(Refusal::NoNode)
    } else if queue.config.jobs as usize <= queue.jobs.len() {
        Some(Refusal::JobsFull)
    } else {
        None
    }
}

fn add_job(
    alloc: Global,
    queue: &mut Queue,
    by: MemberId,
    number: JobNo,
    fields: &JobFields,
) -> Result<(), NoMemory>
    ensures ok { OnOk result (queue.new ≡ begun by number fields.now queue.old) }
    ensures err { OnErr result (queue.new ≡ queue.old) }
{
    queue.jobs.push(Job {
        number,
        fields: *fields,
        phase: Phase::Input,
        cancelled: false,
        busy: by,
        text: Text::Whole(Lines::new(alloc)),
    })?;
    queue.last = number;
    Ok(())
}

/// Begin: a new job stands last in the list. After NoMemory nothing is changed.
pub fn begin(
    alloc: Global,
    queue: &mut Queue,
    by: MemberId,
    fields: &JobFields,
) -> Result<Reply, NoMemory>
    ensures ok { IfOk result (λ reply. ComesTo queue.old (begin_row queue.old by fields.now) queue.new reply) }
    ensures err { OnErr result (queue.new ≡ queue.old) }
{
    match not_begun(queue, fields) {
        Some(why) => Ok(Reply::No(why)),
        None => {
            let number = next_number(&queue.jobs, queue.last);
            add_job(alloc, queue, by, number, fields)?;
            Ok(Reply::Job(number))
        }
    }
}

fn fewer(want: u32, there: usize) -> u32
    ensures { result ≡ min want there }
{
    if (want as usize) < there {
        want
    } else {
        there as u32
    }
}

/// Take: the lowest Free groups become the member's.
pub fn take(queue: &mut Queue, by: MemberId, want: u32) -> Reply
    ensures { ComesTo queue.old (take_row queue.old by want) queue.new result }
{
    let there = count(&queue.owners, &IsFree);
    if there == 0 {
        return Reply::No(Refusal::SpoolFull);
    }
    take_groups(&mut queue.owners, by, want);
    Reply::Count(fewer(want, there))
}

fn drop_groups(queue: &mut Queue, by: MemberId) -> Reply
    ensures { ComesTo queue.old (drop_row queue.old by (record { 0 = 0 })) queue.new result }
{
    free_groups(&mut queue.owners, &MembersGroups(by));
    Reply::Plain
}

fn drop_job(queue: &mut Queue, by: MemberId, job: JobNo) -> Reply
    requires { (job.0 == 0) ≡ false }
    ensures { ComesTo queue.old (drop_row queue.old by job) queue.new result }
{
    match not_in_input(queue, by, job) {
        Some(why) => Reply::No(why),
        None => {
            remove_job(&mut queue.jobs, job);
            free_groups(&mut queue.owners, &MembersGroups(by));
            Reply::Plain
        }
    }
}

/// Drop: the member's groups become Free, and the job goes.
pub fn give_up(queue: &mut Queue, by: MemberId, job: JobNo) -> Reply
    ensures { ComesTo queue.old (drop_row queue.old by job) queue.new result }
{
    if job.0 == 0 {
        drop_groups(queue, by)
    } else {
        drop_job(queue, by, job)
    }
}

fn phase_entered(own: &Name8, job: &Job) -> Phase
    ensures { result ≡ phase_entered_lem own.now job.now }
{
    if job.cancelled {
        Phase::Purge
    } else if same_name(&job.fields.node, own) {
        Phase::Convert
    } else {
        Phase::Xmit
    }
}

fn put_entered(job: &mut Job, own: &Name8, text: Lines)
    ensures { job.new ≡ entered_job own.now text job.old }
{
    job.phase = phase_entered(own, job);
    job.text = Text::Whole(text);
    job.busy = MemberId(0);
}

fn enter_in(jobs: &mut List<Job>, job: JobNo, own: &Name8, text: Lines)
    ensures { jobs.new ≡ change_first (has_number job) (entered_job own.now text) jobs.old }
{
    let Some(at) = first_place(jobs, &Numbered(job)) else {
        return;
    };
    put_entered(jobs.item_mut(at), own, text);
}

/// Why a job doesn't get a deck of so many groups.
pub fn not_entered(queue: &Queue, by: MemberId, job: JobNo, groups: usize) -> Option<Refusal>
    ensures { result ≡ first_some (not_in_input_lem queue.now by job
        ++ refused_where (nat_lt (member_count by queue.now.owners) groups) Refusal.Nothing ∷ []) }
{
    match not_in_input(queue, by, job) {
        Some(why) => Some(why),
        None => too_few_groups(queue, by, groups),
    }
}

/// The job gets its deck in these places.
pub fn enter_job(queue: &mut Queue, by: MemberId, job: JobNo, text: Lines, places: &List<Owner>)
    requires { places.now ≡ deck_places_lem job (groups_needed_lem text) }
    ensures { queue.new ≡ entered by job text queue.old }
{
    enter_in(&mut queue.jobs, job, &queue.config.node, text);
    hand_out(&mut queue.owners, by, places);
}

/// Enter: the job gets its deck in the lowest groups of the member, and goes on. After NoMemory nothing is changed.
pub fn enter(
    alloc: Global,
    queue: &mut Queue,
    by: MemberId,
    job: JobNo,
    text: &Lines,
) -> Result<Reply, NoMemory>
    requires { AreLines text.now }
    ensures ok { IfOk result (λ reply. ComesTo queue.old (enter_row queue.old by job text.now) queue.new reply) }
    ensures err { OnErr result (queue.new ≡ queue.old) }
{
    let groups = groups_needed(text) as usize;
    match not_entered(queue, by, job, groups) {
        Some(why) => Ok(Reply::No(why)),
        None => {
            let places = deck_places(alloc, job, text)?;
            let copy = text.copy(alloc)?;
            enter_job(queue, by, job, copy, &places);
            Ok(Reply::Job(job))
        }
    }
}
