//! Resets of slots and of groups' owners.
ghost use Rattle.std.specs.Prelude.{◌≡◌, map, if◌then◌else◌};
ghost use Rattle.mas_types.specs.Owners.{freed, is_held_by};
ghost use Rattle.mas_types.specs.Reset.{phase_reset as phase_reset_lem};
ghost use Rattle.queue_resets.specs.Resets.{changed_where, is_one_of as is_one_of_lem, job_reset, output_reset};

use lay_bytes::{JobRec, OutRec};
use mas_types::{MemberId, Owner, Phase};

/// Which members are reset.
#[derive(Clone, Copy)]
pub enum Who {
    /// This one.
    One(MemberId),
    /// The members up to the greatest one of the configuration.
    Every(u8),
}

/// Whether the member is one of those.
pub fn is_one_of(who: Who, member: MemberId) -> bool
    ensures { result ≡ is_one_of_lem who member }
{
    match who {
        Who::One(of) => member.0 == of.0,
        Who::Every(members) => member.0 != 0 && member.0 <= members,
    }
}

fn phase_reset(restart: bool, phase: Phase) -> Phase
    ensures { result ≡ phase_reset_lem restart phase }
{
    match phase {
        Phase::Input => Phase::Purge,
        Phase::Execute if !restart => Phase::Purge,
        _ => phase,
    }
}

fn phase_of(job: &JobRec) -> Phase
    ensures { result ≡ (if job.now.cancelled then Phase.Purge else phase_reset_lem job.now.fields.restart
        job.now.phase) }
{
    if job.cancelled {
        return Phase::Purge;
    }
    phase_reset(job.fields.restart, job.phase)
}

fn reset_job(slot: Option<JobRec>, who: Who) -> Option<JobRec>
    ensures { result ≡ changed_where (λ r. is_one_of_lem who r.busy) job_reset slot }
{
    match slot {
        Some(job) if is_one_of(who, job.busy) => Some(JobRec {
            busy: MemberId(0),
            phase: phase_of(&job),
            ..job
        }),
        _ => slot,
    }
}

fn reset_output(slot: Option<OutRec>, who: Who) -> Option<OutRec>
    ensures { result ≡ changed_where (λ r. is_one_of_lem who r.busy) output_reset slot }
{
    match slot {
        Some(output) if is_one_of(who, output.busy) => Some(OutRec {
            busy: MemberId(0),
            ..output
        }),
        _ => slot,
    }
}

fn reset_owner(owner: Owner, who: Who) -> Owner
    ensures { result ≡ (if is_held_by (is_one_of_lem who) owner then Owner.Free else owner) }
{
    match owner {
        Owner::Member(member) if is_one_of(who, member) => Owner::Free,
        _ => owner,
    }
}

/// Jobs that are busy at one of the members become free of it, in the phase in which they go on.
pub fn reset_job_slots(slots: &mut [Option<JobRec>], who: Who)
    ensures { slots.new ≡ map (changed_where (λ r. is_one_of_lem who r.busy) job_reset) slots.old }
{
    for slot in slots.iter_mut() {
        *slot = reset_job(*slot, who);
    }
}

/// Outputs that are busy at one of the members become free of it.
pub fn reset_output_slots(slots: &mut [Option<OutRec>], who: Who)
    ensures { slots.new ≡ map (changed_where (λ r. is_one_of_lem who r.busy) output_reset) slots.old }
{
    for slot in slots.iter_mut() {
        *slot = reset_output(*slot, who);
    }
}

/// The groups of the members become free.
pub fn reset_owner_list(owners: &mut [Owner], who: Who)
    ensures { owners.new ≡ freed (is_held_by (is_one_of_lem who)) owners.old }
{
    for owner in owners.iter_mut() {
        *owner = reset_owner(*owner, who);
    }
}
