//! Which jobs the rows of the table speak of, and what becomes of them.
ghost use Rattle.std.specs.Prelude.{◌≡◌, ◌&&◌, not, find, option_copied, if◌then◌else◌};
ghost use Rattle.mas_types.specs.declared.jobs.Phase.TheVariants as phase;
ghost use Rattle.mas_types.specs.Lists.{change_first as change_first_lem, without_first};
ghost use Rattle.mas_types.specs.Ids.{nobody};
ghost use Rattle.mas_types.specs.Queue.{has_number, in_output, in_purge, is_in};
ghost use Rattle.mas_types.specs.Selection.{may_convert, may_execute, job_prio, has_class as has_class_lem};
ghost use Rattle.mas_types.specs.Commands.Life.{made_busy, converted as converted_lem, ended as ended_lem};
ghost use Rattle.mas_types.specs.Commands.Operator.{with_held, with_prio, with_class, cancelled};
ghost use Rattle.mas_types.specs.Reset.{reset_job, phase_reset as phase_reset_lem};

use crate::conditions::{
    is_convert, is_execute, is_output, is_purge, is_somebody, is_waiting, same_class, same_number,
};
use crate::picking::{Changes, Classed, Picks, Ranks, change_first, first, remove_first};
use mas_types::{Class, Job, JobNo, List, MemberId, Phase, Prio, purge_if};

/// The job with a number.
#[derive(Clone, Copy)]
pub struct Numbered(pub JobNo);

impl Picks<Job> for Numbered {
    ghost picks = { λ s j. has_number s.0 j };

    fn picks(&self, item: &Job) -> bool {
        same_number(item.number, self.0)
    }
}

/// The jobs in Output.
#[derive(Clone, Copy)]
pub struct InOutput;

impl Picks<Job> for InOutput {
    ghost picks = { λ s j. is_in in_output j };

    fn picks(&self, item: &Job) -> bool {
        is_output(item.phase)
    }
}

/// The jobs in Purge.
#[derive(Clone, Copy)]
pub struct InPurge;

impl Picks<Job> for InPurge {
    ghost picks = { λ s j. is_in in_purge j };

    fn picks(&self, item: &Job) -> bool {
        is_purge(item.phase)
    }
}

/// The jobs that wait for conversion.
#[derive(Clone, Copy)]
pub struct ForConvert;

impl Picks<Job> for ForConvert {
    ghost picks = { λ s j. may_convert j };

    fn picks(&self, item: &Job) -> bool {
        is_convert(item.phase) && is_waiting(item)
    }
}

impl Ranks<Job> for ForConvert {
    ghost rank = { λ s j. job_prio j };

    fn rank(&self, item: &Job) -> u8 {
        item.fields.prio.0
    }
}

/// The jobs that wait for execution.
#[derive(Clone, Copy)]
pub struct ForExecute;

impl Picks<Job> for ForExecute {
    ghost picks = { λ s j. may_execute j };

    fn picks(&self, item: &Job) -> bool {
        is_execute(item.phase) && is_waiting(item)
    }
}

impl Ranks<Job> for ForExecute {
    ghost rank = { λ s j. job_prio j };

    fn rank(&self, item: &Job) -> u8 {
        item.fields.prio.0
    }
}

impl Classed<Job> for ForExecute {
    ghost has_class = { λ s c j. has_class_lem c j };

    fn has_class(&self, class: Class, item: &Job) -> bool {
        same_class(item.fields.class, class)
    }
}

/// The job becomes busy at a member.
#[derive(Clone, Copy)]
pub struct BusyAt(pub MemberId);

impl Changes<Job> for BusyAt {
    ghost changed = { λ s j. made_busy s.0 j };

    fn change(&self, item: &mut Job) {
        item.busy = self.0;
    }
}

/// The job's conversion has ended.
#[derive(Clone, Copy)]
pub struct IsConverted;

impl Changes<Job> for IsConverted {
    ghost changed = { λ s j. converted_lem j };

    fn change(&self, item: &mut Job) {
        item.phase = purge_if(item.cancelled, Phase::Execute);
        item.busy = MemberId(0);
    }
}

/// The job has run.
#[derive(Clone, Copy)]
pub struct HasEnded;

impl Changes<Job> for HasEnded {
    ghost changed = { λ s j. ended_lem j };

    fn change(&self, item: &mut Job) {
        item.phase = purge_if(item.cancelled, Phase::Output);
        item.busy = MemberId(0);
    }
}

/// The job is held, or no longer.
#[derive(Clone, Copy)]
pub struct IsHeld(pub bool);

impl Changes<Job> for IsHeld {
    ghost changed = { λ s j. with_held s.0 j };

    fn change(&self, item: &mut Job) {
        item.fields.held = self.0;
    }
}

/// The job has another priority.
#[derive(Clone, Copy)]
pub struct HasPrio(pub Prio);

impl Changes<Job> for HasPrio {
    ghost changed = { λ s j. with_prio s.0 j };

    fn change(&self, item: &mut Job) {
        item.fields.prio = self.0;
    }
}

/// The job has another class.
#[derive(Clone, Copy)]
pub struct HasClass(pub Class);

impl Changes<Job> for HasClass {
    ghost changed = { λ s j. with_class s.0 j };

    fn change(&self, item: &mut Job) {
        item.fields.class = self.0;
    }
}

/// The job goes to Purge.
#[derive(Clone, Copy)]
pub struct IsPurged;

impl Changes<Job> for IsPurged {
    ghost changed = { λ s j. record j { phase = phase.Purge } };

    fn change(&self, item: &mut Job) {
        item.phase = Phase::Purge;
    }
}

/// The job is cancelled.
#[derive(Clone, Copy)]
pub struct IsCancelled;

impl Changes<Job> for IsCancelled {
    ghost changed = { λ s j. cancelled j };

    fn change(&self, item: &mut Job) {
        if is_somebody(item.busy) {
            item.cancelled = true;
        } else {
            item.phase = Phase::Purge;
        }
    }
}

fn phase_reset(restart: bool, phase: Phase) -> Phase
    ensures { result ≡ phase_reset_lem restart phase }
{
    match phase {
        Phase::Input => Phase::Purge,
        Phase::Execute => purge_if(!restart, Phase::Execute),
        other => other,
    }
}

/// The member at which the job is busy is reset.
#[derive(Clone, Copy)]
pub struct IsReset;

impl Changes<Job> for IsReset {
    ghost changed = { λ s j. reset_job j };

    fn change(&self, item: &mut Job) {
        item.phase = purge_if(item.cancelled, phase_reset(item.fields.restart, item.phase));
        item.busy = MemberId(0);
    }
}

/// The job that is busy at a member that is picked.
#[derive(Clone, Copy)]
pub struct BusyJobs<'a, P> {
    /// The members.
    pub members: &'a P,
}

impl<'a, P: Picks<MemberId>> Picks<Job> for BusyJobs<'a, P> {
    ghost picks = { λ s j. P.picks s.members.now j.busy };

    fn picks(&self, item: &Job) -> bool {
        self.members.picks(&item.busy)
    }
}

/// The job with a number.
pub fn job_at(jobs: &List<Job>, job: JobNo) -> Option<&Job>
    ensures { option_copied result ≡ find (has_number job) jobs.now }
{
    first(jobs, &Numbered(job))
}

/// The job with a number is changed.
pub fn change_job<F: Changes<Job>>(jobs: &mut List<Job>, job: JobNo, change: &F)
    ensures { jobs.new ≡ change_first_lem (has_number job) (F.changed change.now) jobs.old }
{
    change_first(jobs, &Numbered(job), change);
}

/// The job with a number goes.
pub fn remove_job(jobs: &mut List<Job>, job: JobNo)
    ensures { jobs.new ≡ without_first (has_number job) jobs.old }
{
    remove_first(jobs, &Numbered(job));
}
