//! Which jobs are picked.
ghost use Rattle.std.specs.Prelude.{◌≡◌, ◌&&◌, not};
ghost use Rattle.mas_types.specs.Ids.{same_number, same_member, is_somebody as is_somebody_lem};
ghost use Rattle.mas_types.specs.Queue.{in_convert, in_execute};
ghost use Rattle.job_queue.specs.Jobs.{in_phase};

use lay_bytes::JobRec;
use mas_types::{Class, JobNo, MemberId, Phase};
use queue_slots::{Classed, Rank, Test};

/// Whether it is a member, and not nobody.
pub fn is_somebody(busy: MemberId) -> bool
    ensures { result ≡ is_somebody_lem busy }
{
    busy.0 != 0
}

/// Whether the phase is a given one.
pub fn is_in(phase: Phase, of: Phase) -> bool
    ensures { result ≡ in_phase of phase }
{
    match of {
        Phase::Input => matches!(phase, Phase::Input),
        Phase::Convert => matches!(phase, Phase::Convert),
        Phase::Execute => matches!(phase, Phase::Execute),
        Phase::Output => matches!(phase, Phase::Output),
        Phase::Hardcopy => matches!(phase, Phase::Hardcopy),
        Phase::Purge => matches!(phase, Phase::Purge),
        Phase::Xmit => matches!(phase, Phase::Xmit),
    }
}

/// The job with a number.
#[derive(Clone, Copy)]
pub struct Numbered(pub JobNo);

impl Test<JobRec> for Numbered {
    ghost picks = { λ s r. same_number r.number s.0 };

    fn picks(&self, item: &JobRec) -> bool {
        item.number.0 == self.0.0
    }
}

/// The jobs in a phase.
#[derive(Clone, Copy)]
pub struct InPhase(pub Phase);

impl Test<JobRec> for InPhase {
    ghost picks = { λ s r. in_phase s.0 r.phase };

    fn picks(&self, item: &JobRec) -> bool {
        is_in(item.phase, self.0)
    }
}

/// The jobs in a phase that are busy at a member.
#[derive(Clone, Copy)]
pub struct WorkingAt {
    /// The member.
    pub by: MemberId,
    /// The phase.
    pub phase: Phase,
}

impl Test<JobRec> for WorkingAt {
    ghost picks = { λ s r. in_phase s.phase r.phase && same_member r.busy s.by };

    fn picks(&self, item: &JobRec) -> bool {
        is_in(item.phase, self.phase) && item.busy.0 == self.by.0
    }
}

/// The jobs that wait for conversion.
#[derive(Clone, Copy)]
pub struct ForConvert;

impl Test<JobRec> for ForConvert {
    ghost picks = { λ s r. in_convert r.phase && (not r.fields.held && not (is_somebody_lem r.busy)) };

    fn picks(&self, item: &JobRec) -> bool {
        is_in(item.phase, Phase::Convert) && !item.fields.held && !is_somebody(item.busy)
    }
}

impl Rank<JobRec> for ForConvert {
    ghost rank = { λ s r. r.fields.prio.0 };

    fn rank(&self, item: &JobRec) -> Option<u8> {
        if self.picks(item) {
            Some(item.fields.prio.0)
        } else {
            None
        }
    }
}

/// The jobs that wait for execution.
#[derive(Clone, Copy)]
pub struct ForExec;

impl Test<JobRec> for ForExec {
    ghost picks = { λ s r. in_execute r.phase && (not r.fields.held && not (is_somebody_lem r.busy)) };

    fn picks(&self, item: &JobRec) -> bool {
        is_in(item.phase, Phase::Execute) && !item.fields.held && !is_somebody(item.busy)
    }
}

impl Rank<JobRec> for ForExec {
    ghost rank = { λ s r. r.fields.prio.0 };

    fn rank(&self, item: &JobRec) -> Option<u8> {
        if self.picks(item) {
            Some(item.fields.prio.0)
        } else {
            None
        }
    }
}

impl Classed<JobRec> for ForExec {
    ghost class = { λ s r. r.fields.class };

    fn class(&self, item: &JobRec) -> Class {
        item.fields.class
    }
}
