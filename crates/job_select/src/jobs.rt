//! Jobs in chains: the chain of each, and which of a chain are picked.
ghost use Rattle.std.specs.Prelude.{◌≡◌, ◌&&◌, ◌<◌, not, Some};
ghost use Rattle.mas_types.specs.Ids.{same_number, same_member, same_class, is_somebody as is_somebody_lem};
ghost use Rattle.mas_types.specs.Queue.{in_convert, in_execute, in_output, in_purge};
ghost use Rattle.job_select.specs.Kinds.{convert_chain, ended_chain, purge_chain, converting_chains, running_chains, waiting_chain as waiting_chain_lem, job_chain as job_chain_lem, number_chain as number_chain_lem};

use crate::choices::Choice;
use crate::classes::Classed;
use lay_bytes::JobRec;
use mas_types::{Class, JobNo, MemberId, Phase};

/// The chain of the jobs that wait for conversion. A job that waits for execution stands in the
/// chain of its class, below 256.
pub const CONVERT_CHAIN: u32 = 256;

/// The chain of the jobs that are to be purged.
pub const PURGE_CHAIN: u32 = 257;

/// The chain of the jobs whose outputs wait to be handed to the printers.
pub const ENDED_CHAIN: u32 = 258;

/// A job that a member converts stands in the chain of this number and the member's.
pub const CONVERTING_CHAINS: u32 = 512;

/// A job that a member runs stands in the chain of this number and the member's.
pub const RUNNING_CHAINS: u32 = 768;

/// Whether it is a member, and not nobody.
pub fn is_somebody(busy: MemberId) -> bool
    ensures { result ≡ is_somebody_lem busy }
{
    busy.0 != 0
}

fn waiting_chain(job: &JobRec, chain: u32, busy: u32) -> Option<u32>
    requires { busy < 1024 }
    ensures { result ≡ waiting_chain_lem job.now chain busy }
{
    if is_somebody(job.busy) {
        return Some(busy + job.busy.0 as u32);
    }
    if job.fields.held {
        return None;
    }
    Some(chain)
}

/// The chain in which a job stands, if it stands in one.
pub fn job_chain(job: &JobRec) -> Option<u32>
    ensures { result ≡ job_chain_lem job.now }
{
    match job.phase {
        Phase::Convert => waiting_chain(job, CONVERT_CHAIN, CONVERTING_CHAINS),
        Phase::Execute => waiting_chain(job, job.fields.class.0 as u32, RUNNING_CHAINS),
        Phase::Purge => Some(PURGE_CHAIN),
        Phase::Output => Some(ENDED_CHAIN),
        Phase::Input | Phase::Hardcopy | Phase::Xmit => None,
    }
}

/// The chain of a job by its number.
pub fn number_chain(job: &JobRec) -> Option<u32>
    ensures { result ≡ number_chain_lem job.now }
{
    Some(job.number.0)
}

/// The job with a number.
#[derive(Clone, Copy)]
pub struct Numbered(pub JobNo);

impl Choice<JobRec> for Numbered {
    ghost picks = { λ s r. same_number r.number s.0 };

    ghost rank = { λ s r. 0 };

    fn picks(&self, item: &JobRec) -> bool {
        item.number.0 == self.0.0
    }

    fn rank(&self, _item: &JobRec) -> u8 {
        0
    }
}

/// The jobs that are to be purged.
#[derive(Clone, Copy)]
pub struct ForPurge;

impl Choice<JobRec> for ForPurge {
    ghost picks = { λ s r. in_purge r.phase };

    ghost rank = { λ s r. 0 };

    fn picks(&self, item: &JobRec) -> bool {
        matches!(item.phase, Phase::Purge)
    }

    fn rank(&self, _item: &JobRec) -> u8 {
        0
    }
}

/// The jobs whose outputs wait to be handed to the printers.
#[derive(Clone, Copy)]
pub struct ForGather;

impl Choice<JobRec> for ForGather {
    ghost picks = { λ s r. in_output r.phase };

    ghost rank = { λ s r. 0 };

    fn picks(&self, item: &JobRec) -> bool {
        matches!(item.phase, Phase::Output)
    }

    fn rank(&self, _item: &JobRec) -> u8 {
        0
    }
}

/// The jobs that a member converts.
#[derive(Clone, Copy)]
pub struct ConvertedBy(pub MemberId);

impl Choice<JobRec> for ConvertedBy {
    ghost picks = { λ s r. in_convert r.phase && same_member r.busy s.0 };

    ghost rank = { λ s r. 0 };

    fn picks(&self, item: &JobRec) -> bool {
        matches!(item.phase, Phase::Convert) && item.busy.0 == self.0.0
    }

    fn rank(&self, _item: &JobRec) -> u8 {
        0
    }
}

/// The jobs that a member runs.
#[derive(Clone, Copy)]
pub struct RunBy(pub MemberId);

impl Choice<JobRec> for RunBy {
    ghost picks = { λ s r. in_execute r.phase && same_member r.busy s.0 };

    ghost rank = { λ s r. 0 };

    fn picks(&self, item: &JobRec) -> bool {
        matches!(item.phase, Phase::Execute) && item.busy.0 == self.0.0
    }

    fn rank(&self, _item: &JobRec) -> u8 {
        0
    }
}

/// The jobs that wait for conversion.
#[derive(Clone, Copy)]
pub struct ForConvert;

impl Choice<JobRec> for ForConvert {
    ghost picks = { λ s r. in_convert r.phase
        && (not r.fields.held && not (is_somebody_lem r.busy)) };

    ghost rank = { λ s r. r.fields.prio.0 };

    fn picks(&self, item: &JobRec) -> bool {
        matches!(item.phase, Phase::Convert) && !item.fields.held && !is_somebody(item.busy)
    }

    fn rank(&self, item: &JobRec) -> u8 {
        item.fields.prio.0
    }
}

/// The jobs that wait for execution.
#[derive(Clone, Copy)]
pub struct ForExec;

impl Choice<JobRec> for ForExec {
    ghost picks = { λ s r. in_execute r.phase
        && (not r.fields.held && not (is_somebody_lem r.busy)) };

    ghost rank = { λ s r. r.fields.prio.0 };

    fn picks(&self, item: &JobRec) -> bool {
        matches!(item.phase, Phase::Execute) && !item.fields.held && !is_somebody(item.busy)
    }

    fn rank(&self, item: &JobRec) -> u8 {
        item.fields.prio.0
    }
}

impl Classed<JobRec> for ForExec {
    ghost has_class = { λ s class r. same_class r.fields.class class };

    fn has_class(&self, class: Class, item: &JobRec) -> bool {
        item.fields.class.0 == class.0
    }
}
