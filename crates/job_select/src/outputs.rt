//! Outputs in chains: the chain of each, and which of a chain are picked.
ghost use Rattle.std.specs.Prelude.{◌≡◌, ◌&&◌, not, Some, find};
ghost use Rattle.mas_types.specs.Ids.{same_member, same_class, same_number};
ghost use Rattle.mas_types.specs.Names.{member_name};
ghost use Rattle.output_queue.specs.Outputs.{may_take, fits_printer as fits_printer_lem, is_hardcopy as is_hardcopy_lem, prio_of as prio_of_lem, job_rec};
ghost use Rattle.job_select.specs.Chains.{AreChains};
ghost use Rattle.job_select.specs.Kinds.{number_chain, printing_chains, output_chain as output_chain_lem};

use crate::chains::{Chains, slots_in};
use crate::choices::{Choice, first_in};
use crate::classes::Classed;
use crate::jobs::{Numbered, is_somebody};
use lay_bytes::{JobRec, OutRec};
use mas_types::{Class, JobNo, MemberId, Name8, Phase};
use output_queue::same_name;

/// An output that a member prints stands in the chain of this number and the member's. One that
/// waits for a printer stands in the chain of its class, below 256.
pub const PRINTING_CHAINS: u32 = 256;

/// The chain in which an output stands, if it stands in one.
pub fn output_chain(output: &OutRec) -> Option<u32>
    ensures { result ≡ output_chain_lem output.now }
{
    if is_somebody(output.busy) {
        return Some(PRINTING_CHAINS + output.busy.0 as u32);
    }
    if output.held {
        return None;
    }
    Some(output.class.0 as u32)
}

/// The outputs that a member prints.
#[derive(Clone, Copy)]
pub struct PrintedBy(pub MemberId);

impl Choice<OutRec> for PrintedBy {
    ghost picks = { λ s r. same_member r.busy s.0 };

    ghost rank = { λ s r. 0 };

    fn picks(&self, item: &OutRec) -> bool {
        item.busy.0 == self.0.0
    }

    fn rank(&self, _item: &OutRec) -> u8 {
        0
    }
}

/// The first job with a number.
fn job_numbered(jobs: &[Option<JobRec>], numbers: &Chains, job: JobNo) -> Option<JobRec>
    requires { AreChains number_chain jobs.now numbers.now }
    ensures { result ≡ job_rec jobs.now job }
{
    match first_in(jobs, slots_in(numbers, job.0), &Numbered(job)) {
        Some(found) => Some(found.item),
        None => None,
    }
}

fn is_hardcopy(jobs: &[Option<JobRec>], numbers: &Chains, job: JobNo) -> bool
    requires { AreChains number_chain jobs.now numbers.now }
    ensures { result ≡ is_hardcopy_lem jobs.now job }
{
    match job_numbered(jobs, numbers, job) {
        Some(job) => matches!(job.phase, Phase::Hardcopy),
        None => false,
    }
}

fn prio_of(jobs: &[Option<JobRec>], numbers: &Chains, job: JobNo) -> u8
    requires { AreChains number_chain jobs.now numbers.now }
    ensures { result ≡ prio_of_lem jobs.now job }
{
    match job_numbered(jobs, numbers, job) {
        Some(job) => job.fields.prio.0,
        None => 0,
    }
}

/// What an output's destination is where any printer may take it.
const LOCAL: Name8 = Name8(*b"LOCAL   ");

fn fits_printer(by: MemberId, name: &Name8, forms: &Name8, item: &OutRec) -> bool
    requires { name.now ≡ member_name by }
    ensures { result ≡ fits_printer_lem by forms.now item.now }
{
    same_name(&item.forms, forms) && (same_name(&item.dest, &LOCAL) || same_name(&item.dest, name))
}

/// The outputs that a member's printer may take, by the slots of the jobs and the chains of their
/// numbers.
#[derive(Drop)]
pub struct ForPrinter<'a> {
    /// The slots of the jobs.
    pub jobs: &'a [Option<JobRec>],
    /// The chains of the jobs' numbers.
    pub numbers: &'a Chains,
    /// The member.
    pub by: MemberId,
    /// The member's name, a destination that its printer serves.
    pub name: Name8,
    /// The forms in its printer.
    pub forms: Name8,
    ghost named: { name ≡ member_name by },
    ghost numbered: { AreChains number_chain jobs.now numbers.now },
}

impl<'a> Choice<OutRec> for ForPrinter<'a> {
    ghost picks = { λ s r. may_take s.jobs.now s.by s.forms r };

    ghost rank = { λ s r. prio_of_lem s.jobs.now r.job };

    fn picks(&self, item: &OutRec) -> bool {
        !item.held
            && !is_somebody(item.busy)
            && fits_printer(self.by, &self.name, &self.forms, item)
            && is_hardcopy(self.jobs, self.numbers, item.job)
    }

    fn rank(&self, item: &OutRec) -> u8 {
        prio_of(self.jobs, self.numbers, item.job)
    }
}

impl<'a> Classed<OutRec> for ForPrinter<'a> {
    ghost has_class = { λ s class r. same_class r.class class };

    fn has_class(&self, class: Class, item: &OutRec) -> bool {
        item.class.0 == class.0
    }
}
