//! Which outputs are picked.
ghost use Rattle.std.specs.Prelude.{◌≡◌, ◌&&◌, not, Some, None, if◌then◌else◌};
ghost use Rattle.mas_types.specs.Ids.{same_number, same_index, same_member, same_name as same_name_lem, is_somebody as is_somebody_lem};
ghost use Rattle.mas_types.specs.Names.{member_name};
ghost use Rattle.output_queue.specs.Outputs.{may_take, fits_printer as fits_printer_lem, is_hardcopy, prio_of};

use job_queue::{JobsByNumber, job_numbered};
use lay_bytes::{OutRec, is_same_name};
use mas_types::{Class, JobNo, MemberId, Name8, OutNo, Phase};
use queue_slots::{Classed, Rank, Test};

/// Whether it is a member, and not nobody.
pub fn is_somebody(busy: MemberId) -> bool
    ensures { result ≡ is_somebody_lem busy }
{
    busy.0 != 0
}

/// Whether two names are the same.
pub fn same_name(a: &Name8, b: &Name8) -> bool
    ensures { result ≡ same_name_lem a.now b.now }
{
    is_same_name(a, b)
}

/// The output of a job with an index.
#[derive(Clone, Copy)]
pub struct Keyed {
    /// The job's number.
    pub job: JobNo,
    /// The index.
    pub index: OutNo,
}

impl Test<OutRec> for Keyed {
    ghost picks = { λ s r. same_number r.job s.job && same_index r.index s.index };

    fn picks(&self, item: &OutRec) -> bool {
        item.job.0 == self.job.0 && item.index.0 == self.index.0
    }
}

/// The outputs of a job.
#[derive(Clone, Copy)]
pub struct OfJob(pub JobNo);

impl Test<OutRec> for OfJob {
    ghost picks = { λ s r. same_number r.job s.0 };

    fn picks(&self, item: &OutRec) -> bool {
        item.job.0 == self.0.0
    }
}

/// The outputs that are busy at a member.
#[derive(Clone, Copy)]
pub struct PrintingAt(pub MemberId);

impl Test<OutRec> for PrintingAt {
    ghost picks = { λ s r. same_member r.busy s.0 };

    fn picks(&self, item: &OutRec) -> bool {
        item.busy.0 == self.0.0
    }
}

/// The outputs of a job that are busy at another than the member.
#[derive(Clone, Copy)]
pub struct Elsewhere {
    /// The job.
    pub job: JobNo,
    /// The member.
    pub by: MemberId,
}

impl Test<OutRec> for Elsewhere {
    ghost picks = { λ s r. same_number r.job s.job && is_somebody_lem r.busy && not (same_member r.busy s.by) };

    fn picks(&self, item: &OutRec) -> bool {
        item.job.0 == self.job.0 && is_somebody(item.busy) && item.busy.0 != self.by.0
    }
}

/// The priority of a job in Hardcopy; none where no such job has the number.
fn hardcopy_prio(jobs: &JobsByNumber<'_>, job: JobNo) -> Option<u8>
    ensures { result ≡ (if is_hardcopy jobs.now.jobs.now job then Some (prio_of jobs.now.jobs.now job) else None) }
{
    match job_numbered(jobs, job) {
        Some(job) => {
            if matches!(job.phase, Phase::Hardcopy) {
                Some(job.fields.prio.0)
            } else {
                None
            }
        }
        None => None,
    }
}

/// What an output's destination is where any printer may take it.
const LOCAL: Name8 = Name8(*b"LOCAL   ");

fn fits_printer(by: MemberId, name: &Name8, forms: &Name8, item: &OutRec) -> bool
    requires { name.now ≡ member_name by }
    ensures { result ≡ fits_printer_lem by forms.now item.now }
{
    same_name(&item.forms, forms) && (same_name(&item.dest, &LOCAL) || same_name(&item.dest, name))
}

/// The outputs that a member's printer may take, by the slots of the jobs.
#[derive(Drop)]
pub struct ForPrinter<'a> {
    /// The slots of the jobs.
    pub jobs: JobsByNumber<'a>,
    /// The member.
    pub by: MemberId,
    /// The member's name, a destination that its printer serves.
    pub name: Name8,
    /// The forms in its printer.
    pub forms: Name8,
    ghost named: { name ≡ member_name by },
}

impl<'a> Test<OutRec> for ForPrinter<'a> {
    ghost picks = { λ s r. may_take s.jobs.jobs.now s.by s.forms r };

    fn picks(&self, item: &OutRec) -> bool {
        self.rank(item).is_some()
    }
}

impl<'a> Rank<OutRec> for ForPrinter<'a> {
    ghost rank = { λ s r. prio_of s.jobs.jobs.now r.job };

    // The job last, since it takes the most to tell.
    fn rank(&self, item: &OutRec) -> Option<u8> {
        if item.held || is_somebody(item.busy) {
            return None;
        }
        if !fits_printer(self.by, &self.name, &self.forms, item) {
            return None;
        }
        hardcopy_prio(&self.jobs, item.job)
    }
}

impl<'a> Classed<OutRec> for ForPrinter<'a> {
    ghost class = { λ s r. r.class };

    fn class(&self, item: &OutRec) -> Class {
        item.class
    }
}
