//! The slots of jobs, the slots of outputs and the owners of groups.
ghost use Rattle.std.specs.Prelude.{IfOk, IfErr};
ghost use Rattle.ckpt_pages.specs.Reading.{IfBadPage};
ghost use Rattle.ckpt_pages.specs.Headers.{IsHeader};
ghost use Rattle.ckpt_pages.specs.Slots.{AreSlots, IsBadBehind};

use crate::entries::{PageNo, read_pages};
use crate::header::Header;
use ckpt_tables::{FIRST_JOB_PAGE, JOBS_A_PAGE, OUTPUTS_A_PAGE, OWNERS_A_PAGE};
use lay_bytes::{JobRec, OutRec};
use mas_types::{List, Owner, Page};
use std::alloc::Global;

/// What the pages after the nodes say.
#[derive(Drop)]
pub(crate) struct Slots {
    pub jobs: List<Option<JobRec>>,
    pub outputs: List<Option<OutRec>>,
    pub owners: List<Owner>,
}

/// Reads all pages after the nodes.
pub(crate) fn read_slots(alloc: Global, pages: &[Page], header: &Header) -> Result<Slots, PageNo>
    requires { IsHeader header.now pages.now }
    ensures found { IfOk result (AreSlots header.now pages.now) }
    ensures bad { IfErr result (λ e. IfBadPage e (IsBadBehind header.now pages.now)) }
{
    let first_job = FIRST_JOB_PAGE as usize;
    let first_output = first_job + header.jobs as usize / JOBS_A_PAGE;
    let first_group = first_output + header.outputs as usize / OUTPUTS_A_PAGE;
    let groups = header.volumes as usize * header.groups as usize;
    let jobs = read_pages(alloc, pages, first_job, JOBS_A_PAGE, header.jobs as usize)?;
    let outputs = read_pages(
        alloc,
        pages,
        first_output,
        OUTPUTS_A_PAGE,
        header.outputs as usize,
    )?;
    let owners = read_pages(alloc, pages, first_group, OWNERS_A_PAGE, groups)?;
    Ok(Slots {
        jobs,
        outputs,
        owners,
    })
}
