//! The tables of the queue.
ghost use Rattle.std.specs.Prelude.{◌≡◌, ◌+◌, ◌/◌, ◌<◌, ◌^◌};
ghost use Rattle.mas_types.specs.Fit.{IsConfig};
ghost use Rattle.ckpt_tables.specs.Shape.{page_count as page_count_lem, jobs_a_page, outputs_a_page, owners_a_page, first_job_page, first_output_page as first_output_page_lem, first_group_page as first_group_page_lem};

use lay_bytes::{JobRec, OutRec};
use mas_types::{Config, JobNo, LineCount, List, Owner, Route, Setting};

/// The slots of jobs on a page.
pub const JOBS_A_PAGE: usize = 16;
/// The slots of outputs on a page.
pub const OUTPUTS_A_PAGE: usize = 32;
/// The entries of track groups on a page.
pub const OWNERS_A_PAGE: usize = 512;
/// The first page of jobs, after the header, the members and the nodes.
pub const FIRST_JOB_PAGE: u16 = 3;

/// The queue as a checkpoint has it: jobs and outputs in slots, listed by their order and not by
/// their places, and the owner of each track group.
#[derive(Drop)]
pub struct Tables {
    /// The configuration, by which there are slots and groups.
    pub config: Config,
    /// A slot for each job that the configuration has room for.
    pub jobs: List<Option<JobRec>>,
    /// A slot for each output that the configuration has room for.
    pub outputs: List<Option<OutRec>>,
    /// The owner of each group, those of the first volume first.
    pub owners: List<Owner>,
    /// The setting of each member, that of SYSA first.
    pub members: List<Setting>,
    /// The routes to other nodes, at most 63.
    pub routes: List<Route>,
    /// The counts of the lines to other nodes, that of line 1 first.
    pub lines: List<LineCount>,
    /// The job number that was given last, 0 for none.
    pub last: JobNo,
    /// The order that the next job or output gets.
    pub order: u64,
}

/// The first page of outputs.
pub fn first_output_page(config: &Config) -> u16
    requires { IsConfig config.now }
    ensures { result ≡ first_output_page_lem config.now }
{
    FIRST_JOB_PAGE + config.jobs / JOBS_A_PAGE as u16
}

/// The first page of groups.
pub fn first_group_page(config: &Config) -> u16
    requires { IsConfig config.now }
    ensures { result ≡ first_group_page_lem config.now }
{
    first_output_page(config) + config.outputs / OUTPUTS_A_PAGE as u16
}

/// The number of pages for so many jobs, outputs and groups.
pub fn pages_for(jobs: u16, outputs: u16, groups: usize) -> usize
    requires { groups < 2 ^ 32 }
    ensures { result ≡ first_job_page + jobs / jobs_a_page + outputs / outputs_a_page + (groups + 511) / owners_a_page }
{
    FIRST_JOB_PAGE as usize
        + jobs as usize / JOBS_A_PAGE
        + outputs as usize / OUTPUTS_A_PAGE
        + (groups + 511) / OWNERS_A_PAGE
}

/// The number of pages that the tables of a configuration take: the header, the members, the
/// nodes, and as many as the slots of jobs, the slots of outputs and the groups need.
pub fn page_count(config: &Config) -> u16
    requires { IsConfig config.now }
    ensures { result ≡ page_count_lem config.now }
{
    pages_for(
        config.jobs,
        config.outputs,
        config.volumes as usize * config.groups as usize,
    ) as u16
}
