//! The index: slots of jobs and outputs, and the chains in which they stand.
ghost use Rattle.std.specs.Prelude.{◌≡◌, [], drop};
ghost use Rattle.lay_bytes.specs.Used.{used};
ghost use Rattle.job_select.specs.Chains.{AreChains};
ghost use Rattle.job_select.specs.Kinds.{job_chain as job_chain_lem, number_chain as number_chain_lem, output_chain as output_chain_lem};

use crate::chains::Chains;
use lay_bytes::{JobRec, OutRec};
use mas_types::List;

/// The jobs and the outputs of tables in chains: by their numbers, by the classes for which they
/// wait, and by the members that work on them. What is selected is found in its chain, and not by a
/// walk over all slots.
#[derive(Drop)]
pub struct Index {
    /// The slots of the jobs.
    pub jobs: List<Option<JobRec>>,
    /// The slots of the outputs.
    pub outputs: List<Option<OutRec>>,
    /// The jobs by their numbers.
    pub(crate) numbers: Chains,
    /// The jobs by what they wait for, and by the members that work on them.
    pub(crate) job_chains: Chains,
    /// The outputs by their classes, and by the members that print them.
    pub(crate) output_chains: Chains,
    /// No job stands in the slots from this one on.
    pub(crate) jobs_end: usize,
    /// No output stands in the slots from this one on.
    pub(crate) outputs_end: usize,
    ghost numbered: { AreChains number_chain_lem jobs numbers },
    ghost chained: { AreChains job_chain_lem jobs job_chains },
    ghost printed: { AreChains output_chain_lem outputs output_chains },
    ghost jobs_ended: { used (drop jobs_end jobs) ≡ [] },
    ghost outputs_ended: { used (drop outputs_end outputs) ≡ [] },
}
