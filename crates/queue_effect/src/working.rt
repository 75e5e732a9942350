//! The job that a member goes on with.
ghost use Rattle.std.specs.Prelude.{◌≡◌, IfOk, IfErr, OnOk, None, Some, slice_get};
ghost use Rattle.mas_types.specs.declared.queues.Queue.{Queue};
ghost use Rattle.mas_types.specs.Lists.{first_some};
ghost use Rattle.mas_types.specs.Queue.{has_number};
ghost use Rattle.job_queue.specs.Jobs.{HasJob};
ghost use Rattle.queue_telling.specs.Telling.{Tell};
ghost use Rattle.queue_effect.specs.Working.{in_stage, not_at_work};

use crate::lookups::job_at;
use ckpt_tables::Tables;
use lay_bytes::JobRec;
use mas_types::{JobNo, MemberId, Phase, Refusal};
use queue_slots::Found;

/// The phases in which a member goes on with a job.
#[derive(Clone, Copy)]
pub enum Stage {
    /// Input.
    Input,
    /// Convert.
    Convert,
    /// Convert or Execute: a job with an error in its statements ends without a run.
    Run,
}

fn is_at(phase: Phase, stage: Stage) -> bool
    ensures { result ≡ in_stage stage phase }
{
    match stage {
        Stage::Input => matches!(phase, Phase::Input),
        Stage::Convert => matches!(phase, Phase::Convert),
        Stage::Run => matches!(phase, Phase::Convert | Phase::Execute),
    }
}

/// The job with a number, which has to be in the phases of a stage and busy at the member: `NoJob`, `WrongPhase` and
/// `InUse` where it isn't, tried in this order.
pub fn job_at_work(
    tables: &Tables,
    by: MemberId,
    job: JobNo,
    stage: Stage,
) -> Result<Found<JobRec>, Refusal>
    ensures here { IfOk result (λ f. slice_get tables.now.jobs f.at ≡ Some (Some f.item)) }
    ensures some { IfOk result (λ f. (Q : Queue) → Tell tables.now Q
        → HasJob (has_number job) tables.now.jobs Q.jobs f.at f.item) }
    ensures allowed { OnOk result ((Q : Queue) → Tell tables.now Q
        → first_some (not_at_work Q by job (in_stage stage)) ≡ None) }
    ensures refused { IfErr result
        (λ why. (Q : Queue) → Tell tables.now Q → first_some (not_at_work Q by job (in_stage stage)) ≡ Some why) }
{
    let Some(found) = job_at(tables, job) else {
        return Err(Refusal::NoJob);
    };
    if !is_at(found.item.phase, stage) {
        return Err(Refusal::WrongPhase(found.item.phase));
    }
    if found.item.busy.0 != by.0 {
        return Err(Refusal::InUse(found.item.busy));
    }
    Ok(found)
}
