//! New outputs.
ghost use Rattle.std.specs.Prelude.{◌≡◌, ◌<◌, ◌++◌, ◌∷◌, [], ℕ, List, All, OnOk, OnErr, Some, length, position, is_none, slice_set};
ghost use Rattle.mas_types.specs.declared.jobs.Output.{Output};
ghost use Rattle.mas_types.specs.Fit.{IsOutSpec};
ghost use Rattle.mas_types.specs.Commands.Life.{new_output};
ghost use Rattle.lay_bytes.specs.Used.{used};
ghost use Rattle.output_queue.specs.Outputs.{AreOutputs, new_rec};

use lay_bytes::OutRec;
use mas_types::{JobNo, MemberId, OutNo, OutSpec};
use queue_slots::free_slot;

/// No slot is free.
#[derive(Clone, Copy)]
pub struct OutputsFull;

/// A new output in the lowest free slot, with an order above those of the others: not busy, and nothing of it printed.
/// `OutputsFull` exactly where no slot is free, and nothing is changed then.
pub fn add(
    outputs: &mut [Option<OutRec>],
    job: JobNo,
    index: OutNo,
    spec: &OutSpec,
    order: u64,
) -> Result<(), OutputsFull>
    requires fit { IsOutSpec spec.now }
    requires above { All (λ r. r.order < order) (used outputs.old) }
    ensures added { OnOk result ((os : List Output) → AreOutputs outputs.old os
        → AreOutputs outputs.new (os ++ new_output job index.0 spec.now ∷ [])) }
    ensures placed { OnOk result ((at : ℕ) × (position is_none outputs.old ≡ Some at)
        × (outputs.new ≡ slice_set outputs.old at (Some (new_rec job index spec.now order)))) }
    ensures room { OnOk result ((os : List Output) → AreOutputs outputs.old os → length os < length outputs.old) }
    ensures full { OnErr result ((os : List Output) → AreOutputs outputs.old os → length os ≡ length outputs.old) }
    ensures unchanged { OnErr result (outputs.new ≡ outputs.old) }
{
    let Some(at) = free_slot(outputs) else {
        return Err(OutputsFull);
    };
    outputs[at] = Some(new_record(job, index, spec, order));
    Ok(())
}

fn new_record(job: JobNo, index: OutNo, spec: &OutSpec, order: u64) -> OutRec
    requires { IsOutSpec spec.now }
    ensures { result ≡ new_rec job index spec.now order }
{
    OutRec {
        job,
        index,
        class: spec.class,
        dest: spec.dest,
        forms: spec.forms,
        copies: spec.copies,
        held: spec.held,
        busy: MemberId(0),
        mark: 0,
        lines: spec.text.len() as u16,
        order,
    }
}
