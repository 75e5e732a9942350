//! The listing of a job that doesn't run.
ghost use Rattle.std.specs.Prelude.{◌≡◌, ◌≤◌, ◌∷◌, [], true, length, IfOk};
ghost use Rattle.mas_types.specs.Fit.{IsJobFields, is_text_line};
ghost use Rattle.mas_types.specs.Limits.{line_bytes};
ghost use Rattle.job_exec.specs.Listing.{listing_of};
ghost use Rattle.job_exec.specs.Running.{AreOutputs};

use mas_types::{JobFields, Lines, List, Name8, NoMemory, OutSpec};
use std::alloc::Global;

/// The one output of a job with an error, or of one that is only scanned: this line, in the message class, with the
/// job's print destination, forms STD, one copy, not held. NoMemory comes only when out of memory.
pub fn listing(alloc: Global, fields: &JobFields, line: &[u8]) -> Result<List<OutSpec>, NoMemory>
    ensures output { IfOk result (λ outputs. outputs ≡ listing_of fields.now line.now ∷ []) }
    ensures fits { IsJobFields fields.now → length line.now ≤ line_bytes → is_text_line line.now ≡ true
        → IfOk result AreOutputs }
{
    let mut text = Lines::new(alloc);
    text.push(line)?;
    let mut outputs = List::new(alloc);
    outputs.push(OutSpec {
        class: fields.msgclass,
        dest: fields.dest,
        forms: Name8(*b"STD     "),
        copies: 1,
        held: false,
        text,
    })?;
    Ok(outputs)
}
