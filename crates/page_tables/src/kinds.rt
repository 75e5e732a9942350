//! The kinds of slots: those of jobs, those of outputs and the entries of groups.
ghost use Rattle.std.specs.Prelude.{◌≡◌};
ghost use Rattle.lay_bytes.specs.Slots.{job_slot, output_slot, owner_entry, IsOwner, IfUsed};
ghost use Rattle.page_tables.specs.Kinds.{IsJobUnder, IsOutputUnder, is_job_below as is_job_below_lem, is_output_below as is_output_below_lem, job_size, output_size, owner_size};

use crate::slots::Slot;
use lay_bytes::{JobRec, OutRec, read_job, read_output, read_owner};
use mas_types::Owner;

fn is_job_below(job: &Option<JobRec>, order: u64) -> bool
    ensures { result ≡ is_job_below_lem order job.now }
{
    match job {
        Some(job) => job.order < order,
        None => true,
    }
}

fn is_output_below(output: &Option<OutRec>, order: u64) -> bool
    ensures { result ≡ is_output_below_lem order output.now }
{
    match output {
        Some(output) => output.order < order,
        None => true,
    }
}

impl Slot for Option<JobRec> {
    ghost WIDTH = { 256 };

    ghost spelling = { job_slot };

    ghost fits = { λ order. IfUsed (IsJobUnder order) };

    const WIDTH: usize = 256;

    fn read(bytes: &[u8], order: u64) -> Option<Self> {
        let mut slot = [0; 256];
        slot.copy_from_slice(bytes);
        let Ok(job) = read_job(&slot) else {
            return None;
        };
        if is_job_below(&job, order) {
            Some(job)
        } else {
            None
        }
    }

    ghost size = { job_size };
}

impl Slot for Option<OutRec> {
    ghost WIDTH = { 128 };

    ghost spelling = { output_slot };

    ghost fits = { λ order. IfUsed (IsOutputUnder order) };

    const WIDTH: usize = 128;

    fn read(bytes: &[u8], order: u64) -> Option<Self> {
        let mut slot = [0; 128];
        slot.copy_from_slice(bytes);
        let Ok(output) = read_output(&slot) else {
            return None;
        };
        if is_output_below(&output, order) {
            Some(output)
        } else {
            None
        }
    }

    ghost size = { output_size };
}

impl Slot for Owner {
    ghost WIDTH = { 8 };

    ghost spelling = { owner_entry };

    ghost fits = { λ order. IsOwner };

    const WIDTH: usize = 8;

    fn read(bytes: &[u8], _order: u64) -> Option<Self> {
        let mut entry = [0; 8];
        entry.copy_from_slice(bytes);
        read_owner(&entry).ok()
    }

    ghost size = { owner_size };
}
