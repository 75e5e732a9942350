//! Looks for a member's next unit by an index, on a queue with the least or the most jobs.
ghost use Rattle.ckpt_tables.specs.Shape.{HasShape};
ghost use Rattle.job_select.specs.Behind.{IsKept};

use crate::queues::full_tables;
use ckpt_tables::Tables;
use job_select::KeptIndex;
use mas_types::{MemberId, NoMemory, Unit};
use queue_indexed::find_unit;
use std::alloc::Global;

/// Looks for the unit so many times; how often there was none.
fn look_often(tables: &Tables, kept: &KeptIndex, times: u32) -> u32
    requires { IsKept kept.now tables.now }
{
    let mut idle = 0;
    for _time in 0..times {
        if matches!(find_unit(tables, kept, MemberId(1)), Unit::Idle) {
            idle += 1;
        }
    }
    idle
}

// How often there was no unit, and whether the index was built.
fn looked(alloc: Global, tables: &Tables, times: u32) -> (u32, bool)
    requires { HasShape tables.now }
{
    let mut kept = KeptIndex::none(alloc);
    kept.build(alloc, tables);
    let idle = look_often(tables, &kept, times);
    (idle, kept.current)
}

// How often there was no unit on full tables of so many jobs, each of which waits to be converted.
fn idle_times(alloc: Global, jobs: u32, times: u32) -> Result<(u32, bool), NoMemory> {
    let tables = full_tables(alloc, jobs.min(2_048) as u16)?;
    Ok(looked(alloc, &tables, times))
}

/// Looks for the unit as often as the second number says, on a queue with as many jobs as the first says.
pub fn run(alloc: Global, numbers: [u32; 3]) -> bool {
    matches!(idle_times(alloc, numbers[0], numbers[1]), Ok((0, true)))
}
