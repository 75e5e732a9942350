//! Runs of entries.
ghost use Rattle.std.specs.Prelude.{◌≡◌, true, IfOk, OnOk};
ghost use Rattle.std.specs.List.{AllByRecursion};
ghost use Rattle.mas_types.specs.Fit.{IsFit};
ghost use Rattle.mas_types.specs.Run.{run as run_lem};
ghost use Rattle.mas_types.specs.Sound.{IsSound};
ghost use Rattle.mas_types.specs.Step.{may_give, step};
ghost use Rattle.queue_laws.specs.Runs.{IsGiven};

use crate::step_plain;
use mas_types::{Copied, Entry, List, NoMemory, Queue};
use std::alloc::Global;

fn play(alloc: Global, queue: &mut Queue, entry: &Entry) -> Result<(), NoMemory>
    requires sound { IsSound queue.old }
    requires fit { IsFit entry.now.command }
    requires by { may_give queue.old entry.now.by entry.now.command ≡ true }
    ensures { OnOk result (queue.new ≡ (step queue.old entry.now.by entry.now.command).0) }
{
    let _reply = step_plain(alloc, queue, entry.by, &entry.command)?;
    Ok(())
}

/// The queue after the entries, one after another: each command given by a member that may give it, over a sound queue.
/// NoMemory comes only when out of memory.
pub fn run(alloc: Global, base: &Queue, entries: &List<Entry>) -> Result<Queue, NoMemory>
    requires sound { IsSound base.now }
    requires given { AllByRecursion (IsGiven base.now) entries.now }
    ensures value { IfOk result (λ queue. queue ≡ run_lem base.now entries.now) }
    ensures sound { IfOk result IsSound }
{
    let mut queue = base.copy(alloc)?;
    for entry in entries.as_slice() {
        play(alloc, &mut queue, entry)?;
    }
    Ok(queue)
}
