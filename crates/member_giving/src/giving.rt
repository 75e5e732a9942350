//! What a member gives in a sitting of work, and what of it is kept.
ghost use Rattle.std.specs.Prelude.{◌≡◌, ◌+◌, ◌<◌, ◌^◌, []};
ghost use Rattle.member_giving.specs.Kept.{HasKept, to_keep};
ghost use Rattle.member_giving.specs.Names.{batch_of};
ghost use Rattle.member_giving.specs.Plays.{GivesUp, after_full, full_of};
ghost use Rattle.member_giving.specs.Works.{HasRoom, Works, outside, run_of};

use mas_complex::{Complex, Steady};
use member_node::{Member, NodeNo};
use member_steps::keep_batch;
use spool_plant::Plant;
use std::alloc::Global;
use step_turns::Holder;

// The entries of a batch.
const BATCH_MOST: usize = 64;

/// Keeps what the member gave since the last batch, if anything, and makes room for the next one; nothing is said.
/// BothLost comes only where both copies count as lost at the end of the call, Halted only where the member was stopped
/// in it, and NoMemory only when out of memory.
pub fn keep<P: Plant + Drop, C: Steady + Drop>(
    member: &mut Member,
    alloc: Global,
    complex: &mut Complex<P, C>,
    holder: Holder,
) -> Result<(), NodeNo>
    requires works { Works complex.old member.old holder }
    requires high { member.old.checkpoint.level + 1 < 2 ^ 63 }
    requires level { complex.old.level + 1 < 2 ^ 63 }
    ensures { HasKept (to_keep holder (batch_of member.old.batch) []) complex.old member.old complex.new member.new
        result }
{
    if member.batch.len() == 0 {
        return Ok(());
    }
    keep_batch(member, alloc, complex)?;
    member.primary(complex)?;
    Ok(())
}

/// Ends a sitting that is out of memory: what was given since the last batch is kept, if there is memory for that.
/// Answers how it ends.
pub fn give_up<P: Plant + Drop, C: Steady + Drop>(
    member: &mut Member,
    alloc: Global,
    complex: &mut Complex<P, C>,
    holder: Holder,
) -> NodeNo
    requires works { Works complex.old member.old holder }
    requires high { member.old.checkpoint.level + 1 < 2 ^ 63 }
    requires level { complex.old.level + 1 < 2 ^ 63 }
    ensures run { run_of complex.new member.new ≡ run_of complex.old member.old }
    ensures gives_up { GivesUp P.tells holder.by member.old.batch (outside complex.old) (outside complex.new) result }
{
    match keep(member, alloc, complex, holder) {
        Ok(()) => NodeNo::NoMemory,
        Err(why) => why,
    }
}

/// Keeps what isn't written where that is a full batch, with the errors of [`keep`]; else it does nothing.
pub fn keep_full<P: Plant + Drop, C: Steady + Drop>(
    member: &mut Member,
    alloc: Global,
    complex: &mut Complex<P, C>,
    holder: Holder,
) -> Result<(), NodeNo>
    requires works { Works complex.old member.old holder }
    requires room { HasRoom complex.old member.old 1 }
    ensures { HasKept (to_keep holder (full_of member.old.batch) (after_full member.old.batch)) complex.old member.old
        complex.new member.new result }
{
    if member.batch.len() < BATCH_MOST {
        return Ok(());
    }
    keep(member, alloc, complex, holder)
}
