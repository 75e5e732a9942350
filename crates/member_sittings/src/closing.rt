//! The end of a sitting: what it gave is kept, and its lines are said where the step closes.
ghost use Rattle.std.specs.Prelude.{[]};
ghost use Rattle.member_sittings.specs.Names.{Away};
ghost use Rattle.member_sittings.specs.Ends.{ending};
ghost use Rattle.member_sittings.specs.Sat.{CutsOff, EndsSitting, MayEnd};
ghost use Rattle.member_sittings.specs.Whole.{MayCut, MayKeepBatch};

use crate::ends::{SittingEnd, release_of};
use mas_complex::{Complex, Steady};
use mas_types::Lines;
use member_decks::give_up;
use member_node::{Member, NodeNo};
use member_steps::play_batch;
use spool_plant::Plant;
use std::alloc::Global;
use step_turns::{Aside, Holder, State};

/// Ends a sitting: the member's batch is kept, and then the lines are said with which the step closes, if it does. What
/// they tell is kept already, as far as it was given in earlier sittings.
///
/// NoMemory leaves the batch unbegun. BothLost comes only where both copies count as lost at the end of the call,
/// Halted only where the member was stopped in it, ConsoleFault only where the console's count of faults rose.
pub fn end_sitting<P: Plant + Drop, C: Steady + Drop>(
    member: &mut Member,
    alloc: Global,
    complex: &mut Complex<P, C>,
    holder: Holder,
    next: State,
    lines: &Lines,
) -> Result<SittingEnd, NodeNo>
    requires { MayEnd (ending holder next lines.now) complex.old member.old }
    ensures { EndsSitting (ending holder next lines.now) complex.old complex.new member.old member.new
        result }
{
    let given = member.batch.len() as u64;
    play_batch(member, alloc, complex, lines)?;
    let release = release_of(holder, given, &next);
    Ok(SittingEnd {
        next,
        given,
        release,
    })
}

/// Ends a sitting at acts that want no lock: the member's batch is kept, and nothing is said.
///
/// The errors are those of the end of any sitting: NoMemory leaves the batch unbegun.
pub fn pause_sitting<P: Plant + Drop, C: Steady + Drop>(
    member: &mut Member,
    alloc: Global,
    complex: &mut Complex<P, C>,
    holder: Holder,
    aside: Aside,
) -> Result<SittingEnd, NodeNo>
    requires { MayKeepBatch complex.old member.old holder }
    ensures { EndsSitting (ending holder (Away aside) []) complex.old complex.new member.old member.new
        result }
{
    let lines = Lines::new(alloc);
    end_sitting(member, alloc, complex, holder, State::Away(aside), &lines)
}

/// Ends a sitting that is out of memory: what was given since the last batch is kept, if there is memory for that.
/// Answers how it ends.
///
/// BothLost comes only where both copies count as lost at the end of the call, Halted only where the member was stopped
/// in it: what was given is in flight then. After NoMemory it is kept, or isn't begun.
pub fn give_up_sitting<P: Plant + Drop, C: Steady + Drop>(
    member: &mut Member,
    alloc: Global,
    complex: &mut Complex<P, C>,
    holder: Holder,
) -> NodeNo
    requires { MayCut complex.old member.old holder }
    ensures { CutsOff holder.by complex.old complex.new member.old member.new result }
{
    give_up(member, alloc, complex)
}
