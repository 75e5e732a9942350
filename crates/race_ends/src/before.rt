//! What the operator does before the members begin: stops are armed, and lines of members that are none are refused.
ghost use Rattle.std.specs.Prelude.{◌≡◌, ◌≤◌, ◌<◌, All, length};
ghost use Rattle.mas_types.specs.Limits.{members_most, steps_most};
ghost use Rattle.script_input.specs.Played.{IsPlayed, MayBeRaced};
ghost use Rattle.mas_complex.specs.Parts.{parts_of};
ghost use Rattle.race_ends.specs.Prepared.{MayPrepare, Prepares, PreparesAll, Refuses};

use mas_complex::{Complex, Steady};
use mas_types::{Closing, MemberId, Refusal, Reply, closing_line};
use member_lines::arm_line;
use member_node::NodeNo;
use script_lang::{Ask, Step};
use spool_plant::{Act, Plant};
use std::alloc::Global;

/// The operator, who never halts.
pub(crate) const OPERATOR: MemberId = MemberId(0);

// Refuses the line of a member that is none.
fn refuse_line<P: Plant + Drop, C: Steady + Drop>(
    alloc: Global,
    complex: &mut Complex<P, C>,
    by: MemberId,
    step: u32,
) -> Result<(), NodeNo>
    requires may { MayPrepare complex.old }
    requires none { complex.old.base.config.members < by.0 }
    requires by { by.0 ≤ members_most }
    requires few { (1 ≤ step) × (step ≤ steps_most) }
    ensures frame { parts_of complex.new ≡ record (parts_of complex.old) { plant = complex.new.plant } }
    ensures refuses { Refuses by step complex.old complex.new result }
{
    let end = Closing::Reply(Reply::No(Refusal::NoMember));
    let Ok(line) = closing_line(alloc, by, step, &end) else {
        return Err(NodeNo::NoMemory);
    };
    match complex.say(OPERATOR, line.as_slice()) {
        Act::Done => Ok(()),
        Act::Failed => Err(NodeNo::ConsoleFault),
        Act::Halted => unreachable!(),
    }
}

// A line that no member plays in a turn: a stop is armed, and a line of a member that is none is refused.
fn prepare_line<P: Plant + Drop, C: Steady + Drop>(
    alloc: Global,
    complex: &mut Complex<P, C>,
    number: u32,
    line: &Step,
) -> Result<(), NodeNo>
    requires may { MayPrepare complex.old }
    requires played { IsPlayed line.now }
    requires raced { MayBeRaced line.now }
    requires few { (1 ≤ number) × (number ≤ steps_most) }
    ensures frame { parts_of complex.new ≡ record (parts_of complex.old) { plant = complex.new.plant } }
    ensures prepares { Prepares number line.now complex.old complex.new result }
{
    match &line.what {
        Ask::StopIn(fuse, count) => {
            arm_line(complex, line.by, *fuse, *count);
            Ok(())
        }
        _ => {
            if line.by.0 <= complex.base.config().members {
                return Ok(());
            }
            refuse_line(alloc, complex, line.by, number)
        }
    }
}

/// Does all that the operator does before the members begin, line by line.
///
/// ConsoleFault comes only where the console failed at a line, NoMemory where there was none for a line.
pub fn prepare<P: Plant + Drop, C: Steady + Drop>(
    alloc: Global,
    complex: &mut Complex<P, C>,
    lines: &[Step],
) -> Result<(), NodeNo>
    requires may { MayPrepare complex.old }
    requires played { All IsPlayed lines.now }
    requires raced { All MayBeRaced lines.now }
    requires few { length lines.now ≤ steps_most }
    ensures frame { parts_of complex.new ≡ record (parts_of complex.old) { plant = complex.new.plant } }
    ensures prepares { PreparesAll 1 lines.now complex.old complex.new result }
{
    let mut number = 0;
    for line in lines {
        number += 1;
        prepare_line(alloc, complex, number, line)?;
    }
    Ok(())
}
