//! Acts of a step of work that want no lock: a job's text is read, its outputs are written, an output's next lines are
//! printed.
ghost use Rattle.member_acts.specs.Names.{MayPrintLines, MayReadText, MayWriteOutputs, PrintsLines, ReadsText, WritesOutputs, lines_to};

use crate::printing::print_text;
use crate::reading::read_thing;
use crate::spooling::write_and_sync;
use job_queue::find_job;
use mas_complex::{Complex, Steady};
use mas_types::{JobNo, OutNo, OutSpec, Thing};
use member_asides::{found_by, found_with};
use member_node::{Member, NodeNo};
use member_work::groups_of_outputs;
use output_queue::find_output;
use spool_plant::Plant;
use std::alloc::Global;
use step_turns::Found;
use track_groups::held_by;

/// Reads the text of a job that is run or converted. It needs no lock: whoever holds it, the book, the copies and the
/// journal are as they were. A text that was gone when the run began isn't read. Answers how it was read.
///
/// NoMemory leaves all as it was. Halted comes only where the member was stopped.
pub fn read_job_text<P: Plant + Drop, C: Steady + Drop>(
    member: &Member,
    alloc: Global,
    complex: &mut Complex<P, C>,
    job: JobNo,
) -> Result<Found, NodeNo>
    requires { MayReadText complex.old member.now job }
    ensures { ReadsText complex.old complex.new member.now job result }
{
    let Some(found) = find_job(member.checkpoint.tables.jobs.as_slice(), job) else {
        unreachable!();
    };
    let read = read_thing(member, alloc, complex, Thing::Deck(job), found.item.cards)?;
    Ok(found_with(alloc, read, None, false))
}

/// Writes the texts of a job's outputs into the lowest groups of the member, as many as they need, and syncs the
/// volumes on which they lie. It needs no lock: whoever holds it, the book, the copies and the journal are as they
/// were. Answers the volume that was found lost, if one was.
///
/// NoMemory leaves all as it was. Halted comes only where the member was stopped.
pub fn write_outputs<P: Plant + Drop, C: Steady + Drop>(
    member: &Member,
    alloc: Global,
    complex: &mut Complex<P, C>,
    outputs: &[OutSpec],
) -> Result<Found, NodeNo>
    requires { MayWriteOutputs complex.old member.now outputs.now }
    ensures { WritesOutputs complex.old complex.new member.now outputs.now result }
{
    let by = member.id;
    let Ok(held) = held_by(alloc, member.checkpoint.tables.owners.as_slice(), by) else {
        return Err(NodeNo::NoMemory);
    };
    let needed = groups_of_outputs(outputs);
    found_by(
        alloc,
        write_and_sync(complex, by, &held.as_slice()[..needed as usize], outputs),
    )
}

/// Reads the text of the output that is busy at the member and prints its lines up to this one on the member's printer,
/// except those that the member has printed since its last Pick, Mark, Back or Forward. It needs no lock. A text that
/// was gone when the run began isn't read. Answers how the text was read, and whether the printer was found lost: then
/// the lines before the one at which it failed stand on paper.
///
/// NoMemory leaves the first of the lines on paper, perhaps. Halted comes only where the member was stopped, which
/// leaves the first of them, perhaps, and one torn; where that was at its printer it is stopped in the book already.
pub fn print_next_lines<P: Plant + Drop, C: Steady + Drop>(
    member: &Member,
    alloc: Global,
    complex: &mut Complex<P, C>,
    job: JobNo,
    output: OutNo,
    last: u32,
) -> Result<Found, NodeNo>
    requires { MayPrintLines complex.old member.now (lines_to job output last) }
    ensures { PrintsLines complex.old complex.new member.now (lines_to job output last) result }
{
    let Some(found) = find_output(member.checkpoint.tables.outputs.as_slice(), job, output) else {
        unreachable!();
    };
    let thing = Thing::Output(job, output);
    let read = read_thing(member, alloc, complex, thing, found.item.lines)?;
    let printer = print_text(complex, alloc, member.id, &found.item, last, &read)?;
    Ok(found_with(alloc, read, None, printer))
}
