//! Printing the lines of an output that come next.
ghost use Rattle.member_acts.specs.Prints.{MayPrint, Prints, upto};

use job_outcome::Read;
use lay_bytes::OutRec;
use mas_complex::{Complex, Steady};
use mas_types::MemberId;
use member_node::NodeNo;
use printer_proc::print_line;
use spool_plant::{Act, Plant};
use std::alloc::Global;

/// Prints the lines of an output with this text up to this one on the member's printer, except those that the member
/// has printed since its last Pick, Mark, Back or Forward. Answers whether the printer was found lost, which failed.
/// Halted comes only where the member was stopped, NoMemory only when out of memory: both only where lines were read.
pub(crate) fn print_text<P: Plant + Drop, C: Steady + Drop>(
    complex: &mut Complex<P, C>,
    alloc: Global,
    by: MemberId,
    output: &OutRec,
    last: u32,
    read: &Read,
) -> Result<bool, NodeNo>
    requires { MayPrint complex.old by (upto output.now last) read.now }
    ensures { Prints complex.old complex.new by (upto output.now last) read.now result }
{
    let Read::Lines(text) = read else {
        return Ok(false);
    };
    let first = output.mark.saturating_add(complex.printed_lines(by));
    for before in first..last {
        let Ok(line) = print_line(alloc, output.job, output.index, before + 1, text) else {
            return Err(NodeNo::NoMemory);
        };
        match complex.print(by, line.as_slice()) {
            Act::Done => {}
            Act::Failed => return Ok(true),
            Act::Halted => return Err(NodeNo::Halted),
        }
    }
    Ok(false)
}
