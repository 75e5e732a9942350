//! Lines that are said one after another.
ghost use Rattle.mas_tasks.specs.Saying.{Says};

use mas_types::{Lines, MemberId, Status};
use spool_plant::{Act, Plant};

/// The operator, who never halts.
const OPERATOR: MemberId = MemberId(0);

/// Says lines: Done where all of them stand on the console, and ConsoleFault at the first that can't be said.
pub(crate) fn say_lines<P: Plant>(plant: &mut P, lines: &Lines) -> Status
    ensures { Says P.tells lines.now (P.view plant.old) (P.view plant.new) result }
{
    for at in 0..lines.len() {
        match plant.say(OPERATOR, lines.line(at)) {
            Act::Done => {}
            Act::Failed | Act::Halted => return Status::ConsoleFault,
        }
    }
    Status::Done
}
