//! What a unit gives at once.
ghost use Rattle.std.specs.Prelude.{◌+◌, ◌*◌, ◌<◌, ◌^◌, IfOk};
ghost use Rattle.member_giving.specs.Names.{IsNamedEnd};
ghost use Rattle.member_giving.specs.Parts.{GavePart, IsOwnPart, MayGive, PartStands, commands_most, gives_part, to_give};
ghost use Rattle.member_giving.specs.Works.{HasRoom, Works};
ghost use Rattle.member_work.specs.Giving.{CanGive, GivesAs};

use crate::giving::give_up;
use job_outcome::{UnitEnd, law_of_ended_texts};
use mas_complex::{Complex, Steady};
use mas_types::{Closing, Command, JobNo, List, NoMemory, OutSpec};
use member_node::{Member, NodeNo};
use member_work::{give_back, give_command, give_or_drop, take_for_end};
use queue_texts::law_of_texts;
use spool_plant::Plant;
use std::alloc::Global;
use step_turns::Holder;

/// What a unit gives at once.
#[derive(Drop)]
pub enum Part {
    /// This command, which brings no text.
    One(Command),
    /// Take of so many groups for a job's outputs; after a refused Take the member's groups become free.
    Groups(u32),
    /// The end of a job whose outputs stand in the member's groups, unless it was cancelled; after a refused one the
    /// groups become free.
    Ended(JobNo, List<OutSpec>),
    /// Drop of the member's groups, since this volume is lost.
    Lost(u8),
}

// Does the commands of a part on the member's tables; answers how a unit ends with them. NoMemory leaves those that
// were done before.
fn do_part(member: &mut Member, alloc: Global, step: u32, part: Part) -> Result<UnitEnd, NoMemory>
    requires can { CanGive member.old }
    requires order { member.old.checkpoint.tables.order + 32 * commands_most part < 2 ^ 63 }
    requires own { IsOwnPart member.old part }
    ensures does { GivesAs (gives_part step member.old.id part)
        (λ Q. PartStands member.old.checkpoint.tables Q member.old.id part) member.old member.new result }
    ensures named { IfOk result IsNamedEnd }
{
    law_of_texts();
    law_of_ended_texts();
    match part {
        Part::One(command) => give_command(member, alloc, step, command),
        Part::Groups(needed) => take_for_end(member, alloc, step, needed),
        Part::Ended(job, outputs) => {
            let command = Command::Ended { job, outputs };
            give_or_drop(member, alloc, step, command)
        }
        Part::Lost(volume) => {
            let end = UnitEnd::Refused(Closing::SpoolLost(volume));
            give_back(member, alloc, step, end)
        }
    }
}

/// Gives a part of a unit. What is more than one command is given only where nothing is unwritten.
/// It answers whether the part is done or refused. NoMemory comes when out of memory, and what was given before is kept
/// then, if there is memory for that; BothLost and Halted come as [`give_up`] answers them.
pub fn give_part<P: Plant + Drop, C: Steady + Drop>(
    member: &mut Member,
    alloc: Global,
    complex: &mut Complex<P, C>,
    holder: Holder,
    part: Part,
) -> Result<UnitEnd, NodeNo>
    requires works { Works complex.old member.old holder }
    requires room { HasRoom complex.old member.old 1 }
    requires may { MayGive complex.old member.old part }
    ensures { GavePart (to_give holder part) complex.old member.old complex.new member.new result }
{
    complex.kept_texts();
    let Ok(end) = do_part(member, alloc, holder.step, part) else {
        return Err(give_up(member, alloc, complex, holder));
    };
    Ok(end)
}
