//! How a sitting ends: what isn't written is kept, and a line is said where the step closes.
ghost use Rattle.std.specs.Prelude.{◌∷◌, []};
ghost use Rattle.member_giving.specs.Kept.{HasClosed, HasLeft};
ghost use Rattle.member_giving.specs.Names.{AreMembersNamed, closing_line, leaves, says};
ghost use Rattle.member_giving.specs.Plays.{to_play, wrote_of};
ghost use Rattle.member_giving.specs.Works.{HasRoom, Works};

use crate::giving::{give_up, keep};
use cmd_report::one_line;
use mas_complex::{Complex, Steady};
use mas_types::Closing;
use member_asides::{SittingEnd, release_of};
use member_node::{Member, NodeNo};
use member_steps::tell_lines;
use spool_plant::Plant;
use std::alloc::Global;
use step_turns::{Holder, State};

/// Ends a sitting in which so many commands were given, and its step, which closes so: what isn't written is kept, and
/// then the line is said. All memory for the line is taken before. BothLost, Halted and NoMemory come as [`keep`] says;
/// Halted also where the member was stopped at the line, and ConsoleFault where the console failed at it.
pub fn close_step<P: Plant + Drop, C: Steady + Drop>(
    member: &mut Member,
    alloc: Global,
    complex: &mut Complex<P, C>,
    holder: Holder,
    end: &Closing,
    given: u64,
) -> Result<SittingEnd, NodeNo>
    requires works { Works complex.old member.old holder }
    requires room { HasRoom complex.old member.old 1 }
    requires named { AreMembersNamed end.now }
    ensures { HasClosed
        (to_play holder given (wrote_of member.old.batch (says (closing_line holder.by holder.step end.now ∷ []))))
        complex.old member.old complex.new member.new result }
{
    let Ok(lines) = one_line(alloc, holder.by, holder.step, end) else {
        return Err(give_up(member, alloc, complex, holder));
    };
    keep(member, alloc, complex, holder)?;
    tell_lines(member, complex, &lines)?;
    let next = State::Told;
    let release = release_of(holder, given, &next);
    Ok(SittingEnd {
        next,
        given,
        release,
    })
}

/// Ends a sitting in which so many commands were given, in this state of its step: nothing is said. The errors are
/// those of [`keep`].
pub fn leave_step<P: Plant + Drop, C: Steady + Drop>(
    member: &mut Member,
    alloc: Global,
    complex: &mut Complex<P, C>,
    holder: Holder,
    next: State,
    given: u64,
) -> Result<SittingEnd, NodeNo>
    requires works { Works complex.old member.old holder }
    requires room { HasRoom complex.old member.old 1 }
    ensures { HasLeft (to_play holder given (wrote_of member.old.batch (leaves next))) complex.old member.old
        complex.new member.new result }
{
    keep(member, alloc, complex, holder)?;
    let release = release_of(holder, given, &next);
    Ok(SittingEnd {
        next,
        given,
        release,
    })
}
