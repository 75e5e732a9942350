//! The parts of a sitting of a step of work, one after another.
ghost use Rattle.member_units.specs.Actions.{HasPlayed, MayPlay, to_do};

use crate::actions::{Action, action_after, waits_then};
use mas_complex::{Complex, Steady};
use member_giving::{close_step, give_part, keep_full, leave_step};
use member_node::{Member, NodeNo};
use member_sittings::SittingEnd;
use spool_plant::Plant;
use std::alloc::Global;
use step_turns::{Holder, State};

/// Plays a sitting from this action on: one part after another, until one waits for acts without the lock, the hold is
/// spent between two units, none applies, or one is refused.
pub(crate) fn play<P: Plant + Drop, C: Steady + Drop>(
    member: &mut Member,
    alloc: Global,
    complex: &mut Complex<P, C>,
    holder: Holder,
    action: Action,
) -> Result<SittingEnd, NodeNo>
    requires { MayPlay complex.old member.old holder action }
    ensures { HasPlayed (to_do holder action) complex.old member.old complex.new member.new result }
{
    let mut action = action;
    let mut given = 0;
    loop {
        match action {
            Action::Close(end) => return close_step(member, alloc, complex, holder, &end, given),
            Action::Wait(next) => return leave_step(member, alloc, complex, holder, next, given),
            Action::Give(part, then, progress) => {
                let before = member.batch.len();
                let end = give_part(member, alloc, complex, holder, part)?;
                given += (member.batch.len() - before) as u64;
                if let Some(aside) = waits_then(&end, then) {
                    return leave_step(member, alloc, complex, holder, State::Away(aside), given);
                }
                keep_full(member, alloc, complex, holder)?;
                action = action_after(member, complex, holder, end, progress, given);
            }
        }
    }
}
