//! Frames handled one after another, within a sitting.
ghost use Rattle.std.specs.Prelude.{◌≡◌, ◌+◌, ◌*◌, ◌≤◌, [], IfOk};
ghost use Rattle.step_turns.specs.Laws.{units_left};
ghost use Rattle.member_giving.specs.Plays.{to_play, wrote_of};
ghost use Rattle.member_giving.specs.Ready.{HasFewer};
ghost use Rattle.member_giving.specs.Works.{HasRoom, SitsIn, Works, outside, place_of, queue_here, run_of};
ghost use Rattle.member_frames.specs.Nexts.{IsNoBegin, IsServableNext, frames_in, turn_by};
ghost use Rattle.member_frames.specs.Plays.{ServesLine};
ghost use Rattle.member_frames.specs.Waits.{WaitsOnLine};

use crate::nexts::{Next, counted, next_of};
use mas_complex::{Complex, Steady};
use mas_types::{Closing, Command};
use member_giving::{Part, close_step, give_part, keep_full, leave_step};
use member_node::{Member, NodeNo};
use member_sittings::SittingEnd;
use spool_plant::Plant;
use std::alloc::Global;
use step_turns::{Aside, Holder, State};

/// Handles what follows, and then one frame after another, until a job is to be acknowledged again, one begins, or no
/// frame is left. A job that begins waits for the next sitting.
pub(crate) fn serve<P: Plant + Drop, C: Steady + Drop>(
    member: &mut Member,
    alloc: Global,
    complex: &mut Complex<P, C>,
    holder: Holder,
    first: Next,
) -> Result<SittingEnd, NodeNo>
    requires works { Works complex.old member.old holder }
    requires nothing { member.old.batch ≡ [] }
    requires first { IsNoBegin first }
    requires servable { IsServableNext first }
    requires room { HasRoom complex.old member.old (frames_in first + 2) }
    ensures run { run_of complex.new member.new ≡ run_of complex.old member.old }
    ensures serves { ServesLine P.tells (2 * frames_in first + 1)
        (to_play holder 0 (wrote_of [] (turn_by holder.by holder.step first (queue_here complex.old member.old) 0)))
        (place_of complex.old member.old) (outside complex.new) result }
    ensures again { IfOk result (λ e. SitsIn e.next complex.new member.new holder.step) }
    ensures waits { IfOk result (λ e. WaitsOnLine P.tells member.new e.next) }
    ensures fewer { IfOk result (λ e. HasFewer (2 * frames_in first + 1) (2 * frames_in first) e.next) }
    ensures reached { IfOk result (λ e. complex.new.level + units_left e.next
        ≤ complex.old.level + 2 * frames_in first + 1) }
{
    let mut next = first;
    let mut given: u64 = 0;
    'frames: loop {
        match next {
            Next::Begin(service) => {
                let waits = State::Away(Aside::Acknowledge {
                    number: None,
                    service,
                });
                return leave_step(member, alloc, complex, holder, waits, given);
            }
            Next::Again(number, service) => {
                let waits = State::Away(Aside::Acknowledge {
                    number: Some(number),
                    service,
                });
                return leave_step(member, alloc, complex, holder, waits, given);
            }
            Next::End(service) => {
                let end = Closing::Line(service.sent, service.got);
                return close_step(member, alloc, complex, holder, &end, given);
            }
            Next::Send(number, service) => {
                let line = service.line;
                let part = Part::One(Command::Sent { line, number });
                let end = give_part(member, alloc, complex, holder, part)?;
                keep_full(member, alloc, complex, holder)?;
                next = next_of(&member.checkpoint.tables, counted(service, end));
                given += 1;
            }
        }
    }
}
