//! The sittings of a step of work, from each state of the step.
ghost use Rattle.std.specs.Prelude.{◌+◌, ◌≤◌, ◌<◌};
ghost use Rattle.member_units.specs.Names.{IsSound, too_high, aside_done, aside_units, Rested, begins, resumes, MaySit, MayResume};
ghost use Rattle.member_units.specs.Actions.{HasWorked};

use crate::actions::{action_from, action_of};
use crate::units::play;
use mas_complex::{Complex, Steady};
use member_node::{Member, NodeNo};
use member_sittings::SittingEnd;
use spool_plant::Plant;
use std::alloc::Global;
use step_turns::{Aside, Found, Holder, Progress};

/// A sitting of a step of work that is at its beginning, or whose hold was spent between two units: so many units are
/// done, and so many may still be played. They are played one after another, from the printer's on, until one waits for
/// acts without the lock, the hold is spent between two units, none applies, or one is refused. What they give is kept
/// in batches, as soon as one is full and at the sitting's end; then the step's line is said where it closes. The
/// member holds the lock and has read the copies. No text is read or written here, and no line is printed.
///
/// NoMemory leaves the first ones of the sitting's batches, or all of them, and of the next one perhaps what was done
/// of it. BothLost and Halted perhaps leave one in flight after them. ConsoleFault comes once all are kept, at the
/// line. After any of the four errors the member can't go on.
pub fn sit_work<P: Plant + Drop, C: Steady + Drop>(
    member: &mut Member,
    alloc: Global,
    complex: &mut Complex<P, C>,
    holder: Holder,
    progress: Progress,
) -> Result<SittingEnd, NodeNo>
    requires sits { MaySit complex.old member.old holder }
    requires base_sound { P.tells → IsSound complex.old.base }
    requires level { complex.old.level + progress.left + 3 < too_high }
    requires units { progress.done + progress.left ≤ 9999 }
    ensures { HasWorked (begins holder (Rested progress)) complex.old member.old complex.new member.new result }
{
    let action = action_of(member, complex, holder, progress);
    play(member, alloc, complex, holder, action)
}

/// A sitting of a step of work after acts for which a unit waited, by what was found in them: the job is converted or
/// ends, or the lines are marked, or the unit is refused; and further units follow as in `sit_work`. A job that ends
/// with outputs waits once more, until their texts stand in the groups that are taken for them. Its errors are those of
/// `sit_work`.
pub fn resume_work<P: Plant + Drop, C: Steady + Drop>(
    member: &mut Member,
    alloc: Global,
    complex: &mut Complex<P, C>,
    holder: Holder,
    aside: Aside,
    found: Found,
) -> Result<SittingEnd, NodeNo>
    requires sits { MaySit complex.old member.old holder }
    requires base_sound { P.tells → IsSound complex.old.base }
    requires may { MayResume complex.old member.old.id aside found }
    requires level { complex.old.level + aside_units aside + 3 < too_high }
    requires units { aside_done aside + aside_units aside ≤ 9999 }
    ensures { HasWorked (resumes holder aside found) complex.old member.old complex.new member.new result }
{
    let Ok(action) = action_from(member, alloc, complex, holder, aside, &found) else {
        return Err(NodeNo::NoMemory);
    };
    play(member, alloc, complex, holder, action)
}
