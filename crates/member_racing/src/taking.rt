//! The lock of a stopped member, taken over in the middle of another's line.
ghost use Rattle.std.specs.Prelude.{◌≡◌, ◌≤◌, IfOk, OnOk, length};
ghost use Rattle.mas_types.specs.declared.commands.Command.TheVariants as command;
ghost use Rattle.mas_types.specs.Fit.{IsConfig};
ghost use Rattle.mas_types.specs.Limits.{members_most, pages_most};
ghost use Rattle.mas_complex.specs.Parts.{parts_of};
ghost use Rattle.member_sittings.specs.Sat.{SitsOn, sat_in};
ghost use Rattle.member_sittings.specs.Whole.{IsGivable, MaySit};
ghost use Rattle.member_resets.specs.Plays.{played_in};
ghost use Rattle.member_racing.specs.Kinds.{GivesQuietly, TakesTurnOf};
ghost use Rattle.member_racing.specs.Opened.{IsBlankFor, IsKeptAnew, TakesBeside};
ghost use Rattle.member_racing.specs.Waits.{HasEase};
ghost use Rattle.member_resets.specs.Resetting.{IsAfterTakeover, MayTakeOver};

use mas_complex::{Complex, Steady};
use mas_types::{Command, Lines, MemberId, NoMemory};
use member_node::{Member, NodeNo};
use member_resets::{enter, leave, take_lock};
use member_sittings::{SittingEnd, end_sitting};
use queue_texts::law_of_texts;
use spool_plant::Plant;
use std::alloc::Global;
use step_turns::{Grant, Holder, Release, State};

// The sitting that resets a stopped member, and says nothing.
fn give_reset<P: Plant + Drop, C: Steady + Drop>(
    member: &mut Member,
    alloc: Global,
    complex: &mut Complex<P, C>,
    holder: Holder,
    of: MemberId,
) -> Result<SittingEnd, NodeNo>
    requires may { MaySit complex.old member.old holder }
    requires of { of.0 ≤ members_most }
    requires givable { IsGivable complex.old.base member.old.id (command.Reset of) }
    ensures frame { parts_of complex.new ≡ sat_in (parts_of complex.new) (parts_of complex.old) }
    ensures id { member.new.id ≡ member.old.id }
    ensures gave { GivesQuietly holder of complex.old complex.new result }
    ensures again { IfOk result (SitsOn complex.old complex.new member.old member.new holder.step) }
{
    complex.kept_texts();
    law_of_texts();
    let Ok(()) = member.do_command(alloc, holder.step, Command::Reset { of }) else {
        return Err(NodeNo::NoMemory);
    };
    let lines = Lines::new(alloc);
    end_sitting(member, alloc, complex, holder, State::Told, &lines)
}

/// Takes the lock of a stopped member over, finds out what became of a batch in flight, and resets that member, as the
/// next command of this one's line. The lock is given up then, and the line stands as it stood.
///
/// After an error the member holds the lock, and a batch in flight still is where nothing was found out of it.
pub(crate) fn take_and_reset<P: Plant + Drop, C: Steady + Drop>(
    member: &mut Member,
    alloc: Global,
    complex: &mut Complex<P, C>,
    step: u32,
    of: MemberId,
) -> Result<(), NodeNo>
    requires may { MayTakeOver complex.old member.old step of }
    ensures frame { parts_of complex.new ≡ played_in (parts_of complex.new) (parts_of complex.old) }
    ensures id { member.new.id ≡ member.old.id }
    ensures takes { TakesTurnOf member.old.id step of complex.old complex.new result }
    ensures next { OnOk result (IsAfterTakeover complex.old complex.new member.old member.new) }
{
    let by = member.id;
    take_lock(alloc, complex, by, of)?;
    let holder = Holder {
        by,
        step,
        hold: complex.hold_left(by),
        grant: Grant::ForStep,
    };
    enter(member, alloc, complex, holder)?;
    let end = give_reset(member, alloc, complex, holder, of)?;
    let end = SittingEnd {
        release: Release::Inner,
        ..end
    };
    leave(complex, by, &end);
    Ok(())
}

// Another copy of the member steps out of it, which has read nothing. What stays has the tables that it had, and reads
// all pages anew at its next sitting.
fn part_beside(member: &mut Member, alloc: Global) -> Result<Member, NoMemory>
    requires config { IsConfig member.old.checkpoint.tables.config }
    requires pages { length member.old.checkpoint.pages ≤ pages_most }
    ensures id { member.new.id ≡ member.old.id }
    ensures kept { OnOk result (IsKeptAnew member.old member.new) }
    ensures other { IfOk result (λ other. IsBlankFor member.old other) }
{
    let id = member.id;
    let blank = Member::new(alloc, id, &member.checkpoint.tables.config)?;
    let Member { checkpoint, .. } = std::mem::replace(member, blank);
    let anew = Member::with(alloc, id, checkpoint)?;
    let other = std::mem::replace(member, anew);
    Ok(other)
}

/// The same by another copy of the member, for a line that waits for acts: they go by the tables with which the member
/// left the lock, and it keeps these. It reads all pages anew at its next sitting.
///
/// Nothing is done where there is no memory for the copy.
pub(crate) fn take_beside<P: Plant + Drop, C: Steady + Drop>(
    member: &mut Member,
    alloc: Global,
    complex: &mut Complex<P, C>,
    step: u32,
    of: MemberId,
) -> Result<(), NodeNo>
    requires may { MayTakeOver complex.old member.old step of }
    ensures frame { parts_of complex.new ≡ played_in (parts_of complex.new) (parts_of complex.old) }
    ensures id { member.new.id ≡ member.old.id }
    ensures kept { OnOk result (member.new.checkpoint ≡ member.old.checkpoint) }
    ensures ease { OnOk result (HasEase complex.new member.new) }
    ensures takes { TakesBeside step of complex.old complex.new member.old member.new result }
{
    let Ok(mut other) = part_beside(member, alloc) else {
        return Err(NodeNo::NoMemory);
    };
    let taken = take_and_reset(&mut other, alloc, complex, step, of);
    drop(other);
    taken
}
