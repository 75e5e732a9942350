//! Acts of members. A stop that is armed halts a member at one of them. A batch of commands is kept by two acts: halted
//! at the first, none of its commands is kept, and at the second, all are. A line is said or printed by one act; halted
//! at it, the first half of its bytes is. A member that gets the lock for a step reads the queue by one act, and the
//! text of lines that it prints by another: these leave nothing. Devices have more acts than these; what they may leave
//! at them is here.
ghost use Rattle.script_laws.specs.Limits.{IsMember};
ghost use Rattle.model_player.specs.Sounds.{AreSound};

use crate::ends::PlayError;
use crate::queues::keep_all;
use crate::spools::{Arm, Members, Spool};
use mas_types::{Lines, List, MemberId};
use spool_plant::Fuse;
use std::alloc::Global;

// Each armed stop counts this act of the member. Whether it halts there.
fn halts(arms: &mut List<Arm>, by: MemberId, act: Fuse) -> bool {
    let mut halted = false;
    for arm in arms.as_mut_slice().iter_mut() {
        if arm.member.0 == by.0 && (matches!(arm.fuse, Fuse::Any) || matches!(act, Fuse::Print)) {
            halted = halted || arm.left == 1;
            arm.left = arm.left.saturating_sub(1);
        }
    }
    halted
}

// The line, or the first half of it where the member halts at it.
fn written(line: &[u8], halted: bool) -> &[u8] {
    if halted {
        &line[..line.len() / 2]
    } else {
        line
    }
}

/// The member writes these lines, each by one act. `Halted` where the member halts; NoMemory only when out of memory.
pub fn write(
    to: &mut Lines,
    arms: &mut List<Arm>,
    by: MemberId,
    act: Fuse,
    lines: &Lines,
) -> Result<(), PlayError> {
    for at in 0..lines.len() {
        let halted = halts(arms, by, act);
        to.push(written(lines.line(at), halted))?;
        if halted {
            return Err(PlayError::Halted);
        }
    }
    Ok(())
}

/// An act of the member that leaves nothing. `Halted` where the member halts.
pub fn act(members: &mut Members, by: MemberId) -> Result<(), PlayError> {
    if halts(&mut members.arms, by, Fuse::Any) {
        Err(PlayError::Halted)
    } else {
        Ok(())
    }
}

/// The batch of the member is kept, if it has a command. `Halted` where the member halts; NoMemory only when out of
/// memory.
pub fn keep(alloc: Global, spool: &mut Spool, by: MemberId) -> Result<(), PlayError>
    requires { AreSound spool.old.queues }
    ensures { AreSound spool.new.queues }
{
    if spool.given == 0 {
        return Ok(());
    }
    act(&mut spool.members, by)?;
    keep_all(alloc, &mut spool.queues)?;
    spool.given = 0;
    act(&mut spool.members, by)
}

/// Before acts aside the batch is kept. Unless LOCK took it, the lock is then given up, and had again after them. The
/// errors are those of `keep`.
pub fn go_aside(alloc: Global, spool: &mut Spool, by: MemberId) -> Result<(), PlayError>
    requires { AreSound spool.old.queues }
    ensures { AreSound spool.new.queues }
{
    keep(alloc, spool, by)?;
    let book = &mut spool.members.book;
    if !book.by_lock {
        book.left = book.hold;
    }
    Ok(())
}

// The member's printer prints these lines. Nobody holds the lock meanwhile, unless LOCK took it.
fn print_aside(members: &mut Members, by: MemberId, lines: &Lines) -> Result<(), PlayError>
    requires { IsMember by }
{
    if !members.book.by_lock {
        members.book.holder = MemberId(0);
    }
    act(members, by)?;
    let place = (by.0 - 1) as usize;
    if place < members.papers.len() {
        let paper = members.papers.item_mut(place);
        write(paper, &mut members.arms, by, Fuse::Print, lines)?;
    }
    members.book.holder = by;
    Ok(())
}

/// The member's printer prints these lines aside. The errors are those of `keep`.
pub fn print(alloc: Global, spool: &mut Spool, by: MemberId, lines: &Lines) -> Result<(), PlayError>
    requires sound { AreSound spool.old.queues }
    requires by { IsMember by }
    ensures { AreSound spool.new.queues }
{
    if lines.len() == 0 {
        return Ok(());
    }
    go_aside(alloc, spool, by)?;
    print_aside(&mut spool.members, by, lines)
}
