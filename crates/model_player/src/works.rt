//! Units of work on a plain queue. The next one is found by trying: the first in their order that applies.
ghost use Rattle.std.specs.Prelude.{IfOk, IfSome};
ghost use Rattle.script_laws.specs.Limits.{IsMember};
ghost use Rattle.model_player.specs.Ends.{IsNamed};
ghost use Rattle.model_player.specs.Sounds.{AreSound};

use crate::acts::{go_aside, print};
use crate::ends::{End, PlayError};
use crate::giving::{count, ended};
use crate::jobs::try_job;
use crate::kinds::Kind;
use crate::printing::{next_lines, try_output};
use crate::spools::Spool;
use mas_types::{Command, MemberId, Refusal};
use std::alloc::Global;

// A unit of one command; none where there is nothing to do, and then it is no command of the step.
fn try_command(
    alloc: Global,
    spool: &mut Spool,
    by: MemberId,
    command: Command,
) -> Result<Option<End>, PlayError>
    requires { AreSound spool.old.queues }
    ensures sound { AreSound spool.new.queues }
    ensures named { IfOk result (λ end. IfSome end IsNamed) }
{
    let end = ended(alloc, &mut spool.queues, by, command)?;
    if let End::Refused(Refusal::Nothing) = end {
        return Ok(None);
    }
    count(alloc, spool, by)?;
    Ok(Some(end))
}

// A unit of this kind; none where it doesn't apply.
fn try_unit(
    alloc: Global,
    spool: &mut Spool,
    by: MemberId,
    kind: Kind,
) -> Result<Option<End>, PlayError>
    requires { AreSound spool.old.queues }
    ensures sound { AreSound spool.new.queues }
    ensures named { IfOk result (λ end. IfSome end IsNamed) }
{
    match kind {
        Kind::Print => try_output(alloc, spool, by),
        Kind::Pick => try_command(alloc, spool, by, Command::Pick),
        Kind::Purge => try_command(alloc, spool, by, Command::Purge),
        Kind::Gather => try_command(alloc, spool, by, Command::Gather),
        Kind::Run => try_job(alloc, spool, by, true),
        Kind::Convert => try_job(alloc, spool, by, false),
        Kind::TakeExec => try_command(alloc, spool, by, Command::TakeExec),
        Kind::TakeConvert => try_command(alloc, spool, by, Command::TakeConvert),
    }
}

// The next unit: the first of these kinds that applies; none where none does.
fn try_next(alloc: Global, spool: &mut Spool, by: MemberId) -> Result<Option<End>, PlayError>
    requires { AreSound spool.old.queues }
    ensures sound { AreSound spool.new.queues }
    ensures named { IfOk result (λ end. IfSome end IsNamed) }
{
    let kinds = [
        Kind::Print,
        Kind::Pick,
        Kind::Purge,
        Kind::Gather,
        Kind::Run,
        Kind::Convert,
        Kind::TakeExec,
        Kind::TakeConvert,
    ];
    for kind in kinds.iter() {
        let end = try_unit(alloc, spool, by, *kind)?;
        if end.is_some() {
            return Ok(end);
        }
    }
    Ok(None)
}

// A unit: its lines are printed, then its commands are given; none where none applies. Before each but the first the
// member gives the lock up and has it again where nothing is left of a hold that LOCK didn't take.
fn try_printed(
    alloc: Global,
    spool: &mut Spool,
    by: MemberId,
    is_first: bool,
) -> Result<Option<End>, PlayError>
    requires sound { AreSound spool.old.queues }
    requires by { IsMember by }
    ensures sound { AreSound spool.new.queues }
    ensures named { IfOk result (λ end. IfSome end IsNamed) }
{
    if !is_first && spool.members.book.left == 0 && !spool.members.book.by_lock {
        go_aside(alloc, spool, by)?;
    }
    let lines = next_lines(alloc, &spool.queues, by)?;
    let printed = print(alloc, spool, by, &lines);
    drop(lines);
    printed?;
    try_next(alloc, spool, by)
}

/// How a step of work closes that does at most so many units. The errors are those of `give`.
pub fn work(alloc: Global, spool: &mut Spool, by: MemberId, units: u32) -> Result<End, PlayError>
    requires sound { AreSound spool.old.queues }
    requires by { IsMember by }
    ensures sound { AreSound spool.new.queues }
    ensures named { IfOk result IsNamed }
{
    for done in 0..units {
        let Some(end) = try_printed(alloc, spool, by, done == 0)? else {
            return Ok(End::Units(done));
        };
        if matches!(end, End::Refused(_) | End::NoText(_)) {
            return Ok(end);
        }
    }
    Ok(End::Units(units))
}
