//! Commands of a member's step.
ghost use Rattle.std.specs.Prelude.{IfOk, IfSome};
ghost use Rattle.model_player.specs.Ends.{IsNamed};
ghost use Rattle.model_player.specs.Sounds.{AreSound};

use crate::acts::keep;
use crate::ends::{End, PlayError, end_of};
use crate::queues::answer;
use crate::spools::{Queues, Spool};
use mas_types::{Command, MemberId};
use std::alloc::Global;

// A batch of so many commands is kept at once.
const BATCH_MOST: u32 = 64;

/// How a command on the queue ends. The errors are those of `answer`.
pub fn ended(
    alloc: Global,
    queues: &mut Queues,
    by: MemberId,
    command: Command,
) -> Result<End, PlayError>
    requires { AreSound queues.old }
    ensures sound { AreSound queues.new }
    ensures named { IfOk result IsNamed }
{
    let answered = answer(alloc, queues, by, &command);
    drop(command);
    match answered {
        Ok(reply) => Ok(end_of(reply)),
        Err(no) => Err(no),
    }
}

/// A command of the member's step was given: it is one more of the batch, and spends one of the hold. The errors are
/// those of `keep`.
pub fn count(alloc: Global, spool: &mut Spool, by: MemberId) -> Result<(), PlayError>
    requires { AreSound spool.old.queues }
    ensures { AreSound spool.new.queues }
{
    spool.members.book.left = spool.members.book.left.saturating_sub(1);
    spool.given = spool.given.saturating_add(1);
    if spool.given >= BATCH_MOST {
        return keep(alloc, spool, by);
    }
    Ok(())
}

/// How a command of the member's step ends. The errors are those of `answer` and `keep`.
pub fn give(
    alloc: Global,
    spool: &mut Spool,
    by: MemberId,
    command: Command,
) -> Result<End, PlayError>
    requires { AreSound spool.old.queues }
    ensures sound { AreSound spool.new.queues }
    ensures named { IfOk result IsNamed }
{
    let end = ended(alloc, &mut spool.queues, by, command)?;
    count(alloc, spool, by)?;
    Ok(end)
}

/// Takes so many groups: how they weren't all taken, if so. The errors are those of `give`.
pub fn take_groups(
    alloc: Global,
    spool: &mut Spool,
    by: MemberId,
    want: u32,
) -> Result<Option<End>, PlayError>
    requires { AreSound spool.old.queues }
    ensures sound { AreSound spool.new.queues }
    ensures named { IfOk result (λ end. IfSome end IsNamed) }
{
    match give(alloc, spool, by, Command::Take { want })? {
        End::Count(count) if count >= want => Ok(None),
        End::Count(count) => {
            let want = want - count;
            Ok(Some(give(alloc, spool, by, Command::Take { want })?))
        }
        end => Ok(Some(end)),
    }
}
