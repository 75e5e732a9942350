//! A deck on a plain queue, without its text's way over a volume.
ghost use Rattle.std.specs.Prelude.{IfOk};
ghost use Rattle.mas_types.specs.Fit.{AreLines};
ghost use Rattle.model_player.specs.Ends.{IsNamed};
ghost use Rattle.model_player.specs.Sounds.{AreSound};

use crate::acts::go_aside;
use crate::ends::{End, PlayError};
use crate::giving::{give, take_groups};
use crate::spools::Spool;
use card_reader::Deck;
use mas_types::{Command, Copied, JobNo, Lines, MemberId};
use model_queue::groups::groups_needed;
use std::alloc::Global;

// The text is written aside, and then the job is entered.
fn enter_text(
    alloc: Global,
    spool: &mut Spool,
    by: MemberId,
    job: JobNo,
    text: &Lines,
) -> Result<End, PlayError>
    requires { AreSound spool.old.queues }
    ensures sound { AreSound spool.new.queues }
    ensures named { IfOk result IsNamed }
{
    go_aside(alloc, spool, by)?;
    let text = text.copy(alloc)?;
    give(alloc, spool, by, Command::Enter { job, text })
}

/// How a deck's step ends: as its last command, or as that which had no groups. The errors are those of `give`.
pub fn enter(alloc: Global, spool: &mut Spool, by: MemberId, deck: &Deck) -> Result<End, PlayError>
    requires sound { AreSound spool.old.queues }
    requires lines { AreLines deck.now.text }
    ensures sound { AreSound spool.new.queues }
    ensures named { IfOk result IsNamed }
{
    let fields = deck.fields;
    let begun = give(alloc, spool, by, Command::Begin { fields })?;
    let End::Job(job) = begun else {
        return Ok(begun);
    };
    let Some(why) = take_groups(alloc, spool, by, groups_needed(&deck.text))? else {
        return enter_text(alloc, spool, by, job, &deck.text);
    };
    give(alloc, spool, by, Command::Drop { job })?;
    Ok(why)
}
