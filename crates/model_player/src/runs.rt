//! Runs of scripts.
ghost use Rattle.std.specs.Prelude.{IfOk};
ghost use Rattle.script_laws.specs.Limits.{IsScript};
ghost use Rattle.model_player.specs.Sounds.{AreSound};

use crate::ends::PlayError;
use crate::giving::ended;
use crate::playing::play_step;
use crate::queues::{begun, keep_all};
use crate::spools::{Book, Members, Spool};
use mas_types::{Command, Lines, List, MEMBERS_MOST, MemberId, NoMemory};
use script_lang::Script;
use std::alloc::Global;

// Eight papers on which nothing stands.
fn blank_papers(alloc: Global) -> Result<List<Lines>, NoMemory> {
    let mut papers = List::new(alloc);
    for _ in 0..MEMBERS_MOST {
        papers.push(Lines::new(alloc))?;
    }
    Ok(papers)
}

/// A run that begins with an empty queue. NoMemory comes only when out of memory.
pub fn started(alloc: Global, script: &Script) -> Result<Spool, NoMemory>
    requires { IsScript script.now }
    ensures { IfOk result (λ spool. AreSound spool.queues) }
{
    let papers = blank_papers(alloc)?;
    let queues = begun(alloc, &script.config, &script.routes)?;
    Ok(Spool {
        queues,
        given: 0,
        members: Members {
            book: Book::new(script.config.hold, script.config.dormancy),
            arms: List::new(alloc),
            papers,
            console: Lines::new(alloc),
        },
    })
}

/// The run begins anew with the queue and the paper that it left, all members reset. The errors are those of `answer`.
pub fn restart(alloc: Global, spool: &mut Spool) -> Result<(), PlayError>
    requires { AreSound spool.old.queues }
    ensures { AreSound spool.new.queues }
{
    ended(alloc, &mut spool.queues, MemberId(0), Command::Restart)?;
    keep_all(alloc, &mut spool.queues)?;
    spool.given = 0;
    spool.members.book = Book::new(spool.members.book.hold, spool.members.book.dormancy);
    spool.members.arms = List::new(alloc);
    spool.members.console = Lines::new(alloc);
    Ok(())
}

/// Plays the steps of a script one after another, numbered from 1. The errors are those of `play_step`.
pub fn play(alloc: Global, spool: &mut Spool, script: &Script) -> Result<(), PlayError>
    requires { AreSound spool.old.queues }
    ensures { AreSound spool.new.queues }
{
    let mut number: u32 = 0;
    for step in script.steps.as_slice() {
        number = number.saturating_add(1);
        play_step(alloc, spool, number, step)?;
    }
    Ok(())
}
