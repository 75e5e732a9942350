//! Commands on a plain queue.
ghost use Rattle.std.specs.Prelude.{◌≡◌, ◌≤◌, length, IfOk, OnOk};
ghost use Rattle.mas_types.specs.Closings.{IsReplyNamed};
ghost use Rattle.mas_types.specs.Fit.{IsConfig};
ghost use Rattle.mas_types.specs.Limits.{routes_most};
ghost use Rattle.mas_types.specs.Step.{may_give as may_give_lem, step};
ghost use Rattle.model_player.specs.Sounds.{AreSound};

use crate::ends::PlayError;
use crate::spools::Queues;
use mas_types::{
    Command, Config, Copied, List, MemberId, NoMemory, Queue, Reply, Route, empty_queue,
};
use model_queue::conditions::is_member;
use model_queue::step_plain;
use queue_laws::fitness::is_fit;
use queue_laws::laws::{law_of_replies, law_of_sound_parts};
use std::alloc::Global;
use std::mem::replace;

/// The empty queue of a configuration, kept. NoMemory comes only when out of memory.
pub fn begun(alloc: Global, config: &Config, routes: &List<Route>) -> Result<Queues, NoMemory>
    requires config { IsConfig config.now }
    requires routes { length routes.now ≤ routes_most }
    ensures { IfOk result AreSound }
{
    let queue = empty_queue(alloc, config, routes)?;
    match empty_queue(alloc, config, routes) {
        Ok(kept) => Ok(Queues { queue, kept }),
        Err(no) => {
            drop(queue);
            Err(no)
        }
    }
}

// Whether the member may give the command: the operator a restart, and a member of the configuration any other.
fn may_give(queue: &Queue, by: MemberId, command: &Command) -> bool
    ensures { result ≡ may_give_lem queue.now by command.now }
{
    match command {
        Command::Restart => by.0 == 0,
        _ => is_member(&queue.config, by),
    }
}

/// The reply to a command: what the table of commands says. `Unplayed` comes where the command isn't within the limits,
/// or not the member's to give; NoMemory only when out of memory.
pub fn answer(
    alloc: Global,
    queues: &mut Queues,
    by: MemberId,
    command: &Command,
) -> Result<Reply, PlayError>
    requires { AreSound queues.old }
    ensures sound { AreSound queues.new }
    ensures ok { IfOk result (λ reply. step queues.old.queue by command.now ≡ (queues.new.queue, reply)) }
    ensures named { IfOk result IsReplyNamed }
{
    if !is_fit(command) {
        return Err(PlayError::Unplayed);
    }
    if !may_give(&queues.queue, by, command) {
        return Err(PlayError::Unplayed);
    }
    law_of_sound_parts();
    law_of_replies();
    Ok(step_plain(alloc, &mut queues.queue, by, command)?)
}

/// What all commands so far give is kept. NoMemory comes only when out of memory.
pub fn keep_all(alloc: Global, queues: &mut Queues) -> Result<(), NoMemory>
    requires { AreSound queues.old }
    ensures sound { AreSound queues.new }
    ensures kept { OnOk result (queues.new.kept ≡ queues.old.queue) }
{
    let copy = queues.queue.copy(alloc)?;
    drop(replace(&mut queues.kept, copy));
    Ok(())
}

/// What isn't kept is gone. NoMemory comes only when out of memory.
pub fn drop_batch(alloc: Global, queues: &mut Queues) -> Result<(), NoMemory>
    requires { AreSound queues.old }
    ensures sound { AreSound queues.new }
    ensures dropped { OnOk result (queues.new.queue ≡ queues.old.kept) }
{
    let copy = queues.kept.copy(alloc)?;
    drop(replace(&mut queues.queue, copy));
    Ok(())
}
