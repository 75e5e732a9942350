//! Runs of events over a net.
ghost use Rattle.std.specs.Prelude.{◌≡◌, ◌<◌, true, length, IfOk};
ghost use Rattle.nje_net.specs.Nets.{is_net};
ghost use Rattle.nje_net.specs.Worlds.{start};
ghost use Rattle.nje_net.specs.Events.{runs as runs_lem};
ghost use Rattle.nje_net.specs.Lossless.{NoneIsLost, dests_entered};

use crate::events::net_step;
use crate::nets::Net;
use crate::worlds::{NetEvent, NetWorld};
use mas_types::{List, NoMemory};
use std::alloc::Global;

/// Plays the events in order, those skipped that aren't possible: what has then come of the net. Whatever they are,
/// each job has arrived at most once, at the node of the name that it was entered for, and until then some node holds
/// it. NoMemory comes only when out of memory.
pub fn no_net_loses(alloc: Global, net: &Net, events: &List<NetEvent>) -> Result<NetWorld, NoMemory>
    requires ok { is_net net.now ≡ true }
    requires few { length events.now < 4294967295 }
    ensures world { IfOk result (λ world. world ≡ runs_lem net.now (start net.now) events.now) }
    ensures none { IfOk result (NoneIsLost net.now (dests_entered net.now events.now)) }
{
    let mut world = NetWorld::new(alloc, net)?;
    for event in events.as_slice() {
        net_step(net, &mut world, event)?;
    }
    Ok(world)
}
