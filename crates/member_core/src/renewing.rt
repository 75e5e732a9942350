//! A copy that isn't good is written anew.
ghost use Rattle.std.specs.Prelude.{◌≡◌, IfOk, OnOk, OnErr};
ghost use Rattle.mas_types.specs.declared.ids.Dev.TheVariants as dev;
ghost use Rattle.member_core.specs.declared.worlds.Event.TheVariants as event;
ghost use Rattle.member_core.specs.Events.{is_at_rest as at_rest, possible, moved};

use crate::batches::kept_entries;
use crate::pair::{is_good, renew_first, renew_second};
use crate::people::{has_no_batch, is_up, stage_of};
use crate::stages::is_ready;
use crate::worlds::World;
use mas_types::{Dev, MemberId, NoMemory};
use std::alloc::Global;

/// Whether the member may give commands and has given none.
fn is_at_rest(world: &World, m: MemberId) -> bool
    ensures { result ≡ at_rest world.now m }
{
    is_up(&world.members, m)
        && is_ready(stage_of(&world.members, m))
        && has_no_batch(&world.members, m)
}

fn renew_copy1(alloc: Global, world: &mut World, by: MemberId) -> Result<bool, NoMemory>
    ensures answer { IfOk result (λ done. done ≡ possible world.old (event.Renew by dev.Ckpt1)) }
    ensures moves { OnOk result (world.new ≡ moved world.old (event.Renew by dev.Ckpt1)) }
    ensures stays { OnErr result (world.new ≡ world.old) }
{
    if !is_at_rest(world, by) || is_good(&world.copies, 0) || !is_good(&world.copies, 1) {
        return Ok(false);
    }
    let kept = kept_entries(alloc, &world.journal.batches)?;
    renew_first(&mut world.copies, kept);
    Ok(true)
}

fn renew_copy2(alloc: Global, world: &mut World, by: MemberId) -> Result<bool, NoMemory>
    ensures answer { IfOk result (λ done. done ≡ possible world.old (event.Renew by dev.Ckpt2)) }
    ensures moves { OnOk result (world.new ≡ moved world.old (event.Renew by dev.Ckpt2)) }
    ensures stays { OnErr result (world.new ≡ world.old) }
{
    if !is_at_rest(world, by) || !is_good(&world.copies, 0) || is_good(&world.copies, 1) {
        return Ok(false);
    }
    let kept = kept_entries(alloc, &world.journal.batches)?;
    renew_second(&mut world.copies, kept);
    Ok(true)
}

/// A member writes a copy anew that isn't good, while the other one is. False where it can't. Without memory the world
/// stays.
pub fn renew(alloc: Global, world: &mut World, by: MemberId, copy: Dev) -> Result<bool, NoMemory>
    ensures answer { IfOk result (λ done. done ≡ possible world.old (event.Renew by copy)) }
    ensures moves { OnOk result (world.new ≡ moved world.old (event.Renew by copy)) }
    ensures stays { OnErr result (world.new ≡ world.old) }
{
    match copy {
        Dev::Ckpt1 => renew_copy1(alloc, world, by),
        Dev::Ckpt2 => renew_copy2(alloc, world, by),
        Dev::Spool(_) => Ok(false),
    }
}
