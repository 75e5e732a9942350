//! What a member tells, what it writes on the spool, and the loss of a copy.
ghost use Rattle.std.specs.Prelude.{◌≡◌, ◌&&◌, ◌<◌, not, OnOk, OnErr, IfOk};
ghost use Rattle.std.specs.List.{list_any};
ghost use Rattle.mas_types.specs.declared.ids.Dev.TheVariants as dev;
ghost use Rattle.mas_types.specs.Run.{run};
ghost use Rattle.mas_types.specs.Owners.{is_members as is_members_group};
ghost use Rattle.member_core.specs.declared.worlds.Event.TheVariants as event;
ghost use Rattle.member_core.specs.Worlds.{is_of as is_entry_of, is_ready as at_ready, member_at, member_in, on_member, kept, flying};
ghost use Rattle.member_core.specs.Events.{has_begun as begun, is_members_at as members_at, next_step, possible, moved};
ghost use Rattle.std.specs.Prelude.{◌++◌};

use crate::batches::{has_entry_of, has_kept, has_unkept};
use crate::pair::{is_good, lose_first, lose_second};
use crate::people::{is_same, is_up, step_of};
use crate::stages::is_ready;
use crate::worlds::{MemberAt, Said, World};
use mas_types::{Dev, GroupNo, List, MemberId, NoMemory, Owner, Queue};

fn has_begun_of(member: &MemberAt, m: MemberId) -> bool
    ensures { result ≡ begun m member.now }
{
    is_ready(member.stage) && has_entry_of(&member.batch, m, member.step)
}

/// Whether the member has a batch ready with an entry of its present step.
fn has_begun(members: &List<MemberAt>, m: MemberId) -> bool
    ensures { result ≡ begun m (member_in members.now m) }
{
    if m.0 as usize >= members.len() {
        return false;
    }
    has_begun_of(members.item(m.0 as usize), m)
}

fn put_next_step(members: &mut List<MemberAt>, m: MemberId)
    requires { (member_in members.old m).step < 4294967295 }
    ensures { members.new ≡ on_member m next_step members.old }
{
    let step = step_of(members, m) + 1;
    if (m.0 as usize) < members.len() {
        members.item_mut(m.0 as usize).step = step;
    }
}

/// A member tells its step. False where it can't. Without memory the world stays.
pub fn tell(world: &mut World, by: MemberId) -> Result<bool, NoMemory>
    requires { (member_at world.old by).step < 4294967295 }
    ensures answer { IfOk result (λ done. done ≡ possible world.old (event.Tell by)) }
    ensures moves { OnOk result (world.new ≡ moved world.old (event.Tell by)) }
    ensures stays { OnErr result (world.new ≡ world.old) }
{
    let step = step_of(&world.members, by);
    if !is_up(&world.members, by) || !has_kept(&world.journal.batches, by, step) {
        return Ok(false);
    }
    if has_unkept(&world.journal.batches, by, step) || has_begun(&world.members, by) {
        return Ok(false);
    }
    world.told.push(Said { by, step })?;
    put_next_step(&mut world.members, by);
    Ok(true)
}

fn is_members(owner: Owner, m: MemberId) -> bool
    ensures { result ≡ is_members_group m owner }
{
    match owner {
        Owner::Member(holder) => is_same(holder, m),
        _ => false,
    }
}

fn is_members_at(queue: &Queue, m: MemberId, group: GroupNo) -> bool
    ensures { result ≡ members_at queue.now m group }
{
    if group.0 as usize >= queue.owners.len() {
        return false;
    }
    is_members(*queue.owners.item(group.0 as usize), m)
}

/// A member writes a group that is its own, with the batch in flight and without it. False where it can't. Without
/// memory the world stays.
pub fn spool_write(
    world: &mut World,
    short: &Queue,
    long: &Queue,
    by: MemberId,
    group: GroupNo,
) -> Result<bool, NoMemory>
    requires short { short.now ≡ run world.old.base (kept world.old) }
    requires long { long.now ≡ run world.old.base (kept world.old ++ flying world.old) }
    ensures answer { IfOk result (λ done. done ≡ possible world.old (event.SpoolWrite by group)) }
    ensures moves { OnOk result (world.new ≡ moved world.old (event.SpoolWrite by group)) }
    ensures stays { OnErr result (world.new ≡ world.old) }
{
    if !is_up(&world.members, by)
        || !is_members_at(short, by, group)
        || !is_members_at(long, by, group)
    {
        return Ok(false);
    }
    world.unsynced.push(group)?;
    Ok(true)
}

/// A copy is lost. False where it isn't good.
pub fn lose(world: &mut World, copy: Dev) -> bool
    ensures answer { result ≡ possible world.old (event.Lose copy) }
    ensures moves { world.new ≡ moved world.old (event.Lose copy) }
{
    match copy {
        Dev::Ckpt1 => lose_copy1(world),
        Dev::Ckpt2 => lose_copy2(world),
        Dev::Spool(_) => false,
    }
}

fn lose_copy1(world: &mut World) -> bool
    ensures answer { result ≡ possible world.old (event.Lose dev.Ckpt1) }
    ensures moves { world.new ≡ moved world.old (event.Lose dev.Ckpt1) }
{
    if !is_good(&world.copies, 0) {
        return false;
    }
    lose_first(&mut world.copies);
    true
}

fn lose_copy2(world: &mut World) -> bool
    ensures answer { result ≡ possible world.old (event.Lose dev.Ckpt2) }
    ensures moves { world.new ≡ moved world.old (event.Lose dev.Ckpt2) }
{
    if !is_good(&world.copies, 1) {
        return false;
    }
    lose_second(&mut world.copies);
    true
}
