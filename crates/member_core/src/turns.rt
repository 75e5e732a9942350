//! The lock, and a member's way to its own list.
ghost use Rattle.std.specs.Prelude.{◌≡◌, ◌&&◌, not, IfOk, OnOk, OnErr};
ghost use Rattle.mas_types.specs.Ids.{is_somebody as is_anybody, nobody as zero_member};
ghost use Rattle.member_core.specs.declared.worlds.Event.TheVariants as event;
ghost use Rattle.member_core.specs.Worlds.{is_away as at_away, member_in, on_member};
ghost use Rattle.member_core.specs.Events.{has_read, possible, moved};

use crate::batches::{fate_by, is_calm, is_past_kept, settle};
use crate::pair::{is_any_good, longest, make_sure, settle_at};
use crate::people::{
    copy_own, has_no_batch, is_marked_up, is_same, is_somebody, is_up, own_count, put_stage,
    stage_of,
};
use crate::stages::{is_away, is_locked, is_read1, is_read2};
use crate::worlds::{At, MemberAt, World};
use mas_types::{Entry, List, MemberId, NoMemory};
use std::alloc::Global;

/// Whether nobody holds the lock, and member 0 is away.
fn is_free(world: &World) -> bool
    ensures { result ≡ (not (is_anybody world.now.holder) && at_away (member_in world.now.members zero_member).stage) }
{
    !is_somebody(world.holder) && is_away(stage_of(&world.members, MemberId(0)))
}

/// A member takes the lock. False where it can't.
pub fn lock(world: &mut World, by: MemberId) -> bool
    ensures answer { result ≡ possible world.old (event.Lock by) }
    ensures moves { world.new ≡ moved world.old (event.Lock by) }
{
    if !is_up(&world.members, by) || !is_away(stage_of(&world.members, by)) || !is_free(world) {
        return false;
    }
    world.holder = by;
    put_stage(&mut world.members, by, At::Locked);
    true
}

/// A member that is away takes the lock of one that isn't up. False where it can't.
pub fn seize(world: &mut World, by: MemberId, of: MemberId) -> bool
    ensures answer { result ≡ possible world.old (event.Seize by of) }
    ensures moves { world.new ≡ moved world.old (event.Seize by of) }
{
    if !is_up(&world.members, by) || !is_away(stage_of(&world.members, by)) {
        return false;
    }
    if !is_somebody(of) || is_marked_up(&world.members, of) || !is_same(world.holder, of) {
        return false;
    }
    world.holder = by;
    put_stage(&mut world.members, by, At::Locked);
    true
}

/// The holder gives the lock back. False where it can't.
pub fn free(world: &mut World, by: MemberId) -> bool
    ensures answer { result ≡ possible world.old (event.Free by) }
    ensures moves { world.new ≡ moved world.old (event.Free by) }
{
    if !is_up(&world.members, by) || !is_same(world.holder, by) {
        return false;
    }
    if !has_no_batch(&world.members, by) || !is_calm(&world.journal.batches) {
        return false;
    }
    world.holder = MemberId(0);
    put_stage(&mut world.members, by, At::Away);
    true
}

/// The first read: each gate becomes sure. False where the member can't.
pub fn read_first(world: &mut World, by: MemberId) -> bool
    ensures answer { result ≡ possible world.old (event.FirstRead by) }
    ensures moves { world.new ≡ moved world.old (event.FirstRead by) }
{
    if !is_up(&world.members, by) || !is_locked(stage_of(&world.members, by)) {
        return false;
    }
    make_sure(&mut world.copies);
    put_stage(&mut world.members, by, At::Read1);
    true
}

fn put_read(members: &mut List<MemberAt>, m: MemberId, own: List<Entry>)
    ensures { members.new ≡ on_member m (has_read own) members.old }
{
    if (m.0 as usize) < members.len() {
        let member = members.item_mut(m.0 as usize);
        member.stage = At::Read2;
        member.own = own;
    }
}

/// The second read: the member has the longest list that a good copy reads. False where it can't. Without memory the
/// world stays.
pub fn read_second(alloc: Global, world: &mut World, by: MemberId) -> Result<bool, NoMemory>
    ensures answer { IfOk result (λ done. done ≡ possible world.old (event.SecondRead by)) }
    ensures moves { OnOk result (world.new ≡ moved world.old (event.SecondRead by)) }
    ensures stays { OnErr result (world.new ≡ world.old) }
{
    if !is_up(&world.members, by)
        || !is_read1(stage_of(&world.members, by))
        || !is_any_good(&world.copies)
    {
        return Ok(false);
    }
    let own = longest(alloc, &world.copies)?;
    put_read(&mut world.members, by, own);
    Ok(true)
}

/// The batch in flight gets its fate by what the member has read. False where it can't. Without memory the world stays.
pub fn primary(alloc: Global, world: &mut World, by: MemberId) -> Result<bool, NoMemory>
    ensures answer { IfOk result (λ done. done ≡ possible world.old (event.Primary by)) }
    ensures moves { OnOk result (world.new ≡ moved world.old (event.Primary by)) }
    ensures stays { OnErr result (world.new ≡ world.old) }
{
    if !is_up(&world.members, by) || !is_read2(stage_of(&world.members, by)) {
        return Ok(false);
    }
    let found = is_past_kept(&world.journal.batches, own_count(&world.members, by));
    let first = copy_own(alloc, &world.members, by)?;
    let second = copy_own(alloc, &world.members, by)?;
    settle(world.journal.batches.as_mut_slice(), fate_by(found));
    settle_at(&mut world.copies, 0, found, first);
    settle_at(&mut world.copies, 1, found, second);
    put_stage(&mut world.members, by, At::Ready);
    Ok(true)
}
