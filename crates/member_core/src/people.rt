//! The members of a world: who is up, and in which stage each is.
ghost use Rattle.std.specs.Prelude.{◌≡◌, ◌<◌, ◌&&◌, not, length, IfOk};
ghost use Rattle.mas_types.specs.Ids.{is_somebody as is_anybody, same_member};
ghost use Rattle.member_core.specs.Worlds.{acts_in, is_nil as is_empty_list, is_up_in, member_in, on_member, to_stage};

use crate::worlds::{At, MemberAt};
use mas_types::{Copied, Entry, List, MemberId, NoMemory};
use std::alloc::Global;

/// Whether two numbers are one member's.
pub fn is_same(a: MemberId, b: MemberId) -> bool
    ensures { result ≡ same_member a b }
{
    a.0 == b.0
}

/// Whether it is a member from 1 on.
pub fn is_somebody(m: MemberId) -> bool
    ensures { result ≡ is_anybody m }
{
    m.0 != 0
}

/// Whether there are no entries.
pub fn is_nil(entries: &List<Entry>) -> bool
    ensures { result ≡ is_empty_list entries.now }
{
    entries.len() == 0
}

/// Whether it is one of the members from 1 on that is up.
pub fn is_up(members: &List<MemberAt>, m: MemberId) -> bool
    ensures { result ≡ is_up_in members.now m }
{
    is_somebody(m) && is_marked_up(members, m)
}

/// Whether the member is there and marked as up.
pub fn is_marked_up(members: &List<MemberAt>, m: MemberId) -> bool
    ensures { result ≡ (member_in members.now m).up }
{
    if m.0 as usize >= members.len() {
        return false;
    }
    members.item(m.0 as usize).up
}

/// Whether the member is up, or is member 0.
pub fn acts(members: &List<MemberAt>, m: MemberId) -> bool
    ensures { result ≡ acts_in members.now m }
{
    !is_somebody(m) || is_marked_up(members, m)
}

/// The member's stage. One that isn't there is away.
pub fn stage_of(members: &List<MemberAt>, m: MemberId) -> At
    ensures { result ≡ (member_in members.now m).stage }
{
    if m.0 as usize >= members.len() {
        return At::Away;
    }
    members.item(m.0 as usize).stage
}

/// Whether the member has no batch.
pub fn has_no_batch(members: &List<MemberAt>, m: MemberId) -> bool
    ensures { result ≡ is_empty_list (member_in members.now m).batch }
{
    if m.0 as usize >= members.len() {
        return true;
    }
    is_nil(&members.item(m.0 as usize).batch)
}

/// A member goes into a stage.
pub fn put_stage(members: &mut List<MemberAt>, m: MemberId, stage: At)
    ensures { members.new ≡ on_member m (to_stage stage) members.old }
{
    if (m.0 as usize) < members.len() {
        members.item_mut(m.0 as usize).stage = stage;
    }
}

/// How many entries the member's own list has.
pub fn own_count(members: &List<MemberAt>, m: MemberId) -> usize
    ensures { result ≡ length (member_in members.now m).own }
{
    if m.0 as usize >= members.len() {
        return 0;
    }
    members.item(m.0 as usize).own.len()
}

/// A copy of the member's own list. NoMemory comes only when out of memory.
pub fn copy_own(
    alloc: Global,
    members: &List<MemberAt>,
    m: MemberId,
) -> Result<List<Entry>, NoMemory>
    ensures { IfOk result (λ own. own ≡ (member_in members.now m).own) }
{
    if m.0 as usize >= members.len() {
        return Ok(List::new(alloc));
    }
    members.item(m.0 as usize).own.copy(alloc)
}

/// A copy of the member's batch. NoMemory comes only when out of memory.
pub fn copy_batch(
    alloc: Global,
    members: &List<MemberAt>,
    m: MemberId,
) -> Result<List<Entry>, NoMemory>
    ensures { IfOk result (λ entries. entries ≡ (member_in members.now m).batch) }
{
    if m.0 as usize >= members.len() {
        return Ok(List::new(alloc));
    }
    members.item(m.0 as usize).batch.copy(alloc)
}

/// The member's present step.
pub fn step_of(members: &List<MemberAt>, m: MemberId) -> u32
    ensures { result ≡ (member_in members.now m).step }
{
    if m.0 as usize >= members.len() {
        return 0;
    }
    members.item(m.0 as usize).step
}

/// How many lines the member printed since its last Pick, Mark, Back or Forward.
pub fn printed_of(members: &List<MemberAt>, m: MemberId) -> u32
    ensures { result ≡ (member_in members.now m).printed }
{
    if m.0 as usize >= members.len() {
        return 0;
    }
    members.item(m.0 as usize).printed
}
