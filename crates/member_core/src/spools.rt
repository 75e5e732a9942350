//! Syncs of spool volumes, and printed lines.
ghost use Rattle.std.specs.Prelude.{◌≡◌, ◌<◌, ◌≤◌, ◌∷◌, [], ◌++◌, true, false, IfOk, IfNone, IfSome, OnOk, OnErr};
ghost use Rattle.mas_types.specs.Limits.{text_lines_most};
ghost use Rattle.mas_types.specs.Queue.{line_count, output_at, printing_at as printing_at_lem};
ghost use Rattle.mas_types.specs.Run.{run};
ghost use Rattle.mas_types.specs.Sound.{IsSound};
ghost use Rattle.member_core.specs.declared.worlds.Event.TheVariants as event;
ghost use Rattle.member_core.specs.Worlds.{flying, kept, member_in, on_member};
ghost use Rattle.member_core.specs.Events.{has_line, has_printed, is_idle as is_idle_lem, moved, next_line as next_line_lem, possible};
ghost use Rattle.paper_laws.specs.Paper.{busy_in};

use crate::people::{is_nil, is_up, printed_of};
use crate::stages::{is_away, is_ready};
use crate::worlds::{Inked, MemberAt, World};
use crate::writes::find_output;
use mas_types::{GroupNo, List, MemberId, NoMemory, Output, Queue};
use model_queue::outputs::{printing_at, total};
use model_queue::picking::{Picks, remove_each};

/// The groups of a spool volume.
#[derive(Clone, Copy)]
struct OfVolume {
    volume: u8,
    groups: u16,
}

impl Picks<GroupNo> for OfVolume {
    ghost use Rattle.std.specs.Prelude.{nat_le, nat_lt, ◌*◌, ◌-◌, ◌&&◌};

    ghost picks = { λ s g. nat_le ((s.volume - 1) * s.groups) g.0 && nat_lt g.0 (s.volume * s.groups) };

    fn picks(&self, item: &GroupNo) -> bool {
        let first = self.volume.saturating_sub(1) as u32 * self.groups as u32;
        let end = self.volume as u32 * self.groups as u32;
        first <= item.0 && item.0 < end
    }
}

/// A member syncs a spool volume, counted from 1. False where it isn't up.
pub fn spool_sync(world: &mut World, by: MemberId, volume: u8) -> bool
    ensures answer { result ≡ possible world.old (event.SpoolSync by volume) }
    ensures moves { world.new ≡ moved world.old (event.SpoolSync by volume) }
{
    if !is_up(&world.members, by) {
        return false;
    }
    let groups = world.base.config.groups;
    remove_each(&mut world.unsynced, &OfVolume { volume, groups });
    true
}

fn is_member_idle(member: &MemberAt) -> bool
    ensures { result ≡ is_idle_lem member.now }
{
    is_away(member.stage) || (is_ready(member.stage) && is_nil(&member.batch))
}

/// Whether the member is away, or has the lock and no batch. One that isn't there is away.
fn is_idle(members: &List<MemberAt>, m: MemberId) -> bool
    ensures { result ≡ is_idle_lem (member_in members.now m) }
{
    if m.0 as usize >= members.len() {
        return true;
    }
    is_member_idle(members.item(m.0 as usize))
}

fn is_busy_in(queue: &Queue, m: MemberId, output: &Output) -> bool
    ensures { result ≡ busy_in (output_at queue.now output.now.job output.now.index) m }
{
    match find_output(queue, output.job, output.index) {
        Some(found) => found.busy.0 == m.0,
        None => false,
    }
}

/// The line that the member prints next of an output that it prints, where the output is busy there in the other queue
/// too.
fn line_of(long: &Queue, by: MemberId, printed: u32, output: &Output) -> Option<Inked>
    requires { line_count output.now.text ≤ text_lines_most }
    ensures none { IfNone result (has_line long.now by printed (Some output.now) ≡ false) }
    ensures some { IfSome result (λ line. (has_line long.now by printed (Some output.now) ≡ true)
        × (next_line_lem printed (Some output.now) ≡ line ∷ [])) }
    ensures small { IfSome result (λ line. printed < 4294967295) }
{
    let total = total(output);
    if !is_busy_in(long, by, output) || output.mark as u64 + printed as u64 >= total as u64 {
        return None;
    }
    Some(Inked {
        job: output.job,
        index: output.index,
        line: output.mark + printed + 1,
    })
}

/// The line that the member prints next, by the queue without the batch in flight and the queue with it.
fn next_line(short: &Queue, long: &Queue, by: MemberId, printed: u32) -> Option<Inked>
    requires { IsSound short.now }
    ensures none { IfNone result (has_line long.now by printed (printing_at_lem short.now by) ≡ false) }
    ensures some { IfSome result (λ line. (has_line long.now by printed (printing_at_lem short.now by) ≡ true)
        × (next_line_lem printed (printing_at_lem short.now by) ≡ line ∷ [])) }
    ensures small { IfSome result (λ line. printed < 4294967295) }
{
    match printing_at(short, by) {
        Some(output) => line_of(long, by, printed, output),
        None => None,
    }
}

fn put_printed(members: &mut List<MemberAt>, m: MemberId)
    requires { (member_in members.old m).printed < 4294967295 }
    ensures { members.new ≡ on_member m has_printed members.old }
{
    let printed = printed_of(members, m) + 1;
    if (m.0 as usize) < members.len() {
        members.item_mut(m.0 as usize).printed = printed;
    }
}

/// A member prints the next line of its output, by the queue without the batch in flight and the queue with it. False
/// where it can't. Without memory the world stays.
pub fn print_line(
    world: &mut World,
    short: &Queue,
    long: &Queue,
    by: MemberId,
) -> Result<bool, NoMemory>
    requires short { short.now ≡ run world.old.base (kept world.old) }
    requires long { long.now ≡ run world.old.base (kept world.old ++ flying world.old) }
    requires sound { IsSound short.now }
    ensures answer { IfOk result (λ done. done ≡ possible world.old (event.PrintLine by)) }
    ensures moves { OnOk result (world.new ≡ moved world.old (event.PrintLine by)) }
    ensures stays { OnErr result (world.new ≡ world.old) }
{
    if !is_up(&world.members, by) || !is_idle(&world.members, by) {
        return Ok(false);
    }
    let printed = printed_of(&world.members, by);
    let Some(line) = next_line(short, long, by, printed) else {
        return Ok(false);
    };
    world.printed.push(line)?;
    put_printed(&mut world.members, by);
    Ok(true)
}
