//! The lock of the checkpoint from step to step.
ghost use Rattle.std.specs.Prelude.{IfSome};
ghost use Rattle.script_laws.specs.Limits.{IsMember};
ghost use Rattle.model_player.specs.Ends.{IsNamed};

use crate::ends::End;
use crate::spools::Book;
use mas_types::MemberId;

/// Whether the member is stopped.
pub fn is_stopped(book: &Book, m: MemberId) -> bool
    requires { IsMember m }
{
    book.stopped[(m.0 - 1) as usize]
}

/// The member is stopped. It holds what it held.
pub fn stop(book: &mut Book, m: MemberId)
    requires { IsMember m }
{
    book.stopped[(m.0 - 1) as usize] = true;
}

/// The member has the lock, and all of a hold. No try is counted.
pub fn grant(book: &mut Book, by: MemberId)
    requires { IsMember by }
{
    book.holder = by;
    book.by_lock = false;
    book.left = book.hold;
}

/// A step's try of the lock: how the step closes where its member doesn't get it. Each try but that of the holder is
/// counted.
pub fn denied(book: &mut Book, by: MemberId) -> Option<End>
    requires { IsMember by }
    ensures { IfSome result IsNamed }
{
    if book.holder.0 == by.0 {
        return None;
    }
    book.tick = book.tick.saturating_add(1);
    if book.holder.0 != 0 {
        return Some(End::Busy(book.holder));
    }
    let wakes = book.wakes[(by.0 - 1) as usize];
    if book.tick < wakes {
        return Some(End::Dormant(wakes));
    }
    grant(book, by);
    None
}

/// At the end of its step the member gives the lock up, if it has it, unless LOCK took it and some of the hold is left.
/// It leaves the lock to others for a while.
pub fn end(book: &mut Book, by: MemberId)
    requires { IsMember by }
{
    if book.holder.0 != by.0 || (book.by_lock && book.left > 0) {
        return;
    }
    book.holder = MemberId(0);
    book.by_lock = false;
    book.wakes[(by.0 - 1) as usize] = book.tick.saturating_add(book.dormancy as u64);
}
