//! All the lines with which a step closes.
ghost use Rattle.std.specs.Prelude.{◌≡◌, ◌≤◌, ◌∷◌, [], IfOk};
ghost use Rattle.mas_types.specs.Closings.{AreMembersNamed, IsReplyNamed, closing_line, details_of, reply_lines as reply_lines_lem};
ghost use Rattle.mas_types.specs.Limits.{members_most};

use crate::lines::{closing, details};
use mas_types::{Closing, Copied, Lines, MemberId, NoMemory, Reply};
use std::alloc::Global;

// The lines of a display.
fn detail_lines(alloc: Global, by: MemberId, step: u32, reply: &Reply) -> Result<Lines, NoMemory>
    requires { by.0 ≤ members_most }
    ensures { IfOk result (λ lines. lines ≡ details_of by step reply.now) }
{
    match reply {
        Reply::Shown(shown) => details(alloc, by, step, shown),
        _ => Ok(Lines::new(alloc)),
    }
}

/// The lines of a step that closes with this reply: those of a display, and behind them the closing line. NoMemory
/// comes only when out of memory.
pub fn reply_lines(alloc: Global, by: MemberId, step: u32, reply: &Reply) -> Result<Lines, NoMemory>
    requires by { by.0 ≤ members_most }
    requires named { IsReplyNamed reply.now }
    ensures { IfOk result (λ lines. lines ≡ reply_lines_lem by step reply.now) }
{
    let mut lines = detail_lines(alloc, by, step, reply)?;
    let end = Closing::Reply(reply.copy(alloc)?);
    let line = closing(alloc, by, step, &end)?;
    lines.push(line.as_slice())?;
    Ok(lines)
}

/// The one line of a step that closes so, and has no display. NoMemory comes only when out of memory.
pub fn one_line(alloc: Global, by: MemberId, step: u32, end: &Closing) -> Result<Lines, NoMemory>
    requires by { by.0 ≤ members_most }
    requires named { AreMembersNamed end.now }
    ensures { IfOk result (λ lines. lines ≡ closing_line by step end.now ∷ []) }
{
    let line = closing(alloc, by, step, end)?;
    let mut lines = Lines::new(alloc);
    lines.push(line.as_slice())?;
    Ok(lines)
}
