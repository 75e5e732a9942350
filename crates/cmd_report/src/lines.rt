//! The lines of a step.
ghost use Rattle.std.specs.Prelude.{◌≡◌, ◌≤◌, [], ◌∷◌, ◌++◌, IfOk, OnOk};
ghost use Rattle.mas_types.specs.Closings.{AreMembersNamed, closing_line as closing_line_lem, detail_line as detail_line_lem, detail_lines};
ghost use Rattle.mas_types.specs.Limits.{members_most};

use mas_types::words::{push_digits, push_member, push_text};
use mas_types::{Closing, Lines, List, MemberId, NoMemory, closing_line};
use std::alloc::Global;

/// The line with which a step closes: the member's name, the step in five digits, and how it closed. NoMemory comes
/// only when out of memory.
pub fn closing(alloc: Global, by: MemberId, step: u32, end: &Closing) -> Result<List<u8>, NoMemory>
    requires by { by.0 ≤ members_most }
    requires named { AreMembersNamed end.now }
    ensures { IfOk result (λ line. line ≡ closing_line_lem by step end.now) }
{
    closing_line(alloc, by, step, end)
}

/// The lines of a display as they are said: each with the member's name, the step in five digits and a hyphen before
/// it. NoMemory comes only when out of memory.
pub fn details(alloc: Global, by: MemberId, step: u32, shown: &Lines) -> Result<Lines, NoMemory>
    requires { by.0 ≤ members_most }
    ensures { IfOk result (λ lines. lines ≡ detail_lines by step shown.now) }
{
    let mut lines = Lines::new(alloc);
    for at in 0..shown.len() {
        push_detail(alloc, &mut lines, by, step, shown.line(at))?;
    }
    Ok(lines)
}

fn push_detail(
    alloc: Global,
    lines: &mut Lines,
    by: MemberId,
    step: u32,
    text: &[u8],
) -> Result<(), NoMemory>
    requires { by.0 ≤ members_most }
    ensures { OnOk result (lines.new ≡ lines.old ++ detail_line_lem by step text.now ∷ []) }
{
    let line = detail_line(alloc, by, step, text)?;
    lines.push(line.as_slice())
}

fn detail_line(alloc: Global, by: MemberId, step: u32, text: &[u8]) -> Result<List<u8>, NoMemory>
    requires { by.0 ≤ members_most }
    ensures { IfOk result (λ line. line ≡ detail_line_lem by step text.now) }
{
    let mut line = List::new(alloc);
    push_member(&mut line, by)?;
    line.push(b' ')?;
    push_digits(&mut line, 5, step as u64)?;
    push_text(&mut line, b" - ")?;
    push_text(&mut line, text)?;
    Ok(line)
}
