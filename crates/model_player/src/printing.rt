//! The output that is busy at a member's printer, on a plain queue.
ghost use Rattle.std.specs.Prelude.{◌≤◌, length, IfOk, IfSome};
ghost use Rattle.mas_types.specs.Limits.{text_lines_most};
ghost use Rattle.mas_types.specs.Queue.{line_count};
ghost use Rattle.model_player.specs.Ends.{IsNamed};
ghost use Rattle.model_player.specs.Sounds.{AreSound};

use crate::ends::{End, PlayError};
use crate::giving::give;
use crate::spools::{Queues, Spool};
use mas_types::{Command, GroupNo, Lines, MemberId, NoMemory, Output, Queue, Text};
use model_queue::outputs::{printing_at, setting_of, total};
use printer_proc::{forward, print_line};
use std::alloc::Global;

// The lines that the member's printer prints at a time.
fn limit_of(queue: &Queue, by: MemberId) -> u32 {
    match setting_of(queue, by) {
        Some(setting) => setting.lines as u32,
        None => 0,
    }
}

// Mark up to the last line that is printed next, or Done where all are printed; else the first group that is gone.
fn next_command(output: &Output, limit: u32) -> Result<Command, GroupNo>
    requires { line_count output.now.text ≤ text_lines_most }
{
    let (job, index) = (output.job, output.index);
    let all = total(output);
    if output.mark >= all {
        return Ok(Command::Done { job, index });
    }
    match &output.text {
        Text::Gone(group, _) => Err(*group),
        Text::Whole(_) => Ok(Command::Mark {
            job,
            index,
            at: forward(output.mark, limit, all),
        }),
    }
}

/// The output that is busy at the member is marked up to the last line that is printed next, or is done; none where
/// there is none. The errors are those of `give`.
pub fn try_output(alloc: Global, spool: &mut Spool, by: MemberId) -> Result<Option<End>, PlayError>
    requires { AreSound spool.old.queues }
    ensures sound { AreSound spool.new.queues }
    ensures named { IfOk result (λ end. IfSome end IsNamed) }
{
    let Some(output) = printing_at(&spool.queues.queue, by) else {
        return Ok(None);
    };
    match next_command(output, limit_of(&spool.queues.queue, by)) {
        Ok(command) => Ok(Some(give(alloc, spool, by, command)?)),
        Err(group) => Ok(Some(End::NoText(group))),
    }
}

// The lines of an output behind its mark, as they are printed: so many, but none above the total.
fn lines_behind(alloc: Global, output: &Output, limit: u32, text: &Lines) -> Result<Lines, NoMemory>
    requires few { line_count output.now.text ≤ text_lines_most }
    requires some { 1 ≤ length text.now }
{
    let mut lines = Lines::new(alloc);
    let last = forward(output.mark, limit, total(output));
    for before in output.mark..last {
        let line = print_line(alloc, output.job, output.index, before + 1, text)?;
        lines.push(line.as_slice())?;
    }
    Ok(lines)
}

/// The lines that the member's printer prints next: none where no output is busy at the member, or its text is gone.
/// NoMemory comes only when out of memory.
pub fn next_lines(alloc: Global, queues: &Queues, by: MemberId) -> Result<Lines, NoMemory>
    requires { AreSound queues.now }
{
    let Some(output) = printing_at(&queues.queue, by) else {
        return Ok(Lines::new(alloc));
    };
    let Text::Whole(text) = &output.text else {
        return Ok(Lines::new(alloc));
    };
    lines_behind(alloc, output, limit_of(&queues.queue, by), text)
}
