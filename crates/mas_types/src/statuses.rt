//! What the program writes to standard error where it ends, and its exit code.
ghost use Rattle.std.specs.Prelude.{◌≡◌, ◌++◌, IfOk, OnOk};
ghost use Rattle.mas_types.specs.Statuses.{copy_word as copy_text, line_cause_word, status_code as code_of_status, status_line as line_of_status, status_text};

use crate::answers::{CopyState, LineCause, Status};
use crate::ids::NoMemory;
use crate::lists::List;
use crate::words::{push_device, push_text, push_with_number};
use std::alloc::Global;

/// The exit code of the program, 0 where every step has closed.
pub fn status_code(status: &Status) -> u8
    ensures { result ≡ code_of_status status.now }
{
    match status {
        Status::Done => 0,
        Status::Words => 1,
        Status::BadLine { .. } | Status::TooLong => 2,
        Status::SourceFault => 3,
        Status::NotFormatted { .. } => 4,
        Status::BothLost => 5,
        Status::ConsoleFault => 6,
        Status::DeviceSize { .. } => 7,
        Status::NoMemory => 8,
    }
}

/// The line on standard error, none where every step has closed.
pub fn status_line(alloc: Global, status: &Status) -> Result<Option<List<u8>>, NoMemory>
    ensures { IfOk result (λ line. line ≡ line_of_status status.now) }
{
    if let Status::Done = status {
        return Ok(None);
    }
    let mut line = List::new(alloc);
    push_text(&mut line, b"MAS ")?;
    push_status(&mut line, status)?;
    Ok(Some(line))
}

fn push_status(line: &mut List<u8>, status: &Status) -> Result<(), NoMemory>
    ensures { OnOk result (line.new ≡ line.old ++ status_text status.now) }
{
    match status {
        Status::Done => Ok(()),
        Status::Words => push_text(line, b"WORDS"),
        Status::BadLine { line: at, cause } => {
            push_with_number(line, b"LINE ", *at as u64)?;
            line.push(b' ')?;
            push_text(line, cause_word(*cause))
        }
        Status::TooLong => push_text(line, b"SCRIPT TOO LONG"),
        Status::SourceFault => push_text(line, b"SOURCE FAULT"),
        Status::NotFormatted { first, second } => {
            push_text(line, b"NOT FORMATTED ")?;
            push_text(line, copy_word(*first))?;
            line.push(b' ')?;
            push_text(line, copy_word(*second))
        }
        Status::BothLost => push_text(line, b"BOTH LOST"),
        Status::ConsoleFault => push_text(line, b"CONSOLE FAULT"),
        Status::DeviceSize { dev, size } => {
            push_text(line, b"DEVICE ")?;
            push_device(line, *dev)?;
            push_with_number(line, b" SIZE ", *size)
        }
        Status::NoMemory => push_text(line, b"NO MEMORY"),
    }
}

fn cause_word(cause: LineCause) -> &'static [u8]
    ensures { result.now ≡ line_cause_word cause }
{
    match cause {
        LineCause::Text => b"TEXT",
        LineCause::Late => b"LATE",
        LineCause::Warm => b"WARM",
        LineCause::Config => b"CONFIG",
        LineCause::Only => b"ONLY",
        LineCause::Member => b"MEMBER",
        LineCause::Race => b"RACE",
        LineCause::Verb => b"VERB",
        LineCause::Number => b"NUMBER",
        LineCause::Command => b"COMMAND",
        LineCause::End => b"END",
        LineCause::Steps => b"STEPS",
        LineCause::NotBuilt => b"NOTBUILT",
    }
}

fn copy_word(copy: CopyState) -> &'static [u8]
    ensures { result.now ≡ copy_text copy }
{
    match copy {
        CopyState::Lost => b"LOST",
        CopyState::Unread => b"UNREAD",
        CopyState::Unsound => b"UNSOUND",
    }
}
