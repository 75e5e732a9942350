//! The line of a check.
ghost use Rattle.std.specs.Prelude.{◌≡◌, ◌++◌, IfOk, OnOk};
ghost use Rattle.mas_types.specs.Statuses.{fault_word as fault_word_lem, verdict_line};
ghost use Rattle.mas_check.specs.Checks.{line_of};

use crate::checking::CheckNo;
use mas_types::words::{push_decimal, push_text};
use mas_types::{FaultKind, List, NoMemory, Verdict};
use std::alloc::Global;

fn fault_word(kind: FaultKind) -> &'static [u8]
    ensures { result.now ≡ fault_word_lem kind }
{
    match kind {
        FaultKind::Page => b"PAGE",
        FaultKind::Number => b"NUMBER",
        FaultKind::Owner => b"OWNER",
        FaultKind::Place => b"PLACE",
        FaultKind::Text => b"TEXT",
    }
}

fn push_verdict(line: &mut List<u8>, verdict: &Verdict) -> Result<(), NoMemory>
    ensures { OnOk result (line.new ≡ line.old ++ verdict_line verdict.now) }
{
    match verdict {
        Verdict::Sound => push_text(line, b"SOUND"),
        Verdict::Fault(kind, place) => {
            push_text(line, b"FAULT ")?;
            push_text(line, fault_word(*kind))?;
            line.push(b' ')?;
            push_decimal(line, *place as u64)
        }
    }
}

/// The line that says what a check answered: `SOUND`, `FAULT` with the kind and the place, or `SPOOL LOST` with the
/// volume. NoMemory comes when out of memory, here or in the check.
pub fn check_line(alloc: Global, answer: &Result<Verdict, CheckNo>) -> Result<List<u8>, NoMemory>
    ensures { IfOk result (λ line. line_of answer.now ≡ Some line) }
{
    let mut line = List::new(alloc);
    match answer {
        Ok(verdict) => push_verdict(&mut line, verdict)?,
        Err(CheckNo::SpoolLost(volume)) => {
            push_text(&mut line, b"SPOOL LOST ")?;
            push_decimal(&mut line, *volume as u64)?;
        }
        Err(CheckNo::NoMemory) => return Err(NoMemory),
    }
    Ok(line)
}
