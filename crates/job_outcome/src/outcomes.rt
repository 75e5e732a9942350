//! What becomes of a job whose text was read.
ghost use Rattle.std.specs.Prelude.{◌≡◌, IfOk};
ghost use Rattle.mas_types.specs.Fit.{AreLines, IsJobFields};
ghost use Rattle.mas_types.specs.Printed.{jcl_cause_word as jcl_cause_word_lem, jcl_error_line};
ghost use Rattle.job_outcome.specs.Outcomes.{AreFitOutputs, IsReadable, IsNamedOutcome, outcome_of as outcome_of_lem, outcome_of_text as outcome_of_text_lem};

use deck_laws::law_of_limits;
use jcl_convert::{JclNo, convert};
use job_exec::{listing, run_steps};
use mas_types::words::{push_decimal, push_text};
use mas_types::{Closing, GroupNo, JclCause, JobFields, Lines, List, NoMemory, OutSpec};
use std::alloc::Global;

/// What the spool volumes give of a job's text.
#[derive(Drop)]
pub enum Read {
    /// All its lines.
    Lines(Lines),
    /// It is gone: its first group that lay on a lost volume when the run began, or that holds no records.
    Gone(GroupNo),
    /// This volume is lost, on which one of its groups lies.
    Lost(u8),
}

/// What becomes of a job whose text was read.
#[derive(Drop)]
pub enum Outcome {
    /// It is converted, and goes on to execution.
    Convert,
    /// It ends with these outputs.
    End(List<OutSpec>),
    /// The unit is refused, and the step closes so.
    Stop(Closing),
}

fn jcl_cause_word(cause: JclCause) -> &'static [u8]
    ensures { result.now ≡ jcl_cause_word_lem cause }
{
    match cause {
        JclCause::Name => b"NAME",
        JclCause::Operation => b"OPERATION",
        JclCause::Proc => b"PROC",
        JclCause::Pgm => b"PGM",
        JclCause::Dsn => b"DSN",
        JclCause::Operand => b"OPERAND",
        JclCause::Stray => b"STRAY",
        JclCause::Place => b"PLACE",
        JclCause::Many => b"MANY",
    }
}

// The line of a JCL error at a card.
fn error_line(alloc: Global, card: u32, cause: JclCause) -> Result<List<u8>, NoMemory>
    ensures { IfOk result (λ line. line ≡ jcl_error_line card cause) }
{
    let mut line = List::new(alloc);
    push_text(&mut line, b"JCL ERROR CARD ")?;
    push_decimal(&mut line, card as u64)?;
    push_text(&mut line, b" ")?;
    push_text(&mut line, jcl_cause_word(cause))?;
    Ok(line)
}

// What becomes of a job with this text, which is run, or else converted.
fn outcome_of_text(
    alloc: Global,
    runs: bool,
    fields: &JobFields,
    text: &Lines,
) -> Result<Outcome, NoMemory>
    requires fields { IsJobFields fields.now }
    requires text { AreLines text.now }
    ensures outcome { IfOk result (λ outcome. outcome ≡ outcome_of_text_lem runs fields.now text.now) }
    ensures fits { IfOk result AreFitOutputs }
{
    law_of_limits();
    let steps = match convert(alloc, fields, text) {
        Ok(steps) => steps,
        Err(JclNo::JclError { card, cause }) => {
            let line = error_line(alloc, card, cause)?;
            return Ok(Outcome::End(listing(alloc, fields, line.as_slice())?));
        }
        Err(JclNo::NoMemory) => return Err(NoMemory),
    };
    if fields.scan {
        return Ok(Outcome::End(listing(alloc, fields, b"NO ERROR")?));
    }
    if runs {
        return Ok(Outcome::End(run_steps(alloc, &steps)?.outputs));
    }
    Ok(Outcome::Convert)
}

/// What becomes of a job with these fields, which is run, or else converted: with its text it ends with its outputs,
/// those of its steps or what is listed of an error or a scan, or it is converted; without it the unit is refused. The
/// outputs are within the limits. NoMemory comes only when out of memory.
pub fn outcome_of(
    alloc: Global,
    runs: bool,
    fields: &JobFields,
    read: &Read,
) -> Result<Outcome, NoMemory>
    requires fields { IsJobFields fields.now }
    requires text { IsReadable read.now }
    ensures outcome { IfOk result (λ outcome. outcome ≡ outcome_of_lem runs fields.now read.now) }
    ensures fits { IfOk result AreFitOutputs }
    ensures named { IfOk result IsNamedOutcome }
{
    match read {
        Read::Lines(text) => outcome_of_text(alloc, runs, fields, text),
        Read::Gone(group) => Ok(Outcome::Stop(Closing::NoText(*group))),
        Read::Lost(volume) => Ok(Outcome::Stop(Closing::SpoolLost(*volume))),
    }
}
