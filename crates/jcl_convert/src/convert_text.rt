//! Converting the stored text of a job.
ghost use Rattle.std.specs.Prelude.{◌≡◌, ◌+◌, ◌-◌, ◌^◌, ◌<◌, min, None, Some, length, drop, slice_get, IfOk, IfErr, OnOk};
ghost use Rattle.jcl_convert.specs.declared.convert_text.JclNo.TheVariants.{NoMemory as no_memory};

use crate::dds::DdForm;
use crate::statements::{Line, kind_at, read_line};
use crate::{Dd, Program, Step};
use card_reader::cards::{Kind, ends_job, kind_of};
use card_reader::statements::further_at;
use mas_types::limits::{INDEX_MOST, JOB_STEPS_MOST};
use mas_types::{JclCause, JobFields, Lines, List, NoMemory};
use std::alloc::Global;

/// Why a text gave no steps.
#[derive(Clone, Copy, Debug)]
pub enum JclNo {
    /// The least card that is refused, counted from 1, and the first cause that applies to it.
    JclError { card: u32, cause: JclCause },
    /// Out of memory.
    NoMemory,
}

impl From<NoMemory> for JclNo {
    ghost from_gives = { λ _ no. no ≡ no_memory };

    fn from(_error: NoMemory) -> JclNo {
        JclNo::NoMemory
    }
}

/// A card that is refused, counted from 1, and why.
#[derive(Clone, Copy)]
pub struct Refused {
    /// Its number, from 1.
    pub card: usize,
    /// The first cause that applies to it.
    pub cause: JclCause,
}

/// The steps so far, and the number of DD statements with SYSOUT among theirs.
#[derive(Drop)]
pub struct Converted {
    /// The steps, in order.
    pub steps: List<Step>,
    /// The DD statements with SYSOUT among theirs, at most 32.
    pub sysouts: usize,
}

ghost use Rattle.card_reader.specs.Cards.{kind_of as kind_of_lem};
ghost use Rattle.jcl_convert.specs.Jcl.{data_of, is_sysout as is_sysout_lem, with_dd, exec_added, dd_refused as dd_refused_lem, dd_added, line_added, card_added, converted, Adds, Converts, Refuses};

// Adds a DD statement to the last step.
fn push_dd(steps: &mut List<Step>, dd: Dd) -> Result<(), NoMemory>
    requires { 0 < length steps.old }
    ensures { OnOk result (steps.new ≡ with_dd dd steps.old) }
{
    let last = steps.len() - 1;
    steps.item_mut(last).dds.push(dd)
}

// Adds an EXEC statement to a job, or says the cause that refuses it in its place.
fn add_exec(
    alloc: Global,
    job: &mut Converted,
    program: Program,
) -> Result<Option<JclCause>, NoMemory>
    ensures { IfOk result (λ refused. Adds refused (exec_added job.old program) job.new) }
{
    if job.steps.len() >= JOB_STEPS_MOST {
        return Ok(Some(JclCause::Many));
    }
    let dds = List::new(alloc);
    job.steps.push(Step { program, dds })?;
    Ok(None)
}

// The cause that refuses a DD statement in its place.
fn dd_refused(job: &Converted, is_sysout: bool) -> Option<JclCause>
    ensures { result ≡ dd_refused_lem job.now is_sysout }
{
    if job.steps.len() == 0 {
        return Some(JclCause::Place);
    }
    if is_sysout && job.sysouts >= INDEX_MOST as usize {
        return Some(JclCause::Many);
    }
    None
}

fn is_sysout(form: &DdForm) -> bool
    ensures { result ≡ is_sysout_lem form.now }
{
    matches!(form, DdForm::Sysout(_))
}

// Adds a DD statement to a job that does not refuse it.
fn add_dd(job: &mut Converted, dd: Dd, is_sysout: bool) -> Result<(), NoMemory>
    requires { dd_refused_lem job.old is_sysout ≡ None }
    ensures { OnOk result (job.new ≡ dd_added job.old dd is_sysout) }
{
    push_dd(&mut job.steps, dd)?;
    if is_sysout {
        job.sysouts += 1;
    }
    Ok(())
}

// Adds a statement to a job, or says the cause that refuses it in its place.
fn add_line(
    alloc: Global,
    job: &mut Converted,
    card: &[u8],
    text: &Lines,
    at: usize,
    line: Line,
) -> Result<Option<JclCause>, NoMemory>
    requires { slice_get text.now at ≡ Some card.now }
    ensures { IfOk result (λ refused.
        Adds refused (line_added job.old line (data_of card.now (drop (at + 1) text.now))) job.new) }
{
    match line {
        Line::Job => Ok(None),
        Line::Exec(program) => add_exec(alloc, job, program),
        Line::Dd(name, form) => {
            let is_sysout = is_sysout(&form);
            if let Some(cause) = dd_refused(job, is_sysout) {
                return Ok(Some(cause));
            }
            let kind = kind_at(alloc, card, text, at, form)?;
            add_dd(job, Dd { name, kind }, is_sysout)?;
            Ok(None)
        }
    }
}

// The card at a place, which is read by itself: the cause that refuses it.
fn add_card(
    alloc: Global,
    fields: &JobFields,
    job: &mut Converted,
    card: &[u8],
    text: &Lines,
    at: usize,
) -> Result<Option<JclCause>, NoMemory>
    requires { slice_get text.now at ≡ Some card.now }
    ensures { IfOk result (λ refused.
        Adds refused (card_added fields.now job.old card.now (drop (at + 1) text.now) (kind_of_lem card.now)) job.new) }
{
    match kind_of(card) {
        Kind::Stray => Ok(Some(JclCause::Stray)),
        Kind::Statement => match read_line(alloc, fields, card, text, at)? {
            Ok(line) => add_line(alloc, job, card, text, at, line),
            Err(cause) => Ok(Some(cause)),
        },
        _ => Ok(None),
    }
}

// The number of the card at a place, at most the greatest of 32 bits.
fn card_number(at: usize) -> u32
    ensures { result ≡ min (at + 1) (2 ^ 32 - 1) }
{
    if at >= u32::MAX as usize {
        return u32::MAX;
    }
    (at + 1) as u32
}

/// Converts the stored text of a job with these fields to its steps.
///
/// `JclError` exactly where a statement of the text is outside the grammar, at the first card of the least such
/// statement, by the first cause that applies to it: Name, Operation, Proc, Pgm, Dsn, Operand, Stray, Place, Many. A
/// text without an EXEC statement has no steps. NoMemory comes only when out of memory.
pub fn convert(alloc: Global, fields: &JobFields, text: &Lines) -> Result<List<Step>, JclNo>
    ensures steps { IfOk result (Converts (converted fields.now text.now)) }
    ensures refused { IfErr result (Refuses (converted fields.now text.now)) }
{
    let mut job = Converted {
        steps: List::new(alloc),
        sysouts: 0,
    };
    let mut at = 0;
    while at < text.len() {
        let card = text.line(at);
        if let Some(cause) = add_card(alloc, fields, &mut job, card, text, at)? {
            let card = card_number(at);
            return Err(JclNo::JclError { card, cause });
        }
        if ends_job(card) {
            return Ok(job.steps);
        }
        at += 1 + further_at(alloc, text, at)?;
    }
    Ok(job.steps)
}
