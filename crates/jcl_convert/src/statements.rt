//! What each statement of a job says, and its data.
ghost use Rattle.std.specs.Prelude.{◌≡◌, ◌+◌, ◌-◌, ◌^◌, ◌≤◌, ◌<◌, ◌∷◌, Some, length, take, drop, slice_get, IfOk};

use crate::dds::{DdForm, read_dd};
use crate::execs::read_exec;
use crate::{DdKind, Program};
use card_reader::cards::{Operation, is_statement_name, name_of, operation_of};
use card_reader::read_name8;
use card_reader::statements::{Operands, data_from, ending_of, operands_at};
use mas_types::{JclCause, JobFields, Lines, Name8, NoMemory};
use std::alloc::Global;

/// What a statement says to the converter.
#[derive(Clone, Copy)]
pub enum Line {
    /// The JOB statement, which the card reader read.
    Job,
    /// An EXEC statement with this program.
    Exec(Program),
    /// A DD statement with this name and form.
    Dd(Name8, DdForm),
}

ghost use Rattle.card_reader.specs.Cards.{name_of as name_of_lem};
ghost use Rattle.card_reader.specs.Statements.{operands_from};
ghost use Rattle.jcl_convert.specs.Jcl.{dd_name_of, exec_line_of, dd_line_of, has_bad_name as has_bad_name_lem, line_of, data_of, kind_with};

// The operands of the statement at a place.
fn operands_of(alloc: Global, card: &[u8], text: &Lines, at: usize) -> Result<Operands, NoMemory>
    requires { slice_get text.now at ≡ Some card.now }
    ensures value { IfOk result (λ found. found ≡ operands_from (card.now ∷ drop (at + 1) text.now)) }
    ensures within { IfOk result (λ found. at + 1 + found.cards ≤ length text.now) }
    ensures fits { IfOk result (λ found. at + 1 + found.cards < 2 ^ 64) }
{
    operands_at(alloc, text, at)
}

// The name on a DD statement.
fn read_dd_name(name: &[u8]) -> Option<Name8>
    ensures { result ≡ dd_name_of name.now }
{
    if is_statement_name(name) {
        read_name8(name)
    } else {
        None
    }
}

// A name that is there, and is none.
fn has_bad_name(card: &[u8]) -> bool
    ensures { result ≡ has_bad_name_lem (name_of_lem card.now) }
{
    let name = name_of(card);
    !name.is_empty() && !is_statement_name(name)
}

fn read_exec_line(operands: &Operands) -> Result<Line, JclCause>
    ensures { result ≡ exec_line_of operands.now }
{
    match read_exec(operands) {
        Ok(program) => Ok(Line::Exec(program)),
        Err(cause) => Err(cause),
    }
}

fn read_dd_line(fields: &JobFields, card: &[u8], operands: &Operands) -> Result<Line, JclCause>
    ensures { result ≡ dd_line_of fields.now (name_of_lem card.now) operands.now }
{
    let Some(name) = read_dd_name(name_of(card)) else {
        return Err(JclCause::Name);
    };
    match read_dd(fields, operands) {
        Ok(form) => Ok(Line::Dd(name, form)),
        Err(cause) => Err(cause),
    }
}

/// A statement, or the first cause that refuses it as such.
pub(crate) fn read_line(
    alloc: Global,
    fields: &JobFields,
    card: &[u8],
    text: &Lines,
    at: usize,
) -> Result<Result<Line, JclCause>, NoMemory>
    requires { slice_get text.now at ≡ Some card.now }
    ensures { IfOk result (λ line. line ≡ line_of fields.now card.now (drop (at + 1) text.now)) }
{
    let operands = operands_of(alloc, card, text, at)?;
    Ok(match operation_of(card) {
        Operation::Job => Ok(Line::Job),
        Operation::Dd => read_dd_line(fields, card, &operands),
        Operation::Exec if !has_bad_name(card) => read_exec_line(&operands),
        Operation::Other if !has_bad_name(card) => Err(JclCause::Operation),
        _ => Err(JclCause::Name),
    })
}

// The lines from one place up to another.
fn part_of(alloc: Global, text: &Lines, from: usize, end: usize) -> Result<Lines, NoMemory>
    requires order { from ≤ end }
    requires within { end ≤ length text.now }
    ensures { IfOk result (λ part. part ≡ take (end - from) (drop from text.now)) }
{
    let mut part = Lines::new(alloc);
    let mut rest = text.lines_from(from);
    for _at in from..end {
        if let Some(line) = rest.next() {
            part.push(line)?;
        }
    }
    Ok(part)
}

// The cards of data behind the DD statement at a place.
fn data_at(alloc: Global, card: &[u8], text: &Lines, at: usize) -> Result<Lines, NoMemory>
    requires { slice_get text.now at ≡ Some card.now }
    ensures { IfOk result (λ lines. lines ≡ data_of card.now (drop (at + 1) text.now)) }
{
    let operands = operands_of(alloc, card, text, at)?;
    let ending = ending_of(operation_of(card), operands.text.as_slice());
    let from = at + 1 + operands.cards;
    let found = data_from(text, from, ending);
    part_of(alloc, text, from, from + found.cards)
}

/// What the DD statement at a place stands for.
pub(crate) fn kind_at(
    alloc: Global,
    card: &[u8],
    text: &Lines,
    at: usize,
    form: DdForm,
) -> Result<DdKind, NoMemory>
    requires { slice_get text.now at ≡ Some card.now }
    ensures { IfOk result (λ kind. kind ≡ kind_with form (data_of card.now (drop (at + 1) text.now))) }
{
    Ok(match form {
        DdForm::Dummy => DdKind::Dummy,
        DdForm::InStream => DdKind::Cards(data_at(alloc, card, text, at)?),
        DdForm::Sysout(sysout) => DdKind::Sysout {
            class: sysout.class,
            dest: sysout.dest,
            forms: sysout.forms,
            copies: sysout.copies,
            held: sysout.held,
        },
    })
}
