//! The operands of a JOB statement.
ghost use Rattle.std.specs.Prelude.{◌≡◌, false, [], length, MatchOption};

use crate::jes::read_prio;
use crate::operands::{cut_operand, is_balanced, is_keyword};
use crate::statements::Operands;
use mas_types::{Class, Prio, read_class};

/// What the operands of a JOB statement say.
#[derive(Clone, Copy)]
pub struct JobOperands {
    /// `CLASS=`, else A.
    pub class: Class,
    /// `MSGCLASS=`, else A.
    pub msgclass: Class,
    /// `PRTY=`, 0 to 15, else 5.
    pub prio: Prio,
    /// `TYPRUN=HOLD` stood there.
    pub held: bool,
    /// `TYPRUN=SCAN` stood there.
    pub scan: bool,
    /// The positional operands so far.
    pub positional: u8,
    /// A keyword stood already.
    pub keyed: bool,
}

ghost use Rattle.card_reader.specs.Operands.{parts_in};
ghost use Rattle.card_reader.specs.Jobs.{class_of, class_taken, msgclass_taken, prio_taken, typrun_taken, is_passed_over as is_passed_over_lem, keyword_taken, other_keyword_taken, positional_taken, operand_taken, operands_taken, default_operands as default_operands_lem, job_operands_of};

fn read_class_value(value: &[u8]) -> Option<Class>
    ensures { result ≡ class_of value.now }
{
    match value {
        [byte] => read_class(*byte).ok(),
        _ => None,
    }
}

fn default_operands() -> JobOperands
    ensures { result ≡ default_operands_lem }
{
    JobOperands {
        class: Class(b'A'),
        msgclass: Class(b'A'),
        prio: Prio(5),
        held: false,
        scan: false,
        positional: 0,
        keyed: false,
    }
}

// MSGLEVEL, NOTIFY, REGION, TIME and USER with any value.
fn is_passed_over(operand: &[u8]) -> bool
    ensures { result ≡ is_passed_over_lem operand.now }
{
    operand.starts_with(b"MSGLEVEL=")
        || operand.starts_with(b"NOTIFY=")
        || operand.starts_with(b"REGION=")
        || operand.starts_with(b"TIME=")
        || operand.starts_with(b"USER=")
}

fn take_typrun(so_far: JobOperands, value: &[u8]) -> Option<JobOperands>
    ensures { result ≡ typrun_taken so_far value.now }
{
    let mut so_far = so_far;
    if value == b"HOLD".as_slice() {
        so_far.held = true;
    } else if value == b"SCAN".as_slice() {
        so_far.scan = true;
    } else {
        return None;
    }
    Some(so_far)
}

// PRTY, TYPRUN, and the keywords with any value.
fn take_other_keyword(so_far: JobOperands, operand: &[u8]) -> Option<JobOperands>
    ensures { result ≡ other_keyword_taken so_far operand.now }
{
    let mut so_far = so_far;
    if operand.starts_with(b"PRTY=") {
        so_far.prio = read_prio(&operand[5..])?;
        Some(so_far)
    } else if operand.starts_with(b"TYPRUN=") {
        take_typrun(so_far, &operand[7..])
    } else if is_passed_over(operand) {
        Some(so_far)
    } else {
        None
    }
}

// The values that count, where a keyword follows these operands.
fn take_keyword(so_far: JobOperands, operand: &[u8]) -> Option<JobOperands>
    ensures { result ≡ keyword_taken so_far operand.now }
{
    let mut so_far = so_far;
    so_far.keyed = true;
    if operand.starts_with(b"CLASS=") {
        so_far.class = read_class_value(&operand[6..])?;
    } else if operand.starts_with(b"MSGCLASS=") {
        so_far.msgclass = read_class_value(&operand[9..])?;
    } else {
        return take_other_keyword(so_far, operand);
    }
    Some(so_far)
}

// At most two positional operands, before the keywords.
fn take_positional(so_far: JobOperands) -> Option<JobOperands>
    ensures { result ≡ positional_taken so_far }
{
    if so_far.keyed || so_far.positional >= 2 {
        return None;
    }
    let mut so_far = so_far;
    so_far.positional += 1;
    Some(so_far)
}

fn take_operand(so_far: JobOperands, operand: &[u8]) -> Option<JobOperands>
    ensures { result ≡ operand_taken so_far operand.now }
{
    if is_keyword(operand) {
        take_keyword(so_far, operand)
    } else {
        take_positional(so_far)
    }
}

// What the operands behind the default say, of a field that is not empty.
fn take_operands(field: &[u8]) -> Option<JobOperands>
    ensures { result ≡ operands_taken default_operands_lem (parts_in false 0 field.now) }
{
    let mut so_far = default_operands();
    let mut rest = Some(field);
    while let Some(text) = rest {
        let (operand, behind) = cut_operand(text);
        so_far = take_operand(so_far, operand)?;
        rest = behind;
    }
    Some(so_far)
}

/// Reads the operands of a JOB statement. None where they are outside the grammar.
pub(crate) fn read_job_operands(operands: &Operands) -> Option<JobOperands>
    ensures { result ≡ job_operands_of operands.now }
{
    let field = operands.text.as_slice();
    if !operands.whole || !is_balanced(field) {
        return None;
    }
    if field.is_empty() {
        return Some(default_operands());
    }
    take_operands(field)
}
