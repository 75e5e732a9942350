//! The operands of an EXEC statement.
ghost use Rattle.std.specs.Prelude.{◌≡◌};
ghost use Rattle.std.specs.List.{list_any, list_all};
ghost use Rattle.card_reader.specs.Operands.{operands_of, operands_left};
ghost use Rattle.jcl_convert.specs.Execs.{names_data_set as names_data_set_lem, is_exec_operand as is_exec_operand_lem, program_of, exec_of};

use crate::Program;
use card_reader::operands::{cut_operand, first_operand, is_balanced};
use card_reader::statements::Operands;
use mas_types::JclCause;

// DSN= or DSNAME=.
fn names_data_set(operand: &[u8]) -> bool
    ensures { result ≡ names_data_set_lem operand.now }
{
    operand.starts_with(b"DSN=") || operand.starts_with(b"DSNAME=")
}

/// Whether one of the operands names a data set.
pub(crate) fn has_data_set(field: &[u8]) -> bool
    ensures { result ≡ list_any names_data_set_lem (operands_of field.now) }
{
    if field.is_empty() {
        return false;
    }
    let mut rest = Some(field);
    while let Some(text) = rest {
        let (operand, behind) = cut_operand(text);
        if names_data_set(operand) {
            return true;
        }
        rest = behind;
    }
    false
}

// PARM, REGION and TIME with any value.
fn is_exec_operand(operand: &[u8]) -> bool
    ensures { result ≡ is_exec_operand_lem operand.now }
{
    operand.starts_with(b"PARM=")
        || operand.starts_with(b"REGION=")
        || operand.starts_with(b"TIME=")
}

fn are_exec_operands(rest: Option<&[u8]>) -> bool
    ensures { result ≡ list_all is_exec_operand_lem (operands_left rest.entry) }
{
    let mut rest = rest;
    while let Some(text) = rest {
        let (operand, behind) = cut_operand(text);
        if !is_exec_operand(operand) {
            return false;
        }
        rest = behind;
    }
    true
}

fn read_program(name: &[u8]) -> Option<Program>
    ensures { result ≡ program_of name.now }
{
    if name == b"IEFBR14".as_slice() {
        Some(Program::Br14)
    } else if name == b"IEBGENER".as_slice() {
        Some(Program::Gener)
    } else {
        None
    }
}

/// The program of an EXEC statement, or the first cause that refuses it.
pub(crate) fn read_exec(operands: &Operands) -> Result<Program, JclCause>
    ensures { result ≡ exec_of operands.now }
{
    let field = operands.text.as_slice();
    let first = first_operand(field);
    if !first.starts_with(b"PGM=") {
        return Err(JclCause::Proc);
    }
    let Some(program) = read_program(&first[4..]) else {
        return Err(JclCause::Pgm);
    };
    if has_data_set(field) {
        return Err(JclCause::Dsn);
    }
    let (_, behind) = cut_operand(field);
    if !operands.whole || !is_balanced(field) || !are_exec_operands(behind) {
        return Err(JclCause::Operand);
    }
    Ok(program)
}
