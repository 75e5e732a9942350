//! The operands of a DD statement.
ghost use Rattle.std.specs.Prelude.{◌≡◌, ◌<◌, length};
ghost use Rattle.std.specs.List.{list_all};
ghost use Rattle.card_reader.specs.Jes.{name8_of};
ghost use Rattle.card_reader.specs.Operands.{operands_left, operands_of};
ghost use Rattle.mas_types.specs.Lists.{tail};
ghost use Rattle.jcl_convert.specs.Dds.{is_passed_over as is_passed_over_lem, is_data_operand as is_data_operand_lem, sysout_class, sysout_taken, copies_of, held_of, with_dest, other_operand_taken, dd_operand_taken, no_sysout as no_sysout_lem, sysout_of, begins_data as begins_data_lem, form_if as form_if_lem, form_of, dd_of};

use crate::execs::has_data_set;
use card_reader::operands::{cut_operand, first_operand, is_balanced};
use card_reader::read_name8;
use card_reader::statements::{Operands, mark_of};
use mas_types::{Class, JclCause, JobFields, Name8, read_class, read_number};

/// What the operands of a DD statement say.
#[derive(Clone, Copy)]
pub enum DdForm {
    /// `*` or `DATA`.
    InStream,
    /// `DUMMY`.
    Dummy,
    /// `SYSOUT=`.
    Sysout(SysoutForm),
}

/// What the operands of a DD statement with SYSOUT say.
#[derive(Clone, Copy)]
pub struct SysoutForm {
    /// SYSOUT= was read.
    pub is_given: bool,
    /// The class that is named, else the job's message class.
    pub class: Class,
    /// The forms that are named, else STD.
    pub forms: Name8,
    /// `DEST=`, else the job's print destination.
    pub dest: Name8,
    /// `COPIES=`, 1 to 255, else 1.
    pub copies: u8,
    /// `HOLD=YES` stood there.
    pub held: bool,
}

// DCB and OUTLIM with any value.
fn is_passed_over(operand: &[u8]) -> bool
    ensures { result ≡ is_passed_over_lem operand.now }
{
    operand.starts_with(b"DCB=") || operand.starts_with(b"OUTLIM=")
}

fn are_passed_over(rest: Option<&[u8]>) -> bool
    ensures { result ≡ list_all is_passed_over_lem (operands_left rest.entry) }
{
    let mut rest = rest;
    while let Some(text) = rest {
        let (operand, behind) = cut_operand(text);
        if !is_passed_over(operand) {
            return false;
        }
        rest = behind;
    }
    true
}

fn is_data_operand(operand: &[u8]) -> bool
    ensures { result ≡ is_data_operand_lem operand.now }
{
    is_passed_over(operand) || mark_of(operand).is_some()
}

fn are_data_operands(rest: Option<&[u8]>) -> bool
    ensures { result ≡ list_all is_data_operand_lem (operands_left rest.entry) }
{
    let mut rest = rest;
    while let Some(text) = rest {
        let (operand, behind) = cut_operand(text);
        if !is_data_operand(operand) {
            return false;
        }
        rest = behind;
    }
    true
}

// The class of SYSOUT=, where `*` means the message class.
fn read_sysout_class(fields: &JobFields, byte: u8) -> Option<Class>
    ensures { result ≡ sysout_class fields.now byte }
{
    if byte == b'*' {
        return Some(fields.msgclass);
    }
    read_class(byte).ok()
}

// `SYSOUT=c` or `SYSOUT=(c,,forms)`.
fn take_sysout(fields: &JobFields, so_far: SysoutForm, value: &[u8]) -> Option<SysoutForm>
    ensures { result ≡ sysout_taken fields.now so_far value.now }
{
    let mut so_far = so_far;
    so_far.is_given = true;
    match value {
        [class] => {
            so_far.class = read_sysout_class(fields, *class)?;
            so_far.forms = Name8(*b"STD     ");
        }
        [b'(', class, b',', b',', forms @ .., b')'] => {
            so_far.class = read_sysout_class(fields, *class)?;
            so_far.forms = read_name8(forms)?;
        }
        _ => return None,
    }
    Some(so_far)
}

// 1 to 255 copies.
fn read_copies(value: &[u8]) -> Option<u8>
    ensures { result ≡ copies_of value.now }
{
    match read_number(value, 255) {
        Ok(copies) if copies >= 1 => Some(copies as u8),
        _ => None,
    }
}

fn read_hold(value: &[u8]) -> Option<bool>
    ensures { result ≡ held_of value.now }
{
    if value == b"YES".as_slice() {
        Some(true)
    } else if value == b"NO".as_slice() {
        Some(false)
    } else {
        None
    }
}

// COPIES, HOLD, and the keywords with any value.
fn take_other_operand(so_far: SysoutForm, operand: &[u8]) -> Option<SysoutForm>
    ensures { result ≡ other_operand_taken so_far operand.now }
{
    let mut so_far = so_far;
    if operand.starts_with(b"COPIES=") {
        so_far.copies = read_copies(&operand[7..])?;
    } else if operand.starts_with(b"HOLD=") {
        so_far.held = read_hold(&operand[5..])?;
    } else if !is_passed_over(operand) {
        return None;
    }
    Some(so_far)
}

fn take_dest(so_far: SysoutForm, value: &[u8]) -> Option<SysoutForm>
    ensures { result ≡ with_dest so_far (name8_of value.now) }
{
    let mut so_far = so_far;
    so_far.dest = read_name8(value)?;
    Some(so_far)
}

// One operand of a DD statement with SYSOUT, behind others: of two with one key the later counts.
fn take_operand(fields: &JobFields, so_far: SysoutForm, operand: &[u8]) -> Option<SysoutForm>
    ensures { result ≡ dd_operand_taken fields.now so_far operand.now }
{
    if operand.starts_with(b"SYSOUT=") {
        take_sysout(fields, so_far, &operand[7..])
    } else if operand.starts_with(b"DEST=") {
        take_dest(so_far, &operand[5..])
    } else {
        take_other_operand(so_far, operand)
    }
}

fn no_sysout(fields: &JobFields) -> SysoutForm
    ensures { result ≡ no_sysout_lem fields.now }
{
    SysoutForm {
        is_given: false,
        class: fields.msgclass,
        forms: Name8(*b"STD     "),
        dest: fields.dest,
        copies: 1,
        held: false,
    }
}

// The form of a DD statement with SYSOUT.
fn read_sysout(fields: &JobFields, field: &[u8]) -> Option<DdForm>
    requires { 0 < length field.now }
    ensures { result ≡ sysout_of fields.now field.now }
{
    let mut so_far = no_sysout(fields);
    let mut rest = Some(field);
    while let Some(text) = rest {
        let (operand, behind) = cut_operand(text);
        so_far = take_operand(fields, so_far, operand)?;
        rest = behind;
    }
    if !so_far.is_given {
        return None;
    }
    Some(DdForm::Sysout(so_far))
}

// The operands behind the first.
fn operands_behind(field: &[u8]) -> Option<&[u8]>
    ensures { operands_left result ≡ tail (operands_of field.now) }
{
    let (_, behind) = cut_operand(field);
    behind
}

// `*` and `DATA`.
fn begins_data(first: &[u8]) -> bool
    ensures { result ≡ begins_data_lem first.now }
{
    first == b"*".as_slice() || first == b"DATA".as_slice()
}

fn form_if(is: bool, form: DdForm) -> Option<DdForm>
    ensures { result ≡ form_if_lem is form }
{
    if is { Some(form) } else { None }
}

// The form of a DD statement, none where its operands have none.
fn read_form(fields: &JobFields, field: &[u8]) -> Option<DdForm>
    ensures { result ≡ form_of fields.now field.now }
{
    if field.is_empty() {
        return None;
    }
    let first = first_operand(field);
    let behind = operands_behind(field);
    if begins_data(first) {
        return form_if(are_data_operands(behind), DdForm::InStream);
    }
    if first == b"DUMMY".as_slice() {
        return form_if(are_passed_over(behind), DdForm::Dummy);
    }
    read_sysout(fields, field)
}

/// What a DD statement says, or the first cause that refuses its operands.
pub(crate) fn read_dd(fields: &JobFields, operands: &Operands) -> Result<DdForm, JclCause>
    ensures { result ≡ dd_of fields.now operands.now }
{
    let field = operands.text.as_slice();
    if has_data_set(field) {
        return Err(JclCause::Dsn);
    }
    if !operands.whole || !is_balanced(field) {
        return Err(JclCause::Operand);
    }
    match read_form(fields, field) {
        Some(form) => Ok(form),
        None => Err(JclCause::Operand),
    }
}
