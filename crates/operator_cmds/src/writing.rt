//! Writing a command.
ghost use Rattle.std.specs.Prelude.{◌≡◌, ℕ, ◌+◌, ◌&&◌, nat_le, ◌∷◌, [], List as AnyList, IfOk, decimal};
ghost use Rattle.std.specs.Str.{bytes_eq};
ghost use Rattle.mas_types.specs.Limits.{members_most};
ghost use Rattle.mas_types.specs.Names.{is_name_text, name_text, padded};
ghost use Rattle.mas_types.specs.Shown.{classes_text};
ghost use Rattle.operator_cmds.specs.declared.writing.WriteNo.TheVariants.{NoMemory as no_memory};
ghost use Rattle.operator_cmds.specs.Spellings.{IsSpelling};

use crate::forms::{Form, form_text};
use crate::places::{
    INDEX_NUMBERS, JOB_NUMBERS, LINE_NUMBERS, MARK_NUMBERS, Numbers, PRIO_NUMBERS, Place, stands_in,
};
use mas_types::limits::MEMBERS_MOST;
use mas_types::words::{self, push_decimal, push_name, push_text};
use mas_types::{Class, Command, JobNo, List, MemberId, Name8, NoMemory, OutNo, What, read_name};
use std::alloc::Global;

/// Why a command was not written.
#[derive(Clone, Copy, Debug)]
pub enum WriteNo {
    /// No text is read as the command.
    NotTyped,
    /// Out of memory.
    NoMemory,
}

impl From<NoMemory> for WriteNo {
    ghost from_gives = { λ _ no. no ≡ no_memory };

    fn from(_error: NoMemory) -> WriteNo {
        WriteNo::NoMemory
    }
}

ghost use Rattle.operator_cmds.specs.Written.{form_of as form_of_lem, job_in, index_in, prio_in, class_in, classes_of as classes_of_lem, forms_in, lines_in, marks_in, member_in, is_within as is_within_lem, is_written_name, may_write, written, written_text, Adds};
ghost use Rattle.operator_cmds.specs.Places.{stands_in as stands_in_lem, are_classes};

/// Writes a command as the operator types it, its numbers without leading zeros. `NotTyped` exactly where no text is
/// read as the command: only steps of the program give it, or what it carries has no spelling. NoMemory comes only when
/// out of memory.
pub fn write_command(alloc: Global, command: &Command) -> Result<List<u8>, WriteNo>
    ensures text { IfOk result (λ text. text ≡ written_text command.now) }
    ensures spelled { IfOk result (λ text. IsSpelling command.now text) }
    ensures not_typed { result ≡ Err WriteNo.NotTyped → (text : AnyList ℕ) → IsSpelling command.now text → ⊥ }
{
    let Some(form) = form_of(command) else {
        return Err(WriteNo::NotTyped);
    };
    let letters = form_text(form);
    let mut line = List::new(alloc);
    for letter in letters {
        push_part(alloc, &mut line, command, *letter)?;
    }
    Ok(line)
}

// The form in which a command is typed.
fn form_of(command: &Command) -> Option<Form>
    ensures { result ≡ form_of_lem command.now }
{
    match command {
        Command::Hold { .. } => Some(Form::Hold),
        Command::Release { .. } => Some(Form::Release),
        Command::Cancel { .. } => Some(Form::Cancel),
        Command::SetPrio { .. } => Some(Form::SetPrio),
        Command::SetClass { .. } => Some(Form::SetClass),
        Command::Out { .. } => Some(Form::Out),
        Command::CancelOut { .. } => Some(Form::CancelOut),
        Command::SetOut { .. } => Some(Form::SetOut),
        Command::Show { what: What::Job(_) } => Some(Form::ShowJob),
        Command::Show { what: What::Queue } => Some(Form::ShowQueue),
        Command::Show {
            what: What::Outputs,
        } => Some(Form::ShowOutputs),
        Command::Show { what: What::Spool } => Some(Form::ShowSpool),
        Command::Show {
            what: What::Members,
        } => Some(Form::ShowMembers),
        Command::SetInit { .. } => Some(Form::SetInit),
        Command::SetPrt { .. } => Some(Form::SetPrt),
        Command::Back { .. } => Some(Form::Back),
        Command::Forward { .. } => Some(Form::Forward),
        Command::Reset { .. } => Some(Form::Reset),
        _ => None,
    }
}

// Adds the text of the command in the place of a letter. NotTyped where it has none.
fn push_part(
    alloc: Global,
    line: &mut List<u8>,
    command: &Command,
    letter: u8,
) -> Result<(), WriteNo>
    ensures { Adds result (may_write command.now letter) line.old line.new (written command.now letter) }
{
    match letter {
        b'n' => push_number(line, job_of(command).0, JOB_NUMBERS),
        b'k' => push_number(line, index_of(command).0 as u32, INDEX_NUMBERS),
        b'p' => push_number(line, prio_of(command) as u32, PRIO_NUMBERS),
        b'l' => push_number(line, lines_of(command) as u32, LINE_NUMBERS),
        b'b' => push_number(line, marks_of(command), MARK_NUMBERS),
        b'c' => push_standing(line, Place::Class, &[class_of(command)]),
        b's' => push_classes(alloc, line, classes_of(command)),
        b'f' => push_forms(alloc, line, forms_of(command)),
        b'm' => push_member(line, member_of(command)),
        byte => Ok(line.push(byte)?),
    }
}

fn push_number(line: &mut List<u8>, n: u32, numbers: Numbers) -> Result<(), WriteNo>
    ensures { Adds result (is_within_lem numbers n) line.old line.new (decimal n) }
{
    if !is_within(numbers, n) {
        return Err(WriteNo::NotTyped);
    }
    Ok(push_decimal(line, n as u64)?)
}

fn is_within(numbers: Numbers, n: u32) -> bool
    ensures { result ≡ is_within_lem numbers n }
{
    n >= numbers.least && n <= numbers.most
}

// Adds a text where it may stand in the place.
fn push_standing(line: &mut List<u8>, place: Place, text: &[u8]) -> Result<(), WriteNo>
    ensures { Adds result (stands_in_lem place text.now) line.old line.new text.now }
{
    if !stands_in(place, text) {
        return Err(WriteNo::NotTyped);
    }
    Ok(push_text(line, text)?)
}

fn push_classes(alloc: Global, line: &mut List<u8>, classes: &[Class]) -> Result<(), WriteNo>
    ensures { Adds result (are_classes (classes_text classes.now)) line.old line.new (classes_text classes.now) }
{
    let mut text = List::new(alloc);
    words::push_classes(&mut text, classes)?;
    push_standing(line, Place::Classes, text.as_slice())
}

fn push_forms(alloc: Global, line: &mut List<u8>, forms: Name8) -> Result<(), WriteNo>
    ensures { Adds result (is_written_name forms) line.old line.new (name_text forms) }
{
    let mut text = List::new(alloc);
    push_name(&mut text, &forms)?;
    if !is_name_of(text.as_slice(), forms) {
        return Err(WriteNo::NotTyped);
    }
    Ok(push_text(line, text.as_slice())?)
}

fn is_name_of(text: &[u8], name: Name8) -> bool
    ensures { result ≡ (is_name_text text.now && bytes_eq (padded text.now) name.0) }
{
    match read_name(text) {
        Ok(read) => read.0.as_slice() == name.0.as_slice(),
        Err(_) => false,
    }
}

fn push_member(line: &mut List<u8>, member: MemberId) -> Result<(), WriteNo>
    ensures { Adds result (nat_le 1 member.0 && nat_le member.0 members_most) line.old line.new ((64 + member.0) ∷ []) }
{
    if member.0 < 1 || member.0 > MEMBERS_MOST {
        return Err(WriteNo::NotTyped);
    }
    Ok(line.push(64 + member.0)?)
}

fn job_of(command: &Command) -> JobNo
    ensures { result.0 ≡ job_in command.now }
{
    match command {
        Command::Hold { job }
        | Command::Release { job }
        | Command::Cancel { job }
        | Command::SetPrio { job, .. }
        | Command::SetClass { job, .. }
        | Command::Out { job }
        | Command::CancelOut { job, .. }
        | Command::SetOut { job, .. }
        | Command::Show {
            what: What::Job(job),
        } => *job,
        _ => JobNo(0),
    }
}

fn index_of(command: &Command) -> OutNo
    ensures { result.0 ≡ index_in command.now }
{
    match command {
        Command::CancelOut { index, .. } | Command::SetOut { index, .. } => *index,
        _ => OutNo(0),
    }
}

fn prio_of(command: &Command) -> u8
    ensures { result ≡ prio_in command.now }
{
    match command {
        Command::SetPrio { prio, .. } => prio.0,
        _ => 0,
    }
}

fn class_of(command: &Command) -> u8
    ensures { result ≡ class_in command.now }
{
    match command {
        Command::SetClass { class, .. } | Command::SetOut { class, .. } => class.0,
        _ => 0,
    }
}

fn classes_of(command: &Command) -> &[Class]
    ensures { result.now ≡ classes_of_lem command.now }
{
    match command {
        Command::SetInit { classes } | Command::SetPrt { classes, .. } => classes.as_slice(),
        _ => &[],
    }
}

fn forms_of(command: &Command) -> Name8
    ensures { result ≡ forms_in command.now }
{
    match command {
        Command::SetPrt { forms, .. } => *forms,
        _ => Name8([b' '; 8]),
    }
}

fn lines_of(command: &Command) -> u16
    ensures { result ≡ lines_in command.now }
{
    match command {
        Command::SetPrt { lines, .. } => *lines,
        _ => 0,
    }
}

fn marks_of(command: &Command) -> u32
    ensures { result ≡ marks_in command.now }
{
    match command {
        Command::Back { lines } | Command::Forward { lines } => *lines,
        _ => 0,
    }
}

fn member_of(command: &Command) -> MemberId
    ensures { result.0 ≡ member_in command.now }
{
    match command {
        Command::Reset { of } => *of,
        _ => MemberId(0),
    }
}
