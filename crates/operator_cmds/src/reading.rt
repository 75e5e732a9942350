//! Reading a command.
ghost use Rattle.std.specs.Prelude.{◌≡◌, ℕ, ◌-◌, ◌≤◌, IfOk};
ghost use Rattle.std.specs.List.{slice_index};
ghost use Rattle.mas_types.specs.declared.commands.Command.{Command as AnyCommand};
ghost use Rattle.operator_cmds.specs.declared.reading.CommandNo.TheVariants.{NoMemory as no_memory};
ghost use Rattle.operator_cmds.specs.Forms.{form_text as form_text_lem};
ghost use Rattle.operator_cmds.specs.Walks.{text_in as text_in_lem};
ghost use Rattle.operator_cmds.specs.Spellings.{number_of, job_of as job_of_lem, index_of as index_of_lem, class_of as class_of_lem, classes_in, forms_of as forms_of_lem, command_of as command_of_lem, IsSpelling, IsLongestBeginning};

use crate::forms::{FORMS, Form, form_text};
use crate::places::{
    INDEX_NUMBERS, JOB_NUMBERS, LINE_NUMBERS, MARK_NUMBERS, Numbers, PRIO_NUMBERS, is_number,
};
use crate::walks::{stop, text_in};
use mas_types::{
    Class, Command, JobNo, List, MemberId, Name8, NoMemory, OutNo, Prio, What, read_name,
    read_number,
};
use std::alloc::Global;

/// Why a text gave no command.
#[derive(Clone, Copy, Debug)]
pub enum CommandNo {
    /// The text is no command. Its longest front that begins a command has so many bytes.
    BadCommand(u32),
    /// Out of memory.
    NoMemory,
}

impl From<NoMemory> for CommandNo {
    ghost from_gives = { λ _ no. no ≡ no_memory };

    fn from(_error: NoMemory) -> CommandNo {
        CommandNo::NoMemory
    }
}

ghost use Rattle.operator_cmds.specs.Read.{IsReadAs, ComesTo};
ghost use Rattle.operator_cmds.specs.Typed.{command_in};

/// Reads a command as the operator types it. `BadCommand` exactly where the text is none, with the length of its
/// longest front that can be gone on with to a command. NoMemory comes only when out of memory.
pub fn read_command(alloc: Global, text: &[u8]) -> Result<Command, CommandNo>
    // What is read is spelled so.
    ensures found { IfOk result (λ typed. IsSpelling typed text.now) }
    // What is spelled so is read, unless memory runs out.
    ensures only { (typed : AnyCommand) → IsSpelling typed text.now → IsReadAs result typed }
    // The answer is the computed one.
    ensures computed { ComesTo result (command_in text.now) }
    ensures bad { (n : ℕ) → result ≡ Err (CommandNo.BadCommand n) → IsLongestBeginning text.now n }
{
    let mut longest: usize = 0;
    for form in FORMS {
        match stop(form_text(form), text) {
            None => return Ok(command_of(alloc, form, text)?),
            Some(n) => longest = longest.max(n),
        }
    }
    Err(CommandNo::BadCommand(longest as u32))
}

// The command of a form that all of the text follows.
fn command_of(alloc: Global, form: Form, text: &[u8]) -> Result<Command, NoMemory>
    ensures { IfOk result (λ typed. typed ≡ command_of_lem form (text_in_lem (form_text_lem form) text.now)) }
{
    Ok(match form {
        Form::Hold => Command::Hold {
            job: job_of(form, text),
        },
        Form::Release => Command::Release {
            job: job_of(form, text),
        },
        Form::Cancel => Command::Cancel {
            job: job_of(form, text),
        },
        Form::SetPrio => Command::SetPrio {
            job: job_of(form, text),
            prio: Prio(number_in(form, text, b'p', PRIO_NUMBERS) as u8),
        },
        Form::SetClass => Command::SetClass {
            job: job_of(form, text),
            class: class_of(form, text),
        },
        Form::Out => Command::Out {
            job: job_of(form, text),
        },
        Form::CancelOut => Command::CancelOut {
            job: job_of(form, text),
            index: index_of(form, text),
        },
        Form::SetOut => Command::SetOut {
            job: job_of(form, text),
            index: index_of(form, text),
            class: class_of(form, text),
        },
        Form::ShowJob => Command::Show {
            what: What::Job(job_of(form, text)),
        },
        Form::ShowQueue => Command::Show { what: What::Queue },
        Form::ShowOutputs => Command::Show {
            what: What::Outputs,
        },
        Form::ShowSpool => Command::Show { what: What::Spool },
        Form::ShowMembers => Command::Show {
            what: What::Members,
        },
        Form::SetInit => Command::SetInit {
            classes: classes_of(alloc, form, text)?,
        },
        Form::SetPrt => Command::SetPrt {
            classes: classes_of(alloc, form, text)?,
            forms: forms_of(form, text),
            lines: number_in(form, text, b'l', LINE_NUMBERS) as u16,
        },
        Form::Back => Command::Back {
            lines: number_in(form, text, b'b', MARK_NUMBERS),
        },
        Form::Forward => Command::Forward {
            lines: number_in(form, text, b'b', MARK_NUMBERS),
        },
        Form::Reset => Command::Reset {
            of: member_of(form, text),
        },
    })
}

// The number in the place of a letter, 0 where it is none of the numbers.
fn number_in(form: Form, text: &[u8], letter: u8, numbers: Numbers) -> u32
    ensures value { result ≡ number_of numbers (text_in_lem (form_text_lem form) text.now letter) }
    ensures most { result ≤ numbers.most }
{
    let part = text_in(form_text(form), text, letter);
    if !is_number(numbers, part) {
        return 0;
    }
    read_number(part, numbers.most).unwrap_or(0)
}

fn job_of(form: Form, text: &[u8]) -> JobNo
    ensures { result ≡ job_of_lem (text_in_lem (form_text_lem form) text.now) }
{
    JobNo(number_in(form, text, b'n', JOB_NUMBERS))
}

fn index_of(form: Form, text: &[u8]) -> OutNo
    ensures { result ≡ index_of_lem (text_in_lem (form_text_lem form) text.now) }
{
    OutNo(number_in(form, text, b'k', INDEX_NUMBERS) as u8)
}

fn first_byte(text: &[u8]) -> u8
    ensures { result ≡ slice_index text.now 0 }
{
    match text {
        [] => 0,
        [first, ..] => *first,
    }
}

fn class_of(form: Form, text: &[u8]) -> Class
    ensures { result ≡ class_of_lem (text_in_lem (form_text_lem form) text.now) }
{
    Class(first_byte(text_in(form_text(form), text, b'c')))
}

fn classes_of(alloc: Global, form: Form, text: &[u8]) -> Result<List<Class>, NoMemory>
    ensures { IfOk result (λ classes. classes ≡ classes_in (text_in_lem (form_text_lem form) text.now 115)) }
{
    let part = text_in(form_text(form), text, b's');
    let mut classes = List::new(alloc);
    for byte in part {
        classes.push(Class(*byte))?;
    }
    Ok(classes)
}

fn forms_of(form: Form, text: &[u8]) -> Name8
    ensures { result ≡ forms_of_lem (text_in_lem (form_text_lem form) text.now) }
{
    match read_name(text_in(form_text(form), text, b'f')) {
        Ok(name) => name,
        Err(_) => Name8([b' '; 8]),
    }
}

fn member_of(form: Form, text: &[u8]) -> MemberId
    ensures { result.0 ≡ slice_index (text_in_lem (form_text_lem form) text.now 109) 0 - 64 }
{
    MemberId(first_byte(text_in(form_text(form), text, b'm')).saturating_sub(64))
}
