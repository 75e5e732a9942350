//! Running the steps of a job.
ghost use Rattle.std.specs.Prelude.{◌≡◌, ◌++◌, ◌∷◌, [], find, IfOk, OnOk};
ghost use Rattle.std.specs.Option.{option_copied};
ghost use Rattle.jcl_convert.specs.Steps.{AreSteps};
ghost use Rattle.job_exec.specs.Running.{AreOutputs, is_named, is_not_empty as is_not_empty_lem, message_of, message_text as message_text_lem, written_to, lines_of as lines_of_lem, generated, generated_code, outputs_of_step, code_of_step, outputs_of, code_of};

use jcl_convert::{Dd, DdKind, Program, Step};
use mas_types::{Copied, Lines, List, NoMemory, OutSpec};
use std::alloc::Global;

/// What the steps of a job gave.
#[derive(Drop)]
pub struct Ran {
    /// The outputs, in the order of their DD statements.
    pub outputs: List<OutSpec>,
    /// The greatest condition code.
    pub code: u16,
}

/// Why IEBGENER doesn't copy.
#[derive(Clone, Copy)]
pub enum Message {
    /// SYSIN has cards, or is SYSOUT.
    SysinNotEmpty,
    /// There is no SYSUT1.
    MissingSysut1,
    /// SYSUT1 is SYSOUT.
    WrongSysut1,
    /// There is no SYSUT2.
    MissingSysut2,
    /// SYSUT2 has cards.
    WrongSysut2,
}

// The condition code of a step that doesn't copy.
const CODE_NOT_COPIED: u16 = 12;

// The first DD of a name.
fn dd_named<'a>(dds: &'a [Dd], name: &[u8; 8]) -> Option<&'a Dd>
    ensures { option_copied result ≡ find (is_named name.now) dds.now }
{
    dds.iter().find(|dd| dd.name.0 == *name)
}

fn is_not_empty(dd: &Dd) -> bool
    ensures { result ≡ is_not_empty_lem dd.now.kind }
{
    match &dd.kind {
        DdKind::Dummy => false,
        DdKind::Cards(lines) => lines.len() != 0,
        DdKind::Sysout { .. } => true,
    }
}

// The first test of IEBGENER that holds, of its SYSIN, SYSUT1 and SYSUT2.
fn test_of(sysin: Option<&Dd>, sysut1: Option<&Dd>, sysut2: Option<&Dd>) -> Option<Message>
    ensures { result ≡ message_of (option_copied sysin.entry) (option_copied sysut1.entry)
        (option_copied sysut2.entry) }
{
    if let Some(dd) = sysin {
        if is_not_empty(dd) {
            return Some(Message::SysinNotEmpty);
        }
    }
    let Some(sysut1) = sysut1 else {
        return Some(Message::MissingSysut1);
    };
    if let DdKind::Sysout { .. } = &sysut1.kind {
        return Some(Message::WrongSysut1);
    }
    let Some(sysut2) = sysut2 else {
        return Some(Message::MissingSysut2);
    };
    if let DdKind::Cards(_) = &sysut2.kind {
        return Some(Message::WrongSysut2);
    }
    None
}

fn message_text(message: Message) -> &'static [u8]
    ensures { result.now ≡ message_text_lem message }
{
    match message {
        Message::SysinNotEmpty => b"SYSIN NOT EMPTY",
        Message::MissingSysut1 => b"MISSING DD SYSUT1",
        Message::WrongSysut1 => b"WRONG DD SYSUT1",
        Message::MissingSysut2 => b"MISSING DD SYSUT2",
        Message::WrongSysut2 => b"WRONG DD SYSUT2",
    }
}

// Adds the output of lines written to a DD, where it is SYSOUT and got a line.
fn write_to(outputs: &mut List<OutSpec>, dd: Option<&Dd>, text: Lines) -> Result<(), NoMemory>
    ensures { OnOk result (outputs.new ≡ outputs.old ++ written_to (option_copied dd.entry) text) }
{
    if text.len() == 0 {
        return Ok(());
    }
    let Some(dd) = dd else {
        return Ok(());
    };
    match &dd.kind {
        DdKind::Sysout {
            class,
            dest,
            forms,
            copies,
            held,
        } => outputs.push(OutSpec {
            class: *class,
            dest: *dest,
            forms: *forms,
            copies: *copies,
            held: *held,
            text,
        }),
        _ => Ok(()),
    }
}

// The lines that a DD is read as.
fn lines_of(alloc: Global, dd: Option<&Dd>) -> Result<Lines, NoMemory>
    ensures { IfOk result (λ lines. lines ≡ lines_of_lem (option_copied dd.entry)) }
{
    match dd {
        Some(dd) => match &dd.kind {
            DdKind::Cards(lines) => lines.copy(alloc),
            _ => Ok(Lines::new(alloc)),
        },
        None => Ok(Lines::new(alloc)),
    }
}

fn one_line(alloc: Global, line: &[u8]) -> Result<Lines, NoMemory>
    ensures { IfOk result (λ lines. lines ≡ line.now ∷ []) }
{
    let mut lines = Lines::new(alloc);
    lines.push(line)?;
    Ok(lines)
}

// Runs IEBGENER with these DD statements: its condition code.
fn generate(alloc: Global, dds: &[Dd], outputs: &mut List<OutSpec>) -> Result<u16, NoMemory>
    ensures outputs { OnOk result (outputs.new ≡ outputs.old ++ generated dds.now) }
    ensures code { IfOk result (λ code. code ≡ generated_code dds.now) }
{
    let sysut1 = dd_named(dds, b"SYSUT1  ");
    let sysut2 = dd_named(dds, b"SYSUT2  ");
    match test_of(dd_named(dds, b"SYSIN   "), sysut1, sysut2) {
        Some(message) => {
            let line = one_line(alloc, message_text(message))?;
            write_to(outputs, dd_named(dds, b"SYSPRINT"), line)?;
            Ok(CODE_NOT_COPIED)
        }
        None => {
            write_to(outputs, sysut2, lines_of(alloc, sysut1)?)?;
            Ok(0)
        }
    }
}

// Runs a step: its condition code.
fn run_step(alloc: Global, step: &Step, outputs: &mut List<OutSpec>) -> Result<u16, NoMemory>
    ensures outputs { OnOk result (outputs.new ≡ outputs.old ++ outputs_of_step step.now) }
    ensures code { IfOk result (λ code. code ≡ code_of_step step.now) }
{
    match step.program {
        Program::Br14 => Ok(0),
        Program::Gener => generate(alloc, step.dds.as_slice(), outputs),
    }
}

/// Runs the steps of a job in order: the outputs in the order of their DD statements, and the greatest condition code.
/// Each DD statement with SYSOUT that got a line gives one output. NoMemory comes only when out of memory.
pub fn run_steps(alloc: Global, steps: &List<Step>) -> Result<Ran, NoMemory>
    ensures outputs { IfOk result (λ ran. ran.outputs ≡ outputs_of steps.now) }
    ensures code { IfOk result (λ ran. ran.code ≡ code_of steps.now) }

    // The outputs of the steps of a job are within its limits.
    ensures fits { AreSteps steps.now → IfOk result (λ ran. AreOutputs ran.outputs) }
{
    let mut outputs = List::new(alloc);
    let mut code = 0;
    for step in steps.as_slice() {
        code = run_step(alloc, step, &mut outputs)?.max(code);
    }
    Ok(Ran { outputs, code })
}
