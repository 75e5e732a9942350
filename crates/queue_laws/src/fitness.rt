//! Whether a command is within the limits, which the law of sound parts asks for.
ghost use Rattle.std.specs.Prelude.{◌≡◌, ◌≤◌, ◌↔◌, All, IsTrue, length};
ghost use Rattle.std.specs.List.{list_all, list_any};
ghost use Rattle.mas_types.specs.Ids.{same_class};
ghost use Rattle.mas_types.specs.Limits.{index_most};
ghost use Rattle.mas_types.specs.Fit.{is_class_byte, is_text_line, AreClasses, AreDistinct, AreLines, ArePrinterLines, IsClass, IsFit, IsIndex, IsJobFields, IsLine, IsName, IsOutSpec, IsPrio};

use mas_types::limits::{
    CLASSES_MOST, INDEX_MOST, LINE_BYTES, PRINTER_LINES_MOST, PRIO_MOST, TEXT_LINES_MOST,
    WIRES_MOST,
};
use mas_types::{Class, Command, JobFields, Lines, List, Name8, OutNo, OutSpec, Prio};

/// Whether all that a command carries is within the limits: names are 1 to 8 bytes of A to Z, 0 to 9, `@`, `#` and `$`,
/// padded with blanks; classes are A to Z and 0 to 9, a list of them has 1 to 36 different ones; priorities are at most
/// 15, indexes of outputs 1 to 32, lines to other nodes 1 to 8, lines at a time of a printer 1 to 9,999; a text has at
/// most 9,999 lines of at most 132 bytes from 0x20 to 0x7E; a job ends with at most 32 outputs, each of at least one
/// line and one copy.
pub fn is_fit(command: &Command) -> bool
    ensures { IsTrue result ↔ IsFit command.now }
{
    match command {
        Command::Begin { fields } => are_fields(fields),
        Command::Enter { text, .. } => are_lines(text),
        Command::Ended { outputs, .. } => are_outputs(outputs),
        Command::Mark { index, .. } => is_index(*index),
        Command::Done { index, .. } => is_index(*index),
        Command::SetPrio { prio, .. } => is_prio(*prio),
        Command::SetClass { class, .. } => is_class(*class),
        Command::CancelOut { index, .. } => is_index(*index),
        Command::SetOut { index, class, .. } => is_index(*index) && is_class(*class),
        Command::SetInit { classes } => are_classes(classes),
        Command::SetPrt {
            classes,
            forms,
            lines,
        } => are_classes(classes) && is_name(forms) && are_printer_lines(*lines),
        Command::Load { line } => is_line(*line),
        Command::Sent { line, .. } => is_line(*line),
        Command::Got { line, text, .. } => is_line(*line) && are_lines(text),
        _ => true,
    }
}

fn is_index(index: OutNo) -> bool
    ensures { IsTrue result ↔ IsIndex index.0 }
{
    index.0 >= 1 && index.0 <= INDEX_MOST
}

fn is_line(line: u8) -> bool
    ensures { IsTrue result ↔ IsLine line }
{
    line >= 1 && line <= WIRES_MOST
}

fn is_prio(prio: Prio) -> bool
    ensures { IsTrue result ↔ IsPrio prio }
{
    prio.0 <= PRIO_MOST
}

fn are_printer_lines(lines: u16) -> bool
    ensures { IsTrue result ↔ ArePrinterLines lines }
{
    lines >= 1 && lines <= PRINTER_LINES_MOST
}

fn is_class(class: Class) -> bool
    ensures { IsTrue result ↔ IsClass class }
{
    lay_bytes::is_class(class.0)
}

fn is_name(name: &Name8) -> bool
    ensures { IsTrue result ↔ IsName name.now }
{
    lay_bytes::is_name(&name.0)
}

fn are_fields(fields: &JobFields) -> bool
    ensures { IsTrue result ↔ IsJobFields fields.now }
{
    is_name(&fields.name)
        && is_class(fields.class)
        && is_class(fields.msgclass)
        && is_prio(fields.prio)
        && is_name(&fields.dest)
        && is_name(&fields.node)
        && is_name(&fields.origin)
}

fn are_classes(classes: &List<Class>) -> bool
    ensures { IsTrue result ↔ AreClasses classes.now }
{
    let classes = classes.as_slice();
    if classes.is_empty() || classes.len() > CLASSES_MOST {
        return false;
    }
    all_classes(classes) && are_distinct(classes)
}

fn all_classes(classes: &[Class]) -> bool
    ensures { IsTrue result ↔ All IsClass classes.now }
{
    classes.iter().all(|c| lay_bytes::is_class(c.0))
}

fn has_class(classes: &[Class], class: Class) -> bool
    ensures { result ≡ list_any (same_class class) classes.now }
{
    classes.iter().any(|c| class.0 == c.0)
}

fn are_distinct(classes: &[Class]) -> bool
    ensures { IsTrue result ↔ AreDistinct same_class classes.now }
{
    for (i, class) in classes.iter().enumerate() {
        if has_class(&classes[i + 1..], *class) {
            return false;
        }
    }
    true
}

fn is_text(line: &[u8]) -> bool
    ensures { result ≡ is_text_line line.now }
{
    line.iter().all(|b| *b >= b' ' && *b <= b'~')
}

fn are_lines(text: &Lines) -> bool
    ensures { IsTrue result ↔ AreLines text.now }
{
    if text.len() > TEXT_LINES_MOST {
        return false;
    }
    for at in 0..text.len() {
        let line = text.line(at);
        if line.len() > LINE_BYTES || !is_text(line) {
            return false;
        }
    }
    true
}

fn is_output(spec: &OutSpec) -> bool
    ensures { IsTrue result ↔ IsOutSpec spec.now }
{
    is_class(spec.class)
        && is_name(&spec.dest)
        && is_name(&spec.forms)
        && spec.copies >= 1
        && spec.text.len() >= 1
        && are_lines(&spec.text)
}

fn are_outputs(specs: &List<OutSpec>) -> bool
    ensures { IsTrue result ↔ ((length specs.now ≤ index_most) × All IsOutSpec specs.now) }
{
    let specs = specs.as_slice();
    if specs.len() > INDEX_MOST as usize {
        return false;
    }
    for spec in specs {
        if !is_output(spec) {
            return false;
        }
    }
    true
}
