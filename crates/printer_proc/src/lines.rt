//! Lines on paper.
ghost use Rattle.std.specs.Prelude.{◌≡◌, ◌≤◌, length, IfOk};
ghost use Rattle.mas_types.specs.Printed.{printed_line, text_at};

use mas_types::words::{push_digits, push_output_key, push_text};
use mas_types::{JobNo, Lines, List, NoMemory, OutNo};
use std::alloc::Global;

/// A line of an output on paper: the job identifier, a point and the index in two digits, a blank, the line's number in
/// eight digits, a blank, and its text. Lines are counted from 1 over all copies, which follow one another. NoMemory
/// comes only when out of memory.
pub fn print_line(
    alloc: Global,
    job: JobNo,
    index: OutNo,
    line: u32,
    text: &Lines,
) -> Result<List<u8>, NoMemory>
    requires some { 1 ≤ length text.now }
    requires first { 1 ≤ line }
    ensures { IfOk result (λ paper. paper ≡ printed_line job index line text.now) }
{
    let mut paper = List::new(alloc);
    push_output_key(&mut paper, job, index)?;
    paper.push(b' ')?;
    push_digits(&mut paper, 8, line as u64)?;
    paper.push(b' ')?;
    push_text(&mut paper, text_of(text, line))?;
    Ok(paper)
}

fn text_of(text: &Lines, line: u32) -> &[u8]
    requires some { 1 ≤ length text.now }
    requires first { 1 ≤ line }
    ensures { result.now ≡ text_at text.now line }
{
    text.line((line - 1) as usize % text.len())
}
