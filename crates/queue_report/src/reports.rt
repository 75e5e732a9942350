//! Displays one after another.
ghost use Rattle.std.specs.Prelude.{◌≡◌, ◌++◌, IfOk, OnOk};
ghost use Rattle.cmd_report.specs.Named.{IsNamed};
ghost use Rattle.queue_report.specs.Reports.{shown_in, report_lines};

use cmd_report::show;
use mas_types::{Lines, NoMemory, Queue, Reply, What};
use std::alloc::Global;

fn push_lines(lines: &mut Lines, more: &Lines) -> Result<(), NoMemory>
    ensures { OnOk result (lines.new ≡ lines.old ++ more.now) }
{
    for at in 0..more.len() {
        lines.push(more.line(at))?;
    }
    Ok(())
}

// Adds the lines that a display shows.
fn push_shown(lines: &mut Lines, reply: &Reply) -> Result<(), NoMemory>
    ensures { OnOk result (lines.new ≡ lines.old ++ shown_in reply.now) }
{
    match reply {
        Reply::Shown(shown) => push_lines(lines, shown),
        _ => Ok(()),
    }
}

/// The report of a queue: the displays of its jobs, its outputs, its spool volumes and its members, each line as a
/// display shows it, and then the line `END`. NoMemory comes only when out of memory.
pub fn report(alloc: Global, queue: &Queue) -> Result<Lines, NoMemory>
    requires { IsNamed queue.now }
    ensures { IfOk result (λ lines. lines ≡ report_lines queue.now) }
{
    let mut lines = Lines::new(alloc);
    push_shown(&mut lines, &show(alloc, queue, What::Queue)?)?;
    push_shown(&mut lines, &show(alloc, queue, What::Outputs)?)?;
    push_shown(&mut lines, &show(alloc, queue, What::Spool)?)?;
    push_shown(&mut lines, &show(alloc, queue, What::Members)?)?;
    lines.push(b"END")?;
    Ok(lines)
}
