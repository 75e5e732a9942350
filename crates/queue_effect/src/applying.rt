//! A command on the tables.
ghost use Rattle.std.specs.Prelude.{◌≡◌, ◌≤◌, ◌<◌, ◌+◌, ◌^◌, IfOk, OnErr};
ghost use Rattle.mas_types.specs.Fit.{IsFit};
ghost use Rattle.mas_types.specs.Limits.{members_most};
ghost use Rattle.mas_types.specs.Step.{row_of};
ghost use Rattle.queue_telling.specs.Orders.{HaveOrders};
ghost use Rattle.queue_effect.specs.Standing.{Plays, IfRefused, AreEnds, AreFit};
ghost use Rattle.page_marks.specs.Marks.{Touches};

use crate::displays::display;
use crate::ending::end_job;
use crate::ends::Ends;
use crate::input::{begin, drop_job, enter, take};
use crate::life::{converted, gather, purge, take_convert, take_exec};
use crate::members::{Setup, reset, restart, set_init, set_prt};
use crate::operator::{cancel, out, set_class, set_held, set_out, set_prio};
use crate::printing::{back, cancel_out, finish, mark, pick, set_forward};
use crate::wire::{Arrival, acknowledge, load, receive};
use ckpt_tables::Tables;
use mas_types::{Command, MemberId, NoMemory, Reply};
use page_marks::Marks;
use std::alloc::Global;

/// Gives a command of a member: for each queue that the tables tell, they tell what the command leaves of it, and the
/// reply is the command's. A refused command changes nothing, and neither does one for which there is no memory. Where
/// no two jobs or outputs had one order, none have.
///
/// The tables have their shape, their orders are below the next one, which is below 2^63 - 32, and what is busy is so
/// at nobody or at one of at most eight members, as is the member itself. What the command carries is within the
/// limits. A display looks at no slot past the ends, where nothing stands.
pub fn apply(
    alloc: Global,
    tables: &mut Tables,
    marks: &mut Marks,
    ends: Ends,
    by: MemberId,
    command: &Command,
) -> Result<Reply, NoMemory>
    requires fit { AreFit tables.old }
    requires order { tables.old.order + 32 < 2 ^ 63 }
    requires ends { AreEnds ends tables.old }
    requires member { by.0 ≤ members_most }
    requires command { IsFit command.now }
    ensures plays { IfOk result (λ reply. Plays tables.old tables.new (λ Q. row_of Q by command.now) reply) }
    ensures refused { IfOk result (λ reply. IfRefused reply (tables.new ≡ tables.old)) }
    ensures no_memory { OnErr result ((tables.new ≡ tables.old) × (marks.new ≡ marks.old)) }
    ensures fits { AreFit tables.new }
    ensures orders { HaveOrders tables.old → HaveOrders tables.new }
    ensures order { tables.new.order ≤ tables.old.order + 32 }
    ensures touches { AreFit tables.old → Touches marks.old.pages marks.new.pages tables.old tables.new }
{
    match command {
        Command::Begin { fields } => Ok(begin(tables, marks, by, fields)),
        Command::Take { want } => Ok(take(tables, marks, by, *want)),
        Command::Drop { job } => Ok(drop_job(tables, marks, by, *job)),
        Command::Enter { job, text } => Ok(enter(tables, marks, by, *job, text)),
        Command::TakeConvert => Ok(take_convert(tables, marks, by)),
        Command::Converted { job } => Ok(converted(tables, marks, by, *job)),
        Command::TakeExec => Ok(take_exec(tables, marks, by)),
        Command::Ended { job, outputs } => Ok(end_job(tables, marks, by, *job, outputs)),
        Command::Gather => Ok(gather(tables, marks)),
        Command::Pick => Ok(pick(tables, marks, by)),
        Command::Mark { job, index, at } => Ok(mark(tables, marks, by, *job, *index, *at)),
        Command::Done { job, index } => Ok(finish(tables, marks, by, *job, *index)),
        Command::Purge => Ok(purge(tables, marks)),
        Command::Hold { job } => Ok(set_held(tables, marks, *job, true)),
        Command::Release { job } => Ok(set_held(tables, marks, *job, false)),
        Command::Cancel { job } => Ok(cancel(tables, marks, by, *job)),
        Command::SetPrio { job, prio } => Ok(set_prio(tables, marks, *job, *prio)),
        Command::SetClass { job, class } => Ok(set_class(tables, marks, *job, *class)),
        Command::Out { job } => Ok(out(tables, marks, *job)),
        Command::CancelOut { job, index } => Ok(cancel_out(tables, marks, by, *job, *index)),
        Command::SetOut { job, index, class } => Ok(set_out(
            tables, marks, by, *job, *index, *class,
        )),
        Command::Show { what } => display(alloc, tables, ends, *what),
        Command::SetInit { classes } => set_init(alloc, tables, marks, by, classes),
        Command::SetPrt {
            classes,
            forms,
            lines,
        } => {
            let setup = Setup {
                forms: *forms,
                lines: *lines,
            };
            set_prt(alloc, tables, marks, by, classes, setup)
        }
        Command::Back { lines } => Ok(back(tables, marks, by, *lines)),
        Command::Forward { lines } => Ok(set_forward(tables, marks, by, *lines)),
        Command::Reset { of } => Ok(reset(tables, marks, *of)),
        Command::Restart => Ok(restart(tables, marks)),
        Command::Load { line } => Ok(load(tables, marks, *line)),
        Command::Sent { line, number } => Ok(acknowledge(tables, marks, *line, *number)),
        Command::Got {
            line,
            number,
            job,
            text,
        } => {
            let arrival = Arrival {
                line: *line,
                number: *number,
                job: *job,
            };
            Ok(receive(tables, marks, by, arrival, text))
        }
    }
}
