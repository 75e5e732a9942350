//! The commands on a plain queue, one after another: slow, and easy to read beside the table of commands. Each comes to
//! what the table says, and so does a run of entries.
#![tactic(auto)]

pub mod conditions;
pub mod groups;
pub mod input;
pub mod jobs;
pub mod life;
pub mod members;
pub mod numbers;
pub mod operator;
pub mod outputs;
pub mod picking;
pub mod printing;
pub mod refusing;
pub mod runs;
pub mod sending;
pub mod wires;

ghost use Rattle.std.specs.Prelude.{◌≡◌, true, IfOk, OnErr};
ghost use Rattle.mas_types.specs.Fit.{IsFit};
ghost use Rattle.mas_types.specs.Sound.{IsSound};
ghost use Rattle.mas_types.specs.Step.{step, may_give};

use mas_types::{Command, MemberId, NoMemory, Queue, Reply};
pub use runs::run;
use std::alloc::Global;

/// One command of a member that may give it, on a sound queue: what the table of commands says. Without memory the
/// queue stays.
pub fn step_plain(
    alloc: Global,
    queue: &mut Queue,
    by: MemberId,
    command: &Command,
) -> Result<Reply, NoMemory>
    requires sound { IsSound queue.old }
    requires fit { IsFit command.now }
    requires by { may_give queue.old by command.now ≡ true }
    ensures ok { IfOk result (λ reply. step queue.old by command.now ≡ (queue.new, reply)) }
    ensures err { OnErr result (queue.new ≡ queue.old) }
{
    match command {
        Command::Begin { fields } => input::begin(alloc, queue, by, fields),
        Command::Take { want } => Ok(input::take(queue, by, *want)),
        Command::Drop { job } => Ok(input::give_up(queue, by, *job)),
        Command::Enter { job, text } => input::enter(alloc, queue, by, *job, text),
        Command::TakeConvert => Ok(life::take_convert(queue, by)),
        Command::Converted { job } => Ok(life::converted(queue, by, *job)),
        Command::TakeExec => Ok(life::take_exec(queue, by)),
        Command::Ended { job, outputs } => life::ended(alloc, queue, by, *job, outputs),
        Command::Gather => Ok(life::gather(queue)),
        Command::Pick => Ok(printing::pick(queue, by)),
        Command::Mark { job, index, at } => Ok(printing::mark(queue, by, *job, *index, *at)),
        Command::Done { job, index } => Ok(printing::done(queue, by, *job, *index)),
        Command::Purge => Ok(life::purge(queue)),
        Command::Hold { job } => Ok(operator::set_held(queue, *job, true)),
        Command::Release { job } => Ok(operator::set_held(queue, *job, false)),
        Command::Cancel { job } => Ok(operator::cancel(queue, by, *job)),
        Command::SetPrio { job, prio } => Ok(operator::set_prio(queue, *job, *prio)),
        Command::SetClass { job, class } => Ok(operator::set_class(queue, *job, *class)),
        Command::Out { job } => Ok(operator::out(queue, *job)),
        Command::CancelOut { job, index } => Ok(operator::cancel_out(queue, by, *job, *index)),
        Command::SetOut { job, index, class } => {
            Ok(operator::set_out(queue, by, *job, *index, *class))
        }
        Command::Show { what } => cmd_report::show(alloc, queue, *what),
        Command::SetInit { classes } => members::set_init(alloc, queue, by, classes),
        Command::SetPrt {
            classes,
            forms,
            lines,
        } => members::set_prt(alloc, queue, by, classes, *forms, *lines),
        Command::Back { lines } => Ok(printing::back(queue, by, *lines)),
        Command::Forward { lines } => Ok(printing::forward(queue, by, *lines)),
        Command::Reset { of } => Ok(members::reset(queue, *of)),
        Command::Restart => Ok(members::restart(queue)),
        Command::Load { line } => Ok(sending::load(queue, *line)),
        Command::Sent { line, number } => Ok(sending::sent(queue, *line, *number)),
        Command::Got {
            line,
            number,
            job,
            text,
        } => sending::got(alloc, queue, by, *line, *number, *job, text),
    }
}
