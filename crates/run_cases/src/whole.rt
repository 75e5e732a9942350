//! The commands of a run as they were given. Memory keeps them without texts: these come from the script, by the step of
//! a command, and from the job in the queue.
ghost use Rattle.std.specs.Prelude.{◌≡◌};
ghost use Rattle.std.specs.Option.{option_copied};
ghost use Rattle.mas_types.specs.Fit.{IsText};
ghost use Rattle.mas_types.specs.Queue.{job_at as job_at_lem};
ghost use Rattle.mas_types.specs.Sound.{IsSound};

use brief_journal::{BriefCommand, BriefEntry};
use card_reader::{Deck, DeckNo, read_deck};
use job_outcome::{Outcome, Read, outcome_of};
use mas_types::{
    Command, Copied, Job, JobNo, Lines, List, NoMemory, OutSpec, Phase, Queue, Text, What,
};
use queue_laws::fitness::is_fit;
use script_lang::{Ask, Script};
use std::alloc::Global;

// What the script asks for in a step.
fn ask_of(script: &Script, step: u32) -> Option<&Ask> {
    let at = (step as usize).checked_sub(1)?;
    match script.steps.as_slice().get(at) {
        Some(step) => Some(&step.what),
        None => None,
    }
}

// The deck of a step, if it has one that is read.
fn deck_of(alloc: Global, script: &Script, step: u32) -> Result<Option<Deck>, NoMemory> {
    let Some(Ask::Deck(cards)) = ask_of(script, step) else {
        return Ok(None);
    };
    match read_deck(alloc, script.config.node, cards) {
        Ok(deck) => Ok(Some(deck)),
        Err(DeckNo::NoMemory) => Err(NoMemory),
        Err(DeckNo::BadCard { .. }) => Ok(None),
    }
}

// The command that a step gives.
fn given_in(alloc: Global, script: &Script, step: u32) -> Result<Option<Command>, NoMemory> {
    match ask_of(script, step) {
        Some(Ask::Command(command)) => Ok(Some(command.copy(alloc)?)),
        _ => Ok(None),
    }
}

fn begins(alloc: Global, script: &Script, step: u32) -> Result<Option<Command>, NoMemory> {
    match deck_of(alloc, script, step)? {
        Some(deck) => Ok(Some(Command::Begin {
            fields: deck.fields,
        })),
        None => Ok(None),
    }
}

fn enters(
    alloc: Global,
    script: &Script,
    step: u32,
    job: JobNo,
) -> Result<Option<Command>, NoMemory> {
    match deck_of(alloc, script, step)? {
        Some(deck) => Ok(Some(Command::Enter {
            job,
            text: deck.text,
        })),
        None => Ok(None),
    }
}

// The outputs with which a job ends.
fn outputs_of(alloc: Global, job: &Job) -> Result<List<OutSpec>, NoMemory>
    requires { IsText job.now.text }
{
    let fields = job.fields;
    if !is_fit(&Command::Begin { fields }) {
        return Ok(List::new(alloc));
    }
    let read = match &job.text {
        Text::Whole(lines) => Read::Lines(lines.copy(alloc)?),
        Text::Gone(group, _) => Read::Gone(*group),
    };
    let runs = matches!(job.phase, Phase::Execute);
    let outcome = outcome_of(alloc, runs, &fields, &read);
    drop(read);
    match outcome? {
        Outcome::End(outputs) => Ok(outputs),
        _ => Ok(List::new(alloc)),
    }
}

fn job_at(queue: &Queue, job: JobNo) -> Option<&Job>
    ensures { option_copied result ≡ job_at_lem queue.now job }
{
    queue.jobs.as_slice().iter().find(|it| it.number.0 == job.0)
}

fn ends(alloc: Global, queue: &Queue, job: JobNo) -> Result<Option<Command>, NoMemory>
    requires { IsSound queue.now }
{
    let Some(found) = job_at(queue, job) else {
        return Ok(None);
    };
    let outputs = outputs_of(alloc, found)?;
    Ok(Some(Command::Ended { job, outputs }))
}

// A command without texts.
fn textless(command: BriefCommand) -> Option<Command> {
    match command {
        BriefCommand::Take(want) => Some(Command::Take { want }),
        BriefCommand::Drop(job) => Some(Command::Drop { job }),
        BriefCommand::TakeConvert => Some(Command::TakeConvert),
        BriefCommand::Converted(job) => Some(Command::Converted { job }),
        BriefCommand::TakeExec => Some(Command::TakeExec),
        BriefCommand::Gather => Some(Command::Gather),
        BriefCommand::Pick => Some(Command::Pick),
        BriefCommand::Mark(job, index, at) => Some(Command::Mark { job, index, at }),
        BriefCommand::Done(job, index) => Some(Command::Done { job, index }),
        BriefCommand::Purge => Some(Command::Purge),
        BriefCommand::Reset(of) => Some(Command::Reset { of }),
        BriefCommand::Restart => Some(Command::Restart),
        BriefCommand::Show => Some(Command::Show { what: What::Queue }),
        _ => None,
    }
}

/// The command of an entry, as it was given to this queue; none where it can't be told.
pub fn command_of(
    alloc: Global,
    script: &Script,
    queue: &Queue,
    brief: &BriefEntry,
) -> Result<Option<Command>, NoMemory>
    requires { IsSound queue.now }
{
    match brief.command {
        BriefCommand::Begin => begins(alloc, script, brief.step),
        BriefCommand::Enter(job) => enters(alloc, script, brief.step, job),
        BriefCommand::Ended(job) => ends(alloc, queue, job),
        command => match textless(command) {
            Some(whole) => Ok(Some(whole)),
            None => given_in(alloc, script, brief.step),
        },
    }
}
