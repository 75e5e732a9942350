//! What memory keeps of an entry.
ghost use Rattle.std.specs.Prelude.{◌≡◌, ◌++◌, ◌∷◌, [], map, IfOk, OnOk};
ghost use Rattle.brief_journal.specs.Brief.{brief_command as brief_command_lem, brief_reply as brief_reply_lem, brief_of as brief_of_lem};

use mas_types::{Class, Command, Entry, JobNo, MemberId, NoMemory, OutNo, Prio, Refusal, Reply};
use std::alloc::Global;

/// A command without its texts, its lists, the fields of its job and its number on a line that it came by.
#[derive(Clone, Copy)]
pub enum BriefCommand {
    /// A job begins.
    Begin,
    /// So many groups are taken.
    Take(u32),
    /// That job goes, 0 for none.
    Drop(JobNo),
    /// That job gets its deck.
    Enter(JobNo),
    /// A job is taken for conversion.
    TakeConvert,
    /// That job is converted.
    Converted(JobNo),
    /// A job is taken for execution.
    TakeExec,
    /// That job has run.
    Ended(JobNo),
    /// The first job in Output goes on.
    Gather,
    /// An output is taken for the printer.
    Pick,
    /// So many lines of that job's output are printed.
    Mark(JobNo, OutNo, u32),
    /// That job's output goes.
    Done(JobNo, OutNo),
    /// The first job in Purge goes.
    Purge,
    /// That job is held.
    Hold(JobNo),
    /// That job is held no longer.
    Release(JobNo),
    /// That job is cancelled.
    Cancel(JobNo),
    /// That job gets another priority.
    SetPrio(JobNo, Prio),
    /// That job gets another class.
    SetClass(JobNo, Class),
    /// The held outputs of that job are released.
    Out(JobNo),
    /// That job's output goes, printed or not.
    CancelOut(JobNo, OutNo),
    /// That job's output gets another class.
    SetOut(JobNo, OutNo, Class),
    /// A display.
    Show,
    /// Classes of initiators are set.
    SetInit,
    /// A printer is set.
    SetPrt,
    /// A mark falls by so many lines.
    Back(u32),
    /// A mark rises by so many lines.
    Forward(u32),
    /// That member is reset.
    Reset(MemberId),
    /// All members are reset.
    Restart,
    /// A job is taken for that line.
    Load(u8),
    /// The job of that number was sent over the line.
    Sent(u8, u32),
    /// That job gets its deck, which came over the line.
    Got(u8, JobNo),
}

/// A reply, of whose display there is the number of lines alone.
#[derive(Clone, Copy)]
pub enum BriefReply {
    /// It was done.
    Plain,
    /// It was done to that job.
    Job(JobNo),
    /// It was done to that output.
    Output(JobNo, OutNo),
    /// It was done, with that count.
    Count(u32),
    /// A display of so many lines.
    Shown(usize),
    /// It was refused, and changed nothing.
    No(Refusal),
}

/// An entry without its texts.
#[derive(Clone, Copy)]
pub struct BriefEntry {
    /// The member that gave it.
    pub by: MemberId,
    /// The step in which it did.
    pub step: u32,
    /// The command.
    pub command: BriefCommand,
    /// Its reply.
    pub reply: BriefReply,
}

fn brief_command(command: &Command) -> BriefCommand
    ensures { result ≡ brief_command_lem command.now }
{
    match command {
        Command::Begin { .. } => BriefCommand::Begin,
        Command::Take { want } => BriefCommand::Take(*want),
        Command::Drop { job } => BriefCommand::Drop(*job),
        Command::Enter { job, .. } => BriefCommand::Enter(*job),
        Command::TakeConvert => BriefCommand::TakeConvert,
        Command::Converted { job } => BriefCommand::Converted(*job),
        Command::TakeExec => BriefCommand::TakeExec,
        Command::Ended { job, .. } => BriefCommand::Ended(*job),
        Command::Gather => BriefCommand::Gather,
        Command::Pick => BriefCommand::Pick,
        Command::Mark { job, index, at } => BriefCommand::Mark(*job, *index, *at),
        Command::Done { job, index } => BriefCommand::Done(*job, *index),
        Command::Purge => BriefCommand::Purge,
        Command::Hold { job } => BriefCommand::Hold(*job),
        Command::Release { job } => BriefCommand::Release(*job),
        Command::Cancel { job } => BriefCommand::Cancel(*job),
        Command::SetPrio { job, prio } => BriefCommand::SetPrio(*job, *prio),
        Command::SetClass { job, class } => BriefCommand::SetClass(*job, *class),
        Command::Out { job } => BriefCommand::Out(*job),
        Command::CancelOut { job, index } => BriefCommand::CancelOut(*job, *index),
        Command::SetOut { job, index, class } => BriefCommand::SetOut(*job, *index, *class),
        Command::Show { .. } => BriefCommand::Show,
        Command::SetInit { .. } => BriefCommand::SetInit,
        Command::SetPrt { .. } => BriefCommand::SetPrt,
        Command::Back { lines } => BriefCommand::Back(*lines),
        Command::Forward { lines } => BriefCommand::Forward(*lines),
        Command::Reset { of } => BriefCommand::Reset(*of),
        Command::Restart => BriefCommand::Restart,
        Command::Load { line } => BriefCommand::Load(*line),
        Command::Sent { line, number } => BriefCommand::Sent(*line, *number),
        Command::Got { line, job, .. } => BriefCommand::Got(*line, *job),
    }
}

fn brief_reply(reply: &Reply) -> BriefReply
    ensures { result ≡ brief_reply_lem reply.now }
{
    match reply {
        Reply::Plain => BriefReply::Plain,
        Reply::Job(job) => BriefReply::Job(*job),
        Reply::Output(job, index) => BriefReply::Output(*job, *index),
        Reply::Count(n) => BriefReply::Count(*n),
        Reply::Shown(lines) => BriefReply::Shown(lines.len()),
        Reply::No(why) => BriefReply::No(*why),
    }
}

fn brief_of(entry: &Entry) -> BriefEntry
    ensures { result ≡ brief_of_lem entry.now }
{
    BriefEntry {
        by: entry.by,
        step: entry.step,
        command: brief_command(&entry.command),
        reply: brief_reply(&entry.reply),
    }
}

// One more entry, in brief.
fn push_brief(briefs: &mut Vec<BriefEntry>, entry: &Entry) -> Result<(), NoMemory>
    ensures { OnOk result (briefs.new.items ≡ briefs.old.items ++ brief_of_lem entry.now ∷ []) }
{
    match briefs.push(brief_of(entry)) {
        Ok(()) => Ok(()),
        Err(_) => Err(NoMemory),
    }
}

// The entries in brief, in a block of just their size.
pub(crate) fn briefs_of(alloc: Global, entries: &[Entry]) -> Result<Vec<BriefEntry>, NoMemory>
    ensures { IfOk result (λ briefs. briefs.items ≡ map brief_of_lem entries.now) }
{
    let mut briefs = Vec::with_capacity(alloc, entries.len())?;
    for entry in entries {
        push_brief(&mut briefs, entry)?;
    }
    Ok(briefs)
}
