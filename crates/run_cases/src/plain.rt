//! The queues of a cold run, as the table of commands has them: from an empty queue of the script's configuration, each
//! command of the run's journal in turn. A start may find the queue after the batches that were kept, or the one that a
//! batch in flight makes of it.
ghost use Rattle.std.specs.Prelude.{◌≡◌, true, IfSome};
ghost use Rattle.mas_types.specs.Sound.{IsSound};
ghost use Rattle.mas_types.specs.Step.{may_give};
ghost use Rattle.script_laws.specs.Limits.{IsScript};

use crate::queues::add_queue;
use crate::whole::command_of;
use brief_journal::{BriefBatch, BriefEntry, BriefJournal};
use mas_types::{Command, Copied, Fate, List, MemberId, NoMemory, Queue, empty_queue};
use model_queue::conditions::is_member;
use model_queue::step_plain;
use queue_laws::fitness::is_fit;
use queue_laws::laws::law_of_sound_parts;
use script_lang::{Script, read_script};
use script_laws::law_of_limits;
use std::alloc::Global;
use tests_lines::Writer;

/// Who resets all members at a start.
const OPERATOR: MemberId = MemberId(0);

// A command of a member on the queue, unless it is beyond the limits.
fn step(alloc: Global, queue: &mut Queue, by: MemberId, command: &Command) -> Result<(), NoMemory>
    requires sound { IsSound queue.old }
    requires by { may_give queue.old by command.now ≡ true }
    ensures { IsSound queue.new }
{
    if !is_fit(command) {
        return Ok(());
    }
    law_of_sound_parts();
    let _reply = step_plain(alloc, queue, by, command)?;
    Ok(())
}

// A command on the queue, which it leaves as it is where nobody may give it.
fn give(alloc: Global, queue: &mut Queue, by: MemberId, command: &Command) -> Result<(), NoMemory>
    requires { IsSound queue.old }
    ensures { IsSound queue.new }
{
    if !is_member(&queue.config, by) {
        return Ok(());
    }
    match command {
        Command::Restart => Ok(()),
        command => step(alloc, queue, by, command),
    }
}

// An entry on the queue.
fn give_brief(
    alloc: Global,
    script: &Script,
    queue: &mut Queue,
    brief: &BriefEntry,
) -> Result<(), NoMemory>
    requires { IsSound queue.old }
    ensures { IsSound queue.new }
{
    let Some(command) = command_of(alloc, script, queue, brief)? else {
        return Ok(());
    };
    let given = give(alloc, queue, brief.by, &command);
    drop(command);
    given
}

// Entries on the queue, one after another.
fn give_all(
    alloc: Global,
    script: &Script,
    queue: &mut Queue,
    briefs: &[BriefEntry],
) -> Result<(), NoMemory>
    requires { IsSound queue.old }
    ensures { IsSound queue.new }
{
    for brief in briefs {
        give_brief(alloc, script, queue, brief)?;
    }
    Ok(())
}

// A queue in a line, and behind it what a start's reset makes of it.
fn reset(alloc: Global, queue: &mut Queue) -> Result<Writer, NoMemory>
    requires { IsSound queue.old }
{
    let mut line = Writer::new(alloc);
    add_queue(&mut line, queue);
    step(alloc, queue, OPERATOR, &Command::Restart)?;
    add_queue(&mut line, queue);
    Ok(line)
}

// What entries make of the queue, in a line.
fn line_with(
    alloc: Global,
    script: &Script,
    queue: &Queue,
    briefs: &[BriefEntry],
) -> Result<Writer, NoMemory>
    requires { IsSound queue.now }
{
    let mut with = queue.copy(alloc)?;
    give_all(alloc, script, &mut with, briefs)?;
    reset(alloc, &mut with)
}

// A batch on the queue, if it was kept.
fn keep(
    alloc: Global,
    script: &Script,
    queue: &mut Queue,
    batch: &BriefBatch,
) -> Result<(), NoMemory>
    requires { IsSound queue.old }
    ensures { IsSound queue.new }
{
    if batch.fate() == Fate::Kept {
        give_all(alloc, script, queue, batch.briefs())
    } else {
        Ok(())
    }
}

// The queues of these batches, one after another.
fn lines_from(
    alloc: Global,
    script: &Script,
    queue: &mut Queue,
    batches: &[BriefBatch],
) -> Result<List<Writer>, NoMemory>
    requires { IsSound queue.old }
{
    let mut lines = List::new(alloc);
    lines.push(line_with(alloc, script, queue, &[])?)?;
    for batch in batches {
        lines.push(line_with(alloc, script, queue, batch.briefs())?)?;
        keep(alloc, script, queue, batch)?;
    }
    Ok(lines)
}

// The queues of a cold run of a script.
fn lines_in(
    alloc: Global,
    script: &Script,
    batches: &[BriefBatch],
) -> Result<List<Writer>, NoMemory>
    requires { IsScript script.now }
{
    let mut queue = empty_queue(alloc, &script.config, &script.routes)?;
    lines_from(alloc, script, &mut queue, batches)
}

// The script that these bytes are, if they are one.
fn script_of(alloc: Global, bytes: &[u8]) -> Option<Script>
    ensures { IfSome result IsScript }
{
    law_of_limits();
    let Ok(script) = read_script(alloc, bytes, true, false, false) else {
        return None;
    };
    Some(script)
}

/// The queues of a cold run of a script, each in a line, with what a start's reset makes of it behind it: the one that
/// the run begins with, and what each batch makes of the one that was kept before it. There are none where no script is
/// read.
pub fn lines_of(
    alloc: Global,
    script: &[u8],
    journal: &BriefJournal,
) -> Result<List<Writer>, NoMemory> {
    let Some(script) = script_of(alloc, script) else {
        return Ok(List::new(alloc));
    };
    lines_in(alloc, &script, journal.batches())
}
