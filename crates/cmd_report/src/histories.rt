//! Histories.
ghost use Rattle.std.specs.Prelude.{◌≡◌, ◌++◌, ◌+◌, ◌<◌, ◌^◌, length, map, All, IfOk, OnOk};
ghost use Rattle.mas_types.specs.Closings.{IsReplyNamed};
ghost use Rattle.mas_types.specs.Histories.{command_word as command_word_lem, outcome_text, history_line as history_line_lem, history_lines, history_end as history_end_lem, history as history_lem};
ghost use Rattle.mas_types.specs.Journal.{is_kept as is_kept_lem, kept_list};
ghost use Rattle.cmd_report.specs.Named.{IsEntryNamed, IsHistoryNamed, kept_in};
ghost use Rattle.brief_journal.specs.Brief.{command_of, entry_of, reply_of};

use brief_journal::{BriefBatch, BriefCommand, BriefEntry, BriefJournal, BriefReply};
use mas_types::closings::push_refusal;
use mas_types::words::{
    push_decimal, push_digits, push_key, push_member, push_output_key, push_text,
};
use mas_types::{Fate, Lines, List, NoMemory};
use std::alloc::Global;

/// The lines of a run's history: of each entry that was kept, in order and counted from 1, who gave it, its step, its
/// word and its outcome; and of the end, with the number of entries. NoMemory comes only when out of memory.
pub fn history(alloc: Global, journal: &BriefJournal) -> Result<Lines, NoMemory>
    requires named { IsHistoryNamed journal.now }
    requires count { length (kept_list journal.now) < 2 ^ 63 }
    ensures { IfOk result (λ lines. lines ≡ history_lem journal.now) }
{
    let mut lines = Lines::new(alloc);
    for batch in journal.batches() {
        push_batch(alloc, &mut lines, batch)?;
    }
    let end = history_end(alloc, lines.len() as u64)?;
    lines.push(end.as_slice())?;
    Ok(lines)
}

fn is_kept(fate: Fate) -> bool
    ensures { result ≡ is_kept_lem fate }
{
    matches!(fate, Fate::Kept)
}

// Adds the lines of a batch that was kept.
#[tactic(auto, using(crate::proofs::BriefLemmas::all_lines, crate::proofs::BriefLemmas::named_briefs))]
fn push_batch(alloc: Global, lines: &mut Lines, batch: &BriefBatch) -> Result<(), NoMemory>
    requires named { All IsEntryNamed batch.now.entries }
    requires count { length lines.old + length (kept_in batch.now) < 2 ^ 63 }
    ensures { OnOk result (lines.new ≡ lines.old ++ history_lines (length lines.old + 1) (kept_in batch.now)) }
{
    if !is_kept(batch.fate()) {
        return Ok(());
    }
    push_briefs(alloc, lines, batch.briefs())
}

// Adds the lines of entries, of which the first has the place behind the lines so far.
fn push_briefs(alloc: Global, lines: &mut Lines, briefs: &[BriefEntry]) -> Result<(), NoMemory>
    requires named { All (λ b. IsEntryNamed (entry_of b)) briefs.now }
    requires count { length lines.old + length briefs.now < 2 ^ 63 }
    ensures { OnOk result (lines.new ≡ lines.old ++ history_lines (length lines.old + 1) (map entry_of briefs.now)) }
{
    for brief in briefs {
        let line = history_line(alloc, lines.len() as u64 + 1, brief)?;
        lines.push(line.as_slice())?;
    }
    Ok(())
}

fn history_end(alloc: Global, total: u64) -> Result<List<u8>, NoMemory>
    ensures { IfOk result (λ line. line ≡ history_end_lem total) }
{
    let mut line = List::new(alloc);
    push_text(&mut line, b"H END ")?;
    push_decimal(&mut line, total)?;
    Ok(line)
}

fn history_line(alloc: Global, place: u64, entry: &BriefEntry) -> Result<List<u8>, NoMemory>
    requires { IsEntryNamed (entry_of entry.now) }
    ensures { IfOk result (λ line. line ≡ history_line_lem place (entry_of entry.now)) }
{
    let mut line = List::new(alloc);
    push_text(&mut line, b"H ")?;
    push_decimal(&mut line, place)?;
    line.push(b' ')?;
    push_member(&mut line, entry.by)?;
    line.push(b' ')?;
    push_digits(&mut line, 5, entry.step as u64)?;
    line.push(b' ')?;
    push_text(&mut line, command_word(entry.command))?;
    line.push(b' ')?;
    push_outcome(&mut line, entry.reply)?;
    Ok(line)
}

fn push_outcome(line: &mut List<u8>, reply: BriefReply) -> Result<(), NoMemory>
    requires { IsReplyNamed (reply_of reply) }
    ensures { OnOk result (line.new ≡ line.old ++ outcome_text (reply_of reply)) }
{
    match reply {
        BriefReply::Plain => push_text(line, b"OK"),
        BriefReply::Job(job) => push_key(line, job),
        BriefReply::Output(job, index) => push_output_key(line, job, index),
        BriefReply::Count(n) => push_decimal(line, n as u64),
        BriefReply::Shown(lines) => push_decimal(line, lines as u64),
        BriefReply::No(why) => {
            push_text(line, b"NO ")?;
            push_refusal(line, why)
        }
    }
}

fn command_word(command: BriefCommand) -> &'static [u8]
    ensures { result.now ≡ command_word_lem (command_of command) }
{
    match command {
        BriefCommand::Begin => b"BEGIN",
        BriefCommand::Take(_) => b"TAKE",
        BriefCommand::Drop(_) => b"DROP",
        BriefCommand::Enter(_) => b"ENTER",
        BriefCommand::TakeConvert => b"TAKECONVERT",
        BriefCommand::Converted(_) => b"CONVERTED",
        BriefCommand::TakeExec => b"TAKEEXEC",
        BriefCommand::Ended(_) => b"ENDED",
        BriefCommand::Gather => b"GATHER",
        BriefCommand::Pick => b"PICK",
        BriefCommand::Mark(..) => b"MARK",
        BriefCommand::Done(..) => b"DONE",
        BriefCommand::Purge => b"PURGE",
        BriefCommand::Hold(_) => b"HOLD",
        BriefCommand::Release(_) => b"RELEASE",
        BriefCommand::Cancel(_) => b"CANCEL",
        BriefCommand::SetPrio(..) => b"SETPRIO",
        BriefCommand::SetClass(..) => b"SETCLASS",
        BriefCommand::Out(_) => b"OUT",
        BriefCommand::CancelOut(..) => b"CANCELOUT",
        BriefCommand::SetOut(..) => b"SETOUT",
        BriefCommand::Show => b"SHOW",
        BriefCommand::SetInit => b"SETINIT",
        BriefCommand::SetPrt => b"SETPRT",
        BriefCommand::Back(_) => b"BACK",
        BriefCommand::Forward(_) => b"FORWARD",
        BriefCommand::Reset(_) => b"RESET",
        BriefCommand::Restart => b"RESTART",
        BriefCommand::Load(_) => b"LOAD",
        BriefCommand::Sent(..) => b"SENT",
        BriefCommand::Got(..) => b"GOT",
    }
}
