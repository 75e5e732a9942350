//! The history, which the operator says after all lines.
ghost use Rattle.std.specs.Prelude.{◌≡◌, ◌≤◌, ◌<◌, ◌^◌, true, All, IfOk, length};
ghost use Rattle.cmd_report.specs.Named.{IsEntryNamed, IsHistoryNamed};
ghost use Rattle.mas_types.specs.Closings.{IsRefusalNamed, IsReplyNamed};
ghost use Rattle.mas_types.specs.Histories.{history as history_lem};
ghost use Rattle.mas_types.specs.Limits.{members_most};
ghost use Rattle.mas_types.specs.Journal.{kept_list};
ghost use Rattle.brief_journal.specs.Brief.{entry_of, reply_of};
ghost use Rattle.mas_complex.specs.Parts.{parts_of};
ghost use Rattle.race_ends.specs.Histories.{IsSaying, SaysHistory};

use crate::before::OPERATOR;
use cmd_report::history;
use mas_complex::{BriefEntry, BriefJournal, BriefReply, Complex, Steady};
use mas_types::{Lines, MEMBERS_MOST, MemberId, NoMemory, Refusal, Status};
use spool_plant::{Act, Plant};
use std::alloc::Global;

// Whether a member has a name.
fn is_named(m: MemberId) -> bool
    ensures { result ≡ true → m.0 ≤ members_most }
{
    m.0 <= MEMBERS_MOST
}

fn is_refusal_named(why: &Refusal) -> bool
    ensures { result ≡ true → IsRefusalNamed why.now }
{
    match why {
        Refusal::InUse(m) => is_named(*m),
        _ => true,
    }
}

fn is_reply_named(reply: &BriefReply) -> bool
    ensures { result ≡ true → IsReplyNamed (reply_of reply.now) }
{
    match reply {
        BriefReply::No(why) => is_refusal_named(why),
        _ => true,
    }
}

// Whether each member that entries name has a name.
fn are_named(briefs: &[BriefEntry]) -> bool
    ensures { result ≡ true → All (λ b. IsEntryNamed (entry_of b)) briefs.now }
{
    for brief in briefs {
        if !is_named(brief.by) {
            return false;
        }
        if !is_reply_named(&brief.reply) {
            return false;
        }
    }
    true
}

// Whether each member that a history names has a name.
fn is_history_named(journal: &BriefJournal) -> bool
    ensures { result ≡ true → IsHistoryNamed journal.now }
{
    for batch in journal.batches() {
        if !are_named(batch.briefs()) {
            return false;
        }
    }
    true
}

// The lines of the history. No history of a run names a member that has no name.
fn lines_of(alloc: Global, journal: &BriefJournal) -> Result<Lines, NoMemory>
    requires count { length (kept_list journal.now) < 2 ^ 63 }
    ensures { IfOk result (λ lines. lines ≡ history_lem journal.now) }
{
    if !is_history_named(journal) {
        return Err(NoMemory);
    }
    history(alloc, journal)
}

/// Says the history, a line for each entry that was kept and one for its end.
///
/// NoMemory where there was none for the lines: then none is said. ConsoleFault where one can't be said.
pub fn say_history<P: Plant + Drop, C: Steady + Drop>(
    alloc: Global,
    complex: &mut Complex<P, C>,
) -> Status
    ensures frame { parts_of complex.new ≡ record (parts_of complex.old) { plant = complex.new.plant } }
    ensures says { SaysHistory P.tells result complex.old.journal (P.view complex.old.plant)
        (P.view complex.new.plant) }
    ensures acts { IsSaying (P.view complex.old.plant) (P.view complex.new.plant) }
{
    let Ok(lines) = lines_of(alloc, &complex.journal) else {
        return Status::NoMemory;
    };
    for at in 0..lines.len() {
        match complex.say(OPERATOR, lines.line(at)) {
            Act::Done => {}
            Act::Failed => return Status::ConsoleFault,
            Act::Halted => unreachable!(),
        }
    }
    Status::Done
}
