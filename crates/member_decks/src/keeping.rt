//! The lines with which a step closes, and what is kept of one that is out of memory.
ghost use Rattle.member_decks.specs.Names.{Plain, IsReplyNamed, members_most, begun, end_of, MayAct, TellSound, AreFit, CanDraw, HasDone, IsAtRest, first_of, second_of, HasCounted, LeavesNotes};
ghost use Rattle.std.specs.Prelude.{◌≡◌, ◌+◌, ◌≤◌, ◌<◌, ◌^◌, [], All, None, Some, Option, reverse, true, false, Err, IfOk};
ghost use Rattle.std.specs.List.{find};
ghost use Rattle.std.specs.Option.{option_copied};
ghost use Rattle.member_decks.specs.Decks.{closes as closes_lem, closing_reply, finishing as finishing_lem, lines_by};
ghost use Rattle.mas_complex.specs.CallCounts.{pair_of};
ghost use Rattle.mas_complex.specs.Begins.{HasTextsWith, IsUntoldOf, MayBeginOf, kept_queue};
ghost use Rattle.member_decks.specs.Keeping.{GivesUpLeaves, IsOnCopies};

use cmd_report::{closing, reply_lines};
use mas_complex::{Complex, Steady};
use mas_types::{Closing, Command, Entry, JobNo, Lines, MemberId, NoMemory, Reply};
use member_steps::{Member, NodeNo, keep_batch};
use spool_plant::Plant;
use std::alloc::Global;

// Whether a step may close with the reply to this command.
fn closes(entry: &Entry) -> bool
    ensures { result ≡ closes_lem entry.now }
{
    !matches!(entry.command, Command::Drop { .. })
}

// The last of the entries with whose reply a step may close.
fn last_closing(entries: &[Entry]) -> Option<&Entry>
    ensures { option_copied result ≡ find closes_lem (reverse entries.now) }
{
    entries.iter().rev().find(|entry| closes(entry))
}

// The line of a step that found a volume lost.
fn lost_line(alloc: Global, by: MemberId, step: u32, volume: u8) -> Result<Lines, NoMemory>
    requires { by.0 ≤ members_most }
    ensures { IfOk result (λ lines. lines ≡ lines_by by step (Some volume) Plain) }
{
    let line = closing(alloc, by, step, &Closing::SpoolLost(volume))?;
    let mut lines = Lines::new(alloc);
    lines.push(line.as_slice())?;
    Ok(lines)
}

/// The lines with which a step closes whose last batch this is. NoMemory comes only when out of memory.
pub fn last_lines(
    member: &Member,
    alloc: Global,
    step: u32,
    lost: Option<u8>,
) -> Result<Lines, NoMemory>
    requires by { member.now.id.0 ≤ members_most }
    requires named { All (λ e. IsReplyNamed e.reply) member.now.batch }
    ensures { IfOk result (λ lines. lines ≡ lines_by member.now.id step lost (closing_reply member.now.batch)) }
{
    let volume = match lost {
        Some(volume) => volume,
        None => {
            return match last_closing(member.batch.as_slice()) {
                Some(entry) => reply_lines(alloc, member.id, step, &entry.reply),
                None => reply_lines(alloc, member.id, step, &Reply::Plain),
            };
        }
    };
    lost_line(alloc, member.id, step, volume)
}

/// The command that follows once the text was spooled, or a volume was found lost.
pub fn finishing(job: JobNo, text: Lines, lost: Option<u8>) -> Command
    ensures { result ≡ finishing_lem lost job text }
{
    match lost {
        None => Command::Enter { job, text },
        Some(_) => Command::Drop { job },
    }
}

/// Ends a step that is out of memory: what was done before is kept, if there is memory for that. Answers how the
/// step ends.
pub fn give_up<P: Plant + Drop, C: Steady + Drop>(
    member: &mut Member,
    alloc: Global,
    complex: &mut Complex<P, C>,
) -> NodeNo
    requires by { member.old.id.0 ≤ members_most }
    requires may { MayAct complex.old.book member.old.id }
    requires own { All (λ e. e.by ≡ member.old.id) member.old.batch }
    requires none { complex.old.current ≡ None }
    requires unplaced { complex.old.placed ≡ false }
    requires here { member.old.behind ≡ false }
    requires draws { CanDraw member.old.checkpoint }
    requires fit { AreFit member.old.checkpoint.tables }
    requires same_level { P.tells → complex.old.level ≡ member.old.checkpoint.level }
    requires done { P.tells → HasDone (kept_queue complex.old) member.old.batch member.old.checkpoint }
    requires small { complex.old.level + 1 < 2 ^ 63 }
    requires rests1 { IsAtRest P.tells (first_of complex.old) member.old.checkpoint.pages }
    requires rests2 { IsAtRest P.tells (second_of complex.old) member.old.checkpoint.pages }
    requires untold { P.tells → IsUntoldOf complex.old member.old.batch }
    requires allowed { P.tells → MayBeginOf complex.old member.old.batch }
    requires texts { P.tells → HasTextsWith complex.old member.old.batch }
    requires sound { P.tells → TellSound member.old.checkpoint.tables }
    requires level { member.old.checkpoint.level + 1 < 2 ^ 63 }
    requires room1 { complex.old.pair.first.alive ≡ true → 1 ≤ C.room complex.old.pair.first.copy }
    requires room2 { complex.old.pair.second.alive ≡ true → 1 ≤ C.room complex.old.pair.second.copy }
    ensures base { complex.new.base ≡ complex.old.base }
    ensures since { complex.new.since ≡ complex.old.since }
    ensures renewals { complex.new.renewals ≡ complex.old.renewals }
    ensures book { complex.new.book ≡ complex.old.book }
    ensures id { member.new.id ≡ member.old.id }
    ensures acts { IsOnCopies {T = Unit {0}} P.tells member.old.id.0
        (pair_of complex.old) (pair_of complex.new) (Err result) }
    ensures leaves { GivesUpLeaves result complex.old.journal.batches
        (end_of complex.new.placed complex.new.current complex.new.journal.batches)
        (begun (P.view complex.old.plant).now member.old.id member.old.batch) (P.view complex.new.plant).now }
    ensures notes { LeavesNotes member.old.id complex.old complex.new }
    ensures counts { HasCounted {T = Unit {0}} member.old.id [] complex.old.printed complex.new.printed (Err result) }
{
    if member.batch.len() == 0 {
        return NodeNo::NoMemory;
    }
    match keep_batch(member, alloc, complex) {
        Ok(()) => NodeNo::NoMemory,
        Err(no) => no,
    }
}
