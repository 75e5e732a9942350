//! The closing line of a step in bytes.
ghost use Rattle.std.specs.Prelude.{◌≡◌, ◌≤◌, ◌++◌, IfOk, OnOk};
ghost use Rattle.mas_types.specs.Closings.{AreMembersNamed, IsReplyNamed, IsRefusalNamed, refusal_text, card_cause_text, reply_text, closing_text, closing_line as line_of_closing};
ghost use Rattle.mas_types.specs.declared.answers.Closing.TheVariants as closing;
ghost use Rattle.mas_types.specs.Limits.{members_most};

use crate::answers::{CardCause, Closing};
use crate::commands::{Refusal, Reply};
use crate::ids::{Dev, MemberId, NoMemory};
use crate::lists::List;
use crate::words::{
    push_device, push_digits, push_key, push_member, push_output_key, push_phase, push_text,
    push_with_member, push_with_number,
};
use std::alloc::Global;

/// The line with which a step closes: the member's name, the step in five digits, and how it closed.
pub fn closing_line(
    alloc: Global,
    by: MemberId,
    step: u32,
    end: &Closing,
) -> Result<List<u8>, NoMemory>
    requires by { by.0 ≤ members_most }
    requires named { AreMembersNamed end.now }
    ensures { IfOk result (λ line. line ≡ line_of_closing by step end.now) }
{
    let mut line = List::new(alloc);
    push_member(&mut line, by)?;
    line.push(b' ')?;
    push_digits(&mut line, 5, step as u64)?;
    line.push(b' ')?;
    push_closing(&mut line, end)?;
    Ok(line)
}

fn push_closing(line: &mut List<u8>, end: &Closing) -> Result<(), NoMemory>
    requires named { AreMembersNamed end.now }
    ensures { OnOk result (line.new ≡ line.old ++ closing_text end.now) }
{
    match end {
        Closing::Reply(reply) => push_reply(line, reply),
        Closing::DoneUnits(n) => push_with_number(line, b"OK DONE ", *n as u64),
        Closing::Busy(holder) => push_with_member(line, b"BUSY ", *holder),
        Closing::Dormant(tick) => push_with_number(line, b"DORMANT ", *tick),
        Closing::Down => push_text(line, b"DOWN"),
        Closing::Stopped => push_text(line, b"STOPPED"),
        Closing::Up(member) => push_with_member(line, b"NO UP ", *member),
        Closing::ResetOf(member) => push_with_member(line, b"OK ", *member),
        Closing::NotHolder => push_text(line, b"NO NOT HOLDER"),
        Closing::BadCard(card, cause) => push_bad_card(line, *card, *cause),
        Closing::SpoolLost(volume) => push_with_number(line, b"NO SPOOL LOST ", *volume as u64),
        Closing::PrinterLost => push_text(line, b"NO PRINTER LOST"),
        Closing::LineLost(wire) => push_with_number(line, b"NO LINE LOST ", *wire as u64),
        Closing::NoText(group) => push_with_number(line, b"NO TEXT ", group.0 as u64),
        Closing::NotLost(copy) => push_not_lost(line, *copy),
        Closing::CkptLost(copy) => push_ckpt_lost(line, *copy),
        Closing::Line(sent, got) => push_line(line, *sent, *got),
    }
}

fn push_reply(line: &mut List<u8>, reply: &Reply) -> Result<(), NoMemory>
    requires named { IsReplyNamed reply.now }
    ensures { OnOk result (line.new ≡ line.old ++ reply_text reply.now) }
{
    match reply {
        Reply::Plain => push_text(line, b"OK"),
        Reply::Job(job) => {
            push_text(line, b"OK ")?;
            push_key(line, *job)
        }
        Reply::Output(job, index) => {
            push_text(line, b"OK ")?;
            push_output_key(line, *job, *index)
        }
        Reply::Count(n) => push_with_number(line, b"OK ", *n as u64),
        Reply::Shown(lines) => push_with_number(line, b"OK ", lines.len() as u64),
        Reply::No(why) => {
            push_text(line, b"NO ")?;
            push_refusal(line, *why)
        }
    }
}

/// Adds the text of a refusal.
pub fn push_refusal(line: &mut List<u8>, why: Refusal) -> Result<(), NoMemory>
    requires named { IsRefusalNamed why }
    ensures { OnOk result (line.new ≡ line.old ++ refusal_text why) }
{
    match why {
        Refusal::JobsFull => push_text(line, b"JOBS FULL"),
        Refusal::OutputsFull => push_text(line, b"OUTPUTS FULL"),
        Refusal::SpoolFull => push_text(line, b"SPOOL FULL"),
        Refusal::NoJob => push_text(line, b"NO JOB"),
        Refusal::NoOutput => push_text(line, b"NO OUTPUT"),
        Refusal::InUse(member) => push_with_member(line, b"IN USE ", member),
        Refusal::WrongPhase(phase) => {
            push_text(line, b"PHASE ")?;
            push_phase(line, phase)
        }
        Refusal::Nothing => push_text(line, b"NOTHING"),
        Refusal::NoMember => push_text(line, b"NO MEMBER"),
        Refusal::NoNode => push_text(line, b"NO NODE"),
        Refusal::Again(n) => push_with_number(line, b"AGAIN ", n as u64),
        Refusal::Gap { number, kept } => {
            push_with_number(line, b"GAP ", number as u64)?;
            push_with_number(line, b" ", kept as u64)
        }
    }
}

fn push_bad_card(line: &mut List<u8>, card: u32, cause: CardCause) -> Result<(), NoMemory>
    ensures { OnOk result (line.new ≡ line.old ++ closing_text (closing.BadCard card cause)) }
{
    push_with_number(line, b"NO BAD CARD ", card as u64)?;
    line.push(b' ')?;
    push_text(line, card_cause_word(cause))
}

fn push_not_lost(line: &mut List<u8>, copy: Dev) -> Result<(), NoMemory>
    ensures { OnOk result (line.new ≡ line.old ++ closing_text (closing.NotLost copy)) }
{
    push_text(line, b"NO NOT LOST ")?;
    push_device(line, copy)
}

fn push_ckpt_lost(line: &mut List<u8>, copy: Dev) -> Result<(), NoMemory>
    ensures { OnOk result (line.new ≡ line.old ++ closing_text (closing.CkptLost copy)) }
{
    push_text(line, b"NO CKPT LOST ")?;
    push_device(line, copy)
}

fn push_line(line: &mut List<u8>, sent: u32, got: u32) -> Result<(), NoMemory>
    ensures { OnOk result (line.new ≡ line.old ++ closing_text (closing.Line sent got)) }
{
    push_with_number(line, b"OK SENT ", sent as u64)?;
    push_with_number(line, b" GOT ", got as u64)
}

fn card_cause_word(cause: CardCause) -> &'static [u8]
    ensures { result.now ≡ card_cause_text cause }
{
    match cause {
        CardCause::Text => b"TEXT",
        CardCause::Many => b"MANY",
        CardCause::After => b"AFTER",
        CardCause::First => b"FIRST",
        CardCause::Name => b"NAME",
        CardCause::Operand => b"OPERAND",
        CardCause::Jes => b"JES",
        CardCause::Place => b"PLACE",
    }
}
