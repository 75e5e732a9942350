//! What goes over a line to another node: Load, Sent and Got.
ghost use Rattle.std.specs.Prelude.{◌≡◌, ◌∷◌, ◌++◌, [], nat_lt, IfOk, OnErr, option_map};
ghost use Rattle.mas_types.specs.Fit.{AreLines};
ghost use Rattle.mas_types.specs.Lists.{change_first as change_first_lem, first_some};
ghost use Rattle.mas_types.specs.Owners.{member_count};
ghost use Rattle.mas_types.specs.Queue.{current_on as current_on_lem, is_current_on};
ghost use Rattle.mas_types.specs.Commands.Input.{not_in_input};
ghost use Rattle.mas_types.specs.Selection.{for_wire};
ghost use Rattle.mas_types.specs.Row.{ComesTo, none_such, refused_where};
ghost use Rattle.mas_types.specs.Commands.Wire.{again, either, gap, got_on as got_on_lem, got_row, load_row, sent_row};

use crate::groups::{deck_places, groups_needed};
use crate::input::{enter_job, not_entered};
use crate::jobs::IsPurged;
use crate::picking::change_first;
use crate::refusing::out_of_order;
use crate::wires::{
    CurrentOn, HasCurrent, HasGot, HasSent, change_wire, current_on, current_or_next, got_on,
    sent_on, wire_at,
};
use mas_types::{Copied, JobNo, Lines, MemberId, NoMemory, Phase, Queue, Refusal, Reply};
use std::alloc::Global;

fn number_to_load(queue: &Queue, line: u8) -> Option<JobNo>
    ensures { result ≡ option_map (λ j. j.number) (either (current_on_lem queue.now line) (for_wire queue.now line)) }
{
    match current_or_next(queue, line) {
        Some(job) => Some(job.number),
        None => None,
    }
}

/// Load: where no job is current on the line, the job selected for it becomes current.
pub fn load(queue: &mut Queue, line: u8) -> Reply
    ensures { ComesTo queue.old (load_row queue.old line) queue.new result }
{
    match number_to_load(queue, line) {
        Some(number) => {
            change_wire(&mut queue.lines, line, &HasCurrent(number));
            Reply::Job(number)
        }
        None => Reply::No(Refusal::Nothing),
    }
}

fn none_current(queue: &Queue, line: u8) -> Option<Refusal>
    ensures { result ≡ none_such Refusal.Nothing (current_on_lem queue.now line) }
{
    match current_on(queue, line) {
        Some(_) => None,
        None => Some(Refusal::Nothing),
    }
}

fn not_sent(queue: &Queue, line: u8, number: u32) -> Option<Refusal>
    ensures { result ≡ first_some (sent_row queue.now line number).refusals }
{
    match out_of_order(sent_on(queue, line), number) {
        Some(why) => Some(why),
        None => none_current(queue, line),
    }
}

fn purge_current(queue: &mut Queue, line: u8)
    ensures { queue.new ≡ record queue.old {
      jobs = change_first_lem (is_current_on queue.old line) (λ j. record j { phase = Phase.Purge }) queue.old.jobs;
    } }
{
    let wire = wire_at(queue, line);
    change_first(&mut queue.jobs, &CurrentOn(wire), &IsPurged);
}

/// Sent: the job that is current on the line was acknowledged, and goes to Purge.
pub fn sent(queue: &mut Queue, line: u8, number: u32) -> Reply
    ensures { ComesTo queue.old (sent_row queue.old line number) queue.new result }
{
    match not_sent(queue, line, number) {
        Some(why) => Reply::No(why),
        None => {
            purge_current(queue, line);
            change_wire(&mut queue.lines, line, &HasSent(number));
            Reply::Count(number)
        }
    }
}

fn not_got(
    queue: &Queue,
    by: MemberId,
    line: u8,
    number: u32,
    job: JobNo,
    groups: usize,
) -> Option<Refusal>
    ensures { result ≡ first_some (again (got_on_lem queue.now line) number
        ∷ (gap (got_on_lem queue.now line) number
        ∷ (not_in_input queue.now by job
        ++ refused_where (nat_lt (member_count by queue.now.owners) groups) Refusal.Nothing ∷ []))) }
{
    match out_of_order(got_on(queue, line), number) {
        Some(why) => Some(why),
        None => not_entered(queue, by, job, groups),
    }
}

/// Got: as Enter, for a job that came over the line. After NoMemory nothing is changed.
pub fn got(
    alloc: Global,
    queue: &mut Queue,
    by: MemberId,
    line: u8,
    number: u32,
    job: JobNo,
    text: &Lines,
) -> Result<Reply, NoMemory>
    requires { AreLines text.now }
    ensures ok { IfOk result (λ reply.
        ComesTo queue.old (got_row queue.old by line number job text.now) queue.new reply) }
    ensures err { OnErr result (queue.new ≡ queue.old) }
{
    let groups = groups_needed(text) as usize;
    match not_got(queue, by, line, number, job, groups) {
        Some(why) => Ok(Reply::No(why)),
        None => {
            let places = deck_places(alloc, job, text)?;
            let copy = text.copy(alloc)?;
            enter_job(queue, by, job, copy, &places);
            change_wire(&mut queue.lines, line, &HasGot(number));
            Ok(Reply::Job(job))
        }
    }
}
