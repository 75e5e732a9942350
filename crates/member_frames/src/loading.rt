//! The first sitting of a step that serves a line.
ghost use Rattle.std.specs.Prelude.{◌≡◌, IfOk};
ghost use Rattle.mas_types.specs.declared.queues.Queue.{Queue};
ghost use Rattle.mas_types.specs.Fit.{IsLine};
ghost use Rattle.ckpt_tables.specs.Shape.{HasSpelling};
ghost use Rattle.mas_complex.specs.Parts.{parts_of};
ghost use Rattle.queue_telling.specs.Telling.{Tell};
ghost use Rattle.step_turns.specs.Serving.{offer_at as offer_at_lem, offered as offered_lem};
ghost use Rattle.step_turns.specs.declared.states.State.TheVariants.{Fresh};
ghost use Rattle.step_turns.specs.declared.states.Task.TheVariants.{Line};
ghost use Rattle.member_sittings.specs.Sat.{HasSat, SitsOn, begins, sat_in};
ghost use Rattle.member_sittings.specs.Whole.{MaySit};
ghost use Rattle.member_frames.specs.Waits.{IsOfferThere, WaitsOnLine};

use crate::nexts::count_on;
use ckpt_tables::Tables;
use job_queue::find_job;
use mas_complex::{Complex, Steady};
use mas_types::{Command, JobNo, Reply};
use member_node::{Member, NodeNo};
use member_sittings::{SittingEnd, pause_sitting};
use queue_texts::law_of_texts;
use spool_plant::Plant;
use std::alloc::Global;
use step_turns::{Aside, Holder, Offer};

// The job of this number as its frame names it: none where the line's numbers are used up.
fn offer_at(tables: &Tables, line: u8, job: JobNo) -> Option<Offer>
    requires line { IsLine line }
    requires spelling { HasSpelling tables.now }
    ensures is { (Q : Queue) → Tell tables.now Q → result ≡ offer_at_lem Q line job }
    ensures there { IsOfferThere tables.now result }
{
    let sent = count_on(tables, line).sent;
    if sent == u32::MAX {
        return None;
    }
    match find_job(tables.jobs.as_slice(), job) {
        Some(found) => Some(Offer {
            job,
            number: sent + 1,
            origin: found.item.fields.origin,
            node: found.item.fields.node,
        }),
        None => None,
    }
}

// The job that a Load of the line answered, as its frame names it, if it answered one.
fn offered(tables: &Tables, line: u8, reply: &Reply) -> Option<Offer>
    requires line { IsLine line }
    requires spelling { HasSpelling tables.now }
    ensures is { (Q : Queue) → Tell tables.now Q → result ≡ offered_lem Q line reply.now }
    ensures there { IsOfferThere tables.now result }
{
    match reply {
        Reply::Job(job) => offer_at(tables, line, *job),
        _ => None,
    }
}

/// The first sitting of a step that serves a line: a job is loaded where none is current on it, and the step waits for
/// the exchange.
///
/// NoMemory leaves the journal and the copies as they were. BothLost comes only where both copies count as lost at the
/// end of the call, Halted only where the member was stopped in it. After an error the member can't go on.
pub fn sit_load<P: Plant + Drop, C: Steady + Drop>(
    member: &mut Member,
    alloc: Global,
    complex: &mut Complex<P, C>,
    holder: Holder,
    line: u8,
) -> Result<SittingEnd, NodeNo>
    requires may { MaySit complex.old member.old holder }
    requires line { IsLine line }
    ensures frame { parts_of complex.new ≡ sat_in (parts_of complex.new) (parts_of complex.old) }
    ensures id { member.new.id ≡ member.old.id }
    ensures sat { HasSat (begins holder (Fresh (Line line))) complex.old complex.new result }
    ensures again { IfOk result (SitsOn complex.old complex.new member.old member.new holder.step) }
    ensures waits { IfOk result (λ e. WaitsOnLine P.tells member.new e.next) }
{
    complex.kept_texts();
    law_of_texts();
    let Ok(()) = member.do_command(alloc, holder.step, Command::Load { line }) else {
        return Err(NodeNo::NoMemory);
    };
    let offer = offered(&member.checkpoint.tables, line, member.last_reply());
    pause_sitting(
        member,
        alloc,
        complex,
        holder,
        Aside::Exchange { line, offer },
    )
}
