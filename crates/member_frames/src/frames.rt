//! The sittings of a step that handle the frames which came over its line.
ghost use Rattle.std.specs.Prelude.{◌≡◌, ◌+◌, ◌*◌, ◌≤◌, ◌<◌, None, Some, length, IfOk, IfSome};
ghost use Rattle.mas_types.specs.Closings.{AreMembersNamed};
ghost use Rattle.mas_types.specs.Sound.{IsSound};
ghost use Rattle.mas_complex.specs.Parts.{parts_of};
ghost use Rattle.member_node.specs.Reads.{too_high};
ghost use Rattle.step_turns.specs.declared.states.Offer.{Offer as OfferLem};
ghost use Rattle.step_turns.specs.Courses.{aside_most};
ghost use Rattle.step_turns.specs.Laws.{aside_done, aside_units, units_left};
ghost use Rattle.step_turns.specs.Serving.{exchange_end as exchange_end_lem, unless_cut, unread};
ghost use Rattle.member_sittings.specs.Sat.{HasSat, resumes, sat_in};
ghost use Rattle.member_sittings.specs.Whole.{MaySit};
ghost use Rattle.member_giving.specs.Ready.{HasFewer};
ghost use Rattle.member_giving.specs.Works.{SitsIn};
ghost use Rattle.member_frames.specs.Plays.{EndsLine, EndsOrServes, answer_end as answer_end_lem};
ghost use Rattle.member_frames.specs.Waits.{IsServable, MayResumeLine, WaitsOnLine};

use crate::arrivals::{Stored, heard, open_arrival, sit_arrival};
use crate::nexts::{Next, next_of, take_first};
use crate::serving::serve;
use job_outcome::Read;
use mas_complex::{Complex, Steady};
use mas_types::Closing;
use member_giving::close_step;
use member_node::{Member, NodeNo};
use member_sittings::SittingEnd;
use spool_plant::Plant;
use std::alloc::Global;
use step_turns::{Aside, Found, Holder, Offer, Service};

// What closes a step whose line was found lost, or not.
fn cut_end(line: u8, lost: bool) -> Option<Closing>
    ensures is { result ≡ unless_cut line lost None }
    ensures named { IfSome result AreMembersNamed }
    ensures closes { IfSome result EndsLine }
{
    if lost {
        return Some(Closing::LineLost(line));
    }
    None
}

// What closes a step that offered a job, by how its text was read.
fn offered_end(read: &Read, line: u8, lost: bool) -> Option<Closing>
    ensures is { (offer : OfferLem) → result ≡ unless_cut line lost (unread (Some offer) read.now) }
    ensures named { IfSome result AreMembersNamed }
    ensures closes { IfSome result EndsLine }
{
    match read {
        Read::Gone(group) => Some(Closing::NoText(*group)),
        Read::Lost(volume) => Some(Closing::SpoolLost(*volume)),
        Read::Lines(_) => cut_end(line, lost),
    }
}

// What closes a step before it has handled a frame: the text of the job that is offered, or the line.
fn exchange_end(offer: Option<Offer>, line: u8, found: &Found) -> Option<Closing>
    ensures is { result ≡ exchange_end_lem offer line found.now }
    ensures named { IfSome result AreMembersNamed }
    ensures closes { IfSome result EndsLine }
{
    match offer {
        Some(_) => offered_end(&found.read, line, found.wire),
        None => cut_end(line, found.wire),
    }
}

// What closes a step that waited to acknowledge a job of this number, if it did: its line was found lost.
fn answer_end(number: Option<u32>, line: u8, lost: bool) -> Option<Closing>
    ensures is { result ≡ answer_end_lem number line lost }
    ensures named { IfSome result AreMembersNamed }
    ensures closes { IfSome result EndsLine }
{
    match number {
        Some(_) => cut_end(line, lost),
        None => None,
    }
}

// The frames that are left, at the beginning of a sitting.
fn serve_frames<P: Plant + Drop, C: Steady + Drop>(
    member: &mut Member,
    alloc: Global,
    complex: &mut Complex<P, C>,
    holder: Holder,
    service: Service,
) -> Result<SittingEnd, NodeNo>
    requires may { MaySit complex.old member.old holder }
    requires base_sound { P.tells → IsSound complex.old.base }
    requires servable { IsServable service }
    requires level { complex.old.level + 2 * length service.frames + 3 < too_high }
    ensures frame { parts_of complex.new ≡ sat_in (parts_of complex.new) (parts_of complex.old) }
    ensures id { member.new.id ≡ member.old.id }
    ensures serves { EndsOrServes P.tells holder None service complex.old complex.new result }
    ensures again { IfOk result (λ e. SitsIn e.next complex.new member.new holder.step) }
    ensures waits { IfOk result (λ e. WaitsOnLine P.tells member.new e.next) }
    ensures fewer { IfOk result (λ e.
        HasFewer (2 * length service.frames + 1) (2 * length service.frames) e.next) }
    ensures reached { IfOk result (λ e. complex.new.level + units_left e.next
        ≤ complex.old.level + 2 * length service.frames + 1) }
{
    match next_of(&member.checkpoint.tables, service) {
        Next::Begin(service) => {
            let (frame, service) = take_first(service);
            open_arrival(member, alloc, complex, holder, frame, service)
        }
        next => serve(member, alloc, complex, holder, next),
    }
}

// The frames that are left, at the beginning of a sitting, unless this closes the step.
fn end_or_serve<P: Plant + Drop, C: Steady + Drop>(
    member: &mut Member,
    alloc: Global,
    complex: &mut Complex<P, C>,
    holder: Holder,
    end: Option<Closing>,
    service: Service,
) -> Result<SittingEnd, NodeNo>
    requires may { MaySit complex.old member.old holder }
    requires base_sound { P.tells → IsSound complex.old.base }
    requires named { IfSome end AreMembersNamed }
    requires closes { IfSome end EndsLine }
    requires servable { IsServable service }
    requires level { complex.old.level + 2 * length service.frames + 3 < too_high }
    ensures frame { parts_of complex.new ≡ sat_in (parts_of complex.new) (parts_of complex.old) }
    ensures id { member.new.id ≡ member.old.id }
    ensures serves { EndsOrServes P.tells holder end service complex.old complex.new result }
    ensures again { IfOk result (λ e. SitsIn e.next complex.new member.new holder.step) }
    ensures waits { IfOk result (λ e. WaitsOnLine P.tells member.new e.next) }
    ensures fewer { IfOk result (λ e.
        HasFewer (2 * length service.frames + 1) (2 * length service.frames) e.next) }
    ensures reached { IfOk result (λ e. complex.new.level + units_left e.next
        ≤ complex.old.level + 2 * length service.frames + 1) }
{
    match end {
        Some(end) => close_step(member, alloc, complex, holder, &end, 0),
        None => serve_frames(member, alloc, complex, holder, service),
    }
}

/// A sitting of a step that serves a line, after the acts for which it waited. After the exchange, or an
/// acknowledgement, the frames that came are handled one after another: an acknowledgement by Sent, a job by its
/// number. The step waits again for a job's text to be spooled, or to acknowledge one; or it closes, with the jobs that
/// left and came, or with what refused one or was lost. Once a job's text was spooled it is got, or dropped.
///
/// NoMemory leaves the first ones of the sitting's batches, or all of them, and of the next one perhaps what was done
/// of it. BothLost comes only where both copies count as lost at the end of the call, Halted only where the member was
/// stopped in it, ConsoleFault only where the console failed. After an error the member can't go on.
pub fn sit_frames<P: Plant + Drop, C: Steady + Drop>(
    member: &mut Member,
    alloc: Global,
    complex: &mut Complex<P, C>,
    holder: Holder,
    aside: Aside,
    found: Found,
) -> Result<SittingEnd, NodeNo>
    requires may { MaySit complex.old member.old holder }
    requires base_sound { P.tells → IsSound complex.old.base }
    requires right { MayResumeLine P.tells complex.old member.old aside found }
    requires level { complex.old.level + aside_units aside + 3 < too_high }
    ensures frame { parts_of complex.new ≡ sat_in (parts_of complex.new) (parts_of complex.old) }
    ensures id { member.new.id ≡ member.old.id }
    ensures sat { HasSat (resumes holder aside found) complex.old complex.new result }
    ensures again { IfOk result (λ e. SitsIn e.next complex.new member.new holder.step) }
    ensures waits { IfOk result (λ e. WaitsOnLine P.tells member.new e.next) }
    ensures fewer { IfOk result (λ e. HasFewer (aside_most aside) (aside_done aside + aside_units aside) e.next) }
    ensures reached { IfOk result (λ e. complex.new.level + units_left e.next
        ≤ complex.old.level + aside_units aside + 1) }
{
    match aside {
        Aside::Exchange { line, offer } => {
            let end = exchange_end(offer, line, &found);
            let frames = heard(found.frames);
            let service = Service {
                line,
                sent: 0,
                got: 0,
                frames,
            };
            end_or_serve(member, alloc, complex, holder, end, service)
        }
        Aside::Acknowledge { number, service } => {
            let end = answer_end(number, service.line, found.wire);
            end_or_serve(member, alloc, complex, holder, end, service)
        }
        Aside::SpoolArrival {
            number,
            job,
            text,
            service,
        } => {
            let lost = found.lost;
            let stored = Stored {
                number,
                job,
                text,
                lost,
            };
            sit_arrival(member, alloc, complex, holder, stored, service)
        }
        Aside::SpoolDeck { .. } => unreachable!(),
        Aside::ReadText { .. } => unreachable!(),
        Aside::SpoolOutputs { .. } => unreachable!(),
        Aside::PrintLines { .. } => unreachable!(),
    }
}
