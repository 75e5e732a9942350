//! A job that came over a line: it begins and gets its groups, and once its text stands in them it is got.
ghost use Rattle.std.specs.Prelude.{◌≡◌, ◌+◌, ◌*◌, ◌≤◌, ◌<◌, None, length, take, IfOk};
ghost use Rattle.mas_types.specs.Fit.{AreLines, IsJobFields};
ghost use Rattle.mas_types.specs.Sound.{IsSound};
ghost use Rattle.mas_complex.specs.Parts.{parts_of};
ghost use Rattle.nje_frames.specs.Grammar.{IsFrame};
ghost use Rattle.member_node.specs.Reads.{too_high};
ghost use Rattle.member_sittings.specs.Asides.{DeckIsSpooled, deck_found};
ghost use Rattle.member_sittings.specs.Sat.{HasSat, SitsOn, resumes, sat_in};
ghost use Rattle.member_sittings.specs.Whole.{MaySit};
ghost use Rattle.member_giving.specs.Ready.{HasFewer};
ghost use Rattle.member_giving.specs.Works.{SitsIn};
ghost use Rattle.step_turns.specs.Serving.{taken_most};
ghost use Rattle.step_turns.specs.declared.states.Aside.TheVariants.{SpoolArrival};
ghost use Rattle.member_frames.specs.Arriving.{BeginsArrival, IsJobFrame};
ghost use Rattle.member_frames.specs.Plays.{OpensArrival};
ghost use Rattle.member_frames.specs.Waits.{HasFrameMore, IsServable, WaitsOnLine};

use card_reader::{DeckNo, read_deck};
use mas_complex::{Complex, Steady};
use mas_types::{Closing, Command, JobFields, JobNo, Lines, List, Reply};
use member_decks::Opened;
use member_giving::close_step;
use member_node::{Member, NodeNo};
use member_opening::open_deck;
use member_sittings::{
    SittingEnd, SpooledDeck, close_deck, give_up_sitting, pause_sitting, sit_spooled,
};
use nje_frames::Frame;
use queue_texts::{law_of_entered_texts, law_of_texts};
use spool_plant::Plant;
use spool_text::groups_needed;
use std::alloc::Global;
use step_turns::{Aside, Holder, Service};

// The frames that a step handles, at most.
const HEARD_MOST: usize = 65_536;

/// The frames that a step handles of those that came: the first 65,536.
pub(crate) fn heard(frames: List<Frame>) -> List<Frame>
    ensures { result ≡ take taken_most frames }
{
    let mut first = frames;
    while first.len() > HEARD_MOST {
        let last = first.len() - 1;
        drop(first.remove(last));
    }
    first
}

/// A job that came over a line, as its cards were read.
#[derive(Drop)]
pub struct ReadJob {
    /// Its number on the line.
    pub number: u32,
    /// What its cards say, at the nodes that its frame names.
    pub fields: JobFields,
    /// Its cards.
    pub text: Lines,
}

// The sitting in which a job begins that came: it gets the groups that its text needs, and the step waits for the text
// to be spooled. After a refused Begin or Take the step closes with that, and the job is dropped.
fn begin_arrival<P: Plant + Drop, C: Steady + Drop>(
    member: &mut Member,
    alloc: Global,
    complex: &mut Complex<P, C>,
    holder: Holder,
    read: ReadJob,
    service: Service,
) -> Result<SittingEnd, NodeNo>
    requires may { MaySit complex.old member.old holder }
    requires fields { IsJobFields read.fields }
    requires text { AreLines read.text }
    requires servable { IsServable service }
    requires more { HasFrameMore service }
    ensures frame { parts_of complex.new ≡ sat_in (parts_of complex.new) (parts_of complex.old) }
    ensures id { member.new.id ≡ member.old.id }
    ensures begins { BeginsArrival P.tells holder read service complex.old complex.new result }
    ensures again { IfOk result (SitsOn complex.old complex.new member.old member.new holder.step) }
    ensures waits { IfOk result (λ e. WaitsOnLine P.tells member.new e.next) }
    ensures fewer { IfOk result (λ e.
        HasFewer (2 * length service.frames + 3) (2 * length service.frames + 2) e.next) }
{
    complex.kept_texts();
    let groups = groups_needed(&read.text);
    let Ok(opened) = open_deck(member, alloc, holder.step, read.fields, groups) else {
        return Err(give_up_sitting(member, alloc, complex, holder));
    };
    let Opened::Ready(job) = opened else {
        return close_deck(member, alloc, complex, holder, None);
    };
    let aside = Aside::SpoolArrival {
        number: read.number,
        job,
        text: read.text,
        service,
    };
    pause_sitting(member, alloc, complex, holder, aside)
}

/// A job whose number is the next, at the beginning of a sitting: its cards are read, it begins at the nodes that its
/// frame names, and gets the groups that its text needs; the step waits for the text to be spooled. A card that is
/// refused closes the step, and so does a refused Begin or Take, after which the job is dropped.
///
/// NoMemory leaves the first ones of the sitting's commands, or none. BothLost comes only where both copies count as
/// lost at the end of the call, Halted only where the member was stopped in it, ConsoleFault only where the console
/// failed. After an error the member can't go on.
pub(crate) fn open_arrival<P: Plant + Drop, C: Steady + Drop>(
    member: &mut Member,
    alloc: Global,
    complex: &mut Complex<P, C>,
    holder: Holder,
    frame: Frame,
    service: Service,
) -> Result<SittingEnd, NodeNo>
    requires may { MaySit complex.old member.old holder }
    requires base_sound { P.tells → IsSound complex.old.base }
    requires frame { IsFrame frame }
    requires job { IsJobFrame frame }
    requires servable { IsServable service }
    requires more { HasFrameMore service }
    requires level { complex.old.level + 3 < too_high }
    ensures frame { parts_of complex.new ≡ sat_in (parts_of complex.new) (parts_of complex.old) }
    ensures id { member.new.id ≡ member.old.id }
    ensures opens { OpensArrival P.tells holder frame service complex.old complex.new result }
    ensures again { IfOk result (λ e. SitsIn e.next complex.new member.new holder.step) }
    ensures waits { IfOk result (λ e. WaitsOnLine P.tells member.new e.next) }
    ensures fewer { IfOk result (λ e.
        HasFewer (2 * length service.frames + 3) (2 * length service.frames + 2) e.next) }
    ensures reached { IfOk result (λ e. complex.new.level ≤ complex.old.level + 1) }
{
    let Frame::Job {
        number,
        origin,
        node,
        text,
    } = frame
    else {
        unreachable!();
    };
    let own = member.checkpoint.tables.config.node;
    match read_deck(alloc, own, &text) {
        Ok(deck) => {
            let read = ReadJob {
                number,
                fields: JobFields {
                    origin,
                    node,
                    ..deck.fields
                },
                text: deck.text,
            };
            begin_arrival(member, alloc, complex, holder, read, service)
        }
        Err(DeckNo::BadCard { card, cause }) => {
            let end = Closing::BadCard(card, cause);
            close_step(member, alloc, complex, holder, &end, 0)
        }
        Err(DeckNo::NoMemory) => Err(NodeNo::NoMemory),
    }
}

/// A job that came under this number, and whose text was to go into the groups that were taken for it.
#[derive(Drop)]
pub struct Stored {
    /// Its number on the line.
    pub number: u32,
    /// The number that it has here.
    pub job: JobNo,
    /// Its cards.
    pub text: Lines,
    /// The volume that was found lost in this, if one was.
    pub lost: Option<u8>,
}

// The sitting after a job's text was spooled: the job is got with it, and the step waits to acknowledge it. Where Got
// is refused the job is dropped, and the step closes with that.
fn get_arrival<P: Plant + Drop, C: Steady + Drop>(
    member: &mut Member,
    alloc: Global,
    complex: &mut Complex<P, C>,
    holder: Holder,
    stored: Stored,
    service: Service,
) -> Result<SittingEnd, NodeNo>
    requires may { MaySit complex.old member.old holder }
    requires servable { IsServable service }
    requires more { HasFrameMore service }
    requires text { AreLines stored.text }
    requires none { stored.lost ≡ None }
    requires spooled { DeckIsSpooled complex.old member.old.id stored.text None }
    ensures frame { parts_of complex.new ≡ sat_in (parts_of complex.new) (parts_of complex.old) }
    ensures id { member.new.id ≡ member.old.id }
    ensures sat { HasSat (resumes holder (SpoolArrival stored.number stored.job stored.text service)
        (deck_found None)) complex.old complex.new result }
    ensures again { IfOk result (SitsOn complex.old complex.new member.old member.new holder.step) }
    ensures waits { IfOk result (λ e. WaitsOnLine P.tells member.new e.next) }
    ensures fewer { IfOk result (λ e.
        HasFewer (2 * length service.frames + 2) (2 * length service.frames + 1) e.next) }
{
    complex.kept_texts();
    law_of_texts();
    law_of_entered_texts();
    let number = stored.number;
    let job = stored.job;
    let command = Command::Got {
        line: service.line,
        number,
        job,
        text: stored.text,
    };
    let Ok(()) = member.do_command(alloc, holder.step, command) else {
        return Err(NodeNo::NoMemory);
    };
    if let Reply::No(_) = member.last_reply() {
        let Ok(()) = member.do_command(alloc, holder.step, Command::Drop { job }) else {
            return Err(give_up_sitting(member, alloc, complex, holder));
        };
        return close_deck(member, alloc, complex, holder, None);
    }
    let got = service.got + 1;
    let aside = Aside::Acknowledge {
        number: Some(number),
        service: Service { got, ..service },
    };
    pause_sitting(member, alloc, complex, holder, aside)
}

/// The sitting after a job's text was to be spooled: the job is got with its text, and the step waits to acknowledge
/// it. Where Got is refused, or a volume was found lost, the job is dropped, and the step closes with that.
///
/// NoMemory leaves the journal and the copies as they were, unless Got was refused. BothLost comes only where both
/// copies count as lost at the end of the call, Halted only where the member was stopped in it, ConsoleFault only where
/// the console failed. After an error the member can't go on.
pub fn sit_arrival<P: Plant + Drop, C: Steady + Drop>(
    member: &mut Member,
    alloc: Global,
    complex: &mut Complex<P, C>,
    holder: Holder,
    stored: Stored,
    service: Service,
) -> Result<SittingEnd, NodeNo>
    requires may { MaySit complex.old member.old holder }
    requires servable { IsServable service }
    requires more { HasFrameMore service }
    requires text { AreLines stored.text }
    requires spooled { DeckIsSpooled complex.old member.old.id stored.text stored.lost }
    ensures frame { parts_of complex.new ≡ sat_in (parts_of complex.new) (parts_of complex.old) }
    ensures id { member.new.id ≡ member.old.id }
    ensures sat { HasSat (resumes holder (SpoolArrival stored.number stored.job stored.text service)
        (deck_found stored.lost)) complex.old complex.new result }
    ensures again { IfOk result (SitsOn complex.old complex.new member.old member.new holder.step) }
    ensures waits { IfOk result (λ e. WaitsOnLine P.tells member.new e.next) }
    ensures fewer { IfOk result (λ e.
        HasFewer (2 * length service.frames + 2) (2 * length service.frames + 1) e.next) }
{
    match stored.lost {
        None => get_arrival(member, alloc, complex, holder, stored, service),
        // A lost volume ends the step as a deck's.
        Some(_) => {
            let Stored {
                job,
                text,
                lost,
                ..
            } = stored;
            let deck = SpooledDeck { job, text, lost };
            sit_spooled(member, alloc, complex, holder, deck)
        }
    }
}
