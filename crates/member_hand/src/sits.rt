//! A sitting from any state of a step.
ghost use Rattle.std.specs.Prelude.{◌≡◌, false, IfOk};
ghost use Rattle.mas_complex.specs.Parts.{parts_of};
ghost use Rattle.step_turns.specs.Laws.{aside_on_line};
ghost use Rattle.member_sittings.specs.Sat.{HasSat, resumes, sat_in};
ghost use Rattle.member_hand.specs.Sits.{MaySitFrom, SitsOnFrom, begins, start_of};

use card_reader::Deck;
use mas_complex::{Complex, Steady};
use member_frames::{sit_frames, sit_load};
use member_node::{Member, NodeNo};
use member_sittings::{SittingEnd, SpooledDeck, sit_command, sit_deck, sit_spooled};
use member_units::{resume_work, sit_work};
use spool_plant::Plant;
use std::alloc::Global;
use step_turns::{Aside, Found, Holder, Progress, State, Task};

/// Where a step stands: who has its lock, or may take it, the state that it is in, and what its member found in the
/// acts for which this waited.
#[derive(Drop)]
pub struct Stand {
    /// The member, with its step and what is left of its hold.
    pub holder: Holder,
    /// Where the step goes on.
    pub state: State,
    /// What was found in the acts for which that state waited.
    pub found: Found,
}

// The first sitting of a step.
fn begin<P: Plant + Drop, C: Steady + Drop>(
    member: &mut Member,
    alloc: Global,
    complex: &mut Complex<P, C>,
    holder: Holder,
    task: Task,
) -> Result<SittingEnd, NodeNo>
    requires { MaySitFrom complex.old member.old (begins holder task) }
    ensures frame { parts_of complex.new ≡ sat_in (parts_of complex.new) (parts_of complex.old) }
    ensures id { member.new.id ≡ member.old.id }
    ensures sat { HasSat (begins holder task) complex.old complex.new result }
    ensures again { IfOk result (SitsOnFrom complex.old complex.new member.new (begins holder task)) }
{
    match task {
        Task::Give(command) => sit_command(member, alloc, complex, holder, command),
        Task::Deck { fields, text } => {
            sit_deck(member, alloc, complex, holder, Deck { fields, text })
        }
        Task::Work(units) => {
            let progress = Progress {
                done: 0,
                left: units,
            };
            sit_work(member, alloc, complex, holder, progress)
        }
        Task::Line(line) => sit_load(member, alloc, complex, holder, line),
    }
}

// Whether a step that waits so serves a line.
fn serves_line(aside: &Aside) -> bool
    ensures { result ≡ aside_on_line aside.now }
{
    match aside {
        Aside::Exchange { .. } => true,
        Aside::SpoolArrival { .. } => true,
        Aside::Acknowledge { .. } => true,
        _ => false,
    }
}

// A sitting after acts for which a step waited that serves no line.
fn resume_plain<P: Plant + Drop, C: Steady + Drop>(
    member: &mut Member,
    alloc: Global,
    complex: &mut Complex<P, C>,
    holder: Holder,
    aside: Aside,
    found: Found,
) -> Result<SittingEnd, NodeNo>
    requires may { MaySitFrom complex.old member.old (resumes holder aside found) }
    requires off { aside_on_line aside ≡ false }
    ensures frame { parts_of complex.new ≡ sat_in (parts_of complex.new) (parts_of complex.old) }
    ensures id { member.new.id ≡ member.old.id }
    ensures sat { HasSat (resumes holder aside found) complex.old complex.new result }
    ensures again { IfOk result (SitsOnFrom complex.old complex.new member.new (resumes holder aside found)) }
{
    match aside {
        Aside::SpoolDeck { job, text } => {
            let lost = found.lost;
            sit_spooled(
                member,
                alloc,
                complex,
                holder,
                SpooledDeck { job, text, lost },
            )
        }
        aside => resume_work(member, alloc, complex, holder, aside, found),
    }
}

// A sitting after acts for which a step waited.
fn resume<P: Plant + Drop, C: Steady + Drop>(
    member: &mut Member,
    alloc: Global,
    complex: &mut Complex<P, C>,
    holder: Holder,
    aside: Aside,
    found: Found,
) -> Result<SittingEnd, NodeNo>
    requires { MaySitFrom complex.old member.old (resumes holder aside found) }
    ensures frame { parts_of complex.new ≡ sat_in (parts_of complex.new) (parts_of complex.old) }
    ensures id { member.new.id ≡ member.old.id }
    ensures sat { HasSat (resumes holder aside found) complex.old complex.new result }
    ensures again { IfOk result (SitsOnFrom complex.old complex.new member.new (resumes holder aside found)) }
{
    if serves_line(&aside) {
        sit_frames(member, alloc, complex, holder, aside, found)
    } else {
        resume_plain(member, alloc, complex, holder, aside, found)
    }
}

/// A sitting of the member from any state of its step that isn't told: it does what `sit` of step_turns says, for every
/// answer. The member has the lock and its seat. No lock is taken or left here, no text read or written, and no line
/// printed.
///
/// NoMemory leaves the first ones of the sitting's batches, or all of them, and of the next one perhaps what was done
/// of it. BothLost and Halted perhaps leave one in flight after them. ConsoleFault comes once all are kept, at the
/// lines. After any of the four errors the member can't go on.
pub fn sit<P: Plant + Drop, C: Steady + Drop>(
    member: &mut Member,
    alloc: Global,
    complex: &mut Complex<P, C>,
    stand: Stand,
) -> Result<SittingEnd, NodeNo>
    requires { MaySitFrom complex.old member.old (start_of stand) }
    ensures frame { parts_of complex.new ≡ sat_in (parts_of complex.new) (parts_of complex.old) }
    ensures id { member.new.id ≡ member.old.id }
    ensures sat { HasSat (start_of stand) complex.old complex.new result }
    ensures again { IfOk result (SitsOnFrom complex.old complex.new member.new (start_of stand)) }
{
    let Stand {
        holder,
        state,
        found,
    } = stand;
    match state {
        State::Fresh(task) => begin(member, alloc, complex, holder, task),
        State::Away(aside) => resume(member, alloc, complex, holder, aside, found),
        State::Rested(progress) => sit_work(member, alloc, complex, holder, progress),
        State::Told => unreachable!(),
    }
}
