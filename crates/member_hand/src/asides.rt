//! The acts aside for which a step waits.
ghost use Rattle.std.specs.Prelude.{◌≡◌};
ghost use Rattle.step_turns.specs.States.{nothing_found as nothing_found_lem};
ghost use Rattle.step_turns.specs.declared.states.State.TheVariants.{Away};
ghost use Rattle.member_hand.specs.Asides.{ActsAside, ActsOnly, ActsThen, IfAway, MayActAside, MayActThen};
ghost use Rattle.member_hand.specs.Hears.{ReaderStaysIn};
ghost use Rattle.member_hand.specs.Locks.{IsUnlocked};

use job_outcome::Read;
use mas_complex::{Complex, Steady};
use mas_types::{Lines, List};
use member_node::{Member, NodeNo};
use member_sittings::spool_deck;
use member_wires::{acknowledge, exchange, print_next_lines, read_job_text, write_outputs};
use nje_frames::FrameReader;
use spool_plant::Plant;
use std::alloc::Global;
use step_turns::{Aside, Found, Grant, State};

/// What a member found that looked at nothing.
pub fn nothing_found(alloc: Global) -> Found
    ensures { result ≡ nothing_found_lem }
{
    Found {
        read: Read::Lines(Lines::new(alloc)),
        lost: None,
        printer: false,
        wire: false,
        frames: List::new(alloc),
    }
}

/// Does the acts aside for which a step waits: the text of a deck, of a job that came over a line, or of a job's
/// outputs is written and synced; a job's text is read; an output's text is read and its next lines are printed; on a
/// line a job's frame is given and bytes are taken, or an acknowledgement is given. Answers what was found. NOBODY
/// HOLDS THE LOCK IN THEM, unless its member has it by the operator's LOCK.
///
/// The reader is that of the line, if the step serves one: it goes on with the bytes that were taken.
///
/// NoMemory leaves the volumes as they were, or the first of the lines on paper. Halted comes only where the member was
/// stopped; where that was at its printer it is stopped in the book already.
pub fn act_aside<P: Plant + Drop, C: Steady + Drop>(
    member: &Member,
    alloc: Global,
    complex: &mut Complex<P, C>,
    reader: &mut FrameReader,
    grant: Grant,
    aside: &Aside,
) -> Result<Found, NodeNo>
    requires lock { IsUnlocked grant complex.old.book member.now.id }
    requires may { MayActAside complex.old member.now aside.now }
    ensures frame { ActsOnly complex.old complex.new member.now aside.now result }
    ensures reader { ReaderStaysIn (Away aside.now) reader.old reader.new }
    ensures acts { ActsAside complex.old complex.new member.now aside.now reader.old reader.new result }
{
    match aside {
        Aside::SpoolDeck { text, .. } => spool_deck(member, alloc, complex, text),
        Aside::ReadText { job, .. } => read_job_text(member, alloc, complex, *job),
        Aside::SpoolOutputs { outputs, .. } => {
            write_outputs(member, alloc, complex, outputs.as_slice())
        }
        Aside::PrintLines {
            job,
            output,
            last,
            ..
        } => print_next_lines(member, alloc, complex, *job, *output, *last),
        Aside::Exchange { line, offer } => exchange(member, alloc, complex, reader, *line, *offer),
        Aside::SpoolArrival { text, .. } => spool_deck(member, alloc, complex, text),
        Aside::Acknowledge { number, service } => {
            acknowledge(member, alloc, complex, service.line, *number)
        }
    }
}

/// What follows a sitting that left its step so: the acts for which the step waits, if it waits for any.
pub fn act_then<P: Plant + Drop, C: Steady + Drop>(
    member: &Member,
    alloc: Global,
    complex: &mut Complex<P, C>,
    reader: &mut FrameReader,
    grant: Grant,
    state: &State,
) -> Result<Found, NodeNo>
    requires lock { IfAway state.now (IsUnlocked grant complex.old.book member.now.id) }
    requires may { MayActThen complex.old member.now state.now }
    ensures reader { ReaderStaysIn state.now reader.old reader.new }
    ensures acts { ActsThen complex.old complex.new member.now state.now reader.old reader.new result }
{
    match state {
        State::Away(aside) => act_aside(member, alloc, complex, reader, grant, aside),
        _ => Ok(nothing_found(alloc)),
    }
}
