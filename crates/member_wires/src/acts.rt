//! Acts on a line: a frame is given, and bytes are taken.
ghost use Rattle.std.specs.Prelude.{◌≡◌, ◌-◌, ◌≤◌, drop, length, take, IfOk};
ghost use Rattle.spool_plant.specs.Acts.{Acts, FitsInto, Takes, act_of};
ghost use Rattle.spool_plant.specs.declared.plant.Part.TheVariants.{Wire};
ghost use Rattle.mas_complex.specs.Locking.{IsUp};
ghost use Rattle.mas_complex.specs.Parts.{parts_of};
ghost use Rattle.nje_frames.specs.Grammar.{frame_text};
ghost use Rattle.member_wires.specs.Acts.{GivesBytes, TakesInto, given_answer};

use mas_complex::{Complex, Steady};
use mas_types::MemberId;
use member_node::NodeNo;
use nje_frames::{Frame, write_frame};
use spool_plant::{Act, Plant, Took};
use std::alloc::Global;

/// The line of a step, and the member that serves it.
#[derive(Clone, Copy)]
pub(crate) struct End {
    /// The member.
    pub by: MemberId,
    /// The number of the line.
    pub line: u8,
}

// Whether a line was found lost as bytes were given.
fn given(act: Act) -> Result<bool, NodeNo>
    ensures { result ≡ given_answer act }
{
    match act {
        Act::Done => Ok(false),
        Act::Failed => Ok(true),
        Act::Halted => Err(NodeNo::Halted),
    }
}

/// Gives a frame on the line. Answers whether the line was found lost.
///
/// NoMemory gives nothing. Halted comes only where the member was stopped, which has given the first of the frame's
/// bytes, perhaps.
pub(crate) fn give_frame<P: Plant + Drop, C: Steady + Drop>(
    alloc: Global,
    complex: &mut Complex<P, C>,
    end: End,
    frame: &Frame,
) -> Result<bool, NodeNo>
    requires up { IsUp complex.old.book end.by }
    ensures frame { parts_of complex.new ≡ record (parts_of complex.old) { plant = complex.new.plant } }
    ensures gives { GivesBytes P.tells end (frame_text frame.now) (P.view complex.old.plant)
        (P.view complex.new.plant) result }
{
    let Ok(bytes) = write_frame(alloc, frame) else {
        return Err(NodeNo::NoMemory);
    };
    given(complex.give(end.by, end.line, bytes.as_slice()))
}

/// What was taken from a line.
#[derive(Clone, Copy)]
pub(crate) struct Taken {
    /// How many bytes came.
    pub count: usize,
    /// Whether the line was found lost.
    pub lost: bool,
}

// Takes bytes that wait on the line, behind so many that came before.
fn take_more<P: Plant + Drop, C: Steady + Drop>(
    complex: &mut Complex<P, C>,
    end: End,
    into: &mut [u8],
    count: usize,
) -> Took
    requires up { IsUp complex.old.book end.by }
    requires room { count ≤ length into.old }
    ensures frame { parts_of complex.new ≡ record (parts_of complex.old) { plant = complex.new.plant } }
    ensures size { length into.new ≡ length into.old }
    ensures before { take count into.new ≡ take count into.old }
    ensures fits { FitsInto (length into.old - count) result }
    ensures acts { Acts end.by.0 (Wire end.line) (P.view complex.old.plant) (P.view complex.new.plant)
        (act_of result) }
    ensures content { P.tells → Takes end.line end.by.0 (P.view complex.old.plant) (P.view complex.new.plant)
        (drop count into.new) result }
{
    complex.take(end.by, end.line, &mut into[count..])
}

/// Takes the bytes that wait on the line, as many as there is room for: it asks for all that is missing until nothing
/// waits. Answers how many came, and whether the line was found lost.
///
/// Halted comes only where the member was stopped.
pub(crate) fn take_waiting<P: Plant + Drop, C: Steady + Drop>(
    complex: &mut Complex<P, C>,
    end: End,
    into: &mut [u8],
) -> Result<Taken, NodeNo>
    requires up { IsUp complex.old.book end.by }
    ensures frame { parts_of complex.new ≡ record (parts_of complex.old) { plant = complex.new.plant } }
    ensures room { length into.new ≡ length into.old }
    ensures few { IfOk result (λ taken. taken.count ≤ length into.new) }
    ensures takes { TakesInto P.tells end into.new (P.view complex.old.plant) (P.view complex.new.plant) result }
{
    let mut count = 0;
    while count < into.len() {
        match take_more(complex, end, into, count) {
            Took::Bytes(0) => break,
            Took::Bytes(more) => count += more,
            Took::Failed => return Ok(Taken { count, lost: true }),
            Took::Halted => return Err(NodeNo::Halted),
        }
    }
    Ok(Taken { count, lost: false })
}
