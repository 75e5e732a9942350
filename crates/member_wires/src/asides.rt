//! The acts of a step that serves a line, without the lock: the exchange, and an acknowledgement.
ghost use Rattle.std.specs.Prelude.{◌≡◌, [], length, All, IfErr, IfOk, OnOk};
ghost use Rattle.job_outcome.specs.declared.outcomes.Read.TheVariants.{Lines as LinesRead};
ghost use Rattle.mas_complex.specs.Locking.{IsUp};
ghost use Rattle.mas_complex.specs.Parts.{parts_of};
ghost use Rattle.member_node.specs.declared.member.NodeNo.TheVariants.{NoMemory as out_of_memory};
ghost use Rattle.nje_frames.specs.Grammar.{IsFrame};
ghost use Rattle.member_wires.specs.Acts.{GivesBytes, IsHeard, ReadsOn};
ghost use Rattle.member_wires.specs.Asides.{Acknowledges, Exchanges, IsFoundHeard, MayAcknowledge, MayExchange, job_bytes, lost_of};
ghost use Rattle.member_acts.specs.Asides.{wire_found};

use crate::acts::{End, Taken, give_frame, take_waiting};
use job_outcome::Read;
use mas_complex::{Complex, Steady};
use mas_types::{Lines, List, NoMemory};
use member_acts::read_job_text;
use member_node::{Member, NodeNo};
use nje_frames::{Frame, FrameReader, law_of_streams};
use spool_plant::Plant;
use std::alloc::Global;
use step_turns::{Found, Offer};

// The bytes that a step takes from a line, at most.
const TAKEN_MOST: usize = 65_536;

// No text was read.
fn no_text(alloc: Global) -> Read
    ensures { result ≡ LinesRead [] }
{
    Read::Lines(Lines::new(alloc))
}

// What a member found that gave a frame on a line, and took bytes from it, or not.
fn found_on(alloc: Global, read: Read, lost: bool) -> Found
    ensures { result ≡ wire_found read lost [] }
{
    Found {
        read,
        lost: None,
        printer: false,
        wire: lost,
        frames: List::new(alloc),
    }
}

// Gives the frame of the job that is offered, with this text. Answers the text, and whether the line was found lost.
fn give_job<P: Plant + Drop, C: Steady + Drop>(
    alloc: Global,
    complex: &mut Complex<P, C>,
    end: End,
    offer: Offer,
    text: Lines,
) -> Result<(Lines, bool), NodeNo>
    requires up { IsUp complex.old.book end.by }
    ensures frame { parts_of complex.new ≡ record (parts_of complex.old) { plant = complex.new.plant } }
    ensures text { IfOk result (λ given. given.0 ≡ text) }
    ensures gives { GivesBytes P.tells end (job_bytes offer text) (P.view complex.old.plant)
        (P.view complex.new.plant) (lost_of result) }
{
    let frame = Frame::Job {
        number: offer.number,
        origin: offer.origin,
        node: offer.node,
        text,
    };
    let lost = give_frame(alloc, complex, end, &frame)?;
    match frame {
        Frame::Job { text, .. } => Ok((text, lost)),
        Frame::Ack(_) => unreachable!(),
    }
}

// So many zeros.
fn zeros(alloc: Global, n: usize) -> Result<Vec<u8>, NoMemory>
    ensures { IfOk result (λ bytes. length bytes.items ≡ n) }
{
    match vec![in alloc; 0; n] {
        Ok(bytes) => Ok(bytes),
        Err(_) => Err(NoMemory),
    }
}

// Reads the frames that bytes complete in the stream that the reader had. NoMemory comes only when out of memory.
fn read_on(reader: &mut FrameReader, bytes: &[u8], frames: &mut List<Frame>) -> Result<(), NodeNo>
    requires { frames.old ≡ [] }
    ensures reads { OnOk result (ReadsOn reader.old reader.new bytes.now frames.new) }
    ensures each { OnOk result (All IsFrame frames.new) }
    ensures err { IfErr result (λ why. why ≡ out_of_memory) }
{
    law_of_streams();
    match reader.feed(bytes, frames) {
        Ok(()) => Ok(()),
        Err(_) => Err(NodeNo::NoMemory),
    }
}

// Takes the bytes that wait on a line, and reads the frames that they complete, in the stream that the reader had of
// it.
fn hear<P: Plant + Drop, C: Steady + Drop>(
    alloc: Global,
    complex: &mut Complex<P, C>,
    end: End,
    reader: &mut FrameReader,
    frames: &mut List<Frame>,
) -> Result<bool, NodeNo>
    requires up { IsUp complex.old.book end.by }
    requires nothing { frames.old ≡ [] }
    ensures frame { parts_of complex.new ≡ record (parts_of complex.old) { plant = complex.new.plant } }
    ensures hears { IsHeard P.tells end (P.view complex.old.plant) (P.view complex.new.plant) reader.old reader.new
        frames.new result }
{
    let Ok(mut bytes) = zeros(alloc, TAKEN_MOST) else {
        return Err(NodeNo::NoMemory);
    };
    let Taken { count, lost } = take_waiting(complex, end, bytes.as_mut_slice())?;
    read_on(reader, &bytes[..count], frames)?;
    Ok(lost)
}

// What a member found that took the bytes that wait on a line, after it gave a frame or had none to give.
fn take_from<P: Plant + Drop, C: Steady + Drop>(
    alloc: Global,
    complex: &mut Complex<P, C>,
    end: End,
    reader: &mut FrameReader,
    read: Read,
) -> Result<Found, NodeNo>
    requires up { IsUp complex.old.book end.by }
    ensures frame { parts_of complex.new ≡ record (parts_of complex.old) { plant = complex.new.plant } }
    ensures hears { IsFoundHeard P.tells end (P.view complex.old.plant) (P.view complex.new.plant) reader.old
        reader.new read result }
{
    let mut found = found_on(alloc, read, false);
    found.wire = hear(alloc, complex, end, reader, &mut found.frames)?;
    Ok(found)
}

/// The exchange of a step that serves a line. The text of the job that is offered, if one is, is read, and its frame is
/// given; then the bytes that wait are taken, at most 65,536, and the frames are read that they complete in the stream
/// which this reader has of the line. It needs no lock: whoever holds it, the book, the copies and the journal are as
/// they were. Where the text can't be read nothing is given or taken, and where the line was found lost at the frame
/// nothing is taken.
///
/// NoMemory has given nothing, or the whole frame; the reader may have failed. Halted comes only where the member was
/// stopped.
pub fn exchange<P: Plant + Drop, C: Steady + Drop>(
    member: &Member,
    alloc: Global,
    complex: &mut Complex<P, C>,
    reader: &mut FrameReader,
    line: u8,
    offer: Option<Offer>,
) -> Result<Found, NodeNo>
    requires { MayExchange complex.old member.now line offer }
    ensures frame { parts_of complex.new ≡ record (parts_of complex.old) { plant = complex.new.plant } }
    ensures exchanges { Exchanges complex.old complex.new member.now line offer reader.old reader.new result }
{
    let end = End {
        by: member.id,
        line,
    };
    let Some(offer) = offer else {
        let read = no_text(alloc);
        return take_from(alloc, complex, end, reader, read);
    };
    let Found { read, .. } = read_job_text(member, alloc, complex, offer.job)?;
    let Read::Lines(text) = read else {
        return Ok(found_on(alloc, read, false));
    };
    let (text, lost) = give_job(alloc, complex, end, offer, text)?;
    let read = Read::Lines(text);
    if lost {
        return Ok(found_on(alloc, read, true));
    }
    take_from(alloc, complex, end, reader, read)
}

/// Gives the acknowledgement of this number on a line, if there is one to give. It needs no lock. Answers whether the
/// line was found lost.
///
/// NoMemory gives nothing. Halted comes only where the member was stopped, which has given the first of its bytes,
/// perhaps.
pub fn acknowledge<P: Plant + Drop, C: Steady + Drop>(
    member: &Member,
    alloc: Global,
    complex: &mut Complex<P, C>,
    line: u8,
    number: Option<u32>,
) -> Result<Found, NodeNo>
    requires { MayAcknowledge complex.old member.now line }
    ensures frame { parts_of complex.new ≡ record (parts_of complex.old) { plant = complex.new.plant } }
    ensures acknowledges { Acknowledges complex.old complex.new member.now line number result }
{
    let nothing = no_text(alloc);
    let Some(number) = number else {
        return Ok(found_on(alloc, nothing, false));
    };
    let end = End {
        by: member.id,
        line,
    };
    let lost = give_frame(alloc, complex, end, &Frame::Ack(number))?;
    Ok(found_on(alloc, nothing, lost))
}
