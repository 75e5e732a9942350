//! Frames out of bytes.
ghost use Rattle.std.specs.Prelude.{◌≡◌, ℕ, ◌++◌, List as AnyList, length, IfOk, Err};
ghost use Rattle.nje_frames.specs.declared.frames.Frame.{Frame as AnyFrame};
ghost use Rattle.nje_frames.specs.Grammar.{frame_text, IsFrame, IsProperFront};
ghost use Rattle.nje_frames.specs.Reading.{Gives, ack_at, job_at, inner_at, frame_at};
ghost use Rattle.nje_frames.specs.Fronts.{HasFrame, IsBad, IsReadAs, IsShortAt, Answers};

use crate::frames::{Frame, FrameNo};
use crate::parts::{Stop, byte_of, cards_of, name_of, number_of};
use crate::{ETX, LINE_FEED, STX};
use std::alloc::Global;

fn ack_of(bytes: &[u8]) -> Result<(Frame, &[u8]), Stop>
    ensures { Gives (λ x. (x.0, x.1.now)) result (ack_at bytes.now) }
{
    let (number, rest) = number_of(bytes)?;
    let rest = byte_of(rest, ETX)?;
    Ok((Frame::Ack(number), rest))
}

fn job_of(alloc: Global, bytes: &[u8]) -> Result<(Frame, &[u8]), Stop>
    ensures { Gives (λ x. (x.0, x.1.now)) result (job_at bytes.now) }
{
    let (number, rest) = number_of(bytes)?;
    let (origin, rest) = name_of(rest)?;
    let (node, rest) = name_of(rest)?;
    let rest = byte_of(rest, LINE_FEED)?;
    let (text, rest) = cards_of(alloc, rest)?;
    let frame = Frame::Job {
        number,
        origin,
        node,
        text,
    };
    Ok((frame, rest))
}

fn inner_of(alloc: Global, bytes: &[u8]) -> Result<(Frame, &[u8]), Stop>
    ensures { Gives (λ x. (x.0, x.1.now)) result (inner_at bytes.now) }
{
    match bytes {
        [] => Err(Stop::At(0)),
        [b'A', rest @ ..] => ack_of(rest),
        [b'J', rest @ ..] => job_of(alloc, rest),
        [_, ..] => Err(Stop::At(bytes.len())),
    }
}

/// Reads the frame at the front. At comes with how many bytes begin one, 0 where more are needed; NoMemory only when
/// out of memory.
pub fn frame_of(alloc: Global, bytes: &[u8]) -> Result<(Frame, &[u8]), Stop>
    ensures { Gives (λ x. (x.0, x.1.now)) result (frame_at bytes.now) }
{
    match bytes {
        [] => Err(Stop::At(0)),
        [STX, rest @ ..] => inner_of(alloc, rest),
        [_, ..] => Err(Stop::At(bytes.len())),
    }
}

// Reads the frame at the front, and says how many bytes it is, or how many fit.
fn answer(alloc: Global, bytes: &[u8]) -> Result<(Frame, usize), FrameNo>
    ensures { Answers result bytes.now (frame_at bytes.now) }
{
    match frame_of(alloc, bytes) {
        Ok((frame, rest)) => Ok((frame, bytes.len() - rest.len())),
        Err(Stop::At(0)) => Err(FrameNo::Short(bytes.len())),
        Err(Stop::At(left)) => Err(FrameNo::BadFrame(bytes.len() - left)),
        Err(Stop::NoMemory) => Err(FrameNo::NoMemory),
    }
}

/// Reads the frame with which the bytes begin, and how many of them it is. `Short` exactly where the bytes are a proper
/// front of a frame, with their number. `BadFrame` exactly where they neither are that nor begin with a frame, with the
/// number of bytes of their longest front that begins one. NoMemory comes only when out of memory.
pub fn read_frame(alloc: Global, bytes: &[u8]) -> Result<(Frame, usize), FrameNo>
    ensures found { IfOk result (λ found. HasFrame bytes.now found.0 found.1) }
    ensures only { (frame : AnyFrame) (rest : AnyList ℕ) → IsFrame frame →
        bytes.now ≡ frame_text frame ++ rest → IsReadAs result frame (length (frame_text frame)) }
    ensures short { (n : ℕ) → result ≡ Err (FrameNo.Short n) → IsProperFront bytes.now }
    ensures only_short { IsProperFront bytes.now → IsShortAt result (length bytes.now) }
    ensures bad { (n : ℕ) → result ≡ Err (FrameNo.BadFrame n) → IsBad bytes.now n }
{
    answer(alloc, bytes)
}
