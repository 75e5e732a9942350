//! Frames out of a stream that comes in pieces.
ghost use Rattle.std.specs.Prelude.{◌≡◌, ◌+◌, ◌<◌, nat_lt, [], ◌∷◌, ◌++◌, length, true, not, Some, IfSome, IfNone, IfOk, OnOk, OnErr, drop};
ghost use Rattle.std.specs.List.{list_all};
ghost use Rattle.nje_frames.specs.Grammar.{stx};
ghost use Rattle.nje_frames.specs.Streams.{frame_most, frame_of as frame_of_lem, frames_in, IsFirst, is_mark as is_mark_lem, is_plain, is_start, last_start, if_short, open_end, is_open, Gains, AddsFirst, HasTaken, HasFed, HasFailed};

use crate::frames::Frame;
use crate::parts::Stop;
use crate::reading::frame_of;
use crate::{ETX, STX};
use mas_types::{List, NoMemory};
use std::alloc::Global;
use std::marker::Model;

// The bytes of the longest frame.
const FRAME_MOST: usize = 809_949;

/// Reads frames from a stream that comes in any pieces. Contracts see it as the bytes at the end of the stream so far
/// that may be the front of a frame, fewer than 809,949; or as None once memory has run out.
#[derive(Drop)]
pub struct FrameReader {
    /// Where its memory comes from.
    alloc: Global,
    /// The end of the stream so far that may be the front of a frame.
    rest: Vec<u8>,
    /// Memory has run out.
    failed: bool,
}

impl Model for FrameReader {
    ghost use Rattle.std.specs.Prelude.{◌≡◌, true, if◌then◌else◌, Option, Some, None, List, ℕ};
    ghost use Rattle.nje_frames.specs.Streams.{is_open};

    ghost Value = { Option (List ℕ) };

    ghost view = { λ a. if a.failed then None else Some a.rest.items };

    ghost invariant = { λ a. is_open a.rest.items ≡ true };
}

impl FrameReader {
    /// Nothing of the stream has come.
    pub fn new(alloc: Global) -> FrameReader
        ensures { result ≡ Some [] }
    {
        FrameReader {
            alloc,
            rest: Vec::new(alloc),
            failed: false,
        }
    }

    /// Takes the next piece of the stream, and adds the frames that it completes, in their order. After `NoMemory` the
    /// first of them are added, as many as there was memory for, and the reader answers `NoMemory` from then on.
    pub fn feed(&mut self, piece: &[u8], out: &mut List<Frame>) -> Result<(), NoMemory>
        ensures ok { OnOk result (HasFed self.old self.new piece.now out.old out.new) }
        ensures err { OnErr result (HasFailed self.old self.new piece.now out.old out.new) }
        ensures small { IfSome self.new (λ rest. length rest < frame_most) }
    {
        if self.failed {
            return Err(NoMemory);
        }
        match take_piece(self.alloc, &mut self.rest, piece, out) {
            Ok(()) => Ok(()),
            Err(NoMemory) => {
                self.failed = true;
                Err(NoMemory)
            }
        }
    }
}

// Takes a piece where so many bytes wait for it.
fn take_piece(
    alloc: Global,
    rest: &mut Vec<u8>,
    piece: &[u8],
    out: &mut List<Frame>,
) -> Result<(), NoMemory>
    requires { is_open rest.old.items ≡ true }
    ensures waits { is_open rest.new.items ≡ true }
    ensures ok { OnOk result (HasTaken (rest.old.items ++ piece.now) rest.new.items out.old out.new) }
    ensures err { OnErr result (AddsFirst (frames_in (rest.old.items ++ piece.now)) out.old out.new) }
{
    if rest.is_empty() {
        return take_alone(alloc, rest, piece, out);
    }
    let Some(at) = mark_in(piece) else {
        return keep(rest, piece);
    };
    if piece[at] != ETX {
        rest.clear();
        return take_alone(alloc, rest, &piece[at..], out);
    }
    end_frame(alloc, rest, &piece[..at + 1], out)?;
    take_alone(alloc, rest, &piece[at..], out)
}

fn is_mark(byte: u8) -> bool
    ensures { result ≡ is_mark_lem byte }
{
    byte == STX || byte == ETX
}

// The place of the first STX or ETX.
fn mark_in(bytes: &[u8]) -> Option<usize>
    ensures found { IfSome result (λ at. IsFirst is_mark_lem bytes.now at) }
    ensures none { IfNone result (list_all is_plain bytes.now ≡ true) }
{
    for (at, byte) in bytes.iter().enumerate() {
        if is_mark(*byte) {
            return Some(at);
        }
    }
    None
}

// The place of the first STX.
fn start_in(bytes: &[u8]) -> Option<usize>
    ensures found { IfSome result (λ at. IsFirst is_start bytes.now at) }
    ensures none { IfNone result (list_all (λ b. not (is_start b)) bytes.now ≡ true) }
{
    for (at, byte) in bytes.iter().enumerate() {
        if *byte == STX {
            return Some(at);
        }
    }
    None
}

// Whether so many bytes and so many more may be the front of a frame.
fn is_short(bytes: usize, more: usize) -> bool
    ensures { result ≡ nat_lt (bytes + more) frame_most }
{
    if more >= FRAME_MOST {
        return false;
    }
    bytes < FRAME_MOST - more
}

// Keeps bytes after those that wait, unless they are too many for a frame.
fn keep(rest: &mut Vec<u8>, bytes: &[u8]) -> Result<(), NoMemory>
    ensures ok { OnOk result (rest.new.items ≡ if_short (rest.old.items ++ bytes.now)) }
    ensures err { OnErr result (rest.new.items ≡ rest.old.items) }
{
    if !is_short(rest.len(), bytes.len()) {
        rest.clear();
        return Ok(());
    }
    match rest.extend_from_slice(bytes) {
        Ok(()) => Ok(()),
        Err(_) => Err(NoMemory),
    }
}

// Adds the frame that the bytes are, if they are one.
fn push_frame(alloc: Global, bytes: &[u8], out: &mut List<Frame>) -> Result<(), NoMemory>
    ensures ok { OnOk result (out.new ≡ out.old ++ frame_of_lem bytes.now) }
    ensures err { OnErr result (out.new ≡ out.old) }
{
    let (frame, rest) = match frame_of(alloc, bytes) {
        Ok(found) => found,
        Err(Stop::At(_)) => return Ok(()),
        Err(Stop::NoMemory) => return Err(NoMemory),
    };
    if !rest.is_empty() {
        return Ok(());
    }
    out.push(frame)
}

// Adds the frame that the bytes that waited are with those that end it, if they are one.
fn push_joined(
    alloc: Global,
    rest: &mut Vec<u8>,
    end: &[u8],
    out: &mut List<Frame>,
) -> Result<(), NoMemory>
    ensures ok { OnOk result (out.new ≡ out.old ++ frame_of_lem (rest.old.items ++ end.now)) }
    ensures err { OnErr result (out.new ≡ out.old) }
{
    match rest.extend_from_slice(end) {
        Ok(()) => push_frame(alloc, rest, out),
        Err(_) => Err(NoMemory),
    }
}

// Adds the frame that the bytes that waited are with those that end it, if they are one; nothing waits any more.
fn end_frame(
    alloc: Global,
    rest: &mut Vec<u8>,
    end: &[u8],
    out: &mut List<Frame>,
) -> Result<(), NoMemory>
    ensures ok { OnOk result (out.new ≡ out.old ++ frame_of_lem (rest.old.items ++ end.now)) }
    ensures err { OnErr result (out.new ≡ out.old) }
    ensures empty { rest.new.items ≡ [] }
{
    let pushed = push_joined(alloc, rest, end, out);
    rest.clear();
    pushed
}

// Takes a piece where nothing waits for it.
fn take_alone(
    alloc: Global,
    rest: &mut Vec<u8>,
    piece: &[u8],
    out: &mut List<Frame>,
) -> Result<(), NoMemory>
    requires { rest.old.items ≡ [] }
    ensures waits { is_open rest.new.items ≡ true }
    ensures ok { OnOk result (HasTaken piece.now rest.new.items out.old out.new) }
    ensures err { OnErr result (AddsFirst (frames_in piece.now) out.old out.new) }
{
    let start = push_frames(alloc, piece, out)?;
    keep(rest, start)
}

// Adds the frame that begins at the front, where an ETX ends it at the next place but so many, if it is one.
fn push_ended(alloc: Global, bytes: &[u8], at: usize, out: &mut List<Frame>) -> Result<(), NoMemory>
    requires starts { bytes.now ≡ stx ∷ drop 1 bytes.now }
    requires mark { IsFirst is_mark_lem (drop 1 bytes.now) at }
    ensures ok { OnOk result (Gains bytes.now (drop (at + 1) bytes.now) out.old out.new) }
    ensures err { OnErr result (out.new ≡ out.old) }
{
    if bytes[at + 1] != ETX {
        return Ok(());
    }
    push_frame(alloc, &bytes[..at + 2], out)
}

// Adds all frames that are whole, and answers the bytes from the last STX on, where no ETX stands after it.
fn push_frames<'a>(
    alloc: Global,
    bytes: &'a [u8],
    out: &mut List<Frame>,
) -> Result<&'a [u8], NoMemory>
    ensures start { IfOk result (λ start. start.now ≡ last_start bytes.now) }
    ensures ok { OnOk result (out.new ≡ out.old ++ frames_in bytes.now) }
    ensures err { OnErr result (AddsFirst (frames_in bytes.now) out.old out.new) }
{
    let mut rest = bytes;
    while let Some(start) = start_in(rest) {
        let ahead = &rest[start..];
        let tail = &ahead[1..];
        let Some(at) = mark_in(tail) else {
            return Ok(ahead);
        };
        push_ended(alloc, ahead, at, out)?;
        rest = &tail[at..];
    }
    Ok(&[])
}
