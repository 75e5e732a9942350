//! What follows in a sitting that handles frames, by the first of those that are left.
ghost use Rattle.std.specs.Prelude.{◌≡◌, ◌+◌, ◌≤◌, ◌<◌, ◌^◌, Some, length, slice_get};
ghost use Rattle.mas_types.specs.declared.queues.Queue.{Queue};
ghost use Rattle.mas_types.specs.Commands.Wire.{got_on};
ghost use Rattle.mas_types.specs.Fit.{IsLine};
ghost use Rattle.mas_types.specs.Queue.{wire_at};
ghost use Rattle.ckpt_tables.specs.Shape.{HasSpelling};
ghost use Rattle.nje_store.specs.Custody.{custody_of};
ghost use Rattle.queue_telling.specs.Telling.{Tell};
ghost use Rattle.step_turns.specs.Serving.{with_frames};
ghost use Rattle.member_frames.specs.Nexts.{IsRightNext, counts_by, frames_after, front_by, front_of as front_of_lem, next_of as next_of_lem};
ghost use Rattle.member_frames.specs.Waits.{IsServable};

use ckpt_tables::Tables;
use job_outcome::UnitEnd;
use mas_types::LineCount;
use nje_frames::Frame;
use nje_store::{Custody, judge};
use step_turns::Service;

/// What a frame is to a line, by the numbers that this has got.
#[derive(Clone, Copy)]
pub(crate) enum Front {
    /// It acknowledges the job of this number.
    Answers(u32),
    /// It brings the next job.
    Begins,
    /// It brings a job that was got before, under this number.
    Repeats(u32),
    /// It brings a job that leaves a number out.
    LeavesOut,
}

/// What follows in a sitting, with the frames that are left then.
#[derive(Drop)]
pub(crate) enum Next {
    /// The job of this number is sent.
    Send(u32, Service),
    /// The job in the first frame begins.
    Begin(Service),
    /// The job of this number is acknowledged again.
    Again(u32, Service),
    /// No frame is left.
    End(Service),
}

/// What went over a line.
pub(crate) fn count_on(tables: &Tables, line: u8) -> &LineCount
    requires line { IsLine line }
    requires spelling { HasSpelling tables.now }
    ensures { (Q : Queue) → Tell tables.now Q → wire_at Q line ≡ Some result.now }
{
    tables.lines.item(line as usize - 1)
}

// What a job is to a line by its number.
fn judged(tables: &Tables, line: u8, number: u32) -> Front
    requires line { IsLine line }
    requires spelling { HasSpelling tables.now }
    ensures { (Q : Queue) → Tell tables.now Q
        → result ≡ front_by (custody_of (got_on Q line) number) }
{
    match judge(count_on(tables, line), number) {
        Custody::Next => Front::Begins,
        Custody::Again(number) => Front::Repeats(number),
        Custody::Gap { .. } => Front::LeavesOut,
    }
}

// What a frame is to a line.
fn front_of(tables: &Tables, line: u8, frame: &Frame) -> Front
    requires line { IsLine line }
    requires spelling { HasSpelling tables.now }
    ensures { (Q : Queue) → Tell tables.now Q → result ≡ front_of_lem Q line frame.now }
{
    match frame {
        Frame::Ack(number) => Front::Answers(*number),
        Frame::Job { number, .. } => judged(tables, line, *number),
    }
}

/// The first frame that is left, and the service with those after it.
pub(crate) fn take_first(service: Service) -> (Frame, Service)
    requires { 1 ≤ length service.frames }
    ensures first { slice_get service.frames 0 ≡ Some result.0 }
    ensures rest { result.1 ≡ with_frames (frames_after service.frames) service }
{
    let mut service = service;
    let frame = service.frames.remove(0);
    (frame, service)
}

// The service without the first frame that is left.
fn without_first(service: Service) -> Service
    requires { 1 ≤ length service.frames }
    ensures { result ≡ with_frames (frames_after service.frames) service }
{
    let (_frame, rest) = take_first(service);
    rest
}

/// What follows, by the numbers that the line has got: jobs at the front that leave a number out are passed over.
pub(crate) fn next_of(tables: &Tables, service: Service) -> Next
    requires spelling { HasSpelling tables.now }
    requires servable { IsServable service }
    ensures is { (Q : Queue) → Tell tables.now Q → result ≡ next_of_lem Q service }
    ensures right { IsRightNext (length service.frames) result }
{
    let mut service = service;
    'frames: while service.frames.len() > 0 {
        match front_of(tables, service.line, service.frames.item(0)) {
            Front::Answers(number) => return Next::Send(number, without_first(service)),
            Front::Begins => return Next::Begin(service),
            Front::Repeats(number) => return Next::Again(number, without_first(service)),
            Front::LeavesOut => service = without_first(service),
        }
    }
    Next::End(service)
}

/// A job that left is counted, unless Sent was refused.
pub(crate) fn counted(service: Service, end: UnitEnd) -> Service
    requires { service.sent + 1 < 2 ^ 32 }
    ensures { result ≡ counts_by end service }
{
    match end {
        UnitEnd::Done => {
            let sent = service.sent + 1;
            Service { sent, ..service }
        }
        _ => service,
    }
}
