//! Which numbers a receiver keeps, and the frame of a job.
ghost use Rattle.std.specs.Prelude.{◌≡◌, IfOk, Err, Some, None};
ghost use Rattle.nje_store.specs.declared.custody.FrameOfNo.TheVariants.{NoMemory as no_memory};

use mas_types::{Copied, Job, LineCount, NoMemory, Text};
use nje_frames::Frame;
use std::alloc::Global;

/// What a job's number is to the receiver.
#[derive(Clone, Copy)]
pub enum Custody {
    /// It is the next: the job is to be kept.
    Next,
    /// The job of this number was kept before: it is only acknowledged again.
    Again(u32),
    /// It leaves out a number.
    Gap {
        /// The job's number.
        number: u32,
        /// The number of the last job that was kept.
        kept: u32,
    },
}

/// Why a job has no frame.
#[derive(Clone, Copy)]
pub enum FrameOfNo {
    /// Its text is gone.
    NoText,
    /// Out of memory.
    NoMemory,
}

impl From<NoMemory> for FrameOfNo {
    ghost from_gives = { λ _ no. no ≡ no_memory };

    fn from(_error: NoMemory) -> FrameOfNo {
        FrameOfNo::NoMemory
    }
}

ghost use Rattle.nje_store.specs.Custody.{custody_of, refusal_of, number_refusal, job_frame};

/// Judges the number of a job that a line brought, by the conditions of the command Got: `Again` where it is at most
/// the last number that was got, `Gap` where it exceeds that by more than one, else `Next`.
pub fn judge(count: &LineCount, number: u32) -> Custody
    ensures custody { result ≡ custody_of count.now.got number }
    ensures as_got { refusal_of result ≡ number_refusal count.now.got number }
{
    if number <= count.got {
        return Custody::Again(number);
    }
    if number - count.got > 1 {
        return Custody::Gap {
            number,
            kept: count.got,
        };
    }
    Custody::Next
}

/// The frame of a job with the number that it has on its line: its origin, its node and its whole text. `NoText`
/// exactly where the text is gone. NoMemory comes only when out of memory.
pub fn frame_of(alloc: Global, job: &Job, number: u32) -> Result<Frame, FrameOfNo>
    ensures ok { IfOk result (λ frame. job_frame job.now number ≡ Some frame) }
    ensures no_text { result ≡ Err FrameOfNo.NoText → job_frame job.now number ≡ None }
{
    match &job.text {
        Text::Whole(lines) => Ok(Frame::Job {
            number,
            origin: job.fields.origin,
            node: job.fields.node,
            text: lines.copy(alloc)?,
        }),
        Text::Gone(_, _) => Err(FrameOfNo::NoText),
    }
}
