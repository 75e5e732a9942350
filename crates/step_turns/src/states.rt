//! A step as a machine: what it is asked to do, where it stands, and what its member found.
//!
//! A member's step is cut into sittings. A sitting runs from having the lock to the next acts that want no lock, to a
//! spent hold, or to the line with which the step closes. Between two sittings other members may act.

use job_outcome::Read;
use mas_types::{Command, JobFields, JobNo, Lines, List, MemberId, Name8, OutNo, OutSpec};
use nje_frames::Frame;

/// What a step is asked to do.
#[derive(Drop)]
pub enum Task {
    /// To give an operator's command.
    Give(Command),
    /// To read a deck with these cards.
    Deck { fields: JobFields, text: Lines },
    /// To work, so many units at most.
    Work(u16),
    /// To serve the line of this number, once.
    Line(u8),
}

/// Where a step of work stands: the units that are done, and how many may still follow, after the one under way if
/// there is one.
#[derive(Clone, Copy)]
pub struct Progress {
    /// The units that are done.
    pub done: u16,
    /// The units that may still follow.
    pub left: u16,
}

/// A job that is current on a line, as its frame names it.
#[derive(Clone, Copy)]
pub struct Offer {
    /// The job.
    pub job: JobNo,
    /// Its number on the line.
    pub number: u32,
    /// The node at which its deck was read.
    pub origin: Name8,
    /// The node at which it is to run.
    pub node: Name8,
}

/// Where a step stands that serves a line, once it has taken the bytes that waited.
#[derive(Drop)]
pub struct Service {
    /// The line.
    pub line: u8,
    /// The jobs that left over the line in this step.
    pub sent: u32,
    /// The jobs that came over the line in this step.
    pub got: u32,
    /// The frames that came and are still to be handled, in their order.
    pub frames: List<Frame>,
}

/// Acts that want no lock, and that the step waits for.
#[derive(Drop)]
pub enum Aside {
    /// A deck's text goes into the groups that were taken for its job.
    SpoolDeck {
        job: JobNo,
        text: Lines,
    },
    /// The text of a job that is run, or else converted, is read; the job has these fields.
    ReadText {
        runs: bool,
        job: JobNo,
        fields: JobFields,
        progress: Progress,
    },
    /// The texts of a job's outputs go into the groups that were taken for them.
    SpoolOutputs {
        job: JobNo,
        outputs: List<OutSpec>,
        progress: Progress,
    },
    /// An output's text is read, and its lines are printed up to this one.
    PrintLines {
        job: JobNo,
        output: OutNo,
        last: u32,
        progress: Progress,
    },
    /// The text of the job that is current on a line, if one is, is read, and its frame is given. Then bytes are taken
    /// from the line, as many as wait, but no more than 65,536.
    Exchange {
        line: u8,
        offer: Option<Offer>,
    },
    /// The text of a job that came over a line under this number goes into the groups that were taken for it.
    SpoolArrival {
        number: u32,
        job: JobNo,
        text: Lines,
        service: Service,
    },
    /// The acknowledgement of this number is given on a line. Without a number nothing is done: the step has only given
    /// the lock up.
    Acknowledge {
        number: Option<u32>,
        service: Service,
    },
}

/// Where a step stands.
#[derive(Drop)]
pub enum State {
    /// The step is to begin.
    Fresh(Task),
    /// The step waits for these acts.
    Away(Aside),
    /// The step's hold was spent between two units.
    Rested(Progress),
    /// The step's lines are said, and it is over.
    Told,
}

/// What the member found in the acts for which a step waited. What a state doesn't wait for isn't looked at.
#[derive(Drop)]
pub struct Found {
    /// How the text was read.
    pub read: Read,
    /// The spool volume that is lost, if one is.
    pub lost: Option<u8>,
    /// Whether the member's printer is lost.
    pub printer: bool,
    /// Whether the line is lost.
    pub wire: bool,
    /// The frames that the bytes completed which were taken from the line, in their order.
    pub frames: List<Frame>,
}

/// How a member came to hold the lock.
#[derive(Clone, Copy)]
pub enum Grant {
    /// For this step.
    ForStep,
    /// By the operator's LOCK.
    ByLock,
}

/// A member that holds the lock in a step, and may give so many commands more before its hold is spent.
#[derive(Clone, Copy)]
pub struct Holder {
    /// The member.
    pub by: MemberId,
    /// The number of its step.
    pub step: u32,
    /// The commands that it may still give.
    pub hold: u16,
    /// How it has the lock.
    pub grant: Grant,
}

/// What a sitting leaves of the lock.
#[derive(Clone, Copy)]
pub enum Release {
    /// The lock is kept.
    Keep,
    /// The lock is given up, and taken again in this step.
    Inner,
    /// The lock is given up at the step's end.
    Outer,
}
