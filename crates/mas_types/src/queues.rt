//! The queue.
use crate::ids::{Class, JobNo, MemberId, Name8, OutNo};
use crate::jobs::{Job, Output};
use crate::lists::List;

/// What owns groups for its text.
#[derive(Clone, Copy)]
pub enum Thing {
    /// The deck of a job.
    Deck(JobNo),
    /// An output of a job.
    Output(JobNo, OutNo),
}

/// Whose a track group is.
#[derive(Clone, Copy)]
pub enum Owner {
    /// Nobody's.
    Free,
    /// A member's, which took it for a text to come.
    Member(MemberId),
    /// It has a piece of a job's deck.
    Deck {
        /// The job.
        job: JobNo,
        /// Which piece, counted from 0.
        place: u16,
    },
    /// It has a piece of an output.
    Output {
        /// The output's job.
        job: JobNo,
        /// The output's index.
        index: OutNo,
        /// Which piece, counted from 0.
        place: u16,
    },
}

/// The configuration of a spool.
#[derive(Clone, Copy, PartialEq, Eq)]
pub struct Config {
    /// The number of members, 1 to 8.
    pub members: u8,
    /// The room for jobs, 16 to 2,048 in steps of 16.
    pub jobs: u16,
    /// The room for outputs, 32 to 4,096 in steps of 32.
    pub outputs: u16,
    /// The number of spool volumes, 1 to 8.
    pub volumes: u8,
    /// The number of track groups of each volume, 1 to 4,096.
    pub groups: u16,
    /// How many commands a member gives before it lets others at the checkpoint, 1 to 9,999.
    pub hold: u16,
    /// How many attempts at the checkpoint a member that gave it up leaves to others, 0 to 9,999.
    pub dormancy: u16,
    /// The name of the own node.
    pub node: Name8,
}

/// What a member's initiators and its printer take.
#[derive(Drop)]
pub struct Setting {
    /// The classes of jobs that its initiators run, the first before the others.
    pub init: List<Class>,
    /// The classes of output that its printer takes, the first before the others.
    pub prt: List<Class>,
    /// The forms in its printer.
    pub forms: Name8,
    /// How many lines its printer prints at a time, 1 to 9,999.
    pub lines: u16,
}

/// The line that leads to another node.
#[derive(Clone, Copy)]
pub struct Route {
    /// The node.
    pub name: Name8,
    /// The line, 1 to 8.
    pub line: u8,
}

/// What went over a line to another node.
#[derive(Clone, Copy)]
pub struct LineCount {
    /// The number of the last job that was sent and acknowledged.
    pub sent: u32,
    /// The number of the last job that was got.
    pub got: u32,
    /// The job that is being sent, 0 for none.
    pub current: JobNo,
}

/// The whole queue.
#[derive(Drop)]
pub struct Queue {
    /// The configuration.
    pub config: Config,
    /// The jobs, the oldest first.
    pub jobs: List<Job>,
    /// The outputs, the oldest first.
    pub outputs: List<Output>,
    /// Whose each track group is.
    pub owners: List<Owner>,
    /// The setting of each member.
    pub members: List<Setting>,
    /// The lines that lead to other nodes.
    pub routes: List<Route>,
    /// What went over each line.
    pub lines: List<LineCount>,
    /// The last number that was given to a job, 0 for none.
    pub last: JobNo,
}
