//! Jobs and outputs.
ghost use Rattle.std.specs.Prelude.{◌≡◌, if◌then◌else◌};

use crate::ids::{Class, GroupNo, JobNo, MemberId, Name8, OutNo, Prio};
use crate::texts::Lines;

/// Where a job is on its way through the spool.
#[derive(Clone, Copy)]
pub enum Phase {
    /// Its deck is being read.
    Input,
    /// It waits for the converter, or is converted.
    Convert,
    /// It waits for an initiator, or runs.
    Execute,
    /// It has run, and its outputs are not yet handed to the printers.
    Output,
    /// Its outputs wait for printers, or are printed.
    Hardcopy,
    /// It is about to go.
    Purge,
    /// It waits for a line to another node, or is sent.
    Xmit,
}

/// Purge for a cancelled job, else the other phase.
pub fn purge_if(cancelled: bool, other: Phase) -> Phase
    ensures { result ≡ (if cancelled then Phase.Purge else other) }
{
    if cancelled { Phase::Purge } else { other }
}

/// The text of a deck or of an output.
#[derive(Drop)]
pub enum Text {
    /// All its lines.
    Whole(Lines),
    /// The text is gone: the first of its groups that lies on a lost volume or holds no records, and its number of
    /// lines.
    Gone(GroupNo, u16),
}

/// What a deck says of its job.
#[derive(Clone, Copy)]
pub struct JobFields {
    /// The name on the JOB statement.
    pub name: Name8,
    /// The class for execution.
    pub class: Class,
    /// The class of outputs that name none.
    pub msgclass: Class,
    /// The priority in each selection.
    pub prio: Prio,
    /// A held job is selected for nothing.
    pub held: bool,
    /// The job is only converted, and not run.
    pub scan: bool,
    /// The job runs again where its member fails in the middle; else it is purged.
    pub restart: bool,
    /// The destination of outputs that name none.
    pub dest: Name8,
    /// The node at which the job runs.
    pub node: Name8,
    /// The node at which its deck was read.
    pub origin: Name8,
}

/// A job.
#[derive(Drop)]
pub struct Job {
    /// Its number, by which commands name it.
    pub number: JobNo,
    /// What its deck says, except what commands changed of it.
    pub fields: JobFields,
    /// Where it is on its way.
    pub phase: Phase,
    /// It was cancelled while a member was at work on it.
    pub cancelled: bool,
    /// The member that is at work on it, 0 for nobody.
    pub busy: MemberId,
    /// The cards of its deck.
    pub text: Text,
}

/// What a job's end says of an output.
#[derive(Drop)]
pub struct OutSpec {
    /// The class that a printer takes it by.
    pub class: Class,
    /// The destination: LOCAL, or the name of the member whose printer is to print it.
    pub dest: Name8,
    /// The forms that have to be in the printer.
    pub forms: Name8,
    /// How often its lines are printed, from 1 on.
    pub copies: u8,
    /// A held output is not printed.
    pub held: bool,
    /// Its lines, at least one.
    pub text: Lines,
}

/// An output of a job.
#[derive(Drop)]
pub struct Output {
    /// Its job.
    pub job: JobNo,
    /// Its index among the outputs of its job.
    pub index: OutNo,
    /// The class that a printer takes it by.
    pub class: Class,
    /// The destination: LOCAL, or the name of the member whose printer is to print it.
    pub dest: Name8,
    /// The forms that have to be in the printer.
    pub forms: Name8,
    /// How often its lines are printed, from 1 on.
    pub copies: u8,
    /// A held output is not printed.
    pub held: bool,
    /// The member whose printer has it, 0 for nobody.
    pub busy: MemberId,
    /// How many lines of all its copies are noted as printed.
    pub mark: u32,
    /// Its lines.
    pub text: Text,
}
