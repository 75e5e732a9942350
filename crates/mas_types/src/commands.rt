//! Commands and replies.
use crate::ids::{Class, JobNo, MemberId, Name8, OutNo, Prio};
use crate::jobs::{JobFields, OutSpec, Phase};
use crate::lists::List;
use crate::texts::Lines;

/// What a display shows.
#[derive(Clone, Copy)]
pub enum What {
    /// The jobs.
    Queue,
    /// A job and its outputs.
    Job(JobNo),
    /// The outputs.
    Outputs,
    /// The free groups of each volume.
    Spool,
    /// The setting of each member.
    Members,
}

/// A command of a member. Restart is given by member 0, any other command by a member of the configuration.
#[derive(Drop)]
pub enum Command {
    /// A new job stands last in the list, in Input, busy at the member, with the next number and no text. Answers Job.
    /// NoNode where its node is neither the own one nor one of the routes, JobsFull where there is no room.
    Begin {
        /// What its deck says of it.
        fields: JobFields,
    },
    /// The lowest Free groups become the member's. Answers the Count of them. SpoolFull where no group is Free.
    Take {
        /// How many, or all that are Free where they are fewer.
        want: u32,
    },
    /// The member's groups become Free, and the job goes. Answers Plain. NoJob, WrongPhase where the job isn't in
    /// Input, InUse where it isn't busy at the member.
    Drop {
        /// The job, 0 for none.
        job: JobNo,
    },
    /// The job gets its deck in the lowest groups of the member, whose other groups become Free, and goes on: to Purge
    /// where it is cancelled, to Xmit where its node isn't the own one, else to Convert. Answers Job. NoJob, WrongPhase
    /// where it isn't in Input, InUse where it isn't busy at the member, Nothing where the member has too few groups.
    Enter {
        /// The job.
        job: JobNo,
        /// The cards of its deck.
        text: Lines,
    },
    /// The job selected for conversion becomes busy at the member. Answers Job. Nothing where none is selected.
    TakeConvert,
    /// The job goes to Execute, or to Purge where it is cancelled. Answers Job. NoJob, WrongPhase where it isn't in
    /// Convert, InUse where it isn't busy at the member.
    Converted {
        /// The job.
        job: JobNo,
    },
    /// The job selected for execution becomes busy at the member. Answers Job. Nothing where none is selected.
    TakeExec,
    /// The job has run and goes to Output: its outputs stand last in the list, each with the next lowest groups of the
    /// member, whose other groups become Free. A cancelled job gets no outputs and goes to Purge. Answers the Count of
    /// outputs. NoJob, WrongPhase where it is in neither Convert nor Execute, InUse where it isn't busy at the member;
    /// unless it is cancelled OutputsFull where there is no room, Nothing where the member has too few groups.
    Ended {
        /// The job.
        job: JobNo,
        /// Its outputs, at most 32.
        outputs: List<OutSpec>,
    },
    /// The first job in Output goes to Hardcopy, or to Purge where it has no output. Answers Job. Nothing where there
    /// is none.
    Gather,
    /// The output selected for the member's printer becomes busy at the member. Answers Output. InUse where an output
    /// is busy at the member, Nothing where none is selected.
    Pick,
    /// The output's mark becomes `at`, but no more than its total. Answers the Count of the mark. NoOutput, InUse where
    /// the output isn't busy at the member.
    Mark {
        /// The output's job.
        job: JobNo,
        /// The output's index.
        index: OutNo,
        /// How many of its lines are printed.
        at: u32,
    },
    /// The output goes, and its groups become Free; a job in Hardcopy whose last output went goes to Purge. Answers
    /// Output. NoOutput, InUse where the output isn't busy at the member, Nothing where its mark is below its total.
    Done {
        /// The output's job.
        job: JobNo,
        /// The output's index.
        index: OutNo,
    },
    /// The first job in Purge goes, and its groups become Free. Answers Job. Nothing where there is none.
    Purge,
    /// The job is held. Answers Job. NoJob.
    Hold {
        /// The job.
        job: JobNo,
    },
    /// The job is held no longer. Answers Job. NoJob.
    Release {
        /// The job.
        job: JobNo,
    },
    /// A busy job becomes cancelled; any other loses its outputs and their groups and goes to Purge. Answers Job.
    /// NoJob, WrongPhase where it is in Purge or is being sent over a line, InUse where one of its outputs is busy at
    /// another member.
    Cancel {
        /// The job.
        job: JobNo,
    },
    /// The job gets another priority. Answers Job. NoJob, WrongPhase where it is in Purge.
    SetPrio {
        /// The job.
        job: JobNo,
        /// Its priority from now on.
        prio: Prio,
    },
    /// The job gets another class. Answers Job. NoJob, WrongPhase where it is past Execute.
    SetClass {
        /// The job.
        job: JobNo,
        /// Its class from now on.
        class: Class,
    },
    /// The held outputs of the job are released. Answers the Count of them. NoJob.
    Out {
        /// The job.
        job: JobNo,
    },
    /// The output goes, as with Done, printed or not. Answers Output. NoOutput, InUse where it is busy at another
    /// member.
    CancelOut {
        /// The output's job.
        job: JobNo,
        /// The output's index.
        index: OutNo,
    },
    /// The output gets another class. Answers Output. NoOutput, InUse where it is busy at another member.
    SetOut {
        /// The output's job.
        job: JobNo,
        /// The output's index.
        index: OutNo,
        /// Its class from now on.
        class: Class,
    },
    /// Changes nothing. Answers Shown with the lines of a display. NoJob where it is of a job that isn't there.
    Show {
        /// What is shown.
        what: What,
    },
    /// Sets the classes of the member's initiators. Answers Plain.
    SetInit {
        /// 1 to 36 different classes.
        classes: List<Class>,
    },
    /// Sets the member's printer. Answers Plain.
    SetPrt {
        /// 1 to 36 different classes.
        classes: List<Class>,
        /// The forms in it.
        forms: Name8,
        /// How many lines it prints at a time.
        lines: u16,
    },
    /// The mark of the output that the member prints falls. Answers the Count of the mark. Nothing where the member
    /// prints none.
    Back {
        /// By how many lines, down to 0 at most.
        lines: u32,
    },
    /// The mark of the output that the member prints rises. Answers the Count of the mark. Nothing where the member
    /// prints none.
    Forward {
        /// By how many lines, up to the total at most.
        lines: u32,
    },
    /// What is busy at a member becomes free of it, and its groups become Free. Of its jobs those in Input, the
    /// cancelled ones and those in Execute that may not run again go to Purge. Answers Plain. NoMember where there is
    /// none.
    Reset {
        /// The member.
        of: MemberId,
    },
    /// Reset of every member. Answers Plain.
    Restart,
    /// Where no job is current on the line, the job selected for it becomes current. Answers the current Job. Nothing
    /// where none is current and none selected.
    Load {
        /// The line.
        line: u8,
    },
    /// The job that is current on the line was acknowledged: it goes to Purge. Answers the Count of the number. Again
    /// where the number is at most the last one, Gap where it is more than the next, Nothing where no job is current.
    Sent {
        /// The line.
        line: u8,
        /// The job's number on the line.
        number: u32,
    },
    /// As Enter, for a job that came over the line. Again where the number is at most the last one, Gap where it is
    /// more than the next, then as Enter.
    Got {
        /// The line.
        line: u8,
        /// The job's number on the line.
        number: u32,
        /// The job.
        job: JobNo,
        /// The cards of its deck.
        text: Lines,
    },
}

/// Why a command is refused.
#[derive(Clone, Copy)]
pub enum Refusal {
    /// There is no room for another job.
    JobsFull,
    /// There is no room for so many more outputs.
    OutputsFull,
    /// No group is Free.
    SpoolFull,
    /// No job has the number.
    NoJob,
    /// No output has the job's number and the index.
    NoOutput,
    /// The job or output is busy at that member, 0 for nobody.
    InUse(MemberId),
    /// The job is in that phase.
    WrongPhase(Phase),
    /// There is nothing to do, or not yet what it needs.
    Nothing,
    /// No member has the number.
    NoMember,
    /// No route leads to the node.
    NoNode,
    /// That number was sent or got before.
    Again(u32),
    /// A number in between is missing.
    Gap {
        /// The number that came.
        number: u32,
        /// The last one that was kept.
        kept: u32,
    },
}

/// What a command answers.
#[derive(Drop)]
pub enum Reply {
    /// It was done.
    Plain,
    /// It was done to that job.
    Job(JobNo),
    /// It was done to that output.
    Output(JobNo, OutNo),
    /// It was done, with that count.
    Count(u32),
    /// The lines of a display.
    Shown(Lines),
    /// It was refused, and changed nothing.
    No(Refusal),
}
