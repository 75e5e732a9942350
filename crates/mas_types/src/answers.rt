//! What the program and its steps answer.
use crate::commands::Reply;
use crate::ids::{Dev, GroupNo, MemberId};

/// Why a line of a script is refused. Of several causes the first one counts.
#[derive(Clone, Copy, Debug)]
pub enum LineCause {
    /// A byte that is no text byte, or over 255 bytes.
    Text,
    /// CONFIG that is not the first line.
    Late,
    /// CONFIG in a warm run.
    Warm,
    /// CONFIG with keys or values outside the limits.
    Config,
    /// A line other than CONFIG where only that may stand.
    Only,
    /// The first word, or the second of STOP, is no member.
    Member,
    /// A line that may not stand in a race.
    Race,
    /// A word that is none of the script's, or words that are missing or left over.
    Verb,
    /// A word in a number's place that is none in its range.
    Number,
    /// A word that begins with `$` and is no command.
    Command,
    /// A deck that the end of the script cuts off.
    End,
    /// A step above 99,999.
    Steps,
    /// A line that the program does not play yet.
    NotBuilt,
}

/// Why a card is refused. Of several causes the first one counts.
#[derive(Clone, Copy, Debug)]
pub enum CardCause {
    /// Over 80 bytes.
    Text,
    /// Over 9,999 cards.
    Many,
    /// A card after the one that ends the job.
    After,
    /// The deck does not begin with a JOB statement.
    First,
    /// The job's name.
    Name,
    /// The operands of the JOB statement.
    Operand,
    /// A JES2 card that is none of the known ones.
    Jes,
    /// A JES2 card or a JOB statement in a wrong place.
    Place,
}

/// Why the converter refuses a statement. Of several causes the first one counts.
#[derive(Clone, Copy, Debug)]
pub enum JclCause {
    /// A bad name, or a DD statement without one.
    Name,
    /// An operation other than EXEC and DD.
    Operation,
    /// An EXEC statement whose first operand is no program.
    Proc,
    /// A program that is not known.
    Pgm,
    /// A data set by its name.
    Dsn,
    /// Any other operand, or a continuation that is missing.
    Operand,
    /// A card that is neither a statement nor data.
    Stray,
    /// A DD statement before the first EXEC statement.
    Place,
    /// Over 64 steps, or over 32 outputs.
    Many,
}

/// Why a copy of the checkpoint can't be used.
#[derive(Clone, Copy)]
pub enum CopyState {
    /// Its device is lost.
    Lost,
    /// It reads as no pages.
    Unread,
    /// Its pages are no sound queue, or don't fit the other copy's.
    Unsound,
}

/// How a run ends.
#[derive(Clone, Copy)]
pub enum Status {
    /// Every step has closed, except those whose member stopped.
    Done,
    /// The words are none of the program's.
    Words,
    /// A line of the script is refused.
    BadLine {
        /// The least such line, counted from 1.
        line: u32,
        /// Why.
        cause: LineCause,
    },
    /// The script has over 16,777,216 bytes.
    TooLong,
    /// The script could not be read to its end.
    SourceFault,
    /// No copy of the checkpoint can be used.
    NotFormatted {
        /// Why the first copy can't.
        first: CopyState,
        /// Why the second copy can't.
        second: CopyState,
    },
    /// Both copies of the checkpoint are lost.
    BothLost,
    /// A line could not be said.
    ConsoleFault,
    /// A device is smaller than the configuration needs.
    DeviceSize {
        /// The first such device.
        dev: Dev,
        /// Its size in bytes.
        size: u64,
    },
    /// Out of memory.
    NoMemory,
}

/// How a step closes.
#[derive(Drop)]
pub enum Closing {
    /// By the reply to its last command.
    Reply(Reply),
    /// So many work units were done.
    DoneUnits(u32),
    /// Another member holds the checkpoint.
    Busy(MemberId),
    /// The member may not hold the checkpoint before this tick.
    Dormant(u64),
    /// The member was stopped before the step.
    Down,
    /// The member stopped in the step.
    Stopped,
    /// The member to be reset isn't stopped.
    Up(MemberId),
    /// The member was reset.
    ResetOf(MemberId),
    /// The member doesn't hold the checkpoint.
    NotHolder,
    /// The least card of a deck that is refused, counted from 1.
    BadCard(u32, CardCause),
    /// A volume is lost.
    SpoolLost(u8),
    /// The member's printer is lost.
    PrinterLost,
    /// A line is lost.
    LineLost(u8),
    /// A text is gone, from this group on.
    NoText(GroupNo),
    /// The copy to be replaced isn't lost.
    NotLost(Dev),
    /// The new device of a copy that was to be replaced is lost.
    CkptLost(Dev),
    /// So many jobs were sent and got.
    Line(u32, u32),
}

/// What a check of the checkpoint finds wrong.
#[derive(Clone, Copy)]
pub enum FaultKind {
    /// A page is no spelling.
    Page,
    /// A number, an order or a job of a job's or an output's slot is wrong.
    Number,
    /// A group's job, output or member isn't there.
    Owner,
    /// A place of a text is taken twice, or a place before it is missing.
    Place,
    /// A group of a text holds no records.
    Text,
}

/// What a check of the checkpoint answers.
#[derive(Clone, Copy)]
pub enum Verdict {
    /// Nothing is wrong.
    Sound,
    /// The first kind of fault that occurs, and the least page, slot or group where it does.
    Fault(FaultKind, u32),
}
