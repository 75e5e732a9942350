//! How commands, units and steps end.
ghost use Rattle.std.specs.Prelude.{◌≡◌, ◌≤◌, [], ◌∷◌, IfOk};
ghost use Rattle.mas_types.specs.Closings.{IsReplyNamed, closing_line};
ghost use Rattle.mas_types.specs.Limits.{members_most};
ghost use Rattle.model_player.specs.Ends.{IsNamed, closing_of, end_of as end_of_lem};

use cmd_report::one_line;
use mas_types::{CardCause, Closing, GroupNo, JobNo, Lines, MemberId, NoMemory, Refusal, Reply};
use std::alloc::Global;

/// Why a step wasn't played to its end.
#[derive(Clone, Copy)]
pub enum PlayError {
    /// The script isn't read, or it asks for something that isn't played here.
    Unplayed,
    /// The member halted at an act.
    Halted,
    /// Out of memory.
    NoMemory,
}

impl From<NoMemory> for PlayError {
    fn from(_error: NoMemory) -> PlayError {
        PlayError::NoMemory
    }
}

/// How a command, a unit or a step ends, without the lines of a display.
#[derive(Clone, Copy)]
pub enum End {
    /// It was done.
    Plain,
    /// It was done to that job.
    Job(JobNo),
    /// It was done, with that count.
    Count(u32),
    /// A command was refused.
    Refused(Refusal),
    /// So many units were done.
    Units(u32),
    /// A text is gone, from this group on.
    NoText(GroupNo),
    /// The least card of a deck that is refused, counted from 1, and why.
    BadCard(u32, CardCause),
    /// Another member holds the lock.
    Busy(MemberId),
    /// The member may not have the lock before this tick.
    Dormant(u64),
    /// The member to be reset isn't stopped.
    Up(MemberId),
    /// The member was reset.
    Reset(MemberId),
    /// The member doesn't hold the lock.
    NotHolder,
    /// The member was stopped before the step.
    Down,
    /// The member stopped in the step.
    Stopped,
}

/// The end of a command with this reply.
pub fn end_of(reply: Reply) -> End
    requires { IsReplyNamed reply }
    ensures value { result ≡ end_of_lem reply }
    ensures named { IsNamed result }
{
    match reply {
        Reply::Job(job) => End::Job(job),
        Reply::Count(count) => End::Count(count),
        Reply::No(why) => End::Refused(why),
        _ => End::Plain,
    }
}

/// The line of a step that closes so. NoMemory comes only when out of memory.
pub fn closed(alloc: Global, by: MemberId, at: u32, end: End) -> Result<Lines, NoMemory>
    requires by { by.0 ≤ members_most }
    requires named { IsNamed end }
    ensures { IfOk result (λ lines. lines ≡ closing_line by at (closing_of end) ∷ []) }
{
    let closing = match end {
        End::Plain => Closing::Reply(Reply::Plain),
        End::Job(job) => Closing::Reply(Reply::Job(job)),
        End::Count(count) => Closing::Reply(Reply::Count(count)),
        End::Refused(why) => Closing::Reply(Reply::No(why)),
        End::Units(count) => Closing::DoneUnits(count),
        End::NoText(group) => Closing::NoText(group),
        End::BadCard(card, cause) => Closing::BadCard(card, cause),
        End::Busy(holder) => Closing::Busy(holder),
        End::Dormant(tick) => Closing::Dormant(tick),
        End::Up(member) => Closing::Up(member),
        End::Reset(member) => Closing::ResetOf(member),
        End::NotHolder => Closing::NotHolder,
        End::Down => Closing::Down,
        End::Stopped => Closing::Stopped,
    };
    one_line(alloc, by, at, &closing)
}
