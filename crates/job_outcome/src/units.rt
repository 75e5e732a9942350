//! How a unit of a member's work ends.
ghost use Rattle.std.specs.Prelude.{◌≡◌};
ghost use Rattle.job_outcome.specs.Next.{end_by as end_by_lem};

use mas_types::{Closing, Reply};

/// How a unit of work ends.
#[derive(Drop)]
pub enum UnitEnd {
    /// It is done.
    Done,
    /// None applies.
    Idle,
    /// It is refused, and the step closes so.
    Refused(Closing),
}

/// How a unit ends whose last command has this reply.
pub fn end_by(reply: &Reply) -> UnitEnd
    ensures { result ≡ end_by_lem reply.now }
{
    match reply {
        Reply::No(why) => UnitEnd::Refused(Closing::Reply(Reply::No(*why))),
        _ => UnitEnd::Done,
    }
}
