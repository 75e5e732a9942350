//! The command of a unit of work.
ghost use Rattle.std.specs.Prelude.{◌≡◌};
ghost use Rattle.member_work.specs.Units.{command_of as command_of_lem};

use mas_types::{Command, Unit};

/// The one command of a unit; none of one that reads a text, or that doesn't apply.
pub fn command_of(unit: Unit) -> Option<Command>
    ensures { result ≡ command_of_lem unit }
{
    match unit {
        Unit::Finish(job, index) => Some(Command::Done { job, index }),
        Unit::Pick => Some(Command::Pick),
        Unit::Purge => Some(Command::Purge),
        Unit::Gather => Some(Command::Gather),
        Unit::TakeExec => Some(Command::TakeExec),
        Unit::TakeConvert => Some(Command::TakeConvert),
        _ => None,
    }
}
