//! Work units.
use crate::ids::{JobNo, OutNo};

/// The next thing that a member does by itself, the first of these that applies.
#[derive(Clone, Copy)]
pub enum Unit {
    /// Prints the next lines of the output that is busy at the member.
    Print(JobNo, OutNo),
    /// Gives Done for that output, whose lines are all printed.
    Finish(JobNo, OutNo),
    /// Gives Pick.
    Pick,
    /// Gives Purge.
    Purge,
    /// Gives Gather.
    Gather,
    /// Runs the first job in Execute that is busy at the member.
    Run(JobNo),
    /// Converts the first job in Convert that is busy at the member.
    Convert(JobNo),
    /// Gives TakeExec.
    TakeExec,
    /// Gives TakeConvert.
    TakeConvert,
    /// Nothing applies.
    Idle,
}
