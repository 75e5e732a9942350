//! What became of a deck's job as it was opened.
use mas_types::JobNo;

/// How the first commands of a deck's step end.
#[derive(Clone, Copy)]
pub enum Opened {
    /// One was refused, and the step closes with that.
    Closed,
    /// The member has the groups for the text of this job.
    Ready(JobNo),
}
