//! What a command leaves of a text that is gone.
ghost use Rattle.queue_gone.specs.Gone.{CommandsLeaveGone};

/// A command of a sound queue leaves the text of a job, or of an output, gone with the group with which it was, unless
/// it brings a job of this number, its text, or outputs of the job: then the text is whole.
pub fn law_of_gone_texts()
    ensures { CommandsLeaveGone }
{}
