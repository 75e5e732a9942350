//! The laws: what holds of every command on the queue, whoever gives it.
ghost use Rattle.queue_laws.specs.Laws.{RefusedChangesNothing, KeepsBusy, KeepsSound, KeepsConfiguration, NamesMembers};
ghost use Rattle.queue_laws.specs.OwnerChange.{OwnersFollow, GroupsStay, GroupsTaken, GroupsGiven};
ghost use Rattle.queue_laws.specs.Marks.{MarksFollow, MarkIsAtMost};
ghost use Rattle.queue_laws.specs.Runs.{RunsKeepConfiguration, RunsKeepSound, RunsNameMembers};

/// A refused command changes nothing.
pub fn law_of_refusals()
    ensures { RefusedChangesNothing }
{}

/// Every command keeps the configuration and the routes.
pub fn law_of_configuration()
    ensures { KeepsConfiguration }
{}

/// A command that is within the limits, given by a member that may give it, keeps the sound parts of the queue.
pub fn law_of_sound_parts()
    ensures { KeepsSound }
{}

/// A track group changes hands only by the member that gives the command, and by resets.
pub fn law_of_groups()
    ensures all { OwnersFollow }
    ensures stay { GroupsStay }
    ensures taken { GroupsTaken }
    ensures given { GroupsGiven }
{}

/// An output's lines stay, and its mark changes only by the member at which it is busy. It comes by Ended with mark 0,
/// and goes by Done where all is printed, by CancelOut and by Cancel. A Mark leaves at most its number.
pub fn law_of_marks()
    ensures follow { MarksFollow }
    ensures at_most { MarkIsAtMost }
{}

/// What is busy at a member stays so under the commands of others.
pub fn law_of_busy_parts()
    ensures { KeepsBusy }
{}

/// A reply names nobody but the operator and members that there may be, so each has a name.
pub fn law_of_replies()
    ensures { NamesMembers }
{}

/// A run of entries keeps the configuration and the routes. Where each command is within the limits and given by a
/// member that may give it, it keeps the sound parts too, and each reply names nobody but the operator and members that
/// there may be.
pub fn law_of_runs()
    ensures configuration { RunsKeepConfiguration }
    ensures sound { RunsKeepSound }
    ensures replies { RunsNameMembers }
{}
