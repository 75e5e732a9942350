//! Worked examples: what commands come to on small queues, computed by the check.
ghost use Rattle.queue_laws.specs.Examples.Decks.{FiftyCommentsTakeOneGroup, FiftyOneCommentsTakeTwoGroups, SpoolFullDropsTheDeck, DroppedGroupIsFree, SecondDeckIsOnSecondVolume, SeventeenthDeckIsRefused, NumbersBeginAgain};
ghost use Rattle.queue_laws.specs.Examples.Work.{FirstJobIsConverted, GreatestPriorityIsConverted, HeldJobIsPassedOver, ResetPurgesWhatMayNotRestart};
ghost use Rattle.queue_laws.specs.Examples.Printing.{MarkIsShown, ResetKeepsTheMark, MarksMoveAtTheirMember, DoneWaitsForTheLastLine, PurgedJobLeavesNothing};
ghost use Rattle.queue_laws.specs.Examples.Displays.{SpoolIsShown, MembersAreShown, OneJobIsShown};
ghost use Rattle.queue_laws.specs.Examples.Lines.{SentJobIsNumbered, GotJobIsNumbered, UnknownNodeIsRefused};

/// Decks: their groups, a full spool, a full queue, and the number of a new job.
pub fn examples_of_decks()
    ensures one_group { FiftyCommentsTakeOneGroup }
    ensures two_groups { FiftyOneCommentsTakeTwoGroups }
    ensures spool_full { SpoolFullDropsTheDeck }
    ensures dropped { DroppedGroupIsFree }
    ensures second_volume { SecondDeckIsOnSecondVolume }
    ensures jobs_full { SeventeenthDeckIsRefused }
    ensures numbers { NumbersBeginAgain }
{}

/// Which job is selected, and what a reset makes of one.
pub fn examples_of_work()
    ensures first { FirstJobIsConverted }
    ensures greatest { GreatestPriorityIsConverted }
    ensures held { HeldJobIsPassedOver }
    ensures reset { ResetPurgesWhatMayNotRestart }
{}

/// An output from its job's end to its last line.
pub fn examples_of_printing()
    ensures shown { MarkIsShown }
    ensures reset { ResetKeepsTheMark }
    ensures moved { MarksMoveAtTheirMember }
    ensures last_line { DoneWaitsForTheLastLine }
    ensures nothing_left { PurgedJobLeavesNothing }
{}

/// Displays.
pub fn examples_of_displays()
    ensures spool { SpoolIsShown }
    ensures members { MembersAreShown }
    ensures job { OneJobIsShown }
{}

/// Jobs that go over a line to another node, and come from one.
pub fn examples_of_lines()
    ensures sent { SentJobIsNumbered }
    ensures got { GotJobIsNumbered }
    ensures no_node { UnknownNodeIsRefused }
{}
