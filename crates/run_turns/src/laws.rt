//! What holds of every line, at every scene, and of every run.
ghost use Rattle.run_turns.specs.Alone.{RunsOfOneAreWhole};
ghost use Rattle.run_turns.specs.Awake.{AwakeRunsAreNotDormant};
ghost use Rattle.run_turns.specs.Givens.{RightLinesAreTheScript};
ghost use Rattle.run_turns.specs.Laws.{CutsGiveFirst, CutsGiveFirstBytes, DeniedByTheBook, DownIfStopped, FreeGivesUp, HolderIsTakenOver, HoldsAreSpent, LockKeeps, NoStopOfTheStopped, NoSuchMember, NoSuchReset, OnlyHoldersFree, OnlyStoppedAreReset, OthersLeaveTheLock, QueuesAreOfHistory, SaidIsKept, SayersAreRight, StepsAreCourses, StoppedHolders, StoppedPlayNothing, StopsAreNoted, UpIsNotReset};

/// Why a line closes before its commands, each closing exactly where its cause holds: its member is above the
/// configured ones, or was stopped before; the member that is to be reset is above them, or is up; its member doesn't
/// hold what it would give up; or the book of the lock refuses its try. Only a stopped member is reset, and the lock is
/// taken over only from a stopped holder. The operator says the lines of a member that is none, or that was stopped
/// before.
pub fn law_of_tests()
    ensures members { NoSuchMember }
    ensures down { DownIfStopped }
    ensures resets { NoSuchReset }
    ensures up { UpIsNotReset }
    ensures takeover { HolderIsTakenOver }
    ensures stopped { OnlyStoppedAreReset }
    ensures frees { OnlyHoldersFree }
    ensures tries { DeniedByTheBook }
    ensures sayers { SayersAreRight }
{}

/// A stop is noted in the book and changes nothing else; one of a member that is none, or was stopped before, does
/// nothing. Whatever a line of a stopped member asks for, it gives no batch and no bytes, and prints nothing. Who stops
/// in a step that took the lock holds it, unless it stops in acts that follow a sitting.
pub fn law_of_stops()
    ensures none { NoStopOfTheStopped }
    ensures noted { StopsAreNoted }
    ensures nothing { StoppedPlayNothing }
    ensures holders { StoppedHolders }
{}

/// Wherever steps were cut, and whatever takeovers found: after each line the queue is that of the kept batches of the
/// history, from the run's first queue on, and a batch in flight is the last of the history.
pub fn law_of_histories()
    ensures { QueuesAreOfHistory }
{}

/// Wherever a step was cut, and whatever it found: it gave the first ones of the entries that it would have given, and
/// of the bytes that it would have given on a line to another node. And where one of its lines stands, even a torn one,
/// all of its batches are kept.
pub fn law_of_cuts()
    ensures first { CutsGiveFirst }
    ensures bytes { CutsGiveFirstBytes }
    ensures said { SaidIsKept }
{}

/// The lock from one line to another. LOCK keeps it, with a whole hold. Each entry that its member gives then spends
/// one of the hold; the member holds on while some of it is left, and gives the lock up at the end of the line that
/// spends the last. FREE gives it up before. A line of another member leaves it with its holder, unless it takes the
/// lock over from a stopped one.
pub fn law_of_locks()
    ensures keeps { LockKeeps }
    ensures spends { HoldsAreSpent }
    ensures frees { FreeGivesUp }
    ensures others { OthersLeaveTheLock }
{}

/// A step that takes the lock, while nothing is in flight and where nothing cuts it, gives just what its sittings give
/// one after another over a queue that nobody else changes: its batches are kept, its lines said, and the lock is
/// nobody's again.
pub fn law_of_whole_steps()
    ensures { StepsAreCourses }
{}

/// A script of one member that takes no lock from one line to another, as every script that is played today: each line
/// gives what it gives as a whole, at a queue that nobody else changes and a book of the lock that knows of no
/// sittings. All its batches are kept, and its lines said.
pub fn law_of_runs_of_one()
    ensures { RunsOfOneAreWhole }
{}

/// A run follows from the pieces that its lines gave, wherever they were cut: its outcomes, and the scene that it
/// leaves. Where the pieces of each line are those that its queue gives, by what it found, these are what the script
/// says.
pub fn law_of_given_pieces()
    ensures { RightLinesAreTheScript }
{}

/// Where the configuration has no dormancy no line of a run is refused because it comes too early, whatever its lines
/// found and wherever they were cut.
pub fn law_of_awake_runs()
    ensures { AwakeRunsAreNotDormant }
{}
