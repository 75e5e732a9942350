//! What holds of every sitting, whatever queue it finds, and of every step.
ghost use Rattle.step_turns.specs.Laws.{BatchesAreWithinLimits, CoursesEnd, EntriesAreGiven, HoldsChangeNoEntry, LinesAreCaused, LinesAreSaidAtTheEnd, LockIsHeldRightly, NoUnitAfterTheLast, NoUnitIsSplit, StepsEnd};
ghost use Rattle.step_turns.specs.LineLaws.{AcknowledgedAreGot, CountsGoOn, OffersAreLoaded};
ghost use Rattle.step_turns.specs.LineWhole.{LineIsReadStraight};

/// A lock that was taken for a step is given up at each sitting's end; one that the operator took only at the end of a
/// step, and there only where its hold is spent. So the lock is held in acts that a step waits for only under LOCK.
pub fn law_of_the_lock()
    ensures { LockIsHeldRightly }
{}

/// Each batch of a sitting has 1 to 64 entries and splits no unit; and each entry has the reply that its command has at
/// its place.
pub fn law_of_batches()
    ensures limits { BatchesAreWithinLimits }
    ensures whole { NoUnitIsSplit }
    ensures given { EntriesAreGiven }
{}

/// No unit is played after the last that a step may play, and on a line no frame is handled after the last.
pub fn law_of_units()
    ensures { NoUnitAfterTheLast }
{}

/// A step says its lines as it closes, and it closes after at most as many sittings as its task may have.
pub fn law_of_ends()
    ensures lines { LinesAreSaidAtTheEnd }
    ensures measure { StepsEnd }
    ensures enough { CoursesEnd }
{}

/// A hold and LOCK change only how a step's entries are cut into batches: it gives the same entries, and closes with
/// the same lines, whatever is left of the hold and however the member came to the lock.
pub fn law_of_holds()
    ensures { HoldsChangeNoEntry }
{}

/// Why a step closes as it does: as its last command was answered, with the units that are done, by a text, a volume, a
/// printer or a line that its member found gone or lost, by the cards of a job that came over its line, or with the
/// jobs that left and came.
pub fn law_of_causes()
    ensures { LinesAreCaused }
{}

/// What a step gives on its line. Over a queue that nobody else changes, and where no line and no volume is found lost,
/// its sittings give what the step gives read straight: a Load and the job's frame, and then for each frame that came
/// what this asks for. It offers the job that its Load answered, under the next number, with the job's own nodes. It
/// acknowledges a number only where the queue that is kept has got it. And it counts the jobs that left and came as its
/// entries do.
pub fn law_of_lines()
    ensures offers { OffersAreLoaded }
    ensures acknowledges { AcknowledgedAreGot }
    ensures counts { CountsGoOn }
    ensures straight { LineIsReadStraight }
{}
