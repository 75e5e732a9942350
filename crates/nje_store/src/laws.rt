//! What holds of every schedule, and of every number.
ghost use Rattle.nje_store.specs.Laws.{JudgesAsGot, KeepsCustody, GetsEachOnce};
ghost use Rattle.nje_store.specs.Examples.{AreAsWorked};
ghost use Rattle.nje_store.specs.Numbers.{NumbersAreGotOnce, NumbersAreSentOnce};

/// Whatever a wire loses, repeats or reorders, no job doubles and none is lost.
pub fn law_of_custody()
    ensures judged { JudgesAsGot }
    ensures kept { KeepsCustody }
    ensures once { GetsEachOnce }
{}

/// Along any history of a node's queue the numbers that it gets on a line are the next ones, each once, and so are
/// those under which its jobs leave: whatever comes over the line, and whatever its members do.
pub fn law_of_numbers()
    ensures got { NumbersAreGotOnce }
    ensures sent { NumbersAreSentOnce }
{}

/// Worked examples.
pub fn law_of_examples()
    ensures { AreAsWorked }
{}
