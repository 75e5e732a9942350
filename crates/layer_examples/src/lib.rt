//! Worked examples of what the layers' contracts speak of, computed by the check: texts and limits, track groups, slots
//! and pages byte by byte, faults of tables, which work is selected, what commands are answered, and the lock.
#![tactic(auto)]

ghost use Rattle.layer_examples.specs.Texts.{TextsAreRead};
ghost use Rattle.layer_examples.specs.Groups.{GroupsAreGiven};
ghost use Rattle.layer_examples.specs.Slots.{SlotsAreSpelled, DamageIsFound};
ghost use Rattle.layer_examples.specs.Faults.{JobFaultsAreFound, OtherFaultsAreFound};
ghost use Rattle.layer_examples.specs.Jobs.{WorkIsSelected};
ghost use Rattle.layer_examples.specs.Commands.{CommandsAreAnswered};
ghost use Rattle.layer_examples.specs.Locks.{StopsAreTakenOver};

/// Names, numbers and limits, what ends with which status, and the queue of a cold start.
pub fn examples_of_texts()
    ensures { TextsAreRead }
{}

/// Track groups that are taken, given and freed.
pub fn examples_of_groups()
    ensures { GroupsAreGiven }
{}

/// The bytes of slots and pages, and the field in which a damaged slot is found.
pub fn examples_of_slots()
    ensures spelled { SlotsAreSpelled }
    ensures damaged { DamageIsFound }
{}

/// Faults of tables, of each kind the first.
pub fn examples_of_faults()
    ensures jobs { JobFaultsAreFound }
    ensures others { OtherFaultsAreFound }
{}

/// Which job or output comes next.
pub fn examples_of_jobs()
    ensures { WorkIsSelected }
{}

/// A job's whole life, refusals, and a full queue.
pub fn examples_of_commands()
    ensures { CommandsAreAnswered }
{}

/// A hold that is spent, and a lock that is taken over.
pub fn examples_of_locks()
    ensures { StopsAreTakenOver }
{}
