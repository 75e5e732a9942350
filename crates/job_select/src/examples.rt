//! Worked examples, computed by the check.
ghost use Rattle.job_select.specs.Examples.{JobsAreSelected};

/// Which of two jobs the contracts of an index select.
pub fn examples_of_selection()
    ensures { JobsAreSelected }
{}
