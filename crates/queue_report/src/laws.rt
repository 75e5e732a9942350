//! Queues that a report may show.
ghost use Rattle.queue_report.specs.Naming.{SpelledAreNamed};

/// A queue that stands on pages may be reported: each member in it has a name.
pub fn law_of_named_queues()
    ensures { SpelledAreNamed }
{}
