//! Worked examples, computed by the check.
ghost use Rattle.nje_net.specs.Examples.{AreNets, BothHoldIt, NobodyHoldsIt, PathsToC};

/// A job that goes from a node over another to a third one, with a frame that comes twice.
pub fn example_of_a_run()
    ensures held { BothHoldIt }
    ensures acknowledged { NobodyHoldsIt }
{}

/// The path of a job to C, where the middle node sends on, back, or not at all.
pub fn example_of_paths()
    ensures nets { AreNets }
    ensures paths { PathsToC }
{}
