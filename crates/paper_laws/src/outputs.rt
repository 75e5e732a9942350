//! The law.
ghost use Rattle.paper_laws.specs.Leaving.{CommandsTakeOutputs, EntriesTakeOutputs};

/// An output leaves the queue only by Done at its total, by CancelOut, or by Cancel of its job: whatever the queue and
/// whoever gives the command. So where one was there and isn't after entries, one of these took it, at its place among
/// them.
pub fn law_of_outputs()
    ensures commands { CommandsTakeOutputs }
    ensures entries { EntriesTakeOutputs }
{}
