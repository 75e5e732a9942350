//! What commands leave of the texts of a queue.
ghost use Rattle.queue_texts.specs.Leaving.{OthersLeaveTexts, SoundAreTheirOwn, ToldAreTheirOwn};

/// A command that brings no text leaves each text with its groups, and a new job has neither lines nor groups: in a
/// sound queue, and in each queue of tables that tell a sound one.
pub fn law_of_texts()
    ensures texts { OthersLeaveTexts }
    ensures sound { SoundAreTheirOwn }
    ensures told { ToldAreTheirOwn }
{}
