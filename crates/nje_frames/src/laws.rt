//! What holds of all frames and of every stream.
ghost use Rattle.nje_frames.specs.Laws.{CompletesFew, ReadsAnyPieces, ReadsEachFrame, ReadsNothingElse, ReadsWhatIsSpelled, HasOneSpelling};
ghost use Rattle.nje_frames.specs.Examples.{AreAsWorked};

/// What is read is what was written.
pub fn law_of_frames()
    ensures spelled { ReadsWhatIsSpelled }
    ensures one { HasOneSpelling }
{}

/// The frames are a function of the stream, however it is cut. No frame is lost to what stands before it. A piece
/// completes no more frames than it has bytes.
pub fn law_of_streams()
    ensures pieces { ReadsAnyPieces }
    ensures each { ReadsEachFrame }
    ensures only { ReadsNothingElse }
    ensures few { CompletesFew }
{}

/// Worked examples.
pub fn law_of_examples()
    ensures { AreAsWorked }
{}
