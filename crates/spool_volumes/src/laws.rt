//! What holds of texts on the spool volumes.
ghost use Rattle.spool_volumes.specs.Laws.{ReadsTexts, LeavesTexts};

use spool_text::law_of_texts;

/// A text that stands in its groups is read from them.
pub fn law_of_read_texts()
    ensures { ReadsTexts }
{
    law_of_texts();
}

/// A text that is there and synced is read from whatever a crash leaves, unless one of its groups lies on a lost
/// volume.
pub fn law_of_left_texts()
    ensures { LeavesTexts }
{
    law_of_texts();
}
