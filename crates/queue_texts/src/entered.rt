//! What holds of texts over commands that bring one.
ghost use Rattle.queue_texts.specs.Entering.{EntersText, EnterBringsText, GotBringsText};

use track_groups::{law_of_giving, law_of_texts};

/// Enter of a job in Input, and Got of one, leaves each other text with its groups. The job has its text in the lowest
/// groups of the member then, as many as it needs, in ascending order. This holds of each queue whose jobs and outputs
/// have numbers of their own, and whose groups are of what is there.
pub fn law_of_entered_texts()
    ensures entered { EntersText }
    ensures enter { EnterBringsText }
    ensures got { GotBringsText }
{
    law_of_giving();
    law_of_texts();
}
