//! What holds of texts over the end of a job.
ghost use Rattle.job_outcome.specs.Ending.{EndedBringsTexts};

use track_groups::{law_of_giving, law_of_texts};

/// Ended leaves each text with its groups, and each output of the job has its text in its share of the member's groups:
/// the lowest ones are the first output's. This holds of each queue whose jobs and outputs have numbers of their own,
/// whose groups are of what is there, and in which the job has no output yet.
pub fn law_of_ended_texts()
    ensures { EndedBringsTexts }
{
    law_of_giving();
    law_of_texts();
}
