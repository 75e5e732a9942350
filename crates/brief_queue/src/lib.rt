//! A queue without its texts, as the shared value keeps the one that it began with. What memory leaves out stands in
//! ghost fields, so a contract sees the queue with its texts.
#![tactic(auto)]

mod jobs;
mod lines;
mod queues;
mod texts;
mod told;

pub use jobs::{BriefJob, BriefOutput};
pub use lines::BriefLines;
pub use queues::BriefQueue;
pub use texts::BriefText;
