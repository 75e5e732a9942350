//! The shared value: a plant, the two copies of the checkpoint on it, and the journal of what was done with them.
//!
//! Its type keeps, for each moment since it was made and whichever copy was lost when, what a crash at that moment
//! leaves, what the console tells at it, and what stands on paper. `Complex::end` hands all of it out.
#![tactic(auto)]

mod arming;
mod begin_end;
mod complex;
mod copies;
mod counts;
mod fitting;
mod journal_end;
mod locking;
mod noting;
mod places;
mod printing;
mod recover;
mod renewals;
mod replacing;
mod reserving;
mod saying;
mod seeing;
mod spool;
mod wires;
mod writing;

pub use brief_journal::{
    BriefBatch, BriefCommand, BriefEntries, BriefEntry, BriefJournal, BriefReply,
};
pub use brief_queue::{BriefJob, BriefOutput, BriefQueue, BriefText};
pub use ckpt_form::Steady;
pub use ckpt_places::Place;
pub use complex::{Complex, Ended};
pub use counts::COUNTS;
pub use fitting::{fits, same_pages};
pub use noting::Note;
pub use pair_replacing::ReplaceNo;
pub use recover::RecoverNo;
pub use renewals::{Renewal, Renewals};
pub use spool::examples_of_texts;
