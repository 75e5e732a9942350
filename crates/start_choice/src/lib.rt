//! Which copy of the checkpoint counts at a start: what a start makes of the pages that a copy reads as, and the
//! choice.
#![tactic(auto)]

mod choosing;
mod sound_pages;

pub use choosing::{Good, Judged, Start, StartNo, choose, is_to_go, judge, judge_beside};
pub use sound_pages::usable;
