//! The sittings of a member's step that serves a line to another node: a job is loaded, and the frames that came are
//! handled one after another.
#![tactic(auto)]

mod arrivals;
mod frames;
mod loading;
mod nexts;
mod serving;

pub use frames::sit_frames;
pub use loading::sit_load;
