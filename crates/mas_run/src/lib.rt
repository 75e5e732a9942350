//! A script that is played on a plant, from an empty queue or from the one that is found.
#![tactic(auto)]

mod laws;
mod play;
mod running;
mod top;

pub use laws::{law_of_plays_on, law_of_sound_volumes};
pub use top::{play_script, play_steps};
