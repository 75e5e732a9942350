//! A member's step from its first sitting to its last, with the lock: the member takes its seat, sits, leaves the lock
//! or keeps it, does the acts that the step waits for, and takes the lock again, until the step is told.
#![tactic(auto)]

mod asides;
mod gates;
mod playing;
mod sits;

pub use asides::{act_aside, act_then, nothing_found};
pub use gates::{enter, leave, next_holder};
pub use playing::{play_in_turns, play_piece, play_task, stop_halted};
pub use sits::{Stand, sit};
