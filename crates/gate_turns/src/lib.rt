//! Taking turns at the shared value. Who takes a turn has the value alone until it is handed back, and what is handed
//! back leaves to the others what is theirs. One who waits for nobody is the only one at the value, and a pass of a
//! gate can be another.
#![tactic(auto)]

mod laws;
mod one_hand;
mod telling;
mod trying;
mod turns;

pub use laws::{
    examples_of_lines, law_of_beginnings, law_of_busy_things, law_of_copy_calls, law_of_fates,
    law_of_giving_back, law_of_groups, law_of_kept_batches, law_of_lines, law_of_lock_calls,
    law_of_losses, law_of_prints, law_of_quiet_calls, law_of_renewals, law_of_told_steps,
};
pub use one_hand::OneHand;
pub use telling::Telling;
pub use trying::try_in_turn;
pub use turns::Turns;
