//! Commands on the tables of a checkpoint that pages can spell.
#![tactic(auto)]

mod giving;

pub use giving::{give, is_plain};
pub use queue_effect::{Ends, setting, unit};
