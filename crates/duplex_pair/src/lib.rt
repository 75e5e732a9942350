//! The two copies of the checkpoint, of which one may be lost.
//!
//! A copy counts as lost exactly where an act on it failed, or `lose` was called on it, since the pair was made or
//! since the last `replace` of `pair_replacing` for it was answered Ok. After a failed act a call goes on with the other
//! copy.
#![tactic(auto)]

mod errors;
mod finding;
mod half;
mod mending;
mod pages;
mod pair;

pub use errors::{Halted, Look, LookNo, PairFindNo, PairNo};
pub use finding::better_of;
pub use half::Half;
pub use pages::{first_numbers, page_numbers, pages_level};
pub use pair::Pair;
