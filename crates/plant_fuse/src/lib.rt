//! Members that stop inside an act: a plant over any plant, which halts the acts whose stop was armed.
#![tactic(auto)]

mod fused;
mod stops;
mod tally;

pub use fused::Fused;
pub use stops::Stops;
pub use tally::Tally;
