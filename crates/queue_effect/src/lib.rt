//! The commands on tables, and the next work unit of a member.
#![tactic(auto)]

mod applying;
mod displays;
mod ending;
mod ends;
mod groups;
mod input;
mod laws;
mod life;
mod lookups;
mod members;
mod operator;
mod printing;
mod spans;
mod units;
mod wire;
mod working;

pub use applying::apply;
pub use displays::display;
pub use ends::Ends;
pub use laws::law_of_fit_tables;
pub use lookups::setting;
pub use mas_types::Unit;
pub use units::unit;
