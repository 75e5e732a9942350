//! Reading a script: its configuration and its steps, or the least line that is refused and why. The definitions in
//! specs/ say which lines there are, what each asks for, and which cause comes first.
#![tactic(auto)]

mod asks;
mod config;
mod lines;
mod script;
mod types;

pub use lines::{cut, is_deck_end, next_line};
pub use script::read_script;
pub use types::{Ask, Script, ScriptNo, Step};
