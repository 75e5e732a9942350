//! The words that the program is called with: a command and its options, read by `clap`. The definition in specs/ says
//! which words there are and what they ask for.
#![tactic(auto)]

mod program;
mod reading;
mod types;

pub use reading::read_words;
pub use types::{Verb, Words, WordsNo};
