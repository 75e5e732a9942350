//! Reading a deck: the cards of one job (z/OS MVS JCL Reference), with the JES2 cards that say where and
//! when it runs. The definitions in specs/ say which decks there are and what each says of its job.
#![tactic(auto)]

pub mod cards;
mod decks;
mod jes;
mod jobs;
pub mod operands;
pub mod statements;

pub use decks::{Deck, DeckNo, read_deck};
pub use jes::read_name8;
