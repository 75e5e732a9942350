//! The tables of the queue, and their pages: a header, the members, the nodes, and then the slots
//! of jobs, the slots of outputs and the owners of track groups.
#![tactic(auto)]

mod copying;
mod decoding;
mod encoding;
mod entries;
mod faults;
mod header;
mod indexed;
mod keys;
mod kinds;
mod levels;
mod nodes;
mod slots;
mod tables;
mod testing;

pub use ckpt_tables::{Tables, law_of_page_sizes, level_of, page_count};
pub use decoding::{decode, law_of_checkpoints};
pub use encoding::{encode, encode_page};
pub use entries::PageNo;
pub use faults::{TableFault, law_of_sound_tables, sound};
pub use indexed::first_fault;
pub use levels::{changed, law_of_levels, levels_of};
pub use tables::{empty, law_of_empty_tables};
pub use testing::first_bad;
