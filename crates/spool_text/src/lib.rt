//! The text of decks and of output as the track groups of the spool hold it. A group is a page of whole records, each
//! one length byte and so many text bytes, and the byte 0xFF after them. This layout is the project's own.
#![tactic(auto)]

mod laws;
mod packing;
mod unpacking;

pub use laws::{law_of_groups, law_of_reading, law_of_texts};
pub use packing::{groups_needed, pack};
pub use unpacking::{TextNo, add_lines, is_line, unpack};

/// The byte after the records of a group.
const END_BYTE: u8 = 0xFF;
