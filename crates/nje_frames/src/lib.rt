//! Frames as they go over a line from one node of a network to another: jobs with their cards, and acknowledgements.
//! They are written, and read again from a stream that comes in any pieces. The frames are this project's own; network
//! job entry's real record formats (z/OS JES2, Network Job Entry Formats and Protocols) are others.
#![tactic(auto)]

mod frames;
mod laws;
mod parts;
mod reading;
mod streams;
mod writing;

pub use frames::{Frame, FrameNo};
pub use laws::{law_of_examples, law_of_frames, law_of_streams};
pub use reading::read_frame;
pub use streams::FrameReader;
pub use writing::write_frame;

/// The byte before a frame.
const STX: u8 = 0x02;

/// The byte after a frame.
const ETX: u8 = 0x03;

/// The byte after a card.
const LINE_FEED: u8 = 0x0A;

/// The digits of a number.
const NUMBER_DIGITS: usize = 10;
