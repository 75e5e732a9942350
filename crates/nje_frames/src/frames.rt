//! What a frame is, and why bytes gave none.
use mas_types::{Lines, Name8};

/// A frame on a line to another node.
#[derive(Drop)]
pub enum Frame {
    /// A job on its way to another node.
    Job {
        /// Its number on this line, 1 to 4,294,967,295.
        number: u32,
        /// The node at which its deck was read.
        origin: Name8,
        /// The node at which it is to run.
        node: Name8,
        /// Its cards, 1 to 9,999 of at most 80 bytes from 0x20 to 0x7E.
        text: Lines,
    },
    /// The job of that number, 1 to 4,294,967,295, has arrived.
    Ack(u32),
}

/// Why bytes gave no frame.
#[derive(Clone, Copy)]
pub enum FrameNo {
    /// A frame begins with the bytes, and isn't whole. There are so many of them.
    Short(usize),
    /// The bytes are no frame. So many of them begin one, and no more do.
    BadFrame(usize),
    /// Out of memory.
    NoMemory,
}
