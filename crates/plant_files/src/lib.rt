//! Devices, printers and lines as files of a folder that is held, standard output as the console, and standard input as
//! a source.
#![tactic(auto)]

mod files;
mod folder;
mod hold;
mod marked;
mod plant;
mod source;
mod streams;
mod tally;

pub use hold::{FolderError, Opening};
pub use plant::{DEVICE_SIZE, FilePlant};
pub use source::StdSource;
pub use streams::Streams;
