//! One copy of the checkpoint, on one device, whatever its form: its pages, behind gates that are opened once the pages
//! are synced. And the acts on its device.
//!
//! Block 0 of a copy of any form, by bytes: at 0 the VALID gate; at 1 the form; at 2 the number of pages, 2 bytes,
//! big-endian, `PAGES_LEAST` to `PAGES_MOST`. A gate is open exactly where its byte is `GATE_OPEN`. Where the other
//! gates and the pages stand is the form's to say.
#![tactic(auto)]

pub mod acts;
mod copying;
mod layout;

pub use copying::{CopyNo, Copying, FindNo};
pub use layout::{GATE_CLOSED, GATE_OPEN, HEAD_AT, VALID_AT};
