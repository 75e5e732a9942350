//! A copy of the checkpoint in the log form: home pages, and after them slots with the pages that changed since.
//!
//! Block 0, by bytes: at 0 the VALID gate; at 1 the form, 2 for the log; at 2 the number of pages n, 2 bytes,
//! big-endian, `PAGES_LEAST` to `PAGES_MOST`; at 8 to 11 the gates of slots 0 to 3. A gate is open exactly where its
//! byte is `GATE_OPEN`. Other bytes of block 0 are not read.
//!
//! Home page p stands in block 1 + p, a block having `PAGE_BYTES`. Slot s has its directory in block 1 + n + s * (n +
//! 1) and its images in the blocks after that. A directory has the number of images at 0 (2 bytes), the level at 8 (8
//! bytes), and from 16 on the numbers of the pages (2 bytes each), ascending, the first 0; the i-th image is of the
//! i-th number. It is valid exactly where there are 1 to n images, the numbers are as said and below n, and all other
//! bytes are zero; the level may be any.
//!
//! The copy reads as the home pages overlaid with the images of the open slots in slot order. It reads as none where
//! VALID is closed, the form is another, n is out of range, the device is too small for n, or the directory of an open
//! slot isn't valid.
#![tactic(auto)]

mod directory;
mod finding;
mod laws;
mod layout;
mod log_copy;
mod places;
mod writing;

pub use directory::{Listed, read_directory, write_directory};
pub use laws::{law_of_closed_slots, law_of_directories, law_of_logs_at_rest, law_of_opened_slots};
pub use layout::{FORM_LOG, SLOTS, directory_place, free_slots, gate_at, log_head, size_of_log};
pub use log_copy::LogCopy;
pub use places::{PLACES, home_places, lay_images};
