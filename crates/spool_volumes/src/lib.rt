//! Where track groups lie on the spool volumes, and the texts of decks and outputs that stand there.
#![tactic(auto)]

mod laws;
mod reading;
mod volumes;

pub use laws::{law_of_left_texts, law_of_read_texts};
pub use reading::{ReadError, last_group, read_text};
pub use volumes::volume_of;
