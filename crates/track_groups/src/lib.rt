//! Whose the track groups are: who takes them, who gets them, and which are a text's. A track group is the unit in
//! which the space of the spool is given out (z/OS JES2 Initialization and Tuning Guide). All calls are over the owners
//! of all groups in order; group 0 is the first.
#![tactic(auto)]

mod changes;
mod kinds;
mod laws;
mod places;

pub use changes::{SpoolFull, free_member, free_thing, give_to, take};
pub use laws::{law_of_giving, law_of_groups, law_of_places, law_of_texts};
pub use places::{free_count, groups_of, held_by, member_count, owner};
