//! Slots of fixed fields as bytes. Numbers are unsigned, the greatest byte first.
#![tactic(auto)]

mod fields;
mod names;
mod numbers;
mod records;
mod runs;
mod slots;

pub use fields::{BadField, Field, check_fields, fill_fields, put, put_fields};
pub use names::{is_class, is_classes, is_name};
pub use numbers::{read_u16, read_u32, read_u64, write_u16, write_u32, write_u64};
pub use records::{JobRec, OutRec};
pub use runs::{is_same_name, is_same_page, is_zero};
pub use slots::{
    law_of_slots, read_job, read_output, read_owner, write_job, write_output, write_owner,
};
