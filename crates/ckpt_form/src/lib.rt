//! The form of the copies of the checkpoint. This is the one crate that names it.
//!
//! The crates above say `CopyForm` of a copy, and `form_reads`, `form_needs` and `form_room` of its bytes. So another
//! form takes the place of this one by a change of this crate alone.
#![tactic(auto)]

mod form;
mod steady;

pub use form::CopyForm;
pub use steady::Steady;
