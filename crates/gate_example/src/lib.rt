//! A history that members write in turn: the smallest value for a gate, and threads that use it. It stands for no part
//! of the spool. It shows that a gate's clauses are enough to say of several threads whose entries stand where.
#![tactic(auto)]

mod crowd;
mod diary;
mod hands;

pub use crowd::together;
pub use diary::Diary;
pub use hands::{two, write_all, write_one};
