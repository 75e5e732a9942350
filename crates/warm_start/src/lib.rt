//! A warm start: what the copies of the checkpoint hold is found, the copy that counts, the queue that it stands for,
//! and what becomes of the other copy. Or these are only looked at. And a takeover in a run: a member takes the lock of
//! a stopped one, and finds out what became of its batch.
#![tactic(auto)]

mod inspecting;
mod looking;
mod queues;
mod spooled;
mod starting;
mod takeovers;

pub use inspecting::{found, law_of_looks, looked};
pub use queues::{law_of_found_queues, queue_of};
pub use spooled::spooled_queue;
pub use start_choice::{Good, Judged, Start, StartNo, choose, judge, usable};
pub use starting::{Started, Unstarted, refuse_small, warm};
pub use takeovers::{TakeNo, takeover};
