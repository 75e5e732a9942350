//! The lock of the checkpoint as a book: which member holds it, how long it may go on, and who has to wait. One member
//! holds the checkpoint at a time; it keeps it while its HOLD lasts, and leaves it to others for its DORMANCY (z/OS
//! JES2 Initialization and Tuning Guide). Both are counted here and not timed: HOLD in commands, DORMANCY in tries.
#![tactic(auto)]

mod answers;
mod book;
mod laws;
mod standings;

pub use answers::{LockNo, NotHolder, SeizeNo};
pub use book::LockBook;
pub use laws::{
    law_of_changes, law_of_dormancy, law_of_grants, law_of_refusals, law_of_worked_rows,
};
pub use standings::Standing;
