//! An index of the jobs and the outputs of the queue: what is selected is found in its chain, and
//! not by a walk over all slots. Its answers are those of the walks.
#![tactic(auto)]

mod chains;
mod choices;
mod classes;
mod examples;
mod finding;
mod following;
mod index;
mod jobs;
mod kept;
mod moving;
mod outputs;
mod selecting;

pub use examples::examples_of_selection;
pub use index::Index;
pub use kept::KeptIndex;
