//! What holds of work steps, and of what is kept of them.
ghost use Rattle.std.specs.Prelude.{◌++◌};
ghost use Rattle.member_work.specs.Names.{in_flight, AreReplied};

use mas_complex::{Complex, Steady};
use spool_plant::Plant;

/// Where content is told each entry of the shared value has the reply that the table of commands gives at its place.
pub fn kept_replies<P: Plant + Drop, C: Steady + Drop>(complex: &Complex<P, C>)
    ensures { P.tells → ∥ AreReplied complex.now.base (complex.now.journal.batches ++ in_flight complex.now.current)
        ∥₁ }
{}
