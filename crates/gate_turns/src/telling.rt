//! Values that tell of themselves.
use mas_complex::{Complex, Steady};
use spool_plant::Plant;

/// A value at which members take turns. It tells of itself in proofs alone.
pub trait Telling {
    ghost use Rattle.mas_complex.specs.Parts.{Shown};

    /// That the plant tells its content.
    ghost tells: { Type 0 };

    /// What the value shows.
    ghost shown: { Self → Shown };
}

impl<P: Plant + Drop, C: Steady + Drop> Telling for Complex<P, C> {
    ghost use Rattle.mas_complex.specs.Parts.{shown_of};

    ghost tells = { P.tells };

    ghost shown = { λ x. shown_of x };
}
