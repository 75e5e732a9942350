//! The shared value in a gate.
ghost use Rattle.std.specs.Prelude.{◌≡◌};
ghost use Rattle.mas_race.specs.Beginnings.{IsFrom, from_prop};
ghost use Rattle.mas_race.specs.Between.{BetweenTurns, rest_prop};
ghost use Rattle.mas_race.specs.Passings.{RestsAs};

use mas_complex::{Complex, Steady};
use member_gate::Kept;
use spool_plant::Plant;
use std::marker::{Brand, PhantomData};

/// What a race began with. Each race picks it, so that it is known of each value that a member finds: nothing that a
/// gate's passes know speaks of past moments.
pub trait Beginning {
    ghost use Rattle.mas_race.specs.Beginnings.{Began};

    ghost began: { Began };
}

impl Beginning for Brand {
    ghost use Rattle.mas_race.specs.Beginnings.{no_beginning};

    ghost began = { no_beginning };
}

/// A shared value between two turns of a race.
#[derive(Drop)]
pub struct Shared<P: Plant + Drop, C: Steady + Drop, J: Beginning> {
    /// The value.
    pub complex: Complex<P, C>,
    of: PhantomData<J>,

    /// What every turn leaves.
    ghost rest: { BetweenTurns complex } by { rest_prop complex },

    /// Acts alone led to it from what the race began with.
    ghost from: { IsFrom J.began complex } by { from_prop J.began complex },
}

impl<P: Plant + Drop, C: Steady + Drop, J: Beginning> Shared<P, C, J> {
    /// A value that is between two turns.
    pub fn new(complex: Complex<P, C>) -> Shared<P, C, J>
        requires rests { RestsAs J.began complex }
        ensures complex { result.complex ≡ complex }
    {
        Shared {
            complex,
            of: PhantomData,
        }
    }

    /// The value.
    pub fn into_complex(self) -> Complex<P, C>
        ensures { result ≡ self.complex }
    {
        let Shared { complex, .. } = self;
        complex
    }
}

impl<P: Plant + Drop, C: Steady + Drop, J: Beginning> Kept for Shared<P, C, J> {
    ghost use Rattle.gate_turns.specs.Shared.{facts_of};
    ghost use Rattle.mas_complex.specs.Parts.{shown_of};

    ghost tells = { P.tells };

    ghost facts = { λ x told. facts_of told (shown_of x.complex) };

    fn kept_count(&self) -> u64 {
        self.complex.kept_count()
    }
}
