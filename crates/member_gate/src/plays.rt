//! What each step of the table tells.
ghost use Rattle.std.specs.Prelude.{ℕ};
ghost use Rattle.member_gate.specs.Rules.{Ruled, tried, counted, ended, began};
ghost use Rattle.member_gate.specs.Views.{opener, giving, given_to, joined, spent};

use crate::kept::Kept;
use crate::view::View;
use atomic_table::{Join, Play, Split, TableRule};
use std::marker::{Brand, PhantomData};

/// The rule of the gate's table.
pub struct Lock;

impl<V: Kept> TableRule<Option<V>, View, V> for Lock {
    ghost holds = { λ _. Ruled V.tells V.facts };

    ghost first = { λ x. opener (V.facts x) };
}

pub(crate) struct Tries;

impl<V: Kept> Play<Option<V>, View> for Tries {
    ghost then = { tried V.tells V.facts };
}

/// The value that is counted. Each call picks it.
pub(crate) trait Whose {
    ghost use Rattle.std.specs.Prelude.{Bool};
    ghost use Rattle.gate_facts.specs.declared.facts.Facts.{Facts};

    ghost whose: { Bool → Facts };
}

impl Whose for Brand {
    ghost use Rattle.member_gate.specs.Views.{nothing};

    ghost whose = { λ told. nothing };
}

pub(crate) struct Counts<J> {
    marker: PhantomData<J>,
}

impl<V: Kept, J: Whose> Play<Option<V>, View> for Counts<J> {
    ghost then = { counted V.tells V.facts J.whose };
}

pub(crate) struct Ends;

impl<V: Kept> Play<Option<V>, View> for Ends {
    ghost then = { ended V.tells V.facts };
}

pub(crate) struct Begins;

impl<V: Kept> Play<Option<V>, View> for Begins {
    ghost then = { began V.tells V.facts };
}

/// The member for which a pass is split. Each call picks it.
pub(crate) trait Whom {
    ghost whom: { ℕ };
}

impl Whom for Brand {
    ghost whom = { 0 };
}

pub(crate) struct Gives<J> {
    marker: PhantomData<J>,
}

impl<J: Whom> Split<View> for Gives<J> {
    ghost left = { giving J.whom };

    ghost right = { given_to J.whom };
}

pub(crate) struct Brings;

impl Join<View> for Brings {
    ghost both = { joined };

    ghost spent = { spent };
}
