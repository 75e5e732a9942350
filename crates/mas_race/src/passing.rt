//! A pass of a gate that takes turns.
ghost use Rattle.std.specs.Prelude.{◌≡◌, true, false, Some, None, is_some};
ghost use Rattle.std.specs.Borrow.{sem};
ghost use Rattle.mas_race.specs.Lent.{lends_some};
ghost use Rattle.member_gate.specs.Passes.{IsPassOf, view};

use crate::shared::{Beginning, Shared};
use gate_turns::Turns;
use mas_complex::{Complex, Steady};
use member_gate::{Gate, Pass};
use spool_plant::Plant;
use std::sync::Wait;

// Lends the value that is here.
fn lent<V>(value: &mut Option<V>) -> &mut V
    requires { is_some value.old ≡ true }
    ensures* lends { sem 𝓛 (lends_some V.row value.entry result) }
    ensures value { value.old ≡ Some result.now }
{
    match value {
        Some(value) => value,
        None => unreachable!(),
    }
}

// Puts a value where another may be, which is let go.
fn refill<V: Drop>(place: &mut Option<V>, value: V)
    ensures { place.new ≡ Some value }
{
    *place = Some(value);
}

/// A pass, and in a turn the value that it took.
#[derive(Drop)]
pub struct Turn<P: Plant + Drop, C: Steady + Drop, J: Beginning> {
    /// The pass.
    pub pass: Pass<Shared<P, C, J>>,
    value: Option<Complex<P, C>>,

    /// In a turn the value is here.
    ghost out: { (view pass).has ≡ true → is_some value ≡ true },
}

impl<P: Plant + Drop, C: Steady + Drop, J: Beginning> Turn<P, C, J> {
    /// A pass that hasn't the turn may take turns.
    pub fn new(pass: Pass<Shared<P, C, J>>) -> Turn<P, C, J>
        requires free { (view pass).has ≡ false }
        ensures pass { result.pass ≡ pass }
    {
        Turn { pass, value: None }
    }

    /// The pass.
    pub fn into_pass(self) -> Pass<Shared<P, C, J>>
        ensures { result ≡ self.pass }
    {
        let Turn { pass, .. } = self;
        pass
    }
}

/// A pass that takes turns at the gate that it is of. Its turn waits for that of every other pass, and lends the shared
/// value, which it keeps until the turn ends. It is bound to the pass's member.
#[derive(Drop)]
pub struct Passing<'a, P: Plant + Drop, C: Steady + Drop, J: Beginning, R: Wait> {
    rt: &'a R,
    gate: &'a Gate<Shared<P, C, J>>,
    turn: &'a mut Turn<P, C, J>,

    /// The pass is of the gate.
    ghost own: { IsPassOf gate.now turn.now.pass },
}

impl<'a, P: Plant + Drop, C: Steady + Drop, J: Beginning, R: Wait> Passing<'a, P, C, J, R> {
    ghost use Rattle.std.specs.Prelude.{Bool};
    ghost use Rattle.gate_turns.specs.Turning.{OfEach};
    ghost use Rattle.member_gate.specs.Views.{memory_in};
    ghost use Rattle.mas_race.specs.Passings.{at_pass, found_by};

    /// A pass of this gate that hasn't the turn takes turns with it.
    pub fn new(
        rt: &'a R,
        gate: &'a Gate<Shared<P, C, J>>,
        turn: &'a mut Turn<P, C, J>,
    ) -> Passing<'a, P, C, J, R>
        requires own { IsPassOf gate.now turn.old.pass }
        requires free { (view turn.old.pass).has ≡ false }
        ensures free { ⟦<Passing<'a, P, C, J, R> as Turns<Complex<P, C>>>⟧.held result ≡ None }
        ensures place { ⟦<Passing<'a, P, C, J, R> as Turns<Complex<P, C>>>⟧.place result
            ≡ at_pass turn.entry.ghost_name turn.old.pass }
        ensures bound { ⟦<Passing<'a, P, C, J, R> as Turns<Complex<P, C>>>⟧.bound result
            ≡ Some (view turn.old.pass).member }
        ensures finds { OfEach (⟦<Passing<'a, P, C, J, R> as Turns<Complex<P, C>>>⟧.finds result)
            (found_by J.began (view turn.old.pass)) }
        ensures memory { (told : Bool) → ⟦<Passing<'a, P, C, J, R> as Turns<Complex<P, C>>>⟧.memory result told
            ≡ memory_in (view turn.old.pass) told }
    {
        Passing { rt, gate, turn }
    }
}

impl<'a, P: Plant + Drop, C: Steady + Drop, J: Beginning, R: Wait> Turns<Complex<P, C>>
    for Passing<'a, P, C, J, R> {
    ghost use Rattle.std.specs.Prelude.{Some, refl, if◌then◌else◌};
    ghost use Rattle.member_gate.specs.Passes.{view};
    ghost use Rattle.member_gate.specs.Views.{memory_in, sight};
    ghost use Rattle.mas_race.specs.Passings.{PassPlace, RestsAs, at_pass, found_by, found_after, held_within};

    ghost Place = { PassPlace };

    ghost place = { λ t. at_pass t.turn.ghost_name t.turn.now.pass };

    ghost bound = { λ t. Some (view t.turn.now.pass).member };

    ghost held = { λ t. if (view t.turn.now.pass).has then t.turn.now.value else None };

    ghost with_held = { λ t x.
        record t { turn = record t.turn { now = record t.turn.now { value = Some x; out = λ has. refl } } } };

    ghost finds = { λ t. found_by J.began (view t.turn.now.pass) };

    ghost follows = { found_after J.began };

    ghost memory = { λ t. memory_in (view t.turn.now.pass) };

    ghost taken = { λ t told. (sight (view t.turn.now.pass) told).out };

    ghost rests = { λ x. RestsAs J.began x };

    fn turn(&mut self) {
        let turn = &mut *self.turn;
        let shared = self.gate.turn(self.rt, &mut turn.pass);
        refill(&mut turn.value, shared.into_complex());
    }

    fn value(&mut self) -> &mut Complex<P, C> {
        let turn = &mut *self.turn;
        lent(&mut turn.value)
    }

    fn back(&mut self) {
        let turn = &mut *self.turn;
        match turn.value.take() {
            Some(complex) => self.gate.end_turn(&mut turn.pass, Shared::new(complex)),
            None => unreachable!(),
        }
    }

    ghost holds = { λ t x. held_within (view t.turn.now.pass).has t.turn.now.value x };

    ghost keeps_place = { λ t x. refl };

    ghost keeps_bound = { λ t x. refl };

    ghost keeps_cares = { λ t x told. refl };

    ghost keeps_taken = { λ t x told. refl };
}
