//! One hand has the value, and waits for nobody.
ghost use Rattle.std.specs.Prelude.{◌≡◌, None};

use crate::telling::Telling;
use crate::turns::Turns;

/// The only one at a shared value, which it borrows: each turn has the value that was handed back last.
#[derive(Drop)]
pub struct OneHand<'a, V> {
    value: &'a mut V,
    /// A turn has begun and hasn't ended.
    out: bool,
}

impl<V: Telling> OneHand<'_, V> {
    /// A hand that has this value.
    pub fn new<'a>(value: &'a mut V) -> OneHand<'a, V>
        ensures place { ⟦<OneHand<'a, V> as Turns<V>>⟧.place result ≡ value.entry.ghost_name }
        ensures finds { (x : V) → ⟦<OneHand<'a, V> as Turns<V>>⟧.finds result x → x ≡ value.old }
        ensures free { ⟦<OneHand<'a, V> as Turns<V>>⟧.held result ≡ None }
    {
        OneHand { value, out: false }
    }
}

impl<'a, V: Telling> Turns<V> for OneHand<'a, V> {
    ghost use Rattle.std.specs.Prelude.{◌≡◌, Some, None, refl, if◌then◌else◌};
    ghost use Rattle.std.specs.Borrow.{GName};
    ghost use Rattle.gate_facts.specs.Memory.{memory_of};
    ghost use Rattle.gate_turns.specs.Shared.{facts_of};
    ghost use Rattle.gate_turns.specs.Turning.{held_then};

    ghost Place = { GName };

    ghost place = { λ t. t.value.ghost_name };

    ghost bound = { λ t. None };

    ghost held = { λ t. if t.out then Some t.value.now else None };

    ghost rests = { λ x. Unit {0} };

    ghost with_held = { λ t x. record t { value = record t.value { now = x } } };

    ghost finds = { λ t x. x ≡ t.value.now };

    ghost follows = { λ p x y. y ≡ x };

    ghost memory = { λ t told. memory_of (facts_of told (V.shown t.value.now)) };

    ghost taken = { λ t told. facts_of told (V.shown t.value.now) };

    fn turn(&mut self) {
        self.out = true;
    }

    fn value(&mut self) -> &mut V {
        &mut *self.value
    }

    fn back(&mut self) {
        self.out = false;
    }

    ghost holds = { λ t x. held_then t.out t.value.now x };

    ghost keeps_place = { λ t x. refl };

    ghost keeps_bound = { λ t x. refl };

    ghost keeps_cares = { λ t x told. refl };

    ghost keeps_taken = { λ t x told. tt };
}
