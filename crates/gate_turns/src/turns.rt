//! Taking turns, alone or with others.
use crate::telling::Telling;

/// One who takes turns at a shared value. In a turn it has the value, and between two turns it remembers what it saw
/// and what it left.
///
/// What is said of facts is said of those without the plant's content, and of those with it where the plant tells it.
pub trait Turns<V: Telling> {
    ghost use Rattle.std.specs.Prelude.{◌≡◌, ℕ, Bool, true, Option, Some, None, IfSome, is_some};
    ghost use Rattle.std.specs.Borrow.{sem, Lends};
    ghost use Rattle.gate_facts.specs.declared.facts.Facts.{Facts};
    ghost use Rattle.gate_facts.specs.Memory.{Memory, Knows, IsLeft};
    ghost use Rattle.gate_turns.specs.Shared.{facts_of};
    ghost use Rattle.gate_turns.specs.Turning.{EachWay, Serves, MayHandBack};

    /// What names the value, or the gate, at which turns are taken.
    ghost Place: { Type 0 };

    /// The place at which it takes turns.
    ghost place: { Self → Place };

    /// The member to whom it is bound. One that is bound to none serves each member.
    ghost bound: { Self → Option ℕ };

    /// The value, in a turn, and none between two.
    ghost held: { Self → Option V };

    /// What holds of the value between two turns, where this one is bound.
    ghost rests: { V → Type 0 };

    /// One that has another value, and is else as this one.
    ghost with_held: { Self → V → Self };

    /// Which value its next turn may find.
    ghost finds: { Self → V → Type 0 };

    /// Which value the next turn may find where the turn before left a value: the same one, where nobody else takes
    /// turns.
    ghost follows: { Place → V → V → Type 0 };

    /// What it remembers, without the content and with it.
    ghost memory: { Self → Bool → Memory };

    /// What the value told as the turn began, for one that is bound.
    ghost taken: { Self → Bool → Facts };

    /// Begins a turn. One that is bound finds that of the value which holds between two turns.
    fn turn(&mut self)
        requires { held self.old ≡ None }
        ensures held { is_some (held self.new) ≡ true }
        ensures found { IfSome (held self.new) (finds self.old) }
        ensures known { IfSome (held self.new) (λ x. EachWay V.tells
            (λ told. (m : ℕ) → Serves (bound self.old) m → Knows m (memory self.old told) (facts_of told (V.shown x)))) }
        ensures rest { IfSome (bound self.old) (λ m. IfSome (held self.new) rests) }
        ensures taken { IfSome (bound self.old) (λ m. IfSome (held self.new) (λ x. EachWay V.tells
            (λ told. taken self.new told ≡ facts_of told (V.shown x)))) }
        ensures memory { (told : Bool) → memory self.new told ≡ memory self.old told }
        ensures bound { bound self.new ≡ bound self.old }
        ensures place { place self.new ≡ place self.old };

    /// Lends the value in a turn.
    fn value(&mut self) -> &mut V
        requires { is_some (held self.old) ≡ true }
        ensures* lends { sem 𝓛 (Lends Self.row V.row self.entry result (with_held self.old)) }
        ensures value { held self.old ≡ Some result.now };

    /// Ends the turn, and hands the value back. Of the others it has what it had when the turn began, where this one is
    /// bound to a member.
    fn back(&mut self)
        requires held { is_some (held self.old) ≡ true }
        requires may { IfSome (bound self.old) (λ m. IfSome (held self.old) (λ x.
            MayHandBack V.tells (rests x) m (λ told. (memory self.old told).cares) (taken self.old) (V.shown x))) }
        ensures held { held self.new ≡ None }
        ensures next { IfSome (held self.old) (λ x. (y : V) → finds self.new y → follows (place self.old) x y) }
        ensures left { IfSome (held self.old) (λ x. EachWay V.tells
            (λ told. (m : ℕ) → Serves (bound self.old) m → IsLeft m (memory self.new told) (facts_of told (V.shown x)))) }
        ensures cares { (told : Bool) → (memory self.new told).cares ≡ (memory self.old told).cares }
        ensures bound { bound self.new ≡ bound self.old }
        ensures place { place self.new ≡ place self.old };

    /// With another value it has that, and all else is as it was.
    ghost holds: { (t : Self) → (x : V) → is_some (held t) ≡ true → held (with_held t x) ≡ Some x };

    ghost keeps_place: { (t : Self) → (x : V) → place (with_held t x) ≡ place t };

    ghost keeps_bound: { (t : Self) → (x : V) → bound (with_held t x) ≡ bound t };

    ghost keeps_cares: { (t : Self) → (x : V) → (told : Bool)
        → (memory (with_held t x) told).cares ≡ (memory t told).cares };

    ghost keeps_taken: { (t : Self) → (x : V) → (told : Bool)
        → IfSome (bound t) (λ m. taken (with_held t x) told ≡ taken t told) };
}
