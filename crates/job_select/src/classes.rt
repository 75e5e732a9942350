//! Selection by class.
ghost use Rattle.std.specs.Prelude.{◌≡◌, ℕ, true, ◌&&◌, IfSome, IfNone, None, Some, find, is_some, slice_get};
ghost use Rattle.mas_types.specs.declared.ids.Class.{Class as AnyClass};
ghost use Rattle.mas_types.specs.Lists.{is_greatest_of, has_first_key_of};
ghost use Rattle.queue_slots.specs.Listed.{listed, StandsFirst};
ghost use Rattle.job_select.specs.Chains.{slots_of, has_slot};

use crate::chains::{Chains, slots_in};
use crate::choices::{Choice, any_in, best_in};
use mas_types::{Class, List};
use queue_slots::{Found, Ordered};

/// Which class a record has.
pub trait Classed<T>: Choice<T> {
    ghost use Rattle.std.specs.Prelude.{Bool};
    ghost use Rattle.mas_types.specs.declared.ids.Class.{Class};

    ghost has_class: { Self → Class → T → Bool };

    /// Whether the record has the class.
    fn has_class(&self, class: Class, item: &T) -> bool
        ensures { result ≡ has_class self.now class item.now };
}

/// The records that are picked and have one class.
#[derive(Clone, Copy)]
struct OfClass<'a, C> {
    choice: &'a C,
    class: Class,
}

impl<'a, T, C: Classed<T>> Choice<T> for OfClass<'a, C> {
    ghost picks = { λ s x. C.picks s.choice.now x && C.has_class s.choice.now s.class x };

    ghost rank = { λ s x. C.rank s.choice.now x };

    fn picks(&self, item: &T) -> bool {
        self.choice.picks(item) && self.choice.has_class(self.class, item)
    }

    fn rank(&self, item: &T) -> u8 {
        self.choice.rank(item)
    }
}

/// The slot of the record that goes first by class: of those that are picked, of those of the first
/// class that any of them has, of those of the greatest rank, the first in the list by ascending
/// order; none exactly where none is picked that has one of the classes. All that are picked stand
/// in the chains of their classes.
pub fn best_by_class<T: Ordered + Copy, C: Classed<T>>(
    slots: &[Option<T>],
    chains: &Chains,
    classes: &List<Class>,
    choice: &C,
) -> Option<Found<T>>
    requires { (k : AnyClass) (j : ℕ) (y : T) → slice_get slots.now j ≡ Some (Some y)
        → (C.picks choice.now y && C.has_class choice.now k y) ≡ true
        → has_slot j (slots_of chains.now k.0) ≡ true }
    ensures some { IfSome result (λ f. StandsFirst T.order (is_greatest_of (C.rank choice.now)
        (has_first_key_of (C.has_class choice.now) classes.now (C.picks choice.now)
        (listed T.order slots.now)) (listed T.order slots.now)) slots.now f.at f.item) }
    ensures none { IfNone result (find (is_greatest_of (C.rank choice.now)
        (has_first_key_of (C.has_class choice.now) classes.now (C.picks choice.now)
        (listed T.order slots.now)) (listed T.order slots.now)) (listed T.order slots.now) ≡ None) }
{
    for class in classes.as_slice() {
        let best = best_in(
            slots,
            slots_in(chains, class.0 as u32),
            &OfClass {
                choice,
                class: *class,
            },
        );
        if best.is_some() {
            return best;
        }
    }
    None
}

/// Whether any goes first by class: whether any is picked that has one of the classes. All that are
/// picked stand in the chains of their classes.
pub fn any_by_class<T: Ordered + Copy, C: Classed<T>>(
    slots: &[Option<T>],
    chains: &Chains,
    classes: &List<Class>,
    choice: &C,
) -> bool
    requires { (k : AnyClass) (j : ℕ) (y : T) → slice_get slots.now j ≡ Some (Some y)
        → (C.picks choice.now y && C.has_class choice.now k y) ≡ true
        → has_slot j (slots_of chains.now k.0) ≡ true }
    ensures { result ≡ is_some (find (is_greatest_of (C.rank choice.now)
        (has_first_key_of (C.has_class choice.now) classes.now (C.picks choice.now)
        (listed T.order slots.now)) (listed T.order slots.now)) (listed T.order slots.now)) }
{
    for class in classes.as_slice() {
        let any = any_in(
            slots,
            slots_in(chains, class.0 as u32),
            &OfClass {
                choice,
                class: *class,
            },
        );
        if any {
            return true;
        }
    }
    false
}
