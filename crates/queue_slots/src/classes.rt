//! Selection by class.
ghost use Rattle.std.specs.Prelude.{◌≡◌, ℕ, ◌&&◌, ◌==◌, not, IfSome, IfNone, None, find, slice_index};
ghost use Rattle.mas_types.specs.Lists.{is_greatest_of, has_first_key_of};
ghost use Rattle.queue_slots.specs.Listed.{listed, StandsFirst};
ghost use Rattle.queue_slots.specs.Keys.{class_key, is_of};

use crate::slots::{Found, Ordered, Rank};
use crate::walking::{Weigh, Weight, found_at, walk};
use mas_types::{Class, List};

/// Which class a record has.
pub trait Classed<T>: Rank<T> {
    ghost use Rattle.mas_types.specs.declared.ids.Class.{Class};

    ghost class: { Self → T → Class };

    /// The record's class.
    fn class(&self, item: &T) -> Class
        ensures { result ≡ class self.now item.now };
}

/// The key of each class: that of the first in a list is how many they are, and so on down to 1; 0 of one that isn't in
/// it.
fn class_keys(classes: &[Class]) -> [usize; 256]
    ensures { (c : ℕ) → slice_index result c ≡ class_key classes.now c }
{
    let mut keys = [0usize; 256];
    let mut at = classes.len();
    while at > 0 {
        at -= 1;
        keys[classes[at].0 as usize] = classes.len() - at;
    }
    keys
}

/// The records that are picked and have one of the classes, by the key of their class and by their rank.
#[derive(Drop)]
struct ByClass<'a, P> {
    test: &'a P,
    keys: [usize; 256],
}

impl<'a, T, P: Classed<T>> Weigh<T> for ByClass<'a, P> {
    ghost weighs = { λ s x. not (slice_index s.keys (P.class s.test.now x).0 == 0) && P.picks s.test.now x };

    ghost key = { λ s x. slice_index s.keys (P.class s.test.now x).0 };

    ghost rank = { λ s x. P.rank s.test.now x };

    // The class first, since it takes the least to tell.
    fn weight(&self, item: &T) -> Option<Weight> {
        let key = self.keys[self.test.class(item).0 as usize];
        if key == 0 {
            return None;
        }
        match self.test.rank(item) {
            Some(rank) => Some(Weight { key, rank }),
            None => None,
        }
    }
}

/// The slot of the record that goes first by class: of those that are picked, of those of the first class that any of
/// them has, of those of the greatest rank, the first in the list by ascending order; none exactly where none is picked
/// that has one of the classes.
pub fn best_slot_by_class<T: Ordered + Copy, P: Classed<T>>(
    slots: &[Option<T>],
    classes: &List<Class>,
    test: &P,
) -> Option<Found<T>>
    ensures some { IfSome result (λ f.
        StandsFirst T.order (is_greatest_of (P.rank test.now)
        (has_first_key_of (is_of (P.class test.now)) classes.now (P.picks test.now) (listed T.order slots.now))
        (listed T.order slots.now)) slots.now f.at f.item) }
    ensures none { IfNone result (find
        (is_greatest_of (P.rank test.now)
        (has_first_key_of (is_of (P.class test.now)) classes.now (P.picks test.now) (listed T.order slots.now))
        (listed T.order slots.now)) (listed T.order slots.now) ≡ None) }
{
    let by_class = ByClass {
        test,
        keys: class_keys(classes.as_slice()),
    };
    let best = walk(slots, &by_class);
    found_at(slots, best)
}
