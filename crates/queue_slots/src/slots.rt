//! Records in slots.
ghost use Rattle.std.specs.Prelude.{◌≡◌, ℕ, Bool, length, IfSome, IfNone, None, Some, if◌then◌else◌, position, is_none, find};
ghost use Rattle.mas_types.specs.Lists.{is_greatest_of};
ghost use Rattle.lay_bytes.specs.Used.{used};
ghost use Rattle.queue_slots.specs.Listed.{listed, StandsFirst};

use crate::walking::{Weigh, Weight, found_at, walk};
use lay_bytes::{JobRec, OutRec};

/// A record that is listed by ascending order.
pub trait Ordered {
    ghost order: { Self → ℕ };

    /// Its order.
    fn order(&self) -> u64
        ensures { result ≡ order self.now };
}

impl Ordered for JobRec {
    ghost order = { λ r. r.order };

    fn order(&self) -> u64 {
        self.order
    }
}

impl Ordered for OutRec {
    ghost order = { λ r. r.order };

    fn order(&self) -> u64 {
        self.order
    }
}

/// Which records are picked.
pub trait Test<T> {
    ghost picks: { Self → T → Bool };

    /// Whether the record is picked.
    fn picks(&self, item: &T) -> bool
        ensures { result ≡ picks self.now item.now };
}

/// Which of the records that are picked go first.
pub trait Rank<T>: Test<T> {
    ghost rank: { Self → T → ℕ };

    /// The record's rank, of which the greatest goes first; none where it isn't picked.
    fn rank(&self, item: &T) -> Option<u8>
        ensures { result ≡ (if Self.picks self.now item.now then Some (rank self.now item.now) else None) };
}

/// A record and its slot.
#[derive(Clone, Copy)]
pub struct Found<T> {
    /// The place of the slot, counted from 0.
    pub at: usize,
    /// What stands there.
    pub item: T,
}

/// The records that are picked, without a rank.
#[derive(Clone, Copy)]
struct Picked<'a, P> {
    test: &'a P,
}

impl<'a, T, P: Test<T>> Weigh<T> for Picked<'a, P> {
    ghost weighs = { λ s x. P.picks s.test.now x };

    ghost key = { λ s x. 0 };

    ghost rank = { λ s x. 0 };

    fn weight(&self, item: &T) -> Option<Weight> {
        if self.test.picks(item) {
            Some(Weight { key: 0, rank: 0 })
        } else {
            None
        }
    }
}

/// The records that are picked, by their rank.
#[derive(Clone, Copy)]
struct Ranked<'a, P> {
    test: &'a P,
}

impl<'a, T, P: Rank<T>> Weigh<T> for Ranked<'a, P> {
    ghost weighs = { λ s x. P.picks s.test.now x };

    ghost key = { λ s x. 0 };

    ghost rank = { λ s x. P.rank s.test.now x };

    fn weight(&self, item: &T) -> Option<Weight> {
        match self.test.rank(item) {
            Some(rank) => Some(Weight { key: 0, rank }),
            None => None,
        }
    }
}

/// The slot of the first record that the test picks in the list by ascending order; none exactly where it picks none.
pub fn first_slot<T: Ordered + Copy, P: Test<T>>(slots: &[Option<T>], test: &P) -> Option<Found<T>>
    ensures some { IfSome result (λ f. StandsFirst T.order (P.picks test.now) slots.now f.at f.item) }
    ensures none { IfNone result (find (P.picks test.now) (listed T.order slots.now) ≡ None) }
{
    let best = walk(slots, &Picked { test });
    found_at(slots, best)
}

/// The slot of the record that goes first: of those that are picked, of those of the greatest rank, the first in the
/// list by ascending order; none exactly where none is picked.
pub fn best_slot<T: Ordered + Copy, P: Rank<T>>(slots: &[Option<T>], test: &P) -> Option<Found<T>>
    ensures some { IfSome result (λ f.
        StandsFirst T.order (is_greatest_of (P.rank test.now) (P.picks test.now) (listed T.order slots.now)) slots.now
        f.at f.item) }
    ensures none { IfNone result (find (is_greatest_of (P.rank test.now) (P.picks test.now) (listed T.order slots.now))
        (listed T.order slots.now) ≡ None) }
    ensures none_picked { IfNone result (find (P.picks test.now) (listed T.order slots.now) ≡ None) }
{
    let best = walk(slots, &Ranked { test });
    found_at(slots, best)
}

/// The lowest slot in which nothing stands; none exactly where something stands in each.
pub fn free_slot<T>(slots: &[Option<T>]) -> Option<usize>
    ensures { result ≡ position is_none slots.now }
{
    slots.iter().position(|slot| slot.is_none())
}

/// In how many slots something stands.
pub fn used_count<T>(slots: &[Option<T>]) -> usize
    ensures { result ≡ length (used slots.now) }
{
    let mut count = 0;
    for slot in slots {
        if slot.is_some() {
            count += 1;
        }
    }
    count
}
