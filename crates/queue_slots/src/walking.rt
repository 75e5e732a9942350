//! One walk over slots, which keeps the best so far.
ghost use Rattle.std.specs.Prelude.{◌≡◌, ℕ, Bool, length};
ghost use Rattle.queue_slots.specs.Best.{IsWalked, weight_of, goes_before as goes_before_lem, better as better_lem, better_slot as better_slot_lem, found_of};

use crate::slots::{Found, Ordered};

/// What a record goes by: the greatest key goes first, and of those of one key the greatest rank.
#[derive(Clone, Copy)]
pub struct Weight {
    /// What counts first.
    pub key: usize,
    /// What counts among those of one key, as a priority.
    pub rank: u8,
}

/// What records go by.
pub trait Weigh<T> {
    ghost weighs: { Self → T → Bool };

    ghost key: { Self → T → ℕ };

    ghost rank: { Self → T → ℕ };

    /// The record's weight; none where it isn't one to go first.
    fn weight(&self, item: &T) -> Option<Weight>
        ensures { result ≡ weight_of (weighs self.now) (key self.now) (rank self.now) item.now };
}

/// The best so far: its slot, counted from 0, and what it goes by.
#[derive(Clone, Copy)]
pub struct Best {
    /// The slot.
    pub at: usize,
    /// Its key.
    pub key: usize,
    /// Its rank.
    pub rank: u8,
    /// Its order: of those of one key and rank the least goes first.
    pub order: u64,
}

/// The best of the slots: of the greatest key, of these of the greatest rank, and of these of the least order.
pub fn walk<T: Ordered, P: Weigh<T>>(slots: &[Option<T>], test: &P) -> Option<Best>
    ensures { IsWalked T.order (P.key test.now) (P.rank test.now) (P.weighs test.now) slots.now (length slots.now)
        result }
{
    let mut best = None;
    for (at, slot) in slots.iter().enumerate() {
        note_slot(test, &mut best, at, slot);
    }
    best
}

// Most slots aren't picked: nothing is moved for these.
fn note_slot<T: Ordered, P: Weigh<T>>(
    test: &P,
    best: &mut Option<Best>,
    at: usize,
    slot: &Option<T>,
)
    ensures { best.new ≡ better_slot_lem T.order (P.key test.now) (P.rank test.now) (P.weighs test.now) best.old at
        slot.now }
{
    if let Some(item) = slot
        && let Some(weight) = test.weight(item)
    {
        note(best, at, weight, item.order());
    }
}

fn note(best: &mut Option<Best>, at: usize, weight: Weight, order: u64)
    ensures { best.new ≡ better_lem best.old (record { at = at; key = weight.key; rank = weight.rank; order = order }) }
{
    let next = Best {
        at,
        key: weight.key,
        rank: weight.rank,
        order,
    };
    let goes_first = match *best {
        None => true,
        Some(so_far) => goes_before(&next, &so_far),
    };
    if goes_first {
        *best = Some(next);
    }
}

fn goes_before(next: &Best, best: &Best) -> bool
    ensures { result ≡ goes_before_lem next.now best.now }
{
    best.key < next.key
        || (next.key == best.key
            && (best.rank < next.rank || (next.rank == best.rank && next.order < best.order)))
}

/// The best and what stands in its slot.
pub fn found_at<T: Copy>(slots: &[Option<T>], best: Option<Best>) -> Option<Found<T>>
    ensures { result ≡ found_of slots.now best }
{
    match best {
        None => None,
        Some(best) => match slots.get(best.at) {
            Some(Some(item)) => Some(Found {
                at: best.at,
                item: *item,
            }),
            _ => None,
        },
    }
}
