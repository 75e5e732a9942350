//! Which of the slots in a chain goes first.
ghost use Rattle.std.specs.Prelude.{◌≡◌, ℕ, Bool, true, false, IfSome, IfNone, None, Some, find, is_some, slice_get};
ghost use Rattle.mas_types.specs.Lists.{is_greatest_of};
ghost use Rattle.queue_slots.specs.Listed.{listed, StandsFirst};
ghost use Rattle.job_select.specs.Chains.{has_slot};
ghost use Rattle.job_select.specs.Best.{is_before as is_before_lem, better as better_lem, better_slot, picks_slot, IsBestIn};

use queue_slots::{Found, Ordered};

/// Which records are picked, and which of them go first.
pub trait Choice<T> {
    ghost use Rattle.std.specs.Prelude.{Bool, ℕ};

    ghost picks: { Self → T → Bool };

    ghost rank: { Self → T → ℕ };

    /// Whether the record is picked.
    fn picks(&self, item: &T) -> bool
        ensures { result ≡ picks self.now item.now };

    /// The record's rank; the greatest goes first.
    fn rank(&self, item: &T) -> u8
        ensures { result ≡ rank self.now item.now };
}

/// The slot of the record that goes first of a chain: of those that are picked, of those of the
/// greatest rank, the first in the list by ascending order; none exactly where none is picked. All
/// that are picked stand in the chain.
pub fn best_in<T: Ordered + Copy, C: Choice<T>>(
    slots: &[Option<T>],
    chain: &[u16],
    choice: &C,
) -> Option<Found<T>>
    requires { (j : ℕ) (y : T) → slice_get slots.now j ≡ Some (Some y) → C.picks choice.now y ≡ true
        → has_slot j chain.now ≡ true }
    ensures some { IfSome result (λ f. StandsFirst T.order (is_greatest_of (C.rank choice.now)
        (C.picks choice.now) (listed T.order slots.now)) slots.now f.at f.item) }
    ensures none { IfNone result (find (is_greatest_of (C.rank choice.now) (C.picks choice.now)
        (listed T.order slots.now)) (listed T.order slots.now) ≡ None) }
    ensures none_picked { IfNone result (find (C.picks choice.now)
        (listed T.order slots.now) ≡ None) }
{
    walk(slots, chain, choice)
}

/// The slot of the first record of a chain that is picked in the list by ascending order; none
/// exactly where none is picked. All that are picked stand in the chain, and none has a rank.
pub fn first_in<T: Ordered + Copy, C: Choice<T>>(
    slots: &[Option<T>],
    chain: &[u16],
    choice: &C,
) -> Option<Found<T>>
    requires all { (j : ℕ) (y : T) → slice_get slots.now j ≡ Some (Some y)
        → C.picks choice.now y ≡ true → has_slot j chain.now ≡ true }
    requires unranked { (y : T) → C.rank choice.now y ≡ 0 }
    ensures some { IfSome result (λ f. StandsFirst T.order (C.picks choice.now)
        slots.now f.at f.item) }
    ensures none { IfNone result (find (C.picks choice.now) (listed T.order slots.now) ≡ None) }
{
    walk(slots, chain, choice)
}

/// Whether any of a chain is picked. All that are picked stand in the chain.
pub fn any_in<T: Ordered + Copy, C: Choice<T>>(
    slots: &[Option<T>],
    chain: &[u16],
    choice: &C,
) -> bool
    requires { (j : ℕ) (y : T) → slice_get slots.now j ≡ Some (Some y) → C.picks choice.now y ≡ true
        → has_slot j chain.now ≡ true }
    ensures best { result ≡ is_some (find (is_greatest_of (C.rank choice.now) (C.picks choice.now)
        (listed T.order slots.now)) (listed T.order slots.now)) }
    ensures none { result ≡ false → find (C.picks choice.now) (listed T.order slots.now) ≡ None }
{
    for at in chain {
        if picks_at(slots, choice, *at as usize) {
            return true;
        }
    }
    false
}

fn picks_at<T: Ordered + Copy, C: Choice<T>>(slots: &[Option<T>], choice: &C, at: usize) -> bool
    ensures { result ≡ picks_slot T.order (C.rank choice.now) (C.picks choice.now)
        (slice_get slots.now at) }
{
    match slots.get(at) {
        Some(Some(item)) => choice.picks(item),
        Some(None) => false,
        None => false,
    }
}

/// The best of the slots in a chain.
fn walk<T: Ordered + Copy, C: Choice<T>>(
    slots: &[Option<T>],
    chain: &[u16],
    choice: &C,
) -> Option<Found<T>>
    ensures { IsBestIn T.order (C.rank choice.now) (C.picks choice.now) slots.now chain.now result }
{
    let mut best = None;
    for at in chain {
        best = better_at(slots, choice, best, *at as usize);
    }
    best
}

fn better_at<T: Ordered + Copy, C: Choice<T>>(
    slots: &[Option<T>],
    choice: &C,
    best: Option<Found<T>>,
    at: usize,
) -> Option<Found<T>>
    ensures { result ≡ better_slot T.order (C.rank choice.now) (C.picks choice.now) best at
        (slice_get slots.now at) }
{
    match slots.get(at) {
        Some(Some(item)) => better(choice, best, Found { at, item: *item }),
        Some(None) => best,
        None => best,
    }
}

fn better<T: Ordered + Copy, C: Choice<T>>(
    choice: &C,
    best: Option<Found<T>>,
    next: Found<T>,
) -> Option<Found<T>>
    ensures { result ≡ better_lem T.order (C.rank choice.now) (C.picks choice.now) best next }
{
    if !choice.picks(&next.item) {
        return best;
    }
    match best {
        Some(other) if !is_before(choice, &next, &other) => Some(other),
        _ => Some(next),
    }
}

fn is_before<T: Ordered + Copy, C: Choice<T>>(choice: &C, one: &Found<T>, other: &Found<T>) -> bool
    ensures { result ≡ is_before_lem T.order (C.rank choice.now) one.now other.now }
{
    let ranks = (choice.rank(&one.item), choice.rank(&other.item));
    let orders = (one.item.order(), other.item.order());
    ranks.1 < ranks.0
        || (ranks.0 == ranks.1
            && (orders.0 < orders.1 || (orders.0 == orders.1 && one.at < other.at)))
}
