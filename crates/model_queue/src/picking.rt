//! Items of lists that tests pick: the first of them, the one of the greatest rank, and their changes.
ghost use Rattle.std.specs.Prelude.{◌≡◌, ℕ, Bool, ◌&&◌, ◌==◌, max, IfSome, IfNone, None, Some, if◌then◌else◌, find, filter, position, count_by, option_copied};
ghost use Rattle.std.specs.List.{list_any};
ghost use Rattle.mas_types.specs.Lists.{change as change_lem, change_first as change_first_lem, without_first, without, greatest as greatest_lem, is_greatest_of, has_first_key_of};
ghost use Rattle.model_queue.specs.Places.{StandsAt};

use mas_types::{Class, List};

/// Which items are picked.
pub trait Picks<T> {
    ghost picks: { Self → T → Bool };

    /// Whether the item is picked.
    fn picks(&self, item: &T) -> bool
        ensures { result ≡ picks self.now item.now };
}

/// Which of the items that are picked go first.
pub trait Ranks<T>: Picks<T> {
    ghost rank: { Self → T → ℕ };

    /// The item's rank; the greatest goes first.
    fn rank(&self, item: &T) -> u8
        ensures { result ≡ rank self.now item.now };
}

/// Which class an item has.
pub trait Classed<T>: Ranks<T> {
    ghost use Rattle.mas_types.specs.declared.ids.Class.{Class};

    ghost has_class: { Self → Class → T → Bool };

    /// Whether the item has the class.
    fn has_class(&self, class: Class, item: &T) -> bool
        ensures { result ≡ has_class self.now class item.now };
}

/// What becomes of an item.
pub trait Changes<T> {
    ghost changed: { Self → T → T };

    /// Changes the item.
    fn change(&self, item: &mut T)
        ensures { item.new ≡ changed self.now item.old };
}

/// The first item that is picked.
pub fn first<'a, T, P: Picks<T>>(items: &'a List<T>, test: &P) -> Option<&'a T>
    ensures { option_copied result ≡ find (P.picks test.now) items.now }
{
    items.as_slice().iter().find(|item| test.picks(item))
}

/// Whether an item is picked.
pub fn is_any<T, P: Picks<T>>(items: &List<T>, test: &P) -> bool
    ensures { result ≡ list_any (P.picks test.now) items.now }
{
    items.as_slice().iter().any(|item| test.picks(item))
}

/// How many items are picked.
pub fn count<T, P: Picks<T>>(items: &List<T>, test: &P) -> usize
    ensures { result ≡ count_by (P.picks test.now) items.now }
{
    items
        .as_slice()
        .iter()
        .filter(|item| test.picks(item))
        .count()
}

fn position_of<T, P: Picks<T>>(items: &List<T>, test: &P) -> Option<usize>
    ensures { result ≡ position (P.picks test.now) items.now }
{
    items.as_slice().iter().position(|item| test.picks(item))
}

/// The place of the first item that is picked; none exactly where none is.
pub fn first_place<T, P: Picks<T>>(items: &List<T>, test: &P) -> Option<usize>
    ensures some { IfSome result (λ at. StandsAt (P.picks test.now) items.now at) }
    ensures none { IfNone result (find (P.picks test.now) items.now ≡ None) }
{
    position_of(items, test)
}

/// The items that are picked and have one rank.
#[derive(Clone, Copy)]
struct OfRank<'a, P> {
    test: &'a P,
    rank: u8,
}

impl<'a, T, P: Ranks<T>> Picks<T> for OfRank<'a, P> {
    ghost picks = { λ s x. P.picks s.test.now x && (P.rank s.test.now x == s.rank) };

    fn picks(&self, item: &T) -> bool {
        self.test.picks(item) && self.test.rank(item) == self.rank
    }
}

fn greater<T, P: Ranks<T>>(test: &P, most: u8, item: &T) -> u8
    ensures { result ≡ (if P.picks test.now item.now then max most (P.rank test.now item.now) else most) }
{
    if test.picks(item) {
        most.max(test.rank(item))
    } else {
        most
    }
}

fn greatest<T, P: Ranks<T>>(items: &List<T>, test: &P) -> u8
    ensures { result ≡ greatest_lem (P.rank test.now) (filter (P.picks test.now) items.now) }
{
    let mut most = 0;
    for item in items.as_slice() {
        most = greater(test, most, item);
    }
    most
}

/// The place of the item that goes first: of those that are picked, of those of the greatest rank, the first; none
/// exactly where none is picked.
pub fn best_place<T, P: Ranks<T>>(items: &List<T>, test: &P) -> Option<usize>
    ensures some { IfSome result (λ at.
        StandsAt (is_greatest_of (P.rank test.now) (P.picks test.now) items.now) items.now at) }
    ensures none { IfNone result (find (is_greatest_of (P.rank test.now) (P.picks test.now) items.now) items.now
        ≡ None) }
{
    let rank = greatest(items, test);
    first_place(items, &OfRank { test, rank })
}

/// The items that are picked and have one class.
#[derive(Clone, Copy)]
struct OfClass<'a, P> {
    test: &'a P,
    class: Class,
}

impl<'a, T, P: Classed<T>> Picks<T> for OfClass<'a, P> {
    ghost picks = { λ s x. P.picks s.test.now x && P.has_class s.test.now s.class x };

    fn picks(&self, item: &T) -> bool {
        self.test.picks(item) && self.test.has_class(self.class, item)
    }
}

impl<'a, T, P: Classed<T>> Ranks<T> for OfClass<'a, P> {
    ghost rank = { λ s x. P.rank s.test.now x };

    fn rank(&self, item: &T) -> u8 {
        self.test.rank(item)
    }
}

/// The place of the item that goes first by class: of those that are picked, of those of the first class that any of
/// them has, of those of the greatest rank, the first; none exactly where none is picked that has one of the classes.
pub fn best_place_by_class<T, P: Classed<T>>(
    items: &List<T>,
    classes: &List<Class>,
    test: &P,
) -> Option<usize>
    ensures some { IfSome result (λ at.
        StandsAt (is_greatest_of (P.rank test.now)
        (has_first_key_of (P.has_class test.now) classes.now (P.picks test.now) items.now) items.now) items.now at) }
    ensures none { IfNone result (find
        (is_greatest_of (P.rank test.now)
        (has_first_key_of (P.has_class test.now) classes.now (P.picks test.now) items.now) items.now) items.now
        ≡ None) }
{
    for class in classes.as_slice() {
        let test = OfClass {
            test,
            class: *class,
        };
        if is_any(items, &test) {
            return best_place(items, &test);
        }
    }
    None
}

/// The first item that is picked is changed.
pub fn change_first<T, P: Picks<T>, F: Changes<T>>(items: &mut List<T>, test: &P, change: &F)
    ensures { items.new ≡ change_first_lem (P.picks test.now) (F.changed change.now) items.old }
{
    let Some(at) = first_place(items, test) else {
        return;
    };
    change.change(items.item_mut(at));
}

/// The first item that is picked goes.
pub fn remove_first<T: Drop, P: Picks<T>>(items: &mut List<T>, test: &P)
    ensures { items.new ≡ without_first (P.picks test.now) items.old }
{
    let Some(at) = first_place(items, test) else {
        return;
    };
    drop(items.remove(at));
}

fn change_if<T, P: Picks<T>, F: Changes<T>>(item: &mut T, test: &P, change: &F)
    ensures { item.new ≡ (if P.picks test.now item.old then F.changed change.now item.old else item.old) }
{
    if test.picks(item) {
        change.change(item);
    }
}

/// Each item that is picked is changed.
pub fn change_each<T, P: Picks<T>, F: Changes<T>>(items: &mut [T], test: &P, change: &F)
    ensures { items.new ≡ change_lem (P.picks test.now) (F.changed change.now) items.old }
{
    for item in items.iter_mut() {
        change_if(item, test, change);
    }
}

/// Each item that is picked goes.
pub fn remove_each<T: Drop, P: Picks<T>>(items: &mut List<T>, test: &P)
    ensures { items.new ≡ without (P.picks test.now) items.old }
{
    while let Some(at) = first_place(items, test) {
        drop(items.remove(at));
    }
}
