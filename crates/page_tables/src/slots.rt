//! Slots of one width, one after another.
ghost use Rattle.std.specs.Prelude.{◌≡◌, ℕ, ◌*◌, ◌+◌, ◌≤◌, List, length, Some, true, false, IfSome};
ghost use Rattle.ckpt_pages.specs.Reading.{AreEntries, AreNoEntries};
ghost use Rattle.ckpt_pages.specs.Testing.{SomeEntries, SpellsOne};
ghost use Rattle.page_tables.specs.Bringing.{IsPutAt};

use lay_bytes::is_zero;
use mas_types::List;

/// A value whose slots all have one width.
pub(crate) trait Slot: Drop + Sized {
    ghost WIDTH: { ℕ };

    /// The bytes of a value's slot.
    ghost spelling: { Self → List ℕ };

    /// That a value has a slot, and that its order, where it has one, is below this one.
    ghost fits: { ℕ → Self → Type 0 };

    /// The bytes of a slot.
    const WIDTH: usize;

    /// Reads a slot: nothing where it is no spelling, or of something whose order isn't below this one.
    fn read(bytes: &[u8], order: u64) -> Option<Self>
        requires { length bytes.now ≡ WIDTH }
        ensures found { IfSome result (λ x. fits order x × (bytes.now ≡ spelling x)) }
        ensures only { (x : Self) → fits order x → bytes.now ≡ spelling x → result ≡ Some x };

    ghost size: { (order : ℕ) (x : Self) → fits order x → length (spelling x) ≡ WIDTH };
}

// Whether so many slots stand from the first byte on, and zeros after them.
pub(crate) fn are_slots<S: Slot>(bytes: &[u8], order: u64, count: usize) -> bool
    requires { S.WIDTH * count ≤ length bytes.now }
    ensures good { result ≡ true → SomeEntries S.spelling (S.fits order) count bytes.now }
    ensures bad { result ≡ false → AreNoEntries S.spelling (S.fits order) count bytes.now }
{
    let mut at = 0;
    for _slot in 0..count {
        if S::read(&bytes[at..at + S::WIDTH], order).is_none() {
            return false;
        }
        at += S::WIDTH;
    }
    is_zero(&bytes[at..])
}

// Writes what a slot says.
fn take_slot<S: Slot>(bytes: &[u8], order: u64, item: &mut S)
    requires size { length bytes.now ≡ S.WIDTH }
    requires some { SpellsOne (S.fits order) S.spelling bytes.now }
    ensures { S.fits order item.new × (bytes.now ≡ S.spelling item.new) }
{
    if let Some(read) = S::read(bytes, order) {
        *item = read;
    }
}

// Writes what the slots say, one after another.
fn take_slots<S: Slot>(bytes: &[u8], order: u64, items: &mut [S])
    requires room { S.WIDTH * length items.old ≤ length bytes.now }
    requires some { SomeEntries S.spelling (S.fits order) (length items.old) bytes.now }
    ensures { AreEntries S.spelling (S.fits order) (length items.old) bytes.now items.new }
{
    let mut at = 0;
    for place in 0..items.len() {
        take_slot(&bytes[at..at + S::WIDTH], order, &mut items[place]);
        at += S::WIDTH;
    }
}

// Writes what so many slots say over the items from a place on.
pub(crate) fn take_part<S: Slot>(
    bytes: &[u8],
    order: u64,
    items: &mut List<S>,
    first: usize,
    count: usize,
)
    requires inside { first + count ≤ length items.old }
    requires room { S.WIDTH * count ≤ length bytes.now }
    requires some { SomeEntries S.spelling (S.fits order) count bytes.now }
    ensures { IsPutAt S.spelling (S.fits order) first count bytes.now items.old items.new }
{
    take_slots(
        bytes,
        order,
        &mut items.as_mut_slice()[first..first + count],
    );
}
