//! Where the pages of a copy stand, in blocks.
ghost use Rattle.std.specs.Prelude.{◌≡◌, ◌+◌, ◌*◌, ◌≤◌, ◌<◌, ℕ, length, slice_index, All};
ghost use Rattle.mas_types.specs.Limits.{pages_most};
ghost use Rattle.change_log.specs.Logs.{home_block, AreLaid};

use mas_types::limits::PAGES_MOST;

/// The places of a table, one for each page that a copy can have.
pub const PLACES: usize = PAGES_MOST as usize;

/// Each page in its home block.
pub fn home_places() -> [u16; PLACES]
    ensures { (p : ℕ) → p < pages_most → slice_index result p ≡ home_block p }
{
    let mut places = [0; PLACES];
    for page in 0..PAGES_MOST {
        places[page as usize] = 1 + page;
    }
    places
}

/// Lays images, which stand in the blocks from `first` on and are of these pages, over what stood there: each page that
/// is listed stands in its image from now on, every other stays where it is.
pub fn lay_images(places: &mut [u16; PLACES], first: u16, numbers: &[u16])
    requires inside { All (λ p. p < pages_most) numbers.now }
    requires few { first + length numbers.now < 65536 }
    ensures { AreLaid first numbers.now places.old places.new }
{
    for (i, number) in numbers.iter().enumerate() {
        places[*number as usize] = first + i as u16;
    }
}
