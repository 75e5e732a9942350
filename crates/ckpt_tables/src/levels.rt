//! The level of a page.
ghost use Rattle.std.specs.Prelude.{◌≡◌, ◌<◌};
ghost use Rattle.ckpt_tables.specs.Shape.{level_in};

use lay_bytes::read_u64;
use mas_types::{Level, Page};

/// The level of a page, as page 0 gives it. That of page 0 is the level of the checkpoint.
pub fn level_of(page0: &Page, page: u16) -> Level
    requires { page < 384 }
    ensures { result ≡ level_in page0.now.0 page }
{
    if page == 0 {
        read_u64(&page0.0, 8)
    } else {
        read_u64(&page0.0, 1024 + 8 * page as usize)
    }
}
