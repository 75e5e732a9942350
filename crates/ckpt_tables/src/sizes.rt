//! The size of a page.
ghost use Rattle.std.specs.Prelude.{◌≡◌, All, length};
ghost use Rattle.mas_types.specs.Limits.{page_bytes};

use mas_types::Page;

/// The bytes of a page.
pub fn bytes_in(page: &Page) -> &[u8]
    ensures bytes { result.now ≡ page.now.0 }
    ensures size { length result.now ≡ page_bytes }
{
    &page.0
}

/// Pages have the size of a page each.
pub fn law_of_page_sizes(pages: &[Page])
    ensures { All (λ page. length page.0 ≡ page_bytes) pages.now }
{
    for page in pages {
        let _bytes = bytes_in(page);
    }
}
