//! The lines of a text in turn.
ghost use Rattle.std.specs.Prelude.{◌≡◌};
ghost use Rattle.mas_types.specs.LineBytes.{HaveLines, lines_in};

use crate::texts::first_line;

/// The lines of a text from a place on, in turn.
#[derive(Drop)]
pub struct LinesFrom<'a> {
    // The bytes of the lines that are left.
    bytes: &'a [u8],
    // How many lines are left.
    count: usize,
    ghost have: { HaveLines count bytes.now },
}

impl<'a> LinesFrom<'a> {
    ghost use Rattle.mas_types.specs.LinesLeft.{left_in};

    // The lines of these bytes, which are so many.
    pub(crate) fn new(bytes: &'a [u8], count: usize) -> LinesFrom<'a>
        requires { HaveLines count bytes.now }
        ensures { left_in result ≡ lines_in count bytes.now }
    {
        LinesFrom { bytes, count }
    }
}

impl<'a> Iterator for LinesFrom<'a> {
    ghost use Rattle.std.specs.Iterator.{YieldsFirstRef, item_count};
    ghost use Rattle.mas_types.specs.LinesLeft.{left_in};

    type Item = &'a [u8];

    ghost next_gives = { YieldsFirstRef left_in };

    ghost remaining = { item_count left_in };

    fn next(&mut self) -> Option<&'a [u8]> {
        if self.count == 0 {
            return None;
        }
        let (line, behind) = first_line(self.bytes);
        self.bytes = behind;
        self.count -= 1;
        Some(line)
    }
}
