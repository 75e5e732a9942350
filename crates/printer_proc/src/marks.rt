//! Marks.
ghost use Rattle.std.specs.Prelude.{◌≡◌, ◌+◌, ◌-◌, ◌<◌, ◌≤◌, min};

/// The first and the last line that are printed next, counted from 1: from the one after the mark on, as many as the
/// printer's limit, but none above the total.
pub fn next_chunk(mark: u32, total: u32, limit: u16) -> (u32, u32)
    requires below { mark < total }
    requires some { 1 ≤ limit }
    ensures first { result.0 ≡ mark + 1 }
    ensures last { result.1 ≡ min (mark + limit) total }
{
    (mark + 1, forward(mark, limit as u32, total))
}

/// The mark that is so many lines back, but no less than 0.
pub fn backspace(mark: u32, lines: u32) -> u32
    ensures { result ≡ mark - lines }
{
    mark.saturating_sub(lines)
}

/// The mark that is so many lines on, but no more than the total.
pub fn forward(mark: u32, lines: u32, total: u32) -> u32
    ensures { result ≡ min (mark + lines) total }
{
    mark.saturating_add(lines).min(total)
}
