//! Bytes cut into lines and words.
ghost use Rattle.std.specs.Prelude.{◌≡◌, ℕ, ◌+◌, ◌==◌, ◌<◌, ◌≤◌, [], ◌∷◌, length, drop, IfSome, is_some, MatchOption, position, count_by};
ghost use Rattle.std.specs.List.{slice_split, list_any, position_or_len};
ghost use Rattle.std.specs.Str.Lines.{strip_carriage_return};
ghost use Rattle.mas_types.specs.Fit.{is_text_byte as is_text_byte_lem, is_text_line};
ghost use Rattle.mas_types.specs.Names.{is_blank, unpadded};
ghost use Rattle.script_lang.specs.Lines.{lines_of, is_line as is_line_lem, is_deck_end as is_deck_end_lem, words_in, word_at};

use mas_types::limits::SCRIPT_LINE_BYTES;

fn place_of(text: &[u8], at: u8) -> Option<usize>
    ensures { result ≡ position (λ b. b == at) text.now }
{
    text.iter().position(|b| *b == at)
}

/// What stands before the first such byte, and what stands behind it if there is one.
pub fn cut(text: &[u8], at: u8) -> (&[u8], Option<&[u8]>)
    ensures parts { MatchOption result.1
        (slice_split (λ b. b == at) text.now ≡ result.0.now ∷ [])
        (λ behind. slice_split (λ b. b == at) text.now ≡ result.0.now ∷ slice_split (λ b. b == at) behind.now) }
    ensures lengths { MatchOption result.1
        (result.0.now ≡ text.now)
        (λ behind. length result.0.now + length behind.now + 1 ≡ length text.now) }
{
    match place_of(text, at) {
        Some(place) => (&text[..place], Some(&text[place + 1..])),
        None => (text, None),
    }
}

fn without_return(part: &[u8]) -> &[u8]
    ensures { result.now ≡ strip_carriage_return part.now }
{
    match part {
        [front @ .., b'\r'] => front,
        _ => part,
    }
}

/// The first line of a script, and the rest of the script.
pub fn next_line(script: &[u8]) -> (&[u8], &[u8])
    requires { 0 < length script.now }
    ensures lines { lines_of script.now ≡ result.0.now ∷ lines_of result.1.now }
    ensures shorter { length result.1.now < length script.now }
{
    let (part, behind) = cut(script, b'\n');
    match behind {
        Some(rest) => (without_return(part), rest),
        None => (without_return(part), &[]),
    }
}

fn is_text_byte(byte: u8) -> bool
    ensures { result ≡ is_text_byte_lem byte }
{
    byte >= 32 && byte <= 126
}

fn is_text(line: &[u8]) -> bool
    ensures { result ≡ is_text_line line.now }
{
    line.iter().all(|b| is_text_byte(*b))
}

/// Whether a line has at most 255 bytes, all of them text bytes.
pub(crate) fn is_line(line: &[u8]) -> bool
    ensures { result ≡ is_line_lem line.now }
{
    line.len() <= SCRIPT_LINE_BYTES && is_text(line)
}

/// Whether a line ends a deck.
pub fn is_deck_end(line: &[u8]) -> bool
    ensures { result ≡ is_deck_end_lem line.now }
{
    line == b"++END".as_slice()
}

/// The number of lines before the first that ends a deck, and the script from that line on. None where no line ends a
/// deck.
pub(crate) fn deck_end(script: &[u8]) -> Option<(usize, &[u8])>
    ensures found { is_some result ≡ list_any is_deck_end_lem (lines_of script.now) }
    ensures lines { IfSome result (λ end. end.0 ≡ position_or_len is_deck_end_lem (lines_of script.now)) }
    ensures rest { IfSome result (λ end. lines_of end.1.now ≡ drop end.0 (lines_of script.now)) }
    ensures shorter { IfSome result (λ end. length end.1.now ≤ length script.now) }
{
    let mut rest = script;
    let mut lines = 0;
    while !rest.is_empty() {
        let (line, behind) = next_line(rest);
        if is_deck_end(line) {
            return Some((lines, rest));
        }
        rest = behind;
        lines += 1;
    }
    None
}

/// A line without the blanks at its end.
pub(crate) fn trimmed(line: &[u8]) -> &[u8]
    ensures { result.now ≡ unpadded line.now }
{
    let mut end = line.len();
    while end > 0 && line[end - 1] == b' ' {
        end -= 1;
    }
    &line[..end]
}

fn count_blanks(text: &[u8]) -> usize
    ensures { result ≡ count_by is_blank text.now }
{
    text.iter().filter(|b| **b == b' ').count()
}

/// The number of words of a text, which one blank separates.
pub(crate) fn count_words(text: &[u8]) -> usize
    ensures { result ≡ length (words_in text.now) }
{
    count_blanks(text) + 1
}

/// The word at a place counted from 0, empty where there is none.
pub(crate) fn word(text: &[u8], at: usize) -> &[u8]
    ensures { result.now ≡ word_at (words_in text.now) at }
{
    let mut rest = text;
    for _passed in 0..at {
        match cut(rest, b' ').1 {
            Some(behind) => rest = behind,
            None => return &[],
        }
    }
    cut(rest, b' ').0
}
