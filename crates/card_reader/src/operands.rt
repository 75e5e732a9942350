//! The operands of a statement: separated by commas outside parentheses and apostrophes.
ghost use Rattle.std.specs.Prelude.{◌≡◌, ◌+◌, ◌∷◌, [], false, length, MatchOption};
ghost use Rattle.card_reader.specs.Operands.{operand_in, parts_in, is_plain as is_plain_lem, is_balanced as is_balanced_lem, is_keyword as is_keyword_lem, first_operand as first_operand_lem};

// The length of the first operand.
fn operand_length(text: &[u8]) -> usize
    ensures { result ≡ length (operand_in false 0 text.now) }
{
    let mut quoted = false;
    let mut depth = 0usize;
    let mut n = 0;
    while n < text.len() && (quoted || depth != 0 || text[n] != b',') {
        match text[n] {
            b'\'' => quoted = !quoted,
            b'(' if !quoted => depth += 1,
            b')' if !quoted && depth > 0 => depth -= 1,
            _ => {}
        }
        n += 1;
    }
    n
}

/// The first operand of a field.
#[tactic(auto, using(crate::proofs::Parts::take_operand, crate::proofs::Parts::length_operand))]
pub fn first_operand(field: &[u8]) -> &[u8]
    ensures { result.now ≡ first_operand_lem field.now }
{
    &field[..operand_length(field)]
}

/// What stands before the first comma outside parentheses and apostrophes, and what stands behind it
/// if there is one.
#[tactic(auto, using(crate::proofs::Parts::parts_cut, crate::proofs::Parts::parts_whole))]
pub fn cut_operand(text: &[u8]) -> (&[u8], Option<&[u8]>)
    ensures parts { MatchOption result.1
        (parts_in false 0 text.now ≡ result.0.now ∷ [])
        (λ behind. parts_in false 0 text.now ≡ result.0.now ∷ parts_in false 0 behind.now) }
    ensures lengths { MatchOption result.1
        (result.0.now ≡ text.now)
        (λ behind. length result.0.now + length behind.now + 1 ≡ length text.now) }
{
    let n = operand_length(text);
    if n < text.len() {
        (&text[..n], Some(&text[n + 1..]))
    } else {
        (text, None)
    }
}

/// Whether each parenthesis outside apostrophes is closed, none is closed that is not open, and each
/// string ends.
pub fn is_balanced(field: &[u8]) -> bool
    ensures { result ≡ is_balanced_lem field.now }
{
    let mut quoted = false;
    let mut depth = 0usize;
    for b in field {
        match *b {
            b'\'' => quoted = !quoted,
            b'(' if !quoted => depth += 1,
            b')' if !quoted => {
                if depth == 0 {
                    return false;
                }
                depth -= 1;
            }
            _ => {}
        }
    }
    !quoted && depth == 0
}

// The byte is neither an apostrophe nor a parenthesis.
pub(crate) fn is_plain(byte: u8) -> bool
    ensures { result ≡ is_plain_lem byte }
{
    byte != b'\'' && byte != b'(' && byte != b')'
}

/// Whether an operand is KEY=value: its key has neither apostrophes nor parentheses. Any other operand
/// is positional.
pub fn is_keyword(operand: &[u8]) -> bool
    ensures { result ≡ is_keyword_lem operand.now }
{
    for b in operand {
        match *b {
            b'=' => return true,
            b'\'' | b'(' | b')' => return false,
            _ => {}
        }
    }
    false
}
