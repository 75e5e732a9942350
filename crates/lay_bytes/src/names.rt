//! Tests of names and classes in bytes.
ghost use Rattle.std.specs.Prelude.{◌≡◌, ◌&&◌, ◌≤◌, ◌==◌, length, take};
ghost use Rattle.std.specs.List.{list_all, list_any};
ghost use Rattle.mas_types.specs.Names.{is_name8};
ghost use Rattle.mas_types.specs.Fit.{is_class_byte};
ghost use Rattle.lay_bytes.specs.Bytes.{are_classes, are_different};

use crate::runs::is_zero;
use mas_types::is_name_byte;

/// Whether the bytes are a name and then blanks. A name is one or more of A to Z, 0 to 9, `@`,
/// `#` and `$`.
pub fn is_name(bytes: &[u8]) -> bool
    ensures { result ≡ is_name8 bytes.now }
{
    let mut i = 0;
    while i < bytes.len() && is_name_byte(bytes[i]) {
        i += 1;
    }
    i > 0 && are_blanks(&bytes[i..])
}

fn are_blanks(bytes: &[u8]) -> bool
    ensures { result ≡ list_all (λ b. b == 32) bytes.now }
{
    bytes.iter().all(|b| *b == b' ')
}

/// Whether a byte is a class, A to Z or 0 to 9.
pub fn is_class(byte: u8) -> bool
    ensures { result ≡ is_class_byte byte }
{
    byte.is_ascii_uppercase() || byte.is_ascii_digit()
}

fn all_classes(bytes: &[u8]) -> bool
    ensures { result ≡ list_all is_class_byte bytes.now }
{
    bytes.iter().all(|b| is_class(*b))
}

fn has_byte(bytes: &[u8], byte: u8) -> bool
    ensures { result ≡ list_any (λ c. c == byte) bytes.now }
{
    bytes.iter().any(|b| *b == byte)
}

/// Whether no byte is there twice.
fn differ(bytes: &[u8]) -> bool
    ensures { result ≡ are_different bytes.now }
{
    for (i, byte) in bytes.iter().enumerate() {
        if has_byte(&bytes[i + 1..], *byte) {
            return false;
        }
    }
    true
}

/// Whether the bytes are a number from 1 to 36, so many different classes, and zeros.
pub fn is_classes(bytes: &[u8]) -> bool
    requires { length bytes.now ≡ 37 }
    ensures { result ≡ are_classes bytes.now }
{
    let count = bytes[0] as usize;
    if count < 1 || count > 36 {
        return false;
    }
    let (classes, rest) = bytes[1..].split_at(count);
    all_classes(classes) && differ(classes) && is_zero(rest)
}
