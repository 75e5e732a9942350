//! Names, classes, numbers and job identifiers as texts.
ghost use Rattle.std.specs.Prelude.{◌≡◌, ◌≢◌, ℕ, ◌+◌, ◌%◌, ◌<◌, ◌≤◌, ◌↔◌, ◌&&◌, length, IsTrue, IsOk, IsErr, IfOk, OnErr, nat_le};
ghost use Rattle.mas_types.specs.Names.{member_name as name_of_member, member_text, is_name_byte as is_name_byte_lem, is_name_text, padded};
ghost use Rattle.mas_types.specs.Fit.{is_class_byte};
ghost use Rattle.mas_types.specs.Limits.{members_most};
ghost use Rattle.mas_types.specs.Numerals.{is_numeral, value_of, key_of};

use crate::ids::{Class, JobNo, MemberId, Name8};
use crate::limits::{MEMBERS_MOST, NAME_BYTES, NUMBER_MOST};

/// The text is no name.
#[derive(Clone, Copy)]
pub struct BadName;

/// The byte is no class.
#[derive(Clone, Copy)]
pub struct BadClass;

/// The text is no number, or the number is too great.
#[derive(Clone, Copy)]
pub struct BadNumber;

/// Whether a byte may stand in a name: A to Z, 0 to 9, `@`, `#` and `$`.
pub fn is_name_byte(byte: u8) -> bool
    ensures { result ≡ is_name_byte_lem byte }
{
    byte.is_ascii_uppercase()
        || byte.is_ascii_digit()
        || byte == b'@'
        || byte == b'#'
        || byte == b'$'
}

/// Reads a name: 1 to 8 bytes of A to Z, 0 to 9, `@`, `#` and `$`. `BadName` exactly where the text is no such name.
pub fn read_name(text: &[u8]) -> Result<Name8, BadName>
    ensures ok { IsOk result ↔ IsTrue (is_name_text text.now) }
    ensures value { IfOk result (λ name. name.0 ≡ padded text.now) }
{
    if text.is_empty() || text.len() > NAME_BYTES {
        return Err(BadName);
    }
    let mut bytes = [b' '; NAME_BYTES];
    for (i, b) in text.iter().enumerate() {
        if !is_name_byte(*b) {
            return Err(BadName);
        }
        bytes[i] = *b;
    }
    Ok(Name8(bytes))
}

/// Reads a class: A to Z or 0 to 9. `BadClass` exactly where the byte is none.
pub fn read_class(byte: u8) -> Result<Class, BadClass>
    ensures ok { IsOk result ↔ IsTrue (is_class_byte byte) }
    ensures value { IfOk result (λ class. class.0 ≡ byte) }
{
    if byte.is_ascii_uppercase() || byte.is_ascii_digit() {
        Ok(Class(byte))
    } else {
        Err(BadClass)
    }
}

/// Reads a number of 1 to 10 decimal digits that is at most `max`; leading zeros are accepted. `BadNumber` exactly
/// where the text is no such number.
pub fn read_number(text: &[u8], max: u32) -> Result<u32, BadNumber>
    ensures ok { IsOk result ↔ IsTrue (is_numeral text.now && nat_le (value_of text.now) max) }
    ensures value { IfOk result (λ number. number ≡ value_of text.now) }
{
    if text.is_empty() || text.len() > 10 {
        return Err(BadNumber);
    }
    let mut value: u64 = 0;
    for b in text {
        if !b.is_ascii_digit() {
            return Err(BadNumber);
        }
        value = value * 10 + (*b - b'0') as u64;
        if value > max as u64 {
            return Err(BadNumber);
        }
    }
    Ok(value as u32)
}

/// Writes the job identifier: `JOB` and five digits, for a number above 99,999 `J0` and six digits. The number has at
/// most six digits.
pub fn write_key(number: JobNo, into: &mut [u8; 8])
    requires { number.0 < 1000000 }
    ensures { into.new ≡ key_of number.0 }
{
    let ones = number.0;
    let tens = ones / 10;
    let hundreds = tens / 10;
    let thousands = hundreds / 10;
    let five = thousands / 10;
    let last = [
        digit(five),
        digit(thousands),
        digit(hundreds),
        digit(tens),
        digit(ones),
    ];
    if ones <= NUMBER_MOST {
        *into = [
            b'J', b'O', b'B', last[0], last[1], last[2], last[3], last[4],
        ];
    } else {
        *into = [
            b'J',
            b'0',
            digit(five / 10),
            last[0],
            last[1],
            last[2],
            last[3],
            last[4],
        ];
    }
}

fn digit(n: u32) -> u8
    ensures { result ≡ 48 + n % 10 }
{
    b'0' + (n % 10) as u8
}

/// The name of a member, SYSA for 1 to SYSH for 8, and OPER for the operator.
pub fn member_name(by: MemberId) -> Name8
    requires { by.0 ≤ members_most }
    ensures { result ≡ name_of_member by }
{
    if by.0 == 0 {
        Name8(*b"OPER    ")
    } else {
        Name8([b'S', b'Y', b'S', by.0 + 64, b' ', b' ', b' ', b' '])
    }
}

/// Reads the name of a member from 1 on, SYSA to SYSH. `BadName` exactly where the text is none of them.
pub fn read_member(text: &[u8]) -> Result<MemberId, BadName>
    ensures ok { IfOk result (λ m. (1 ≤ m.0) × (m.0 ≤ members_most) × (text.now ≡ member_text m.0)) }
    ensures err { OnErr result ((m : ℕ) → 1 ≤ m → m ≤ members_most → text.now ≢ member_text m) }
{
    match text {
        [b'S', b'Y', b'S', letter] if *letter > 64 && *letter <= 64 + MEMBERS_MOST => {
            Ok(MemberId(*letter - 64))
        }
        _ => Err(BadName),
    }
}
