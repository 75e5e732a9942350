//! Fields of a fixed width, one after the other.
ghost use Rattle.std.specs.Prelude.{◌≡◌, ◌+◌, ◌≤◌, ◌<◌, ◌^◌, ◌++◌, length, map, take, drop, OnOk, IfErr, Some};
ghost use Rattle.std.specs.List.{concat};
ghost use Rattle.lay_bytes.specs.Fields.{piece, width_of as width_of_lem, widths, may_stand as may_stand_lem, first_bad};

use crate::names::{is_class, is_classes, is_name};
use crate::numbers::{read_u16, read_u32, read_u64};
use crate::runs::is_zero;

/// The field at this offset, in bytes from the first, is outside its range. It is the first such
/// field.
#[derive(Clone, Copy)]
pub struct BadField(pub u16);

/// Which bytes may stand in a field. A field with two numbers holds one from the first to the
/// second.
#[derive(Clone, Copy)]
pub enum Field {
    /// A number of one byte.
    Byte(u8, u8),
    /// A number of two bytes.
    Half(u16, u16),
    /// A number of four bytes.
    Word(u32, u32),
    /// A number of eight bytes.
    Long(u64, u64),
    /// A class.
    Class,
    /// A name of eight bytes, padded with blanks.
    Name,
    /// A number from 1 to 36, so many different classes, and zeros, 37 bytes in all.
    Classes,
    /// So many zeros, which stand for nothing.
    Zeros(usize),
}

fn width_of(field: Field) -> usize
    ensures { result ≡ width_of_lem field }
{
    match field {
        Field::Byte(_, _) => 1,
        Field::Half(_, _) => 2,
        Field::Word(_, _) => 4,
        Field::Long(_, _) => 8,
        Field::Class => 1,
        Field::Name => 8,
        Field::Classes => 37,
        Field::Zeros(count) => count,
    }
}

fn may_stand(field: Field, bytes: &[u8]) -> bool
    requires { length bytes.now ≡ width_of_lem field }
    ensures { result ≡ may_stand_lem field bytes.now }
{
    match field {
        Field::Byte(least, most) => least <= bytes[0] && bytes[0] <= most,
        Field::Half(least, most) => least <= read_u16(bytes, 0) && read_u16(bytes, 0) <= most,
        Field::Word(least, most) => least <= read_u32(bytes, 0) && read_u32(bytes, 0) <= most,
        Field::Long(least, most) => least <= read_u64(bytes, 0) && read_u64(bytes, 0) <= most,
        Field::Class => is_class(bytes[0]),
        Field::Name => is_name(bytes),
        Field::Classes => is_classes(bytes),
        Field::Zeros(_) => is_zero(bytes),
    }
}

/// Tests that the bytes begin with these fields, each within its range. `BadField` comes exactly
/// where one isn't, with the offset of the first.
pub fn check_fields(fields: &[Field], bytes: &[u8]) -> Result<(), BadField>
    requires whole { widths fields.now ≤ length bytes.now }
    requires few { length bytes.now < 2 ^ 16 }
    ensures ok { OnOk result (first_bad 0 fields.now bytes.now ≡ None) }
    ensures err { IfErr result (λ bad. first_bad 0 fields.now bytes.now ≡ Some bad.0) }
{
    let mut at = 0;
    for field in fields {
        let width = width_of(*field);
        if !may_stand(*field, &bytes[at..at + width]) {
            return Err(BadField(at as u16));
        }
        at += width;
    }
    Ok(())
}

/// Writes bytes from an offset on. The others stay.
pub fn put(bytes: &[u8], at: usize, into: &mut [u8])
    requires { at + length bytes.now ≤ length into.old }
    ensures { into.new ≡ take at into.old ++ bytes.now ++ drop (at + length bytes.now) into.old }
{
    into[at..at + bytes.len()].copy_from_slice(bytes);
}

/// Writes the pieces one after the other from the first byte on. What is behind them stays.
pub fn put_fields(pieces: &[&[u8]], into: &mut [u8])
    requires { length (concat (map (λ p. p.now) pieces.now)) ≤ length into.old }
    ensures { let text = concat (map (λ p. p.now) pieces.now) in into.new ≡ text ++ drop (length text) into.old }
{
    let mut at = 0;
    for piece in pieces {
        put(piece, at, into);
        at += piece.len();
    }
}

/// Writes the pieces one after the other. Together they are as long as what they are written to.
pub fn fill_fields(pieces: &[&[u8]], into: &mut [u8])
    requires { length (concat (map (λ p. p.now) pieces.now)) ≡ length into.old }
    ensures { into.new ≡ concat (map (λ p. p.now) pieces.now) }
{
    put_fields(pieces, into);
}
