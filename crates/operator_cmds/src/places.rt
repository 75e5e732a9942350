//! What may stand in the places of a form.
ghost use Rattle.std.specs.Prelude.{◌≡◌, ◌==◌};
ghost use Rattle.std.specs.List.{list_all, list_any};
ghost use Rattle.mas_types.specs.Fit.{is_class_byte};
ghost use Rattle.mas_types.specs.Names.{is_name_byte as is_name_byte_lem};

use mas_types::limits::{
    CLASSES_MOST, INDEX_MOST, MEMBERS_MOST, NAME_BYTES, NUMBER_MOST, PRINTER_LINES_MOST, PRIO_MOST,
};
use mas_types::{is_name_byte, read_number};

/// Numbers of at most so many digits, from the least to the greatest. Leading zeros are accepted.
#[derive(Clone, Copy)]
pub struct Numbers {
    /// The most digits that stand there.
    pub width: usize,
    /// The least number.
    pub least: u32,
    /// The greatest number.
    pub most: u32,
}

/// What may stand in a place of a form.
#[derive(Clone, Copy)]
pub enum Place {
    /// The place takes this byte.
    Byte(u8),
    /// One of these numbers.
    Number(Numbers),
    /// A class.
    Class,
    /// 1 to 36 different classes.
    Classes,
    /// A name.
    Name,
    /// The last letter of a member's name.
    Member,
}

ghost use Rattle.operator_cmds.specs.Places.{is_number as is_number_lem, is_member_letter as is_member_letter_lem, are_different as are_different_lem, place_of as place_of_lem, stands_in as stands_in_lem};
ghost use Rattle.operator_cmds.specs.Walks.{may_begin as may_begin_lem, may_begin_number};

/// A job's number: 1 to 5 digits, from 1 on.
pub const JOB_NUMBERS: Numbers = Numbers {
    width: 5,
    least: 1,
    most: NUMBER_MOST,
};

/// An output's index: 1 or 2 digits, from 1 on.
pub const INDEX_NUMBERS: Numbers = Numbers {
    width: 2,
    least: 1,
    most: INDEX_MOST as u32,
};

/// A priority, from 0 on.
pub const PRIO_NUMBERS: Numbers = Numbers {
    width: 10,
    least: 0,
    most: PRIO_MOST as u32,
};

/// How many lines a printer prints at a time, from 1 on.
pub const LINE_NUMBERS: Numbers = Numbers {
    width: 10,
    least: 1,
    most: PRINTER_LINES_MOST as u32,
};

/// The lines by which a mark falls or rises.
pub const MARK_NUMBERS: Numbers = Numbers {
    width: 10,
    least: 1,
    most: 9_999_999,
};

/// What may stand in the place that a letter of a form marks.
pub(crate) fn place_of(letter: u8) -> Place
    ensures { result ≡ place_of_lem letter }
{
    match letter {
        b'n' => Place::Number(JOB_NUMBERS),
        b'k' => Place::Number(INDEX_NUMBERS),
        b'p' => Place::Number(PRIO_NUMBERS),
        b'l' => Place::Number(LINE_NUMBERS),
        b'b' => Place::Number(MARK_NUMBERS),
        b'c' => Place::Class,
        b's' => Place::Classes,
        b'f' => Place::Name,
        b'm' => Place::Member,
        byte => Place::Byte(byte),
    }
}

/// Whether the text may stand in the place.
pub(crate) fn stands_in(place: Place, text: &[u8]) -> bool
    ensures { result ≡ stands_in_lem place text.now }
{
    match place {
        Place::Byte(byte) => text == [byte].as_slice(),
        Place::Number(numbers) => is_number(numbers, text),
        Place::Class => text.len() == 1 && are_class_bytes(text),
        Place::Classes => {
            !text.is_empty()
                && text.len() <= CLASSES_MOST
                && are_class_bytes(text)
                && are_different(text)
        }
        Place::Name => !text.is_empty() && text.len() <= NAME_BYTES && are_name_bytes(text),
        Place::Member => text.len() == 1 && are_member_letters(text),
    }
}

/// Whether a text of at least one byte begins one that may stand in the place.
pub(crate) fn may_begin(place: Place, text: &[u8]) -> bool
    ensures { result ≡ may_begin_lem place text.now }
{
    match place {
        Place::Byte(byte) => text == [byte].as_slice(),
        Place::Number(numbers) => begins_number(numbers, text),
        Place::Class => text.len() == 1 && are_class_bytes(text),
        Place::Classes => {
            text.len() <= CLASSES_MOST && are_class_bytes(text) && are_different(text)
        }
        Place::Name => text.len() <= NAME_BYTES && are_name_bytes(text),
        Place::Member => text.len() == 1 && are_member_letters(text),
    }
}

/// Whether the text is one of the numbers.
pub(crate) fn is_number(numbers: Numbers, text: &[u8]) -> bool
    ensures { result ≡ is_number_lem numbers text.now }
{
    match read_number(text, numbers.most) {
        Ok(value) => text.len() <= numbers.width && value >= numbers.least,
        Err(_) => false,
    }
}

fn begins_number(numbers: Numbers, text: &[u8]) -> bool
    ensures { result ≡ may_begin_number numbers text.now }
{
    match read_number(text, numbers.most) {
        Ok(value) => {
            text.len() < numbers.width || (text.len() == numbers.width && value >= numbers.least)
        }
        Err(_) => false,
    }
}

fn are_class_bytes(text: &[u8]) -> bool
    ensures { result ≡ list_all is_class_byte text.now }
{
    text.iter()
        .all(|b| b.is_ascii_uppercase() || b.is_ascii_digit())
}

fn are_name_bytes(text: &[u8]) -> bool
    ensures { result ≡ list_all is_name_byte_lem text.now }
{
    text.iter().all(|b| is_name_byte(*b))
}

fn are_member_letters(text: &[u8]) -> bool
    ensures { result ≡ list_all is_member_letter_lem text.now }
{
    text.iter().all(|b| *b > 64 && *b <= 64 + MEMBERS_MOST)
}

fn contains(text: &[u8], byte: u8) -> bool
    ensures { result ≡ list_any (λ c. c == byte) text.now }
{
    text.iter().any(|b| *b == byte)
}

fn are_different(text: &[u8]) -> bool
    ensures { result ≡ are_different_lem text.now }
{
    match text {
        [] => true,
        [first, rest @ ..] => !contains(rest, *first) && are_different(rest),
    }
}
