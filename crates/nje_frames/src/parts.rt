//! The parts of a frame, read one after another.
ghost use Rattle.std.specs.Prelude.{◌≡◌, ◌≤◌, ◌==◌, ◌&&◌, ◌||◌, nat_lt, if◌then◌else◌, length, take, true};
ghost use Rattle.mas_types.specs.Limits.{card_bytes, name_bytes};
ghost use Rattle.mas_types.specs.Names.{is_blank, is_name_byte as is_name_byte_lem};
ghost use Rattle.mas_types.specs.Fit.{is_text_byte as is_text_byte_lem};
ghost use Rattle.nje_frames.specs.Grammar.{etx};
ghost use Rattle.nje_frames.specs.declared.parts.Stop.TheVariants.{NoMemory as no_memory};

use crate::{ETX, LINE_FEED, NUMBER_DIGITS};
use mas_types::limits::{CARD_BYTES, NAME_BYTES, TEXT_LINES_MOST};
use mas_types::{Lines, Name8, NoMemory, is_name_byte, read_number};
use std::alloc::Global;

/// Why a part could not be read.
#[derive(Clone, Copy)]
pub enum Stop {
    /// So many bytes stand from the first on that doesn't fit; 0 where more bytes are needed.
    At(usize),
    /// Out of memory.
    NoMemory,
}

impl From<NoMemory> for Stop {
    ghost from_gives = { λ _ stop. stop ≡ no_memory };

    fn from(_error: NoMemory) -> Stop {
        Stop::NoMemory
    }
}

ghost use Rattle.nje_frames.specs.Reading.{Gives, begins_number, begins_name, number_size as number_size_lem, name_size as name_size_lem, number_at, name_at, byte_at, card_at, cards_at, text_at, begins_with, with_cards};

// Whether the last digit leaves the number 0.
fn is_zero_at_end(number: u64, at: usize) -> bool
    ensures { result ≡ ((number == 0) && (at == 9)) }
{
    number == 0 && at == 9
}

// How many bytes at the front begin a number in ten digits.
fn number_size(bytes: &[u8]) -> usize
    ensures size { result ≡ number_size_lem bytes.now }
    ensures inside { result ≤ length bytes.now }
    ensures whole { result ≡ 10 → begins_number (take 10 bytes.now) ≡ true }
{
    let mut least: u64 = 0;
    let mut unit: u64 = 10_000_000_000;
    for at in 0..NUMBER_DIGITS {
        if at >= bytes.len() {
            return at;
        }
        if !bytes[at].is_ascii_digit() {
            return at;
        }
        unit /= 10;
        let next = least + (bytes[at] - b'0') as u64 * unit;
        if next > u32::MAX as u64 {
            return at;
        }
        if is_zero_at_end(next, at) {
            return at;
        }
        least = next;
    }
    NUMBER_DIGITS
}

/// Reads a number of ten digits, from 1 to 4,294,967,295. At comes with how many bytes begin one, 0 where more are
/// needed.
pub fn number_of(bytes: &[u8]) -> Result<(u32, &[u8]), Stop>
    ensures { Gives (λ x. (x.0, x.1.now)) result (number_at bytes.now) }
{
    let size = number_size(bytes);
    if size < NUMBER_DIGITS {
        return Err(Stop::At(bytes.len() - size));
    }
    let number = read_number(&bytes[..NUMBER_DIGITS], u32::MAX).unwrap_or(0);
    Ok((number, &bytes[NUMBER_DIGITS..]))
}

// Whether a byte may follow so many bytes of a name, of which the last is padding or not.
fn may_follow(padding: bool, at: usize, byte: u8) -> bool
    ensures { result ≡ (if padding then is_blank byte
        else (is_name_byte_lem byte || (is_blank byte && nat_lt 0 at))) }
{
    if padding {
        return byte == b' ';
    }
    is_name_byte(byte) || byte == b' ' && at > 0
}

// How many bytes at the front begin a name with its padding.
fn name_size(bytes: &[u8]) -> usize
    ensures size { result ≡ name_size_lem bytes.now }
    ensures inside { result ≤ length bytes.now }
{
    let mut padding = false;
    for at in 0..NAME_BYTES {
        if at >= bytes.len() {
            return at;
        }
        if !may_follow(padding, at, bytes[at]) {
            return at;
        }
        padding = bytes[at] == b' ';
    }
    NAME_BYTES
}

/// Reads a name with its padding, eight bytes. At comes with how many bytes begin one, 0 where more are needed.
pub fn name_of(bytes: &[u8]) -> Result<(Name8, &[u8]), Stop>
    ensures { Gives (λ x. (x.0, x.1.now)) result (name_at bytes.now) }
{
    let size = name_size(bytes);
    if size < NAME_BYTES {
        return Err(Stop::At(bytes.len() - size));
    }
    let mut name = [b' '; NAME_BYTES];
    name.copy_from_slice(&bytes[..NAME_BYTES]);
    Ok((Name8(name), &bytes[NAME_BYTES..]))
}

/// Reads one byte. At comes with 0 where there is none.
pub fn byte_of(bytes: &[u8], byte: u8) -> Result<&[u8], Stop>
    ensures { Gives (λ rest. (tt, rest.now)) result (byte_at byte bytes.now) }
{
    match bytes {
        [] => Err(Stop::At(0)),
        [first, rest @ ..] if *first == byte => Ok(rest),
        [_, ..] => Err(Stop::At(bytes.len())),
    }
}

fn is_text_byte(byte: u8) -> bool
    ensures { result ≡ is_text_byte_lem byte }
{
    (0x20..=0x7E).contains(&byte)
}

// Reads a card of at most 80 bytes, and the line feed after it.
fn card_of(bytes: &[u8]) -> Result<(&[u8], &[u8]), Stop>
    ensures { Gives (λ x. (x.0.now, x.1.now)) result (card_at card_bytes bytes.now) }
{
    for (at, byte) in bytes.iter().enumerate() {
        if *byte == LINE_FEED {
            return Ok((&bytes[..at], &bytes[at + 1..]));
        }
        if at >= CARD_BYTES {
            return Err(Stop::At(bytes.len() - at));
        }
        if !is_text_byte(*byte) {
            return Err(Stop::At(bytes.len() - at));
        }
    }
    Err(Stop::At(0))
}

// Whether the frame ends here.
fn is_ended(bytes: &[u8]) -> bool
    ensures { result ≡ begins_with etx bytes.now }
{
    match bytes {
        [] => false,
        [first, ..] => *first == ETX,
    }
}

// Reads so many cards at most, and the end of the frame.
fn more_cards<'a>(text: &mut Lines, most: usize, bytes: &'a [u8]) -> Result<&'a [u8], Stop>
    ensures { Gives (λ rest. (text.new, rest.now)) result (with_cards text.old (cards_at most bytes.now)) }
{
    let mut rest = bytes;
    for _ in 0..most {
        if is_ended(rest) {
            return Ok(&rest[1..]);
        }
        let (card, after) = card_of(rest)?;
        text.push(card)?;
        rest = after;
    }
    Ok(byte_of(rest, ETX)?)
}

/// Reads 1 to 9,999 cards and the end of the frame. At comes with how many bytes begin them, 0 where more are needed;
/// NoMemory only when out of memory.
pub fn cards_of(alloc: Global, bytes: &[u8]) -> Result<(Lines, &[u8]), Stop>
    ensures { Gives (λ x. (x.0, x.1.now)) result (text_at bytes.now) }
{
    let (card, rest) = card_of(bytes)?;
    let mut text = Lines::new(alloc);
    text.push(card)?;
    let rest = more_cards(&mut text, TEXT_LINES_MOST - 1, rest)?;
    Ok((text, rest))
}
