//! JES2 cards: `/*PRIORITY`, `/*JOBPARM RESTART=`, `/*ROUTE PRINT`, `/*ROUTE XEQ` (z/OS MVS JCL Reference,
//! "JES2 control statements").
ghost use Rattle.std.specs.Prelude.{◌≡◌};

use crate::cards::{behind_word, without_blanks, word};
use mas_types::limits::PRIO_MOST;
use mas_types::{Name8, Prio, read_name, read_number};

/// What a JES2 card says.
#[derive(Clone, Copy)]
pub enum JesCard {
    /// `/*PRIORITY p`.
    Priority(Prio),
    /// `/*JOBPARM RESTART=Y` or `N`.
    Restart(bool),
    /// `/*ROUTE PRINT name`.
    Print(Name8),
    /// `/*ROUTE XEQ name`.
    Xeq(Name8),
}

ghost use Rattle.card_reader.specs.Jes.{prio_of, name8_of, words_at as words_at_lem, is_priority as is_priority_lem, restart_card, card_of_two, route_card, jes_of};

pub(crate) fn read_prio(text: &[u8]) -> Option<Prio>
    ensures { result ≡ prio_of text.now }
{
    match read_number(text, PRIO_MOST as u32) {
        Ok(prio) => Some(Prio(prio as u8)),
        Err(_) => None,
    }
}

/// Reads a name as a value: 1 to 8 bytes of A to Z, 0 to 9, `@`, `#` and `$`.
pub fn read_name8(text: &[u8]) -> Option<Name8>
    ensures { result ≡ name8_of text.now }
{
    read_name(text).ok()
}

// What stands behind the first two bytes and the blanks after them.
fn words_at(card: &[u8]) -> &[u8]
    ensures { result.now ≡ words_at_lem card.now }
{
    if card.len() < 2 {
        return &[];
    }
    without_blanks(&card[2..])
}

// `/*PRIORITY`, with whatever behind it.
pub(crate) fn is_priority(card: &[u8]) -> bool
    ensures { result ≡ is_priority_lem card.now }
{
    word(words_at(card)) == b"PRIORITY".as_slice()
}

fn read_restart(value: &[u8]) -> Option<JesCard>
    ensures { result ≡ restart_card value.now }
{
    if value == b"RESTART=Y".as_slice() {
        Some(JesCard::Restart(true))
    } else if value == b"RESTART=N".as_slice() {
        Some(JesCard::Restart(false))
    } else {
        None
    }
}

// The card of a word and its one operand.
fn read_two_words(first: &[u8], second: &[u8]) -> Option<JesCard>
    ensures { result ≡ card_of_two first.now second.now }
{
    if first == b"PRIORITY".as_slice() {
        Some(JesCard::Priority(read_prio(second)?))
    } else if first == b"JOBPARM".as_slice() {
        read_restart(second)
    } else {
        None
    }
}

fn read_route(second: &[u8], third: &[u8]) -> Option<JesCard>
    ensures { result ≡ route_card second.now third.now }
{
    if second == b"PRINT".as_slice() {
        Some(JesCard::Print(read_name8(third)?))
    } else if second == b"XEQ".as_slice() {
        Some(JesCard::Xeq(read_name8(third)?))
    } else {
        None
    }
}

/// Reads a JES2 card, whose words stand behind its first two bytes in all 80 columns. None where it has
/// none of the four forms.
pub(crate) fn read_jes(card: &[u8]) -> Option<JesCard>
    ensures { result ≡ jes_of card.now }
{
    let text = words_at(card);
    let first = word(text);
    let text = behind_word(text);
    let second = word(text);
    let text = behind_word(text);
    if text.is_empty() {
        return read_two_words(first, second);
    }
    if !behind_word(text).is_empty() || first != b"ROUTE".as_slice() {
        return None;
    }
    read_route(second, word(text))
}
