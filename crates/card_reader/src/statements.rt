//! Statements: their operands over all their cards, and the cards of data behind them.
ghost use Rattle.std.specs.Prelude.{◌≡◌, ◌+◌, ◌≤◌, ◌<◌, ◌^◌, ◌++◌, ◌∷◌, [], nat_eq, None, length, drop, IfOk, OnOk};

use crate::cards::{
    Operation, first_field, is_comment, is_continuation, is_continued, is_cut, is_delimiter,
    is_statement, next_field, operation_of,
};
use crate::operands::{cut_operand, first_operand, is_plain};
use mas_types::{Lines, List, NoMemory};
use std::alloc::Global;

/// The operands of a statement.
#[derive(Drop)]
pub struct Operands {
    /// The operand fields of its cards, one after another.
    pub text: List<u8>,
    /// Each string ends on its card, and no continuation is missing.
    pub whole: bool,
    /// The cards that it takes behind its first one, with the comments between them.
    pub cards: usize,
}

/// What ends the data behind a DD statement.
#[derive(Clone, Copy)]
pub enum Ending {
    /// The statement has no data.
    NoData,
    /// A card that begins with `//`, or one that begins with `/*`.
    Statement,
    /// A card that begins with `/*`.
    Delimiter,
    /// A card that begins with these two bytes.
    Marked(u8, u8),
}

/// The cards of data behind a DD statement.
#[derive(Clone, Copy)]
pub struct DataCards {
    /// The cards of data.
    pub cards: usize,
    /// The cards of data and the card that ends them, where it is read with them.
    pub taken: usize,
}

ghost use Rattle.card_reader.specs.Operands.{operands_of};
ghost use Rattle.card_reader.specs.Statements.{continued, operands_from, ending_of as ending_of_lem, marks_after, mark_of as mark_of_lem, data_behind, further_cards, ends_before as ends_before_lem, ends_at as ends_at_lem};
ghost use Rattle.std.specs.List.{starts_with};

fn append(text: &mut List<u8>, field: &[u8]) -> Result<(), NoMemory>
    ensures { OnOk result (text.new ≡ text.old ++ field.now) }
{
    text.push_all(field)
}

// Adds the fields that continue a statement from a card on: whether they are whole, and how many
// cards they take.
fn append_continued(
    text: &mut List<u8>,
    cards: &Lines,
    from: usize,
) -> Result<(bool, usize), NoMemory>
    requires { from ≤ length cards.now }
    ensures text { OnOk result (text.new ≡ text.old ++ (continued (drop from cards.now)).text) }
    ensures whole { IfOk result (λ found. found.0 ≡ (continued (drop from cards.now)).whole) }
    ensures cards { IfOk result (λ found. found.1 ≡ (continued (drop from cards.now)).cards) }
    ensures within { IfOk result (λ found. from + found.1 ≤ length cards.now) }
    ensures fits { IfOk result (λ found. from + found.1 < 2 ^ 64) }
{
    let mut at = from;
    while at < cards.len() {
        let card = cards.line(at);
        at += 1;
        if is_comment(card) {
            continue;
        }
        if !is_continuation(card) {
            return Ok((false, at - 1 - from));
        }
        let field = next_field(card);
        append(text, field)?;
        if !is_continued(field) {
            return Ok((!is_cut(field), at - from));
        }
    }
    Ok((false, at - from))
}

// The place behind a card.
fn behind(cards: &Lines, at: usize) -> usize
    requires { at < length cards.now }
    ensures { result ≡ at + 1 }
{
    let count = cards.len();
    if at < count { at + 1 } else { count }
}

/// The operands of the statement that begins at a card, counted from 0. NoMemory comes only when out of memory.
pub fn operands_at(alloc: Global, cards: &Lines, at: usize) -> Result<Operands, NoMemory>
    requires { at < length cards.now }
    ensures value { IfOk result (λ found. found ≡ operands_from (drop at cards.now)) }
    ensures within { IfOk result (λ found. at + 1 + found.cards ≤ length cards.now) }
    ensures fits { IfOk result (λ found. at + 1 + found.cards < 2 ^ 64) }
{
    let from = behind(cards, at);
    let field = first_field(cards.line(at));
    let mut text = List::new(alloc);
    append(&mut text, field)?;
    if !is_continued(field) {
        return Ok(Operands {
            text,
            whole: !is_cut(field),
            cards: 0,
        });
    }
    let (whole, taken) = append_continued(&mut text, cards, from)?;
    Ok(Operands {
        text,
        whole,
        cards: taken,
    })
}

/// The two bytes of `DLM=xx`, neither an apostrophe nor a parenthesis.
pub fn mark_of(operand: &[u8]) -> Option<(u8, u8)>
    ensures { result ≡ mark_of_lem operand.now }
{
    match operand {
        [b'D', b'L', b'M', b'=', first, second] if is_plain(*first) && is_plain(*second) => {
            Some((*first, *second))
        }
        _ => None,
    }
}

// The last mark that operands give.
fn last_mark(operands: &[u8]) -> Option<(u8, u8)>
    ensures { result ≡ marks_after None (operands_of operands.now) }
{
    if operands.is_empty() {
        return None;
    }
    let mut rest = Some(operands);
    let mut mark = None;
    while let Some(text) = rest {
        let (operand, behind) = cut_operand(text);
        mark = mark_of(operand).or(mark);
        rest = behind;
    }
    mark
}

/// What ends the data behind a statement with this operation and these operands.
pub fn ending_of(operation: Operation, operands: &[u8]) -> Ending
    ensures { result ≡ ending_of_lem operation operands.now }
{
    let first = first_operand(operands);
    let is_star = first == b"*".as_slice();
    if operation != Operation::Dd || !(is_star || first == b"DATA".as_slice()) {
        return Ending::NoData;
    }
    match last_mark(operands) {
        Some((first, second)) => Ending::Marked(first, second),
        None if is_star => Ending::Statement,
        None => Ending::Delimiter,
    }
}

fn is_marked(card: &[u8], first: u8, second: u8) -> bool
    ensures { result ≡ starts_with nat_eq card.now (first ∷ second ∷ []) }
{
    card.len() >= 2 && card[0] == first && card[1] == second
}

// Whether data ends before a card.
fn ends_before(ending: Ending, card: &[u8]) -> bool
    ensures { result ≡ ends_before_lem ending card.now }
{
    match ending {
        Ending::NoData => true,
        Ending::Statement => {
            card.starts_with(b"//") || card.starts_with(b"/*") && !is_delimiter(card)
        }
        Ending::Delimiter => card.starts_with(b"/*") && !is_delimiter(card),
        Ending::Marked(_, _) => false,
    }
}

// Whether a card ends data, and is read with it.
fn ends_at(ending: Ending, card: &[u8]) -> bool
    ensures { result ≡ ends_at_lem ending card.now }
{
    match ending {
        Ending::NoData => false,
        Ending::Statement | Ending::Delimiter => is_delimiter(card),
        Ending::Marked(first, second) => is_marked(card, first, second),
    }
}

/// The cards of data from a card on, counted from 0.
pub fn data_from(cards: &Lines, from: usize, ending: Ending) -> DataCards
    requires { from ≤ length cards.now }
    ensures value { result ≡ data_behind ending (drop from cards.now) }
    ensures within { from + result.taken ≤ length cards.now }
    ensures fits { from + result.taken < 2 ^ 64 }
{
    let mut rest = cards.lines_from(from);
    let mut at = from;
    while at < cards.len() {
        let Some(card) = rest.next() else {
            break;
        };
        if ends_before(ending, card) {
            break;
        }
        if ends_at(ending, card) {
            return DataCards {
                cards: at - from,
                taken: at + 1 - from,
            };
        }
        at += 1;
    }
    DataCards {
        cards: at - from,
        taken: at - from,
    }
}

/// How many cards are read with a card that stands outside data: those that continue a statement, and its data.
/// NoMemory comes only when out of memory.
pub fn further_at(alloc: Global, cards: &Lines, at: usize) -> Result<usize, NoMemory>
    requires { at < length cards.now }
    ensures value { IfOk result (λ taken. taken ≡ further_cards (drop at cards.now)) }
    ensures within { IfOk result (λ taken. at + 1 + taken ≤ length cards.now) }
    ensures fits { IfOk result (λ taken. at + 1 + taken < 2 ^ 64) }
{
    let from = behind(cards, at);
    let card = cards.line(at);
    if !is_statement(card) {
        return Ok(0);
    }
    let operands = operands_at(alloc, cards, at)?;
    let ending = ending_of(operation_of(card), operands.text.as_slice());
    let data = data_from(cards, from + operands.cards, ending);
    Ok(operands.cards + data.taken)
}
