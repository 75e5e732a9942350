//! Reading a deck.
ghost use Rattle.std.specs.Prelude.{◌≡◌, ◌∷◌, ◌+◌, ◌<◌, ◌≤◌, ◌^◌, length, take, drop, slice_get, IfOk, IfErr, IfSome, IfNone, Ok, Err, Some};
ghost use Rattle.card_reader.specs.declared.decks.DeckNo.TheVariants.{NoMemory as no_memory};

use crate::cards::{Kind, Operation, ends_job, is_statement_name, kind_of, name_of, operation_of};
use crate::jes::{JesCard, is_priority, read_jes, read_name8};
use crate::jobs::{JobOperands, read_job_operands};
use crate::statements::{further_at, operands_at};
use mas_types::limits::{CARD_BYTES, TEXT_LINES_MOST};
use mas_types::{CardCause, JobFields, Lines, Name8, NoMemory, Prio};
use std::alloc::Global;

/// A job's deck: what it says of the job, and the text that is stored.
#[derive(Drop)]
pub struct Deck {
    /// What its JOB statement and JES2 cards say.
    pub fields: JobFields,
    /// All cards before the one that ends the job.
    pub text: Lines,
}

/// A card that is refused, counted from 1, and why.
#[derive(Clone, Copy)]
pub struct Refused {
    /// Its number, from 1.
    pub card: usize,
    /// The first cause that applies to it.
    pub cause: CardCause,
}

/// Why a deck gave no job.
#[derive(Clone, Copy, Debug)]
pub enum DeckNo {
    /// The least card that is refused, counted from 1, and the first cause that applies to it.
    BadCard { card: u32, cause: CardCause },
    /// Out of memory.
    NoMemory,
}

impl From<NoMemory> for DeckNo {
    ghost from_gives = { λ _ no. no ≡ no_memory };

    fn from(_error: NoMemory) -> DeckNo {
        DeckNo::NoMemory
    }
}

/// What was seen of a deck up to one of its cards.
#[derive(Clone, Copy)]
pub struct Seen {
    /// The priority of a `/*PRIORITY` card.
    pub priority: Option<Prio>,
    /// The job, once its JOB statement was seen.
    pub job: Option<JobFields>,
    /// An EXEC statement was seen.
    pub has_steps: bool,
}

ghost use Rattle.mas_types.specs.Fit.{IsJobFields, IsName, AreLines, is_text_line, is_text_byte as is_text_byte_lem};
ghost use Rattle.card_reader.specs.Jobs.{job_operands_of};
ghost use Rattle.card_reader.specs.Statements.{operands_from, items_of, cards_to_end as cards_to_end_lem};
ghost use Rattle.card_reader.specs.Decks.{is_card as is_card_lem, refused_card as refused_card_lem, job_of as job_of_lem, priority_seen, jes_seen, job_statement_seen, seen_before_job, seen_in_job, seen_at, seen_after, nothing_seen, job_seen_in as job_seen_in_lem, least as least_lem, bad, read_as, text_of, item_of, IfBadCard};
ghost use Rattle.card_reader.specs.Cards.{kind_of as kind_of_lem};
ghost use Rattle.mas_types.specs.Limits.{text_lines_most};

fn is_text_byte(byte: u8) -> bool
    ensures { result ≡ is_text_byte_lem byte }
{
    byte >= 32 && byte <= 126
}

fn is_text(card: &[u8]) -> bool
    ensures { result ≡ is_text_line card.now }
{
    card.iter().all(|b| is_text_byte(*b))
}

// A card has at most 80 text bytes.
fn is_card(card: &[u8]) -> bool
    ensures { result ≡ is_card_lem card.now }
{
    card.len() <= CARD_BYTES && is_text(card)
}

// The least card that is refused as such, where the job ends before the card at `end`.
fn refused_card(cards: &Lines, end: usize) -> Option<Refused>
    requires { end < 2 ^ 64 }
    ensures value { result ≡ refused_card_lem 1 (end + 1) cards.now }
    ensures card { IfSome result (λ refused. refused.card ≤ text_lines_most + 1) }
    ensures few { IfNone result (length cards.now ≤ text_lines_most) }
{
    let mut rest = cards.lines_from(0);
    let mut at = 0;
    while at < cards.len() {
        let Some(line) = rest.next() else {
            break;
        };
        let card = at + 1;
        let cause = if !is_card(line) {
            CardCause::Text
        } else if card > TEXT_LINES_MOST {
            CardCause::Many
        } else if at > end {
            CardCause::After
        } else {
            at += 1;
            continue;
        };
        return Some(Refused { card, cause });
    }
    None
}

fn refuse(card: usize, cause: CardCause) -> Result<Seen, Refused>
    ensures { result ≡ Err (bad card cause) }
{
    Err(Refused { card, cause })
}

// A job as its JOB statement says it, at its own node, with the default of all that JES2 cards say.
fn job_of(own: Name8, name: Name8, priority: Option<Prio>, operands: JobOperands) -> JobFields
    ensures { result ≡ job_of_lem own name priority operands }
{
    JobFields {
        name,
        class: operands.class,
        msgclass: operands.msgclass,
        prio: match priority {
            Some(prio) => prio,
            None => operands.prio,
        },
        held: operands.held,
        scan: operands.scan,
        restart: true,
        dest: Name8(*b"LOCAL   "),
        node: own,
        origin: own,
    }
}

// A `/*PRIORITY` card before the JOB statement.
fn see_priority(seen: Seen, card: usize, read: Option<JesCard>) -> Result<Seen, Refused>
    ensures { result ≡ priority_seen seen card read }
{
    let Some(JesCard::Priority(prio)) = read else {
        return refuse(card, CardCause::Jes);
    };
    if seen.priority.is_some() {
        return refuse(card, CardCause::Place);
    }
    Ok(Seen {
        priority: Some(prio),
        ..seen
    })
}

// A JES2 card behind the JOB statement.
fn see_jes(seen: Seen, job: JobFields, card: usize, read: Option<JesCard>) -> Result<Seen, Refused>
    ensures { result ≡ jes_seen seen job card read }
{
    let mut job = job;
    match read {
        None => return refuse(card, CardCause::Jes),
        Some(JesCard::Priority(_)) => return refuse(card, CardCause::Place),
        Some(JesCard::Restart(restart)) => job.restart = restart,
        Some(JesCard::Print(dest)) => job.dest = dest,
        Some(JesCard::Xeq(node)) => job.node = node,
    }
    if seen.has_steps {
        return refuse(card, CardCause::Place);
    }
    Ok(Seen {
        job: Some(job),
        ..seen
    })
}

// The operands of the JOB statement at a place.
fn job_operands_at(
    alloc: Global,
    card: &[u8],
    cards: &Lines,
    at: usize,
) -> Result<Option<JobOperands>, NoMemory>
    requires { slice_get cards.now at ≡ Some card.now }
    ensures { IfOk result (λ operands. operands
        ≡ job_operands_of (operands_from (card.now ∷ drop (at + 1) cards.now))) }
{
    let operands = operands_at(alloc, cards, at)?;
    Ok(read_job_operands(&operands))
}

// The JOB statement at a place.
fn see_job(
    alloc: Global,
    own: Name8,
    seen: Seen,
    card: &[u8],
    cards: &Lines,
    at: usize,
) -> Result<Result<Seen, Refused>, NoMemory>
    requires within { at + 1 < 2 ^ 64 }
    requires here { slice_get cards.now at ≡ Some card.now }
    ensures { IfOk result (λ sees. sees
        ≡ job_statement_seen own seen (item_of (at + 1) card.now (drop (at + 1) cards.now))) }
{
    let name = name_of(card);
    if !is_statement_name(name) {
        return Ok(refuse(at + 1, CardCause::Name));
    }
    let Some(name) = read_name8(name) else {
        return Ok(refuse(at + 1, CardCause::Name));
    };
    let Some(operands) = job_operands_at(alloc, card, cards, at)? else {
        return Ok(refuse(at + 1, CardCause::Operand));
    };
    let job = Some(job_of(own, name, seen.priority, operands));
    Ok(Ok(Seen { job, ..seen }))
}

// A card before the JOB statement, or this statement itself.
fn see_before_job(
    alloc: Global,
    own: Name8,
    seen: Seen,
    card: &[u8],
    cards: &Lines,
    at: usize,
) -> Result<Result<Seen, Refused>, NoMemory>
    requires within { at + 1 < 2 ^ 64 }
    requires here { slice_get cards.now at ≡ Some card.now }
    ensures { IfOk result (λ sees. sees
        ≡ seen_before_job own seen (item_of (at + 1) card.now (drop (at + 1) cards.now)) (kind_of_lem card.now)) }
{
    match kind_of(card) {
        Kind::Comment => Ok(Ok(seen)),
        Kind::Statement if operation_of(card) == Operation::Job => {
            see_job(alloc, own, seen, card, cards, at)
        }
        Kind::Jes if is_priority(card) => Ok(see_priority(seen, at + 1, read_jes(card))),
        _ => Ok(refuse(at + 1, CardCause::First)),
    }
}

// A card behind the JOB statement.
fn see_in_job(seen: Seen, job: JobFields, card: &[u8], number: usize) -> Result<Seen, Refused>
    ensures { result ≡ seen_in_job seen job number card.now (kind_of_lem card.now) }
{
    match kind_of(card) {
        Kind::Statement => match operation_of(card) {
            Operation::Job => refuse(number, CardCause::Place),
            Operation::Exec => Ok(Seen {
                has_steps: true,
                ..seen
            }),
            _ => Ok(seen),
        },
        Kind::Jes => see_jes(seen, job, number, read_jes(card)),
        _ => Ok(seen),
    }
}

// The card at a place, which is read by itself.
fn see(
    alloc: Global,
    own: Name8,
    seen: Seen,
    card: &[u8],
    cards: &Lines,
    at: usize,
) -> Result<Result<Seen, Refused>, NoMemory>
    requires within { at + 1 < 2 ^ 64 }
    requires here { slice_get cards.now at ≡ Some card.now }
    ensures value { IfOk result (λ sees. sees
        ≡ seen_at own seen seen.job (item_of (at + 1) card.now (drop (at + 1) cards.now))) }
    ensures card { IfOk result (λ sees. IfErr sees (λ refused. refused.card ≡ at + 1)) }
{
    match seen.job {
        None => see_before_job(alloc, own, seen, card, cards, at),
        Some(job) => Ok(see_in_job(seen, job, card, at + 1)),
    }
}

// What the cards up to the one that ends the job say of it.
fn see_all(alloc: Global, own: Name8, cards: &Lines) -> Result<Result<Seen, Refused>, NoMemory>
    ensures value { IfOk result (λ sees. sees ≡ seen_after own nothing_seen (items_of cards.now)) }
    ensures card { IfOk result (λ sees. IfErr sees (λ refused. refused.card ≤ length cards.now)) }
{
    let mut seen = Seen {
        priority: None,
        job: None,
        has_steps: false,
    };
    let mut at = 0;
    while at < cards.len() {
        let card = cards.line(at);
        match see(alloc, own, seen, card, cards, at)? {
            Ok(more) => seen = more,
            Err(refused) => return Ok(Err(refused)),
        }
        if ends_job(card) {
            return Ok(Ok(seen));
        }
        at += 1 + further_at(alloc, cards, at)?;
    }
    Ok(Ok(seen))
}

// The number of cards before the one that ends the job.
fn cards_to_end(alloc: Global, cards: &Lines) -> Result<usize, NoMemory>
    ensures value { IfOk result (λ end. end ≡ cards_to_end_lem 0 cards.now) }
    ensures within { IfOk result (λ end. end ≤ length cards.now) }
{
    let mut at = 0;
    while at < cards.len() {
        if ends_job(cards.line(at)) {
            return Ok(at);
        }
        at += 1 + further_at(alloc, cards, at)?;
    }
    Ok(at)
}

fn front_of(alloc: Global, cards: &Lines, end: usize) -> Result<Lines, NoMemory>
    requires { end ≤ length cards.now }
    ensures { IfOk result (λ text. text ≡ take end cards.now) }
{
    let mut text = Lines::new(alloc);
    let mut rest = cards.lines_from(0);
    for _at in 0..end {
        if let Some(card) = rest.next() {
            text.push(card)?;
        }
    }
    Ok(text)
}

fn job_seen_in(sees: Result<Seen, Refused>) -> Result<JobFields, Refused>
    ensures { result ≡ job_seen_in_lem sees }
{
    match sees?.job {
        Some(job) => Ok(job),
        None => Err(Refused {
            card: 1,
            cause: CardCause::First,
        }),
    }
}

// The lesser card; of one card the first cause, which is one of the card as such.
fn least(card: Option<Refused>, said: Result<JobFields, Refused>) -> Result<JobFields, Refused>
    ensures { result ≡ least_lem card said }
{
    match (card, said) {
        (None, said) => said,
        (Some(card), Ok(_)) => Err(card),
        (Some(card), Err(other)) if card.card <= other.card => Err(card),
        (Some(_), Err(other)) => Err(other),
    }
}

/// Reads a deck at the node `own`: the cards of one job, of at most 9,999 cards of at most 80 text bytes.
///
/// `BadCard` exactly where the deck is outside the grammar, at the least card that is refused, by the first cause that
/// applies to it: Text, Many, After, First, Name, Operand, Jes, Place. What else is wrong with statements is for the
/// converter. NoMemory comes only when out of memory.
pub fn read_deck(alloc: Global, own: Name8, cards: &Lines) -> Result<Deck, DeckNo>
    ensures fields { IfOk result (λ deck. read_as own cards.now ≡ Ok deck.fields) }
    ensures text { IfOk result (λ deck. deck.text ≡ text_of cards.now) }
    ensures bad_card { IfErr result (λ no. IfBadCard no (λ card why. read_as own cards.now ≡ Err (bad card why))) }

    // What a deck says is within the limits.
    ensures fits { IsName own → IfOk result (λ deck. IsJobFields deck.fields) }
    ensures lines { IfOk result (λ deck. AreLines deck.text) }
{
    let end = cards_to_end(alloc, cards)?;
    let refused = refused_card(cards, end);
    let said = job_seen_in(see_all(alloc, own, cards)?);
    match least(refused, said) {
        Ok(fields) => Ok(Deck {
            fields,
            text: front_of(alloc, cards, end)?,
        }),
        Err(refused) => Err(DeckNo::BadCard {
            card: refused.card as u32,
            cause: refused.cause,
        }),
    }
}
