//! What a line asks for outside decks.
ghost use Rattle.std.specs.Prelude.{◌≡◌, ◌≤◌, IfOk, IfSome};
ghost use Rattle.mas_types.specs.Limits.{members_most, volumes_most, wires_most};
ghost use Rattle.operator_cmds.specs.Typed.{command_in};
ghost use Rattle.script_lang.specs.Config.{number_in as number_in_lem};
ghost use Rattle.script_lang.specs.Lines.{has_word as has_word_lem, words_in};
ghost use Rattle.script_lang.specs.Asks.{member_of as member_of_lem, member_in as member_in_lem, has_fuse as has_fuse_lem, is_calm as is_calm_lem, units_most, fuse_most, numbered, typed, lost_volume, verb_asks, copy_asks, pair_asks, fuse_asks, spool_asks, device_asks, member_asks, stop_asks, lose_asks, asks, step_by, step_of};

use crate::config::{byte_in, number_in};
use crate::lines::{count_words, word};
use crate::types::{Ask, Run, Step};
use mas_types::limits::{VOLUMES_MOST, WIRES_MOST};
use mas_types::{Dev, LineCause, Lines, MemberId, NoMemory, read_member};
use operator_cmds::{CommandNo, read_command};
use spool_plant::Fuse;
use std::alloc::Global;

/// The greatest number of work units that a step asks for.
pub const UNITS_MOST: u32 = 9_999;

/// The greatest number of acts or prints that a stop waits for.
pub const FUSE_MOST: u32 = 999_999;

/// Whether the word at a place, counted from 0, is this one.
pub(crate) fn has_word(text: &[u8], at: usize, is: &[u8]) -> bool
    ensures { result ≡ has_word_lem (words_in text.now) at is.now }
{
    word(text, at) == is
}

// SYSA to SYSH
fn member_of(text: &[u8]) -> Option<MemberId>
    ensures value { result ≡ member_of_lem text.now }
    ensures most { IfSome result (λ m. m.0 ≤ members_most) }
{
    read_member(text).ok()
}

// The member of a line, none where none stands in its place.
fn member_in(text: &[u8]) -> Option<MemberId>
    ensures { result ≡ member_in_lem (words_in text.now) }
{
    if has_word(text, 0, b"LOSE") {
        Some(MemberId(0))
    } else if !has_word(text, 0, b"STOP") {
        member_of(word(text, 0))
    } else if count_words(text) == 1 {
        Some(MemberId(0))
    } else {
        member_of(word(text, 1))
    }
}

fn has_fuse(text: &[u8]) -> bool
    ensures { result ≡ has_fuse_lem (words_in text.now) }
{
    has_word(text, 2, b"IN") || has_word(text, 2, b"PRINT")
}

// Whether a line may not stand in a race.
fn is_calm(text: &[u8]) -> bool
    ensures { result ≡ is_calm_lem (words_in text.now) }
{
    if has_word(text, 0, b"LOSE") {
        return true;
    }
    if has_word(text, 0, b"STOP") {
        return !has_fuse(text);
    }
    has_word(text, 1, b"LOCK")
        || has_word(text, 1, b"FREE")
        || has_word(text, 1, b"LINE")
        || has_word(text, 1, b"REPLACE")
}

fn read_typed(alloc: Global, verb: &[u8]) -> Result<Result<Ask, LineCause>, NoMemory>
    ensures { IfOk result (λ ask. ask ≡ typed (command_in verb.now)) }
{
    match read_command(alloc, verb) {
        Ok(command) => Ok(Ok(Ask::Command(command))),
        Err(CommandNo::BadCommand(_)) => Ok(Err(LineCause::Command)),
        Err(CommandNo::NoMemory) => Err(NoMemory),
    }
}

// One word behind a member.
fn ask_of_verb(alloc: Global, verb: &[u8]) -> Result<Result<Ask, LineCause>, NoMemory>
    ensures { IfOk result (λ ask. ask ≡ verb_asks verb.now) }
{
    if verb == b"DECK".as_slice() {
        Ok(Ok(Ask::Deck(Lines::new(alloc))))
    } else if verb == b"LOCK".as_slice() {
        Ok(Ok(Ask::Lock))
    } else if verb == b"FREE".as_slice() {
        Ok(Ok(Ask::Free))
    } else if verb.starts_with(b"$") {
        read_typed(alloc, verb)
    } else {
        Ok(Err(LineCause::Verb))
    }
}

fn ask_of_copy(copy: &[u8]) -> Result<Ask, LineCause>
    ensures { result ≡ copy_asks copy.now }
{
    if copy == b"CKPT1".as_slice() {
        Ok(Ask::Replace(Dev::Ckpt1))
    } else if copy == b"CKPT2".as_slice() {
        Ok(Ask::Replace(Dev::Ckpt2))
    } else {
        Err(LineCause::Verb)
    }
}

fn ask_of_units(number: &[u8]) -> Result<Ask, LineCause>
    ensures { result ≡ numbered Ask.Work (number_in_lem 1 units_most number.now) }
{
    match number_in(number, 1, UNITS_MOST) {
        Some(n) => Ok(Ask::Work(n)),
        None => Err(LineCause::Number),
    }
}

fn ask_of_wire(number: &[u8]) -> Result<Ask, LineCause>
    ensures { result ≡ numbered Ask.Line (number_in_lem 1 wires_most number.now) }
{
    match byte_in(number, 1, WIRES_MOST) {
        Some(n) => Ok(Ask::Line(n)),
        None => Err(LineCause::Number),
    }
}

// Two words behind a member.
fn ask_of_pair(verb: &[u8], word: &[u8]) -> Result<Ask, LineCause>
    ensures { result ≡ pair_asks verb.now word.now }
{
    if verb == b"WORK".as_slice() {
        ask_of_units(word)
    } else if verb == b"LINE".as_slice() {
        ask_of_wire(word)
    } else if verb == b"REPLACE".as_slice() {
        ask_of_copy(word)
    } else {
        Err(LineCause::Verb)
    }
}

fn ask_of_count(fuse: Fuse, number: &[u8]) -> Result<Ask, LineCause>
    ensures { result ≡ numbered (Ask.StopIn fuse) (number_in_lem 1 fuse_most number.now) }
{
    match number_in(number, 1, FUSE_MOST) {
        Some(n) => Ok(Ask::StopIn(fuse, n)),
        None => Err(LineCause::Number),
    }
}

// A word and a number behind STOP and its member.
fn ask_of_fuse(word: &[u8], number: &[u8]) -> Result<Ask, LineCause>
    ensures { result ≡ fuse_asks word.now number.now }
{
    if word == b"IN".as_slice() {
        ask_of_count(Fuse::Any, number)
    } else if word == b"PRINT".as_slice() {
        ask_of_count(Fuse::Print, number)
    } else {
        Err(LineCause::Verb)
    }
}

fn ask_of_volume(number: &[u8]) -> Result<Ask, LineCause>
    ensures { result ≡ numbered lost_volume (number_in_lem 1 volumes_most number.now) }
{
    match byte_in(number, 1, VOLUMES_MOST) {
        Some(n) => Ok(Ask::Lose(Dev::Spool(n))),
        None => Err(LineCause::Number),
    }
}

// SPOOL and the number of a volume.
fn ask_of_spool(device: &[u8]) -> Result<Ask, LineCause>
    ensures { result ≡ spool_asks device.now }
{
    if device.starts_with(b"SPOOL") {
        ask_of_volume(&device[5..])
    } else {
        Err(LineCause::Verb)
    }
}

// The device behind LOSE.
fn ask_of_device(device: &[u8]) -> Result<Ask, LineCause>
    ensures { result ≡ device_asks device.now }
{
    if device == b"CKPT1".as_slice() {
        Ok(Ask::Lose(Dev::Ckpt1))
    } else if device == b"CKPT2".as_slice() {
        Ok(Ask::Lose(Dev::Ckpt2))
    } else {
        ask_of_spool(device)
    }
}

// What stands behind a member.
fn ask_of_member(alloc: Global, text: &[u8]) -> Result<Result<Ask, LineCause>, NoMemory>
    ensures { IfOk result (λ ask. ask ≡ member_asks (words_in text.now)) }
{
    match count_words(text) {
        2 => ask_of_verb(alloc, word(text, 1)),
        3 => Ok(ask_of_pair(word(text, 1), word(text, 2))),
        _ => Ok(Err(LineCause::Verb)),
    }
}

// What stands behind STOP.
fn ask_of_stop(text: &[u8]) -> Result<Ask, LineCause>
    ensures { result ≡ stop_asks (words_in text.now) }
{
    match count_words(text) {
        2 => Ok(Ask::Stop),
        4 => ask_of_fuse(word(text, 2), word(text, 3)),
        _ => Err(LineCause::Verb),
    }
}

// What stands behind LOSE.
fn ask_of_lose(text: &[u8]) -> Result<Ask, LineCause>
    ensures { result ≡ lose_asks (words_in text.now) }
{
    if count_words(text) == 2 {
        ask_of_device(word(text, 1))
    } else {
        Err(LineCause::Verb)
    }
}

// What a line asks for that has a member where one is wanted.
fn ask_of(alloc: Global, text: &[u8]) -> Result<Result<Ask, LineCause>, NoMemory>
    ensures { IfOk result (λ ask. ask ≡ asks (words_in text.now)) }
{
    if has_word(text, 0, b"LOSE") {
        Ok(ask_of_lose(text))
    } else if has_word(text, 0, b"STOP") {
        Ok(ask_of_stop(text))
    } else {
        ask_of_member(alloc, text)
    }
}

// The step of a line whose member is this one.
fn step_of_member(
    alloc: Global,
    run: Run,
    text: &[u8],
    by: MemberId,
) -> Result<Result<Step, LineCause>, NoMemory>
    ensures { IfOk result (λ step. step ≡ step_by run (words_in text.now) (Some by)) }
{
    if run.race && is_calm(text) {
        return Ok(Err(LineCause::Race));
    }
    match ask_of(alloc, text)? {
        Ok(what) => Ok(Ok(Step { by, what })),
        Err(cause) => Ok(Err(cause)),
    }
}

/// The step of a line whose first word isn't CONFIG, without the blanks at its end; or the first cause that applies to
/// it: Only, Member, Race, and then Verb, Number or Command.
pub(crate) fn read_step(
    alloc: Global,
    run: Run,
    text: &[u8],
) -> Result<Result<Step, LineCause>, NoMemory>
    ensures { IfOk result (λ step. step ≡ step_of run (words_in text.now)) }
{
    if run.only {
        return Ok(Err(LineCause::Only));
    }
    match member_in(text) {
        Some(by) => step_of_member(alloc, run, text, by),
        None => Ok(Err(LineCause::Member)),
    }
}
