//! Reading the words.
ghost use Rattle.std.specs.Prelude.{◌≡◌, ◌≢◌, ◌&&◌, IfOk, codes, map, option_and_then, option_map, string_bytes};
ghost use Rattle.std.specs.List.{list_any};
ghost use Rattle.std.specs.Str.{bytes_eq};
ghost use Rattle.clap.specs.Words.{first_of, found_of, kind_of, rows_of, subcommand_rows_of};
ghost use Rattle.mas_words.specs.Program.{folder_of, is_cold_verb, is_set, number_of, verb_by, words_met as words_met_lem};
ghost use Rattle.mas_words.specs.Words.{Reads, command_of, words_of};

use crate::program::program;
use crate::types::{Verb, Words, WordsNo};
use clap::error::ErrorKind;
use clap::{ArgMatches, Error};
use mas_types::{List, NoMemory, read_number};
use std::alloc::Global;

/// The most decks that are generated.
const DECKS_MOST: u32 = 1_000;
/// The most digits of their number.
const DIGITS_MOST: usize = 4;

// Whether one of the words is `--`, behind which `clap` takes any word for a value.
fn has_dashes(words: &[String]) -> bool
    ensures { result ≡ list_any (λ word. bytes_eq (string_bytes word) (codes "--")) words.now }
{
    words.iter().any(|word| word.as_str() == "--")
}

// Why `clap` doesn't read the words.
fn refusal(error: &Error) -> WordsNo
    ensures { result ≡ WordsNo.Words → kind_of error.now ≢ ErrorKind.OutOfMemory }
{
    match error.kind() {
        ErrorKind::OutOfMemory => WordsNo::NoMemory,
        _ => WordsNo::Words,
    }
}

fn list_of(alloc: Global, bytes: &[u8]) -> Result<List<u8>, NoMemory>
    ensures { IfOk result (λ list. list ≡ bytes.now) }
{
    let mut list = List::new(alloc);
    for byte in bytes {
        list.push(*byte)?;
    }
    Ok(list)
}

// The folder, or no bytes where none is given.
fn folder(alloc: Global, given: Option<&str>) -> Result<List<u8>, WordsNo>
    ensures { Reads (folder_of (option_map (λ text. text.now) given.entry)) result }
{
    let Some(text) = given else {
        return Ok(List::new(alloc));
    };
    if text.is_empty() || text.starts_with('-') {
        return Err(WordsNo::Words);
    }
    Ok(list_of(alloc, text.as_bytes())?)
}

// The number behind `generate`.
fn number(given: Option<&str>) -> Result<u32, WordsNo>
    ensures { Reads (number_of (option_map (λ text. text.now) given.entry)) result }
{
    let Some(text) = given else {
        return Err(WordsNo::Words);
    };
    if text.len() > DIGITS_MOST {
        return Err(WordsNo::Words);
    }
    match read_number(text.as_bytes(), DECKS_MOST) {
        Ok(0) => Err(WordsNo::Words),
        Ok(number) => Ok(number),
        Err(_) => Err(WordsNo::Words),
    }
}

fn verb(name: &str, matches: &ArgMatches<'_>) -> Result<Verb, WordsNo>
    ensures { Reads (option_and_then (λ command. verb_by command (rows_of (found_of matches.now)))
        (command_of name.now)) result }
{
    match name {
        "play" => Ok(Verb::Play),
        "race" => Ok(Verb::Race),
        "format" => Ok(Verb::Format),
        "report" => Ok(Verb::Report),
        "check" => Ok(Verb::Check),
        "generate" => Ok(Verb::Generate(number(matches.get_str("n"))?)),
        _ => Err(WordsNo::Words),
    }
}

// Whether `--cold` was given.
fn has_cold(matches: &ArgMatches<'_>) -> bool
    ensures { result ≡ is_set (first_of (codes "cold") (rows_of (found_of matches.now))) }
{
    match matches.get_str("cold") {
        Some(text) => text == "true",
        None => false,
    }
}

// Whether `--cold` was given to a command that takes it.
fn is_cold(verb: Verb, matches: &ArgMatches<'_>) -> bool
    ensures { result ≡ (is_cold_verb verb && is_set (first_of (codes "cold") (rows_of (found_of matches.now)))) }
{
    match verb {
        Verb::Play | Verb::Race => has_cold(matches),
        _ => false,
    }
}

// What the subcommand that `clap` met asks for.
fn words_from(alloc: Global, name: &str, matches: &ArgMatches<'_>) -> Result<Words, WordsNo>
    ensures { Reads (words_met_lem name.now (rows_of (found_of matches.now))) result }
{
    let verb = verb(name, matches)?;
    let cold = is_cold(verb, matches);
    let dir = folder(alloc, matches.get_str("dir"))?;
    Ok(Words { verb, cold, dir })
}

// What the subcommand asks for, where `clap` met one.
fn words_met(alloc: Global, matches: &ArgMatches<'_>) -> Result<Words, WordsNo>
    ensures { Reads (option_and_then (λ met. words_met_lem met.0 met.1) (subcommand_rows_of matches.now)) result }
{
    match matches.subcommand() {
        Some((name, inner)) => words_from(alloc, name, inner),
        None => Err(WordsNo::Words),
    }
}

/// Reads the words behind the program's name. They are a command (`play`, `race`, `format`, `report`, `check`, or
/// `generate` with a number of 1 to 4 digits and value 1 to 1,000) and behind it, in any order, `--dir D` or `--dir=D`
/// once at most, where D is not empty and begins with no hyphen, and for `play` and `race` `--cold` once at most.
/// `WordsNo::Words` exactly where they are not, but that `WordsNo::NoMemory` may come at any time.
pub fn read_words(alloc: Global, words: &[String]) -> Result<Words, WordsNo>
    ensures { Reads (words_of (map string_bytes words.now)) result }
{
    if has_dashes(words) {
        return Err(WordsNo::Words);
    }
    let Ok(program) = program(alloc) else {
        return Err(WordsNo::NoMemory);
    };
    match program.try_get_matches_from(words) {
        Ok(matches) => words_met(alloc, &matches),
        Err(error) => Err(refusal(&error)),
    }
}
