//! Reading a script, a line at a time.
ghost use Rattle.std.specs.Prelude.{◌≡◌, IfOk, OnOk};
ghost use Rattle.std.specs.List.{list_any};

use crate::asks::{has_word, read_step};
use crate::config::{Setup, read_setup};
use crate::lines::{deck_end, is_deck_end, is_line, next_line, trimmed};
use crate::types::{Ask, Run, Script, ScriptNo, Step};
use mas_types::limits::{SCRIPT_BYTES, STEPS_MOST};
use mas_types::{LineCause, Lines, List, MemberId, NoMemory, default_config};
use std::alloc::Global;

/// A deck whose end is still to come: its member, and its cards so far.
#[derive(Drop)]
pub struct OpenDeck {
    /// Its member.
    pub by: MemberId,
    /// Its cards so far.
    pub cards: Lines,
}

/// What the lines up to one of them say.
#[derive(Drop)]
pub struct State {
    /// What they say, without a deck whose end is still to come.
    pub script: Script,
    /// One of the lines was not skipped.
    pub seen: bool,
    /// That deck, if there is one.
    pub deck: Option<OpenDeck>,
}

ghost use Rattle.script_lang.specs.Lines.{lines_of, words_in, is_deck_end as is_deck_end_lem};
ghost use Rattle.script_lang.specs.Script.{start as start_lem, is_deck as is_deck_lem, has_room as has_room_lem, next_config, if_room, with_step, with_deck, next_deck, next_asked, next_words, next_outside, next_card, next, said, ComesTo, Takes};

// What is said before the first line.
fn start(alloc: Global) -> State
    ensures { result ≡ start_lem }
{
    State {
        script: Script {
            config: default_config(),
            routes: List::new(alloc),
            steps: List::new(alloc),
        },
        seen: false,
        deck: None,
    }
}

fn is_deck(what: &Ask) -> bool
    ensures { result ≡ is_deck_lem what.now }
{
    matches!(what, Ask::Deck(_))
}

impl State {
    // Whether a step more may stand in the script.
    fn has_room(&self) -> bool
        ensures { result ≡ has_room_lem self.now }
    {
        self.script.steps.len() < STEPS_MOST as usize
    }

    // Adds a whole step.
    fn push_step(&mut self, by: MemberId, what: Ask) -> Result<(), NoMemory>
        ensures { OnOk result (self.new ≡ with_step self.old by what) }
    {
        self.script.steps.push(Step { by, what })?;
        self.seen = true;
        self.deck = None;
        Ok(())
    }

    // Opens a deck, which has these cards so far.
    fn open_deck(&mut self, by: MemberId, cards: Lines)
        ensures { self.new ≡ with_deck self.old by cards }
    {
        self.seen = true;
        self.deck = Some(OpenDeck { by, cards });
    }

    // A CONFIG line.
    fn take_config(
        &mut self,
        alloc: Global,
        run: Run,
        text: &[u8],
    ) -> Result<Result<(), LineCause>, NoMemory>
        ensures { IfOk result (λ taken. Takes taken self.new (next_config run self.old (words_in text.now))) }
    {
        if self.seen {
            return Ok(Err(LineCause::Late));
        }
        if !run.cold && !run.only {
            return Ok(Err(LineCause::Warm));
        }
        let Some(setup) = read_setup(alloc, text)? else {
            return Ok(Err(LineCause::Config));
        };
        let Setup { config, routes } = setup;
        self.script.config = config;
        self.script.routes = routes;
        self.seen = true;
        self.deck = None;
        Ok(Ok(()))
    }

    // A DECK line, where `behind` are the lines behind it.
    fn begin_deck(
        &mut self,
        alloc: Global,
        by: MemberId,
        behind: &[u8],
    ) -> Result<Result<(), LineCause>, NoMemory>
        ensures { IfOk result (λ taken.
            Takes taken self.new (next_deck self.old (list_any is_deck_end_lem (lines_of behind.now)) by)) }
    {
        let Some((lines, end)) = deck_end(behind) else {
            return Ok(Err(LineCause::End));
        };
        if !self.has_room() {
            return Ok(Err(LineCause::Steps));
        }
        let cards = Lines::with_room(alloc, lines, behind.len() - end.len())?;
        self.open_deck(by, cards);
        Ok(Ok(()))
    }

    // A line of any other step.
    fn add_step(&mut self, by: MemberId, what: Ask) -> Result<Result<(), LineCause>, NoMemory>
        ensures { IfOk result (λ taken. Takes taken self.new (if_room self.old (with_step self.old by what))) }
    {
        if !self.has_room() {
            return Ok(Err(LineCause::Steps));
        }
        self.push_step(by, what)?;
        Ok(Ok(()))
    }

    // The line of a step.
    fn take_asked(
        &mut self,
        alloc: Global,
        step: Step,
        behind: &[u8],
    ) -> Result<Result<(), LineCause>, NoMemory>
        ensures { IfOk result (λ taken.
            Takes taken self.new (next_asked self.old (list_any is_deck_end_lem (lines_of behind.now)) step)) }
    {
        let Step { by, what } = step;
        if is_deck(&what) {
            return self.begin_deck(alloc, by, behind);
        }
        self.add_step(by, what)
    }

    // A line of words.
    fn take_words(
        &mut self,
        alloc: Global,
        run: Run,
        text: &[u8],
        behind: &[u8],
    ) -> Result<Result<(), LineCause>, NoMemory>
        ensures { IfOk result (λ taken.
            Takes taken self.new (next_words run self.old (list_any is_deck_end_lem (lines_of behind.now))
            (words_in text.now))) }
    {
        if has_word(text, 0, b"CONFIG") {
            return self.take_config(alloc, run, text);
        }
        match read_step(alloc, run, text)? {
            Ok(step) => self.take_asked(alloc, step, behind),
            Err(cause) => Ok(Err(cause)),
        }
    }

    // A line outside decks.
    fn take_outside(
        &mut self,
        alloc: Global,
        run: Run,
        line: &[u8],
        behind: &[u8],
    ) -> Result<Result<(), LineCause>, NoMemory>
        ensures { IfOk result (λ taken.
            Takes taken self.new (next_outside run self.old (list_any is_deck_end_lem (lines_of behind.now))
            line.now)) }
    {
        if !is_line(line) {
            return Ok(Err(LineCause::Text));
        }
        let text = trimmed(line);
        if text.is_empty() {
            return Ok(Ok(()));
        }
        self.take_words(alloc, run, text, behind)
    }

    // A line of a deck: its end, or a card.
    fn take_card(&mut self, deck: OpenDeck, line: &[u8]) -> Result<Result<(), LineCause>, NoMemory>
        ensures { IfOk result (λ taken. Takes taken self.new (next_card self.old deck line.now)) }
    {
        let OpenDeck { by, mut cards } = deck;
        if is_deck_end(line) {
            self.push_step(by, Ask::Deck(cards))?;
            return Ok(Ok(()));
        }
        if !is_line(line) {
            return Ok(Err(LineCause::Text));
        }
        cards.push(line)?;
        self.open_deck(by, cards);
        Ok(Ok(()))
    }

    // The next line, with the lines behind it.
    fn take(
        &mut self,
        alloc: Global,
        run: Run,
        line: &[u8],
        behind: &[u8],
    ) -> Result<Result<(), LineCause>, NoMemory>
        ensures { IfOk result (λ taken.
            Takes taken self.new (next run self.old (list_any is_deck_end_lem (lines_of behind.now)) line.now)) }
    {
        match self.deck.take() {
            Some(deck) => self.take_card(deck, line),
            None => self.take_outside(alloc, run, line, behind),
        }
    }
}

/// Reads a script: of a run from an empty queue where `cold` is true, of a race where `race` is true, and of a run that
/// only formats where `only` is true.
///
/// `BadLine` exactly where a line is outside the grammar, with the least such line and its first cause, in the order
/// Text, Late, Warm, Config, Only, Member, Race, Verb, Number, Command, End, Steps. `TooLong` exactly where there are
/// over 16,777,216 bytes. NoMemory comes only when out of memory.
pub fn read_script(
    alloc: Global,
    bytes: &[u8],
    cold: bool,
    race: bool,
    only: bool,
) -> Result<Script, ScriptNo>
    ensures said { ComesTo result (said (record { cold = cold; race = race; only = only }) bytes.now) }
{
    if bytes.len() > SCRIPT_BYTES {
        return Err(ScriptNo::TooLong);
    }
    let run = Run { cold, race, only };
    let mut state = start(alloc);
    let mut rest = bytes;
    let mut number = 1;
    while !rest.is_empty() {
        let (line, behind) = next_line(rest);
        if let Err(cause) = state.take(alloc, run, line, behind)? {
            return Err(ScriptNo::BadLine {
                line: number,
                cause,
            });
        }
        rest = behind;
        number += 1;
    }
    let State {
        script,
        seen: _,
        deck: _,
    } = state;
    Ok(script)
}
