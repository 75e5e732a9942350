//! What a script's line is tested for before its commands.
ghost use Rattle.std.specs.Prelude.{◌≡◌, length, false, IfOk};
ghost use Rattle.mas_types.specs.Queue.{is_member as is_member_lem};
ghost use Rattle.card_reader.specs.Decks.{read_as, text_of};
ghost use Rattle.lock_cycle.specs.Books.{IsMember, after_try};
ghost use Rattle.mas_complex.specs.Locking.{IsOperatorAway};
ghost use Rattle.mas_complex.specs.Parts.{parts_of};
ghost use Rattle.run_turns.specs.Admissions.{Refused as RefusedLem, admitted, asked, command_admitted, deck_admitted, free_admitted, no_member as no_member_lem, reset_admitted, resets as resets_lem, tries};
ghost use Rattle.member_lines.specs.Admissions.{AreFewUnits, admission_of, tested, tested_as};

use card_reader::{Deck, DeckNo, read_deck};
use lock_cycle::LockNo;
use mas_complex::{Complex, Steady};
use mas_types::{Closing, Command, Config, Copied, Dev, Lines, MemberId, NoMemory, Refusal, Reply};
use script_lang::Ask;
use spool_plant::Plant;
use std::alloc::Global;
use step_turns::Task;

// The operator.
pub(crate) const NOBODY: MemberId = MemberId(0);

/// What becomes of a line of a member.
#[derive(Drop)]
pub enum Admission {
    /// It closes so before any try of the lock, and this member says it, the operator being member 0.
    Refused { sayer: MemberId, end: Closing },
    /// Its member doesn't get the lock.
    Denied(LockNo),
    /// Its member has the lock, and plays this.
    Plays(Task),
    /// Its member has the lock, and resets this stopped member, which doesn't hold it.
    Resets(MemberId),
    /// Its member has the lock, and replaces this copy.
    Replaces(Dev),
    /// Its member is to take the lock over from this stopped member, and then to reset it.
    TakesOver(MemberId),
    /// Its member has the lock, and keeps it.
    Locks,
    /// Its member holds the lock, and gives it up.
    Frees,
    /// It is a stop, the loss of a device, or of a kind that isn't played.
    Unplayed,
}

// One of the members of the configuration.
pub(crate) fn is_member(config: &Config, m: MemberId) -> bool
    ensures { result ≡ is_member_lem config.now m }
{
    m.0 != 0 && m.0 <= config.members
}

// The member that a command is to reset.
fn resets(command: &Command) -> Option<MemberId>
    ensures { result ≡ resets_lem command.now }
{
    match command {
        Command::Reset { of } => Some(*of),
        _ => None,
    }
}

fn no_member(sayer: MemberId) -> Admission
    ensures { admission_of result ≡ RefusedLem sayer no_member_lem }
{
    let end = Closing::Reply(Reply::No(Refusal::NoMember));
    Admission::Refused { sayer, end }
}

// A line whose member tries for the lock, and then does this.
fn try_for<P: Plant + Drop, C: Steady + Drop>(
    complex: &mut Complex<P, C>,
    by: MemberId,
    then: Admission,
) -> Admission
    requires member { IsMember complex.old.book by }
    requires away { IsOperatorAway complex.old.book complex.old.reserved complex.old.current }
    ensures frame { parts_of complex.new
        ≡ record (parts_of complex.old) { book = after_try complex.old.book by false } }
    ensures admitted { admission_of result ≡ tries complex.old.book by (admission_of then) }
{
    match complex.try_lock(by, false) {
        Ok(()) => then,
        Err(why) => Admission::Denied(why),
    }
}

// A deck of a member that is up.
fn admit_deck<P: Plant + Drop, C: Steady + Drop>(
    alloc: Global,
    complex: &mut Complex<P, C>,
    by: MemberId,
    cards: &Lines,
) -> Result<Admission, NoMemory>
    requires member { IsMember complex.old.book by }
    requires away { IsOperatorAway complex.old.book complex.old.reserved complex.old.current }
    ensures frame { parts_of complex.new
        ≡ record (parts_of complex.old) { book = tested complex.old.book by result } }
    ensures admitted { IfOk result (λ a. admission_of a
        ≡ deck_admitted complex.old.book by (text_of cards.now) (read_as complex.old.base.config.node cards.now)) }
{
    match read_deck(alloc, complex.base.config().node, cards) {
        Ok(Deck { fields, text }) => {
            let task = Task::Deck { fields, text };
            Ok(try_for(complex, by, Admission::Plays(task)))
        }
        Err(DeckNo::BadCard { card, cause }) => {
            let end = Closing::BadCard(card, cause);
            Ok(Admission::Refused { sayer: by, end })
        }
        Err(DeckNo::NoMemory) => Err(NoMemory),
    }
}

// The reset of a member by one that is up: of a stopped one alone.
fn admit_reset<P: Plant + Drop, C: Steady + Drop>(
    complex: &mut Complex<P, C>,
    by: MemberId,
    of: MemberId,
) -> Admission
    requires member { IsMember complex.old.book by }
    requires seats { length complex.old.book.members ≡ complex.old.base.config.members }
    requires away { IsOperatorAway complex.old.book complex.old.reserved complex.old.current }
    ensures frame { parts_of complex.new
        ≡ record (parts_of complex.old) { book = tested_as complex.old.book by (admission_of result) } }
    ensures admitted { admission_of result ≡ reset_admitted complex.old.base.config complex.old.book by of }
{
    if !is_member(&complex.base.config(), of) {
        return no_member(by);
    }
    if !complex.stopped(of) {
        let end = Closing::Up(of);
        return Admission::Refused { sayer: by, end };
    }
    if complex.holder() == of {
        return Admission::TakesOver(of);
    }
    try_for(complex, by, Admission::Resets(of))
}

// A command of a member that is up.
fn admit_command<P: Plant + Drop, C: Steady + Drop>(
    alloc: Global,
    complex: &mut Complex<P, C>,
    by: MemberId,
    command: &Command,
) -> Result<Admission, NoMemory>
    requires member { IsMember complex.old.book by }
    requires seats { length complex.old.book.members ≡ complex.old.base.config.members }
    requires away { IsOperatorAway complex.old.book complex.old.reserved complex.old.current }
    ensures frame { parts_of complex.new
        ≡ record (parts_of complex.old) { book = tested complex.old.book by result } }
    ensures admitted { IfOk result (λ a. admission_of a
        ≡ command_admitted complex.old.base.config complex.old.book by command.now (resets_lem command.now)) }
{
    match resets(command) {
        Some(of) => Ok(admit_reset(complex, by, of)),
        None => {
            let task = Task::Give(command.copy(alloc)?);
            Ok(try_for(complex, by, Admission::Plays(task)))
        }
    }
}

// The lock is given up by its holder alone.
fn admit_free<P: Plant + Drop, C: Steady + Drop>(complex: &Complex<P, C>, by: MemberId) -> Admission
    ensures { admission_of result ≡ free_admitted complex.now.book by }
{
    if complex.holder() == by {
        return Admission::Frees;
    }
    Admission::Refused {
        sayer: by,
        end: Closing::NotHolder,
    }
}

// A line of a member that is up.
fn admit_up<P: Plant + Drop, C: Steady + Drop>(
    alloc: Global,
    complex: &mut Complex<P, C>,
    by: MemberId,
    ask: &Ask,
) -> Result<Admission, NoMemory>
    requires member { IsMember complex.old.book by }
    requires seats { length complex.old.book.members ≡ complex.old.base.config.members }
    requires away { IsOperatorAway complex.old.book complex.old.reserved complex.old.current }
    requires few { AreFewUnits ask.now }
    ensures frame { parts_of complex.new
        ≡ record (parts_of complex.old) { book = tested complex.old.book by result } }
    ensures admitted { IfOk result (λ a. admission_of a
        ≡ asked complex.old.base.config complex.old.book by ask.now) }
{
    match ask {
        Ask::Deck(cards) => admit_deck(alloc, complex, by, cards),
        Ask::Command(command) => admit_command(alloc, complex, by, command),
        Ask::Work(units) => {
            let task = Task::Work(*units as u16);
            Ok(try_for(complex, by, Admission::Plays(task)))
        }
        Ask::Lock => Ok(try_for(complex, by, Admission::Locks)),
        Ask::Free => Ok(admit_free(complex, by)),
        Ask::Line(line) => {
            let task = Task::Line(*line);
            Ok(try_for(complex, by, Admission::Plays(task)))
        }
        Ask::Replace(copy) => Ok(try_for(complex, by, Admission::Replaces(*copy))),
        Ask::Stop | Ask::StopIn(..) | Ask::Lose(_) => { Ok(Admission::Unplayed) }
    }
}

/// Tests a line of a member, in this order: the member is one of the configuration and isn't stopped; its deck can be
/// read; the member that it would reset is one, and is stopped; it holds the lock that it would give up; and it gets
/// the lock, by a try. Answers what becomes of the line. Only the book of the lock changes, by the try. A takeover
/// makes none, and is still to come.
///
/// NoMemory is want of memory for what is to be played; then nothing is changed.
pub fn admit<P: Plant + Drop, C: Steady + Drop>(
    alloc: Global,
    complex: &mut Complex<P, C>,
    by: MemberId,
    ask: &Ask,
) -> Result<Admission, NoMemory>
    requires seats { length complex.old.book.members ≡ complex.old.base.config.members }
    requires away { IsOperatorAway complex.old.book complex.old.reserved complex.old.current }
    requires few { AreFewUnits ask.now }
    ensures frame { parts_of complex.new
        ≡ record (parts_of complex.old) { book = tested complex.old.book by result } }
    ensures admitted { IfOk result (λ a. admission_of a
        ≡ admitted complex.old.base.config complex.old.book by ask.now) }
{
    if !is_member(&complex.base.config(), by) {
        return Ok(no_member(NOBODY));
    }
    if complex.stopped(by) {
        return Ok(Admission::Refused {
            sayer: NOBODY,
            end: Closing::Down,
        });
    }
    admit_up(alloc, complex, by, ask)
}
