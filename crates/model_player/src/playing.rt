//! Steps of a script.
ghost use Rattle.std.specs.Prelude.{◌≡◌, ◌≤◌, true, IfOk, IfSome};
ghost use Rattle.mas_types.specs.Fit.{AreLines};
ghost use Rattle.mas_types.specs.Limits.{members_most};
ghost use Rattle.script_laws.specs.Limits.{IsMember};
ghost use Rattle.model_player.specs.Ends.{IsNamed};
ghost use Rattle.model_player.specs.Sounds.{AreSound};

use crate::acts::{act, keep, write};
use crate::decks::enter;
use crate::ends::{End, PlayError, closed};
use crate::giving::{count, give};
use crate::locks::{denied, end, grant, is_stopped, stop};
use crate::queues::{answer, drop_batch};
use crate::spools::{Arm, Book, Members, Spool};
use crate::works::work;
use card_reader::{Deck, DeckNo, read_deck};
use cmd_report::reply_lines;
use mas_types::{Command, Config, Dev, Lines, MEMBERS_MOST, MemberId, Refusal};
use script_lang::{Ask, Step};
use spool_plant::Fuse;
use std::alloc::Global;

// Who holds the lock where nobody does.
const NOBODY: MemberId = MemberId(0);

// Whether the configuration has this member.
fn is_there(config: &Config, m: MemberId) -> bool
    ensures { result ≡ true → IsMember m }
{
    m.0 > 0 && m.0 <= config.members && m.0 <= MEMBERS_MOST
}

// A step's try of the lock: how the step closes where its member doesn't get it. A member that gets it reads the queue.
// Where `over` holds the lock, which is 0 for nobody, the lock is taken over.
fn enter_lock(members: &mut Members, by: MemberId, over: MemberId) -> Result<Option<End>, PlayError>
    requires { IsMember by }
    ensures { IfOk result (λ end. IfSome end IsNamed) }
{
    let holder = members.book.holder;
    if over.0 != 0 && over.0 == holder.0 {
        grant(&mut members.book, by);
        act(members, by)?;
        return Ok(None);
    }
    let end = denied(&mut members.book, by);
    if end.is_none() && holder.0 != by.0 {
        act(members, by)?;
    }
    Ok(end)
}

// The step of a deck that was read.
fn play_read(alloc: Global, spool: &mut Spool, by: MemberId, deck: &Deck) -> Result<End, PlayError>
    requires sound { AreSound spool.old.queues }
    requires by { IsMember by }
    requires lines { AreLines deck.now.text }
    ensures sound { AreSound spool.new.queues }
    ensures named { IfOk result IsNamed }
{
    match enter_lock(&mut spool.members, by, NOBODY)? {
        Some(end) => Ok(end),
        None => enter(alloc, spool, by, deck),
    }
}

// The step of a deck. Its cards are read first.
fn play_deck(
    alloc: Global,
    spool: &mut Spool,
    by: MemberId,
    cards: &Lines,
) -> Result<End, PlayError>
    requires sound { AreSound spool.old.queues }
    requires by { IsMember by }
    ensures sound { AreSound spool.new.queues }
    ensures named { IfOk result IsNamed }
{
    match read_deck(alloc, spool.queues.queue.config.node, cards) {
        Ok(deck) => play_read(alloc, spool, by, &deck),
        Err(DeckNo::BadCard { card, cause }) => Ok(End::BadCard(card, cause)),
        Err(DeckNo::NoMemory) => Err(PlayError::NoMemory),
    }
}

// The step of the reset of a member, of which it takes the lock over if that one holds it.
fn play_reset(
    alloc: Global,
    spool: &mut Spool,
    by: MemberId,
    of: MemberId,
) -> Result<End, PlayError>
    requires sound { AreSound spool.old.queues }
    requires by { IsMember by }
    ensures sound { AreSound spool.new.queues }
    ensures named { IfOk result IsNamed }
{
    if !is_there(&spool.queues.queue.config, of) {
        return Ok(End::Refused(Refusal::NoMember));
    }
    if !is_stopped(&spool.members.book, of) {
        return Ok(End::Up(of));
    }
    if let Some(end) = enter_lock(&mut spool.members, by, of)? {
        return Ok(end);
    }
    give(alloc, spool, by, Command::Reset { of })?;
    Ok(End::Reset(of))
}

// A step of work, or one from which on the member keeps the lock.
fn play_entered(
    alloc: Global,
    spool: &mut Spool,
    by: MemberId,
    units: Option<u32>,
) -> Result<End, PlayError>
    requires sound { AreSound spool.old.queues }
    requires by { IsMember by }
    ensures sound { AreSound spool.new.queues }
    ensures named { IfOk result IsNamed }
{
    if let Some(end) = enter_lock(&mut spool.members, by, NOBODY)? {
        return Ok(end);
    }
    match units {
        Some(units) => work(alloc, spool, by, units),
        None => {
            spool.members.book.by_lock = true;
            Ok(End::Plain)
        }
    }
}

// The member gives up the lock at the end of this step.
fn play_free(book: &mut Book, by: MemberId) -> End
    ensures { IsNamed result }
{
    if book.holder.0 != by.0 {
        return End::NotHolder;
    }
    book.by_lock = false;
    End::Plain
}

// How a step of a member that is up ends; none of a command's but the reset.
fn play_asked(alloc: Global, spool: &mut Spool, by: MemberId, what: &Ask) -> Result<End, PlayError>
    requires sound { AreSound spool.old.queues }
    requires by { IsMember by }
    ensures sound { AreSound spool.new.queues }
    ensures named { IfOk result IsNamed }
{
    match what {
        Ask::Deck(cards) => play_deck(alloc, spool, by, cards),
        Ask::Command(Command::Reset { of }) => play_reset(alloc, spool, by, *of),
        Ask::Work(units) => play_entered(alloc, spool, by, Some(*units)),
        Ask::Lock => play_entered(alloc, spool, by, None),
        Ask::Free => Ok(play_free(&mut spool.members.book, by)),
        _ => Err(PlayError::Unplayed),
    }
}

// The lines of an operator's command with the lock.
fn play_locked(
    alloc: Global,
    spool: &mut Spool,
    by: MemberId,
    at: u32,
    given: &Command,
) -> Result<Lines, PlayError>
    requires sound { AreSound spool.old.queues }
    requires by { IsMember by }
    ensures { AreSound spool.new.queues }
{
    let reply = answer(alloc, &mut spool.queues, by, given)?;
    let lines = reply_lines(alloc, by, at, &reply);
    drop(reply);
    count(alloc, spool, by)?;
    Ok(lines?)
}

// The lines of an operator's command but the reset of a member.
fn play_given(
    alloc: Global,
    spool: &mut Spool,
    by: MemberId,
    at: u32,
    given: &Command,
) -> Result<Lines, PlayError>
    requires sound { AreSound spool.old.queues }
    requires by { IsMember by }
    ensures { AreSound spool.new.queues }
{
    match enter_lock(&mut spool.members, by, NOBODY)? {
        Some(end) => Ok(closed(alloc, by, at, end)?),
        None => play_locked(alloc, spool, by, at, given),
    }
}

// The lines of a step of a member that is up.
fn lines_of(
    alloc: Global,
    spool: &mut Spool,
    by: MemberId,
    at: u32,
    what: &Ask,
) -> Result<Lines, PlayError>
    requires sound { AreSound spool.old.queues }
    requires by { IsMember by }
    ensures { AreSound spool.new.queues }
{
    if let Ask::Command(given) = what {
        if !matches!(given, Command::Reset { .. }) {
            return play_given(alloc, spool, by, at, given);
        }
    }
    let end = play_asked(alloc, spool, by, what)?;
    Ok(closed(alloc, by, at, end)?)
}

// The commands of a step are kept, its lines are said, and then the lock is given up.
fn close(alloc: Global, spool: &mut Spool, by: MemberId, lines: &Lines) -> Result<(), PlayError>
    requires sound { AreSound spool.old.queues }
    requires by { IsMember by }
    ensures { AreSound spool.new.queues }
{
    keep(alloc, spool, by)?;
    let members = &mut spool.members;
    write(
        &mut members.console,
        &mut members.arms,
        by,
        Fuse::Any,
        lines,
    )?;
    end(&mut members.book, by);
    Ok(())
}

// A step of a member that is up.
fn play_up(
    alloc: Global,
    spool: &mut Spool,
    by: MemberId,
    at: u32,
    what: &Ask,
) -> Result<(), PlayError>
    requires sound { AreSound spool.old.queues }
    requires by { IsMember by }
    ensures { AreSound spool.new.queues }
{
    let lines = lines_of(alloc, spool, by, at, what)?;
    close(alloc, spool, by, &lines)
}

// The operator says how a member's step closes.
fn say_of(
    alloc: Global,
    console: &mut Lines,
    by: MemberId,
    at: u32,
    end: End,
) -> Result<(), PlayError>
    requires most { by.0 ≤ members_most }
    requires named { IsNamed end }
{
    let lines = closed(alloc, by, at, end)?;
    for line in 0..lines.len() {
        console.push(lines.line(line))?;
    }
    Ok(())
}

// A step of a member of the configuration. Where the member halts, the batch that it hadn't kept is gone, and it is
// stopped. It holds what it held.
fn play_member(
    alloc: Global,
    spool: &mut Spool,
    by: MemberId,
    at: u32,
    what: &Ask,
) -> Result<(), PlayError>
    requires sound { AreSound spool.old.queues }
    requires by { IsMember by }
    ensures { AreSound spool.new.queues }
{
    if is_stopped(&spool.members.book, by) {
        return say_of(alloc, &mut spool.members.console, by, at, End::Down);
    }
    let played = play_up(alloc, spool, by, at, what);
    let Err(PlayError::Halted) = played else {
        return played;
    };
    drop_batch(alloc, &mut spool.queues)?;
    spool.given = 0;
    stop(&mut spool.members.book, by);
    say_of(alloc, &mut spool.members.console, by, at, End::Stopped)
}

// A step of a member, if the configuration has it.
fn play_by(
    alloc: Global,
    spool: &mut Spool,
    by: MemberId,
    at: u32,
    what: &Ask,
) -> Result<(), PlayError>
    requires { AreSound spool.old.queues }
    ensures { AreSound spool.new.queues }
{
    if is_there(&spool.queues.queue.config, by) {
        return play_member(alloc, spool, by, at, what);
    }
    if by.0 > MEMBERS_MOST {
        return Err(PlayError::Unplayed);
    }
    let end = End::Refused(Refusal::NoMember);
    say_of(alloc, &mut spool.members.console, by, at, end)
}

// A stop of a member, or one that is armed for a member that is up, if the configuration has the member.
fn play_stop(spool: &mut Spool, member: MemberId, what: &Ask) -> Result<(), PlayError>
    requires { AreSound spool.old.queues }
    ensures { AreSound spool.new.queues }
{
    if !is_there(&spool.queues.queue.config, member) || is_stopped(&spool.members.book, member) {
        return Ok(());
    }
    if let Ask::StopIn(fuse, left) = what {
        let (fuse, left) = (*fuse, *left);
        spool.members.arms.push(Arm { member, fuse, left })?;
        return Ok(());
    }
    stop(&mut spool.members.book, member);
    Ok(())
}

/// A step: what it says, prints and does to the queue is added to the spool. The loss of a copy of the checkpoint does
/// nothing. `Unplayed` comes for that of a volume, and for lines that serve other nodes or replace a copy; NoMemory
/// only when out of memory. Halted never comes. After an error the step may have ended anywhere.
pub fn play_step(alloc: Global, spool: &mut Spool, at: u32, step: &Step) -> Result<(), PlayError>
    requires { AreSound spool.old.queues }
    ensures { AreSound spool.new.queues }
{
    match &step.what {
        Ask::Lose(Dev::Ckpt1 | Dev::Ckpt2) => Ok(()),
        Ask::Lose(_) | Ask::Line(_) | Ask::Replace(_) => Err(PlayError::Unplayed),
        Ask::Stop | Ask::StopIn(..) => play_stop(spool, step.by, &step.what),
        what => play_by(alloc, spool, step.by, at, what),
    }
}
