//! A deck's acts without the lock: its text goes into the groups that were taken for its job.
ghost use Rattle.std.specs.Prelude.{◌≡◌};
ghost use Rattle.member_sittings.specs.Asides.{MaySpoolDeck, SpoolsDeck, found_as, finds_of};

use job_outcome::Read;
use mas_complex::{Complex, Steady};
use mas_types::{Lines, List};
use member_decks::SpoolError;
use member_node::{Member, NodeNo};
use member_opening::spool_text;
use spool_plant::Plant;
use spool_text::groups_needed;
use std::alloc::Global;
use step_turns::Found;
use track_groups::held_by;

/// What a member found that read a text, looked whether a volume is lost, and perhaps found its printer lost.
pub fn found_with(alloc: Global, read: Read, lost: Option<u8>, printer: bool) -> Found
    ensures { result ≡ found_as read lost printer }
{
    Found {
        read,
        lost,
        printer,
        wire: false,
        frames: List::new(alloc),
    }
}

/// What a member found that wrote texts, by the answer of the acts.
pub fn found_by(alloc: Global, written: Result<(), SpoolError>) -> Result<Found, NodeNo>
    ensures { result ≡ finds_of written }
{
    let none = Read::Lines(Lines::new(alloc));
    match written {
        Ok(()) => Ok(found_with(alloc, none, None, false)),
        Err(SpoolError::Lost(volume)) => Ok(found_with(alloc, none, Some(volume), false)),
        Err(SpoolError::Halted) => Err(NodeNo::Halted),
    }
}

/// Writes a deck's text into the lowest groups of the member, as many as it needs, and syncs the volumes on which they
/// lie. It needs no lock: whoever holds it, the book, the copies and the journal are as they were. Answers the volume
/// that was found lost, if one was.
///
/// NoMemory leaves all as it was. Halted comes only where the member was stopped.
pub fn spool_deck<P: Plant + Drop, C: Steady + Drop>(
    member: &Member,
    alloc: Global,
    complex: &mut Complex<P, C>,
    text: &Lines,
) -> Result<Found, NodeNo>
    requires { MaySpoolDeck complex.old member.now text.now }
    ensures { SpoolsDeck complex.old complex.new member.now text.now result }
{
    let by = member.id;
    let Ok(held) = held_by(alloc, member.checkpoint.tables.owners.as_slice(), by) else {
        return Err(NodeNo::NoMemory);
    };
    let groups = groups_needed(text);
    found_by(
        alloc,
        spool_text(complex, by, &held.as_slice()[..groups as usize], text),
    )
}
