//! Which copy counts at a start.
ghost use Rattle.std.specs.Prelude.{◌≡◌, IfOk};
ghost use Rattle.duplex_pair.specs.declared.errors.Look.TheVariants.{Pages};
ghost use Rattle.start_choice.specs.Usable.{AreOf};
ghost use Rattle.start_choice.specs.Choosing.{IsJudged, IsSomeJudged, IsFew, HasFew, is_lower, started, alone, chosen, goes};

use crate::sound_pages::usable;
use ckpt_tables::Tables;
use duplex_pair::{Look, pages_level};
use mas_complex::{fits, same_pages};
use mas_types::{Copied, CopyState, Dev, List, NoMemory, Page};
use std::alloc::Global;

/// Pages that a start may begin with, and the tables that they spell.
#[derive(Drop)]
pub struct Good {
    /// The pages of one copy.
    pub pages: List<Page>,
    /// The tables that the pages spell. They are sound.
    pub tables: Tables,
}

/// What a start makes of one copy.
#[derive(Drop)]
pub enum Judged {
    /// The copy can be used.
    Good(Good),
    /// The copy can't be used.
    Bad(CopyState),
}

/// What a start goes on with.
#[derive(Drop)]
pub struct Start {
    /// The copy that counts.
    pub dev: Dev,
    /// The pages of the copy that counts.
    pub found: Good,
    /// Whether the other copy stays. Else the start loses it.
    pub stays: bool,
}

/// Why a start has nothing to go on with.
#[derive(Clone, Copy)]
pub enum StartNo {
    /// No copy can be used, and not both are lost.
    NotFormatted {
        /// Why the first copy can't.
        first: CopyState,
        /// Why the second copy can't.
        second: CopyState,
    },
    /// Both copies are lost.
    BothLost,
    /// A device of the checkpoint is too small for the pages that were found, the first such.
    DeviceSize {
        /// The device.
        dev: Dev,
        /// How many bytes it has.
        size: u64,
    },
    /// There was no memory.
    NoMemory,
}

/// What a start makes of a copy that was looked at so: its pages can be used where they spell tables without a fault.
/// NoMemory comes only when out of memory.
pub fn judge(alloc: Global, look: Look) -> Result<Judged, NoMemory>
    ensures judged { IfOk result (IsJudged look) }
    ensures few { IfOk result HasFew }
{
    match look {
        Look::Lost => Ok(Judged::Bad(CopyState::Lost)),
        Look::Unread => Ok(Judged::Bad(CopyState::Unread)),
        Look::Pages(pages) => match usable(alloc, pages.as_slice())? {
            Some(tables) => Ok(Judged::Good(Good { pages, tables })),
            None => Ok(Judged::Bad(CopyState::Unsound)),
        },
    }
}

// What a start makes of these pages beside a copy that can be used.
fn judge_pages(alloc: Global, good: &Good, pages: List<Page>) -> Result<Judged, NoMemory>
    requires tables { AreOf good.now.pages good.now.tables }
    requires few { IsFew good.now }
    ensures judged { IfOk result (IsJudged (Pages pages)) }
    ensures few { IfOk result HasFew }
{
    if !same_pages(good.pages.as_slice(), pages.as_slice()) {
        return judge(alloc, Look::Pages(pages));
    }
    let tables = good.tables.copy(alloc)?;
    Ok(Judged::Good(Good { pages, tables }))
}

/// What a start makes of a copy that was looked at so, as `judge` has it, beside another copy that is judged. The same
/// pages are not judged again.
pub fn judge_beside(alloc: Global, one: &Judged, look: Look) -> Result<Judged, NoMemory>
    requires { IsSomeJudged one.now }
    ensures judged { IfOk result (IsJudged look) }
    ensures few { IfOk result HasFew }
{
    match one {
        Judged::Good(good) => match look {
            Look::Pages(pages) => judge_pages(alloc, good, pages),
            look => judge(alloc, look),
        },
        Judged::Bad(_) => judge(alloc, look),
    }
}

fn level_is_lower(one: &Good, two: &Good) -> bool
    ensures { result ≡ is_lower one.now two.now }
{
    pages_level(one.pages.as_slice()) < pages_level(two.pages.as_slice())
}

// Beside this copy the other one, which has so much room, stays where it fits.
fn start_beside(dev: Dev, found: Good, other: &Good, room: u8) -> Start
    requires few { IsFew found }
    ensures { result ≡ started dev found other.now room }
{
    let stays = fits(found.pages.as_slice(), other.pages.as_slice(), room);
    Start { dev, found, stays }
}

fn start_alone(dev: Dev, found: Good) -> Start
    ensures { result ≡ alone dev found }
{
    Start {
        dev,
        found,
        stays: false,
    }
}

/// The copy that counts: of those that can be used the one of greater level, the first on a tie. The other stays where
/// it can be used and fits, with so many puts possible on it. `BothLost` comes exactly where both are lost, and
/// `NotFormatted` where else neither can be used, with the reason of each.
pub fn choose(
    first: Judged,
    first_room: u8,
    second: Judged,
    second_room: u8,
) -> Result<Start, StartNo>
    requires first { HasFew first }
    requires second { HasFew second }
    ensures { result ≡ chosen first first_room second second_room }
{
    match (first, second) {
        (Judged::Good(one), Judged::Good(two)) => {
            if level_is_lower(&one, &two) {
                Ok(start_beside(Dev::Ckpt2, two, &one, first_room))
            } else {
                Ok(start_beside(Dev::Ckpt1, one, &two, second_room))
            }
        }
        (Judged::Good(one), Judged::Bad(_)) => Ok(start_alone(Dev::Ckpt1, one)),
        (Judged::Bad(_), Judged::Good(two)) => Ok(start_alone(Dev::Ckpt2, two)),
        (Judged::Bad(CopyState::Lost), Judged::Bad(CopyState::Lost)) => Err(StartNo::BothLost),
        (Judged::Bad(first), Judged::Bad(second)) => Err(StartNo::NotFormatted { first, second }),
    }
}

/// Whether a start loses this copy: the other one counts, and this one may not stay beside it.
pub fn is_to_go(start: &Start, dev: Dev) -> bool
    ensures { result ≡ goes dev start.now }
{
    match (dev, start.dev) {
        (Dev::Ckpt1, Dev::Ckpt2) | (Dev::Ckpt2, Dev::Ckpt1) => !start.stays,
        _ => false,
    }
}
