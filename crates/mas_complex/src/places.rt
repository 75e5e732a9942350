//! How far a batch has come on a copy.
ghost use Rattle.mas_complex.specs.Names.{IsCkpt, other, pick};
ghost use Rattle.std.specs.Prelude.{◌≡◌};
ghost use Rattle.mas_complex.specs.Places.{IsPlaceAfter, IsAtLevel};
ghost use Rattle.mas_complex.specs.Seen.{IsPlaceSeen};

use ckpt_places::Place;
use duplex_pair::{Look, LookNo, PairNo, pages_level};
use mas_types::Dev;

// How far the batch has come after a call that brings it there.
pub(crate) fn place_after(done: &Result<(), PairNo>, there: Place) -> Place
    ensures { IsPlaceAfter done.now there result }
{
    match done {
        Ok(()) => there,
        Err(PairNo::BothLost) => there,
        Err(PairNo::Halted) => Place::Unsure,
    }
}

// How far the batch has come on the copy of one device.
pub(crate) fn set_place(dev: Dev, first: &mut Place, second: &mut Place, place: Place)
    requires { IsCkpt dev }
    ensures place { pick dev first.new second.new ≡ place }
    ensures other { other dev first.new second.new ≡ other dev first.old second.old }
{
    match dev {
        Dev::Ckpt1 => *first = place,
        Dev::Ckpt2 => *second = place,
        Dev::Spool(_) => unreachable!(),
    }
}

// Pages of the level reached don't have the batch in flight.
fn place_at(level: u64, reached: u64) -> Place
    ensures { IsAtLevel level reached result }
{
    if level == reached {
        Place::Before
    } else {
        Place::Opened
    }
}

// How far the batch in flight has come on a copy that was looked at.
pub(crate) fn place_seen(done: &Result<Look, LookNo>, reached: u64) -> Place
    ensures { IsPlaceSeen done.now reached result }
{
    match done {
        Ok(Look::Pages(pages)) => place_at(pages_level(pages.as_slice()), reached),
        Ok(Look::Lost) => Place::Unsure,
        Ok(Look::Unread) => Place::Unsure,
        Err(_) => Place::Unsure,
    }
}
