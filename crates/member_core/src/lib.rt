//! The members, the copies and the journal as plain data, under every order of events.
#![tactic(auto)]

pub mod acts;
pub mod batches;
pub mod crashes;
pub mod examples;
pub mod pair;
pub mod people;
pub mod renewing;
pub mod spools;
pub mod stages;
pub mod starts;
pub mod steps;
pub mod turns;
pub mod worlds;
pub mod writes;

ghost use Rattle.member_core.specs.Right.{EveryRunIsRight};
ghost use Rattle.member_core.specs.Told.{EveryRunHolds};

pub use steps::{no_run_loses, world_step};
pub use worlds::{At, CopyAt, Event, Inked, Left, MemberAt, Said, World};

/// Over a sound base every list of events leaves a world in which all of it holds.
pub fn every_run_holds()
    ensures { EveryRunHolds }
{}

/// Over a sound base every list of events leaves a right world: no copy reads anything but the kept entries, or those
/// and the ones in flight, and all that was told is kept.
pub fn every_run_is_right()
    ensures { EveryRunIsRight }
{}
