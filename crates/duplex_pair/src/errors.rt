//! How calls of a pair end.
ghost use Rattle.std.specs.Prelude.{◌≡◌};
ghost use Rattle.duplex_pair.specs.Outcomes.{pair_halted, find_no};

use mas_types::{List, Page};

/// The member was stopped inside the call: its count of stops rose.
#[derive(Clone, Copy)]
pub struct Halted;

/// Why a call on the pair wasn't done.
#[derive(Clone, Copy)]
pub enum PairNo {
    /// Both copies count as lost at the end of the call.
    BothLost,
    /// The member was stopped inside the call: its count of stops rose. What stands on the copies is known again after
    /// `find`.
    Halted,
}

impl From<Halted> for PairNo {
    ghost from_gives = { λ no e. e ≡ pair_halted };

    fn from(_no: Halted) -> PairNo {
        PairNo::Halted
    }
}

/// What one copy holds.
#[derive(Drop)]
pub enum Look {
    /// The device is lost.
    Lost,
    /// The copy reads as none.
    Unread,
    /// The pages that the copy reads as.
    Pages(List<Page>),
}

/// Why nothing is known of a copy.
#[derive(Clone, Copy)]
pub enum LookNo {
    /// The member was stopped inside the call: its count of stops rose.
    Halted,
    /// There was no memory for the pages.
    NoMemory,
}

/// Why no pages were found on a pair.
#[derive(Clone, Copy)]
pub enum PairFindNo {
    /// Both copies count as lost at the end of the call.
    BothLost,
    /// The member was stopped inside the call: its count of stops rose.
    Halted,
    /// A copy isn't lost, and none reads.
    NotValid,
    /// There was no memory for the pages.
    NoMemory,
}

impl From<LookNo> for PairFindNo {
    ghost from_gives = { λ no e. e ≡ find_no no };

    fn from(no: LookNo) -> PairFindNo {
        match no {
            LookNo::Halted => PairFindNo::Halted,
            LookNo::NoMemory => PairFindNo::NoMemory,
        }
    }
}
