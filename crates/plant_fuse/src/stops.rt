//! The stops that a plant made.
ghost use Rattle.std.specs.Prelude.{◌≡◌, ◌≤◌, ℕ, length, replicate, slice_index};
ghost use Rattle.spool_plant.specs.Acts.{top};
ghost use Rattle.plant_fuse.specs.Closing.{halt_then};
ghost use Rattle.plant_fuse.specs.Counted.{counted};

use mas_types::MemberId;
use spool_plant::{Act, Plant};

/// The stops of each member, and when the last one was.
#[derive(Drop)]
pub struct Stops {
    /// The counts, by the members' numbers.
    pub counts: [u64; 256],
    /// The moment behind the last act that was halted, 0 where there was none.
    pub last: u64,
    ghost many: { length counts ≡ 256 },
    ghost fits: { (m : ℕ) → slice_index counts m ≤ top },
}

impl Stops {
    pub(crate) fn new() -> Stops
        ensures counts { result.counts ≡ replicate 256 0 }
        ensures last { result.last ≡ 0 }
    {
        Stops {
            counts: [0; 256],
            last: 0,
        }
    }

    // Counts one more stop of a member.
    pub(crate) fn count(&mut self, member: MemberId)
        ensures counts { self.new.counts ≡ counted self.old.counts member.0 }
        ensures last { self.new.last ≡ self.old.last }
    {
        let at = member.0 as usize;
        self.counts[at] = self.counts[at].saturating_add(1);
    }

    // Notes when an act ended that was halted.
    pub(crate) fn note<P: Plant>(&mut self, plant: &P, act: Act)
        ensures counts { self.new.counts ≡ self.old.counts }
        ensures last { self.new.last ≡ halt_then act self.old.last (P.view plant.now).now }
    {
        match act {
            Act::Done | Act::Failed => {}
            Act::Halted => self.last = plant.now(),
        }
    }
}
