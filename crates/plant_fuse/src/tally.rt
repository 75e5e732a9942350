//! What is counted of members.
ghost use Rattle.std.specs.Prelude.{◌≡◌, ◌≤◌, ℕ, length, replicate, slice_index};
ghost use Rattle.spool_plant.specs.Acts.{top};
ghost use Rattle.plant_fuse.specs.Counted.{counted};

use mas_types::MemberId;

/// A count for each member.
#[derive(Drop)]
pub struct Tally {
    /// The counts, by the members' numbers.
    pub counts: [u64; 256],
    ghost many: { length counts ≡ 256 },
    ghost fits: { (m : ℕ) → slice_index counts m ≤ top },
}

impl Tally {
    pub(crate) fn new() -> Tally
        ensures { result.counts ≡ replicate 256 0 }
    {
        Tally { counts: [0; 256] }
    }

    // Counts one more act of a member.
    pub(crate) fn count(&mut self, member: MemberId)
        ensures { self.new.counts ≡ counted self.old.counts member.0 }
    {
        let at = member.0 as usize;
        self.counts[at] = self.counts[at].saturating_add(1);
    }
}
