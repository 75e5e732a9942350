//! Stops that are armed.
ghost use Rattle.mas_complex.specs.Names.{Arms};
ghost use Rattle.std.specs.Prelude.{◌≡◌};
ghost use Rattle.mas_complex.specs.Parts.{parts_of};

use crate::complex::Complex;
use ckpt_form::Steady;
use mas_types::MemberId;
use spool_plant::{Fuse, Plant};

impl<P: Plant + Drop, C: Steady + Drop> Complex<P, C> {
    /// Arms a stop of a member: its `n`-th act from now, or its `n`-th print, is to halt, where the plant can halt
    /// members. An `n` of 0 arms nothing. It is no act: nothing that the plant shows changes but the count of such
    /// calls, and all else is as it was. Whoever holds the lock, and whatever is in flight, it may be called.
    pub fn arm(&mut self, member: MemberId, fuse: Fuse, n: u32)
        ensures pair { self.new.pair ≡ self.old.pair }
        ensures arms { Arms member.0 (P.view self.old.plant) (P.view self.new.plant) }
        ensures frame { parts_of self.new ≡ record (parts_of self.old) { plant = self.new.plant } }
    {
        self.plant.arm(member, fuse, n);
    }
}
