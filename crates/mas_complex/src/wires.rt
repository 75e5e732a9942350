//! Bytes on wires.
ghost use Rattle.mas_complex.specs.Names.{Acts, FitsInto, GivesOn, Takes, act_of, Wire};
ghost use Rattle.std.specs.Prelude.{◌≡◌, length};
ghost use Rattle.mas_complex.specs.Locking.{IsUp};
ghost use Rattle.mas_complex.specs.Parts.{parts_of};

use crate::complex::Complex;
use ckpt_form::Steady;
use mas_types::MemberId;
use spool_plant::{Act, Plant, Took};

impl<P: Plant + Drop, C: Steady + Drop> Complex<P, C> {
    /// Gives bytes on a wire, by a member that isn't stopped. Halted and Failed may have given the first of them.
    pub fn give(&mut self, by: MemberId, wire: u8, bytes: &[u8]) -> Act
        requires up { IsUp self.old.book by }
        ensures frame { parts_of self.new ≡ record (parts_of self.old) { plant = self.new.plant } }
        ensures acts { Acts by.0 (Wire wire) (P.view self.old.plant) (P.view self.new.plant) result }
        ensures content { P.tells
            → GivesOn wire by.0 bytes.now (P.view self.old.plant) (P.view self.new.plant) result }
    {
        self.plant.give(by, wire, bytes)
    }

    /// Takes the first bytes that wait on a wire, by a member that isn't stopped. None come only where none wait or
    /// there is no room for them. Halted and Failed take none.
    pub fn take(&mut self, by: MemberId, wire: u8, into: &mut [u8]) -> Took
        requires up { IsUp self.old.book by }
        ensures frame { parts_of self.new ≡ record (parts_of self.old) { plant = self.new.plant } }
        ensures acts { Acts by.0 (Wire wire) (P.view self.old.plant) (P.view self.new.plant) (act_of result) }
        ensures fits { FitsInto (length into.old) result }
        ensures content { P.tells
            → Takes wire by.0 (P.view self.old.plant) (P.view self.new.plant) into.new result }
    {
        self.plant.take(by, wire, into)
    }
}
