//! Lines on the console.
ghost use Rattle.mas_complex.specs.Names.{MemberId, Dev, disk_now, Acts, Says, Console};
ghost use Rattle.std.specs.Prelude.{◌≡◌, ◌++◌, ℕ};
ghost use Rattle.mas_complex.specs.Journals.{in_flight, StepIsKept};
ghost use Rattle.mas_complex.specs.Meaning.{Closes};
ghost use Rattle.mas_complex.specs.Locking.{IsUp};
ghost use Rattle.mas_complex.specs.Parts.{parts_of};

use crate::complex::Complex;
use ckpt_form::Steady;
use mas_types::MemberId;
use spool_plant::{Act, Plant};

impl<P: Plant + Drop, C: Steady + Drop> Complex<P, C> {
    /// Says a line on the console, of a member that isn't stopped. One that tells a step may be said once each entry of
    /// the step is kept.
    pub fn say(&mut self, by: MemberId, line: &[u8]) -> Act
        requires up { IsUp self.old.book by }
        requires told { P.tells → (m : MemberId) (s : ℕ) → Closes line.now m s
            → StepIsKept (self.old.journal.batches ++ in_flight self.old.current) (P.view self.old.plant).now m s }
        ensures pair { self.new.pair ≡ self.old.pair }
        ensures base { self.new.base ≡ self.old.base }
        ensures since { self.new.since ≡ self.old.since }
        ensures renewals { self.new.renewals ≡ self.old.renewals }
        ensures printed { self.new.printed ≡ self.old.printed }
        ensures book { self.new.book ≡ self.old.book }
        ensures journal { self.new.journal ≡ self.old.journal }
        ensures current { self.new.current ≡ self.old.current }
        ensures reserved { self.new.reserved ≡ self.old.reserved }
        ensures placed { self.new.placed ≡ self.old.placed }
        ensures first { self.new.first ≡ self.old.first }
        ensures second { self.new.second ≡ self.old.second }
        ensures level { self.new.level ≡ self.old.level }
        ensures acts { Acts by.0 Console (P.view self.old.plant) (P.view self.new.plant) result }
        ensures disks { P.tells → (d : Dev) → disk_now (P.view self.new.plant) d ≡ disk_now (P.view self.old.plant) d }
        ensures content { P.tells → Says line.now (P.view self.old.plant) (P.view self.new.plant) result }
        ensures frame { parts_of self.new ≡ record (parts_of self.old) { plant = self.new.plant } }
    {
        self.plant.say(by, line)
    }
}
