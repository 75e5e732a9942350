//! A lost copy is replaced.
ghost use Rattle.mas_complex.specs.Names.{Ckpt1, Ckpt2, disk_now, Rose, top, Disk, bytes_of, NotLost, ReplaceNoBothLost as BothLost, Failed, ReplaceNoHalted as Halted, IsCkpt, pick, other, IsBothLost, Replaces, IsFormed, replace_stopped, Before as AtBefore};
ghost use Rattle.std.specs.Prelude.{◌≡◌, ◌⊎◌, ◌≤◌, ◌<◌, ◌&&◌, not, Some, None, length, true, false, OnOk, OnErr, IsErrOf};
ghost use Rattle.mas_complex.specs.Elsewhere.{Elsewhere};
ghost use Rattle.mas_complex.specs.Locking.{MayAct};
ghost use Rattle.mas_complex.specs.Parts.{half_beside, half_on, parts_of, place_beside, replaced_in, with_half};
ghost use Rattle.mas_complex.specs.Renewals.{begun_on, ended_on, is_open, of_device};

use crate::complex::Complex;
use crate::places::set_place;
use crate::renewals::{begin_on, end_on};
use ckpt_form::Steady;
use ckpt_places::Place;
use mas_types::{Dev, MemberId, NoMemory, Page};
use pair_replacing::{ReplaceNo, replace};
use spool_plant::Plant;

impl<P: Plant + Drop, C: Steady + Drop> Complex<P, C> {
    // Neither copy counts as alive.
    fn are_both_lost(&self) -> bool
        ensures { result ≡ (not self.now.pair.first.alive && not self.now.pair.second.alive) }
    {
        !self.pair.first.alive && !self.pair.second.alive
    }

    // From now on the copy on a device, which counts as lost, is being replaced.
    fn begin_renewal(&mut self, dev: Dev) -> Result<(), NoMemory>
        requires ckpt { IsCkpt dev }
        requires dead { (half_on dev self.old).alive ≡ false }
        ensures pair { self.new.pair ≡ self.old.pair }
        ensures plant { self.new.plant ≡ self.old.plant }
        ensures places { (self.new.first ≡ self.old.first) × (self.new.second ≡ self.old.second) }
        ensures ok { OnOk result (parts_of self.new ≡ record (parts_of self.old)
            { renewals = begun_on dev (P.view self.old.plant).now self.old.renewals }) }
        ensures err { OnErr result (parts_of self.new ≡ parts_of self.old) }
        ensures most { (P.view self.old.plant).now ≤ top }
    {
        let from = self.plant.now();
        begin_on(&mut self.renewals, dev, from)
    }

    // Another device takes the place of a lost copy's, and a copy of the pages is formed on it: those that the other
    // copy reads, which is as before any batch.
    fn renew_copy(&mut self, by: MemberId, dev: Dev, pages: &[Page]) -> Result<(), ReplaceNo>
        requires ckpt { IsCkpt dev }
        requires dead { (half_on dev self.old).alive ≡ false }
        requires most { (P.view self.old.plant).now ≤ top }
        requires began { (P.view self.old.plant).now < top → is_open (of_device dev self.old.renewals) ≡ true }
        requires beside { (half_beside dev self.old).alive ≡ true }
        requires place { place_beside dev self.old ≡ AtBefore }
        requires as_many { length pages.now ≡ C.count (half_beside dev self.old).copy }
        requires size { C.needs (length pages.now) ≤ (P.view self.old.plant).size dev }
        requires reads { P.tells → C.reads (disk_now (P.view self.old.plant) (other dev Ckpt1 Ckpt2)).bytes
            ≡ Some (bytes_of pages.now) }
        ensures ok { OnOk result (parts_of self.new ≡ record (with_half dev (parts_of self.new) (parts_of self.old)) {
          first = pick dev AtBefore self.old.first;
          second = other dev AtBefore self.old.second;
          renewals = ended_on dev (P.view self.new.plant).now self.old.renewals;
        }) }
        ensures err { OnErr result (parts_of self.new ≡ record (parts_of self.old) { plant = self.new.plant }) }
        ensures other { half_beside dev self.new ≡ half_beside dev self.old }
        ensures acted { OnErr result (IsErrOf result Failed ⊎ IsErrOf result Halted) }
        ensures replaces { Replaces by.0 dev (replace_stopped result) (P.view self.old.plant) (P.view self.new.plant) }
        ensures failed { IsErrOf result Failed
            → Rose ((P.view self.old.plant).faults (Disk dev)) ((P.view self.new.plant).faults (Disk dev)) }
        ensures lost { IsErrOf result Failed → (P.view self.new.plant).lost (Disk dev) ≡ true }
        ensures formed { OnOk result (((half_on dev self.new).alive ≡ true)
            × IsFormed C.count C.room C.room_most C.ready (length pages.now) dev (P.view self.new.plant)
            (half_on dev self.new).copy) }
        ensures reads { OnOk result (P.tells
            → C.reads (disk_now (P.view self.new.plant) dev).bytes ≡ Some (bytes_of pages.now)) }
        ensures elsewhere { P.tells → Elsewhere dev (P.view self.old.plant) (P.view self.new.plant) }
    {
        replace(&mut self.pair, &mut self.plant, by, dev, pages)?;
        let until = self.plant.now();
        end_on(&mut self.renewals, dev, until);
        set_place(dev, &mut self.first, &mut self.second, Place::Before);
        Ok(())
    }

    /// Puts another device in the place of a lost copy's, and makes a copy of these pages on it: those that the other
    /// copy reads, where it counts as alive. The member holds the lock and isn't stopped, and nothing may be in flight.
    ///
    /// The new copy counts as alive, and is good, from the end of a call that answers Ok: then its VALID gate is open.
    /// Up to there it isn't good, at no moment of the call, and it isn't after Failed or Halted; then its device may be
    /// replaced again. A crash at any moment of the call leaves what the other copy reads.
    ///
    /// NotLost comes exactly where the copy counts as alive, and BothLost exactly where neither does; NoMemory before
    /// the first act. Nothing is changed then. Failed comes only where the device's faults rose, and it is lost then;
    /// Halted only where the member was stopped in it.
    #[tactic(auto, using(crate::proofs::Renewing::replaces_none, crate::proofs::Renewing::elsewhere_none))]
    pub fn replace(&mut self, by: MemberId, dev: Dev, pages: &[Page]) -> Result<(), ReplaceNo>
        requires may { MayAct self.old.book by }
        requires ckpt { IsCkpt dev }
        requires none { self.old.current ≡ None }
        requires place { (half_beside dev self.old).alive ≡ true → place_beside dev self.old ≡ AtBefore }
        requires as_many { (half_beside dev self.old).alive ≡ true
            → length pages.now ≡ C.count (half_beside dev self.old).copy }
        requires size { C.needs (length pages.now) ≤ (P.view self.old.plant).size dev }
        requires reads { P.tells → (half_beside dev self.old).alive ≡ true → C.reads (disk_now (P.view self.old.plant)
            (other dev Ckpt1 Ckpt2)).bytes ≡ Some (bytes_of pages.now) }
        ensures frame { parts_of self.new ≡ replaced_in result dev (P.view self.old.plant).now
            (P.view self.new.plant).now (parts_of self.new) (parts_of self.old) }
        ensures other { half_beside dev self.new ≡ half_beside dev self.old }
        ensures alive { (half_on dev self.old).alive ≡ true → IsErrOf result NotLost }
        ensures not_lost { IsErrOf result NotLost → (half_on dev self.old).alive ≡ true }
        ensures dead { IsBothLost self.old.pair.first.alive self.old.pair.second.alive → IsErrOf result BothLost }
        ensures both { IsErrOf result BothLost → IsBothLost self.old.pair.first.alive self.old.pair.second.alive }
        ensures replaces { Replaces by.0 dev (replace_stopped result) (P.view self.old.plant) (P.view self.new.plant) }
        ensures failed { IsErrOf result Failed
            → Rose ((P.view self.old.plant).faults (Disk dev)) ((P.view self.new.plant).faults (Disk dev)) }
        ensures lost { IsErrOf result Failed → (P.view self.new.plant).lost (Disk dev) ≡ true }
        ensures formed { OnOk result (((half_on dev self.new).alive ≡ true)
            × IsFormed C.count C.room C.room_most C.ready (length pages.now) dev (P.view self.new.plant)
            (half_on dev self.new).copy) }
        ensures reads { OnOk result (P.tells
            → C.reads (disk_now (P.view self.new.plant) dev).bytes ≡ Some (bytes_of pages.now)) }
        ensures elsewhere { P.tells → Elsewhere dev (P.view self.old.plant) (P.view self.new.plant) }
    {
        if self.pair.alive(dev) {
            return Err(ReplaceNo::NotLost);
        }
        if self.are_both_lost() {
            return Err(ReplaceNo::BothLost);
        }
        self.begin_renewal(dev)?;
        self.renew_copy(by, dev, pages)
    }
}
