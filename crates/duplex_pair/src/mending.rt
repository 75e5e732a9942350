//! A copy that lags is brought up to the other.
ghost use Rattle.std.specs.Prelude.{◌≡◌, ◌⊎◌, ℕ, ◌≤◌, ◌<◌, List, length, OnOk, IsErrOf, true, false};
ghost use Rattle.mas_types.specs.declared.ids.Dev.TheVariants.{Ckpt1, Ckpt2};
ghost use Rattle.spool_plant.specs.View.{disk_now};
ghost use Rattle.ckpt_copy.specs.Meanwhile.{Meanwhile};
ghost use Rattle.ckpt_copy.specs.Pages.{bytes_of, level};
ghost use Rattle.ckpt_copy.specs.Reading.{EachReads};
ghost use Rattle.duplex_pair.specs.declared.errors.PairNo.TheVariants.{BothLost as PairNoBothLost};
ghost use Rattle.duplex_pair.specs.Halves.{IsCkpt, pick, other, Acted, IsGone, SomeAlive, IsBothLost, AreReady};
ghost use Rattle.duplex_pair.specs.Both.{PairActed, Touched, BothMeanwhile};
ghost use Rattle.duplex_pair.specs.Outcomes.{pair_stopped};
ghost use Rattle.duplex_pair.specs.Lagging.{Lags, room_mended};

use crate::errors::PairNo;
use crate::pages::{first_numbers, page_numbers, pages_level};
use crate::pair::Pair;
use ckpt_copy::Copying;
use mas_types::{Dev, MemberId, Page};
use spool_plant::Plant;

impl<C: Copying + Drop> Pair<C> {
    // One copy, which counts as alive, gets these pages, whichever of them differ.
    fn mend_copy<P: Plant>(
        &mut self,
        plant: &mut P,
        by: MemberId,
        dev: Dev,
        pages: &[Page],
    ) -> Result<(), PairNo>
        requires ckpt { IsCkpt dev }
        requires alive { (pick dev self.old.first self.old.second).alive ≡ true }
        requires ready { C.ready (pick dev self.old.first self.old.second).copy (P.view plant.old) }
        requires as_many { length pages.now ≡ C.count (pick dev self.old.first self.old.second).copy }
        requires room { 1 ≤ C.room (pick dev self.old.first self.old.second).copy }
        ensures other { other dev self.new.first self.new.second ≡ other dev self.old.first self.old.second }
        ensures count { C.count (pick dev self.new.first self.new.second).copy
            ≡ C.count (pick dev self.old.first self.old.second).copy }
        ensures room { OnOk result ((pick dev self.new.first self.new.second).alive ≡ true
            → C.room (pick dev self.new.first self.new.second).copy
            ≡ C.room_after (C.room (pick dev self.old.first self.old.second).copy)) }
        ensures acted { Acted by.0 dev true (pick dev self.new.first self.new.second).alive (pair_stopped result)
            (P.view plant.old) (P.view plant.new) }
        ensures ready { (pick dev self.new.first self.new.second).alive ≡ true
            → C.ready (pick dev self.new.first self.new.second).copy (P.view plant.new) }
        ensures gone { P.tells → IsGone dev true (pick dev self.new.first self.new.second).alive (P.view plant.new) }
        ensures during { P.tells → (was : List ℕ)
            → C.rests (pick dev self.old.first self.old.second).copy was (disk_now (P.view plant.old) dev)
            → level was < level (bytes_of pages.now)
            → Meanwhile dev (EachReads C.reads was (bytes_of pages.now)) (P.view plant.old) (P.view plant.new) }
        ensures mended { OnOk result (P.tells → (pick dev self.new.first self.new.second).alive ≡ true → (was : List ℕ)
            → C.rests (pick dev self.old.first self.old.second).copy was (disk_now (P.view plant.old) dev)
            → level was < level (bytes_of pages.now)
            → C.rests (pick dev self.new.first self.new.second).copy (bytes_of pages.now)
            (disk_now (P.view plant.new) dev)) }
        ensures both { IsErrOf result PairNoBothLost → IsBothLost self.new.first.alive self.new.second.alive }
        ensures ok { OnOk result (SomeAlive self.new.first.alive self.new.second.alive) }
    {
        let numbers = page_numbers();
        let all = first_numbers(&numbers, pages.len() as u16);
        self.put(plant, by, dev, pages, all)?;
        self.open_copy(plant, by, dev)
    }

    /// Brings the copy that lags up to the other: it gets these pages by a put and the opening of its gate. Each copy
    /// that counts as alive was looked at, and nothing was written to it since. One of them reads these pages; the
    /// other reads them too, or pages of a lower level.
    ///
    /// At each moment of the call an image of each such copy reads as before it or as these pages. After Ok each that
    /// still counts as alive reads as these pages. BothLost comes only where both copies count as lost at the end of
    /// the call, Halted only where the member was stopped in it.
    pub fn mend<P: Plant>(
        &mut self,
        plant: &mut P,
        by: MemberId,
        pages: &[Page],
    ) -> Result<(), PairNo>
        requires ready { AreReady C.ready self.old.first.copy self.old.second.copy self.old.first.alive
            self.old.second.alive (P.view plant.old) }
        requires one { ((self.old.first.alive ≡ true) × (self.old.first.found ≡ level (bytes_of pages.now)))
            ⊎ ((self.old.second.alive ≡ true) × (self.old.second.found ≡ level (bytes_of pages.now))) }
        requires less1 { self.old.first.alive ≡ true → self.old.first.found ≤ level (bytes_of pages.now) }
        requires less2 { self.old.second.alive ≡ true → self.old.second.found ≤ level (bytes_of pages.now) }
        requires as_many1 { self.old.first.alive ≡ true → length pages.now ≡ C.count self.old.first.copy }
        requires as_many2 { self.old.second.alive ≡ true → length pages.now ≡ C.count self.old.second.copy }
        requires room1 { self.old.first.alive ≡ true → self.old.first.found < level (bytes_of pages.now)
            → 1 ≤ C.room self.old.first.copy }
        requires room2 { self.old.second.alive ≡ true → self.old.second.found < level (bytes_of pages.now)
            → 1 ≤ C.room self.old.second.copy }
        ensures acted { PairActed by.0 self.old.first.alive self.new.first.alive self.old.second.alive
            self.new.second.alive (pair_stopped result) (P.view plant.old) (P.view plant.new) }
        ensures gone1 { P.tells → IsGone Ckpt1 self.old.first.alive self.new.first.alive (P.view plant.new) }
        ensures gone2 { P.tells → IsGone Ckpt2 self.old.second.alive self.new.second.alive (P.view plant.new) }
        ensures ready { AreReady C.ready self.new.first.copy self.new.second.copy self.new.first.alive
            self.new.second.alive (P.view plant.new) }
        ensures count1 { C.count self.new.first.copy ≡ C.count self.old.first.copy }
        ensures count2 { C.count self.new.second.copy ≡ C.count self.old.second.copy }
        ensures room1 { OnOk result (self.new.first.alive ≡ true
            → C.room self.new.first.copy ≡ room_mended C.room_after self.old.first.found (level (bytes_of pages.now))
            (C.room self.old.first.copy)) }
        ensures room2 { OnOk result (self.new.second.alive ≡ true
            → C.room self.new.second.copy ≡ room_mended C.room_after self.old.second.found (level (bytes_of pages.now))
            (C.room self.old.second.copy)) }
        ensures during { P.tells → (one two : List ℕ)
            → (self.old.first.alive ≡ true
            → Lags C.rests self.old.first.copy self.old.first.found one (bytes_of pages.now)
            (disk_now (P.view plant.old) Ckpt1))
            → (self.old.second.alive ≡ true
            → Lags C.rests self.old.second.copy self.old.second.found two (bytes_of pages.now)
            (disk_now (P.view plant.old) Ckpt2))
            → BothMeanwhile (Touched self.old.first.alive (EachReads C.reads one (bytes_of pages.now))
            (disk_now (P.view plant.old) Ckpt1))
            (Touched self.old.second.alive (EachReads C.reads two (bytes_of pages.now))
            (disk_now (P.view plant.old) Ckpt2)) (P.view plant.old) (P.view plant.new) }
        ensures mended1 { OnOk result (P.tells → self.new.first.alive ≡ true → (one two : List ℕ)
            → (self.old.first.alive ≡ true
            → Lags C.rests self.old.first.copy self.old.first.found one (bytes_of pages.now)
            (disk_now (P.view plant.old) Ckpt1))
            → (self.old.second.alive ≡ true
            → Lags C.rests self.old.second.copy self.old.second.found two (bytes_of pages.now)
            (disk_now (P.view plant.old) Ckpt2))
            → C.rests self.new.first.copy (bytes_of pages.now) (disk_now (P.view plant.new) Ckpt1)) }
        ensures mended2 { OnOk result (P.tells → self.new.second.alive ≡ true → (one two : List ℕ)
            → (self.old.first.alive ≡ true
            → Lags C.rests self.old.first.copy self.old.first.found one (bytes_of pages.now)
            (disk_now (P.view plant.old) Ckpt1))
            → (self.old.second.alive ≡ true
            → Lags C.rests self.old.second.copy self.old.second.found two (bytes_of pages.now)
            (disk_now (P.view plant.old) Ckpt2))
            → C.rests self.new.second.copy (bytes_of pages.now) (disk_now (P.view plant.new) Ckpt2)) }
        ensures both { IsErrOf result PairNoBothLost → IsBothLost self.new.first.alive self.new.second.alive }
        ensures ok { OnOk result (SomeAlive self.new.first.alive self.new.second.alive) }
    {
        let reached = pages_level(pages);
        if self.first.alive && self.first.found < reached {
            return self.mend_copy(plant, by, Dev::Ckpt1, pages);
        }
        if self.second.alive && self.second.found < reached {
            return self.mend_copy(plant, by, Dev::Ckpt2, pages);
        }
        Ok(())
    }
}
