//! The two copies.
ghost use Rattle.std.specs.Prelude.{◌≡◌, ◌⊎◌, ℕ, ◌+◌, ◌≤◌, ◌<◌, List, [], length, OnOk, OnErr, IfOk, IsErrOf, Some, true, false, if◌then◌else◌, min};
ghost use Rattle.mas_types.specs.declared.ids.Dev.{Dev};
ghost use Rattle.mas_types.specs.declared.ids.Dev.TheVariants.{Ckpt1, Ckpt2};
ghost use Rattle.mas_types.specs.Limits.{pages_least, pages_most};
ghost use Rattle.spool_plant.specs.View.{View, disk_now};
ghost use Rattle.spool_plant.specs.Acts.{Loses};
ghost use Rattle.spool_plant.specs.declared.plant.Part.TheVariants.{Disk};
ghost use Rattle.ckpt_copy.specs.Changes.{NoMore};
ghost use Rattle.ckpt_copy.specs.Meanwhile.{Meanwhile};
ghost use Rattle.ckpt_copy.specs.Pages.{bytes_of, level, page_in, ArePages, Covers};
ghost use Rattle.ckpt_copy.specs.Reading.{AllRead, EachReads, EachForms};
ghost use Rattle.duplex_pair.specs.declared.errors.PairNo.TheVariants.{BothLost as PairNoBothLost, Halted as PairNoHalted};
ghost use Rattle.duplex_pair.specs.Halves.{IsCkpt, pick, other, Acted, IsGone, SameOrLost, SomeAlive, IsBothLost, AreReady};
ghost use Rattle.duplex_pair.specs.Lagging.{IsLevelFound};
ghost use Rattle.duplex_pair.specs.Looks.{HasRoom, WasSeen};
ghost use Rattle.duplex_pair.specs.ActCounts.{after_acts, read_acts};
ghost use Rattle.duplex_pair.specs.Both.{PairActed, Touched, BothMeanwhile};
ghost use Rattle.duplex_pair.specs.Outcomes.{half_stopped, pair_stopped, look_stopped, least_room};

use crate::errors::{Halted, Look, LookNo, PairNo};
use crate::half::Half;
use ckpt_copy::Copying;
use mas_types::{Dev, MemberId, Page};
use spool_plant::Plant;
use std::alloc::Global;

/// The copies on CKPT1 and on CKPT2.
#[derive(Drop)]
pub struct Pair<C: Copying + Drop> {
    /// The copy on CKPT1.
    pub first: Half<C>,
    /// The copy on CKPT2.
    pub second: Half<C>,

    ghost first_dev: { C.dev first.copy ≡ Ckpt1 },

    ghost second_dev: { C.dev second.copy ≡ Ckpt2 },
}

impl<C: Copying + Drop> Pair<C> {
    /// A pair of a copy on CKPT1 and a copy on CKPT2. Both count as alive.
    pub fn new(first: C, second: C) -> Pair<C>
        requires first_dev { C.dev first ≡ Ckpt1 }
        requires second_dev { C.dev second ≡ Ckpt2 }
        ensures first { result.first.copy ≡ first }
        ensures second { result.second.copy ≡ second }
        ensures alive { (result.first.alive ≡ true) × (result.second.alive ≡ true) }
    {
        Pair {
            first: Half {
                copy: first,
                alive: true,
                found: 0,
            },
            second: Half {
                copy: second,
                alive: true,
                found: 0,
            },
        }
    }

    /// Whether the copy on this device counts as alive.
    pub fn alive(&self, dev: Dev) -> bool
        requires ckpt { IsCkpt dev }
        ensures { result ≡ (pick dev self.now.first self.now.second).alive }
    {
        match dev {
            Dev::Ckpt1 => self.first.alive,
            Dev::Ckpt2 => self.second.alive,
            Dev::Spool(_) => unreachable!(),
        }
    }

    /// The puts possible before a settle: the least of the copies that count as alive, 0 where none does.
    pub fn room(&self) -> u8
        ensures { result ≡ least_room self.now.first.alive self.now.second.alive (C.room self.now.first.copy)
            (C.room self.now.second.copy) }
    {
        match (self.first.alive, self.second.alive) {
            (true, true) => self.first.copy.room().min(self.second.copy.room()),
            (true, false) => self.first.copy.room(),
            (false, true) => self.second.copy.room(),
            (false, false) => 0,
        }
    }

    // How a call on one of the copies ends for the pair.
    fn verdict(&self, done: Result<(), Halted>) -> Result<(), PairNo>
        ensures halted { pair_stopped result ≡ half_stopped done }
        ensures both { IsErrOf result PairNoBothLost → IsBothLost self.now.first.alive self.now.second.alive }
        ensures ok { OnOk result (SomeAlive self.now.first.alive self.now.second.alive) }
        ensures done { OnOk result (half_stopped done ≡ false) }
    {
        done?;
        if !self.first.alive && !self.second.alive {
            return Err(PairNo::BothLost);
        }
        Ok(())
    }

    fn put_half<P: Plant>(
        &mut self,
        plant: &mut P,
        by: MemberId,
        dev: Dev,
        pages: &[Page],
        changed: &[u16],
    ) -> Result<(), Halted>
        requires ckpt { IsCkpt dev }
        requires ready { (pick dev self.old.first self.old.second).alive ≡ true
            → C.ready (pick dev self.old.first self.old.second).copy (P.view plant.old) }
        requires as_many { (pick dev self.old.first self.old.second).alive ≡ true
            → length pages.now ≡ C.count (pick dev self.old.first self.old.second).copy }
        requires room { (pick dev self.old.first self.old.second).alive ≡ true
            → 1 ≤ C.room (pick dev self.old.first self.old.second).copy }
        requires changed { (pick dev self.old.first self.old.second).alive ≡ true
            → ArePages (C.count (pick dev self.old.first self.old.second).copy) changed.now }
        ensures other { other dev self.new.first self.new.second ≡ other dev self.old.first self.old.second }
        ensures count { C.count (pick dev self.new.first self.new.second).copy
            ≡ C.count (pick dev self.old.first self.old.second).copy }
        ensures room { C.room (pick dev self.new.first self.new.second).copy
            ≡ C.room (pick dev self.old.first self.old.second).copy }
        ensures acted { Acted by.0 dev (pick dev self.old.first self.old.second).alive
            (pick dev self.new.first self.new.second).alive (half_stopped result) (P.view plant.old)
            (P.view plant.new) }
        ensures idle { (pick dev self.old.first self.old.second).alive ≡ false → plant.new ≡ plant.old }
        ensures ready { (pick dev self.old.first self.old.second).alive ≡ true
            → C.ready (pick dev self.new.first self.new.second).copy (P.view plant.new) }
        ensures there { OnOk result ((pick dev self.new.first self.new.second).alive ≡ true
            → (P.view plant.new).lost (Disk dev) ≡ false) }
        ensures gone { P.tells → IsGone dev (pick dev self.old.first self.old.second).alive
            (pick dev self.new.first self.new.second).alive (P.view plant.new) }
        ensures during { P.tells → (was : List ℕ)
            → ((pick dev self.old.first self.old.second).alive ≡ true
            → C.rests (pick dev self.old.first self.old.second).copy was (disk_now (P.view plant.old) dev))
            → Meanwhile dev (Touched (pick dev self.old.first self.old.second).alive (AllRead C.reads was)
            (disk_now (P.view plant.old) dev)) (P.view plant.old) (P.view plant.new) }
        ensures held { OnOk result (P.tells → (pick dev self.new.first self.new.second).alive ≡ true → (was : List ℕ)
            → C.rests (pick dev self.old.first self.old.second).copy was (disk_now (P.view plant.old) dev)
            → level was < level (bytes_of pages.now)
            → Covers (C.count (pick dev self.old.first self.old.second).copy) changed.now was (bytes_of pages.now)
            → C.holds (pick dev self.new.first self.new.second).copy was (bytes_of pages.now)
            (disk_now (P.view plant.new) dev)) }
    {
        match dev {
            Dev::Ckpt1 => self.first.put(plant, by, pages, changed),
            Dev::Ckpt2 => self.second.put(plant, by, pages, changed),
            Dev::Spool(_) => unreachable!(),
        }
    }

    /// Writes the next pages of one copy behind its closed gate, and syncs them. `changed` are the numbers of the pages
    /// that differ from what the copy reads. On a copy that counts as lost nothing is done.
    ///
    /// At each moment of the call each image of the copy reads as before it, and the other copy stays as it is.
    /// BothLost comes only where both copies count as lost at the end of the call, Halted only where the member was
    /// stopped in it.
    pub fn put<P: Plant>(
        &mut self,
        plant: &mut P,
        by: MemberId,
        dev: Dev,
        pages: &[Page],
        changed: &[u16],
    ) -> Result<(), PairNo>
        requires ckpt { IsCkpt dev }
        requires ready { (pick dev self.old.first self.old.second).alive ≡ true
            → C.ready (pick dev self.old.first self.old.second).copy (P.view plant.old) }
        requires as_many { (pick dev self.old.first self.old.second).alive ≡ true
            → length pages.now ≡ C.count (pick dev self.old.first self.old.second).copy }
        requires room { (pick dev self.old.first self.old.second).alive ≡ true
            → 1 ≤ C.room (pick dev self.old.first self.old.second).copy }
        requires changed { (pick dev self.old.first self.old.second).alive ≡ true
            → ArePages (C.count (pick dev self.old.first self.old.second).copy) changed.now }
        ensures other { other dev self.new.first self.new.second ≡ other dev self.old.first self.old.second }
        ensures count { C.count (pick dev self.new.first self.new.second).copy
            ≡ C.count (pick dev self.old.first self.old.second).copy }
        ensures room { C.room (pick dev self.new.first self.new.second).copy
            ≡ C.room (pick dev self.old.first self.old.second).copy }
        ensures acted { Acted by.0 dev (pick dev self.old.first self.old.second).alive
            (pick dev self.new.first self.new.second).alive (pair_stopped result) (P.view plant.old)
            (P.view plant.new) }
        ensures idle { (pick dev self.old.first self.old.second).alive ≡ false → plant.new ≡ plant.old }
        ensures ready { (pick dev self.old.first self.old.second).alive ≡ true
            → C.ready (pick dev self.new.first self.new.second).copy (P.view plant.new) }
        ensures there { OnOk result ((pick dev self.new.first self.new.second).alive ≡ true
            → (P.view plant.new).lost (Disk dev) ≡ false) }
        ensures gone { P.tells → IsGone dev (pick dev self.old.first self.old.second).alive
            (pick dev self.new.first self.new.second).alive (P.view plant.new) }
        ensures during { P.tells → (was : List ℕ)
            → ((pick dev self.old.first self.old.second).alive ≡ true
            → C.rests (pick dev self.old.first self.old.second).copy was (disk_now (P.view plant.old) dev))
            → Meanwhile dev (Touched (pick dev self.old.first self.old.second).alive (AllRead C.reads was)
            (disk_now (P.view plant.old) dev)) (P.view plant.old) (P.view plant.new) }
        ensures held { OnOk result (P.tells → (pick dev self.new.first self.new.second).alive ≡ true → (was : List ℕ)
            → C.rests (pick dev self.old.first self.old.second).copy was (disk_now (P.view plant.old) dev)
            → level was < level (bytes_of pages.now)
            → Covers (C.count (pick dev self.old.first self.old.second).copy) changed.now was (bytes_of pages.now)
            → C.holds (pick dev self.new.first self.new.second).copy was (bytes_of pages.now)
            (disk_now (P.view plant.new) dev)) }
        ensures both { IsErrOf result PairNoBothLost → IsBothLost self.new.first.alive self.new.second.alive }
        ensures ok { OnOk result (SomeAlive self.new.first.alive self.new.second.alive) }
    {
        let done = self.put_half(plant, by, dev, pages, changed);
        self.verdict(done)
    }

    fn open_half<P: Plant>(&mut self, plant: &mut P, by: MemberId, dev: Dev) -> Result<(), Halted>
        requires ckpt { IsCkpt dev }
        requires ready { (pick dev self.old.first self.old.second).alive ≡ true
            → C.ready (pick dev self.old.first self.old.second).copy (P.view plant.old) }
        requires room { (pick dev self.old.first self.old.second).alive ≡ true
            → 1 ≤ C.room (pick dev self.old.first self.old.second).copy }
        ensures other { other dev self.new.first self.new.second ≡ other dev self.old.first self.old.second }
        ensures count { C.count (pick dev self.new.first self.new.second).copy
            ≡ C.count (pick dev self.old.first self.old.second).copy }
        ensures room { OnOk result ((pick dev self.new.first self.new.second).alive ≡ true
            → C.room (pick dev self.new.first self.new.second).copy
            ≡ C.room_after (C.room (pick dev self.old.first self.old.second).copy)) }
        ensures acted { Acted by.0 dev (pick dev self.old.first self.old.second).alive
            (pick dev self.new.first self.new.second).alive (half_stopped result) (P.view plant.old)
            (P.view plant.new) }
        ensures idle { (pick dev self.old.first self.old.second).alive ≡ false → plant.new ≡ plant.old }
        ensures ready { (pick dev self.old.first self.old.second).alive ≡ true
            → C.ready (pick dev self.new.first self.new.second).copy (P.view plant.new) }
        ensures there { OnOk result ((pick dev self.new.first self.new.second).alive ≡ true
            → (P.view plant.new).lost (Disk dev) ≡ false) }
        ensures gone { P.tells → IsGone dev (pick dev self.old.first self.old.second).alive
            (pick dev self.new.first self.new.second).alive (P.view plant.new) }
        ensures during { P.tells → (was next : List ℕ)
            → ((pick dev self.old.first self.old.second).alive ≡ true
            → C.holds (pick dev self.old.first self.old.second).copy was next (disk_now (P.view plant.old) dev))
            → Meanwhile dev (Touched (pick dev self.old.first self.old.second).alive (EachReads C.reads was next)
            (disk_now (P.view plant.old) dev)) (P.view plant.old) (P.view plant.new) }
        ensures opened { OnOk result (P.tells → (pick dev self.new.first self.new.second).alive ≡ true
            → (was next : List ℕ) → C.holds (pick dev self.old.first self.old.second).copy was next
            (disk_now (P.view plant.old) dev)
            → C.rests (pick dev self.new.first self.new.second).copy next (disk_now (P.view plant.new) dev)) }
    {
        match dev {
            Dev::Ckpt1 => self.first.open_gate(plant, by),
            Dev::Ckpt2 => self.second.open_gate(plant, by),
            Dev::Spool(_) => unreachable!(),
        }
    }

    /// Opens the gate before the pages that the last `put` of one copy wrote, and syncs it. On a copy that counts as
    /// lost nothing is done.
    ///
    /// At each moment of the call each image of the copy reads as the old or the new pages, and the other copy stays as
    /// it is. BothLost comes only where both copies count as lost at the end of the call, Halted only where the member
    /// was stopped in it.
    pub fn open_copy<P: Plant>(
        &mut self,
        plant: &mut P,
        by: MemberId,
        dev: Dev,
    ) -> Result<(), PairNo>
        requires ckpt { IsCkpt dev }
        requires ready { (pick dev self.old.first self.old.second).alive ≡ true
            → C.ready (pick dev self.old.first self.old.second).copy (P.view plant.old) }
        requires room { (pick dev self.old.first self.old.second).alive ≡ true
            → 1 ≤ C.room (pick dev self.old.first self.old.second).copy }
        ensures other { other dev self.new.first self.new.second ≡ other dev self.old.first self.old.second }
        ensures count { C.count (pick dev self.new.first self.new.second).copy
            ≡ C.count (pick dev self.old.first self.old.second).copy }
        ensures room { OnOk result ((pick dev self.new.first self.new.second).alive ≡ true
            → C.room (pick dev self.new.first self.new.second).copy
            ≡ C.room_after (C.room (pick dev self.old.first self.old.second).copy)) }
        ensures acted { Acted by.0 dev (pick dev self.old.first self.old.second).alive
            (pick dev self.new.first self.new.second).alive (pair_stopped result) (P.view plant.old)
            (P.view plant.new) }
        ensures idle { (pick dev self.old.first self.old.second).alive ≡ false → plant.new ≡ plant.old }
        ensures ready { (pick dev self.old.first self.old.second).alive ≡ true
            → C.ready (pick dev self.new.first self.new.second).copy (P.view plant.new) }
        ensures there { OnOk result ((pick dev self.new.first self.new.second).alive ≡ true
            → (P.view plant.new).lost (Disk dev) ≡ false) }
        ensures gone { P.tells → IsGone dev (pick dev self.old.first self.old.second).alive
            (pick dev self.new.first self.new.second).alive (P.view plant.new) }
        ensures during { P.tells → (was next : List ℕ)
            → ((pick dev self.old.first self.old.second).alive ≡ true
            → C.holds (pick dev self.old.first self.old.second).copy was next (disk_now (P.view plant.old) dev))
            → Meanwhile dev (Touched (pick dev self.old.first self.old.second).alive (EachReads C.reads was next)
            (disk_now (P.view plant.old) dev)) (P.view plant.old) (P.view plant.new) }
        ensures opened { OnOk result (P.tells → (pick dev self.new.first self.new.second).alive ≡ true
            → (was next : List ℕ) → C.holds (pick dev self.old.first self.old.second).copy was next
            (disk_now (P.view plant.old) dev)
            → C.rests (pick dev self.new.first self.new.second).copy next (disk_now (P.view plant.new) dev)) }
        ensures both { IsErrOf result PairNoBothLost → IsBothLost self.new.first.alive self.new.second.alive }
        ensures ok { OnOk result (SomeAlive self.new.first.alive self.new.second.alive) }
    {
        let done = self.open_half(plant, by, dev);
        self.verdict(done)
    }

    /// Loses a device, and its copy. The other copy stays as it is.
    pub fn lose<P: Plant>(&mut self, plant: &mut P, dev: Dev)
        requires ckpt { IsCkpt dev }
        ensures other { other dev self.new.first self.new.second ≡ other dev self.old.first self.old.second }
        ensures copy { (pick dev self.new.first self.new.second).copy ≡ (pick dev self.old.first self.old.second).copy }
        ensures alive { (pick dev self.new.first self.new.second).alive ≡ false }
        ensures found { (pick dev self.new.first self.new.second).found
            ≡ (pick dev self.old.first self.old.second).found }
        ensures loses { Loses (Disk dev) (P.view plant.old) (P.view plant.new) }
        ensures gone { P.tells → IsGone dev true (pick dev self.new.first self.new.second).alive (P.view plant.new) }
        ensures during { P.tells → Meanwhile dev (SameOrLost (disk_now (P.view plant.old) dev)) (P.view plant.old)
            (P.view plant.new) }
    {
        match dev {
            Dev::Ckpt1 => self.first.lose(plant, dev),
            Dev::Ckpt2 => self.second.lose(plant, dev),
            Dev::Spool(_) => unreachable!(),
        }
    }

    /// What one copy holds: it is synced, and then read. The device of a copy that counts as lost has to be lost.
    ///
    /// Lost is answered exactly where the device is lost at the end of the call, Unread where it isn't and reads as
    /// none. At each moment of the call an image of the copy is one of before it, and the other copy stays as it is.
    /// Halted comes only where the member was stopped inside the call, NoMemory only when out of memory.
    pub fn look<P: Plant>(
        &mut self,
        alloc: Global,
        plant: &mut P,
        by: MemberId,
        dev: Dev,
    ) -> Result<Look, LookNo>
        requires ckpt { IsCkpt dev }
        requires lost { (pick dev self.old.first self.old.second).alive ≡ false
            → (P.view plant.old).lost (Disk dev) ≡ true }
        ensures other { other dev self.new.first self.new.second ≡ other dev self.old.first self.old.second }
        ensures acted { Acted by.0 dev (pick dev self.old.first self.old.second).alive
            (pick dev self.new.first self.new.second).alive (look_stopped result) (P.view plant.old)
            (P.view plant.new) }
        ensures idle { (pick dev self.old.first self.old.second).alive ≡ false → plant.new ≡ plant.old }
        ensures err { OnErr result (pick dev self.new.first self.new.second ≡ pick dev self.old.first self.old.second) }
        ensures gone { P.tells → IsGone dev (pick dev self.old.first self.old.second).alive
            (pick dev self.new.first self.new.second).alive (P.view plant.new) }
        ensures during { P.tells → Meanwhile dev (NoMore (disk_now (P.view plant.old) dev)) (P.view plant.old)
            (P.view plant.new) }
        ensures seen { IfOk result (λ look.
            WasSeen C.count C.room C.room_most C.ready C.reads C.rests P.tells dev (P.view plant.new)
            (pick dev self.old.first self.old.second).copy (pick dev self.new.first self.new.second).copy
            (pick dev self.new.first self.new.second).alive look) }
        ensures level { IfOk result (λ look. IsLevelFound look (pick dev self.new.first self.new.second).found) }
        ensures room { IfOk result (λ look. P.tells
            → HasRoom C.room C.room_in (pick dev self.new.first self.new.second).copy look
            (disk_now (P.view plant.new) dev).bytes) }
    {
        match dev {
            Dev::Ckpt1 => self.first.look(alloc, plant, by),
            Dev::Ckpt2 => self.second.look(alloc, plant, by),
            Dev::Spool(_) => unreachable!(),
        }
    }

    fn form_both<P: Plant>(
        &mut self,
        plant: &mut P,
        by: MemberId,
        pages: &[Page],
    ) -> Result<(), Halted>
        requires enough { pages_least ≤ length pages.now }
        requires few { length pages.now ≤ pages_most }
        requires size1 { self.old.first.alive ≡ true → C.needs (length pages.now) ≤ (P.view plant.old).size Ckpt1 }
        requires size2 { self.old.second.alive ≡ true → C.needs (length pages.now) ≤ (P.view plant.old).size Ckpt2 }
        ensures acted { PairActed by.0 self.old.first.alive self.new.first.alive self.old.second.alive
            self.new.second.alive (half_stopped result) (P.view plant.old) (P.view plant.new) }
        ensures gone1 { P.tells → IsGone Ckpt1 self.old.first.alive self.new.first.alive (P.view plant.new) }
        ensures gone2 { P.tells → IsGone Ckpt2 self.old.second.alive self.new.second.alive (P.view plant.new) }
        ensures during { P.tells → BothMeanwhile
            (Touched self.old.first.alive (EachForms C.reads (disk_now (P.view plant.old) Ckpt1) (bytes_of pages.now))
            (disk_now (P.view plant.old) Ckpt1))
            (Touched self.old.second.alive (EachForms C.reads (disk_now (P.view plant.old) Ckpt2) (bytes_of pages.now))
            (disk_now (P.view plant.old) Ckpt2)) (P.view plant.old) (P.view plant.new) }
        ensures ready { OnOk result (AreReady C.ready self.new.first.copy self.new.second.copy self.new.first.alive
            self.new.second.alive (P.view plant.new)) }
        ensures count1 { OnOk result (self.new.first.alive ≡ true → C.count self.new.first.copy ≡ length pages.now) }
        ensures room1 { OnOk result (self.new.first.alive ≡ true → C.room self.new.first.copy ≡ C.room_most) }
        ensures there1 { OnOk result (self.new.first.alive ≡ true → (P.view plant.new).lost (Disk Ckpt1) ≡ false) }
        ensures formed1 { OnOk result (P.tells → self.new.first.alive ≡ true
            → C.rests self.new.first.copy (bytes_of pages.now) (disk_now (P.view plant.new) Ckpt1)) }
        ensures count2 { OnOk result (self.new.second.alive ≡ true → C.count self.new.second.copy ≡ length pages.now) }
        ensures room2 { OnOk result (self.new.second.alive ≡ true → C.room self.new.second.copy ≡ C.room_most) }
        ensures there2 { OnOk result (self.new.second.alive ≡ true → (P.view plant.new).lost (Disk Ckpt2) ≡ false) }
        ensures formed2 { OnOk result (P.tells → self.new.second.alive ≡ true
            → C.rests self.new.second.copy (bytes_of pages.now) (disk_now (P.view plant.new) Ckpt2)) }
    {
        self.first.form(plant, by, pages)?;
        self.second.form(plant, by, pages)?;
        Ok(())
    }

    /// Makes a copy of these pages of each device whose copy counts as alive.
    ///
    /// At each moment of the call an image of such a device reads as none or as these pages, or it is, except VALID,
    /// one of before the call. After Ok each image reads as these pages. BothLost comes only where both copies count as
    /// lost at the end of the call, Halted only where the member was stopped in it.
    pub fn form<P: Plant>(
        &mut self,
        plant: &mut P,
        by: MemberId,
        pages: &[Page],
    ) -> Result<(), PairNo>
        requires enough { pages_least ≤ length pages.now }
        requires few { length pages.now ≤ pages_most }
        requires size1 { self.old.first.alive ≡ true → C.needs (length pages.now) ≤ (P.view plant.old).size Ckpt1 }
        requires size2 { self.old.second.alive ≡ true → C.needs (length pages.now) ≤ (P.view plant.old).size Ckpt2 }
        ensures acted { PairActed by.0 self.old.first.alive self.new.first.alive self.old.second.alive
            self.new.second.alive (pair_stopped result) (P.view plant.old) (P.view plant.new) }
        ensures gone1 { P.tells → IsGone Ckpt1 self.old.first.alive self.new.first.alive (P.view plant.new) }
        ensures gone2 { P.tells → IsGone Ckpt2 self.old.second.alive self.new.second.alive (P.view plant.new) }
        ensures during { P.tells → BothMeanwhile
            (Touched self.old.first.alive (EachForms C.reads (disk_now (P.view plant.old) Ckpt1) (bytes_of pages.now))
            (disk_now (P.view plant.old) Ckpt1))
            (Touched self.old.second.alive (EachForms C.reads (disk_now (P.view plant.old) Ckpt2) (bytes_of pages.now))
            (disk_now (P.view plant.old) Ckpt2)) (P.view plant.old) (P.view plant.new) }
        ensures ready { OnOk result (AreReady C.ready self.new.first.copy self.new.second.copy self.new.first.alive
            self.new.second.alive (P.view plant.new)) }
        ensures count1 { OnOk result (self.new.first.alive ≡ true → C.count self.new.first.copy ≡ length pages.now) }
        ensures room1 { OnOk result (self.new.first.alive ≡ true → C.room self.new.first.copy ≡ C.room_most) }
        ensures there1 { OnOk result (self.new.first.alive ≡ true → (P.view plant.new).lost (Disk Ckpt1) ≡ false) }
        ensures formed1 { OnOk result (P.tells → self.new.first.alive ≡ true
            → C.rests self.new.first.copy (bytes_of pages.now) (disk_now (P.view plant.new) Ckpt1)) }
        ensures count2 { OnOk result (self.new.second.alive ≡ true → C.count self.new.second.copy ≡ length pages.now) }
        ensures room2 { OnOk result (self.new.second.alive ≡ true → C.room self.new.second.copy ≡ C.room_most) }
        ensures there2 { OnOk result (self.new.second.alive ≡ true → (P.view plant.new).lost (Disk Ckpt2) ≡ false) }
        ensures formed2 { OnOk result (P.tells → self.new.second.alive ≡ true
            → C.rests self.new.second.copy (bytes_of pages.now) (disk_now (P.view plant.new) Ckpt2)) }
        ensures both { IsErrOf result PairNoBothLost → IsBothLost self.new.first.alive self.new.second.alive }
        ensures ok { OnOk result (SomeAlive self.new.first.alive self.new.second.alive) }
    {
        let done = self.form_both(plant, by, pages);
        self.verdict(done)
    }

    fn settle_both<P: Plant>(
        &mut self,
        plant: &mut P,
        by: MemberId,
        pages: &[Page],
    ) -> Result<(), Halted>
        requires ready { AreReady C.ready self.old.first.copy self.old.second.copy self.old.first.alive
            self.old.second.alive (P.view plant.old) }
        requires as_many1 { self.old.first.alive ≡ true → length pages.now ≡ C.count self.old.first.copy }
        requires as_many2 { self.old.second.alive ≡ true → length pages.now ≡ C.count self.old.second.copy }
        ensures acted { PairActed by.0 self.old.first.alive self.new.first.alive self.old.second.alive
            self.new.second.alive (half_stopped result) (P.view plant.old) (P.view plant.new) }
        ensures gone1 { P.tells → (self.old.first.alive ≡ true
            → C.rests self.old.first.copy (bytes_of pages.now) (disk_now (P.view plant.old) Ckpt1))
            → (self.old.second.alive ≡ true
            → C.rests self.old.second.copy (bytes_of pages.now) (disk_now (P.view plant.old) Ckpt2))
            → IsGone Ckpt1 self.old.first.alive self.new.first.alive (P.view plant.new) }
        ensures gone2 { P.tells → IsGone Ckpt2 self.old.second.alive self.new.second.alive (P.view plant.new) }
        ensures during { P.tells → (self.old.first.alive ≡ true
            → C.rests self.old.first.copy (bytes_of pages.now) (disk_now (P.view plant.old) Ckpt1))
            → (self.old.second.alive ≡ true
            → C.rests self.old.second.copy (bytes_of pages.now) (disk_now (P.view plant.old) Ckpt2))
            → BothMeanwhile (Touched self.old.first.alive (AllRead C.reads (bytes_of pages.now))
            (disk_now (P.view plant.old) Ckpt1))
            (Touched self.old.second.alive (AllRead C.reads (bytes_of pages.now)) (disk_now (P.view plant.old) Ckpt2))
            (P.view plant.old) (P.view plant.new) }
        ensures count1 { C.count self.new.first.copy ≡ C.count self.old.first.copy }
        ensures count2 { C.count self.new.second.copy ≡ C.count self.old.second.copy }
        ensures ready { AreReady C.ready self.new.first.copy self.new.second.copy self.new.first.alive
            self.new.second.alive (P.view plant.new) }
        ensures room1 { OnOk result (self.new.first.alive ≡ true → C.room self.new.first.copy ≡ C.room_most) }
        ensures room2 { OnOk result (self.new.second.alive ≡ true → C.room self.new.second.copy ≡ C.room_most) }
        ensures settled1 { OnOk result
            (P.tells → (self.old.first.alive ≡ true
            → C.rests self.old.first.copy (bytes_of pages.now) (disk_now (P.view plant.old) Ckpt1))
            → (self.old.second.alive ≡ true
            → C.rests self.old.second.copy (bytes_of pages.now) (disk_now (P.view plant.old) Ckpt2))
            → self.new.first.alive ≡ true → C.rests self.new.first.copy (bytes_of pages.now)
            (disk_now (P.view plant.new) Ckpt1)) }
        ensures settled2 { OnOk result
            (P.tells → (self.old.first.alive ≡ true
            → C.rests self.old.first.copy (bytes_of pages.now) (disk_now (P.view plant.old) Ckpt1))
            → (self.old.second.alive ≡ true
            → C.rests self.old.second.copy (bytes_of pages.now) (disk_now (P.view plant.old) Ckpt2))
            → self.new.second.alive ≡ true
            → C.rests self.new.second.copy (bytes_of pages.now) (disk_now (P.view plant.new) Ckpt2)) }
    {
        self.first.settle(plant, by, pages)?;
        self.second.settle(plant, by, pages)?;
        Ok(())
    }

    /// Makes room for puts again on each copy that counts as alive. The pages have to be those that these copies read.
    ///
    /// At each moment of the call each image of such a copy reads as before it. BothLost comes only where both copies
    /// count as lost at the end of the call, Halted only where the member was stopped in it.
    pub fn settle<P: Plant>(
        &mut self,
        plant: &mut P,
        by: MemberId,
        pages: &[Page],
    ) -> Result<(), PairNo>
        requires ready { AreReady C.ready self.old.first.copy self.old.second.copy self.old.first.alive
            self.old.second.alive (P.view plant.old) }
        requires as_many1 { self.old.first.alive ≡ true → length pages.now ≡ C.count self.old.first.copy }
        requires as_many2 { self.old.second.alive ≡ true → length pages.now ≡ C.count self.old.second.copy }
        ensures acted { PairActed by.0 self.old.first.alive self.new.first.alive self.old.second.alive
            self.new.second.alive (pair_stopped result) (P.view plant.old) (P.view plant.new) }
        ensures gone1 { P.tells → (self.old.first.alive ≡ true
            → C.rests self.old.first.copy (bytes_of pages.now) (disk_now (P.view plant.old) Ckpt1))
            → (self.old.second.alive ≡ true
            → C.rests self.old.second.copy (bytes_of pages.now) (disk_now (P.view plant.old) Ckpt2))
            → IsGone Ckpt1 self.old.first.alive self.new.first.alive (P.view plant.new) }
        ensures gone2 { P.tells → IsGone Ckpt2 self.old.second.alive self.new.second.alive (P.view plant.new) }
        ensures during { P.tells → (self.old.first.alive ≡ true
            → C.rests self.old.first.copy (bytes_of pages.now) (disk_now (P.view plant.old) Ckpt1))
            → (self.old.second.alive ≡ true
            → C.rests self.old.second.copy (bytes_of pages.now) (disk_now (P.view plant.old) Ckpt2))
            → BothMeanwhile (Touched self.old.first.alive (AllRead C.reads (bytes_of pages.now))
            (disk_now (P.view plant.old) Ckpt1))
            (Touched self.old.second.alive (AllRead C.reads (bytes_of pages.now)) (disk_now (P.view plant.old) Ckpt2))
            (P.view plant.old) (P.view plant.new) }
        ensures count1 { C.count self.new.first.copy ≡ C.count self.old.first.copy }
        ensures count2 { C.count self.new.second.copy ≡ C.count self.old.second.copy }
        ensures ready { AreReady C.ready self.new.first.copy self.new.second.copy self.new.first.alive
            self.new.second.alive (P.view plant.new) }
        ensures room1 { OnOk result (self.new.first.alive ≡ true → C.room self.new.first.copy ≡ C.room_most) }
        ensures room2 { OnOk result (self.new.second.alive ≡ true → C.room self.new.second.copy ≡ C.room_most) }
        ensures settled1 { OnOk result
            (P.tells → (self.old.first.alive ≡ true
            → C.rests self.old.first.copy (bytes_of pages.now) (disk_now (P.view plant.old) Ckpt1))
            → (self.old.second.alive ≡ true
            → C.rests self.old.second.copy (bytes_of pages.now) (disk_now (P.view plant.old) Ckpt2))
            → self.new.first.alive ≡ true → C.rests self.new.first.copy (bytes_of pages.now)
            (disk_now (P.view plant.new) Ckpt1)) }
        ensures settled2 { OnOk result
            (P.tells → (self.old.first.alive ≡ true
            → C.rests self.old.first.copy (bytes_of pages.now) (disk_now (P.view plant.old) Ckpt1))
            → (self.old.second.alive ≡ true
            → C.rests self.old.second.copy (bytes_of pages.now) (disk_now (P.view plant.old) Ckpt2))
            → self.new.second.alive ≡ true
            → C.rests self.new.second.copy (bytes_of pages.now) (disk_now (P.view plant.new) Ckpt2)) }
        ensures both { IsErrOf result PairNoBothLost → IsBothLost self.new.first.alive self.new.second.alive }
        ensures ok { OnOk result (SomeAlive self.new.first.alive self.new.second.alive) }
    {
        let done = self.settle_both(plant, by, pages);
        self.verdict(done)
    }

    fn read_either<P: Plant>(
        &mut self,
        plant: &mut P,
        by: MemberId,
        page: u16,
        into: &mut Page,
    ) -> Result<(), Halted>
        requires ready { AreReady C.ready self.old.first.copy self.old.second.copy self.old.first.alive
            self.old.second.alive (P.view plant.old) }
        requires page1 { self.old.first.alive ≡ true → page < C.count self.old.first.copy }
        requires page2 { self.old.second.alive ≡ true → page < C.count self.old.second.copy }
        ensures acted { PairActed by.0 self.old.first.alive self.new.first.alive self.old.second.alive
            self.new.second.alive (half_stopped result) (P.view plant.old) (P.view plant.new) }
        ensures acts { (P.view plant.new).now ≡ after_acts (read_acts self.old.first.alive self.new.first.alive
            self.old.second.alive self.new.second.alive) (P.view plant.old).now }
        ensures gone1 { P.tells → IsGone Ckpt1 self.old.first.alive self.new.first.alive (P.view plant.new) }
        ensures gone2 { P.tells → IsGone Ckpt2 self.old.second.alive self.new.second.alive (P.view plant.new) }
        ensures during { P.tells → BothMeanwhile (NoMore (disk_now (P.view plant.old) Ckpt1))
            (NoMore (disk_now (P.view plant.old) Ckpt2)) (P.view plant.old) (P.view plant.new) }
        ensures copy1 { self.new.first.copy ≡ self.old.first.copy }
        ensures copy2 { self.new.second.copy ≡ self.old.second.copy }
        ensures err { OnErr result (into.new ≡ into.old) }
        ensures read { OnOk result (P.tells → SomeAlive self.new.first.alive self.new.second.alive → (was : List ℕ)
            → (self.new.first.alive ≡ true → C.rests self.old.first.copy was (disk_now (P.view plant.old) Ckpt1))
            → (self.new.first.alive ≡ false → C.rests self.old.second.copy was (disk_now (P.view plant.old) Ckpt2))
            → into.new.0 ≡ page_in page was) }
        ensures none { OnOk result (self.new.first.alive ≡ false → self.new.second.alive ≡ false
            → into.new ≡ into.old) }
    {
        self.first.read_page(plant, by, page, into)?;
        if self.first.alive {
            return Ok(());
        }
        self.second.read_page(plant, by, page, into)?;
        Ok(())
    }

    /// Reads one page from CKPT1 while its copy counts as alive, else from CKPT2. It makes one act on the copy that
    /// answers, or in whose act the member is stopped, and one on each copy that fails in the call. BothLost comes only
    /// where both copies count as lost at the end of the call, Halted only where the member was stopped in it.
    pub fn read_page<P: Plant>(
        &mut self,
        plant: &mut P,
        by: MemberId,
        page: u16,
        into: &mut Page,
    ) -> Result<(), PairNo>
        requires ready { AreReady C.ready self.old.first.copy self.old.second.copy self.old.first.alive
            self.old.second.alive (P.view plant.old) }
        requires page1 { self.old.first.alive ≡ true → page < C.count self.old.first.copy }
        requires page2 { self.old.second.alive ≡ true → page < C.count self.old.second.copy }
        ensures acted { PairActed by.0 self.old.first.alive self.new.first.alive self.old.second.alive
            self.new.second.alive (pair_stopped result) (P.view plant.old) (P.view plant.new) }
        ensures acts { (P.view plant.new).now ≡ after_acts (read_acts self.old.first.alive self.new.first.alive
            self.old.second.alive self.new.second.alive) (P.view plant.old).now }
        ensures gone1 { P.tells → IsGone Ckpt1 self.old.first.alive self.new.first.alive (P.view plant.new) }
        ensures gone2 { P.tells → IsGone Ckpt2 self.old.second.alive self.new.second.alive (P.view plant.new) }
        ensures during { P.tells → BothMeanwhile (NoMore (disk_now (P.view plant.old) Ckpt1))
            (NoMore (disk_now (P.view plant.old) Ckpt2)) (P.view plant.old) (P.view plant.new) }
        ensures copy1 { self.new.first.copy ≡ self.old.first.copy }
        ensures copy2 { self.new.second.copy ≡ self.old.second.copy }
        ensures err { OnErr result (into.new ≡ into.old) }
        ensures read { OnOk result (P.tells → (was : List ℕ)
            → (self.new.first.alive ≡ true → C.rests self.old.first.copy was (disk_now (P.view plant.old) Ckpt1))
            → (self.new.first.alive ≡ false → C.rests self.old.second.copy was (disk_now (P.view plant.old) Ckpt2))
            → into.new.0 ≡ page_in page was) }
        ensures both { IsErrOf result PairNoBothLost → IsBothLost self.new.first.alive self.new.second.alive }
        ensures ok { OnOk result (SomeAlive self.new.first.alive self.new.second.alive) }
    {
        let done = self.read_either(plant, by, page, into);
        self.verdict(done)
    }
}
