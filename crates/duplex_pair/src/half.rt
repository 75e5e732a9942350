//! One copy of a pair. After an act on it failed it is passed over.
ghost use Rattle.std.specs.Prelude.{◌≡◌, ◌⊎◌, ℕ, ◌+◌, ◌≤◌, ◌<◌, List, [], length, OnOk, OnErr, IfOk, IsErrOf, true, false};
ghost use Rattle.mas_types.specs.Limits.{pages_least, pages_most};
ghost use Rattle.spool_plant.specs.View.{View, disk_now};
ghost use Rattle.spool_plant.specs.Acts.{Loses, next};
ghost use Rattle.spool_plant.specs.declared.plant.Part.TheVariants.{Disk};
ghost use Rattle.ckpt_copy.specs.Changes.{NoMore};
ghost use Rattle.ckpt_copy.specs.Meanwhile.{Meanwhile};
ghost use Rattle.ckpt_copy.specs.Pages.{bytes_of, level, page_in, ArePages, Covers};
ghost use Rattle.ckpt_copy.specs.Reading.{AllRead, EachReads, EachForms};
ghost use Rattle.duplex_pair.specs.Halves.{Acted, IsGone, SameOrLost};
ghost use Rattle.duplex_pair.specs.Looks.{HasRoom, WasSeen};
ghost use Rattle.duplex_pair.specs.Outcomes.{half_stopped, look_stopped};
ghost use Rattle.duplex_pair.specs.Both.{Touched};
ghost use Rattle.duplex_pair.specs.Lagging.{IsLevelFound};

use crate::errors::{Halted, Look, LookNo};
use crate::pages::pages_level;
use ckpt_copy::{CopyNo, Copying, FindNo};
use mas_types::{Dev, MemberId, Page};
use spool_plant::Plant;
use std::alloc::Global;

/// One copy of a pair, and whether it counts as alive.
#[derive(Drop)]
pub struct Half<C: Copying + Drop> {
    /// The copy.
    pub copy: C,
    /// No act on it failed, and no call lost it.
    pub alive: bool,
    /// The level of the pages that the last look found.
    pub found: u64,
}

impl<C: Copying + Drop> Half<C> {
    /// Makes a copy of these pages, unless it is lost.
    pub(crate) fn form<P: Plant>(
        &mut self,
        plant: &mut P,
        by: MemberId,
        pages: &[Page],
    ) -> Result<(), Halted>
        requires enough { pages_least ≤ length pages.now }
        requires few { length pages.now ≤ pages_most }
        requires size { self.old.alive ≡ true
            → C.needs (length pages.now) ≤ (P.view plant.old).size (C.dev self.old.copy) }
        ensures dev { C.dev self.new.copy ≡ C.dev self.old.copy }
        ensures count { OnOk result (self.new.alive ≡ true → C.count self.new.copy ≡ length pages.now) }
        ensures room { OnOk result (self.new.alive ≡ true → C.room self.new.copy ≡ C.room_most) }
        ensures ready { OnOk result (self.new.alive ≡ true → C.ready self.new.copy (P.view plant.new)) }
        ensures acted { Acted by.0 (C.dev self.old.copy) self.old.alive self.new.alive (half_stopped result)
            (P.view plant.old) (P.view plant.new) }
        ensures idle { self.old.alive ≡ false → plant.new ≡ plant.old }
        ensures there { OnOk result (self.new.alive ≡ true
            → (P.view plant.new).lost (Disk (C.dev self.old.copy)) ≡ false) }
        ensures gone { P.tells → IsGone (C.dev self.old.copy) self.old.alive self.new.alive (P.view plant.new) }
        ensures during { P.tells → Meanwhile (C.dev self.old.copy)
            (Touched self.old.alive (EachForms C.reads (disk_now (P.view plant.old) (C.dev self.old.copy))
            (bytes_of pages.now)) (disk_now (P.view plant.old) (C.dev self.old.copy))) (P.view plant.old)
            (P.view plant.new) }
        ensures formed { OnOk result (P.tells → self.new.alive ≡ true
            → C.rests self.new.copy (bytes_of pages.now) (disk_now (P.view plant.new) (C.dev self.old.copy))) }
    {
        if !self.alive {
            return Ok(());
        }
        match self.copy.form(plant, by, pages) {
            Ok(()) => Ok(()),
            Err(CopyNo::Failed) => {
                self.alive = false;
                Ok(())
            }
            Err(CopyNo::Halted) => Err(Halted),
        }
    }

    /// Writes the next pages behind the closed gate, unless the copy is lost.
    pub(crate) fn put<P: Plant>(
        &mut self,
        plant: &mut P,
        by: MemberId,
        pages: &[Page],
        changed: &[u16],
    ) -> Result<(), Halted>
        requires ready { self.old.alive ≡ true → C.ready self.old.copy (P.view plant.old) }
        requires as_many { self.old.alive ≡ true → length pages.now ≡ C.count self.old.copy }
        requires room { self.old.alive ≡ true → 1 ≤ C.room self.old.copy }
        requires changed { self.old.alive ≡ true → ArePages (C.count self.old.copy) changed.now }
        ensures dev { C.dev self.new.copy ≡ C.dev self.old.copy }
        ensures count { C.count self.new.copy ≡ C.count self.old.copy }
        ensures room { C.room self.new.copy ≡ C.room self.old.copy }
        ensures ready { self.old.alive ≡ true → C.ready self.new.copy (P.view plant.new) }
        ensures acted { Acted by.0 (C.dev self.old.copy) self.old.alive self.new.alive (half_stopped result)
            (P.view plant.old) (P.view plant.new) }
        ensures idle { self.old.alive ≡ false → plant.new ≡ plant.old }
        ensures there { OnOk result (self.new.alive ≡ true
            → (P.view plant.new).lost (Disk (C.dev self.old.copy)) ≡ false) }
        ensures gone { P.tells → IsGone (C.dev self.old.copy) self.old.alive self.new.alive (P.view plant.new) }
        ensures during { P.tells → (was : List ℕ)
            → (self.old.alive ≡ true → C.rests self.old.copy was (disk_now (P.view plant.old) (C.dev self.old.copy)))
            → Meanwhile (C.dev self.old.copy)
            (Touched self.old.alive (AllRead C.reads was) (disk_now (P.view plant.old) (C.dev self.old.copy)))
            (P.view plant.old) (P.view plant.new) }
        ensures held { OnOk result (P.tells → self.new.alive ≡ true → (was : List ℕ)
            → C.rests self.old.copy was (disk_now (P.view plant.old) (C.dev self.old.copy))
            → level was < level (bytes_of pages.now)
            → Covers (C.count self.old.copy) changed.now was (bytes_of pages.now)
            → C.holds self.new.copy was (bytes_of pages.now) (disk_now (P.view plant.new) (C.dev self.old.copy))) }
    {
        if !self.alive {
            return Ok(());
        }
        match self.copy.put(plant, by, pages, changed) {
            Ok(()) => Ok(()),
            Err(CopyNo::Failed) => {
                self.alive = false;
                Ok(())
            }
            Err(CopyNo::Halted) => Err(Halted),
        }
    }

    /// Opens the gate before the pages that were put, unless the copy is lost.
    pub(crate) fn open_gate<P: Plant>(&mut self, plant: &mut P, by: MemberId) -> Result<(), Halted>
        requires ready { self.old.alive ≡ true → C.ready self.old.copy (P.view plant.old) }
        requires room { self.old.alive ≡ true → 1 ≤ C.room self.old.copy }
        ensures dev { C.dev self.new.copy ≡ C.dev self.old.copy }
        ensures count { C.count self.new.copy ≡ C.count self.old.copy }
        ensures room { OnOk result (self.new.alive ≡ true
            → C.room self.new.copy ≡ C.room_after (C.room self.old.copy)) }
        ensures ready { self.old.alive ≡ true → C.ready self.new.copy (P.view plant.new) }
        ensures acted { Acted by.0 (C.dev self.old.copy) self.old.alive self.new.alive (half_stopped result)
            (P.view plant.old) (P.view plant.new) }
        ensures idle { self.old.alive ≡ false → plant.new ≡ plant.old }
        ensures there { OnOk result (self.new.alive ≡ true
            → (P.view plant.new).lost (Disk (C.dev self.old.copy)) ≡ false) }
        ensures gone { P.tells → IsGone (C.dev self.old.copy) self.old.alive self.new.alive (P.view plant.new) }
        ensures during { P.tells → (was next : List ℕ)
            → (self.old.alive ≡ true → C.holds self.old.copy was next
            (disk_now (P.view plant.old) (C.dev self.old.copy)))
            → Meanwhile (C.dev self.old.copy)
            (Touched self.old.alive (EachReads C.reads was next) (disk_now (P.view plant.old) (C.dev self.old.copy)))
            (P.view plant.old) (P.view plant.new) }
        ensures opened { OnOk result (P.tells → self.new.alive ≡ true → (was next : List ℕ)
            → C.holds self.old.copy was next (disk_now (P.view plant.old) (C.dev self.old.copy))
            → C.rests self.new.copy next (disk_now (P.view plant.new) (C.dev self.old.copy))) }
    {
        if !self.alive {
            return Ok(());
        }
        match self.copy.open_gate(plant, by) {
            Ok(()) => Ok(()),
            Err(CopyNo::Failed) => {
                self.alive = false;
                Ok(())
            }
            Err(CopyNo::Halted) => Err(Halted),
        }
    }

    /// Makes room for puts again, unless the copy is lost.
    pub(crate) fn settle<P: Plant>(
        &mut self,
        plant: &mut P,
        by: MemberId,
        pages: &[Page],
    ) -> Result<(), Halted>
        requires ready { self.old.alive ≡ true → C.ready self.old.copy (P.view plant.old) }
        requires as_many { self.old.alive ≡ true → length pages.now ≡ C.count self.old.copy }
        ensures dev { C.dev self.new.copy ≡ C.dev self.old.copy }
        ensures count { C.count self.new.copy ≡ C.count self.old.copy }
        ensures room { OnOk result (self.new.alive ≡ true → C.room self.new.copy ≡ C.room_most) }
        ensures ready { self.old.alive ≡ true → C.ready self.new.copy (P.view plant.new) }
        ensures acted { Acted by.0 (C.dev self.old.copy) self.old.alive self.new.alive (half_stopped result)
            (P.view plant.old) (P.view plant.new) }
        ensures idle { self.old.alive ≡ false → plant.new ≡ plant.old }
        ensures gone { P.tells → IsGone (C.dev self.old.copy) self.old.alive self.new.alive (P.view plant.new) }
        ensures during { P.tells → (self.old.alive ≡ true
            → C.rests self.old.copy (bytes_of pages.now) (disk_now (P.view plant.old) (C.dev self.old.copy)))
            → Meanwhile (C.dev self.old.copy)
            (Touched self.old.alive (AllRead C.reads (bytes_of pages.now))
            (disk_now (P.view plant.old) (C.dev self.old.copy))) (P.view plant.old) (P.view plant.new) }
        ensures settled { OnOk result (P.tells → self.new.alive ≡ true
            → C.rests self.old.copy (bytes_of pages.now) (disk_now (P.view plant.old) (C.dev self.old.copy))
            → C.rests self.new.copy (bytes_of pages.now) (disk_now (P.view plant.new) (C.dev self.old.copy))) }
    {
        if !self.alive {
            return Ok(());
        }
        match self.copy.settle(plant, by, pages) {
            Ok(()) => Ok(()),
            Err(CopyNo::Failed) => {
                self.alive = false;
                Ok(())
            }
            Err(CopyNo::Halted) => Err(Halted),
        }
    }

    /// Reads one page by one act, unless the copy is lost.
    pub(crate) fn read_page<P: Plant>(
        &mut self,
        plant: &mut P,
        by: MemberId,
        page: u16,
        into: &mut Page,
    ) -> Result<(), Halted>
        requires ready { self.old.alive ≡ true → C.ready self.old.copy (P.view plant.old) }
        requires page { self.old.alive ≡ true → page < C.count self.old.copy }
        ensures copy { self.new.copy ≡ self.old.copy }
        ensures acted { Acted by.0 (C.dev self.old.copy) self.old.alive self.new.alive (half_stopped result)
            (P.view plant.old) (P.view plant.new) }
        ensures idle { self.old.alive ≡ false → plant.new ≡ plant.old }
        ensures one { self.old.alive ≡ true → (P.view plant.new).now ≡ next (P.view plant.old).now }
        ensures there { OnOk result (self.new.alive ≡ true
            → (P.view plant.new).lost (Disk (C.dev self.old.copy)) ≡ false) }
        ensures gone { P.tells → IsGone (C.dev self.old.copy) self.old.alive self.new.alive (P.view plant.new) }
        ensures during { P.tells → Meanwhile (C.dev self.old.copy)
            (NoMore (disk_now (P.view plant.old) (C.dev self.old.copy))) (P.view plant.old) (P.view plant.new) }
        ensures err { OnErr result (into.new ≡ into.old) }
        ensures none { OnOk result (self.new.alive ≡ false → into.new ≡ into.old) }
        ensures read { OnOk result (P.tells → self.new.alive ≡ true → (was : List ℕ)
            → C.rests self.old.copy was (disk_now (P.view plant.old) (C.dev self.old.copy))
            → into.new.0 ≡ page_in page was) }
    {
        if !self.alive {
            return Ok(());
        }
        match self.copy.read_page(plant, by, page, into) {
            Ok(()) => Ok(()),
            Err(CopyNo::Failed) => {
                self.alive = false;
                Ok(())
            }
            Err(CopyNo::Halted) => Err(Halted),
        }
    }

    /// Loses the device, and its copy.
    pub(crate) fn lose<P: Plant>(&mut self, plant: &mut P, dev: Dev)
        ensures copy { self.new.copy ≡ self.old.copy }
        ensures alive { self.new.alive ≡ false }
        ensures found { self.new.found ≡ self.old.found }
        ensures loses { Loses (Disk dev) (P.view plant.old) (P.view plant.new) }
        ensures gone { P.tells → IsGone dev true self.new.alive (P.view plant.new) }
        ensures during { P.tells → Meanwhile dev (SameOrLost (disk_now (P.view plant.old) dev)) (P.view plant.old)
            (P.view plant.new) }
    {
        plant.lose(dev);
        self.alive = false;
    }

    /// What the copy holds. One that counts as lost has to be lost.
    pub(crate) fn look<P: Plant>(
        &mut self,
        alloc: Global,
        plant: &mut P,
        by: MemberId,
    ) -> Result<Look, LookNo>
        requires lost { self.old.alive ≡ false → (P.view plant.old).lost (Disk (C.dev self.old.copy)) ≡ true }
        ensures dev { C.dev self.new.copy ≡ C.dev self.old.copy }
        ensures acted { Acted by.0 (C.dev self.old.copy) self.old.alive self.new.alive (look_stopped result)
            (P.view plant.old) (P.view plant.new) }
        ensures idle { self.old.alive ≡ false → plant.new ≡ plant.old }
        ensures err { OnErr result (self.new ≡ self.old) }
        ensures gone { P.tells → IsGone (C.dev self.old.copy) self.old.alive self.new.alive (P.view plant.new) }
        ensures during { P.tells → Meanwhile (C.dev self.old.copy)
            (NoMore (disk_now (P.view plant.old) (C.dev self.old.copy))) (P.view plant.old) (P.view plant.new) }
        ensures seen { IfOk result (λ look.
            WasSeen C.count C.room C.room_most C.ready C.reads C.rests P.tells (C.dev self.old.copy) (P.view plant.new)
            self.old.copy self.new.copy self.new.alive look) }
        ensures level { IfOk result (λ look. IsLevelFound look self.new.found) }
        ensures room { IfOk result (λ look. P.tells
            → HasRoom C.room C.room_in self.new.copy look (disk_now (P.view plant.new) (C.dev self.old.copy)).bytes) }
    {
        if !self.alive {
            return Ok(Look::Lost);
        }
        match self.copy.find(alloc, plant, by) {
            Ok(pages) => {
                self.found = pages_level(pages.as_slice());
                Ok(Look::Pages(pages))
            }
            Err(FindNo::Failed) => {
                self.alive = false;
                Ok(Look::Lost)
            }
            Err(FindNo::NotValid) => Ok(Look::Unread),
            Err(FindNo::Halted) => Err(LookNo::Halted),
            Err(FindNo::NoMemory) => Err(LookNo::NoMemory),
        }
    }
}
