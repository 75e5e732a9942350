//! A batch is written to the copies, and has its fate.
ghost use Rattle.mas_complex.specs.Names.{Dev, Entry, Ckpt1, Ckpt2, disk_now, top, bytes_of, level, ArePages, Covers, BothLost as PairNoBothLost, IsCkpt, other, IsBothLost, SomeAlive, Acted, pair_stopped, Before as AtBefore, Put as AtPut, Opened as AtOpened, page_count};
ghost use Rattle.std.specs.Prelude.{◌≡◌, ◌≢◌, ◌+◌, ◌≤◌, ◌<◌, ◌++◌, ℕ, List, Some, None, length, true, false, OnOk, OnErr, IsErrOf, IsSome, All};
ghost use Rattle.mas_complex.specs.Journals.{coming, kept_all, entries_in, entries_reserved, begun, IsKeptAt};
ghost use Rattle.mas_complex.specs.Meaning.{StandFor, run};
ghost use Rattle.mas_complex.specs.Places.{IsPlaceAfter, HasNoOther, all_open};
ghost use Rattle.mas_complex.specs.Crash.{RaisesOrders};
ghost use Rattle.mas_complex.specs.Elsewhere.{Elsewhere};
ghost use Rattle.mas_complex.specs.Changed.{NamesOnly};
ghost use Rattle.mas_complex.specs.Locking.{MayAct, IsOwn};
ghost use Rattle.mas_complex.specs.Paper.{printed_after};
ghost use Rattle.mas_complex.specs.Past.{AreLater, IsNextOf, values_of};
ghost use Rattle.mas_complex.specs.Parts.{begun_in, dropped_in, half_beside, half_on, kept_in, parts_of, place_beside, place_on, with_copy};
ghost use Rattle.mas_complex.specs.Begins.{HasRepliesOf, HasTextsWith, IsUntoldOf, MayBeginOf, queue_with};

use crate::complex::Complex;
use crate::journal_end::end_last;
use crate::places::{place_after, set_place};
use ckpt_form::Steady;
use ckpt_places::{Place, all_opened};
use duplex_pair::PairNo;
use mas_types::{Dev, Fate, MemberId, Page};
use spool_plant::Plant;

impl<P: Plant + Drop, C: Steady + Drop> Complex<P, C> {
    // The next pages, behind the closed gate of one copy.
    pub(crate) fn put_on(
        &mut self,
        by: MemberId,
        dev: Dev,
        pages: &[Page],
        changed: &[u16],
    ) -> Result<(), PairNo>
        requires ckpt { IsCkpt dev }
        requires place { (half_on dev self.old).alive ≡ true → place_on dev self.old ≡ AtBefore }
        requires room { (half_on dev self.old).alive ≡ true → 1 ≤ C.room (half_on dev self.old).copy }
        requires as_many { (half_on dev self.old).alive ≡ true
            → length pages.now ≡ C.count (half_on dev self.old).copy }
        requires changed { (half_on dev self.old).alive ≡ true → ArePages (C.count (half_on dev self.old).copy)
            changed.now }
        requires covered { P.tells → (half_on dev self.old).alive ≡ true → (was : List ℕ)
            → C.reads (disk_now (P.view self.old.plant) dev).bytes ≡ Some was
            → Covers (C.count (half_on dev self.old).copy) changed.now was (bytes_of pages.now) }
        requires level { P.tells → level (bytes_of pages.now) ≡ self.old.level + 1 }
        requires later { P.tells → ∥ ((half_on dev self.old).alive ≡ true → AreLater (page_count self.old.base.config)
            (values_of self.old.had) (bytes_of pages.now)) ∥₁ }
        requires orders { P.tells → (half_on dev self.old).alive ≡ true → ((half_beside dev self.old).alive ≡ true
            → place_beside dev self.old ≡ AtBefore) → (was : List ℕ)
            → C.reads (disk_now (P.view self.old.plant) dev).bytes ≡ Some was → RaisesOrders was (bytes_of pages.now) }
        requires queue { P.tells → ∥ StandFor (queue_with self.old (entries_in self.old.current)) (bytes_of pages.now)
            ∥₁ }
        requires some { P.tells → 1 ≤ length (entries_in self.old.current) }
        requires same { P.tells → (half_beside dev self.old).alive ≡ true → HasNoOther (place_beside dev self.old)
            (C.behind (half_beside dev self.old).copy (disk_now (P.view self.old.plant)
            (other dev Ckpt1 Ckpt2)).bytes) (C.reads (disk_now (P.view self.old.plant) (other dev Ckpt1 Ckpt2)).bytes)
            (bytes_of pages.now) }
        ensures frame { parts_of self.new ≡ with_copy dev (parts_of self.new) (parts_of self.old) }
        ensures place { IsPlaceAfter result AtPut (place_on dev self.new) }
        ensures other_place { place_beside dev self.new ≡ place_beside dev self.old }
        ensures other { half_beside dev self.new ≡ half_beside dev self.old }
        ensures count { C.count (half_on dev self.new).copy ≡ C.count (half_on dev self.old).copy }
        ensures room { C.room (half_on dev self.new).copy ≡ C.room (half_on dev self.old).copy }
        ensures acted { Acted by.0 dev (half_on dev self.old).alive (half_on dev self.new).alive (pair_stopped result)
            (P.view self.old.plant) (P.view self.new.plant) }
        ensures both { IsErrOf result PairNoBothLost → IsBothLost self.new.pair.first.alive self.new.pair.second.alive }
        ensures ok { OnOk result (SomeAlive self.new.pair.first.alive self.new.pair.second.alive) }
        ensures elsewhere { P.tells → Elsewhere dev (P.view self.old.plant) (P.view self.new.plant) }
        ensures behind { OnOk result (P.tells → (half_on dev self.new).alive ≡ true
            → C.behind (half_on dev self.new).copy (disk_now (P.view self.new.plant) dev).bytes ≡ bytes_of pages.now) }
    {
        let done = self.pair.put(&mut self.plant, by, dev, pages, changed);
        let place = place_after(&done, Place::Put);
        set_place(dev, &mut self.first, &mut self.second, place);
        done
    }

    // The gate before the pages that wait on one copy.
    pub(crate) fn open_on(&mut self, by: MemberId, dev: Dev) -> Result<(), PairNo>
        requires ckpt { IsCkpt dev }
        requires place { (half_on dev self.old).alive ≡ true → place_on dev self.old ≡ AtPut }
        requires room { (half_on dev self.old).alive ≡ true → 1 ≤ C.room (half_on dev self.old).copy }
        ensures frame { parts_of self.new ≡ with_copy dev (parts_of self.new) (parts_of self.old) }
        ensures place { IsPlaceAfter result AtOpened (place_on dev self.new) }
        ensures other_place { place_beside dev self.new ≡ place_beside dev self.old }
        ensures other { half_beside dev self.new ≡ half_beside dev self.old }
        ensures count { C.count (half_on dev self.new).copy ≡ C.count (half_on dev self.old).copy }
        ensures room { OnOk result ((half_on dev self.new).alive ≡ true
            → C.room (half_on dev self.new).copy ≡ C.room_after (C.room (half_on dev self.old).copy)) }
        ensures acted { Acted by.0 dev (half_on dev self.old).alive (half_on dev self.new).alive (pair_stopped result)
            (P.view self.old.plant) (P.view self.new.plant) }
        ensures both { IsErrOf result PairNoBothLost → IsBothLost self.new.pair.first.alive self.new.pair.second.alive }
        ensures ok { OnOk result (SomeAlive self.new.pair.first.alive self.new.pair.second.alive) }
        ensures elsewhere { P.tells → Elsewhere dev (P.view self.old.plant) (P.view self.new.plant) }
        ensures reads { OnOk result (P.tells → (half_on dev self.new).alive ≡ true
            → C.reads (disk_now (P.view self.new.plant) dev).bytes ≡ Some (C.behind (half_on dev self.old).copy
            (disk_now (P.view self.old.plant) dev).bytes)) }
    {
        let done = self.pair.open_copy(&mut self.plant, by, dev);
        let place = place_after(&done, Place::Opened);
        set_place(dev, &mut self.first, &mut self.second, place);
        done
    }

    /// Writes the pages of the batch to come, or in flight, behind the closed gate of one copy. The first call for a
    /// batch begins it: it is in flight from the moment before the call on. On a copy that counts as lost nothing is
    /// written. The member holds the lock, or is the operator while nobody does, and isn't stopped; the batch is its
    /// own.
    ///
    /// The entries have the replies that the commands give at their places, after the kept ones. Where the base has the
    /// sound parts each is within the limits and of a member that may give it, and a Mark is at most at what its member
    /// has printed. With a Pick, Mark, Back or Forward the member begins to count anew. The pages stand for the queue
    /// with the batch, which has an entry, and have the level after the one of the kept pages. The texts of that queue
    /// stand on the spool volumes, all of them synced, except those with a group on a volume that is lost. `changed`
    /// are the numbers of page 0 and of just those that differ from what the copy reads. Page 0 gives the new level to
    /// each of them, and to each other page the level that it had. Both copies are given the same
    /// pages: where the other one counts as alive, these wait behind its gate if others than the kept ones do. BothLost
    /// comes only where both copies count as lost at the end of the call, Halted only where the member was stopped in
    /// it.
    pub fn log(
        &mut self,
        by: MemberId,
        dev: Dev,
        pages: &[Page],
        changed: &[u16],
    ) -> Result<(), PairNo>
        requires may { MayAct self.old.book by }
        requires own { self.old.current ≡ None → All (λ e. e.by ≡ by) (entries_reserved self.old.reserved) }
        requires own_flying { IsOwn self.old.current by }
        requires ckpt { IsCkpt dev }
        requires place { (half_on dev self.old).alive ≡ true → place_on dev self.old ≡ AtBefore }
        requires room { (half_on dev self.old).alive ≡ true → 1 ≤ C.room (half_on dev self.old).copy }
        requires as_many { (half_on dev self.old).alive ≡ true
            → length pages.now ≡ C.count (half_on dev self.old).copy }
        requires changed { (half_on dev self.old).alive ≡ true → ArePages (C.count (half_on dev self.old).copy)
            changed.now }
        requires covered { P.tells → (half_on dev self.old).alive ≡ true → (was : List ℕ)
            → C.reads (disk_now (P.view self.old.plant) dev).bytes ≡ Some was
            → Covers (C.count (half_on dev self.old).copy) changed.now was (bytes_of pages.now) }
        requires exact { P.tells → (half_on dev self.old).alive ≡ true → (was : List ℕ)
            → C.reads (disk_now (P.view self.old.plant) dev).bytes ≡ Some was
            → NamesOnly changed.now was (bytes_of pages.now) }
        requires level { P.tells → level (bytes_of pages.now) ≡ self.old.level + 1 }
        requires leveled { P.tells → (half_on dev self.old).alive ≡ true → (was : List ℕ)
            → C.reads (disk_now (P.view self.old.plant) dev).bytes ≡ Some was
            → IsNextOf (page_count self.old.base.config) was (bytes_of pages.now) }
        requires orders { P.tells → (half_on dev self.old).alive ≡ true → ((half_beside dev self.old).alive ≡ true
            → place_beside dev self.old ≡ AtBefore) → (was : List ℕ)
            → C.reads (disk_now (P.view self.old.plant) dev).bytes ≡ Some was → RaisesOrders was (bytes_of pages.now) }
        requires first { self.old.current ≡ None → self.old.pair.first.alive ≡ true → self.old.first ≡ AtBefore }
        requires second { self.old.current ≡ None → self.old.pair.second.alive ≡ true → self.old.second ≡ AtBefore }
        requires untold { P.tells → self.old.current ≡ None → IsUntoldOf self.old (entries_reserved self.old.reserved) }
        requires texts { P.tells → self.old.current ≡ None → HasTextsWith self.old
            (entries_reserved self.old.reserved) }
        requires queue { P.tells → ∥ StandFor
            (run self.old.base (kept_all self.old.journal.batches ++ coming self.old.current self.old.reserved))
            (bytes_of pages.now) ∥₁ }
        requires some { 1 ≤ length (coming self.old.current self.old.reserved) }
        requires replied { P.tells → self.old.current ≡ None
            → HasRepliesOf self.old (entries_reserved self.old.reserved) }
        requires allowed { P.tells → self.old.current ≡ None
            → MayBeginOf self.old (entries_reserved self.old.reserved) }
        requires same { P.tells → (half_beside dev self.old).alive ≡ true → HasNoOther (place_beside dev self.old)
            (C.behind (half_beside dev self.old).copy (disk_now (P.view self.old.plant)
            (other dev Ckpt1 Ckpt2)).bytes) (C.reads (disk_now (P.view self.old.plant) (other dev Ckpt1 Ckpt2)).bytes)
            (bytes_of pages.now) }
        ensures base { self.new.base ≡ self.old.base }
        ensures since { self.new.since ≡ self.old.since }
        ensures renewals { self.new.renewals ≡ self.old.renewals }
        ensures printed { self.new.printed ≡ printed_after by (entries_reserved self.old.reserved) self.old.printed }
        ensures book { self.new.book ≡ self.old.book }
        ensures journal { self.new.journal ≡ self.old.journal }
        ensures placed { self.new.placed ≡ self.old.placed }
        ensures level { self.new.level ≡ self.old.level }
        ensures coming { entries_in self.new.current ≡ coming self.old.current self.old.reserved }
        ensures begun { self.old.current ≡ None → (entries : List Entry) → self.old.reserved ≡ Some entries
            → self.new.current ≡ Some (begun (P.view self.old.plant).now by entries) }
        ensures stays { IsSome self.old.current → self.new.current ≡ self.old.current }
        ensures unreserved { self.new.reserved ≡ None }
        ensures place { IsPlaceAfter result AtPut (place_on dev self.new) }
        ensures other_place { place_beside dev self.new ≡ place_beside dev self.old }
        ensures other { half_beside dev self.new ≡ half_beside dev self.old }
        ensures count { C.count (half_on dev self.new).copy ≡ C.count (half_on dev self.old).copy }
        ensures room { C.room (half_on dev self.new).copy ≡ C.room (half_on dev self.old).copy }
        ensures acted { Acted by.0 dev (half_on dev self.old).alive (half_on dev self.new).alive (pair_stopped result)
            (P.view self.old.plant) (P.view self.new.plant) }
        ensures both { IsErrOf result PairNoBothLost → IsBothLost self.new.pair.first.alive self.new.pair.second.alive }
        ensures ok { OnOk result (SomeAlive self.new.pair.first.alive self.new.pair.second.alive) }
        ensures others { P.tells → (d : Dev) → d ≢ dev
            → (disk_now (P.view self.new.plant) d).bytes ≡ (disk_now (P.view self.old.plant) d).bytes }
        ensures elsewhere { P.tells → Elsewhere dev (P.view self.old.plant) (P.view self.new.plant) }
        ensures behind { OnOk result (P.tells → (half_on dev self.new).alive ≡ true
            → C.behind (half_on dev self.new).copy (disk_now (P.view self.new.plant) dev).bytes ≡ bytes_of pages.now) }
        ensures frame { parts_of self.new
            ≡ with_copy dev (parts_of self.new) (begun_in (P.view self.old.plant).now by (parts_of self.old)) }
    {
        self.begin_first(by);
        self.put_on(by, dev, pages, changed)
    }

    fn all_opened(&self) -> bool
        ensures all { result ≡ all_open self.now.pair.first.alive self.now.pair.second.alive self.now.first
            self.now.second }
        ensures opened { result ≡ true → (self.now.pair.first.alive ≡ true → self.now.first ≡ AtOpened)
            × (self.now.pair.second.alive ≡ true → self.now.second ≡ AtOpened) }
    {
        all_opened(
            self.pair.first.alive,
            self.pair.second.alive,
            self.first,
            self.second,
        )
    }

    /// Opens the gate before the pages that one copy was given. The batch is kept by the call after which each copy
    /// that counts as alive has opened its gate: from then on no copy is as before it. The batch is one of the member
    /// that holds the lock, or of the operator while nobody does, and that isn't stopped. BothLost comes only where
    /// both copies count as lost at the end of the call, Halted only where the member was stopped in it.
    pub fn open_copy(&mut self, by: MemberId, dev: Dev) -> Result<(), PairNo>
        requires may { MayAct self.old.book by }
        requires own_flying { IsOwn self.old.current by }
        requires ckpt { IsCkpt dev }
        requires place { (half_on dev self.old).alive ≡ true → place_on dev self.old ≡ AtPut }
        requires room { (half_on dev self.old).alive ≡ true → 1 ≤ C.room (half_on dev self.old).copy }
        requires current { IsSome self.old.current }
        requires level { self.old.level < top }
        ensures base { self.new.base ≡ self.old.base }
        ensures since { self.new.since ≡ self.old.since }
        ensures renewals { self.new.renewals ≡ self.old.renewals }
        ensures printed { self.new.printed ≡ self.old.printed }
        ensures book { self.new.book ≡ self.old.book }
        ensures reserved { self.new.reserved ≡ self.old.reserved }
        ensures other { half_beside dev self.new ≡ half_beside dev self.old }
        ensures count { C.count (half_on dev self.new).copy ≡ C.count (half_on dev self.old).copy }
        ensures room { OnOk result ((half_on dev self.new).alive ≡ true
            → C.room (half_on dev self.new).copy ≡ C.room_after (C.room (half_on dev self.old).copy)) }
        ensures acted { Acted by.0 dev (half_on dev self.old).alive (half_on dev self.new).alive (pair_stopped result)
            (P.view self.old.plant) (P.view self.new.plant) }
        ensures both { IsErrOf result PairNoBothLost → IsBothLost self.new.pair.first.alive self.new.pair.second.alive }
        ensures ok { OnOk result (SomeAlive self.new.pair.first.alive self.new.pair.second.alive) }
        ensures others { P.tells → (d : Dev) → d ≢ dev
            → (disk_now (P.view self.new.plant) d).bytes ≡ (disk_now (P.view self.old.plant) d).bytes }
        ensures elsewhere { P.tells → Elsewhere dev (P.view self.old.plant) (P.view self.new.plant) }
        ensures reads { OnOk result (P.tells → (half_on dev self.new).alive ≡ true
            → C.reads (disk_now (P.view self.new.plant) dev).bytes ≡ Some (C.behind (half_on dev self.old).copy
            (disk_now (P.view self.old.plant) dev).bytes)) }
        ensures kept { OnOk result (((half_beside dev self.new).alive ≡ true → place_beside dev self.old ≡ AtOpened)
            → IsKeptAt self.old.current (P.view self.new.plant).now self.old.journal.batches self.new.journal.batches
            × (self.new.current ≡ None) × (self.new.level ≡ self.old.level + 1) × (self.new.first ≡ AtBefore)
            × (self.new.second ≡ AtBefore)) }
        ensures flying { OnOk result ((half_beside dev self.new).alive ≡ true → place_beside dev self.old ≢ AtOpened
            → (self.new.journal ≡ self.old.journal) × (self.new.current ≡ self.old.current)
            × (self.new.level ≡ self.old.level) × (place_on dev self.new ≡ AtOpened)
            × (place_beside dev self.new ≡ place_beside dev self.old)) }
        ensures err { OnErr result ((self.new.journal ≡ self.old.journal) × (self.new.current ≡ self.old.current)
            × (self.new.level ≡ self.old.level)) }
        ensures unplaced { OnOk result (((half_beside dev self.new).alive ≡ true
            → place_beside dev self.old ≡ AtOpened) → self.new.placed ≡ false) }
        ensures still_placed { OnOk result ((half_beside dev self.new).alive ≡ true
            → place_beside dev self.old ≢ AtOpened → self.new.placed ≡ self.old.placed) }
        ensures err_placed { OnErr result (self.new.placed ≡ self.old.placed) }
        ensures frame { OnOk result (((half_beside dev self.new).alive ≡ true → place_beside dev self.old ≡ AtOpened)
            → parts_of self.new ≡ kept_in (P.view self.new.plant).now (with_copy dev (parts_of self.new)
            (parts_of self.old))) }
        ensures frame_flying { OnOk result ((half_beside dev self.new).alive ≡ true
            → place_beside dev self.old ≢ AtOpened → parts_of self.new ≡ with_copy dev (parts_of self.new)
            (parts_of self.old)) }
        ensures frame_err { OnErr result (parts_of self.new ≡ with_copy dev (parts_of self.new) (parts_of self.old)) }
        ensures err_place { OnErr result (IsPlaceAfter result AtOpened (place_on dev self.new)) }
    {
        self.open_on(by, dev)?;
        if self.all_opened() {
            self.keep(self.level + 1);
        }
        Ok(())
    }

    // The batch in flight is kept: every alive copy has opened it, and has pages of this level.
    pub(crate) fn keep(&mut self, reached: u64)
        requires current { IsSome self.old.current }
        requires some { SomeAlive self.old.pair.first.alive self.old.pair.second.alive }
        requires first { self.old.pair.first.alive ≡ true → self.old.first ≡ AtOpened }
        requires second { self.old.pair.second.alive ≡ true → self.old.second ≡ AtOpened }
        requires next { P.tells → reached ≡ self.old.level + 1 }
        ensures { parts_of self.new ≡ record (kept_in (P.view self.old.plant).now (parts_of self.old))
            { level = reached } }
    {
        let last = self.plant.now();
        if let Some(batch) = self.current.take() {
            end_last(&mut self.journal, batch, Fate::Kept, last);
            self.placed = false;
            self.first = Place::Before;
            self.second = Place::Before;
            self.level = reached;
        }
    }

    // The batch in flight is dropped: no alive copy has it.
    pub(crate) fn drop_batch(&mut self)
        requires current { IsSome self.old.current }
        requires first { self.old.pair.first.alive ≡ true → self.old.first ≡ AtBefore }
        requires second { self.old.pair.second.alive ≡ true → self.old.second ≡ AtBefore }
        ensures { parts_of self.new ≡ dropped_in (P.view self.old.plant).now (parts_of self.old) }
    {
        let last = self.plant.now();
        if let Some(batch) = self.current.take() {
            end_last(&mut self.journal, batch, Fate::Dropped, last);
            self.placed = false;
            self.first = Place::Before;
            self.second = Place::Before;
        }
    }
}
