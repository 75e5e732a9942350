//! A batch to come has its place, and begins.
ghost use Rattle.mas_complex.specs.Names.{Batch, Entry, Kept as FateKept, AreToldAlike, Before as AtBefore};
ghost use Rattle.std.specs.Prelude.{◌≡◌, ◌≤◌, ◌^◌, ◌++◌, [], ◌∷◌, List, Some, None, length, true, false, OnOk, OnErr, IsSome, All};
ghost use Rattle.mas_complex.specs.Journals.{kept_all, entries_reserved, begun, fated, IsPlace, with_last, without_last};
ghost use Rattle.mas_complex.specs.Locking.{MayAct};
ghost use Rattle.mas_complex.specs.Paper.{printed_after};
ghost use Rattle.mas_complex.specs.Parts.{begun_in, kept_same_in, parts_of, placed_at, reserved_in, unreserved_in};
ghost use Rattle.mas_complex.specs.Begins.{HasRepliesOf, HasTextsWith, IsUntoldOf, MayBeginOf, kept_queue, queue_with};

use crate::complex::Complex;
use crate::counts::count_anew;
use crate::journal_end::{drop_last, empty_place, push_place, set_last};
use brief_journal::{BriefBatch, BriefEntries};
use ckpt_form::Steady;
use mas_types::{Entry, Fate, List, MemberId, NoMemory};
use spool_plant::Plant;
use std::alloc::Global;

// A batch has at most so many entries.
const ENTRIES_MOST: usize = 16_384;

impl<P: Plant + Drop, C: Steady + Drop> Complex<P, C> {
    // The journal gets the place of a batch to come.
    fn add_place(&mut self, alloc: Global) -> Result<(), NoMemory>
        requires none { self.old.placed ≡ false }
        ensures pair { self.new.pair ≡ self.old.pair }
        ensures placed { OnOk result (parts_of self.new
            ≡ record (parts_of self.old) {
              batches = placed_at (P.view self.old.plant).now false self.old.journal.batches;
              placed = true;
            }) }
        ensures none { OnErr result (parts_of self.new ≡ parts_of self.old) }
        ensures kept { kept_all self.new.journal.batches ≡ kept_all self.old.journal.batches }
        ensures grown { OnOk result ((place : Batch)
            × (self.new.journal.batches ≡ self.old.journal.batches ++ place ∷ []) × IsPlace place) }
    {
        let place = empty_place(alloc, self.plant.now());
        push_place(&mut self.journal, place)?;
        self.placed = true;
        Ok(())
    }

    /// The batch to come gets its place in the journal. It has an entry, each is of the member that holds the lock, or
    /// of the operator where nobody does, and nothing may be in flight. A batch that was reserved before and hasn't
    /// begun is given up.
    ///
    /// NoMemory comes where the place can't be had, also where the journal has 2^40 batches, or this one more than
    /// 16,384 entries; the value is as it was.
    pub fn reserve(&mut self, alloc: Global, entries: List<Entry>) -> Result<(), NoMemory>
        requires none { self.old.current ≡ None }
        requires some { 1 ≤ length entries }
        requires own { All (λ e. e.by ≡ self.old.book.holder) entries }
        ensures plant { self.new.plant ≡ self.old.plant }
        ensures pair { self.new.pair ≡ self.old.pair }
        ensures base { self.new.base ≡ self.old.base }
        ensures since { self.new.since ≡ self.old.since }
        ensures renewals { self.new.renewals ≡ self.old.renewals }
        ensures printed { self.new.printed ≡ self.old.printed }
        ensures book { self.new.book ≡ self.old.book }
        ensures current { self.new.current ≡ self.old.current }
        ensures first { self.new.first ≡ self.old.first }
        ensures second { self.new.second ≡ self.old.second }
        ensures level { self.new.level ≡ self.old.level }
        ensures kept { kept_all self.new.journal.batches ≡ kept_all self.old.journal.batches }
        ensures err { OnErr result ((self.new.journal ≡ self.old.journal) × (self.new.reserved ≡ self.old.reserved)) }
        ensures reserved { OnOk result (self.new.reserved ≡ Some entries) }
        ensures few { OnOk result (length entries ≤ 2 ^ 14) }
        ensures placed { OnOk result (self.new.placed ≡ true) }
        ensures grown { OnOk result (self.old.placed ≡ false → (place : Batch)
            × (self.new.journal.batches ≡ self.old.journal.batches ++ place ∷ []) × IsPlace place) }
        ensures same { self.old.placed ≡ true → self.new.journal ≡ self.old.journal }
        ensures unplaced { OnErr result (self.new.placed ≡ self.old.placed) }
        ensures frame { OnOk result (parts_of self.new
            ≡ reserved_in (P.view self.old.plant).now entries (parts_of self.old)) }
        ensures none { OnErr result (parts_of self.new ≡ parts_of self.old) }
    {
        if entries.len() > ENTRIES_MOST {
            return Err(NoMemory);
        }
        let brief = BriefEntries::of(alloc, &entries)?;
        if !self.placed {
            self.add_place(alloc)?;
        }
        self.reserved = Some(brief);
        Ok(())
    }

    // The journal loses the place of a batch to come, which isn't reserved any more.
    fn drop_place(&mut self)
        requires none { self.old.current ≡ None }
        requires unreserved { self.old.reserved ≡ None }
        requires placed { self.old.placed ≡ true }
        ensures { parts_of self.new ≡ record (parts_of self.old)
            { batches = without_last self.old.journal.batches; placed = false } }
    {
        drop_last(&mut self.journal);
        self.placed = false;
    }

    /// Gives up a batch that is reserved and hasn't begun, and its place. The place of a batch in flight stays.
    pub fn give_up_reserved(&mut self)
        ensures { parts_of self.new ≡ unreserved_in (parts_of self.old) }
    {
        self.reserved = None;
        if self.current.is_none() && self.placed {
            self.drop_place();
        }
    }

    // The reserved batch begins.
    fn begin(&mut self, by: MemberId)
        requires may { MayAct self.old.book by }
        requires none { self.old.current ≡ None }
        requires replied { P.tells → HasRepliesOf self.old (entries_reserved self.old.reserved) }
        requires own { All (λ e. e.by ≡ by) (entries_reserved self.old.reserved) }
        requires allowed { P.tells → MayBeginOf self.old (entries_reserved self.old.reserved) }
        requires first { self.old.pair.first.alive ≡ true → self.old.first ≡ AtBefore }
        requires second { self.old.pair.second.alive ≡ true → self.old.second ≡ AtBefore }
        requires untold { P.tells → IsUntoldOf self.old (entries_reserved self.old.reserved) }
        requires texts { P.tells → HasTextsWith self.old (entries_reserved self.old.reserved) }
        ensures { parts_of self.new ≡ begun_in (P.view self.old.plant).now by (parts_of self.old) }
    {
        let first = self.plant.now();
        if let Some(entries) = self.reserved.take() {
            count_anew(&mut self.printed, by, &entries);
            self.current = Some(BriefBatch {
                first,
                last: u64::MAX,
                by,
                fate: Fate::Flying,
                entries,
            });
        }
    }

    // The reserved batch begins, where none is in flight.
    pub(crate) fn begin_first(&mut self, by: MemberId)
        requires may { MayAct self.old.book by }
        requires first { self.old.current ≡ None → self.old.pair.first.alive ≡ true → self.old.first ≡ AtBefore }
        requires second { self.old.current ≡ None → self.old.pair.second.alive ≡ true → self.old.second ≡ AtBefore }
        requires replied { P.tells → self.old.current ≡ None
            → HasRepliesOf self.old (entries_reserved self.old.reserved) }
        requires own { self.old.current ≡ None → All (λ e. e.by ≡ by) (entries_reserved self.old.reserved) }
        requires allowed { P.tells → self.old.current ≡ None
            → MayBeginOf self.old (entries_reserved self.old.reserved) }
        requires untold { P.tells → self.old.current ≡ None → IsUntoldOf self.old (entries_reserved self.old.reserved) }
        requires texts { P.tells → self.old.current ≡ None → HasTextsWith self.old
            (entries_reserved self.old.reserved) }
        ensures { parts_of self.new ≡ begun_in (P.view self.old.plant).now by (parts_of self.old) }
    {
        if self.current.is_some() {
            return;
        }
        self.begin(by);
    }

    /// Keeps the reserved batch without a write: pages that stand for the queue stand for it with the batch too, whose
    /// texts stand on the spool volumes as `log` asks it, and its entries, each of the member that acts, have their
    /// replies.
    pub fn keep_same(&mut self, by: MemberId)
        requires may { MayAct self.old.book by }
        requires own { All (λ e. e.by ≡ by) (entries_reserved self.old.reserved) }
        requires none { self.old.current ≡ None }
        requires reserved { IsSome self.old.reserved }
        requires replied { P.tells → HasRepliesOf self.old (entries_reserved self.old.reserved) }
        requires allowed { P.tells → MayBeginOf self.old (entries_reserved self.old.reserved) }
        requires first { self.old.pair.first.alive ≡ true → self.old.first ≡ AtBefore }
        requires second { self.old.pair.second.alive ≡ true → self.old.second ≡ AtBefore }
        requires untold { P.tells → IsUntoldOf self.old (entries_reserved self.old.reserved) }
        requires texts { P.tells → HasTextsWith self.old (entries_reserved self.old.reserved) }
        requires queue { P.tells → ∥ AreToldAlike (kept_queue self.old) (queue_with self.old
            (entries_reserved self.old.reserved)) ∥₁ }
        ensures plant { self.new.plant ≡ self.old.plant }
        ensures pair { self.new.pair ≡ self.old.pair }
        ensures base { self.new.base ≡ self.old.base }
        ensures since { self.new.since ≡ self.old.since }
        ensures renewals { self.new.renewals ≡ self.old.renewals }
        ensures printed { self.new.printed ≡ printed_after by (entries_reserved self.old.reserved) self.old.printed }
        ensures book { self.new.book ≡ self.old.book }
        ensures current { self.new.current ≡ self.old.current }
        ensures first { self.new.first ≡ self.old.first }
        ensures second { self.new.second ≡ self.old.second }
        ensures level { self.new.level ≡ self.old.level }
        ensures fated { (entries : List Entry) → self.old.reserved ≡ Some entries
            → self.new.journal.batches ≡ with_last
            (fated FateKept (P.view self.old.plant).now (begun (P.view self.old.plant).now by entries))
            self.old.journal.batches }
        ensures none { self.new.reserved ≡ None }
        ensures unplaced { self.new.placed ≡ false }
        ensures frame { parts_of self.new ≡ kept_same_in (P.view self.old.plant).now by (parts_of self.old) }
    {
        let now = self.plant.now();
        if let Some(entries) = self.reserved.take() {
            count_anew(&mut self.printed, by, &entries);
            set_last(
                &mut self.journal,
                BriefBatch {
                    first: now,
                    last: now,
                    by,
                    fate: Fate::Kept,
                    entries,
                },
            );
            self.placed = false;
        }
    }
}
