//! What became of a batch in flight is found on the copies.
ghost use Rattle.mas_complex.specs.Names.{Dev, Ckpt1, Ckpt2, IsConfig, page_bytes, pages_most, piece, page_count, disk_now, Rose, Disk, bytes_of, level, Halted as PairNoHalted, BothLost as PairNoBothLost, IsCkpt, other, Acted, IsBothLost, SomeAlive, pair_stopped, Before as AtBefore, Opened as AtOpened};
ghost use Rattle.std.specs.Prelude.{◌≡◌, ◌≢◌, ◌⊎◌, ◌+◌, ◌*◌, ◌≤◌, ◌<◌, ℕ, List, Option, Some, None, length, true, false, OnOk, OnErr, IfOk, IfSome, IsErrOf, IsSome};
ghost use Rattle.std.specs.Int.{from_be_bytes, w64};
ghost use Rattle.mas_complex.specs.declared.recover.RecoverNo.TheVariants.{BothLost as RecoverNoBothLost, Halted as RecoverNoHalted};
ghost use Rattle.mas_complex.specs.CallCounts.{pair_of};
ghost use Rattle.mas_complex.specs.Elsewhere.{OnPair};
ghost use Rattle.mas_complex.specs.Crash.{next_order, order_first, orders_most};
ghost use Rattle.mas_complex.specs.Meaning.{StandFor, run};
ghost use Rattle.mas_complex.specs.Parts.{half_beside, half_on, parts_of, place_beside, place_on, with_copies, with_copy, with_half, with_pair};
ghost use Rattle.mas_complex.specs.Places.{IsAtLevel};
ghost use Rattle.mas_complex.specs.Seen.{Agrees, IsOneSeen, OneSeen, ReadsSeen, looked, sought, Stays, HasFound, Chosen, DiffersAtFound, IsGreater, IsPicked, IsNextOr, IsFatedBy, IsUnfit, WasUnfit};
ghost use Rattle.mas_complex.specs.Recovers.{recover_no, recover_no_seen, recover_stopped};
ghost use Rattle.mas_complex.specs.Fits.{can_stay};
ghost use Rattle.mas_complex.specs.Locking.{MayAct, IsOfOther};
ghost use Rattle.mas_complex.specs.Begins.{kept_queue};

use crate::complex::Complex;
use crate::fitting::{NUMBERS, fits, list_found};
use ckpt_form::Steady;
use ckpt_places::Place;
use ckpt_tables::law_of_page_sizes;
use duplex_pair::{LookNo, PairNo, pages_level};
use lay_bytes::read_u64;
use mas_types::{Dev, List, MemberId, Page};
use spool_plant::Plant;
use std::alloc::Global;

/// Why nothing was recovered. A batch in flight still is.
#[derive(Clone, Copy)]
pub enum RecoverNo {
    /// Both copies count as lost at the end of the call.
    BothLost,
    /// The member was stopped inside the call: its count of stops rose.
    Halted,
    /// There was no memory for the pages, or the level or the next order of those found is beyond what the batches of
    /// the journal can have come to.
    NoMemory,
}

impl From<LookNo> for RecoverNo {
    ghost from_gives = { λ no e. e ≡ recover_no_seen no };

    fn from(no: LookNo) -> RecoverNo {
        match no {
            LookNo::Halted => RecoverNo::Halted,
            LookNo::NoMemory => RecoverNo::NoMemory,
        }
    }
}

impl From<PairNo> for RecoverNo {
    ghost from_gives = { λ no e. e ≡ recover_no no };

    fn from(no: PairNo) -> RecoverNo {
        match no {
            PairNo::BothLost => RecoverNo::BothLost,
            PairNo::Halted => RecoverNo::Halted,
        }
    }
}

// The next order of a run that begins is at most this, and a batch raises it by so much at most.
const ORDER_FIRST: u64 = 1 << 62;

const ORDERS_MOST: u64 = 1 << 19;

// The next order in a first page.
fn page_order(page: &Page) -> u64
    ensures order { result ≡ from_be_bytes w64 (piece 40 8 page.now.0) }
    ensures size { length page.now.0 ≡ page_bytes }
{
    read_u64(&page.0, 40)
}

// The next order, which stands in the first page. It is 0 where there are no pages.
#[tactic(auto, using(crate::proofs::Found::order_empty, crate::proofs::Found::order_head))]
fn pages_order(pages: &[Page]) -> u64
    ensures { result ≡ next_order (bytes_of pages.now) }
{
    if pages.is_empty() {
        return 0;
    }
    page_order(&pages[0])
}

// A copy with these pages, which isn't lost, stays beside those found: it has them, or is one batch behind and has
// room.
#[tactic(auto, using(crate::proofs::Found::fits_low, crate::proofs::Found::fits_same, crate::proofs::Found::fits_many))]
fn may_stay(place: Place, room: u8, found: &[Page], other: &[Page]) -> bool
    requires few { length found.now ≤ pages_most }
    ensures stays { result ≡ true → Stays place room found.now other.now }
    ensures fits { result ≡ can_stay place room found.now other.now }
{
    law_of_page_sizes(found);
    law_of_page_sizes(other);
    if pages_level(other) == pages_level(found) {
        return fits(found, other, room);
    }
    matches!(place, Place::Before) && fits(found, other, room)
}

impl<P: Plant + Drop, C: Steady + Drop> Complex<P, C> {
    // The copy on one device, which isn't lost and has these other pages, stays beside those found.
    fn stays_on(&self, dev: Dev, found: &[Page], other: &[Page]) -> bool
        requires ckpt { IsCkpt dev }
        requires few { length found.now ≤ pages_most }
        ensures stays { result ≡ true
            → Stays (place_on dev self.now) (C.room (half_on dev self.now).copy) found.now other.now }
        ensures fits { result ≡ can_stay (place_on dev self.now) (C.room (half_on dev self.now).copy) found.now
            other.now }
    {
        match dev {
            Dev::Ckpt1 => may_stay(self.first, self.pair.first.copy.room(), found, other),
            Dev::Ckpt2 => may_stay(self.second, self.pair.second.copy.room(), found, other),
            Dev::Spool(_) => unreachable!(),
        }
    }

    // The copy on one device, which has these other pages, is lost unless it stays beside those found.
    #[tactic(auto, using(crate::proofs::Counted::pair_none, crate::proofs::Found::agrees_stays))]
    fn lose_unfit(&mut self, dev: Dev, found: &[Page], other: &[Page])
        requires ckpt { IsCkpt dev }
        requires few { length found.now ≤ pages_most }
        requires seen { OneSeen P.tells (sought C.reads (parts_of self.old))
            (looked C.count C.room (half_on dev self.old) (place_on dev self.old)) other.now }
        requires reads { P.tells
            → C.reads (disk_now (P.view self.old.plant) dev).bytes ≡ Some (bytes_of other.now) }
        ensures frame { parts_of self.new ≡ with_half dev (parts_of self.new) (parts_of self.old) }
        ensures other { half_beside dev self.new ≡ half_beside dev self.old }
        ensures copy { (half_on dev self.new).copy ≡ (half_on dev self.old).copy }
        ensures agrees { (half_on dev self.new).alive ≡ true → Agrees P.tells (sought C.reads (parts_of self.old))
            (looked C.count C.room (half_on dev self.new) (place_on dev self.new))
            (disk_now (P.view self.new.plant) dev).bytes found.now }
        ensures unfit { (half_on dev self.new).alive ≡ false
            → can_stay (place_on dev self.old) (C.room (half_on dev self.old).copy) found.now other.now ≡ false }
        ensures leaves { (by : ℕ) → OnPair P.tells by false (pair_of self.old) (pair_of self.new) }
        ensures bytes { P.tells → (d : Dev)
            → (disk_now (P.view self.new.plant) d).bytes ≡ (disk_now (P.view self.old.plant) d).bytes }
    {
        if !self.stays_on(dev, found, other) {
            self.lose_copy(dev);
        }
    }

    // The pages of greater level, those of CKPT1 on a tie. The other copy is lost where it may not stay beside them.
    fn choose(&mut self, first: List<Page>, second: List<Page>) -> List<Page>
        requires first { IsOneSeen P.tells (sought C.reads (parts_of self.old))
            (looked C.count C.room self.old.pair.first self.old.first) (Some first) }
        requires second { IsOneSeen P.tells (sought C.reads (parts_of self.old))
            (looked C.count C.room self.old.pair.second self.old.second) (Some second) }
        requires reads1 { P.tells → ReadsSeen C.reads (disk_now (P.view self.old.plant) Ckpt1).bytes (Some first) }
        requires reads2 { P.tells → ReadsSeen C.reads (disk_now (P.view self.old.plant) Ckpt2).bytes (Some second) }
        ensures frame { parts_of self.new ≡ with_pair (parts_of self.new) (parts_of self.old) }
        ensures leaves { (by : ℕ) → OnPair P.tells by false (pair_of self.old) (pair_of self.new) }
        ensures chosen { Chosen P.tells (sought C.reads (parts_of self.old))
            (looked C.count C.room self.new.pair.first self.new.first)
            (looked C.count C.room self.new.pair.second self.new.second) (P.view self.new.plant) result }
        ensures copy1 { self.new.pair.first.copy ≡ self.old.pair.first.copy }
        ensures copy2 { self.new.pair.second.copy ≡ self.old.pair.second.copy }
        ensures greater { IsGreater (Some first) (Some second) result }
        ensures unfit1 { self.new.pair.first.alive ≡ false
            → can_stay self.old.first (C.room self.old.pair.first.copy) result first ≡ false }
        ensures unfit2 { self.new.pair.second.alive ≡ false
            → can_stay self.old.second (C.room self.old.pair.second.copy) result second ≡ false }
    {
        if pages_level(first.as_slice()) < pages_level(second.as_slice()) {
            self.lose_unfit(Dev::Ckpt1, second.as_slice(), first.as_slice());
            return second;
        }
        self.lose_unfit(Dev::Ckpt2, first.as_slice(), second.as_slice());
        first
    }

    // The pages found have the level reached or the next one, and a next order that the batches of the journal may have
    // come to.
    fn may_follow(&self, found: &[Page]) -> bool
        ensures level { result ≡ true → level (bytes_of found.now) ≤ self.now.level + 1 }
        ensures order { result ≡ true → next_order (bytes_of found.now)
            ≤ order_first + orders_most * length self.now.journal.batches }
    {
        pages_level(found) <= self.level.saturating_add(1)
            && pages_order(found) <= ORDER_FIRST + ORDERS_MOST * self.journal.len() as u64
    }

    // The pages found where a copy has some.
    #[tactic(auto, using(crate::proofs::Counted::pair_none))]
    fn choose_any(
        &mut self,
        first: Option<List<Page>>,
        second: Option<List<Page>>,
    ) -> Option<List<Page>>
        requires first { IsOneSeen P.tells (sought C.reads (parts_of self.old))
            (looked C.count C.room self.old.pair.first self.old.first) first }
        requires second { IsOneSeen P.tells (sought C.reads (parts_of self.old))
            (looked C.count C.room self.old.pair.second self.old.second) second }
        requires reads1 { P.tells → ReadsSeen C.reads (disk_now (P.view self.old.plant) Ckpt1).bytes first }
        requires reads2 { P.tells → ReadsSeen C.reads (disk_now (P.view self.old.plant) Ckpt2).bytes second }
        ensures frame { parts_of self.new ≡ with_pair (parts_of self.new) (parts_of self.old) }
        ensures leaves { (by : ℕ) → OnPair P.tells by false (pair_of self.old) (pair_of self.new) }
        ensures none { result ≡ None → IsBothLost self.new.pair.first.alive self.new.pair.second.alive }
        ensures neither { result ≡ None → (first ≡ None) × (second ≡ None) }
        ensures greater { IfSome result (IsGreater first second) }
        ensures chosen { IfSome result
            (λ found. Chosen P.tells (sought C.reads (parts_of self.old))
            (looked C.count C.room self.new.pair.first self.new.first)
            (looked C.count C.room self.new.pair.second self.new.second) (P.view self.new.plant) found) }
        ensures copy1 { self.new.pair.first.copy ≡ self.old.pair.first.copy }
        ensures copy2 { self.new.pair.second.copy ≡ self.old.pair.second.copy }
        ensures alive1 { self.new.pair.first.alive ≡ true → self.old.pair.first.alive ≡ true }
        ensures alive2 { self.new.pair.second.alive ≡ true → self.old.pair.second.alive ≡ true }
        ensures unfit1 { IfSome result
            (λ found. self.old.pair.first.alive ≡ true → self.new.pair.first.alive ≡ false
            → IsUnfit first self.old.first (C.room self.old.pair.first.copy) found) }
        ensures unfit2 { IfSome result
            (λ found. self.old.pair.second.alive ≡ true → self.new.pair.second.alive ≡ false
            → IsUnfit second self.old.second (C.room self.old.pair.second.copy) found) }
    {
        match (first, second) {
            (Some(first), Some(second)) => Some(self.choose(first, second)),
            (Some(first), None) => Some(first),
            (None, second) => second,
        }
    }

    // One copy, which is one batch behind these pages, gets those of them that have the level found.
    fn bring_copy(&mut self, by: MemberId, dev: Dev, found: &[Page]) -> Result<(), PairNo>
        requires ckpt { IsCkpt dev }
        requires alive { (half_on dev self.old).alive ≡ true }
        requires beside { (half_beside dev self.old).alive ≡ true }
        requires place { place_on dev self.old ≡ AtBefore }
        requires room { 1 ≤ C.room (half_on dev self.old).copy }
        requires as_many { length found.now ≡ C.count (half_on dev self.old).copy }
        requires some { 1 ≤ length found.now }
        requires few { length found.now ≤ pages_most }
        requires next { P.tells → IsNextOr (sought C.reads (parts_of self.old)) found.now }
        requires level { level (bytes_of found.now) ≡ self.old.level + 1 }
        requires differs { P.tells → (was : List ℕ) → C.reads (disk_now (P.view self.old.plant) dev).bytes ≡ Some was
            → DiffersAtFound was found.now }
        requires same { P.tells → (half_beside dev self.old).alive ≡ true → (place_beside dev self.old ≡ AtOpened)
            × (C.reads (disk_now (P.view self.old.plant) (other dev Ckpt1 Ckpt2)).bytes ≡ Some (bytes_of found.now)) }
        ensures frame { parts_of self.new ≡ with_copy dev (parts_of self.new) (parts_of self.old) }
        ensures acted { Acted by.0 dev (half_on dev self.old).alive (half_on dev self.new).alive (pair_stopped result)
            (P.view self.old.plant) (P.view self.new.plant) }
        ensures other_place { place_beside dev self.new ≡ place_beside dev self.old }
        ensures other { half_beside dev self.new ≡ half_beside dev self.old }
        ensures count { C.count (half_on dev self.new).copy ≡ C.count (half_on dev self.old).copy }
        ensures place { OnOk result (place_on dev self.new ≡ AtOpened) }
        ensures reads { OnOk result (P.tells → (half_on dev self.new).alive ≡ true
            → C.reads (disk_now (P.view self.new.plant) dev).bytes ≡ Some (bytes_of found.now)) }
        ensures others { P.tells → (d : Dev) → d ≢ dev
            → (disk_now (P.view self.new.plant) d).bytes ≡ (disk_now (P.view self.old.plant) d).bytes }
        ensures leaves { OnPair P.tells by.0 (pair_stopped result) (pair_of self.old) (pair_of self.new) }
        ensures both { IsErrOf result PairNoBothLost → IsBothLost self.new.pair.first.alive self.new.pair.second.alive }
        ensures some { SomeAlive self.new.pair.first.alive self.new.pair.second.alive }
    {
        let mut numbers = [0; NUMBERS];
        let count = list_found(found, &mut numbers);
        self.put_on(by, dev, found, &numbers[..count])?;
        self.open_on(by, dev)
    }

    // Each copy that counts as alive gets the pages found.
    #[tactic(auto, using(crate::proofs::Counted::pair_none))]
    fn bring(&mut self, by: MemberId, found: &[Page]) -> Result<(), PairNo>
        requires chosen { Chosen P.tells (sought C.reads (parts_of self.old))
            (looked C.count C.room self.old.pair.first self.old.first)
            (looked C.count C.room self.old.pair.second self.old.second) (P.view self.old.plant) found.now }
        ensures frame { parts_of self.new ≡ with_copies (parts_of self.new) (parts_of self.old) }
        ensures leaves { OnPair P.tells by.0 (pair_stopped result) (pair_of self.old) (pair_of self.new) }
        ensures halted { IsErrOf result PairNoHalted
            → Rose ((P.view self.old.plant).stops by.0) ((P.view self.new.plant).stops by.0) }
        ensures both { IsErrOf result PairNoBothLost → IsBothLost self.new.pair.first.alive self.new.pair.second.alive }
        ensures some { SomeAlive self.new.pair.first.alive self.new.pair.second.alive }
        ensures as_many1 { self.new.pair.first.alive ≡ true → length found.now ≡ C.count self.new.pair.first.copy }
        ensures as_many2 { self.new.pair.second.alive ≡ true → length found.now ≡ C.count self.new.pair.second.copy }
        ensures first { OnOk result (self.new.pair.first.alive ≡ true
            → HasFound P.tells (sought C.reads (parts_of self.old)) (looked C.count C.room self.new.pair.first
            self.new.first) (disk_now (P.view self.new.plant) Ckpt1).bytes found.now) }
        ensures second { OnOk result (self.new.pair.second.alive ≡ true
            → HasFound P.tells (sought C.reads (parts_of self.old)) (looked C.count C.room self.new.pair.second
            self.new.second) (disk_now (P.view self.new.plant) Ckpt2).bytes found.now) }
        ensures not_both { IsErrOf result PairNoBothLost → ⊥ }
        ensures room1 { self.new.pair.first.alive ≡ false → self.old.pair.first.alive ≡ false
            → self.new.pair.first.copy ≡ self.old.pair.first.copy }
        ensures room2 { self.new.pair.second.alive ≡ false → self.old.pair.second.alive ≡ false
            → self.new.pair.second.copy ≡ self.old.pair.second.copy }
        ensures failed1 { self.old.pair.first.alive ≡ true → self.new.pair.first.alive ≡ false
            → Rose ((P.view self.old.plant).faults (Disk Ckpt1)) ((P.view self.new.plant).faults (Disk Ckpt1)) }
        ensures failed2 { self.old.pair.second.alive ≡ true → self.new.pair.second.alive ≡ false
            → Rose ((P.view self.old.plant).faults (Disk Ckpt2)) ((P.view self.new.plant).faults (Disk Ckpt2)) }
    {
        if pages_level(found) == self.level {
            return Ok(());
        }
        if self.pair.first.alive && matches!(self.first, Place::Before) {
            return self.bring_copy(by, Dev::Ckpt1, found);
        }
        if self.pair.second.alive && matches!(self.second, Place::Before) {
            return self.bring_copy(by, Dev::Ckpt2, found);
        }
        Ok(())
    }

    // The pages with this level are kept, though no batch is in flight.
    fn rise(&mut self, reached: u64)
        requires none { self.old.current ≡ None }
        requires some { SomeAlive self.old.pair.first.alive self.old.pair.second.alive }
        requires next { P.tells → reached ≡ self.old.level + 1 }
        requires first { self.old.pair.first.alive ≡ true → self.old.first ≡ AtOpened }
        requires second { self.old.pair.second.alive ≡ true → self.old.second ≡ AtOpened }
        ensures { parts_of self.new ≡ record (parts_of self.old)
            { first = AtBefore; second = AtBefore; level = reached } }
    {
        self.first = Place::Before;
        self.second = Place::Before;
        self.level = reached;
    }

    // The batch in flight, if there is one, gets its fate by the level of the pages that the copies have.
    fn give_fate(&mut self, reached: u64)
        requires some { SomeAlive self.old.pair.first.alive self.old.pair.second.alive }
        requires next { P.tells → reached ≢ self.old.level → reached ≡ self.old.level + 1 }
        requires first { self.old.pair.first.alive ≡ true → IsAtLevel reached self.old.level self.old.first }
        requires second { self.old.pair.second.alive ≡ true → IsAtLevel reached self.old.level self.old.second }
        ensures frame { parts_of self.new ≡ record (parts_of self.old) {
          batches = self.new.journal.batches;
          current = None;
          placed = self.new.placed;
          first = self.new.first;
          second = self.new.second;
          level = reached;
        } }
        ensures unplaced { IsSome self.old.current → self.new.placed ≡ false }
        ensures still_placed { self.old.current ≡ None → self.new.placed ≡ self.old.placed }
        ensures fated { IsFatedBy reached self.old.level (P.view self.old.plant).now self.old.current
            self.old.journal.batches self.new.journal.batches }
        ensures first { self.new.pair.first.alive ≡ true → self.new.first ≡ AtBefore }
        ensures second { self.new.pair.second.alive ≡ true → self.new.second ≡ AtBefore }
    {
        let in_flight = self.current.is_some();
        match (reached == self.level, in_flight) {
            (true, true) => self.drop_batch(),
            (true, false) => {}
            (false, true) => self.keep(reached),
            (false, false) => self.rise(reached),
        }
    }

    /// Finds out what became of a batch in flight, which is of another member than the one that holds the lock and
    /// isn't stopped: syncs and reads both copies, brings the one that lags up to the other, and hands back the pages
    /// that both then have. The batch is kept where the pages have it, and else it is dropped; one that is reserved and
    /// hasn't begun is given up. The pages are those of greatest level, those of CKPT1 on a tie, and as many as the
    /// configuration has. A copy that can't be read, that has another number of pages, or whose pages don't fit them,
    /// is lost.
    ///
    /// A batch that was in flight has no place after that; without one the place of a batch to come stays.
    ///
    /// BothLost comes only where both copies count as lost at the end of the call, Halted only where the member was
    /// stopped in it; a copy counts as alive then. After an error a batch in flight still is, in its place. NoMemory
    /// comes where there was no memory for the pages, or where the level of those found is above the one reached and
    /// one, or their next order beyond what a run's batches come to, which begins below 2^62.
    pub fn recover(&mut self, alloc: Global, by: MemberId) -> Result<List<Page>, RecoverNo>
        requires may { MayAct self.old.book by }
        requires others { IsOfOther self.old.current by }
        requires config { IsConfig self.old.base.config }
        ensures base { self.new.base ≡ self.old.base }
        ensures since { self.new.since ≡ self.old.since }
        ensures renewals { self.new.renewals ≡ self.old.renewals }
        ensures printed { self.new.printed ≡ self.old.printed }
        ensures book { self.new.book ≡ self.old.book }
        ensures reserved { self.new.reserved ≡ None }
        ensures leaves { OnPair P.tells by.0 (recover_stopped result) (pair_of self.old) (pair_of self.new) }
        ensures halted { IsErrOf result RecoverNoHalted
            → Rose ((P.view self.old.plant).stops by.0) ((P.view self.new.plant).stops by.0) }
        ensures both { IsErrOf result RecoverNoBothLost
            → IsBothLost self.new.pair.first.alive self.new.pair.second.alive }
        ensures one_stands { IsErrOf result RecoverNoHalted
            → SomeAlive self.new.pair.first.alive self.new.pair.second.alive }
        ensures err { OnErr result ((self.new.journal ≡ self.old.journal) × (self.new.current ≡ self.old.current)
            × (self.new.level ≡ self.old.level)) }
        ensures ok { OnOk result (SomeAlive self.new.pair.first.alive self.new.pair.second.alive) }
        ensures none { OnOk result (self.new.current ≡ None) }
        ensures fated { IfOk result (λ found.
            IsFatedBy (level (bytes_of found)) self.old.level (P.view self.new.plant).now self.old.current
            self.old.journal.batches self.new.journal.batches) }
        ensures level { IfOk result (λ found. self.new.level ≡ level (bytes_of found)) }
        ensures first { OnOk result (self.new.pair.first.alive ≡ true → self.new.first ≡ AtBefore) }
        ensures second { OnOk result (self.new.pair.second.alive ≡ true → self.new.second ≡ AtBefore) }
        ensures as_many1 { IfOk result
            (λ found. self.new.pair.first.alive ≡ true → length found ≡ C.count self.new.pair.first.copy) }
        ensures as_many2 { IfOk result
            (λ found. self.new.pair.second.alive ≡ true → length found ≡ C.count self.new.pair.second.copy) }
        ensures reads1 { IfOk result (λ found. P.tells → self.new.pair.first.alive ≡ true
            → C.reads (disk_now (P.view self.new.plant) Ckpt1).bytes ≡ Some (bytes_of found)) }
        ensures reads2 { IfOk result (λ found. P.tells → self.new.pair.second.alive ≡ true
            → C.reads (disk_now (P.view self.new.plant) Ckpt2).bytes ≡ Some (bytes_of found)) }
        ensures stands { IfOk result (λ found. P.tells → ∥ StandFor (kept_queue self.new) (bytes_of found) ∥₁) }
        ensures many { IfOk result (λ found. length found ≡ page_count self.old.base.config) }
        ensures near { IfOk result (λ found. level (bytes_of found) ≤ self.old.level + 1) }
        ensures low { IfOk result (λ found. next_order (bytes_of found)
            ≤ order_first + orders_most * length self.new.journal.batches) }
        ensures picked { IfOk result (λ found. P.tells
            → IsPicked C.reads (pair_of self.old) (pair_of self.new) found) }
        ensures left { IfOk result (λ found. P.tells → (d : Dev) → IsCkpt d → (half_on d self.old).alive ≡ true
            → (half_on d self.new).alive ≡ false
            → Rose ((P.view self.old.plant).faults (Disk d)) ((P.view self.new.plant).faults (Disk d))
            ⊎ WasUnfit C.reads (disk_now (P.view self.old.plant) d).bytes self.old.level
            (C.room_in (disk_now (P.view self.old.plant) d).bytes) found) }
        ensures both_failed { OnErr result (IsBothLost self.new.pair.first.alive self.new.pair.second.alive
            → P.tells → (d : Dev) → IsCkpt d → (half_on d self.old).alive ≡ true
            → Rose ((P.view self.old.plant).faults (Disk d)) ((P.view self.new.plant).faults (Disk d))) }
        ensures frame { OnOk result (parts_of self.new ≡ record (with_copies (parts_of self.new) (parts_of self.old)) {
          batches = self.new.journal.batches;
          current = None;
          reserved = None;
          placed = self.new.placed;
          level = self.new.level;
        }) }
        ensures frame_err { OnErr result
            (parts_of self.new ≡ record (with_copies (parts_of self.new) (parts_of self.old)) { reserved = None }) }
        ensures unplaced { OnOk result (IsSome self.old.current → self.new.placed ≡ false) }
        ensures still_placed { OnOk result (self.old.current ≡ None → self.new.placed ≡ self.old.placed) }
    {
        self.reserved = None;
        let first = self.see_on(alloc, by, Dev::Ckpt1)?;
        let second = self.see_on(alloc, by, Dev::Ckpt2)?;
        let Some(found) = self.choose_any(first, second) else {
            return Err(RecoverNo::BothLost);
        };
        if !self.may_follow(found.as_slice()) {
            return Err(RecoverNo::NoMemory);
        }
        self.bring(by, found.as_slice())?;
        self.give_fate(pages_level(found.as_slice()));
        Ok(found)
    }
}
