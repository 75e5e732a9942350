//! The copies between batches, and lost devices.
ghost use Rattle.mas_complex.specs.Names.{Dev, Ckpt1, Ckpt2, Spool, disk_now, Loses, LosesThere, Disk, bytes_of, level, page_in, BothLost as PairNoBothLost, IsCkpt, other, IsBothLost, SomeAlive, pair_stopped, Before as AtBefore, page_count};
ghost use Rattle.std.specs.Prelude.{◌≡◌, ◌<◌, ℕ, List, Some, None, length, true, false, OnOk, OnErr, IsErrOf};
ghost use Rattle.mas_complex.specs.Places.{IsPlaceAfter};
ghost use Rattle.mas_complex.specs.Elsewhere.{Elsewhere, OnCopies, OnPair};
ghost use Rattle.mas_complex.specs.Crash.{copy_of};
ghost use Rattle.mas_complex.specs.Kept.{HaveKept, OnlyOnCopies};
ghost use Rattle.mas_complex.specs.Locking.{MayAct};
ghost use Rattle.mas_complex.specs.Paper.{SamePapers};
ghost use Rattle.mas_complex.specs.Past.{HavePasts, sight_of, values_of};
ghost use Rattle.mas_complex.specs.Parts.{half_beside, half_on, parts_of, place_on, with_copies, with_half, with_pair};
ghost use Rattle.mas_complex.specs.Begins.{kept_queue};
ghost use Rattle.mas_complex.specs.CallCounts.{ActedOn, TookReadActs, pair_of};

use crate::complex::Complex;
use crate::places::place_after;
use ckpt_form::Steady;
use ckpt_places::Place;
use duplex_pair::PairNo;
use mas_types::{Dev, MemberId, Page};
use spool_plant::Plant;

impl<P: Plant + Drop, C: Steady + Drop> Complex<P, C> {
    // One copy is lost, with its device.
    pub(crate) fn lose_copy(&mut self, dev: Dev)
        requires ckpt { IsCkpt dev }
        ensures frame { parts_of self.new ≡ with_half dev (parts_of self.new) (parts_of self.old) }
        ensures other { half_beside dev self.new ≡ half_beside dev self.old }
        ensures had { self.new.had ≡ self.old.had }
        ensures dead { (half_on dev self.new).alive ≡ false }
        ensures copy { (half_on dev self.new).copy ≡ (half_on dev self.old).copy }
        ensures loses { Loses (Disk dev) (P.view self.old.plant) (P.view self.new.plant) }
        ensures elsewhere { P.tells → Elsewhere dev (P.view self.old.plant) (P.view self.new.plant) }
        ensures leaves { (half_on dev self.old).alive ≡ true → (by : ℕ)
            → OnPair P.tells by false (pair_of self.old) (pair_of self.new) }
        ensures bytes { P.tells → (d : Dev)
            → (disk_now (P.view self.new.plant) d).bytes ≡ (disk_now (P.view self.old.plant) d).bytes }
    {
        self.pair.lose(&mut self.plant, dev);
    }

    fn lose_volume(&mut self, volume: u8)
        ensures pair { self.new.pair ≡ self.old.pair }
        ensures had { self.new.had ≡ self.old.had }
        ensures frame { parts_of self.new ≡ record (parts_of self.old) { plant = self.new.plant } }
        ensures loses { Loses (Disk (Spool volume)) (P.view self.old.plant) (P.view self.new.plant) }
        ensures there { P.tells → LosesThere (Spool volume) (P.view self.old.plant) (P.view self.new.plant) }
        ensures elsewhere { P.tells → Elsewhere (Spool volume) (P.view self.old.plant) (P.view self.new.plant) }
        ensures bytes { P.tells → (d : Dev)
            → (disk_now (P.view self.new.plant) d).bytes ≡ (disk_now (P.view self.old.plant) d).bytes }
    {
        self.plant.lose(Dev::Spool(volume));
    }

    /// A device is lost, and the copy on it with it. A text with a group on a volume that is lost need not stand any
    /// more.
    pub fn lose(&mut self, dev: Dev)
        ensures base { self.new.base ≡ self.old.base }
        ensures since { self.new.since ≡ self.old.since }
        ensures renewals { self.new.renewals ≡ self.old.renewals }
        ensures printed { self.new.printed ≡ self.old.printed }
        ensures book { self.new.book ≡ self.old.book }
        ensures journal { self.new.journal ≡ self.old.journal }
        ensures current { self.new.current ≡ self.old.current }
        ensures reserved { self.new.reserved ≡ self.old.reserved }
        ensures placed { self.new.placed ≡ self.old.placed }
        ensures first { self.new.first ≡ self.old.first }
        ensures second { self.new.second ≡ self.old.second }
        ensures had { self.new.had ≡ self.old.had }
        ensures level { self.new.level ≡ self.old.level }
        ensures dead { IsCkpt dev → (half_on dev self.new).alive ≡ false }
        ensures volume { (n : ℕ) → dev ≡ Spool n → self.new.pair ≡ self.old.pair }
        ensures copy { (half_on dev self.new).copy ≡ (half_on dev self.old).copy }
        ensures other { half_beside dev self.new ≡ half_beside dev self.old }
        ensures loses { Loses (Disk dev) (P.view self.old.plant) (P.view self.new.plant) }
        ensures there { P.tells → (n : ℕ) → dev ≡ Spool n
            → LosesThere (Spool n) (P.view self.old.plant) (P.view self.new.plant) }
        ensures elsewhere { P.tells → Elsewhere dev (P.view self.old.plant) (P.view self.new.plant) }
        ensures bytes { P.tells → (d : Dev)
            → (disk_now (P.view self.new.plant) d).bytes ≡ (disk_now (P.view self.old.plant) d).bytes }
        ensures frame { parts_of self.new ≡ with_half dev (parts_of self.new) (parts_of self.old) }
    {
        match dev {
            Dev::Ckpt1 | Dev::Ckpt2 => self.lose_copy(dev),
            Dev::Spool(volume) => self.lose_volume(volume),
        }
    }

    /// Makes room for puts again on each copy that counts as alive. The member holds the lock and isn't stopped,
    /// nothing may be in flight, and the pages are those that these copies read, and read afterwards. BothLost comes
    /// only where both copies count as lost at the end of the call, Halted only where the member was stopped in it.
    pub fn settle(&mut self, by: MemberId, pages: &[Page]) -> Result<(), PairNo>
        requires may { MayAct self.old.book by }
        requires none { self.old.current ≡ None }
        requires first { self.old.pair.first.alive ≡ true → self.old.first ≡ AtBefore }
        requires second { self.old.pair.second.alive ≡ true → self.old.second ≡ AtBefore }
        requires as_many1 { self.old.pair.first.alive ≡ true → length pages.now ≡ C.count self.old.pair.first.copy }
        requires as_many2 { self.old.pair.second.alive ≡ true → length pages.now ≡ C.count self.old.pair.second.copy }
        requires reads1 { P.tells → self.old.pair.first.alive ≡ true
            → C.reads (disk_now (P.view self.old.plant) Ckpt1).bytes ≡ Some (bytes_of pages.now) }
        requires reads2 { P.tells → self.old.pair.second.alive ≡ true
            → C.reads (disk_now (P.view self.old.plant) Ckpt2).bytes ≡ Some (bytes_of pages.now) }
        ensures base { self.new.base ≡ self.old.base }
        ensures since { self.new.since ≡ self.old.since }
        ensures renewals { self.new.renewals ≡ self.old.renewals }
        ensures printed { self.new.printed ≡ self.old.printed }
        ensures book { self.new.book ≡ self.old.book }
        ensures journal { self.new.journal ≡ self.old.journal }
        ensures current { self.new.current ≡ self.old.current }
        ensures reserved { self.new.reserved ≡ self.old.reserved }
        ensures placed { self.new.placed ≡ self.old.placed }
        ensures had { self.new.had ≡ self.old.had }
        ensures level { self.new.level ≡ self.old.level }
        ensures place1 { IsPlaceAfter result AtBefore self.new.first }
        ensures place2 { IsPlaceAfter result AtBefore self.new.second }
        ensures count1 { C.count self.new.pair.first.copy ≡ C.count self.old.pair.first.copy }
        ensures count2 { C.count self.new.pair.second.copy ≡ C.count self.old.pair.second.copy }
        ensures room1 { OnOk result (self.new.pair.first.alive ≡ true → C.room self.new.pair.first.copy ≡ C.room_most) }
        ensures room2 { OnOk result (self.new.pair.second.alive ≡ true
            → C.room self.new.pair.second.copy ≡ C.room_most) }
        ensures still1 { OnOk result (P.tells → self.new.pair.first.alive ≡ true
            → C.reads (disk_now (P.view self.new.plant) Ckpt1).bytes ≡ Some (bytes_of pages.now)) }
        ensures still2 { OnOk result (P.tells → self.new.pair.second.alive ≡ true
            → C.reads (disk_now (P.view self.new.plant) Ckpt2).bytes ≡ Some (bytes_of pages.now)) }
        ensures acted { ActedOn by.0 (pair_stopped result) (pair_of self.old) (pair_of self.new) }
        ensures apart { P.tells → OnCopies (P.view self.old.plant) (P.view self.new.plant) }
        ensures throughout { P.tells → OnlyOnCopies (P.view self.old.plant) (P.view self.new.plant) }
        ensures papers { P.tells → SamePapers (P.view self.old.plant) (P.view self.new.plant) }
        ensures both { IsErrOf result PairNoBothLost → IsBothLost self.new.pair.first.alive self.new.pair.second.alive }
        ensures ok { OnOk result (SomeAlive self.new.pair.first.alive self.new.pair.second.alive) }
        ensures frame { parts_of self.new ≡ with_copies (parts_of self.new) (parts_of self.old) }
    {
        let done = self.pair.settle(&mut self.plant, by, pages);
        self.first = place_after(&done, Place::Before);
        self.second = place_after(&done, Place::Before);
        done
    }

    /// Reads a page of the checkpoint for the member that holds the lock and isn't stopped, from CKPT1 while its copy
    /// counts as alive, else from CKPT2. It makes one act on the copy that answers, or in whose act the member is
    /// stopped, and one on each copy that fails in the call. BothLost comes only where both copies count as lost at the
    /// end of the call, Halted only where the member was stopped in it.
    pub fn read_page(&mut self, by: MemberId, page: u16, into: &mut Page) -> Result<(), PairNo>
        requires may { MayAct self.old.book by }
        requires page1 { self.old.pair.first.alive ≡ true → page < C.count self.old.pair.first.copy }
        requires page2 { self.old.pair.second.alive ≡ true → page < C.count self.old.pair.second.copy }
        ensures base { self.new.base ≡ self.old.base }
        ensures since { self.new.since ≡ self.old.since }
        ensures renewals { self.new.renewals ≡ self.old.renewals }
        ensures printed { self.new.printed ≡ self.old.printed }
        ensures book { self.new.book ≡ self.old.book }
        ensures journal { self.new.journal ≡ self.old.journal }
        ensures current { self.new.current ≡ self.old.current }
        ensures reserved { self.new.reserved ≡ self.old.reserved }
        ensures placed { self.new.placed ≡ self.old.placed }
        ensures first { self.new.first ≡ self.old.first }
        ensures second { self.new.second ≡ self.old.second }
        ensures had { self.new.had ≡ self.old.had }
        ensures level { self.new.level ≡ self.old.level }
        ensures copy1 { self.new.pair.first.copy ≡ self.old.pair.first.copy }
        ensures copy2 { self.new.pair.second.copy ≡ self.old.pair.second.copy }
        ensures err { OnErr result (into.new ≡ into.old) }
        ensures bytes { P.tells → (d : Dev)
            → (disk_now (P.view self.new.plant) d).bytes ≡ (disk_now (P.view self.old.plant) d).bytes }
        ensures read { OnOk result (P.tells → (was : List ℕ)
            → (self.new.pair.first.alive ≡ true
            → C.rests self.old.pair.first.copy was (disk_now (P.view self.old.plant) Ckpt1))
            → (self.new.pair.first.alive ≡ false
            → C.rests self.old.pair.second.copy was (disk_now (P.view self.old.plant) Ckpt2))
            → into.new.0 ≡ page_in page was) }
        ensures acted { ActedOn by.0 (pair_stopped result) (pair_of self.old) (pair_of self.new) }
        ensures acts { TookReadActs (pair_of self.old) (pair_of self.new) }
        ensures apart { P.tells → OnCopies (P.view self.old.plant) (P.view self.new.plant) }
        ensures throughout { P.tells → OnlyOnCopies (P.view self.old.plant) (P.view self.new.plant) }
        ensures papers { P.tells → SamePapers (P.view self.old.plant) (P.view self.new.plant) }
        ensures both { IsErrOf result PairNoBothLost → IsBothLost self.new.pair.first.alive self.new.pair.second.alive }
        ensures ok { OnOk result (SomeAlive self.new.pair.first.alive self.new.pair.second.alive) }
        ensures frame { parts_of self.new ≡ with_pair (parts_of self.new) (parts_of self.old) }
    {
        self.pair.read_page(&mut self.plant, by, page, into)
    }

    /// There are pages of the level reached that stand for the queue after the kept batches. Each copy that counts as
    /// alive, and is as before any batch, is at rest with them: so what is read of the one, of the other, or of both,
    /// are these pages. What a copy reads that counts as alive is later than what members noted: a page whose level
    /// isn't above that of noted ones is as it was then.
    pub fn kept_pages(&self)
        ensures noted { P.tells → ∥ HavePasts (page_count self.now.base.config) (values_of self.now.had)
            (λ d. sight_of C.reads C.behind (half_on d self.now) (place_on d self.now) d (P.view self.now.plant)) ∥₁ }
        ensures kept { P.tells → ∥ HaveKept (kept_queue self.now) self.now.level (λ d. copy_of C.rests C.holds
            (half_on d self.now) (place_on d self.now)) (P.view self.now.plant) ∥₁ }
    {}
}
