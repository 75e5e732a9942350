//! A batch, written to both copies and kept.
ghost use Rattle.std.specs.Prelude.{◌≡◌, ◌+◌, ◌≤◌, ◌<◌, None, Some, All, length, true, false, OnOk, OnErr, IsErrOf, IsSome};
ghost use Rattle.mas_types.specs.declared.ids.Dev.TheVariants.{Ckpt1, Ckpt2};
ghost use Rattle.mas_types.specs.declared.journals.Batch.{Batch};
ghost use Rattle.mas_types.specs.declared.journals.Fate.TheVariants.{Kept};
ghost use Rattle.spool_plant.specs.View.{disk_now};
ghost use Rattle.spool_plant.specs.Acts.{top};
ghost use Rattle.ckpt_copy.specs.Pages.{bytes_of, level, ArePages, Covers};
ghost use Rattle.duplex_pair.specs.declared.errors.PairNo.TheVariants.{BothLost as PairNoBothLost};
ghost use Rattle.duplex_pair.specs.Halves.{IsBothLost, SomeAlive};
ghost use Rattle.duplex_pair.specs.Outcomes.{pair_stopped};
ghost use Rattle.ckpt_places.specs.declared.places.Place.TheVariants.{Before as AtBefore, Put as AtPut};
ghost use Rattle.mas_complex.specs.Crash.{RaisesOrders};
ghost use Rattle.mas_complex.specs.Changed.{NamesOnly};
ghost use Rattle.mas_complex.specs.Locking.{MayAct, IsOwn};
ghost use Rattle.mas_complex.specs.Journals.{begun, entries_reserved, fated, with_last};
ghost use Rattle.mas_complex.specs.Meaning.{StandFor};
ghost use Rattle.member_node.specs.Calls.{Apart};
ghost use Rattle.mas_complex.specs.Paper.{printed_after};
ghost use Rattle.mas_complex.specs.Past.{IsNextOf, values_of};
ghost use Rattle.mas_complex.specs.Begins.{HasRepliesOf, HasTextsWith, IsUntoldOf, MayBeginOf, queue_with};
ghost use Rattle.ckpt_tables.specs.Shape.{page_count};
ghost use Rattle.member_node.specs.Copies.{OnRead, HasRoomFor, first_of, second_of};
ghost use Rattle.member_node.specs.Reads.{ReadsOf};
ghost use Rattle.mas_complex.specs.CallCounts.{ActedOn, pair_of};

use duplex_pair::PairNo;
use mas_complex::{Complex, Steady};
use mas_types::{Dev, MemberId, Page};
use spool_plant::Plant;

// The reserved batch begins, and its pages stand behind the closed gates of both copies.
fn log_both<P: Plant + Drop, C: Steady + Drop>(
    complex: &mut Complex<P, C>,
    by: MemberId,
    pages: &[Page],
    changed: &[u16],
) -> Result<(), PairNo>
    requires may { MayAct complex.old.book by }
    requires own { All (λ e. e.by ≡ by) (entries_reserved complex.old.reserved) }
    requires none { complex.old.current ≡ None }
    requires reserved { IsSome complex.old.reserved }
    requires some { 1 ≤ length (entries_reserved complex.old.reserved) }
    requires replied { P.tells → HasRepliesOf complex.old (entries_reserved complex.old.reserved) }
    requires first { complex.old.pair.first.alive ≡ true → complex.old.first ≡ AtBefore }
    requires second { complex.old.pair.second.alive ≡ true → complex.old.second ≡ AtBefore }
    requires room1 { complex.old.pair.first.alive ≡ true → 1 ≤ C.room complex.old.pair.first.copy }
    requires room2 { complex.old.pair.second.alive ≡ true → 1 ≤ C.room complex.old.pair.second.copy }
    requires as_many1 { complex.old.pair.first.alive ≡ true → length pages.now ≡ C.count complex.old.pair.first.copy }
    requires as_many2 { complex.old.pair.second.alive ≡ true → length pages.now ≡ C.count complex.old.pair.second.copy }
    requires changed1 { complex.old.pair.first.alive ≡ true
        → ArePages (C.count complex.old.pair.first.copy) changed.now }
    requires changed2 { complex.old.pair.second.alive ≡ true
        → ArePages (C.count complex.old.pair.second.copy) changed.now }
    requires covered1 { OnRead P.tells (first_of complex.old) (λ was. Covers (C.count complex.old.pair.first.copy)
        changed.now was (bytes_of pages.now)) }
    requires exact1 { OnRead P.tells (first_of complex.old) (λ was. NamesOnly changed.now was (bytes_of pages.now)) }
    requires leveled1 { OnRead P.tells (first_of complex.old) (λ was. IsNextOf (page_count complex.old.base.config)
        was (bytes_of pages.now)) }
    requires orders1 { OnRead P.tells (first_of complex.old) (λ was. RaisesOrders was (bytes_of pages.now)) }
    requires covered2 { OnRead P.tells (second_of complex.old) (λ was. Covers (C.count complex.old.pair.second.copy)
        changed.now was (bytes_of pages.now)) }
    requires exact2 { OnRead P.tells (second_of complex.old) (λ was. NamesOnly changed.now was (bytes_of pages.now)) }
    requires leveled2 { OnRead P.tells (second_of complex.old) (λ was. IsNextOf (page_count complex.old.base.config)
        was (bytes_of pages.now)) }
    requires orders2 { OnRead P.tells (second_of complex.old) (λ was. RaisesOrders was (bytes_of pages.now)) }
    requires level { P.tells → level (bytes_of pages.now) ≡ complex.old.level + 1 }
    requires untold { P.tells → IsUntoldOf complex.old (entries_reserved complex.old.reserved) }
    requires allowed { P.tells → MayBeginOf complex.old (entries_reserved complex.old.reserved) }
    requires queue { P.tells → ∥ StandFor (queue_with complex.old (entries_reserved complex.old.reserved))
        (bytes_of pages.now) ∥₁ }
    requires texts { P.tells → HasTextsWith complex.old (entries_reserved complex.old.reserved) }
    ensures base { complex.new.base ≡ complex.old.base }
    ensures printed { complex.new.printed
        ≡ printed_after by (entries_reserved complex.old.reserved) complex.old.printed }
    ensures book { complex.new.book ≡ complex.old.book }
    ensures unreserved { complex.new.reserved ≡ None }
    ensures since { complex.new.since ≡ complex.old.since }
    ensures renewals { complex.new.renewals ≡ complex.old.renewals }
    ensures journal { complex.new.journal ≡ complex.old.journal }
    ensures placed { complex.new.placed ≡ complex.old.placed }
    ensures level { complex.new.level ≡ complex.old.level }
    ensures had { values_of complex.new.had ≡ values_of complex.old.had }
    ensures flying { complex.new.current
        ≡ Some (begun (P.view complex.old.plant).now by (entries_reserved complex.old.reserved)) }
    ensures places { OnOk result ((complex.new.first ≡ AtPut) × (complex.new.second ≡ AtPut)) }
    ensures count1 { C.count complex.new.pair.first.copy ≡ C.count complex.old.pair.first.copy }
    ensures count2 { C.count complex.new.pair.second.copy ≡ C.count complex.old.pair.second.copy }
    ensures behind1 { OnOk result (P.tells → complex.new.pair.first.alive ≡ true
        → C.behind complex.new.pair.first.copy (disk_now (P.view complex.new.plant) Ckpt1).bytes ≡ bytes_of pages.now) }
    ensures behind2 { OnOk result (P.tells → complex.new.pair.second.alive ≡ true
        → C.behind complex.new.pair.second.copy (disk_now (P.view complex.new.plant) Ckpt2).bytes
        ≡ bytes_of pages.now) }
    ensures room1 { C.room complex.new.pair.first.copy ≡ C.room complex.old.pair.first.copy }
    ensures room2 { C.room complex.new.pair.second.copy ≡ C.room complex.old.pair.second.copy }
    ensures acted { ActedOn by.0 (pair_stopped result) (pair_of complex.old) (pair_of complex.new) }
    ensures apart { P.tells → Apart (P.view complex.old.plant) (P.view complex.new.plant) }
    ensures both { IsErrOf result PairNoBothLost
        → IsBothLost complex.new.pair.first.alive complex.new.pair.second.alive }
    ensures ok { OnOk result (SomeAlive complex.new.pair.first.alive complex.new.pair.second.alive) }
{
    complex.log(by, Dev::Ckpt1, pages, changed)?;
    complex.log(by, Dev::Ckpt2, pages, changed)
}

// Opens the gates of both copies. The batch is kept once they are open: the first call keeps it where the other copy
// counts as lost.
fn open_both<P: Plant + Drop, C: Steady + Drop>(
    complex: &mut Complex<P, C>,
    by: MemberId,
) -> Result<(), PairNo>
    requires may { MayAct complex.old.book by }
    requires own { IsOwn complex.old.current by }
    requires current { IsSome complex.old.current }
    requires first { complex.old.pair.first.alive ≡ true → complex.old.first ≡ AtPut }
    requires second { complex.old.pair.second.alive ≡ true → complex.old.second ≡ AtPut }
    requires room1 { complex.old.pair.first.alive ≡ true → 1 ≤ C.room complex.old.pair.first.copy }
    requires room2 { complex.old.pair.second.alive ≡ true → 1 ≤ C.room complex.old.pair.second.copy }
    requires level { complex.old.level < top }
    ensures base { complex.new.base ≡ complex.old.base }
    ensures printed { complex.new.printed ≡ complex.old.printed }
    ensures book { complex.new.book ≡ complex.old.book }
    ensures reserved { complex.new.reserved ≡ complex.old.reserved }
    ensures since { complex.new.since ≡ complex.old.since }
    ensures renewals { complex.new.renewals ≡ complex.old.renewals }
    ensures kept { OnOk result ((b : Batch) → complex.old.current ≡ Some b
        → complex.new.journal.batches ≡ with_last (fated Kept (P.view complex.new.plant).now b)
        complex.old.journal.batches) }
    ensures unplaced { OnOk result (complex.new.placed ≡ false) }
    ensures level { OnOk result (complex.new.level ≡ complex.old.level + 1) }
    ensures had { values_of complex.new.had ≡ values_of complex.old.had }
    ensures places { OnOk result ((complex.new.first ≡ AtBefore) × (complex.new.second ≡ AtBefore)) }
    ensures count1 { C.count complex.new.pair.first.copy ≡ C.count complex.old.pair.first.copy }
    ensures count2 { C.count complex.new.pair.second.copy ≡ C.count complex.old.pair.second.copy }
    ensures room1 { OnOk result (HasRoomFor (first_of complex.new) (C.room_after (first_of complex.old).room)) }
    ensures room2 { OnOk result (HasRoomFor (second_of complex.new) (C.room_after (second_of complex.old).room)) }
    ensures reads1 { OnOk result (P.tells → complex.new.pair.first.alive ≡ true
        → C.reads (disk_now (P.view complex.new.plant) Ckpt1).bytes
        ≡ Some (C.behind complex.old.pair.first.copy (disk_now (P.view complex.old.plant) Ckpt1).bytes)) }
    ensures reads2 { OnOk result (P.tells → complex.new.pair.second.alive ≡ true
        → C.reads (disk_now (P.view complex.new.plant) Ckpt2).bytes
        ≡ Some (C.behind complex.old.pair.second.copy (disk_now (P.view complex.old.plant) Ckpt2).bytes)) }
    ensures none { OnOk result (complex.new.current ≡ None) }
    ensures journal { OnErr result (complex.new.journal ≡ complex.old.journal) }
    ensures placed { OnErr result (complex.new.placed ≡ complex.old.placed) }
    ensures flying { OnErr result (complex.new.current ≡ complex.old.current) }
    ensures acted { ActedOn by.0 (pair_stopped result) (pair_of complex.old) (pair_of complex.new) }
    ensures apart { P.tells → Apart (P.view complex.old.plant) (P.view complex.new.plant) }
    ensures both { IsErrOf result PairNoBothLost
        → IsBothLost complex.new.pair.first.alive complex.new.pair.second.alive }
    ensures ok { OnOk result (SomeAlive complex.new.pair.first.alive complex.new.pair.second.alive) }
{
    complex.open_copy(by, Dev::Ckpt1)?;
    if !complex.pair.second.alive {
        return Ok(());
    }
    complex.open_copy(by, Dev::Ckpt2)
}

/// Writes the pages of the reserved batch to both copies, and keeps it once their gates are open.
pub(crate) fn commit<P: Plant + Drop, C: Steady + Drop>(
    complex: &mut Complex<P, C>,
    by: MemberId,
    pages: &[Page],
    changed: &[u16],
) -> Result<(), PairNo>
    requires may { MayAct complex.old.book by }
    requires own { All (λ e. e.by ≡ by) (entries_reserved complex.old.reserved) }
    requires none { complex.old.current ≡ None }
    requires reserved { IsSome complex.old.reserved }
    requires some { 1 ≤ length (entries_reserved complex.old.reserved) }
    requires replied { P.tells → HasRepliesOf complex.old (entries_reserved complex.old.reserved) }
    requires first { complex.old.pair.first.alive ≡ true → complex.old.first ≡ AtBefore }
    requires second { complex.old.pair.second.alive ≡ true → complex.old.second ≡ AtBefore }
    requires room1 { complex.old.pair.first.alive ≡ true → 1 ≤ C.room complex.old.pair.first.copy }
    requires room2 { complex.old.pair.second.alive ≡ true → 1 ≤ C.room complex.old.pair.second.copy }
    requires as_many1 { complex.old.pair.first.alive ≡ true → length pages.now ≡ C.count complex.old.pair.first.copy }
    requires as_many2 { complex.old.pair.second.alive ≡ true → length pages.now ≡ C.count complex.old.pair.second.copy }
    requires changed1 { complex.old.pair.first.alive ≡ true
        → ArePages (C.count complex.old.pair.first.copy) changed.now }
    requires changed2 { complex.old.pair.second.alive ≡ true
        → ArePages (C.count complex.old.pair.second.copy) changed.now }
    requires covered1 { OnRead P.tells (first_of complex.old) (λ was. Covers (C.count complex.old.pair.first.copy)
        changed.now was (bytes_of pages.now)) }
    requires exact1 { OnRead P.tells (first_of complex.old) (λ was. NamesOnly changed.now was (bytes_of pages.now)) }
    requires leveled1 { OnRead P.tells (first_of complex.old) (λ was. IsNextOf (page_count complex.old.base.config)
        was (bytes_of pages.now)) }
    requires orders1 { OnRead P.tells (first_of complex.old) (λ was. RaisesOrders was (bytes_of pages.now)) }
    requires covered2 { OnRead P.tells (second_of complex.old) (λ was. Covers (C.count complex.old.pair.second.copy)
        changed.now was (bytes_of pages.now)) }
    requires exact2 { OnRead P.tells (second_of complex.old) (λ was. NamesOnly changed.now was (bytes_of pages.now)) }
    requires leveled2 { OnRead P.tells (second_of complex.old) (λ was. IsNextOf (page_count complex.old.base.config)
        was (bytes_of pages.now)) }
    requires orders2 { OnRead P.tells (second_of complex.old) (λ was. RaisesOrders was (bytes_of pages.now)) }
    requires level { P.tells → level (bytes_of pages.now) ≡ complex.old.level + 1 }
    requires small { complex.old.level < top }
    requires untold { P.tells → IsUntoldOf complex.old (entries_reserved complex.old.reserved) }
    requires allowed { P.tells → MayBeginOf complex.old (entries_reserved complex.old.reserved) }
    requires queue { P.tells → ∥ StandFor (queue_with complex.old (entries_reserved complex.old.reserved))
        (bytes_of pages.now) ∥₁ }
    requires texts { P.tells → HasTextsWith complex.old (entries_reserved complex.old.reserved) }
    ensures base { complex.new.base ≡ complex.old.base }
    ensures printed { complex.new.printed
        ≡ printed_after by (entries_reserved complex.old.reserved) complex.old.printed }
    ensures book { complex.new.book ≡ complex.old.book }
    ensures unreserved { complex.new.reserved ≡ None }
    ensures since { complex.new.since ≡ complex.old.since }
    ensures renewals { complex.new.renewals ≡ complex.old.renewals }
    ensures kept { OnOk result (complex.new.journal.batches
        ≡ with_last (fated Kept (P.view complex.new.plant).now
        (begun (P.view complex.old.plant).now by (entries_reserved complex.old.reserved)))
        complex.old.journal.batches) }
    ensures unplaced { OnOk result (complex.new.placed ≡ false) }
    ensures level { OnOk result (complex.new.level ≡ complex.old.level + 1) }
    ensures had { values_of complex.new.had ≡ values_of complex.old.had }
    ensures places { OnOk result ((complex.new.first ≡ AtBefore) × (complex.new.second ≡ AtBefore)) }
    ensures count1 { C.count complex.new.pair.first.copy ≡ C.count complex.old.pair.first.copy }
    ensures count2 { C.count complex.new.pair.second.copy ≡ C.count complex.old.pair.second.copy }
    ensures room1 { OnOk result (HasRoomFor (first_of complex.new) (C.room_after (first_of complex.old).room)) }
    ensures room2 { OnOk result (HasRoomFor (second_of complex.new) (C.room_after (second_of complex.old).room)) }
    ensures reads1 { OnOk result (ReadsOf P.tells (first_of complex.new) (bytes_of pages.now)) }
    ensures reads2 { OnOk result (ReadsOf P.tells (second_of complex.new) (bytes_of pages.now)) }
    ensures none { OnOk result (complex.new.current ≡ None) }
    ensures journal { OnErr result (complex.new.journal ≡ complex.old.journal) }
    ensures placed { OnErr result (complex.new.placed ≡ complex.old.placed) }
    ensures flying { OnErr result (complex.new.current
        ≡ Some (begun (P.view complex.old.plant).now by (entries_reserved complex.old.reserved))) }
    ensures acted { ActedOn by.0 (pair_stopped result) (pair_of complex.old) (pair_of complex.new) }
    ensures apart { P.tells → Apart (P.view complex.old.plant) (P.view complex.new.plant) }
    ensures both { IsErrOf result PairNoBothLost
        → IsBothLost complex.new.pair.first.alive complex.new.pair.second.alive }
    ensures ok { OnOk result (SomeAlive complex.new.pair.first.alive complex.new.pair.second.alive) }
{
    log_both(complex, by, pages, changed)?;
    open_both(complex, by)
}
