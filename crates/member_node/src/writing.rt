//! How a member's batch is written.
ghost use Rattle.std.specs.Prelude.{◌≡◌, ◌⊎◌, ◌+◌, ◌≤◌, ◌<◌, ◌^◌, ◌++◌, [], ◌∷◌, ℕ, List, Some, None, All, length, true, false, IfOk, OnOk, OnErr, IsErrOf, IsSome, slice_set};
ghost use Rattle.mas_types.specs.declared.ids.Dev.{Dev};
ghost use Rattle.mas_types.specs.declared.ids.MemberId.{MemberId};
ghost use Rattle.mas_types.specs.Limits.{members_most};
ghost use Rattle.ckpt_tables.specs.Shape.{page_count};
ghost use Rattle.mas_types.specs.declared.journals.Batch.{Batch};
ghost use Rattle.mas_types.specs.declared.journals.Fate.TheVariants.{Kept};
ghost use Rattle.spool_plant.specs.declared.plant.Part.TheVariants.{Console};
ghost use Rattle.spool_plant.specs.View.{disk_now};
ghost use Rattle.spool_plant.specs.Acts.{Acts, Says};
ghost use Rattle.ckpt_places.specs.declared.places.Place.TheVariants.{Before as AtBefore};
ghost use Rattle.mas_complex.specs.Journals.{begun, end_of, entries_reserved, fated, in_flight, kept_all, with_last, StepIsKept};
ghost use Rattle.mas_complex.specs.Locking.{MayAct, IsUp};
ghost use Rattle.mas_complex.specs.Meaning.{Closes};
ghost use Rattle.mas_complex.specs.Parts.{parts_of};
ghost use Rattle.member_node.specs.declared.member.NodeNo.TheVariants.{Halted};
ghost use Rattle.mas_complex.specs.Paper.{printed_after};
ghost use Rattle.mas_complex.specs.Past.{HasNoted, values_of};
ghost use Rattle.mas_complex.specs.CallCounts.{pair_of};
ghost use Rattle.mas_complex.specs.Begins.{HasRepliesOf, HasTextsWith, IsUntoldOf, MayBeginOf, kept_queue};

use crate::batch::commit;
use crate::checkpoint::{Draft, draft_of, is_spelling, redraw};
use crate::marking::mark_drawn;
use crate::member::{Member, NodeNo};
use duplex_pair::PairNo;
use mas_complex::{Complex, Steady};
use mas_types::{List, NoMemory};
use page_marks::Marks;
use spool_plant::{Act, Plant};
use std::alloc::Global;

impl Member {
    ghost use Rattle.member_node.specs.Batches.{CanDraw, DrawsAnew, HasDone, IsDraftOf, level_with};
    ghost use Rattle.member_node.specs.Copies.{HasRoomFor, IsAtRest, IsDraftOn, first_of, room_with, second_of};
    ghost use Rattle.member_node.specs.Drawn.{AreDrawn};
    ghost use Rattle.member_node.specs.Lines.{said_as, IsAnswerOfSay};
    ghost use Rattle.member_node.specs.Writes.{IsWrite, journal_at};

    /// Whether the write of its batch changes a page. Only pages are drawn that commands may have changed.
    pub fn draws_anew(&self) -> bool
        requires draws { CanDraw self.now.checkpoint }
        ensures anew { result ≡ true → DrawsAnew self.now.checkpoint }
        ensures same { result ≡ false → DrawsAnew self.now.checkpoint → ⊥ }
    {
        let own = &self.checkpoint;
        !is_spelling(&own.tables, &own.levels, own.pages.as_slice(), &self.marks)
    }

    /// Takes all memory that the write of its batch needs: the pages are drawn a level higher where one changes, and
    /// the batch has its place in the journal. Answers what is to be written. The member holds the lock, or is the
    /// operator while nobody does. Where a page changes each copy that counts as alive has room for a put.
    ///
    /// NoMemory leaves the shared value as it was, and the member too, or its batch is given up: then its tables are
    /// ahead of the copies, and it has to read them again.
    pub fn ready<P: Plant + Drop, C: Steady + Drop>(
        &mut self,
        alloc: Global,
        complex: &mut Complex<P, C>,
    ) -> Result<Draft, NoMemory>
        requires may { MayAct complex.old.book self.old.id }
        requires some { 1 ≤ length self.old.batch }
        requires own { All (λ e. e.by ≡ self.old.id) self.old.batch }
        requires none { complex.old.current ≡ None }
        requires here { self.old.behind ≡ false }
        requires draws { CanDraw self.old.checkpoint }
        requires level { P.tells → complex.old.level ≡ self.old.checkpoint.level }
        requires done { P.tells → ∥ HasDone (kept_queue complex.old) self.old.batch self.old.checkpoint ∥₁ }
        requires rests1 { IsAtRest P.tells (first_of complex.old) self.old.checkpoint.pages }
        requires rests2 { IsAtRest P.tells (second_of complex.old) self.old.checkpoint.pages }
        requires room1 { complex.old.pair.first.alive ≡ true → DrawsAnew self.old.checkpoint
            → 1 ≤ C.room complex.old.pair.first.copy }
        requires room2 { complex.old.pair.second.alive ≡ true → DrawsAnew self.old.checkpoint
            → 1 ≤ C.room complex.old.pair.second.copy }
        requires small { self.old.checkpoint.level + 1 < 2 ^ 63 }
        ensures plant { complex.new.plant ≡ complex.old.plant }
        ensures pair { complex.new.pair ≡ complex.old.pair }
        ensures base { complex.new.base ≡ complex.old.base }
        ensures printed { complex.new.printed ≡ complex.old.printed }
        ensures since { complex.new.since ≡ complex.old.since }
        ensures renewals { complex.new.renewals ≡ complex.old.renewals }
        ensures book { complex.new.book ≡ complex.old.book }
        ensures current { complex.new.current ≡ complex.old.current }
        ensures first { complex.new.first ≡ complex.old.first }
        ensures second { complex.new.second ≡ complex.old.second }
        ensures same_level { complex.new.level ≡ complex.old.level }
        ensures kept { kept_all complex.new.journal.batches ≡ kept_all complex.old.journal.batches }
        ensures err { OnErr result ((complex.new.journal ≡ complex.old.journal)
            × (complex.new.reserved ≡ complex.old.reserved) × (complex.new.placed ≡ complex.old.placed)) }
        ensures reserved { OnOk result (complex.new.reserved ≡ Some self.old.batch) }
        ensures placed { OnOk result (complex.new.placed ≡ true) }
        ensures grown { OnOk result (complex.old.placed ≡ false → (place : Batch)
            × (complex.new.journal.batches ≡ complex.old.journal.batches ++ place ∷ [])) }
        ensures given_up { OnErr result ((self.new ≡ self.old)
            ⊎ ((self.new.batch ≡ []) × (self.new.fresh ≡ true))) }
        ensures fresh { OnOk result (self.new.fresh ≡ self.old.fresh) }
        ensures had { values_of complex.new.had ≡ values_of complex.old.had }
        ensures id { self.new.id ≡ self.old.id }
        ensures room { self.new.room ≡ self.old.room }
        ensures behind { self.new.behind ≡ self.old.behind }
        ensures tables { self.new.checkpoint.tables ≡ self.old.checkpoint.tables }
        ensures empty { OnOk result (self.new.batch ≡ []) }
        ensures drawn { OnOk result (AreDrawn self.new.checkpoint.tables self.new.checkpoint.level
            self.new.checkpoint.levels self.new.checkpoint.pages) }
        ensures level { IfOk result (λ draft. self.new.checkpoint.level ≡ level_with draft self.old.checkpoint.level) }
        ensures draft { IfOk result (λ draft. P.tells → ∥ IsDraftOf draft P.tells (kept_queue complex.old)
            self.old.batch complex.old.level self.new.checkpoint.pages ∥₁) }
        ensures draft1 { IfOk result (λ draft. IsDraftOn draft P.tells (first_of complex.old)
            self.new.checkpoint.pages) }
        ensures draft2 { IfOk result (λ draft. IsDraftOn draft P.tells (second_of complex.old)
            self.new.checkpoint.pages) }
    {
        let own = &self.checkpoint;
        let draft = draft_of(
            alloc,
            &own.tables,
            &own.levels,
            own.pages.as_slice(),
            &self.marks,
        )?;
        redraw(&mut self.checkpoint, &draft);
        self.marks = Marks::none();
        mark_drawn(&mut self.differ, &draft);
        let entries = std::mem::replace(&mut self.batch, List::new(alloc));
        // Pages that were drawn and aren't to be written are of no level: then all are read again.
        let fresh = std::mem::replace(&mut self.fresh, true);
        complex.reserve(alloc, entries)?;
        self.fresh = fresh;
        Ok(draft)
    }

    /// Writes the batch that was made ready: its pages behind the closed gates of CKPT1 and CKPT2, and then the gates;
    /// or it is kept without a write where no page changes. Once this answers Ok the batch is kept. The operator isn't
    /// stopped.
    ///
    /// The texts of the queue with the batch stand on the spool volumes, except those with a group on a volume that is
    /// lost. BothLost comes only where both copies count as lost at the end of the call, Halted only where the member
    /// was stopped in it. Once it is kept the member's pages are noted.
    pub fn write<P: Plant + Drop, C: Steady + Drop>(
        &self,
        complex: &mut Complex<P, C>,
        draft: &Draft,
    ) -> Result<(), NodeNo>
        requires by { self.now.id.0 ≤ members_most }
        requires config { P.tells → page_count complex.old.base.config ≡ length self.now.checkpoint.pages }
        requires may { MayAct complex.old.book self.now.id }
        requires own { All (λ e. e.by ≡ self.now.id) (entries_reserved complex.old.reserved) }
        requires none { complex.old.current ≡ None }
        requires reserved { IsSome complex.old.reserved }
        requires some { 1 ≤ length (entries_reserved complex.old.reserved) }
        requires small { complex.old.level + 1 < 2 ^ 63 }
        requires replied { P.tells → HasRepliesOf complex.old (entries_reserved complex.old.reserved) }
        requires first { complex.old.first ≡ AtBefore }
        requires second { complex.old.second ≡ AtBefore }
        requires untold { P.tells → IsUntoldOf complex.old (entries_reserved complex.old.reserved) }
        requires allowed { P.tells → MayBeginOf complex.old (entries_reserved complex.old.reserved) }
        requires texts { P.tells → HasTextsWith complex.old (entries_reserved complex.old.reserved) }
        requires draft { P.tells → ∥ IsDraftOf draft.now P.tells (kept_queue complex.old)
            (entries_reserved complex.old.reserved) complex.old.level self.now.checkpoint.pages ∥₁ }
        requires draft1 { IsDraftOn draft.now P.tells (first_of complex.old) self.now.checkpoint.pages }
        requires draft2 { IsDraftOn draft.now P.tells (second_of complex.old) self.now.checkpoint.pages }
        ensures base { complex.new.base ≡ complex.old.base }
        ensures printed { complex.new.printed
            ≡ printed_after self.now.id (entries_reserved complex.old.reserved) complex.old.printed }
        ensures since { complex.new.since ≡ complex.old.since }
        ensures renewals { complex.new.renewals ≡ complex.old.renewals }
        ensures book { complex.new.book ≡ complex.old.book }
        ensures unreserved { complex.new.reserved ≡ None }
        ensures kept { OnOk result (complex.new.journal.batches
            ≡ with_last (fated Kept (P.view complex.new.plant).now
            (begun (P.view complex.old.plant).now self.now.id (entries_reserved complex.old.reserved)))
            complex.old.journal.batches) }
        ensures unplaced { OnOk result (complex.new.placed ≡ false) }
        ensures none { OnOk result (complex.new.current ≡ None) }
        ensures own { OnOk result (HasNoted (values_of complex.new.had) self.now.id.0 self.now.checkpoint.pages) }
        ensures noted { OnOk result (values_of complex.new.had
            ≡ slice_set (values_of complex.old.had) self.now.id.0 self.now.checkpoint.pages) }
        ensures noted_err { OnErr result (values_of complex.new.had ≡ values_of complex.old.had) }
        ensures level { OnOk result (complex.new.level ≡ level_with draft.now complex.old.level) }
        ensures rests1 { OnOk result (IsAtRest P.tells (first_of complex.new) self.now.checkpoint.pages) }
        ensures rests2 { OnOk result (IsAtRest P.tells (second_of complex.new) self.now.checkpoint.pages) }
        ensures room1 { OnOk result (HasRoomFor (first_of complex.new) (room_with draft.now C.room_after
            (first_of complex.old).room)) }
        ensures room2 { OnOk result (HasRoomFor (second_of complex.new) (room_with draft.now C.room_after
            (second_of complex.old).room)) }
        ensures flying { OnErr result ((complex.new.journal ≡ complex.old.journal)
            × (complex.new.placed ≡ complex.old.placed)
            × (complex.new.current ≡ Some (begun (P.view complex.old.plant).now self.now.id
            (entries_reserved complex.old.reserved)))) }
        ensures write { (front : List Batch) (place : Batch) → complex.old.journal.batches ≡ front ++ place ∷ []
            → IsWrite P.tells self.now.id.0
            (begun (P.view complex.old.plant).now self.now.id (entries_reserved complex.old.reserved))
            (journal_at front (pair_of complex.old))
            (journal_at (end_of complex.new.placed complex.new.current complex.new.journal.batches)
            (pair_of complex.new)) result }
        ensures operator { IsErrOf result Halted → 0 < self.now.id.0 }
    {
        self.put(complex, draft)?;
        complex.note_pages(self.id, &self.checkpoint.pages);
        Ok(())
    }

    // The batch on both copies, or kept without a write.
    fn put<P: Plant + Drop, C: Steady + Drop>(
        &self,
        complex: &mut Complex<P, C>,
        draft: &Draft,
    ) -> Result<(), NodeNo>
        requires config { P.tells → page_count complex.old.base.config ≡ length self.now.checkpoint.pages }
        requires may { MayAct complex.old.book self.now.id }
        requires own { All (λ e. e.by ≡ self.now.id) (entries_reserved complex.old.reserved) }
        requires none { complex.old.current ≡ None }
        requires reserved { IsSome complex.old.reserved }
        requires some { 1 ≤ length (entries_reserved complex.old.reserved) }
        requires small { complex.old.level + 1 < 2 ^ 63 }
        requires replied { P.tells → HasRepliesOf complex.old (entries_reserved complex.old.reserved) }
        requires first { complex.old.first ≡ AtBefore }
        requires second { complex.old.second ≡ AtBefore }
        requires untold { P.tells → IsUntoldOf complex.old (entries_reserved complex.old.reserved) }
        requires allowed { P.tells → MayBeginOf complex.old (entries_reserved complex.old.reserved) }
        requires texts { P.tells → HasTextsWith complex.old (entries_reserved complex.old.reserved) }
        requires draft { P.tells → ∥ IsDraftOf draft.now P.tells (kept_queue complex.old)
            (entries_reserved complex.old.reserved) complex.old.level self.now.checkpoint.pages ∥₁ }
        requires draft1 { IsDraftOn draft.now P.tells (first_of complex.old) self.now.checkpoint.pages }
        requires draft2 { IsDraftOn draft.now P.tells (second_of complex.old) self.now.checkpoint.pages }
        ensures base { complex.new.base ≡ complex.old.base }
        ensures printed { complex.new.printed
            ≡ printed_after self.now.id (entries_reserved complex.old.reserved) complex.old.printed }
        ensures since { complex.new.since ≡ complex.old.since }
        ensures renewals { complex.new.renewals ≡ complex.old.renewals }
        ensures book { complex.new.book ≡ complex.old.book }
        ensures unreserved { complex.new.reserved ≡ None }
        ensures kept { OnOk result (complex.new.journal.batches
            ≡ with_last (fated Kept (P.view complex.new.plant).now
            (begun (P.view complex.old.plant).now self.now.id (entries_reserved complex.old.reserved)))
            complex.old.journal.batches) }
        ensures unplaced { OnOk result (complex.new.placed ≡ false) }
        ensures none { OnOk result (complex.new.current ≡ None) }
        ensures had { values_of complex.new.had ≡ values_of complex.old.had }
        ensures level { OnOk result (complex.new.level ≡ level_with draft.now complex.old.level) }
        ensures rests1 { OnOk result (IsAtRest P.tells (first_of complex.new) self.now.checkpoint.pages) }
        ensures rests2 { OnOk result (IsAtRest P.tells (second_of complex.new) self.now.checkpoint.pages) }
        ensures room1 { OnOk result (HasRoomFor (first_of complex.new) (room_with draft.now C.room_after
            (first_of complex.old).room)) }
        ensures room2 { OnOk result (HasRoomFor (second_of complex.new) (room_with draft.now C.room_after
            (second_of complex.old).room)) }
        ensures flying { OnErr result ((complex.new.journal ≡ complex.old.journal)
            × (complex.new.placed ≡ complex.old.placed)
            × (complex.new.current ≡ Some (begun (P.view complex.old.plant).now self.now.id
            (entries_reserved complex.old.reserved)))) }
        ensures write { (front : List Batch) (place : Batch) → complex.old.journal.batches ≡ front ++ place ∷ []
            → IsWrite P.tells self.now.id.0
            (begun (P.view complex.old.plant).now self.now.id (entries_reserved complex.old.reserved))
            (journal_at front (pair_of complex.old))
            (journal_at (end_of complex.new.placed complex.new.current complex.new.journal.batches)
            (pair_of complex.new)) result }
        ensures operator { IsErrOf result Halted → 0 < self.now.id.0 }
    {
        match draft {
            Draft::Same => {
                complex.keep_same(self.id);
                Ok(())
            }
            Draft::Changed(changed) => {
                let pages = self.checkpoint.pages.as_slice();
                match commit(complex, self.id, pages, changed.as_slice()) {
                    Ok(()) => Ok(()),
                    Err(PairNo::BothLost) => Err(NodeNo::BothLost),
                    Err(PairNo::Halted) => Err(NodeNo::Halted),
                }
            }
        }
    }

    /// Says a line on the console. One that tells a step may be said once each entry of the step is kept. Answers
    /// ConsoleFault where the console failed, and Halted where the member was stopped.
    pub fn tell<P: Plant + Drop, C: Steady + Drop>(
        &self,
        complex: &mut Complex<P, C>,
        line: &[u8],
    ) -> Result<(), NodeNo>
        requires up { IsUp complex.old.book self.now.id }
        requires told { P.tells → (m : MemberId) (s : ℕ) → Closes line.now m s
            → StepIsKept (complex.old.journal.batches ++ in_flight complex.old.current) (P.view complex.old.plant).now m
            s }
        ensures pair { complex.new.pair ≡ complex.old.pair }
        ensures base { complex.new.base ≡ complex.old.base }
        ensures printed { complex.new.printed ≡ complex.old.printed }
        ensures since { complex.new.since ≡ complex.old.since }
        ensures renewals { complex.new.renewals ≡ complex.old.renewals }
        ensures book { complex.new.book ≡ complex.old.book }
        ensures journal { complex.new.journal ≡ complex.old.journal }
        ensures current { complex.new.current ≡ complex.old.current }
        ensures reserved { complex.new.reserved ≡ complex.old.reserved }
        ensures placed { complex.new.placed ≡ complex.old.placed }
        ensures first { complex.new.first ≡ complex.old.first }
        ensures second { complex.new.second ≡ complex.old.second }
        ensures level { complex.new.level ≡ complex.old.level }
        ensures frame { parts_of complex.new ≡ record (parts_of complex.old) { plant = complex.new.plant } }
        ensures acts { Acts self.now.id.0 Console (P.view complex.old.plant) (P.view complex.new.plant)
            (said_as result) }
        ensures disks { P.tells → (d : Dev)
            → disk_now (P.view complex.new.plant) d ≡ disk_now (P.view complex.old.plant) d }
        ensures content { P.tells → Says line.now (P.view complex.old.plant) (P.view complex.new.plant)
            (said_as result) }
        ensures only { IsAnswerOfSay result }
    {
        match complex.say(self.id, line) {
            Act::Done => Ok(()),
            Act::Failed => Err(NodeNo::ConsoleFault),
            Act::Halted => Err(NodeNo::Halted),
        }
    }
}
