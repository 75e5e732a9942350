//! The lock of the checkpoint, and the number of kept entries.
ghost use Rattle.mas_complex.specs.Names.{IsMember, is_stopped, is_holder, left_of, try_refusal, after_try, free_refusal, after_free, after_stop, seize_refusal, after_seize, after_spend, top};
ghost use Rattle.std.specs.Prelude.{◌≡◌, true, false, min, length, Some, None, OnOk, OnErr, IfErr};
ghost use Rattle.mas_complex.specs.Journals.{kept_all};
ghost use Rattle.mas_complex.specs.Locking.{IsOperatorAway, MayAct, reserved_after_stop, is_of_member};
ghost use Rattle.mas_complex.specs.Parts.{parts_of};

use crate::complex::Complex;
use brief_journal::{BriefBatch, BriefEntries};
use ckpt_form::Steady;
use lock_cycle::{LockBook, LockNo, NotHolder, SeizeNo};
use mas_types::{Fate, MemberId};
use spool_plant::Plant;

// The entries of the kept batches, or the greatest number.
fn entries_kept(batches: &[BriefBatch]) -> u64
    ensures { result ≡ min (length (kept_all batches.now)) top }
{
    let mut count: u64 = 0;
    for batch in batches {
        if batch.fate() == Fate::Kept {
            count = count.saturating_add(batch.count() as u64);
        }
    }
    count
}

// The first of the entries is this member's.
#[tactic(auto, using(crate::proofs::Batches::first_is, crate::proofs::Batches::first_none))]
fn is_of(entries: &BriefEntries, by: MemberId) -> bool
    ensures { result ≡ is_of_member by entries.now }
{
    match entries.as_slice().first() {
        Some(brief) => brief.by == by,
        None => false,
    }
}

// The member is stopped in the book, and a batch of it that is reserved is given up.
pub(crate) fn give_up_after_stop(
    book: &mut LockBook,
    reserved: &mut Option<BriefEntries>,
    by: MemberId,
)
    requires { IsMember book.old by }
    ensures book { book.new ≡ after_stop book.old by }
    ensures reserved { reserved.new ≡ reserved_after_stop by reserved.old }
{
    book.stop(by);
    let goes = match reserved {
        Some(entries) => is_of(entries, by),
        None => false,
    };
    if goes {
        *reserved = None;
    }
}

// The member gives the lock up, and with it a batch that is reserved.
fn give_up_after_free(
    book: &mut LockBook,
    reserved: &mut Option<BriefEntries>,
    by: MemberId,
    inner: bool,
) -> Result<(), NotHolder>
    requires { IsMember book.old by }
    ensures book { book.new ≡ after_free book.old by inner }
    ensures reserved { OnOk result (reserved.new ≡ None) }
    ensures ok { OnOk result (free_refusal book.old by ≡ None) }
    ensures err { IfErr result (λ e. free_refusal book.old by ≡ Some e) }
    ensures err_reserved { OnErr result (reserved.new ≡ reserved.old) }
{
    book.free(by, inner)?;
    *reserved = None;
    Ok(())
}

impl<P: Plant + Drop, C: Steady + Drop> Complex<P, C> {
    /// The number of entries of the kept batches.
    pub fn kept_count(&self) -> u64
        ensures { result ≡ length (kept_all self.now.journal.batches) }
    {
        entries_kept(self.journal.batches())
    }

    /// A try of the member at the lock of the checkpoint, as its book says. An `inner` try is one in the middle of a
    /// step. Down comes exactly where the member is stopped, Busy exactly where it isn't and another one holds, Dormant
    /// exactly where it isn't stopped, nobody holds and it leaves the lock to others. The member holds after Ok. The
    /// operator may have nothing reserved or in flight.
    pub fn try_lock(&mut self, by: MemberId, inner: bool) -> Result<(), LockNo>
        requires member { IsMember self.old.book by }
        requires away { IsOperatorAway self.old.book self.old.reserved self.old.current }
        ensures plant { self.new.plant ≡ self.old.plant }
        ensures pair { self.new.pair ≡ self.old.pair }
        ensures base { self.new.base ≡ self.old.base }
        ensures since { self.new.since ≡ self.old.since }
        ensures renewals { self.new.renewals ≡ self.old.renewals }
        ensures printed { self.new.printed ≡ self.old.printed }
        ensures journal { self.new.journal ≡ self.old.journal }
        ensures current { self.new.current ≡ self.old.current }
        ensures placed { self.new.placed ≡ self.old.placed }
        ensures first { self.new.first ≡ self.old.first }
        ensures second { self.new.second ≡ self.old.second }
        ensures level { self.new.level ≡ self.old.level }
        ensures reserved { self.new.reserved ≡ self.old.reserved }
        ensures book { self.new.book ≡ after_try self.old.book by inner }
        ensures ok { OnOk result (try_refusal self.old.book by inner ≡ None) }
        ensures err { IfErr result (λ e. try_refusal self.old.book by inner ≡ Some e) }
        ensures frame { parts_of self.new ≡ record (parts_of self.old) { book = after_try self.old.book by inner } }
    {
        self.book.try_lock(by, inner)
    }

    /// The member gives the lock up, and a batch that is reserved and hasn't begun. Where it holds nothing may be in
    /// flight, and it isn't stopped. NotHolder comes exactly where it doesn't hold, and nothing is changed then.
    pub fn free(&mut self, by: MemberId, inner: bool) -> Result<(), NotHolder>
        requires member { IsMember self.old.book by }
        requires none { is_holder self.old.book by ≡ true → self.old.current ≡ None }
        requires up { is_holder self.old.book by ≡ true → is_stopped self.old.book by ≡ false }
        ensures plant { self.new.plant ≡ self.old.plant }
        ensures pair { self.new.pair ≡ self.old.pair }
        ensures base { self.new.base ≡ self.old.base }
        ensures since { self.new.since ≡ self.old.since }
        ensures renewals { self.new.renewals ≡ self.old.renewals }
        ensures printed { self.new.printed ≡ self.old.printed }
        ensures journal { self.new.journal ≡ self.old.journal }
        ensures current { self.new.current ≡ self.old.current }
        ensures placed { self.new.placed ≡ self.old.placed }
        ensures first { self.new.first ≡ self.old.first }
        ensures second { self.new.second ≡ self.old.second }
        ensures level { self.new.level ≡ self.old.level }
        ensures reserved { OnOk result (self.new.reserved ≡ None) }
        ensures book { self.new.book ≡ after_free self.old.book by inner }
        ensures ok { OnOk result (free_refusal self.old.book by ≡ None) }
        ensures err { IfErr result (λ e. free_refusal self.old.book by ≡ Some e) }
        ensures err_reserved { OnErr result (self.new.reserved ≡ self.old.reserved) }
        ensures frame { OnOk result (parts_of self.new
            ≡ record (parts_of self.old) { book = after_free self.old.book by inner; reserved = None }) }
        ensures none { OnErr result (parts_of self.new ≡ parts_of self.old) }
        ensures all { parts_of self.new ≡ record (parts_of self.old)
            { book = after_free self.old.book by inner; reserved = self.new.reserved } }
    {
        give_up_after_free(&mut self.book, &mut self.reserved, by, inner)
    }

    /// The member that holds the lock leaves it in the middle of a step, for acts beside it. A batch that is reserved
    /// and hasn't begun is given up. Nothing may be in flight.
    #[tactic(auto, using(crate::proofs::Batches::left_after_free))]
    pub fn leave_lock(&mut self, by: MemberId)
        requires may { MayAct self.old.book by }
        requires member { IsMember self.old.book by }
        requires none { self.old.current ≡ None }
        ensures plant { self.new.plant ≡ self.old.plant }
        ensures pair { self.new.pair ≡ self.old.pair }
        ensures base { self.new.base ≡ self.old.base }
        ensures since { self.new.since ≡ self.old.since }
        ensures renewals { self.new.renewals ≡ self.old.renewals }
        ensures printed { self.new.printed ≡ self.old.printed }
        ensures journal { self.new.journal ≡ self.old.journal }
        ensures current { self.new.current ≡ self.old.current }
        ensures placed { self.new.placed ≡ self.old.placed }
        ensures first { self.new.first ≡ self.old.first }
        ensures second { self.new.second ≡ self.old.second }
        ensures level { self.new.level ≡ self.old.level }
        ensures reserved { self.new.reserved ≡ None }
        ensures book { self.new.book ≡ after_free self.old.book by true }
        ensures frame { parts_of self.new
            ≡ record (parts_of self.old) { book = after_free self.old.book by true; reserved = None } }
    {
        self.reserved = None;
        let _freed = self.free(by, true);
    }

    /// The member takes the lock again that it left in the middle of a step. Nothing refuses it, and the operator may
    /// have nothing reserved or in flight.
    pub fn retake_lock(&mut self, by: MemberId)
        requires member { IsMember self.old.book by }
        requires away { IsOperatorAway self.old.book self.old.reserved self.old.current }
        requires free { try_refusal self.old.book by true ≡ None }
        ensures plant { self.new.plant ≡ self.old.plant }
        ensures pair { self.new.pair ≡ self.old.pair }
        ensures base { self.new.base ≡ self.old.base }
        ensures since { self.new.since ≡ self.old.since }
        ensures renewals { self.new.renewals ≡ self.old.renewals }
        ensures printed { self.new.printed ≡ self.old.printed }
        ensures journal { self.new.journal ≡ self.old.journal }
        ensures current { self.new.current ≡ self.old.current }
        ensures placed { self.new.placed ≡ self.old.placed }
        ensures first { self.new.first ≡ self.old.first }
        ensures second { self.new.second ≡ self.old.second }
        ensures level { self.new.level ≡ self.old.level }
        ensures reserved { self.new.reserved ≡ self.old.reserved }
        ensures book { self.new.book ≡ after_try self.old.book by true }
        ensures frame { parts_of self.new ≡ record (parts_of self.old) { book = after_try self.old.book by true } }
    {
        let _taken = self.try_lock(by, true);
    }

    /// The member is stopped. It still holds what it held. A batch of it that is reserved and hasn't begun is given up.
    pub fn stop(&mut self, by: MemberId)
        requires { IsMember self.old.book by }
        ensures plant { self.new.plant ≡ self.old.plant }
        ensures pair { self.new.pair ≡ self.old.pair }
        ensures base { self.new.base ≡ self.old.base }
        ensures since { self.new.since ≡ self.old.since }
        ensures renewals { self.new.renewals ≡ self.old.renewals }
        ensures printed { self.new.printed ≡ self.old.printed }
        ensures journal { self.new.journal ≡ self.old.journal }
        ensures current { self.new.current ≡ self.old.current }
        ensures placed { self.new.placed ≡ self.old.placed }
        ensures first { self.new.first ≡ self.old.first }
        ensures second { self.new.second ≡ self.old.second }
        ensures level { self.new.level ≡ self.old.level }
        ensures reserved { self.new.reserved ≡ reserved_after_stop by self.old.reserved }
        ensures book { self.new.book ≡ after_stop self.old.book by }
        ensures frame { parts_of self.new
            ≡ record (parts_of self.old) {
              book = after_stop self.old.book by;
              reserved = reserved_after_stop by self.old.reserved;
            } }
    {
        give_up_after_stop(&mut self.book, &mut self.reserved, by);
    }

    /// The member takes over the lock that the stopped member `of` holds. StillUp comes exactly where `of` isn't
    /// stopped, NotHolder exactly where it is stopped and doesn't hold; nothing is changed then.
    pub fn seize(&mut self, by: MemberId, of: MemberId) -> Result<(), SeizeNo>
        requires by { IsMember self.old.book by }
        requires of { IsMember self.old.book of }
        requires up { is_stopped self.old.book by ≡ false }
        ensures plant { self.new.plant ≡ self.old.plant }
        ensures pair { self.new.pair ≡ self.old.pair }
        ensures base { self.new.base ≡ self.old.base }
        ensures since { self.new.since ≡ self.old.since }
        ensures renewals { self.new.renewals ≡ self.old.renewals }
        ensures printed { self.new.printed ≡ self.old.printed }
        ensures journal { self.new.journal ≡ self.old.journal }
        ensures current { self.new.current ≡ self.old.current }
        ensures placed { self.new.placed ≡ self.old.placed }
        ensures first { self.new.first ≡ self.old.first }
        ensures second { self.new.second ≡ self.old.second }
        ensures level { self.new.level ≡ self.old.level }
        ensures reserved { self.new.reserved ≡ self.old.reserved }
        ensures book { self.new.book ≡ after_seize self.old.book by of }
        ensures ok { OnOk result (seize_refusal self.old.book of ≡ None) }
        ensures err { IfErr result (λ e. seize_refusal self.old.book of ≡ Some e) }
        ensures frame { parts_of self.new ≡ record (parts_of self.old) { book = after_seize self.old.book by of } }
    {
        self.book.seize(by, of)
    }

    /// The member's hold has so many commands less, and no less than 0.
    pub fn spend(&mut self, by: MemberId, commands: u16)
        requires { IsMember self.old.book by }
        ensures plant { self.new.plant ≡ self.old.plant }
        ensures pair { self.new.pair ≡ self.old.pair }
        ensures base { self.new.base ≡ self.old.base }
        ensures since { self.new.since ≡ self.old.since }
        ensures renewals { self.new.renewals ≡ self.old.renewals }
        ensures printed { self.new.printed ≡ self.old.printed }
        ensures journal { self.new.journal ≡ self.old.journal }
        ensures current { self.new.current ≡ self.old.current }
        ensures placed { self.new.placed ≡ self.old.placed }
        ensures first { self.new.first ≡ self.old.first }
        ensures second { self.new.second ≡ self.old.second }
        ensures level { self.new.level ≡ self.old.level }
        ensures reserved { self.new.reserved ≡ self.old.reserved }
        ensures book { self.new.book ≡ after_spend self.old.book by commands }
        ensures frame { parts_of self.new
            ≡ record (parts_of self.old) { book = after_spend self.old.book by commands } }
    {
        self.book.spend(by, commands);
    }

    /// The commands that the member's hold has left.
    pub fn hold_left(&self, by: MemberId) -> u16
        requires { IsMember self.now.book by }
        ensures { result ≡ left_of self.now.book by }
    {
        self.book.hold_left(by)
    }

    /// The member that holds the lock, or 0.
    pub fn holder(&self) -> MemberId
        ensures { result ≡ self.now.book.holder }
    {
        self.book.holder()
    }

    /// The member is stopped.
    pub fn stopped(&self, by: MemberId) -> bool
        requires { IsMember self.now.book by }
        ensures { result ≡ is_stopped self.now.book by }
    {
        self.book.stopped(by)
    }
}
