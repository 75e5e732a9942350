//! Lines on paper.
ghost use Rattle.mas_complex.specs.Names.{members_most, printer_lines_most, IsSound, IsMember, is_stopped, Acts, Prints, Done as ActDone, Printer, MayPrint, AreLinesOn};
ghost use Rattle.std.specs.Prelude.{◌≡◌, ◌+◌, ◌≤◌, ◌<◌, false, length};
ghost use Rattle.mas_complex.specs.Journals.{entries_in, kept_all};
ghost use Rattle.mas_complex.specs.Locking.{IsOfOther};
ghost use Rattle.mas_complex.specs.Paper.{AreGivenIn, IsOnPaper, book_by, counts_of, printed_by, reserved_by};
ghost use Rattle.mas_complex.specs.Parts.{parts_of};

use crate::complex::Complex;
use crate::counts::COUNTS;
use crate::locking::give_up_after_stop;
use brief_journal::BriefEntries;
use ckpt_form::Steady;
use lock_cycle::LockBook;
use mas_types::MemberId;
use spool_plant::{Act, Plant};

// A line that was printed is counted.
fn count_line(printed: &mut [u32; COUNTS], by: MemberId, done: Act)
    requires few { by.0 ≤ members_most }
    requires most { counts_of printed.old by < printer_lines_most }
    ensures counted { printed.new ≡ printed_by by done printed.old }
    ensures whole { length printed.old ≡ members_most + 1 }
{
    match done {
        Act::Done => printed[by.0 as usize] += 1,
        Act::Failed | Act::Halted => {}
    }
}

// The member that was stopped in a print is stopped in the book, and a batch of it that is reserved is given up.
fn stop_halted(book: &mut LockBook, reserved: &mut Option<BriefEntries>, by: MemberId, done: Act)
    requires { IsMember book.old by }
    ensures book { book.new ≡ book_by by done book.old }
    ensures reserved { reserved.new ≡ reserved_by by done reserved.old }
{
    match done {
        Act::Halted => give_up_after_stop(book, reserved, by),
        Act::Done | Act::Failed => {}
    }
}

impl<P: Plant + Drop, C: Steady + Drop> Complex<P, C> {
    /// Prints a line on the printer of a member that isn't stopped. It needs no lock, but a batch in flight is of
    /// another member. The line is the next one after those that the member has printed since its last Pick, Mark,
    /// Back or Forward: of the output that is busy at it, in the queue after the kept entries and in the one with those
    /// in flight; and the member's limit isn't reached.
    ///
    /// Done counts the line. Failed comes only where the printer's faults rose, and it is lost then. Halted comes only
    /// where the member was stopped in it: then it is stopped in the book, and a batch of it that is reserved is given
    /// up. The line may stand then, whole or torn.
    pub fn print(&mut self, by: MemberId, line: &[u8]) -> Act
        requires member { IsMember self.old.book by }
        requires few { by.0 ≤ members_most }
        requires up { is_stopped self.old.book by ≡ false }
        requires other { IsOfOther self.old.current by }
        requires most { counts_of self.old.printed by < printer_lines_most }
        requires next { P.tells → IsSound self.old.base
            → ∥ MayPrint self.old.base (kept_all self.old.journal.batches) (entries_in self.old.current) by
            (counts_of self.old.printed by) line.now ∥₁ }
        ensures pair { self.new.pair ≡ self.old.pair }
        ensures base { self.new.base ≡ self.old.base }
        ensures since { self.new.since ≡ self.old.since }
        ensures renewals { self.new.renewals ≡ self.old.renewals }
        ensures printed { self.new.printed ≡ printed_by by result self.old.printed }
        ensures counted { result ≡ ActDone → counts_of self.new.printed by ≡ counts_of self.old.printed by + 1 }
        ensures book { self.new.book ≡ book_by by result self.old.book }
        ensures journal { self.new.journal ≡ self.old.journal }
        ensures current { self.new.current ≡ self.old.current }
        ensures reserved { self.new.reserved ≡ reserved_by by result self.old.reserved }
        ensures placed { self.new.placed ≡ self.old.placed }
        ensures first { self.new.first ≡ self.old.first }
        ensures second { self.new.second ≡ self.old.second }
        ensures level { self.new.level ≡ self.old.level }
        ensures acts { Acts by.0 (Printer by) (P.view self.old.plant) (P.view self.new.plant) result }
        ensures content { P.tells → Prints by.0 line.now (P.view self.old.plant) (P.view self.new.plant) result }
        ensures frame { parts_of self.new ≡ record (parts_of self.old) {
          plant = self.new.plant;
          printed = printed_by by result self.old.printed;
          book = book_by by result self.old.book;
          reserved = reserved_by by result self.old.reserved;
        } }
    {
        let done = self.plant.print(by, line);
        count_line(&mut self.printed, by, done);
        stop_halted(&mut self.book, &mut self.reserved, by, done);
        done
    }

    /// The lines that the member has printed since its last Pick, Mark, Back or Forward; of the output that is busy at
    /// it they stand on paper.
    pub fn printed_lines(&self, by: MemberId) -> u32
        requires few { by.0 ≤ members_most }
        ensures count { result ≡ counts_of self.now.printed by }
        ensures paper { P.tells → IsSound self.now.base
            → ∥ AreLinesOn (IsOnPaper ((P.view self.now.plant).world (P.view self.now.plant).now).paper) self.now.base
            (counts_of self.now.printed) (kept_all self.now.journal.batches) ∥₁ }
    {
        self.printed[by.0 as usize]
    }

    /// Each entry of the batches that have their fates is within the limits, and of a member of the base that may give
    /// it.
    pub fn kept_given(&self)
        ensures given { P.tells → IsSound self.now.base → ∥ AreGivenIn self.now.base self.now.journal.batches ∥₁ }
    {}
}
