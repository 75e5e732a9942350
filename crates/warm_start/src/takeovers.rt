//! A member takes the lock of a stopped one over, and finds out what became of its batch.
ghost use Rattle.std.specs.Prelude.{◌≡◌, false};
ghost use Rattle.mas_types.specs.Fit.{IsConfig};
ghost use Rattle.lock_cycle.specs.Books.{IsMember, is_stopped, seize_refusal};
ghost use Rattle.mas_complex.specs.Locking.{IsOfOther};
ghost use Rattle.warm_start.specs.Takeover.{ActsOnCopies, IsRefusedBy, Leaves, TakesFor, take_no as take_no_lem};

use lock_cycle::SeizeNo;
use mas_complex::{Complex, RecoverNo, Steady};
use mas_types::{List, MemberId, Page};
use spool_plant::Plant;
use std::alloc::Global;

/// Why nothing was taken over, or nothing was found out of a batch in flight: then it still is.
#[derive(Clone, Copy)]
pub enum TakeNo {
    /// The member that is to lose the lock isn't stopped. Nothing is changed.
    StillUp,
    /// The member that is to lose the lock is stopped and doesn't hold it. Nothing is changed.
    NotHolder,
    /// Both copies count as lost at the end of the call. The member that takes over holds the lock.
    BothLost,
    /// The member that takes over was stopped inside the call: its count of stops rose. It is stopped in the book too,
    /// and holds the lock. A copy counts as alive.
    Halted,
    /// There was no memory for the pages, or those found count beyond what the run's batches may come to. The member
    /// that takes over holds the lock.
    NoMemory,
}

impl From<SeizeNo> for TakeNo {
    ghost from_gives = { λ no e. e ≡ take_no_lem no };

    fn from(no: SeizeNo) -> TakeNo {
        match no {
            SeizeNo::StillUp => TakeNo::StillUp,
            SeizeNo::NotHolder(_) => TakeNo::NotHolder,
        }
    }
}

/// The member `by`, which isn't stopped, takes over the lock that the stopped member `of` holds, and finds out what
/// became of a batch in flight, which is of another member than `by`. After Ok none is: it is kept where the pages
/// handed back have it, and else dropped. These are as many as the configuration has, and every copy that counts as
/// alive reads them, whatever a crash leaves of it. A copy that can't be read, that has another number of pages, or
/// whose pages don't fit, is lost. Nothing is printed.
///
/// StillUp comes exactly where `of` isn't stopped, NotHolder exactly where it is stopped and doesn't hold: then nothing
/// is changed. After the other errors the lock is taken over, and a batch in flight still is. BothLost comes only where
/// both copies count as lost at the end of the call, Halted only where `by` was stopped in it: then it is stopped in
/// the book too. After BothLost and NoMemory the book is as the lock was taken over, and `by` is up in it.
///
/// This speaks of the shared value as one hand reaches it. Where members pass it in turns, all of it is one turn.
pub fn takeover<P: Plant + Drop, C: Steady + Drop>(
    alloc: Global,
    complex: &mut Complex<P, C>,
    by: MemberId,
    of: MemberId,
) -> Result<List<Page>, TakeNo>
    requires by { IsMember complex.old.book by }
    requires of { IsMember complex.old.book of }
    requires up { is_stopped complex.old.book by ≡ false }
    requires others { IsOfOther complex.old.current by }
    requires config { IsConfig complex.old.base.config }
    ensures refused { IsRefusedBy (seize_refusal complex.old.book of) result }
    ensures leaves { Leaves by of complex.old complex.new result }
    ensures acts { ActsOnCopies by complex.old complex.new result }
    ensures tells { TakesFor by complex.old complex.new result }
{
    complex.seize(by, of)?;
    match complex.recover(alloc, by) {
        Ok(pages) => {
            complex.kept_pages();
            Ok(pages)
        }
        Err(RecoverNo::BothLost) => Err(TakeNo::BothLost),
        Err(RecoverNo::Halted) => {
            complex.stop(by);
            Err(TakeNo::Halted)
        }
        Err(RecoverNo::NoMemory) => Err(TakeNo::NoMemory),
    }
}
