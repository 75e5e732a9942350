//! A shared value is made, and hands out what it has at its end.
ghost use Rattle.mas_complex.specs.Names.{Ckpt1, Ckpt2, pick, View, top, Goes, Disk, level, Before as AtBefore};
ghost use Rattle.std.specs.Prelude.{◌≡◌, ◌≤◌, [], None, true, false};
ghost use Rattle.mas_complex.specs.Journals.{end_of};
ghost use Rattle.mas_complex.specs.Crash.{setting, copy_of, BeginsWith};
ghost use Rattle.mas_complex.specs.Headline.{Headline, LeavesQueue};
ghost use Rattle.mas_complex.specs.Replies.{AreReplied};
ghost use Rattle.mas_complex.specs.Locking.{book_of};
ghost use Rattle.mas_complex.specs.Paper.{no_counts};
ghost use Rattle.mas_complex.specs.Past.{nobody_noted, values_of};
ghost use Rattle.mas_complex.specs.Renewals.{no_renewals as none_renewed};

use crate::complex::{Complex, Ended};
use crate::counts::COUNTS;
use crate::journal_end::finished;
use crate::noting::none_noted;
use crate::renewals::no_renewals;
use brief_journal::BriefJournal;
use brief_queue::BriefQueue;
use ckpt_form::Steady;
use ckpt_places::Place;
use duplex_pair::Pair;
use lock_cycle::LockBook;
use mas_types::{List, MEMBERS_MOST};
use spool_plant::Plant;
use std::alloc::Global;

impl<P: Plant + Drop, C: Steady + Drop> Complex<P, C> {
    /// A shared value of a plant and the two copies on it. Each copy that counts as alive is at rest with the same
    /// pages, of this level, which stand for the base, and the device of one that counts as lost is lost. Nobody holds
    /// the lock.
    pub fn make(
        alloc: Global,
        plant: P,
        pair: Pair<C>,
        base: BriefQueue,
        level: u64,
    ) -> Complex<P, C>
        requires ready1 { pair.first.alive ≡ true → C.ready pair.first.copy (P.view plant) }
        requires ready2 { pair.second.alive ≡ true → C.ready pair.second.copy (P.view plant) }
        requires lost1 { pair.first.alive ≡ false → (P.view plant).lost (Disk Ckpt1) ≡ true }
        requires lost2 { pair.second.alive ≡ false → (P.view plant).lost (Disk Ckpt2) ≡ true }
        requires begins { P.tells → ∥ BeginsWith (setting C.reads base (P.view plant).now) level
            (λ d. copy_of C.rests C.holds (pick d pair.first pair.second) AtBefore) (P.view plant) ∥₁ }
        ensures plant { result.plant ≡ plant }
        ensures pair { result.pair ≡ pair }
        ensures base { result.base ≡ base }
        ensures since { result.since ≡ (P.view plant).now }
        ensures book { result.book ≡ book_of base.config }
        ensures journal { result.journal.batches ≡ [] }
        ensures placed { result.placed ≡ false }
        ensures current { result.current ≡ None }
        ensures reserved { result.reserved ≡ None }
        ensures places { (result.first ≡ AtBefore) × (result.second ≡ AtBefore) }
        ensures printed { result.printed ≡ no_counts }
        ensures level { result.level ≡ level }
        ensures renewals { result.renewals ≡ none_renewed }
        ensures had { values_of result.had ≡ nobody_noted }
        ensures fresh { P.tells → ∥ ((later : View) → Goes (P.view plant) later
            → LeavesQueue C.reads base (P.view plant).now later) ∥₁ }
    {
        let since = moment_of(&plant);
        let book = new_book_of(&base);
        let had = none_noted(&List::new(alloc));
        Complex {
            plant,
            pair,
            book,
            base,
            since,
            journal: BriefJournal::new(alloc),
            current: None,
            reserved: None,
            placed: false,
            first: Place::Before,
            second: Place::Before,
            level,
            printed: [0; COUNTS],
            renewals: no_renewals(alloc),
            had,
        }
    }

    /// Hands out the plant, the base, the first moment and the journal, of which the headline holds, and whose entries
    /// have their replies.
    #[tactic(auto, using(crate::proofs::Batches::end_is))]
    pub fn end(self) -> Ended<P>
        ensures plant { result.plant ≡ self.plant }
        ensures base { result.base ≡ self.base }
        ensures since { result.since ≡ self.since }
        ensures journal { result.journal.batches ≡ end_of self.placed self.current self.journal.batches }
        ensures renewals { result.renewals ≡ self.renewals }
        ensures headline { P.tells → ∥ Headline C.reads result.base result.since result.journal result.renewals
            (P.view result.plant) ∥₁ }
        ensures replied { P.tells → ∥ AreReplied result.base result.journal.batches ∥₁ }
    {
        let Complex {
            plant,
            base,
            since,
            journal,
            current,
            placed,
            renewals,
            ..
        } = self;
        let _last = moment_of(&plant);
        let journal = finished(journal, current, placed);
        Ended {
            plant,
            base,
            since,
            journal,
            renewals,
        }
    }
}

// The moment of a plant, which is a count.
fn moment_of<P: Plant>(plant: &P) -> u64
    ensures now { result ≡ (P.view plant.now).now }
    ensures most { (P.view plant.now).now ≤ top }
{
    plant.now()
}

// The book of a complex that begins with this queue, in which nobody holds.
fn new_book_of(base: &BriefQueue) -> LockBook
    ensures { result ≡ book_of base.now.config }
{
    let config = base.config();
    LockBook::new(
        config.members.min(MEMBERS_MOST),
        config.hold,
        config.dormancy,
    )
}
