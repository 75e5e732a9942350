//! The shared value.
ghost use Rattle.mas_complex.specs.Names.{Dev, IsCkpt, pick, Disk, level, Batch, is_stopped, IsSound};
ghost use Rattle.std.specs.Prelude.{◌≡◌, ◌≢◌, ◌≤◌, ◌++◌, length, true, false, Some, IsSome};
ghost use Rattle.mas_complex.specs.Journals.{entries_in, entries_reserved, in_flight, entries_most, journal_most, AreFew, AreSettled, HasPlace, IsBegun, past_batches};
ghost use Rattle.mas_complex.specs.Settled.{settled_prop, begun_prop};
ghost use Rattle.mas_complex.specs.Crash.{Keeps, setting_with, copy_of};
ghost use Rattle.mas_complex.specs.Renewals.{is_open, of_device};
ghost use Rattle.mas_complex.specs.Replies.{AreReplied};
ghost use Rattle.mas_complex.specs.Paper.{KeepsPaper};
ghost use Rattle.mas_complex.specs.Past.{values_of};

use crate::counts::COUNTS;
use crate::noting::Note;
use crate::renewals::Renewals;
use brief_journal::{BriefBatch, BriefEntries, BriefJournal};
use brief_queue::BriefQueue;
use ckpt_form::Steady;
use ckpt_places::Place;
use duplex_pair::Pair;
use lock_cycle::LockBook;
use spool_plant::Plant;

/// What a shared value hands out at its end.
#[derive(Drop)]
pub struct Ended<P: Plant + Drop> {
    /// The plant that was lent to the shared value.
    pub plant: P,
    /// The queue that it began with. Memory has no texts of it.
    pub base: BriefQueue,
    /// The moment from which on it kept its promises.
    pub since: u64,
    /// The batches of its time, with their fates.
    pub journal: BriefJournal,
    /// When a copy was replaced.
    pub renewals: Renewals,
}

/// A plant with two copies of the checkpoint, which stand for a queue, and the journal of what was done since `since`,
/// when they stood for `base`.
#[derive(Drop)]
pub struct Complex<P: Plant + Drop, C: Steady + Drop> {
    /// The devices, the console, printers and wires.
    pub plant: P,
    /// The two copies of the checkpoint.
    pub pair: Pair<C>,
    /// Who holds the lock of the checkpoint, and how each member stands with it.
    pub book: LockBook,
    /// The queue that it began with. Memory has no texts of it.
    pub base: BriefQueue,
    /// The moment from which on it keeps its promises.
    pub since: u64,
    /// The batches that have their fates, and the place of one to come.
    pub journal: BriefJournal,
    /// The batch in flight.
    pub current: Option<BriefBatch>,
    /// The entries of the batch to come.
    pub reserved: Option<BriefEntries>,
    /// The journal ends in the place of the batch to come.
    pub placed: bool,
    /// How far the batch in flight has come on CKPT1.
    pub first: Place,
    /// How far it has come on CKPT2.
    pub second: Place,
    /// The level of the kept pages.
    pub level: u64,
    /// The lines that each member has printed since its last Pick, Mark, Back or Forward, from the operator on, which
    /// prints none.
    pub printed: [u32; COUNTS],
    /// When a copy was replaced.
    pub renewals: Renewals,
    /// The pages that each member noted last, the operator's first; none of one that has noted none.
    pub had: [Note; COUNTS],

    /// What a crash leaves and the console tells at each moment since then, where each copy stands now, and that pages
    /// whose level isn't above that of pages that a member noted are as they were then.
    ghost kept: { P.tells → ∥ Keeps (setting_with C.reads base since renewals (values_of had))
        (past_batches placed journal.batches) current level (λ d. copy_of C.rests C.holds
        (pick d pair.first pair.second) (pick d first second)) (P.view plant) ∥₁ },

    /// Each entry has the reply that the commands give at its place.
    ghost replied: { P.tells → ∥ AreReplied base (past_batches placed journal.batches ++ in_flight current) ∥₁ },

    /// What stands on paper at each moment since then, where the base has the sound parts.
    ghost paper: { P.tells → IsSound base
        → ∥ KeepsPaper base since (past_batches placed journal.batches) current (printed, book) (P.view plant) ∥₁ },

    /// A copy that counts as alive is ready.
    ghost ready: { (d : Dev) → IsCkpt d → (pick d pair.first pair.second).alive ≡ true
        → C.fits (pick d pair.first pair.second).copy (P.view plant) ≡ true },

    /// The device of one that counts as lost is lost, unless its replacement was begun and not ended.
    ghost lost: { (d : Dev) → IsCkpt d → (pick d pair.first pair.second).alive ≡ false
        → is_open (of_device d renewals) ≡ false → (P.view plant).lost (Disk d) ≡ true },

    /// Nothing is reserved while a batch is in flight.
    ghost one: { IsSome current → IsSome reserved → ⊥ },

    /// A batch that is reserved or in flight has its place in the journal.
    ghost place_reserved: { IsSome reserved → placed ≡ true },

    ghost place_current: { IsSome current → placed ≡ true },

    ghost place: { ∥ HasPlace placed journal.batches ∥₁ },

    /// Each batch of the journal has its fate by now, and one in flight began by now.
    ghost settled: { AreSettled journal.batches (P.view plant).now } by { settled_prop _ (P.view plant).now },

    ghost begun: { IsBegun current (P.view plant).now } by { begun_prop current (P.view plant).now },

    /// A batch in flight is of the member that holds the lock, or of one that was stopped.
    ghost owned: { (batch : Batch) → current ≡ Some batch → batch.by ≢ book.holder
        → is_stopped book batch.by ≡ true },

    /// The journal has at most so many batches.
    ghost few: { length journal.batches ≤ journal_most },

    /// Each batch has at most so many entries: the one in flight, the one to come, and each that was kept.
    ghost short: { length (entries_in current) ≤ entries_most },

    ghost short_reserved: { length (entries_reserved reserved) ≤ entries_most },

    ghost counted: { AreFew placed journal.batches },
}
