//! The end of a journal.
ghost use Rattle.mas_complex.specs.Names.{Dropped};
ghost use Rattle.std.specs.Prelude.{◌≡◌, ◌++◌, ◌∷◌, [], length, ◌≤◌, OnOk, OnErr};
ghost use Rattle.mas_complex.specs.Journals.{journal_most, with_last, without_last, end_of};

use brief_journal::{BriefBatch, BriefEntries, BriefJournal};
use mas_types::{Fate, MemberId, NoMemory};
use std::alloc::Global;

// A journal has at most so many batches.
const JOURNAL_MOST: usize = 1 << 40;

// The place of a batch to come stands last. NoMemory comes where there is none, or the journal has as many batches as
// it may.
pub(crate) fn push_place(journal: &mut BriefJournal, place: BriefBatch) -> Result<(), NoMemory>
    requires few { length journal.old.batches ≤ journal_most }
    ensures ok { OnOk result (journal.new.batches ≡ journal.old.batches ++ place ∷ []) }
    ensures err { OnErr result (journal.new ≡ journal.old) }
    ensures few { length journal.new.batches ≤ journal_most }
{
    if journal.len() >= JOURNAL_MOST {
        return Err(NoMemory);
    }
    journal.push(place)
}

// The last batch is this one instead.
#[tactic(auto, using(crate::proofs::Batches::last_put))]
pub(crate) fn set_last(journal: &mut BriefJournal, batch: BriefBatch)
    ensures { journal.new.batches ≡ with_last batch journal.old.batches }
{
    let count = journal.len();
    if count > 0 {
        journal.set(count - 1, batch);
    }
}

// The last batch is this one instead, with this fate, which it has since a moment.
pub(crate) fn end_last(journal: &mut BriefJournal, batch: BriefBatch, fate: Fate, last: u64)
    ensures { journal.new.batches ≡ with_last
        (record { first = batch.first; last = last; by = batch.by; fate = fate; entries = batch.entries })
        journal.old.batches }
{
    set_last(journal, batch.fated(fate, last));
}

// The last batch goes.
#[tactic(auto, using(crate::proofs::Batches::last_removed))]
pub(crate) fn drop_last(journal: &mut BriefJournal)
    ensures { journal.new.batches ≡ without_last journal.old.batches }
{
    let count = journal.len();
    if count > 0 {
        journal.remove(count - 1);
    }
}

// The place of a batch to come.
pub(crate) fn empty_place(alloc: Global, now: u64) -> BriefBatch
    ensures { result ≡ record { first = now; last = now; by = record { 0 = 0 }; fate = Dropped; entries = [] } }
{
    BriefBatch {
        first: now,
        last: now,
        by: MemberId(0),
        fate: Fate::Dropped,
        entries: BriefEntries::none(alloc),
    }
}

// The journal at the end: the batch in flight stands last, or an unused place goes.
pub(crate) fn finished(
    journal: BriefJournal,
    current: Option<BriefBatch>,
    placed: bool,
) -> BriefJournal
    ensures { result.batches ≡ end_of placed current journal.batches }
{
    let mut journal = journal;
    if let Some(batch) = current {
        set_last(&mut journal, batch);
        return journal;
    }
    if placed {
        drop_last(&mut journal);
        return journal;
    }
    journal
}
