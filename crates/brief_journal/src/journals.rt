//! A journal as memory keeps it.
ghost use Rattle.std.specs.Prelude.{◌≡◌, ◌++◌, ◌∷◌, ◌<◌, [], length, remove, slice_set, OnOk, OnErr};

use crate::batches::BriefBatch;
use mas_types::{List, NoMemory};
use std::alloc::Global;
use std::marker::Model;

/// The history of a run, of whose entries memory has no texts. A contract sees the journal.
#[derive(Drop)]
pub struct BriefJournal {
    batches: List<BriefBatch>,
}

impl Model for BriefJournal {
    ghost use Rattle.mas_types.specs.declared.journals.Journal.{Journal};

    ghost Value = { Journal };

    ghost view = { λ a. record { batches = a.batches } };
}

impl BriefJournal {
    /// No batches.
    pub fn new(alloc: Global) -> BriefJournal
        ensures { result.batches ≡ [] }
    {
        BriefJournal {
            batches: List::new(alloc),
        }
    }

    /// The number of batches.
    pub fn len(&self) -> usize
        ensures { result ≡ length self.now.batches }
    {
        self.batches.len()
    }

    /// The batches in order.
    pub fn batches(&self) -> &[BriefBatch]
        ensures { result.now ≡ self.now.batches }
    {
        self.batches.as_slice()
    }

    /// Adds a batch at the end.
    pub fn push(&mut self, batch: BriefBatch) -> Result<(), NoMemory>
        ensures ok { OnOk result (self.new.batches ≡ self.old.batches ++ batch ∷ []) }
        ensures err { OnErr result (self.new ≡ self.old) }
    {
        self.batches.push(batch)
    }

    /// The batch at a place is this one instead.
    pub fn set(&mut self, at: usize, batch: BriefBatch)
        requires { at < length self.old.batches }
        ensures { self.new.batches ≡ slice_set self.old.batches at batch }
    {
        self.batches.as_mut_slice()[at] = batch;
    }

    /// The batch at a place goes.
    pub fn remove(&mut self, at: usize)
        requires { at < length self.old.batches }
        ensures { self.new.batches ≡ remove self.old.batches at }
    {
        drop(self.batches.remove(at));
    }
}
