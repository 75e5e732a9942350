//! Batches as memory keeps them.
ghost use Rattle.std.specs.Prelude.{◌≡◌, [], length, map, IfOk};
ghost use Rattle.brief_journal.specs.Brief.{brief_of};

use crate::entries::{BriefEntry, briefs_of};
use mas_types::{Entry, Fate, List, MemberId, NoMemory};
use std::alloc::Global;
use std::marker::Model;
use std::snapshot::Snapshot;

/// Entries, of which memory has no texts. A contract sees the entries as they were given.
#[derive(Drop)]
pub struct BriefEntries {
    /// The entries without their texts.
    briefs: Vec<BriefEntry>,
    /// The entries, for clauses alone.
    whole: Snapshot<List<Entry>>,
}

impl Model for BriefEntries {
    ghost use Rattle.std.specs.Prelude.{List};
    ghost use Rattle.mas_types.specs.declared.journals.Entry.{Entry};

    ghost Value = { List Entry };

    ghost use Rattle.brief_journal.specs.Brief.{AreBrief};

    ghost view = { λ a. a.whole.value };

    ghost invariant = { λ a. AreBrief a.briefs.items a.whole.value };
}

impl BriefEntries {
    /// No entries.
    pub fn none(alloc: Global) -> BriefEntries
        ensures { result ≡ [] }
    {
        let none = List::new(alloc);
        BriefEntries {
            briefs: Vec::new(alloc),
            whole: Snapshot::of(&none),
        }
    }

    /// The entries. NoMemory comes only when out of memory.
    pub fn of(alloc: Global, entries: &List<Entry>) -> Result<BriefEntries, NoMemory>
        ensures { IfOk result (λ brief. brief ≡ entries.now) }
    {
        let briefs = briefs_of(alloc, entries.as_slice())?;
        Ok(BriefEntries {
            briefs,
            whole: Snapshot::of(entries),
        })
    }

    /// The number of entries.
    #[tactic(auto, using(crate::proofs::Maps::map_length))]
    pub fn len(&self) -> usize
        ensures { result ≡ length self.now }
    {
        self.briefs.len()
    }

    /// The entries without their texts.
    pub fn as_slice(&self) -> &[BriefEntry]
        ensures { result.now ≡ map brief_of self.now }
    {
        self.briefs.as_slice()
    }
}

/// A batch, of whose entries memory has no texts. A contract sees the batch.
#[derive(Drop)]
pub struct BriefBatch {
    /// The moment before its first write.
    pub first: u64,
    /// The moment after it was committed or given up. While it is flying this is the greatest number.
    pub last: u64,
    /// The member whose entries these are.
    pub by: MemberId,
    /// What became of it.
    pub fate: Fate,
    /// The entries in order.
    pub entries: BriefEntries,
}

impl Model for BriefBatch {
    ghost use Rattle.mas_types.specs.declared.journals.Batch.{Batch};

    ghost Value = { Batch };

    ghost view = { λ a. record { first = a.first; last = a.last; by = a.by; fate = a.fate; entries = a.entries } };
}

impl BriefBatch {
    /// The batch with this fate, which it has since a moment.
    pub fn fated(self, fate: Fate, last: u64) -> BriefBatch
        ensures { result ≡ record self { fate = fate; last = last } }
    {
        let BriefBatch {
            first,
            by,
            entries,
            ..
        } = self;
        BriefBatch {
            first,
            last,
            by,
            fate,
            entries,
        }
    }

    /// The moment before its first write.
    pub fn first(&self) -> u64
        ensures { result ≡ self.now.first }
    {
        self.first
    }

    /// The moment after it was committed or given up.
    pub fn last(&self) -> u64
        ensures { result ≡ self.now.last }
    {
        self.last
    }

    /// The member whose entries these are.
    pub fn by(&self) -> MemberId
        ensures { result ≡ self.now.by }
    {
        self.by
    }

    /// What became of it.
    pub fn fate(&self) -> Fate
        ensures { result ≡ self.now.fate }
    {
        self.fate
    }

    /// The number of its entries.
    pub fn count(&self) -> usize
        ensures { result ≡ length self.now.entries }
    {
        self.entries.len()
    }

    /// Its entries without their texts.
    pub fn briefs(&self) -> &[BriefEntry]
        ensures { result.now ≡ map brief_of self.now.entries }
    {
        self.entries.as_slice()
    }
}
