//! A history in a gate.
ghost use Rattle.std.specs.Prelude.{◌≡◌, ◌++◌, [], ◌∷◌, OnOk, OnErr};

use mas_types::{Entry, List, NoMemory};
use member_gate::Kept;
use std::alloc::Global;

/// Entries in the order in which they were written. All are kept.
#[derive(Drop)]
pub struct Diary {
    /// The entries.
    pub entries: List<Entry>,
}

impl Kept for Diary {
    ghost use Rattle.gate_example.specs.Writing.{diary_facts};

    ghost tells = { Unit {0} };

    ghost facts = { λ d told. diary_facts d.entries };

    fn kept_count(&self) -> u64 {
        self.entries.len() as u64
    }
}

impl Diary {
    /// No entries.
    pub fn new(alloc: Global) -> Diary
        ensures { result.entries ≡ [] }
    {
        Diary {
            entries: List::new(alloc),
        }
    }

    /// Adds an entry at the end. After NoMemory nothing is changed.
    pub fn add(&mut self, entry: Entry) -> Result<(), NoMemory>
        ensures ok { OnOk result (self.new.entries ≡ self.old.entries ++ entry ∷ []) }
        ensures err { OnErr result (self.new.entries ≡ self.old.entries) }
    {
        self.entries.push(entry)?;
        Ok(())
    }
}
