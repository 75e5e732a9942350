//! An index that is kept with tables.
ghost use Rattle.std.specs.Prelude.{◌≡◌, [], true, false, drop};
ghost use Rattle.lay_bytes.specs.Used.{used};
ghost use Rattle.ckpt_tables.specs.Shape.{HasShape};
ghost use Rattle.job_select.specs.Behind.{IsBehind, IsKept};

use crate::index::Index;
use ckpt_tables::Tables;
use page_marks::Marks;
use std::alloc::Global;

/// An index that is kept with tables. When out of memory it is lost. Then what it would select is found by walks over
/// all slots, until it is built anew.
#[derive(Drop)]
pub struct KeptIndex {
    /// The index.
    pub index: Index,
    /// It is of the tables.
    pub current: bool,
}

impl KeptIndex {
    /// None yet, until it is built.
    pub fn none(alloc: Global) -> KeptIndex
        ensures { result.current ≡ false }
    {
        KeptIndex {
            index: Index::new(alloc),
            current: false,
        }
    }

    /// Brings the index up to tables, which have their shape, whatever it was of; lost when out of memory.
    pub fn build(&mut self, alloc: Global, tables: &Tables)
        requires { HasShape tables.now }
        ensures { IsKept self.new tables.now }
    {
        self.current = self.index.follow(alloc, tables).is_ok();
    }

    /// Brings the index up to tables, which have their shape: if it is current, it lags behind them on pages with marks
    /// alone, and only the slots of these pages are looked at. If it was lost, it is built anew. Lost when out of memory.
    pub fn follow(&mut self, alloc: Global, tables: &Tables, marks: &Marks)
        requires shape { HasShape tables.now }
        requires behind { self.old.current ≡ true → IsBehind self.old.index tables.now marks.now.pages }
        ensures { IsKept self.new tables.now }
    {
        if !self.current {
            self.build(alloc, tables);
            return;
        }
        self.current = self.index.follow_pages(alloc, tables, marks).is_ok();
    }

    /// From which slot on no job of the tables stands: past the last slot that was ever used, or past all if the index
    /// was lost.
    pub fn jobs_end(&self, tables: &Tables) -> usize
        requires { IsKept self.now tables.now }
        ensures { used (drop result tables.now.jobs) ≡ [] }
    {
        if self.current {
            return self.index.jobs_end;
        }
        tables.jobs.len()
    }

    /// From which slot on no output of the tables stands: past the last slot that was ever used, or past all if the
    /// index was lost.
    pub fn outputs_end(&self, tables: &Tables) -> usize
        requires { IsKept self.now tables.now }
        ensures { used (drop result tables.now.outputs) ≡ [] }
    {
        if self.current {
            return self.index.outputs_end;
        }
        tables.outputs.len()
    }
}
