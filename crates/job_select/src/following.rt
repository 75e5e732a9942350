//! How an index is brought up to tables by the pages that show what changed.
ghost use Rattle.std.specs.Prelude.{◌≡◌, ◌+◌, ◌*◌, ◌/◌, ◌<◌, ◌≤◌, ℕ, true, length, slice_get, OnOk};
ghost use Rattle.ckpt_tables.specs.Shape.{HasShape, jobs_a_page, outputs_a_page};
ghost use Rattle.page_marks.specs.Marks.{is_marked, job_page};
ghost use Rattle.job_select.specs.Behind.{AreBehind, IsBehind};
ghost use Rattle.job_select.specs.Indexes.{IsOf};

use crate::index::Index;
use ckpt_tables::{FIRST_JOB_PAGE, JOBS_A_PAGE, OUTPUTS_A_PAGE, Tables, first_output_page};
use lay_bytes::{JobRec, OutRec};
use mas_types::NoMemory;
use page_marks::Marks;
use std::alloc::Global;

impl Index {
    /// Brings the index up to tables, which have their shape: it lags behind them on pages with marks alone. It looks
    /// at the slots of these pages, and at no others. After `NoMemory` it is of no tables that are known.
    pub fn follow_pages(
        &mut self,
        alloc: Global,
        tables: &Tables,
        marks: &Marks,
    ) -> Result<(), NoMemory>
        requires shape { HasShape tables.now }
        requires behind { IsBehind self.old tables.now marks.now.pages }
        ensures { OnOk result (IsOf self.new tables.now) }
    {
        self.follow_marked_jobs(alloc, tables.jobs.as_slice(), marks)?;
        let first = first_output_page(&tables.config);
        self.follow_marked_outputs(alloc, tables.outputs.as_slice(), first, marks)
    }

    fn follow_marked_jobs(
        &mut self,
        alloc: Global,
        jobs: &[Option<JobRec>],
        marks: &Marks,
    ) -> Result<(), NoMemory>
        requires few { length jobs.now ≤ 2048 }
        requires same { length self.old.jobs ≡ length jobs.now }
        requires behind { AreBehind (λ at. is_marked marks.now.pages (job_page at)) self.old.jobs jobs.now }
        ensures jobs { OnOk result (self.new.jobs ≡ jobs.now) }
        ensures outputs { OnOk result (self.new.outputs ≡ self.old.outputs) }
    {
        for page in 0..jobs.len().div_ceil(JOBS_A_PAGE) {
            let has_mark = marks.has(FIRST_JOB_PAGE + page as u16);
            self.follow_job_page(alloc, page, jobs, has_mark)?;
        }
        Ok(())
    }

    fn follow_marked_outputs(
        &mut self,
        alloc: Global,
        outputs: &[Option<OutRec>],
        first: u16,
        marks: &Marks,
    ) -> Result<(), NoMemory>
        requires few { length outputs.now ≤ 4096 }
        requires first { first ≤ 1024 }
        requires same { length self.old.outputs ≡ length outputs.now }
        requires behind { AreBehind (λ at. is_marked marks.now.pages (first + at / outputs_a_page))
            self.old.outputs outputs.now }
        ensures jobs { OnOk result (self.new.jobs ≡ self.old.jobs) }
        ensures outputs { OnOk result (self.new.outputs ≡ outputs.now) }
    {
        for page in 0..outputs.len().div_ceil(OUTPUTS_A_PAGE) {
            let has_mark = marks.has(first + page as u16);
            self.follow_output_page(alloc, page, outputs, has_mark)?;
        }
        Ok(())
    }

    // The slots of a page of jobs, counted from 0, if the page has a mark. What was as it is to be stays so.
    fn follow_job_page(
        &mut self,
        alloc: Global,
        page: usize,
        jobs: &[Option<JobRec>],
        has_mark: bool,
    ) -> Result<(), NoMemory>
        requires few { length jobs.now ≤ 2048 }
        requires same { length self.old.jobs ≡ length jobs.now }
        requires page { jobs_a_page * page < length jobs.now }
        ensures same { OnOk result (length self.new.jobs ≡ length jobs.now) }
        ensures here { OnOk result (has_mark ≡ true → (at : ℕ) → jobs_a_page * page ≤ at
            → at < jobs_a_page * page + jobs_a_page → slice_get self.new.jobs at ≡ slice_get jobs.now at) }
        ensures stays { OnOk result ((at : ℕ) → slice_get self.old.jobs at ≡ slice_get jobs.now at
            → slice_get self.new.jobs at ≡ slice_get jobs.now at) }
        ensures outputs { OnOk result (self.new.outputs ≡ self.old.outputs) }
    {
        if !has_mark {
            return Ok(());
        }
        let first = JOBS_A_PAGE * page;
        for at in first..(first + JOBS_A_PAGE).min(jobs.len()) {
            self.follow_job(alloc, at, jobs)?;
        }
        Ok(())
    }

    // The slots of a page of outputs, counted from 0, if the page has a mark. What was as it is to be stays so.
    fn follow_output_page(
        &mut self,
        alloc: Global,
        page: usize,
        outputs: &[Option<OutRec>],
        has_mark: bool,
    ) -> Result<(), NoMemory>
        requires few { length outputs.now ≤ 4096 }
        requires same { length self.old.outputs ≡ length outputs.now }
        requires page { outputs_a_page * page < length outputs.now }
        ensures same { OnOk result (length self.new.outputs ≡ length outputs.now) }
        ensures here { OnOk result (has_mark ≡ true → (at : ℕ) → outputs_a_page * page ≤ at
            → at < outputs_a_page * page + outputs_a_page
            → slice_get self.new.outputs at ≡ slice_get outputs.now at) }
        ensures stays { OnOk result ((at : ℕ) → slice_get self.old.outputs at ≡ slice_get outputs.now at
            → slice_get self.new.outputs at ≡ slice_get outputs.now at) }
        ensures jobs { OnOk result (self.new.jobs ≡ self.old.jobs) }
    {
        if !has_mark {
            return Ok(());
        }
        let first = OUTPUTS_A_PAGE * page;
        for at in first..(first + OUTPUTS_A_PAGE).min(outputs.len()) {
            self.follow_output(alloc, at, outputs)?;
        }
        Ok(())
    }
}
