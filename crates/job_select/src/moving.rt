//! How an index is built, and brought up to what stands in the slots.
ghost use Rattle.std.specs.Prelude.{◌≡◌, ◌≤◌, ◌<◌, [], List, Option, Some, None, IfOk, OnOk, OnErr, drop, length, replicate, slice_get, slice_set};
ghost use Rattle.lay_bytes.specs.declared.records.JobRec.{JobRec as AnyJob};
ghost use Rattle.lay_bytes.specs.declared.records.OutRec.{OutRec as AnyOutput};
ghost use Rattle.lay_bytes.specs.Used.{used};
ghost use Rattle.ckpt_tables.specs.Shape.{HasShape};
ghost use Rattle.job_select.specs.Chains.{HaveSame, Moves, StandsIn, chain_at};
ghost use Rattle.job_select.specs.Kinds.{job_chain as job_chain_lem, number_chain as number_chain_lem, output_chain as output_chain_lem};
ghost use Rattle.job_select.specs.Indexes.{IsOf};

use crate::chains::{Chains, join, leave};
use crate::index::Index;
use crate::jobs::{job_chain, number_chain};
use crate::outputs::output_chain;
use ckpt_tables::Tables;
use indexmap::IndexMap;
use lay_bytes::{JobRec, OutRec};
use mas_types::{List, NoMemory};
use std::alloc::Global;

fn chain_of_job(slot: &Option<JobRec>) -> Option<u32>
    ensures { result ≡ chain_at job_chain_lem slot.now }
{
    match slot {
        Some(job) => job_chain(job),
        None => None,
    }
}

fn chain_of_number(slot: &Option<JobRec>) -> Option<u32>
    ensures { result ≡ chain_at number_chain_lem slot.now }
{
    match slot {
        Some(job) => number_chain(job),
        None => None,
    }
}

fn chain_of_output(slot: &Option<OutRec>) -> Option<u32>
    ensures { result ≡ chain_at output_chain_lem slot.now }
{
    match slot {
        Some(output) => output_chain(output),
        None => None,
    }
}

/// Moves the slot of a job in both kinds of chains. After `NoMemory` all chains are as they were.
fn move_job(
    alloc: Global,
    numbers: &mut Chains,
    chains: &mut Chains,
    slot: u16,
    old: &Option<JobRec>,
    new: &Option<JobRec>,
) -> Result<(), NoMemory>
    requires number { StandsIn numbers.old slot (chain_at number_chain_lem old.now) }
    requires chain { StandsIn chains.old slot (chain_at job_chain_lem old.now) }
    ensures numbers { OnOk result (Moves numbers.old numbers.new slot
        (chain_at number_chain_lem old.now) (chain_at number_chain_lem new.now)) }
    ensures chains { OnOk result (Moves chains.old chains.new slot
        (chain_at job_chain_lem old.now) (chain_at job_chain_lem new.now)) }
    ensures no_number { OnErr result (HaveSame numbers.old numbers.new) }
    ensures no_chain { OnErr result (HaveSame chains.old chains.new) }
{
    let number = chain_of_number(old);
    let new_number = chain_of_number(new);
    let chain = chain_of_job(old);
    let new_chain = chain_of_job(new);
    join(alloc, numbers, slot, number, new_number)?;
    match join(alloc, chains, slot, chain, new_chain) {
        Ok(()) => {
            leave(numbers, slot, number, new_number);
            leave(chains, slot, chain, new_chain);
            Ok(())
        }
        Err(NoMemory) => {
            leave(numbers, slot, new_number, number);
            Err(NoMemory)
        }
    }
}

/// Moves the slot of an output. After `NoMemory` all chains are as they were.
fn move_output(
    alloc: Global,
    chains: &mut Chains,
    slot: u16,
    old: &Option<OutRec>,
    new: &Option<OutRec>,
) -> Result<(), NoMemory>
    requires { StandsIn chains.old slot (chain_at output_chain_lem old.now) }
    ensures ok { OnOk result (Moves chains.old chains.new slot
        (chain_at output_chain_lem old.now) (chain_at output_chain_lem new.now)) }
    ensures err { OnErr result (HaveSame chains.old chains.new) }
{
    let chain = chain_of_output(old);
    let new_chain = chain_of_output(new);
    join(alloc, chains, slot, chain, new_chain)?;
    leave(chains, slot, chain, new_chain);
    Ok(())
}

/// From which slot on nothing stands, where nothing stood from `end` on and what stands in a slot changes.
fn end_with<T>(end: usize, slot: u16, new: &Option<T>) -> usize
    ensures { (slots : List (Option T)) → used (drop end slots) ≡ []
        → used (drop result (slice_set slots slot new.now)) ≡ [] }
{
    match new {
        Some(_) => end.max(slot as usize + 1),
        None => end,
    }
}

/// As many empty slots as `count` says.
fn empty_slots<T: Drop>(alloc: Global, count: usize) -> Result<List<Option<T>>, NoMemory>
    ensures { IfOk result (λ slots. slots ≡ replicate count None) }
{
    let mut slots = List::new(alloc);
    for _slot in 0..count {
        slots.push(None)?;
    }
    Ok(slots)
}

/// An index of slots in which nothing stands.
fn index_of(alloc: Global, jobs: List<Option<JobRec>>, outputs: List<Option<OutRec>>) -> Index
    requires jobs { jobs ≡ replicate (length jobs) None }
    requires outputs { outputs ≡ replicate (length outputs) None }
    ensures jobs { result.jobs ≡ jobs }
    ensures outputs { result.outputs ≡ outputs }
{
    let numbers = IndexMap::new(alloc);
    let job_chains = IndexMap::new(alloc);
    let output_chains = IndexMap::new(alloc);
    Index {
        jobs,
        outputs,
        numbers,
        job_chains,
        output_chains,
        jobs_end: 0,
        outputs_end: 0,
    }
}

impl Index {
    /// An index of no slots, until it is brought up to tables.
    pub fn new(alloc: Global) -> Index
        ensures jobs { result.jobs ≡ [] }
        ensures outputs { result.outputs ≡ [] }
    {
        let jobs = List::new(alloc);
        let outputs = List::new(alloc);
        index_of(alloc, jobs, outputs)
    }

    /// The index of the jobs and outputs of tables, which have their shape. NoMemory comes only when out of memory.
    pub fn build(alloc: Global, tables: &Tables) -> Result<Index, NoMemory>
        requires { HasShape tables.now }
        ensures { IfOk result (λ index. IsOf index tables.now) }
    {
        let jobs = empty_slots(alloc, tables.jobs.len())?;
        let outputs = empty_slots(alloc, tables.outputs.len())?;
        let mut index = index_of(alloc, jobs, outputs);
        index.follow_slots(alloc, tables)?;
        Ok(index)
    }

    /// Brings the index up to tables, which have their shape, whatever tables it was of. After
    /// `NoMemory` it is of none that are known, until it is brought up to tables again.
    pub fn follow(&mut self, alloc: Global, tables: &Tables) -> Result<(), NoMemory>
        requires { HasShape tables.now }
        ensures { OnOk result (IsOf self.new tables.now) }
    {
        if self.jobs.len() != tables.jobs.len() || self.outputs.len() != tables.outputs.len() {
            *self = Index::build(alloc, tables)?;
            return Ok(());
        }
        self.follow_slots(alloc, tables)
    }

    fn follow_slots(&mut self, alloc: Global, tables: &Tables) -> Result<(), NoMemory>
        requires shape { HasShape tables.now }
        requires jobs { length self.old.jobs ≡ length tables.now.jobs }
        requires outputs { length self.old.outputs ≡ length tables.now.outputs }
        ensures { OnOk result (IsOf self.new tables.now) }
    {
        self.follow_jobs(alloc, tables.jobs.as_slice())?;
        self.follow_outputs(alloc, tables.outputs.as_slice())
    }

    fn follow_jobs(&mut self, alloc: Global, jobs: &[Option<JobRec>]) -> Result<(), NoMemory>
        requires same { length self.old.jobs ≡ length jobs.now }
        requires few { length jobs.now ≤ 65536 }
        ensures jobs { OnOk result (self.new.jobs ≡ jobs.now) }
        ensures outputs { OnOk result (self.new.outputs ≡ self.old.outputs) }
    {
        for at in 0..jobs.len() {
            self.follow_job(alloc, at, jobs)?;
        }
        Ok(())
    }

    fn follow_outputs(&mut self, alloc: Global, outputs: &[Option<OutRec>]) -> Result<(), NoMemory>
        requires same { length self.old.outputs ≡ length outputs.now }
        requires few { length outputs.now ≤ 65536 }
        ensures jobs { OnOk result (self.new.jobs ≡ self.old.jobs) }
        ensures outputs { OnOk result (self.new.outputs ≡ outputs.now) }
    {
        for at in 0..outputs.len() {
            self.follow_output(alloc, at, outputs)?;
        }
        Ok(())
    }

    pub(crate) fn follow_job(
        &mut self,
        alloc: Global,
        at: usize,
        jobs: &[Option<JobRec>],
    ) -> Result<(), NoMemory>
        requires few { at < 65536 }
        requires inside { at < length self.old.jobs }
        requires there { at < length jobs.now }
        ensures jobs { OnOk result ((x : Option AnyJob) → slice_get jobs.now at ≡ Some x
            → self.new.jobs ≡ slice_set self.old.jobs at x) }
        ensures outputs { OnOk result (self.new.outputs ≡ self.old.outputs) }
    {
        let old = *self.jobs.item(at);
        let new = jobs[at];
        self.job_moved(alloc, at as u16, &old, &new)
    }

    pub(crate) fn follow_output(
        &mut self,
        alloc: Global,
        at: usize,
        outputs: &[Option<OutRec>],
    ) -> Result<(), NoMemory>
        requires few { at < 65536 }
        requires inside { at < length self.old.outputs }
        requires there { at < length outputs.now }
        ensures outputs { OnOk result ((x : Option AnyOutput) → slice_get outputs.now at ≡ Some x
            → self.new.outputs ≡ slice_set self.old.outputs at x) }
        ensures jobs { OnOk result (self.new.jobs ≡ self.old.jobs) }
    {
        let old = *self.outputs.item(at);
        let new = outputs[at];
        self.output_moved(alloc, at as u16, &old, &new)
    }

    /// What stands in a slot of jobs changes from the one to the other. After `NoMemory` the index
    /// is of what it was of.
    pub fn job_moved(
        &mut self,
        alloc: Global,
        slot: u16,
        old: &Option<JobRec>,
        new: &Option<JobRec>,
    ) -> Result<(), NoMemory>
        requires { slice_get self.old.jobs slot ≡ Some old.now }
        ensures jobs { OnOk result (self.new.jobs ≡ slice_set self.old.jobs slot new.now) }
        ensures no_memory { OnErr result (self.new.jobs ≡ self.old.jobs) }
        ensures outputs { self.new.outputs ≡ self.old.outputs }
    {
        match move_job(
            alloc,
            &mut self.numbers,
            &mut self.job_chains,
            slot,
            old,
            new,
        ) {
            Ok(()) => {
                *self.jobs.item_mut(slot as usize) = *new;
                self.jobs_end = end_with(self.jobs_end, slot, new);
                Ok(())
            }
            Err(NoMemory) => Err(NoMemory),
        }
    }

    /// What stands in a slot of outputs changes from the one to the other. After `NoMemory` the
    /// index is of what it was of.
    pub fn output_moved(
        &mut self,
        alloc: Global,
        slot: u16,
        old: &Option<OutRec>,
        new: &Option<OutRec>,
    ) -> Result<(), NoMemory>
        requires { slice_get self.old.outputs slot ≡ Some old.now }
        ensures outputs { OnOk result (self.new.outputs ≡ slice_set self.old.outputs slot new.now) }
        ensures no_memory { OnErr result (self.new.outputs ≡ self.old.outputs) }
        ensures jobs { self.new.jobs ≡ self.old.jobs }
    {
        match move_output(alloc, &mut self.output_chains, slot, old, new) {
            Ok(()) => {
                *self.outputs.item_mut(slot as usize) = *new;
                self.outputs_end = end_with(self.outputs_end, slot, new);
                Ok(())
            }
            Err(NoMemory) => Err(NoMemory),
        }
    }
}
