//! The batches of a world's journal, and lists of entries.
ghost use Rattle.std.specs.Prelude.{◌≡◌, ◌-◌, ◌&&◌, ◌++◌, ◌∷◌, [], not, nat_lt, length, IfOk, OnOk};
ghost use Rattle.std.specs.List.{list_any};
ghost use Rattle.mas_types.specs.Journal.{is_flying as in_flight};
ghost use Rattle.member_core.specs.Worlds.{entries_flying, entries_kept, fate_after as fate_settled, flying_in, has_unkept as any_unkept, is_nil as is_empty_list, is_of as is_entry_of, is_unkept as not_kept, kept_in, settled};
ghost use Rattle.member_core.specs.Events.{fate_by as fate_found, kept_once};

use crate::people::{is_nil, is_same};
use mas_types::{Batch, Copied, Entry, Fate, List, MemberId, NoMemory};
use std::alloc::Global;

/// Whether it is in flight.
pub fn is_flying(fate: Fate) -> bool
    ensures { result ≡ in_flight fate }
{
    matches!(fate, Fate::Flying)
}

/// Whether it isn't kept.
pub fn is_unkept(fate: Fate) -> bool
    ensures { result ≡ not_kept fate }
{
    !matches!(fate, Fate::Kept)
}

fn flies(batch: &Batch) -> bool
    ensures { result ≡ (in_flight batch.now.fate && not (is_empty_list batch.now.entries)) }
{
    is_flying(batch.fate) && !is_nil(&batch.entries)
}

fn is_any_flying(batches: &List<Batch>) -> bool
    ensures { result ≡ list_any (λ b. in_flight b.fate && not (is_empty_list b.entries)) batches.now }
{
    batches.as_slice().iter().any(|b| flies(b))
}

/// Whether no entry is in flight.
pub fn is_calm(batches: &List<Batch>) -> bool
    ensures { result ≡ is_empty_list (flying_in batches.now) }
{
    !is_any_flying(batches)
}

fn kept_fewer(batch: &Batch, room: usize) -> usize
    ensures { result ≡ room - length (entries_kept batch.now.fate batch.now.entries) }
{
    match batch.fate {
        Fate::Kept => room.saturating_sub(batch.entries.len()),
        Fate::Dropped | Fate::Flying => room,
    }
}

/// Whether so many entries are more than those that are kept.
pub fn is_past_kept(batches: &List<Batch>, count: usize) -> bool
    ensures { result ≡ nat_lt (length (kept_in batches.now)) count }
{
    let mut room = count;
    for batch in batches.as_slice() {
        room = kept_fewer(batch, room);
    }
    room > 0
}

fn fate_after(new: Fate, old: Fate) -> Fate
    ensures { result ≡ fate_settled new old }
{
    if is_flying(old) { new } else { old }
}

/// The batches in flight get their fate.
pub fn settle(batches: &mut [Batch], fate: Fate)
    ensures { batches.new ≡ settled fate batches.old }
{
    for batch in batches.iter_mut() {
        batch.fate = fate_after(fate, batch.fate);
    }
}

/// The fate of a batch that was found, or wasn't.
pub fn fate_by(found: bool) -> Fate
    ensures { result ≡ fate_found found }
{
    if found { Fate::Kept } else { Fate::Dropped }
}

fn is_of(entry: &Entry, m: MemberId, step: u32) -> bool
    ensures { result ≡ is_entry_of m step entry.now }
{
    is_same(entry.by, m) && entry.step == step
}

/// Whether an entry is of that step of the member.
pub fn has_entry_of(entries: &List<Entry>, m: MemberId, step: u32) -> bool
    ensures { result ≡ list_any (is_entry_of m step) entries.now }
{
    entries.as_slice().iter().any(|e| is_of(e, m, step))
}

fn has_kept_of(batch: &Batch, m: MemberId, step: u32) -> bool
    ensures { result ≡ (not (not_kept batch.now.fate) && list_any (is_entry_of m step) batch.now.entries) }
{
    !is_unkept(batch.fate) && has_entry_of(&batch.entries, m, step)
}

fn has_unkept_of(batch: &Batch, m: MemberId, step: u32) -> bool
    ensures { result ≡ (not_kept batch.now.fate && list_any (is_entry_of m step) batch.now.entries) }
{
    is_unkept(batch.fate) && has_entry_of(&batch.entries, m, step)
}

fn is_any_kept(batches: &List<Batch>, m: MemberId, step: u32) -> bool
    ensures { result ≡ list_any (λ b. not (not_kept b.fate) && list_any (is_entry_of m step) b.entries) batches.now }
{
    batches.as_slice().iter().any(|b| has_kept_of(b, m, step))
}

/// Whether a kept entry is of that step of the member.
pub fn has_kept(batches: &List<Batch>, m: MemberId, step: u32) -> bool
    ensures { result ≡ list_any (is_entry_of m step) (kept_in batches.now) }
{
    is_any_kept(batches, m, step)
}

fn is_any_unkept(batches: &List<Batch>, m: MemberId, step: u32) -> bool
    ensures { result ≡ list_any (λ b. not_kept b.fate && list_any (is_entry_of m step) b.entries) batches.now }
{
    batches.as_slice().iter().any(|b| has_unkept_of(b, m, step))
}

/// Whether a batch that isn't kept has an entry of that step of the member.
pub fn has_unkept(batches: &List<Batch>, m: MemberId, step: u32) -> bool
    ensures { result ≡ any_unkept batches.now m step }
{
    is_any_unkept(batches, m, step)
}

/// The batch in flight is kept, once each good copy has it.
pub fn keep_once(read: bool, batches: &mut List<Batch>)
    ensures { batches.new ≡ kept_once read batches.old }
{
    if read {
        settle(batches.as_mut_slice(), Fate::Kept);
    }
}

/// A copy of the entries, and one more. NoMemory comes only when out of memory.
pub fn with_entry(
    alloc: Global,
    entries: &List<Entry>,
    entry: Entry,
) -> Result<List<Entry>, NoMemory>
    ensures { IfOk result (λ all. all ≡ entries.now ++ entry ∷ []) }
{
    let mut all = entries.copy(alloc)?;
    all.push(entry)?;
    Ok(all)
}

/// A copy of the kept entries. NoMemory comes only when out of memory.
pub fn kept_entries(alloc: Global, batches: &List<Batch>) -> Result<List<Entry>, NoMemory>
    ensures { IfOk result (λ all. all ≡ kept_in batches.now) }
{
    let mut all = List::new(alloc);
    for batch in batches.as_slice() {
        add_kept(alloc, &mut all, batch)?;
    }
    Ok(all)
}

fn add_kept(alloc: Global, all: &mut List<Entry>, batch: &Batch) -> Result<(), NoMemory>
    ensures { OnOk result (all.new ≡ all.old ++ entries_kept batch.now.fate batch.now.entries) }
{
    match batch.fate {
        Fate::Kept => add_all(alloc, all, &batch.entries),
        Fate::Dropped | Fate::Flying => Ok(()),
    }
}

fn add_all(alloc: Global, all: &mut List<Entry>, entries: &List<Entry>) -> Result<(), NoMemory>
    ensures { OnOk result (all.new ≡ all.old ++ entries.now) }
{
    for entry in entries.as_slice() {
        all.push(entry.copy(alloc)?)?;
    }
    Ok(())
}

/// A copy of the kept entries, and those in flight behind them. NoMemory comes only when out of memory.
pub fn both_entries(alloc: Global, batches: &List<Batch>) -> Result<List<Entry>, NoMemory>
    ensures { IfOk result (λ all. all ≡ kept_in batches.now ++ flying_in batches.now) }
{
    let mut all = kept_entries(alloc, batches)?;
    add_each_flying(alloc, &mut all, batches)?;
    Ok(all)
}

fn add_each_flying(
    alloc: Global,
    all: &mut List<Entry>,
    batches: &List<Batch>,
) -> Result<(), NoMemory>
    ensures { OnOk result (all.new ≡ all.old ++ flying_in batches.now) }
{
    for batch in batches.as_slice() {
        add_flying(alloc, all, batch)?;
    }
    Ok(())
}

fn add_flying(alloc: Global, all: &mut List<Entry>, batch: &Batch) -> Result<(), NoMemory>
    ensures { OnOk result (all.new ≡ all.old ++ entries_flying batch.now.fate batch.now.entries) }
{
    match batch.fate {
        Fate::Flying => add_all(alloc, all, &batch.entries),
        Fate::Dropped | Fate::Kept => Ok(()),
    }
}
