//! Chains of slots: which slots stand in each.
ghost use Rattle.std.specs.Prelude.{◌≡◌, ℕ, ◌==◌, ◌&&◌, not, true, false, [], Some, OnOk, OnErr};
ghost use Rattle.job_select.specs.Chains.{slots_of, has_slot, is_chain, HaveSame, Joins, Leaves, LeavesFor, StandsIn};

use indexmap::IndexMap;
use mas_types::NoMemory;
use std::alloc::Global;

/// The slots in each chain, by the chain's number. A chain in which none stands isn't there.
pub type Chains = IndexMap<u32, Vec<u16>>;

// Where there are no more chains than these, to look at one after another is faster than to look one up.
const FEW: usize = 8;

/// The slots in a chain, where chains are looked at one after another.
fn slots_among(chains: &Chains, chain: u32) -> &[u16]
    ensures { result.now ≡ slots_of chains.now chain }
{
    for (number, slots) in chains.iter() {
        if *number == chain {
            return slots;
        }
    }
    &[]
}

/// The slots in a chain.
pub fn slots_in(chains: &Chains, chain: u32) -> &[u16]
    ensures { result.now ≡ slots_of chains.now chain }
{
    if chains.len() <= FEW {
        return slots_among(chains, chain);
    }
    match chains.get(&chain) {
        Some(slots) => slots,
        None => &[],
    }
}

/// Adds a slot to a chain. After `NoMemory` all chains are as they were.
fn add(alloc: Global, chains: &mut Chains, chain: u32, slot: u16) -> Result<(), NoMemory>
    ensures ok { OnOk result (Joins chains.old chains.new slot (Some chain)) }
    ensures err { OnErr result (HaveSame chains.old chains.new) }
{
    if let Some(slots) = chains.get_mut(&chain) {
        return match slots.push(slot) {
            Ok(()) => Ok(()),
            Err(_) => Err(NoMemory),
        };
    }
    let mut slots = Vec::new(alloc);
    if slots.push(slot).is_err() {
        return Err(NoMemory);
    }
    match chains.insert(chain, slots) {
        Ok(_) => Ok(()),
        Err(_) => Err(NoMemory),
    }
}

/// Takes a slot out of a chain. A chain in which none is left goes.
fn drop_from(chains: &mut Chains, chain: u32, slot: u16)
    ensures { Leaves chains.old chains.new slot (Some chain) }
{
    take_from(chains, chain, slot);
    remove_if_empty(chains, chain);
}

fn take_from(chains: &mut Chains, chain: u32, slot: u16)
    ensures { Leaves chains.old chains.new slot (Some chain) }
{
    if let Some(slots) = chains.get_mut(&chain) {
        without(slots, slot);
    }
}

fn remove_if_empty(chains: &mut Chains, chain: u32)
    ensures { HaveSame chains.old chains.new }
{
    if slots_in(chains, chain).is_empty() {
        remove_empty(chains, chain);
    }
}

fn remove_empty(chains: &mut Chains, chain: u32)
    requires { slots_of chains.old chain ≡ [] }
    ensures { HaveSame chains.old chains.new }
{
    let _removed = chains.swap_remove(&chain);
}

fn without(slots: &mut Vec<u16>, slot: u16)
    ensures { (i : ℕ) → has_slot i slots.new.items
        ≡ (has_slot i slots.old.items && not (i == slot)) }
{
    slots.retain(
        |other: &u16| -> bool
            ensures { result ≡ not (other.now == slot) }
        { *other != slot },
    );
}

fn is_same(one: Option<u32>, other: Option<u32>) -> bool
    ensures same { result ≡ true → one ≡ other }
    ensures apart { result ≡ false → (k : ℕ) → is_chain k one ≡ true → is_chain k other ≡ false }
{
    match (one, other) {
        (Some(one), Some(other)) => one == other,
        (None, None) => true,
        _ => false,
    }
}

/// A slot that stands in one chain, if there is one, joins another. After `NoMemory` all chains are
/// as they were.
pub fn join(
    alloc: Global,
    chains: &mut Chains,
    slot: u16,
    from: Option<u32>,
    to: Option<u32>,
) -> Result<(), NoMemory>
    requires { StandsIn chains.old slot from }
    ensures ok { OnOk result (Joins chains.old chains.new slot to) }
    ensures err { OnErr result (HaveSame chains.old chains.new) }
{
    if is_same(from, to) {
        return Ok(());
    }
    match to {
        Some(chain) => add(alloc, chains, chain, slot),
        None => Ok(()),
    }
}

/// A slot leaves a chain, if there is one, for another.
pub fn leave(chains: &mut Chains, slot: u16, from: Option<u32>, to: Option<u32>)
    ensures { LeavesFor chains.old chains.new slot from to }
{
    if is_same(from, to) {
        return;
    }
    leave_one(chains, slot, from);
}

fn leave_one(chains: &mut Chains, slot: u16, from: Option<u32>)
    ensures { Leaves chains.old chains.new slot from }
{
    if let Some(chain) = from {
        drop_from(chains, chain, slot);
    }
}
