//! A wire with two ends.
ghost use Rattle.std.specs.Prelude.{◌≡◌, suc, ◌-◌, ◌^◌, ◌<◌, ◌⊎◌, length, IfOk, OnOk, IfSome, IfNone, slice_get};

use crate::custody::{Custody, judge};
use mas_types::{Copied, JobNo, LineCount, Lines, List, NoMemory};
use std::alloc::Global;

/// A job on the wire.
#[derive(Drop)]
pub struct WireFrame {
    /// Its number, from 1.
    pub number: u32,
    /// Its cards.
    pub text: Lines,
}

/// What may happen on a wire. A loss is something that never comes.
#[derive(Drop)]
pub enum WireEvent {
    /// The sender takes up a job with these cards, where it has none on its way.
    Load(Lines),
    /// The sender gives a frame of the job on its way, if there is one.
    Give,
    /// The frame with that place among all that were ever given, from 1, comes to the receiver.
    Frame(u32),
    /// The acknowledgement with that place among all that were ever given, from 1, comes to the sender.
    Ack(u32),
}

/// Both ends of a wire, and all that was ever given to it.
#[derive(Drop)]
pub struct WireWorld {
    /// The texts of the jobs that the sender took up, in order.
    pub loaded: List<Lines>,
    /// Whether the last of them is on its way.
    pub busy: bool,
    /// The number of the last job that left the sender.
    pub sent: u32,
    /// The frames that the sender gave.
    pub frames: List<WireFrame>,
    /// The texts of the jobs that the receiver kept, in order.
    pub kept: List<Lines>,
    /// The numbers that the receiver acknowledged.
    pub acks: List<u32>,
}

ghost use Rattle.nje_store.specs.Wire.{quiet, loads, gives, gets, leaves, happens, run, item_at, KeepsAt, HasCustody};

fn quiet_world(alloc: Global) -> WireWorld
    ensures { result ≡ quiet }
{
    WireWorld {
        loaded: List::new(alloc),
        busy: false,
        sent: 0,
        frames: List::new(alloc),
        kept: List::new(alloc),
        acks: List::new(alloc),
    }
}

fn load(alloc: Global, world: &mut WireWorld, text: &Lines) -> Result<(), NoMemory>
    ensures { OnOk result (world.new ≡ loads world.old text.now) }
{
    if world.busy {
        return Ok(());
    }
    world.loaded.push(text.copy(alloc)?)?;
    world.busy = true;
    Ok(())
}

fn give(alloc: Global, world: &mut WireWorld) -> Result<(), NoMemory>
    requires { world.old.sent < 2 ^ 32 - 1 }
    ensures { OnOk result (world.new ≡ gives world.old) }
{
    if !world.busy || world.loaded.len() == 0 {
        return Ok(());
    }
    let last = world.loaded.len() - 1;
    let text = world.loaded.item(last).copy(alloc)?;
    let number = world.sent + 1;
    world.frames.push(WireFrame { number, text })
}

// The place of the item that is counted from 1, if it is there.
fn place_of(count: usize, at: u32) -> Option<usize>
    ensures found { IfSome result (λ place. (at ≡ suc place) × (place < count)) }
    ensures none { IfNone result ((at ≡ 0) ⊎ (count < at)) }
{
    if at == 0 || at as usize > count {
        return None;
    }
    Some(at as usize - 1)
}

fn get(alloc: Global, world: &mut WireWorld, at: u32) -> Result<(), NoMemory>
    requires { length world.old.kept < 2 ^ 32 }
    ensures { OnOk result (world.new ≡ gets world.old (item_at world.old.frames at)) }
{
    let Some(place) = place_of(world.frames.len(), at) else {
        return Ok(());
    };
    let count = LineCount {
        sent: 0,
        got: world.kept.len() as u32,
        current: JobNo(0),
    };
    let number = world.frames.item(place).number;
    match judge(&count, number) {
        Custody::Next => keep(alloc, world, place),
        Custody::Again(number) => world.acks.push(number),
        Custody::Gap { .. } => Ok(()),
    }
}

// The receiver keeps the job of a frame, and acknowledges it.
fn keep(alloc: Global, world: &mut WireWorld, place: usize) -> Result<(), NoMemory>
    requires { place < length world.old.frames }
    ensures { OnOk result (KeepsAt world.old world.new (slice_get world.old.frames place)) }
{
    let text = world.frames.item(place).text.copy(alloc)?;
    let number = world.frames.item(place).number;
    world.kept.push(text)?;
    world.acks.push(number)
}

fn leave(world: &mut WireWorld, at: u32)
    requires { world.old.sent < 2 ^ 32 - 1 }
    ensures { world.new ≡ leaves world.old (item_at world.old.acks at) }
{
    let Some(place) = place_of(world.acks.len(), at) else {
        return;
    };
    let number = *world.acks.item(place);
    if world.busy && number == world.sent + 1 {
        world.sent = number;
        world.busy = false;
    }
}

fn happen(alloc: Global, world: &mut WireWorld, event: &WireEvent) -> Result<(), NoMemory>
    requires sent { world.old.sent < 2 ^ 32 - 1 }
    requires kept { length world.old.kept < 2 ^ 32 }
    ensures { OnOk result (world.new ≡ happens world.old event.now) }
{
    match event {
        WireEvent::Load(text) => load(alloc, world, text),
        WireEvent::Give => give(alloc, world),
        WireEvent::Frame(at) => get(alloc, world, *at),
        WireEvent::Ack(at) => {
            leave(world, *at);
            Ok(())
        }
    }
}

/// Plays events on a wire on which nothing happened yet, fewer than 4,294,967,295 of them; those that aren't possible
/// are passed over. Whatever they are, the receiver has kept jobs that were loaded, in their order and each once; what
/// left the sender is kept; and what was loaded is kept, all of it, or all but the last, which is on its way. NoMemory
/// comes only when out of memory.
pub fn no_wire_doubles(alloc: Global, events: &List<WireEvent>) -> Result<WireWorld, NoMemory>
    requires { length events.now < 4294967295 }
    ensures run { IfOk result (λ world. world ≡ run quiet events.now) }
    ensures custody { IfOk result (λ world. HasCustody world) }
{
    let mut world = quiet_world(alloc);
    for at in 0..events.len() {
        happen(alloc, &mut world, events.item(at))?;
    }
    Ok(world)
}
