//! Plays random events on a net of 64 nodes. Two nodes whose numbers, counted from 0, differ in one bit are joined by
//! the line of that bit, and a node sends on by the line of the least bit in which it differs from the node that a job
//! is for.
ghost use Rattle.std.specs.Prelude.{◌<◌, ◌≤◌};

use mas_types::{List, Name8, NoMemory, Route};
use nje_net::{End, Net, NetEvent, NetNode, net_ok, no_net_loses, path};
use rand_core::utils::NextWord;
use rand_pcg::Pcg32;
use std::alloc::Global;

const BITS: u8 = 6;

const LINES: u8 = 8;

const NODES: u8 = 64;

// The name of a node counted from 0.
fn node_name(at: u8) -> Name8 {
    Name8([
        b'N',
        b'0' + at / 10,
        b'0' + at % 10,
        b' ',
        b' ',
        b' ',
        b' ',
        b' ',
    ])
}

fn end_of(at: u8, bit: u8) -> End
    requires { bit < 8 }
{
    if bit >= BITS {
        return End { node: 0, line: 0 };
    }
    End {
        node: (at ^ (1 << bit)).saturating_add(1),
        line: bit + 1,
    }
}

fn line_to(at: u8, to: u8) -> u8 {
    for bit in 0..BITS {
        if ((at ^ to) >> bit) & 1 == 1 {
            return bit + 1;
        }
    }
    LINES
}

fn node_of(alloc: Global, at: u8) -> Result<NetNode, NoMemory> {
    let mut routes = List::new(alloc);
    for to in 0..NODES {
        if to != at {
            routes.push(Route {
                name: node_name(to),
                line: line_to(at, to),
            })?;
        }
    }
    let mut ends = List::new(alloc);
    for bit in 0..LINES {
        ends.push(end_of(at, bit))?;
    }
    Ok(NetNode {
        name: node_name(at),
        routes,
        ends,
    })
}

fn net_of_64(alloc: Global) -> Result<Net, NoMemory> {
    let mut nodes = List::new(alloc);
    for at in 0..NODES {
        nodes.push(node_of(alloc, at)?)?;
    }
    Ok(Net { nodes })
}

// A number from 1 to the most that is given, or 1.
fn number_in(words: &mut Pcg32, most: u32) -> u32 {
    let word = words.next_word();
    if most == 0 { 1 } else { word % most + 1 }
}

fn small_number_in(words: &mut Pcg32, most: u8) -> u8
    ensures { 1 ≤ result }
{
    let word = words.next_word() % 256;
    if most == 0 { 1 } else { word as u8 % most + 1 }
}

// A random event, where so many were given.
fn event_in(words: &mut Pcg32, given: u32) -> NetEvent {
    let kind = words.next_word() % 8;
    match kind {
        0 => NetEvent::Enter(
            small_number_in(words, NODES),
            node_name(small_number_in(words, NODES) - 1),
        ),
        1 | 2 => NetEvent::Load(small_number_in(words, NODES), small_number_in(words, BITS)),
        3 | 4 => NetEvent::Give(small_number_in(words, NODES), small_number_in(words, BITS)),
        5 | 6 => NetEvent::Frame(number_in(words, given)),
        _ => NetEvent::Ack(number_in(words, given)),
    }
}

// As many random events as `count` says.
fn random_events(alloc: Global, count: u32) -> Result<List<NetEvent>, NoMemory> {
    let mut words = Pcg32::new(42, 54);
    let mut events = List::new(alloc);
    let mut given = 0;
    for _event in 0..count {
        let event = event_in(&mut words, given);
        if let NetEvent::Give(_, _) = event {
            given += 1;
        }
        events.push(event)?;
    }
    Ok(events)
}

// What came of the events: how many jobs were entered, and how many of them have arrived.
#[derive(Drop)]
struct Came {
    entered: u32,
    arrived: usize,
}

// What came of so many random events; none where the net is none, or there are too many events.
fn play(alloc: Global, net: &Net, count: u32) -> Result<Option<Came>, NoMemory> {
    let events = random_events(alloc, count)?;
    if events.len() >= u32::MAX as usize || !net_ok(net) {
        return Ok(None);
    }
    let world = no_net_loses(alloc, net, &events)?;
    Ok(Some(Came {
        entered: world.entered,
        arrived: world.arrived.len(),
    }))
}

// How many nodes the path from the first node to the last passes, 0 where there is none.
fn passed(alloc: Global, net: &Net) -> usize {
    if !net_ok(net) || net.nodes.len() < 64 {
        return 0;
    }
    match path(alloc, net, 1, node_name(63)) {
        Ok(nodes) => nodes.len(),
        Err(_) => 0,
    }
}

// What came of so many events, and how long the path is; none when out of memory or without a net.
fn played(alloc: Global, count: u32) -> Option<(Came, usize)> {
    let net = net_of_64(alloc).ok()?;
    let length = passed(alloc, &net);
    let came = play(alloc, &net, count).ok()??;
    Some((came, length))
}

/// Plays as many events as the first number says, and says what came of them.
pub fn run(rt: &HostRuntime, numbers: [u32; 3]) -> bool {
    let Some((came, length)) = played(rt.alloc(), numbers[0]) else {
        return false;
    };
    let entered = came.entered;
    let arrived = came.arrived;
    println!(rt; "entered {entered} arrived {arrived} passed {length}").is_ok()
}
