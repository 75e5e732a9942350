//! What the nodes of a net hold, what their lines have come to, and what may happen.
ghost use Rattle.std.specs.Prelude.{◌≡◌, [], IfOk, replicate};
ghost use Rattle.nje_net.specs.Worlds.{idle_lines as idle_lines_lem, line_in as line_in_lem, no_line as no_line_lem, put_line as put_line_lem, start};
ghost use Rattle.nje_net.specs.Numbered.{change_item};

use crate::nets::{LINES, Net};
use crate::places::{item_or, items_of};
use mas_types::{List, Name8, NoMemory};
use std::alloc::Global;

/// What may happen next. Whatever an event names that isn't there, it changes nothing.
#[derive(Clone, Copy)]
pub enum NetEvent {
    /// A job for the node of the name is entered at a node that has the name or a route for it.
    Enter(u8, Name8),
    /// The first job that waits at a node for one of its lines becomes current there, where no job is.
    Load(u8, u8),
    /// The current job of a node's line is given to the line.
    Give(u8, u8),
    /// The frame of that number, of all that were ever given, comes to the other end of its line.
    Frame(u32),
    /// The acknowledgement of that number, of all that were ever given, comes to the other end of its line.
    Ack(u32),
}

/// A job that a node holds.
#[derive(Clone, Copy)]
pub struct Held {
    /// The number that it was given when it was entered; the first has 1.
    pub id: u32,
    /// The name of the node that it is for.
    pub dest: Name8,
    /// The line on which it is current, 0 where it waits.
    pub line: u8,
}

/// A job as it was given to a line.
#[derive(Clone, Copy)]
pub struct NetFrame {
    /// The node that gave it.
    pub node: u8,
    /// The line to which that node gave it.
    pub line: u8,
    /// Its number on the line.
    pub number: u32,
    /// The job.
    pub id: u32,
    /// The name of the node that the job is for.
    pub dest: Name8,
}

/// An acknowledgement as it was given to a line.
#[derive(Clone, Copy)]
pub struct NetAck {
    /// The node that gave it.
    pub node: u8,
    /// The line to which that node gave it.
    pub line: u8,
    /// The number of the frame that was got.
    pub number: u32,
}

/// A job that has arrived.
#[derive(Clone, Copy)]
pub struct Arrived {
    /// The job.
    pub id: u32,
    /// The node.
    pub node: u8,
}

/// What a line of a node has come to.
#[derive(Clone, Copy)]
pub struct NetLine {
    /// The number of the last job that was sent and acknowledged.
    pub sent: u32,
    /// The number of the last job that was got.
    pub got: u32,
    /// The job that is being sent, 0 for none.
    pub current: u32,
}

/// What has come of a net.
#[derive(Drop)]
pub struct NetWorld {
    /// How many jobs were entered.
    pub entered: u32,
    /// The jobs that each node holds, in the order in which they came.
    pub held: List<List<Held>>,
    /// The eight lines of each node.
    pub lines: List<List<NetLine>>,
    /// All frames that were ever given.
    pub frames: List<NetFrame>,
    /// All acknowledgements that were ever given.
    pub acks: List<NetAck>,
    /// The jobs that have arrived.
    pub arrived: List<Arrived>,
}

impl NetWorld {
    /// A net in which nothing has happened yet. NoMemory comes only when out of memory.
    pub fn new(alloc: Global, net: &Net) -> Result<NetWorld, NoMemory>
        ensures { IfOk result (λ world. world ≡ start net.now) }
    {
        Ok(NetWorld {
            entered: 0,
            held: no_jobs(alloc, net.nodes.len())?,
            lines: no_lines(alloc, net.nodes.len())?,
            frames: List::new(alloc),
            acks: List::new(alloc),
            arrived: List::new(alloc),
        })
    }
}

fn no_jobs(alloc: Global, nodes: usize) -> Result<List<List<Held>>, NoMemory>
    ensures { IfOk result (λ held. held ≡ replicate nodes []) }
{
    let mut held = List::new(alloc);
    for _node in 0..nodes {
        held.push(List::new(alloc))?;
    }
    Ok(held)
}

fn no_lines(alloc: Global, nodes: usize) -> Result<List<List<NetLine>>, NoMemory>
    ensures { IfOk result (λ lines. lines ≡ replicate nodes idle_lines_lem) }
{
    let mut lines = List::new(alloc);
    for _node in 0..nodes {
        lines.push(idle_lines(alloc)?)?;
    }
    Ok(lines)
}

fn no_line() -> NetLine
    ensures { result ≡ no_line_lem }
{
    NetLine {
        sent: 0,
        got: 0,
        current: 0,
    }
}

fn idle_lines(alloc: Global) -> Result<List<NetLine>, NoMemory>
    ensures { IfOk result (λ lines. lines ≡ idle_lines_lem) }
{
    let mut lines = List::new(alloc);
    for _line in 0..LINES {
        lines.push(no_line())?;
    }
    Ok(lines)
}

/// What the line of a node has come to. One that isn't there has come to nothing.
pub fn line_in(lines: &List<List<NetLine>>, node: u8, line: u8) -> NetLine
    ensures { result ≡ line_in_lem lines.now node line }
{
    item_or(items_of(lines, node), line, no_line())
}

fn put(lines: &mut List<NetLine>, line: u8, value: NetLine)
    ensures { lines.new ≡ change_item line (λ was. value) lines.old }
{
    if line == 0 {
        return;
    }
    if line as usize > lines.len() {
        return;
    }
    *lines.item_mut(line as usize - 1) = value;
}

/// The line of a node has come to this, if it is there.
pub fn put_line(lines: &mut List<List<NetLine>>, node: u8, line: u8, value: NetLine)
    ensures { lines.new ≡ put_line_lem node line value lines.old }
{
    if node == 0 {
        return;
    }
    if node as usize > lines.len() {
        return;
    }
    put(lines.item_mut(node as usize - 1), line, value);
}
