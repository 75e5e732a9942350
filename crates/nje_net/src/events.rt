//! What each event does. An event that isn't possible changes nothing, and without memory nothing changes either.
ghost use Rattle.std.specs.Prelude.{◌≡◌, ◌<◌, ◌+◌, ℕ, true, OnOk, OnErr};
ghost use Rattle.nje_net.specs.Worlds.{line_at};
ghost use Rattle.nje_net.specs.Nets.{is_node as is_node_lem};
ghost use Rattle.nje_net.specs.Lossless.{IsBelow};
ghost use Rattle.nje_net.specs.Events.{ack_comes as ack_comes_lem, ack_comes_to as ack_comes_to_lem, acknowledges, enter as enter_lem, frame_comes as frame_comes_lem, give as give_lem, job_at as job_at_lem, load as load_lem, may_take as may_take_lem, moved, receive as receive_lem, take_over as take_over_lem};
ghost use Rattle.nje_net.specs.Numbered.{numbered as numbered_lem};

use crate::holding::{hold, job_on, put_on_line, take_off_line};
use crate::nets::{End, Net, end_at, is_line, is_node, is_none, node, takes};
use crate::paths::is_named;
use crate::places::numbered;
use crate::worlds::{
    Arrived, Held, NetAck, NetEvent, NetFrame, NetLine, NetWorld, line_in, put_line,
};
use mas_types::{Name8, NoMemory};

fn may_take(net: &Net, at: u8, dest: Name8) -> bool
    ensures { result ≡ may_take_lem net.now at dest }
{
    is_node(net, at) && takes(node(net, at), dest)
}

/// A job is at a node: there it arrives, or it waits.
fn job_at(net: &Net, world: &mut NetWorld, at: u8, id: u32, dest: Name8) -> Result<(), NoMemory>
    requires { is_node_lem net.now at ≡ true }
    ensures ok { OnOk result (world.new ≡ job_at_lem net.now at id dest world.old) }
    ensures err { OnErr result (world.new ≡ world.old) }
{
    if is_named(net, at, dest) {
        return world.arrived.push(Arrived { id, node: at });
    }
    hold(&mut world.held, at, Held { id, dest, line: 0 })
}

/// A job is entered at a node that has the name or a route for it.
fn enter(net: &Net, world: &mut NetWorld, at: u8, dest: Name8) -> Result<(), NoMemory>
    requires { world.old.entered < 4294967295 }
    ensures ok { OnOk result (world.new ≡ enter_lem net.now world.old at dest) }
    ensures err { OnErr result (world.new ≡ world.old) }
{
    if may_take(net, at, dest) {
        job_at(net, world, at, world.entered + 1, dest)?;
        world.entered += 1;
    }
    Ok(())
}

/// The first job that waits for the line becomes current there, where none is.
fn load(net: &Net, world: &mut NetWorld, at: u8, line: u8)
    ensures { world.new ≡ load_lem net.now world.old at line }
{
    let was = line_in(&world.lines, at, line);
    if is_node(net, at) && is_line(line) && was.current == 0 {
        let current = put_on_line(&mut world.held, at, &node(net, at).routes, line);
        put_line(&mut world.lines, at, line, NetLine { current, ..was });
    }
}

/// The current job of the line is given to it.
fn give(world: &mut NetWorld, at: u8, line: u8) -> Result<(), NoMemory>
    requires { (line_at world.old at line).sent < 4294967295 }
    ensures ok { OnOk result (world.new ≡ give_lem world.old at line) }
    ensures err { OnErr result (world.new ≡ world.old) }
{
    let was = line_in(&world.lines, at, line);
    if was.current == 0 {
        return Ok(());
    }
    let Some(job) = job_on(&world.held, at, line) else {
        return Ok(());
    };
    let frame = NetFrame {
        node: at,
        line,
        number: was.sent + 1,
        id: job.id,
        dest: job.dest,
    };
    world.frames.push(frame)
}

fn acknowledge(world: &mut NetWorld, end: End, number: u32) -> Result<(), NoMemory>
    ensures ok { OnOk result (world.new ≡ acknowledges end number world.old) }
    ensures err { OnErr result (world.new ≡ world.old) }
{
    world.acks.push(NetAck {
        node: end.node,
        line: end.line,
        number,
    })
}

/// The next job of a line is taken over and acknowledged, unless the node neither has its name nor a route for it.
fn take_over(net: &Net, world: &mut NetWorld, frame: NetFrame, end: End) -> Result<(), NoMemory>
    requires { (line_at world.old end.node end.line).got < 4294967295 }
    ensures ok { OnOk result (world.new ≡ take_over_lem net.now world.old frame end) }
    ensures err { OnErr result (world.new ≡ world.old) }
{
    if !may_take(net, end.node, frame.dest) {
        return Ok(());
    }
    let was = line_in(&world.lines, end.node, end.line);
    acknowledge(world, end, frame.number)?;
    if let Err(why) = job_at(net, world, end.node, frame.id, frame.dest) {
        let _ack = world.acks.remove(world.acks.len() - 1);
        return Err(why);
    }
    let got = was.got + 1;
    put_line(&mut world.lines, end.node, end.line, NetLine { got, ..was });
    Ok(())
}

fn receive(net: &Net, world: &mut NetWorld, frame: NetFrame, end: End) -> Result<(), NoMemory>
    requires { (line_at world.old end.node end.line).got < 4294967295 }
    ensures ok { OnOk result (world.new ≡ receive_lem net.now world.old frame end) }
    ensures err { OnErr result (world.new ≡ world.old) }
{
    let was = line_in(&world.lines, end.node, end.line);
    if frame.number <= was.got {
        return acknowledge(world, end, frame.number);
    }
    if frame.number == was.got + 1 {
        return take_over(net, world, frame, end);
    }
    Ok(())
}

fn frame_comes(net: &Net, world: &mut NetWorld, number: u32) -> Result<(), NoMemory>
    requires { IsBelow 4294967295 world.old }
    ensures ok { let frame = numbered_lem number world.old.frames in
        OnOk result (world.new ≡ frame_comes_lem net.now world.old frame) }
    ensures err { OnErr result (world.new ≡ world.old) }
{
    let Some(frame) = numbered(&world.frames, number) else {
        return Ok(());
    };
    let end = end_at(net, frame.node, frame.line);
    if is_none(end) {
        return Ok(());
    }
    receive(net, world, frame, end)
}

fn ack_comes_to(world: &mut NetWorld, number: u32, end: End)
    requires { (line_at world.old end.node end.line).sent < 4294967295 }
    ensures { world.new ≡ ack_comes_to_lem world.old number end }
{
    let was = line_in(&world.lines, end.node, end.line);
    if number == was.sent + 1 && was.current != 0 {
        take_off_line(&mut world.held, end.node, end.line);
        let sent = was.sent + 1;
        let value = NetLine {
            sent,
            current: 0,
            ..was
        };
        put_line(&mut world.lines, end.node, end.line, value);
    }
}

fn ack_comes(net: &Net, world: &mut NetWorld, number: u32)
    requires { IsBelow 4294967295 world.old }
    ensures { world.new ≡ ack_comes_lem net.now world.old (numbered_lem number world.old.acks) }
{
    let Some(ack) = numbered(&world.acks, number) else {
        return;
    };
    ack_comes_to(world, ack.number, end_at(net, ack.node, ack.line))
}

/// One event. The numbers of jobs, frames and acknowledgements are below the greatest u32, and none grows by more than
/// one. After NoMemory nothing is changed.
pub fn net_step(net: &Net, world: &mut NetWorld, event: &NetEvent) -> Result<(), NoMemory>
    requires { IsBelow 4294967295 world.old }
    ensures ok { OnOk result (world.new ≡ moved net.now world.old event.now) }
    ensures err { OnErr result (world.new ≡ world.old) }
    ensures below { (bound : ℕ) → IsBelow bound world.old → IsBelow (bound + 1) world.new }
{
    happen(net, world, event)
}

fn happen(net: &Net, world: &mut NetWorld, event: &NetEvent) -> Result<(), NoMemory>
    requires { IsBelow 4294967295 world.old }
    ensures ok { OnOk result (world.new ≡ moved net.now world.old event.now) }
    ensures err { OnErr result (world.new ≡ world.old) }
{
    match event {
        NetEvent::Enter(at, dest) => enter(net, world, *at, *dest),
        NetEvent::Load(at, line) => {
            load(net, world, *at, *line);
            Ok(())
        }
        NetEvent::Give(at, line) => give(world, *at, *line),
        NetEvent::Frame(number) => frame_comes(net, world, *number),
        NetEvent::Ack(number) => {
            ack_comes(net, world, *number);
            Ok(())
        }
    }
}
