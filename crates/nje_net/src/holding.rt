//! The jobs that the nodes hold.
ghost use Rattle.std.specs.Prelude.{◌≡◌, OnOk, OnErr, IfSome, IfNone, find, position, option_copied};
ghost use Rattle.mas_types.specs.Lists.{change_first, without_first};
ghost use Rattle.nje_net.specs.Firsts.{StandsAt};
ghost use Rattle.nje_net.specs.Numbered.{change_item};
ghost use Rattle.nje_net.specs.Worlds.{held_in};
ghost use Rattle.nje_net.specs.Events.{first_id, is_on as is_on_lem, on_line, waits_for as waits_for_lem, with_job};

use crate::nets::goes_by;
use crate::places::items_of;
use crate::worlds::Held;
use mas_types::{List, NoMemory, Route};

fn waits_for(routes: &List<Route>, line: u8, job: &Held) -> bool
    ensures { result ≡ waits_for_lem routes.now line job.now }
{
    job.line == 0 && goes_by(routes, line, job.dest)
}

fn is_on(line: u8, job: &Held) -> bool
    ensures { result ≡ is_on_lem line job.now }
{
    job.line == line
}

fn position_waiting(jobs: &List<Held>, routes: &List<Route>, line: u8) -> Option<usize>
    ensures { result ≡ position (waits_for_lem routes.now line) jobs.now }
{
    jobs.as_slice()
        .iter()
        .position(|job| waits_for(routes, line, job))
}

// The place of the first job that waits for the line.
fn place_waiting(jobs: &List<Held>, routes: &List<Route>, line: u8) -> Option<usize>
    ensures some { IfSome result (StandsAt (waits_for_lem routes.now line) jobs.now) }
    ensures none { IfNone result (find (waits_for_lem routes.now line) jobs.now ≡ None) }
{
    position_waiting(jobs, routes, line)
}

fn position_on(jobs: &List<Held>, line: u8) -> Option<usize>
    ensures { result ≡ position (is_on_lem line) jobs.now }
{
    jobs.as_slice().iter().position(|job| is_on(line, job))
}

// The place of the first job on the line.
fn place_on(jobs: &List<Held>, line: u8) -> Option<usize>
    ensures some { IfSome result (StandsAt (is_on_lem line) jobs.now) }
    ensures none { IfNone result (find (is_on_lem line) jobs.now ≡ None) }
{
    position_on(jobs, line)
}

// The first job that waits for the line goes on it: its number, 0 where none waits.
fn put_first(jobs: &mut List<Held>, routes: &List<Route>, line: u8) -> u32
    ensures jobs { jobs.new ≡ change_first (waits_for_lem routes.now line) (on_line line) jobs.old }
    ensures id { result ≡ first_id (waits_for_lem routes.now line) jobs.old }
{
    let Some(at) = place_waiting(jobs, routes, line) else {
        return 0;
    };
    let job = jobs.item_mut(at);
    job.line = line;
    job.id
}

/// The first job of the node that waits for the line goes on it: its number, 0 where none waits.
pub fn put_on_line(held: &mut List<List<Held>>, node: u8, routes: &List<Route>, line: u8) -> u32
    ensures held { let waits = waits_for_lem routes.now line in
        held.new ≡ change_item node (change_first waits (on_line line)) held.old }
    ensures id { result ≡ first_id (waits_for_lem routes.now line) (held_in held.old node) }
{
    if node == 0 {
        return 0;
    }
    if node as usize > held.len() {
        return 0;
    }
    put_first(held.item_mut(node as usize - 1), routes, line)
}

fn take_first(jobs: &mut List<Held>, line: u8)
    ensures { jobs.new ≡ without_first (is_on_lem line) jobs.old }
{
    let Some(at) = place_on(jobs, line) else {
        return;
    };
    drop(jobs.remove(at));
}

/// The node holds the job that was on the line no longer.
pub fn take_off_line(held: &mut List<List<Held>>, node: u8, line: u8)
    ensures { held.new ≡ change_item node (without_first (is_on_lem line)) held.old }
{
    if node == 0 {
        return;
    }
    if node as usize > held.len() {
        return;
    }
    take_first(held.item_mut(node as usize - 1), line);
}

/// The job that the node holds on the line.
pub fn job_on(held: &List<List<Held>>, node: u8, line: u8) -> Option<&Held>
    ensures { option_copied result ≡ find (is_on_lem line) (held_in held.now node) }
{
    items_of(held, node).iter().find(|job| is_on(line, job))
}

/// The node, if it is there, holds one more job. Without memory nothing changes.
pub fn hold(held: &mut List<List<Held>>, node: u8, job: Held) -> Result<(), NoMemory>
    ensures ok { OnOk result (held.new ≡ change_item node (with_job job) held.old) }
    ensures err { OnErr result (held.new ≡ held.old) }
{
    if node == 0 {
        return Ok(());
    }
    if node as usize > held.len() {
        return Ok(());
    }
    held.item_mut(node as usize - 1).push(job)
}
