//! The lines to other nodes, and the jobs that go over them.
ghost use Rattle.std.specs.Prelude.{◌≡◌, ◌&&◌, ◌-◌, ◌==◌, not, is_some, option_copied, if◌then◌else◌};
ghost use Rattle.std.specs.List.{list_any};
ghost use Rattle.std.specs.Option.{option_map_or};
ghost use Rattle.mas_types.specs.Ids.{no_number, same_name as same_name_lem, same_number as same_number_lem};
ghost use Rattle.mas_types.specs.Lists.{change_at};
ghost use Rattle.mas_types.specs.Queue.{current_on as current_on_lem, has_number, in_xmit, is_current as is_current_lem, wire_at as wire_at_lem};
ghost use Rattle.mas_types.specs.Selection.{for_wire as for_wire_lem, job_prio, leads_to as leads_to_lem, may_send};
ghost use Rattle.mas_types.specs.Commands.Wire.{either, got_on as got_on_lem, sent_on as sent_on_lem};

use crate::conditions::{is_xmit, same_name, same_number};
use crate::picking::{Changes, Picks, Ranks, best_place, first, is_any};
use mas_types::{Job, JobNo, LineCount, List, Name8, Queue, Route};

/// The lines on which a job is current.
#[derive(Clone, Copy)]
struct Carries(JobNo);

impl Picks<LineCount> for Carries {
    ghost picks = { λ s count. same_number_lem count.current s.0 };

    fn picks(&self, item: &LineCount) -> bool {
        same_number(item.current, self.0)
    }
}

/// Whether the job is current on a line.
pub fn is_current(queue: &Queue, job: &Job) -> bool
    ensures { result ≡ is_current_lem queue.now job.now }
{
    is_xmit(job.phase) && is_any(&queue.lines, &Carries(job.number))
}

/// The routes that lead to a node.
#[derive(Clone, Copy)]
struct Names(Name8);

impl Picks<Route> for Names {
    ghost picks = { λ s r. same_name_lem s.0 r.name };

    fn picks(&self, item: &Route) -> bool {
        same_name(&self.0, &item.name)
    }
}

/// Whether a route leads to the node.
pub fn has_route(queue: &Queue, node: &Name8) -> bool
    ensures { result ≡ list_any (λ r. same_name_lem node.now r.name) queue.now.routes }
{
    is_any(&queue.routes, &Names(*node))
}

/// The routes that lead to a node by a line.
#[derive(Clone, Copy)]
struct Leads {
    node: Name8,
    line: u8,
}

impl Picks<Route> for Leads {
    ghost picks = { λ s r. same_name_lem s.node r.name && (r.line == s.line) };

    fn picks(&self, item: &Route) -> bool {
        same_name(&self.node, &item.name) && item.line == self.line
    }
}

fn leads_to(queue: &Queue, line: u8, node: &Name8) -> bool
    ensures { result ≡ leads_to_lem queue.now line node.now }
{
    is_any(&queue.routes, &Leads { node: *node, line })
}

/// The jobs that may be sent over a line.
#[derive(Clone, Copy)]
struct ForWire<'a> {
    queue: &'a Queue,
    line: u8,
}

impl<'a> Picks<Job> for ForWire<'a> {
    ghost picks = { λ s j. may_send s.queue.now s.line j };

    fn picks(&self, item: &Job) -> bool {
        is_xmit(item.phase)
            && !item.fields.held
            && !is_current(self.queue, item)
            && leads_to(self.queue, self.line, &item.fields.node)
    }
}

impl<'a> Ranks<Job> for ForWire<'a> {
    ghost rank = { λ s j. job_prio j };

    fn rank(&self, item: &Job) -> u8 {
        item.fields.prio.0
    }
}

/// The job that a line's count names, where the line is there.
#[derive(Clone, Copy)]
pub struct CurrentOn(pub Option<LineCount>);

impl Picks<Job> for CurrentOn {
    ghost picks = { λ s j. in_xmit j.phase && is_some s.0
        && has_number (option_map_or (λ count. count.current) s.0 no_number) j };

    fn picks(&self, item: &Job) -> bool {
        match self.0 {
            Some(count) => is_xmit(item.phase) && same_number(item.number, count.current),
            None => false,
        }
    }
}

/// What went over a line; none of one that isn't there.
pub fn wire_at(queue: &Queue, line: u8) -> Option<LineCount>
    ensures { result ≡ wire_at_lem queue.now line }
{
    if line == 0 {
        return None;
    }
    queue.lines.as_slice().get(line as usize - 1).copied()
}

/// The number of the last job that was sent over the line and acknowledged.
pub fn sent_on(queue: &Queue, line: u8) -> u32
    ensures { result ≡ sent_on_lem queue.now line }
{
    match wire_at(queue, line) {
        Some(count) => count.sent,
        None => 0,
    }
}

/// The number of the last job that was got over the line.
pub fn got_on(queue: &Queue, line: u8) -> u32
    ensures { result ≡ got_on_lem queue.now line }
{
    match wire_at(queue, line) {
        Some(count) => count.got,
        None => 0,
    }
}

/// The job that is current on a line.
pub fn current_on(queue: &Queue, line: u8) -> Option<&Job>
    ensures { option_copied result ≡ current_on_lem queue.now line }
{
    first(&queue.jobs, &CurrentOn(wire_at(queue, line)))
}

fn for_wire(queue: &Queue, line: u8) -> Option<&Job>
    ensures { option_copied result ≡ for_wire_lem queue.now line }
{
    match best_place(&queue.jobs, &ForWire { queue, line }) {
        Some(at) => Some(queue.jobs.item(at)),
        None => None,
    }
}

/// The job that is current on a line, or else the one that is selected for it.
pub fn current_or_next(queue: &Queue, line: u8) -> Option<&Job>
    ensures { option_copied result ≡ either (current_on_lem queue.now line) (for_wire_lem queue.now line) }
{
    match current_on(queue, line) {
        Some(job) => Some(job),
        None => for_wire(queue, line),
    }
}

/// Another job is current on the line.
#[derive(Clone, Copy)]
pub struct HasCurrent(pub JobNo);

impl Changes<LineCount> for HasCurrent {
    ghost changed = { λ s count. record count { current = s.0 } };

    fn change(&self, item: &mut LineCount) {
        item.current = self.0;
    }
}

/// The current job was sent as that number.
#[derive(Clone, Copy)]
pub struct HasSent(pub u32);

impl Changes<LineCount> for HasSent {
    ghost changed = { λ s count. record count { sent = s.0; current = no_number } };

    fn change(&self, item: &mut LineCount) {
        item.sent = self.0;
        item.current = JobNo(0);
    }
}

/// A job was got as that number.
#[derive(Clone, Copy)]
pub struct HasGot(pub u32);

impl Changes<LineCount> for HasGot {
    ghost changed = { λ s count. record count { got = s.0 } };

    fn change(&self, item: &mut LineCount) {
        item.got = self.0;
    }
}

/// The count of a line is changed, where the line is there.
pub fn change_wire<F: Changes<LineCount>>(lines: &mut List<LineCount>, line: u8, change: &F)
    ensures { lines.new ≡ (if line == 0 then lines.old else change_at (line - 1) (F.changed change.now) lines.old) }
{
    if line == 0 {
        return;
    }
    if line as usize > lines.len() {
        return;
    }
    change.change(lines.item_mut(line as usize - 1));
}
