//! What goes over a line to another node: Load, Sent and Got.
ghost use Rattle.std.specs.Prelude.{◌≡◌, ◌≤◌, ◌&&◌, ◌==◌, ◌∷◌, [], length, not, option_map, IfSome, IfNone, None, Some, slice_get};
ghost use Rattle.std.specs.List.{list_any};
ghost use Rattle.mas_types.specs.declared.queues.Queue.{Queue};
ghost use Rattle.mas_types.specs.Fit.{AreLines, IsLine};
ghost use Rattle.mas_types.specs.Ids.{same_number, same_name as same_name_lem, no_number};
ghost use Rattle.mas_types.specs.Lists.{first_some};
ghost use Rattle.mas_types.specs.Queue.{in_xmit, is_current_on, current_on as current_on_lem, number_of};
ghost use Rattle.mas_types.specs.Selection.{is_for_wire, for_wire as for_wire_lem};
ghost use Rattle.mas_types.specs.Commands.Wire.{load_row, sent_row, got_row, either, again, gap, sent_on, got_on};
ghost use Rattle.job_queue.specs.Jobs.{AreJobs, HasJob};
ghost use Rattle.queue_effect.specs.Slots.{count_changed};
ghost use Rattle.queue_telling.specs.Orders.{HaveOrders};
ghost use Rattle.queue_telling.specs.Telling.{Tell};
ghost use Rattle.queue_effect.specs.Standing.{Plays, IfRefused, AreFit};
ghost use Rattle.page_marks.specs.Marks.{Touches};

use crate::input::{enter_job, entering};
use crate::life::in_phase_of;
use crate::lookups::{is_current, put_job, wire};
use ckpt_tables::Tables;
use lay_bytes::JobRec;
use mas_types::{JobNo, LineCount, Lines, MemberId, Name8, Phase, Refusal, Reply, Route};
use output_queue::same_name;
use page_marks::{Marks, NODES_PAGE};
use queue_slots::{Found, Rank, Test, best_slot, first_slot};

/// The job in Xmit with a number.
#[derive(Clone, Copy)]
struct Sending(JobNo);

impl Test<JobRec> for Sending {
    ghost picks = { λ s r. in_xmit r.phase && same_number r.number s.0 };

    fn picks(&self, item: &JobRec) -> bool {
        matches!(item.phase, Phase::Xmit) && item.number.0 == self.0.0
    }
}

/// The jobs that may be sent over a line.
#[derive(Clone, Copy)]
struct ForLine<'a> {
    counts: &'a [LineCount],
    routes: &'a [Route],
    line: u8,
}

impl<'a> Test<JobRec> for ForLine<'a> {
    ghost picks = { λ s r. in_xmit r.phase && not r.fields.held
        && not (in_xmit r.phase && list_any (λ count. same_number count.current r.number) s.counts.now)
        && list_any (λ route. same_name_lem r.fields.node route.name && (route.line == s.line)) s.routes.now };

    fn picks(&self, item: &JobRec) -> bool {
        matches!(item.phase, Phase::Xmit)
            && !item.fields.held
            && !is_current(self.counts, item)
            && leads_to(self.routes, self.line, &item.fields.node)
    }
}

impl<'a> Rank<JobRec> for ForLine<'a> {
    ghost rank = { λ s r. r.fields.prio.0 };

    fn rank(&self, item: &JobRec) -> Option<u8> {
        if self.picks(item) {
            Some(item.fields.prio.0)
        } else {
            None
        }
    }
}

fn leads_to(routes: &[Route], line: u8, node: &Name8) -> bool
    ensures { result ≡ list_any (λ route. same_name_lem node.now route.name && (route.line == line)) routes.now }
{
    routes
        .iter()
        .any(|route| same_name(node, &route.name) && route.line == line)
}

/// The job that is current on a line.
fn current_on(tables: &Tables, line: u8) -> Option<Found<JobRec>>
    ensures here { IfSome result (λ f. slice_get tables.now.jobs f.at ≡ Some (Some f.item)) }
    ensures some { IfSome result (λ f. (Q : Queue) → Tell tables.now Q
        → HasJob (is_current_on Q line) tables.now.jobs Q.jobs f.at f.item) }
    ensures none { IfNone result ((Q : Queue) → Tell tables.now Q → current_on_lem Q line ≡ None) }
{
    match wire(tables, line) {
        Some(count) => first_slot(tables.jobs.as_slice(), &Sending(count.current)),
        None => None,
    }
}

/// The slot of the job selected for a line: of those that may be sent over it, of those of the greatest priority, the
/// first.
fn find_for_line(
    jobs: &[Option<JobRec>],
    counts: &[LineCount],
    routes: &[Route],
    line: u8,
) -> Option<Found<JobRec>>
    ensures some { IfSome result (λ f. (Q : Queue) → AreJobs jobs.now Q.jobs → Q.lines ≡ counts.now
        → Q.routes ≡ routes.now → HasJob (is_for_wire Q line) jobs.now Q.jobs f.at f.item) }
    ensures none { IfNone result ((Q : Queue) → AreJobs jobs.now Q.jobs → Q.lines ≡ counts.now → Q.routes ≡ routes.now
        → for_wire_lem Q line ≡ None) }
{
    let test = ForLine {
        counts,
        routes,
        line,
    };
    best_slot(jobs, &test)
}

/// The job selected for a line.
fn for_line(tables: &Tables, line: u8) -> Option<Found<JobRec>>
    ensures some { IfSome result (λ f. (Q : Queue) → Tell tables.now Q
        → HasJob (is_for_wire Q line) tables.now.jobs Q.jobs f.at f.item) }
    ensures none { IfNone result ((Q : Queue) → Tell tables.now Q → for_wire_lem Q line ≡ None) }
{
    find_for_line(
        tables.jobs.as_slice(),
        tables.lines.as_slice(),
        tables.routes.as_slice(),
        line,
    )
}

/// The number of the job that is current on a line, or else of the one selected for it.
fn loaded(tables: &Tables, line: u8) -> Option<JobNo>
    ensures { (Q : Queue) → Tell tables.now Q
        → result ≡ option_map (λ j. j.number) (either (current_on_lem Q line) (for_wire_lem Q line)) }
{
    if let Some(found) = current_on(tables, line) {
        return Some(found.item.number);
    }
    match for_line(tables, line) {
        Some(found) => Some(found.item.number),
        None => None,
    }
}

fn put_current(tables: &mut Tables, marks: &mut Marks, line: u8, job: JobNo)
    requires some { 1 ≤ line }
    requires within { line ≤ length tables.old.lines }
    ensures value { tables.new ≡ record tables.old
        { lines = count_changed line (λ count. record count { current = job }) tables.old.lines } }
    ensures fit { AreFit tables.old → AreFit tables.new }
    ensures orders { HaveOrders tables.old → HaveOrders tables.new }
    ensures touches { AreFit tables.old → Touches marks.old.pages marks.new.pages tables.old tables.new }
{
    marks.put(NODES_PAGE);
    tables.lines.item_mut(line as usize - 1).current = job;
}

/// Load: where no job is current on the line, the one selected for it becomes so.
pub fn load(tables: &mut Tables, marks: &mut Marks, line: u8) -> Reply
    requires line { IsLine line }
    requires fit { AreFit tables.old }
    ensures plays { Plays tables.old tables.new (λ Q. load_row Q line) result }
    ensures refused { IfRefused result (tables.new ≡ tables.old) }
    ensures fits { AreFit tables.new }
    ensures orders { HaveOrders tables.old → HaveOrders tables.new }
    ensures order { tables.new.order ≡ tables.old.order }
    ensures touches { AreFit tables.old → Touches marks.old.pages marks.new.pages tables.old tables.new }
{
    let Some(job) = loaded(tables, line) else {
        return Reply::No(Refusal::Nothing);
    };
    put_current(tables, marks, line, job);
    Reply::Job(job)
}

/// Why a number can't follow the one that is kept.
fn refusal_of_number(kept: u32, number: u32) -> Option<Refusal>
    ensures { result ≡ first_some (again kept number ∷ gap kept number ∷ []) }
{
    if number <= kept {
        return Some(Refusal::Again(number));
    }
    if number - kept > 1 {
        return Some(Refusal::Gap { number, kept });
    }
    None
}

fn sent(tables: &Tables, line: u8) -> u32
    ensures { (Q : Queue) → Tell tables.now Q → result ≡ sent_on Q line }
{
    match wire(tables, line) {
        Some(count) => count.sent,
        None => 0,
    }
}

fn got(tables: &Tables, line: u8) -> u32
    ensures { (Q : Queue) → Tell tables.now Q → result ≡ got_on Q line }
{
    match wire(tables, line) {
        Some(count) => count.got,
        None => 0,
    }
}

fn put_sent(tables: &mut Tables, marks: &mut Marks, line: u8, number: u32)
    requires some { 1 ≤ line }
    requires within { line ≤ length tables.old.lines }
    ensures value { tables.new ≡ record tables.old
        { lines = count_changed line (λ count. record count { sent = number; current = no_number }) tables.old.lines } }
    ensures fit { AreFit tables.old → AreFit tables.new }
    ensures orders { HaveOrders tables.old → HaveOrders tables.new }
    ensures touches { AreFit tables.old → Touches marks.old.pages marks.new.pages tables.old tables.new }
{
    marks.put(NODES_PAGE);
    let count = tables.lines.item_mut(line as usize - 1);
    count.sent = number;
    count.current = JobNo(0);
}

/// Sent: the job that is current on the line goes to Purge.
pub fn acknowledge(tables: &mut Tables, marks: &mut Marks, line: u8, number: u32) -> Reply
    requires line { IsLine line }
    requires fit { AreFit tables.old }
    ensures plays { Plays tables.old tables.new (λ Q. sent_row Q line number) result }
    ensures refused { IfRefused result (tables.new ≡ tables.old) }
    ensures fits { AreFit tables.new }
    ensures orders { HaveOrders tables.old → HaveOrders tables.new }
    ensures order { tables.new.order ≡ tables.old.order }
    ensures touches { AreFit tables.old → Touches marks.old.pages marks.new.pages tables.old tables.new }
{
    if let Some(why) = refusal_of_number(sent(tables, line), number) {
        return Reply::No(why);
    }
    let Some(found) = current_on(tables, line) else {
        return Reply::No(Refusal::Nothing);
    };
    put_job(
        tables,
        marks,
        found.at,
        in_phase_of(&found.item, Phase::Purge),
    );
    put_sent(tables, marks, line, number);
    Reply::Count(number)
}

fn put_got(tables: &mut Tables, marks: &mut Marks, line: u8, number: u32)
    requires some { 1 ≤ line }
    requires within { line ≤ length tables.old.lines }
    ensures value { tables.new ≡ record tables.old
        { lines = count_changed line (λ count. record count { got = number }) tables.old.lines } }
    ensures fit { AreFit tables.old → AreFit tables.new }
    ensures orders { HaveOrders tables.old → HaveOrders tables.new }
    ensures touches { AreFit tables.old → Touches marks.old.pages marks.new.pages tables.old tables.new }
{
    marks.put(NODES_PAGE);
    tables.lines.item_mut(line as usize - 1).got = number;
}

/// A job that came over a line.
#[derive(Clone, Copy)]
pub struct Arrival {
    /// The line.
    pub line: u8,
    /// The job's number on the line.
    pub number: u32,
    /// The job.
    pub job: JobNo,
}

/// Got: as Enter, for a job that came over the line.
pub fn receive(
    tables: &mut Tables,
    marks: &mut Marks,
    by: MemberId,
    arrival: Arrival,
    text: &Lines,
) -> Reply
    requires line { IsLine arrival.line }
    requires text { AreLines text.now }
    requires fit { AreFit tables.old }
    ensures plays { Plays tables.old tables.new
        (λ Q. got_row Q by arrival.line arrival.number arrival.job text.now) result }
    ensures refused { IfRefused result (tables.new ≡ tables.old) }
    ensures fits { AreFit tables.new }
    ensures orders { HaveOrders tables.old → HaveOrders tables.new }
    ensures order { tables.new.order ≡ tables.old.order }
    ensures touches { AreFit tables.old → Touches marks.old.pages marks.new.pages tables.old tables.new }
{
    if let Some(why) = refusal_of_number(got(tables, arrival.line), arrival.number) {
        return Reply::No(why);
    }
    let found = match entering(tables, by, arrival.job, text) {
        Ok(found) => found,
        Err(why) => return Reply::No(why),
    };
    enter_job(tables, marks, &found, by, arrival.job, text);
    put_got(tables, marks, arrival.line, arrival.number);
    Reply::Job(arrival.job)
}
