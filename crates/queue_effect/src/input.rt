//! How a job comes into the queue: Begin, Take, Drop and Enter.
ghost use Rattle.std.specs.Prelude.{◌≡◌, ◌≤◌, ◌<◌, ◌+◌, ◌^◌, ℕ, length, if◌then◌else◌, IfOk, IfErr, OnOk, OnErr, None, Some, slice_get};
ghost use Rattle.std.specs.List.{list_any};
ghost use Rattle.mas_types.specs.declared.queues.Queue.{Queue};
ghost use Rattle.mas_types.specs.Fit.{AreLines};
ghost use Rattle.mas_types.specs.Ids.{nobody, same_name as same_name_lem};
ghost use Rattle.mas_types.specs.Limits.{members_most};
ghost use Rattle.mas_types.specs.Lists.{first_some};
ghost use Rattle.mas_types.specs.Number.{next_number};
ghost use Rattle.mas_types.specs.Owners.{groups_needed as groups_needed_lem, member_count as member_count_lem};
ghost use Rattle.mas_types.specs.Queue.{has_number, knows_node as knows_node_lem};
ghost use Rattle.mas_types.specs.Commands.Input.{begun, begin_row, take_row, drop_row, enter_row, entered, not_entered};
ghost use Rattle.job_queue.specs.Jobs.{HasJob};
ghost use Rattle.queue_telling.specs.Orders.{HaveOrders};
ghost use Rattle.queue_telling.specs.Telling.{Tell};
ghost use Rattle.queue_effect.specs.Standing.{Plays, IfRefused, AreFit, IsFitJob};
ghost use Rattle.page_marks.specs.Marks.{Touches};

use crate::groups::{free_members, hand_out, take_groups};
use crate::lookups::{put_job, take_job};
use crate::working::{Stage, job_at_work};
use ckpt_tables::Tables;
use job_queue::{JobsFull, add};
use lay_bytes::JobRec;
use mas_types::{JobFields, JobNo, Lines, MemberId, Name8, Phase, Refusal, Reply, Route, Thing};
use output_queue::same_name;
use page_marks::{HEADER_PAGE, Marks};
use queue_slots::{Found, free_slot};
use spool_text::groups_needed;
use track_groups::{SpoolFull, member_count};

fn has_route(routes: &[Route], node: &Name8) -> bool
    ensures { result ≡ list_any (λ r. same_name_lem node.now r.name) routes.now }
{
    routes.iter().any(|route| same_name(node, &route.name))
}

fn knows_node(tables: &Tables, node: &Name8) -> bool
    ensures { (Q : Queue) → Tell tables.now Q → result ≡ knows_node_lem Q node.now }
{
    same_name(node, &tables.config.node) || has_route(tables.routes.as_slice(), node)
}

fn add_job(
    tables: &mut Tables,
    marks: &mut Marks,
    by: MemberId,
    fields: &JobFields,
) -> Result<JobNo, JobsFull>
    requires fit { AreFit tables.old }
    requires order { tables.old.order < 2 ^ 63 }
    requires member { by.0 ≤ members_most }
    ensures number { IfOk result (λ n. (Q : Queue) → Tell tables.old Q → n ≡ next_number Q.jobs Q.last) }
    ensures added { IfOk result (λ n. (Q : Queue) → Tell tables.old Q → Tell tables.new (begun by n fields.now Q)) }
    ensures room { OnOk result ((Q : Queue) → Tell tables.old Q → length Q.jobs < Q.config.jobs) }
    ensures full { OnErr result ((Q : Queue) → Tell tables.old Q → length Q.jobs ≡ Q.config.jobs) }
    ensures unchanged { OnErr result (tables.new ≡ tables.old) }
    ensures order { OnOk result (tables.new.order ≡ tables.old.order + 1) }
    ensures fits { OnOk result (AreFit tables.new) }
    ensures orders { OnOk result (HaveOrders tables.old → HaveOrders tables.new) }
    ensures touches { AreFit tables.old → Touches marks.old.pages marks.new.pages tables.old tables.new }
{
    let Some(at) = free_slot(tables.jobs.as_slice()) else {
        return Err(JobsFull);
    };
    let job = add(
        tables.jobs.as_mut_slice(),
        tables.last,
        tables.order,
        fields,
        by,
    )?;
    tables.last = job;
    tables.order += 1;
    marks.put_job(at);
    marks.put(HEADER_PAGE);
    Ok(job)
}

/// Begin: a new job, with the next number and the next order.
pub fn begin(tables: &mut Tables, marks: &mut Marks, by: MemberId, fields: &JobFields) -> Reply
    requires fit { AreFit tables.old }
    requires order { tables.old.order < 2 ^ 63 }
    requires member { by.0 ≤ members_most }
    ensures plays { Plays tables.old tables.new (λ Q. begin_row Q by fields.now) result }
    ensures refused { IfRefused result (tables.new ≡ tables.old) }
    ensures fits { AreFit tables.new }
    ensures orders { HaveOrders tables.old → HaveOrders tables.new }
    ensures order { tables.new.order ≤ tables.old.order + 1 }
    ensures touches { AreFit tables.old → Touches marks.old.pages marks.new.pages tables.old tables.new }
{
    if !knows_node(tables, &fields.node) {
        return Reply::No(Refusal::NoNode);
    }
    match add_job(tables, marks, by, fields) {
        Ok(job) => Reply::Job(job),
        Err(JobsFull) => Reply::No(Refusal::JobsFull),
    }
}

/// Take: the lowest free groups become the member's.
pub fn take(tables: &mut Tables, marks: &mut Marks, by: MemberId, want: u32) -> Reply
    ensures plays { Plays tables.old tables.new (λ Q. take_row Q by want) result }
    ensures refused { IfRefused result (tables.new ≡ tables.old) }
    ensures fit { AreFit tables.old → AreFit tables.new }
    ensures orders { HaveOrders tables.old → HaveOrders tables.new }
    ensures order { tables.new.order ≡ tables.old.order }
    ensures touches { AreFit tables.old → Touches marks.old.pages marks.new.pages tables.old tables.new }
{
    match take_groups(tables, marks, by, want) {
        Ok(count) => Reply::Count(count),
        Err(SpoolFull) => Reply::No(Refusal::SpoolFull),
    }
}

/// Drop: the groups of the member become free, and the job goes, if one is named.
pub fn drop_job(tables: &mut Tables, marks: &mut Marks, by: MemberId, job: JobNo) -> Reply
    ensures plays { Plays tables.old tables.new (λ Q. drop_row Q by job) result }
    ensures refused { IfRefused result (tables.new ≡ tables.old) }
    ensures fit { AreFit tables.old → AreFit tables.new }
    ensures orders { HaveOrders tables.old → HaveOrders tables.new }
    ensures order { tables.new.order ≡ tables.old.order }
    ensures touches { AreFit tables.old → Touches marks.old.pages marks.new.pages tables.old tables.new }
{
    if job.0 == 0 {
        free_members(tables, marks, by);
        return Reply::Plain;
    }
    match job_at_work(tables, by, job, Stage::Input) {
        Ok(found) => {
            take_job(tables, marks, found.at);
            free_members(tables, marks, by);
            Reply::Plain
        }
        Err(why) => Reply::No(why),
    }
}

fn phase_entered(node: &Name8, job: &JobRec) -> Phase
    ensures { result ≡ (if job.now.cancelled then Phase.Purge else
        (if same_name_lem job.now.fields.node node.now then Phase.Convert else Phase.Xmit)) }
{
    if job.cancelled {
        Phase::Purge
    } else if same_name(&job.fields.node, node) {
        Phase::Convert
    } else {
        Phase::Xmit
    }
}

fn entered_record(node: &Name8, job: &JobRec, text: &Lines) -> JobRec
    requires { AreLines text.now }
    ensures value { result ≡ record job.now {
      phase = if job.now.cancelled then Phase.Purge else
          (if same_name_lem job.now.fields.node node.now then Phase.Convert else Phase.Xmit);
      busy = nobody;
      cards
          = length text.now;
    } }
    ensures fit { (n : ℕ) → IsFitJob n job.now → IsFitJob n result }
    ensures same_order { result.order ≡ job.now.order }
{
    JobRec {
        phase: phase_entered(node, job),
        busy: MemberId(0),
        cards: text.len() as u16,
        ..*job
    }
}

/// The job that is to get its text, and how many groups that takes. The refusals are those of Enter. They come in the
/// order of its row, and change nothing.
pub fn entering(
    tables: &Tables,
    by: MemberId,
    job: JobNo,
    text: &Lines,
) -> Result<Found<JobRec>, Refusal>
    requires text { AreLines text.now }
    requires fit { AreFit tables.now }
    ensures here { IfOk result (λ f. slice_get tables.now.jobs f.at ≡ Some (Some f.item)) }
    ensures some { IfOk result (λ f. (Q : Queue) → Tell tables.now Q
        → HasJob (has_number job) tables.now.jobs Q.jobs f.at f.item) }
    ensures room { OnOk result (groups_needed_lem text.now ≤ member_count_lem by tables.now.owners) }
    ensures allowed { OnOk result ((Q : Queue) → Tell tables.now Q
        → first_some (not_entered Q by job text.now) ≡ None) }
    ensures refused { IfErr result
        (λ why. (Q : Queue) → Tell tables.now Q → first_some (not_entered Q by job text.now) ≡ Some why) }
{
    let found = job_at_work(tables, by, job, Stage::Input)?;
    if member_count(tables.owners.as_slice(), by) < groups_needed(text) {
        return Err(Refusal::Nothing);
    }
    Ok(found)
}

/// The job gets its text, in the lowest groups of the member, and goes on.
pub fn enter_job(
    tables: &mut Tables,
    marks: &mut Marks,
    found: &Found<JobRec>,
    by: MemberId,
    job: JobNo,
    text: &Lines,
)
    requires text { AreLines text.now }
    requires here { slice_get tables.old.jobs found.now.at ≡ Some (Some found.now.item) }
    requires room { groups_needed_lem text.now ≤ member_count_lem by tables.old.owners }
    ensures stands { (Q : Queue) → Tell tables.old Q
        → HasJob (has_number job) tables.old.jobs Q.jobs found.now.at found.now.item
        → Tell tables.new (entered by job text.now Q) }
    ensures fit { AreFit tables.old → AreFit tables.new }
    ensures orders { HaveOrders tables.old → HaveOrders tables.new }
    ensures order { tables.new.order ≡ tables.old.order }
    ensures lines { tables.new.lines ≡ tables.old.lines }
    ensures touches { AreFit tables.old → Touches marks.old.pages marks.new.pages tables.old tables.new }
{
    let entered = entered_record(&tables.config.node, &found.item, text);
    put_job(tables, marks, found.at, entered);
    hand_out(tables, marks, by, Thing::Deck(job), groups_needed(text));
}

/// Enter: the job gets its deck, and goes on.
pub fn enter(
    tables: &mut Tables,
    marks: &mut Marks,
    by: MemberId,
    job: JobNo,
    text: &Lines,
) -> Reply
    requires text { AreLines text.now }
    requires fit { AreFit tables.old }
    ensures plays { Plays tables.old tables.new (λ Q. enter_row Q by job text.now) result }
    ensures refused { IfRefused result (tables.new ≡ tables.old) }
    ensures fits { AreFit tables.new }
    ensures orders { HaveOrders tables.old → HaveOrders tables.new }
    ensures order { tables.new.order ≡ tables.old.order }
    ensures touches { AreFit tables.old → Touches marks.old.pages marks.new.pages tables.old tables.new }
{
    match entering(tables, by, job, text) {
        Ok(found) => {
            enter_job(tables, marks, &found, by, job, text);
            Reply::Job(job)
        }
        Err(why) => Reply::No(why),
    }
}
