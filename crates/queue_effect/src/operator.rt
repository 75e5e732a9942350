//! What an operator changes in jobs and outputs.
ghost use Rattle.std.specs.Prelude.{◌≡◌, ◌<◌, ◌≤◌, ◌^◌, ◌&&◌, ◌||◌, ◌∷◌, [], ℕ, map, length, count_by, not, IfSome, IfNone, None, Bool};
ghost use Rattle.lay_bytes.specs.Used.{used};
ghost use Rattle.mas_types.specs.declared.queues.Queue.{Queue};
ghost use Rattle.mas_types.specs.Ids.{same_number, same_member, is_somebody};
ghost use Rattle.mas_types.specs.Lists.{change};
ghost use Rattle.mas_types.specs.Queue.{in_purge, in_xmit, is_of};
ghost use Rattle.std.specs.List.{list_any};
ghost use Rattle.mas_types.specs.Commands.Operator.{held_row, set_prio_row, set_class_row, set_out_row, cancel_row, out_row, is_held_of, released as released_lem, printing_elsewhere as printing_elsewhere_lem, without_outputs_of, has_yet_to_run as has_yet_to_run_lem};
ghost use Rattle.output_queue.specs.Outputs.{HasOutput};
ghost use Rattle.queue_effect.specs.Slots.{emptied_where};
ghost use Rattle.queue_resets.specs.Resets.{changed_where};
ghost use Rattle.queue_telling.specs.Orders.{HaveOrders};
ghost use Rattle.queue_telling.specs.Telling.{Tell};
ghost use Rattle.queue_effect.specs.Standing.{Plays, IfRefused, AreFit, IsFitJob, IsFitOutput};
ghost use Rattle.page_marks.specs.Marks.{Touches};

use crate::groups::free_prints;
use crate::life::in_phase_of;
use crate::lookups::{is_current, job_at, output_at, put_job, put_output};
use crate::printing::is_elsewhere;
use ckpt_tables::Tables;
use lay_bytes::{JobRec, OutRec};
use mas_types::{Class, JobFields, JobNo, MemberId, OutNo, Phase, Prio, Refusal, Reply};
use output_queue::find_elsewhere;
use page_marks::Marks;
use queue_slots::Found;

fn with_held(job: &JobRec, held: bool) -> JobRec
    ensures value { result ≡ record job.now { fields = record job.now.fields { held = held } } }
    ensures fit { (n : ℕ) → IsFitJob n job.now → IsFitJob n result }
    ensures same_order { result.order ≡ job.now.order }
{
    JobRec {
        fields: JobFields { held, ..job.fields },
        ..*job
    }
}

/// Hold, Release: the job is held, or no longer.
pub fn set_held(tables: &mut Tables, marks: &mut Marks, job: JobNo, held: bool) -> Reply
    ensures plays { Plays tables.old tables.new (λ Q. held_row Q job held) result }
    ensures refused { IfRefused result (tables.new ≡ tables.old) }
    ensures fit { AreFit tables.old → AreFit tables.new }
    ensures orders { HaveOrders tables.old → HaveOrders tables.new }
    ensures order { tables.new.order ≡ tables.old.order }
    ensures touches { AreFit tables.old → Touches marks.old.pages marks.new.pages tables.old tables.new }
{
    let Some(found) = job_at(tables, job) else {
        return Reply::No(Refusal::NoJob);
    };
    put_job(tables, marks, found.at, with_held(&found.item, held));
    Reply::Job(job)
}

fn with_prio(job: &JobRec, prio: Prio) -> JobRec
    ensures value { result ≡ record job.now { fields = record job.now.fields { prio = prio } } }
    ensures fit { (n : ℕ) → IsFitJob n job.now → IsFitJob n result }
    ensures same_order { result.order ≡ job.now.order }
{
    JobRec {
        fields: JobFields { prio, ..job.fields },
        ..*job
    }
}

/// SetPrio: the job gets another priority.
pub fn set_prio(tables: &mut Tables, marks: &mut Marks, job: JobNo, prio: Prio) -> Reply
    ensures plays { Plays tables.old tables.new (λ Q. set_prio_row Q job prio) result }
    ensures refused { IfRefused result (tables.new ≡ tables.old) }
    ensures fit { AreFit tables.old → AreFit tables.new }
    ensures orders { HaveOrders tables.old → HaveOrders tables.new }
    ensures order { tables.new.order ≡ tables.old.order }
    ensures touches { AreFit tables.old → Touches marks.old.pages marks.new.pages tables.old tables.new }
{
    let Some(found) = job_at(tables, job) else {
        return Reply::No(Refusal::NoJob);
    };
    if matches!(found.item.phase, Phase::Purge) {
        return Reply::No(Refusal::WrongPhase(found.item.phase));
    }
    put_job(tables, marks, found.at, with_prio(&found.item, prio));
    Reply::Job(job)
}

fn has_yet_to_run(phase: Phase) -> bool
    ensures { result ≡ has_yet_to_run_lem phase }
{
    matches!(phase, Phase::Input | Phase::Convert | Phase::Execute)
}

fn with_class(job: &JobRec, class: Class) -> JobRec
    ensures value { result ≡ record job.now { fields = record job.now.fields { class = class } } }
    ensures fit { (n : ℕ) → IsFitJob n job.now → IsFitJob n result }
    ensures same_order { result.order ≡ job.now.order }
{
    JobRec {
        fields: JobFields {
            class,
            ..job.fields
        },
        ..*job
    }
}

/// SetClass: the job gets another class.
pub fn set_class(tables: &mut Tables, marks: &mut Marks, job: JobNo, class: Class) -> Reply
    ensures plays { Plays tables.old tables.new (λ Q. set_class_row Q job class) result }
    ensures refused { IfRefused result (tables.new ≡ tables.old) }
    ensures fit { AreFit tables.old → AreFit tables.new }
    ensures orders { HaveOrders tables.old → HaveOrders tables.new }
    ensures order { tables.new.order ≡ tables.old.order }
    ensures touches { AreFit tables.old → Touches marks.old.pages marks.new.pages tables.old tables.new }
{
    let Some(found) = job_at(tables, job) else {
        return Reply::No(Refusal::NoJob);
    };
    if !has_yet_to_run(found.item.phase) {
        return Reply::No(Refusal::WrongPhase(found.item.phase));
    }
    put_job(tables, marks, found.at, with_class(&found.item, class));
    Reply::Job(job)
}

fn with_out_class(output: &OutRec, class: Class) -> OutRec
    ensures value { result ≡ record output.now { class = class } }
    ensures fit { (n : ℕ) → IsFitOutput n output.now → IsFitOutput n result }
    ensures same_order { result.order ≡ output.now.order }
{
    OutRec { class, ..*output }
}

/// SetOut: the output gets another class.
pub fn set_out(
    tables: &mut Tables,
    marks: &mut Marks,
    by: MemberId,
    job: JobNo,
    index: OutNo,
    class: Class,
) -> Reply
    ensures plays { Plays tables.old tables.new (λ Q. set_out_row Q by job index class) result }
    ensures refused { IfRefused result (tables.new ≡ tables.old) }
    ensures fit { AreFit tables.old → AreFit tables.new }
    ensures orders { HaveOrders tables.old → HaveOrders tables.new }
    ensures order { tables.new.order ≡ tables.old.order }
    ensures touches { AreFit tables.old → Touches marks.old.pages marks.new.pages tables.old tables.new }
{
    let Some(found) = output_at(tables, job, index) else {
        return Reply::No(Refusal::NoOutput);
    };
    if is_elsewhere(found.item.busy, by) {
        return Reply::No(Refusal::InUse(found.item.busy));
    }
    put_output(tables, marks, found.at, with_out_class(&found.item, class));
    Reply::Output(job, index)
}

fn cancelled(job: &JobRec) -> JobRec
    ensures value { result ≡ record job.now { cancelled = Bool.true } }
    ensures fit { (n : ℕ) → IsFitJob n job.now → IsFitJob n result }
    ensures same_order { result.order ≡ job.now.order }
{
    JobRec {
        cancelled: true,
        ..*job
    }
}

fn is_past_cancel(tables: &Tables, job: &JobRec) -> bool
    ensures { result ≡ (in_purge job.now.phase ||
        (in_xmit job.now.phase && list_any (λ count. same_number count.current job.now.number) tables.now.lines)) }
{
    matches!(job.phase, Phase::Purge) || is_current(tables.lines.as_slice(), job)
}

fn emptied(slot: Option<OutRec>, job: JobNo) -> Option<OutRec>
    ensures { result ≡ emptied_where (λ r. same_number r.job job) slot }
{
    match slot {
        Some(output) if output.job.0 == job.0 => None,
        _ => slot,
    }
}

fn empty_slots(outputs: &mut [Option<OutRec>], job: JobNo)
    ensures { outputs.new ≡ map (emptied_where (λ r. same_number r.job job)) outputs.old }
{
    for slot in outputs.iter_mut() {
        *slot = emptied(*slot, job);
    }
}

fn empty_outputs(tables: &mut Tables, marks: &mut Marks, job: JobNo)
    ensures value { tables.new ≡ record tables.old
        { outputs = map (emptied_where (λ r. same_number r.job job)) tables.old.outputs } }
    ensures fit { AreFit tables.old → AreFit tables.new }
    ensures orders { HaveOrders tables.old → HaveOrders tables.new }
    ensures touches { AreFit tables.old → Touches marks.old.pages marks.new.pages tables.old tables.new }
{
    marks.put_outputs(&tables.config);
    empty_slots(tables.outputs.as_mut_slice(), job);
}

/// The outputs of the job go, and their groups become free.
fn drop_outputs(tables: &mut Tables, marks: &mut Marks, job: JobNo)
    ensures stands { (Q : Queue) → Tell tables.old Q → Tell tables.new (without_outputs_of job Q) }
    ensures jobs { tables.new.jobs ≡ tables.old.jobs }
    ensures fit { AreFit tables.old → AreFit tables.new }
    ensures orders { HaveOrders tables.old → HaveOrders tables.new }
    ensures order { tables.new.order ≡ tables.old.order }
    ensures touches { AreFit tables.old → Touches marks.old.pages marks.new.pages tables.old tables.new }
{
    free_prints(tables, marks, job);
    empty_outputs(tables, marks, job);
}

/// The first output of the job that is busy at another than the member.
fn printing_elsewhere(tables: &Tables, by: MemberId, job: JobNo) -> Option<Found<OutRec>>
    ensures some { IfSome result (λ f. (Q : Queue) → Tell tables.now Q
        → HasOutput (λ o. is_of job o && is_somebody o.busy && not (same_member o.busy by)) tables.now.outputs Q.outputs
        f.at f.item) }
    ensures none { IfNone result ((Q : Queue) → Tell tables.now Q → printing_elsewhere_lem Q by job ≡ None) }
{
    find_elsewhere(tables.outputs.as_slice(), job, by)
}

/// Cancel: a busy job becomes cancelled; any other loses its outputs and goes to Purge.
pub fn cancel(tables: &mut Tables, marks: &mut Marks, by: MemberId, job: JobNo) -> Reply
    ensures plays { Plays tables.old tables.new (λ Q. cancel_row Q by job) result }
    ensures refused { IfRefused result (tables.new ≡ tables.old) }
    ensures fit { AreFit tables.old → AreFit tables.new }
    ensures orders { HaveOrders tables.old → HaveOrders tables.new }
    ensures order { tables.new.order ≡ tables.old.order }
    ensures touches { AreFit tables.old → Touches marks.old.pages marks.new.pages tables.old tables.new }
{
    let Some(found) = job_at(tables, job) else {
        return Reply::No(Refusal::NoJob);
    };
    if is_past_cancel(tables, &found.item) {
        return Reply::No(Refusal::WrongPhase(found.item.phase));
    }
    if let Some(output) = printing_elsewhere(tables, by, job) {
        return Reply::No(Refusal::InUse(output.item.busy));
    }
    if found.item.busy.0 != 0 {
        put_job(tables, marks, found.at, cancelled(&found.item));
        return Reply::Job(job);
    }
    drop_outputs(tables, marks, job);
    put_job(
        tables,
        marks,
        found.at,
        in_phase_of(&found.item, Phase::Purge),
    );
    Reply::Job(job)
}

fn is_held_output(output: &OutRec, job: JobNo) -> bool
    ensures { result ≡ (same_number output.now.job job && output.now.held) }
{
    output.job.0 == job.0 && output.held
}

fn released(slot: Option<OutRec>, job: JobNo) -> Option<OutRec>
    ensures { result ≡ changed_where (λ r. same_number r.job job && r.held) (λ r. record r { held = Bool.false }) slot }
{
    match slot {
        Some(output) if is_held_output(&output, job) => Some(OutRec {
            held: false,
            ..output
        }),
        _ => slot,
    }
}

fn release_slots(outputs: &mut [Option<OutRec>], job: JobNo)
    ensures { outputs.new ≡ map (changed_where (λ r. same_number r.job job && r.held)
        (λ r. record r { held = Bool.false })) outputs.old }
{
    for slot in outputs.iter_mut() {
        *slot = released(*slot, job);
    }
}

fn held_in(slot: &Option<OutRec>, job: JobNo) -> u32
    ensures value { result ≡ count_by (λ r. same_number r.job job && r.held) (used (slot.now ∷ [])) }
    ensures few { result ≤ 1 }
{
    match slot {
        Some(output) if is_held_output(output, job) => 1,
        _ => 0,
    }
}

fn held_count(outputs: &[Option<OutRec>], job: JobNo) -> u32
    requires { length outputs.now < 2 ^ 32 }
    ensures { result ≡ count_by (λ r. same_number r.job job && r.held) (used outputs.now) }
{
    let mut count = 0;
    for slot in outputs {
        count += held_in(slot, job);
    }
    count
}

fn held_outputs(tables: &Tables, job: JobNo) -> u32
    requires { AreFit tables.now }
    ensures { (Q : Queue) → Tell tables.now Q → result ≡ count_by (is_held_of job) Q.outputs }
{
    held_count(tables.outputs.as_slice(), job)
}

fn release_outputs(tables: &mut Tables, marks: &mut Marks, job: JobNo)
    ensures value { tables.new ≡ record tables.old {
      outputs = map (changed_where (λ r. same_number r.job job && r.held) (λ r. record r { held = Bool.false }))
          tables.old.outputs;
    } }
    ensures stands { (Q : Queue) → Tell tables.old Q
        → Tell tables.new (record Q { outputs = change (is_held_of job) released_lem Q.outputs }) }
    ensures fit { AreFit tables.old → AreFit tables.new }
    ensures orders { HaveOrders tables.old → HaveOrders tables.new }
    ensures touches { AreFit tables.old → Touches marks.old.pages marks.new.pages tables.old tables.new }
{
    marks.put_outputs(&tables.config);
    release_slots(tables.outputs.as_mut_slice(), job);
}

/// Out: the held outputs of the job are released.
pub fn out(tables: &mut Tables, marks: &mut Marks, job: JobNo) -> Reply
    requires { AreFit tables.old }
    ensures plays { Plays tables.old tables.new (λ Q. out_row Q job) result }
    ensures refused { IfRefused result (tables.new ≡ tables.old) }
    ensures fits { AreFit tables.new }
    ensures orders { HaveOrders tables.old → HaveOrders tables.new }
    ensures order { tables.new.order ≡ tables.old.order }
    ensures touches { AreFit tables.old → Touches marks.old.pages marks.new.pages tables.old tables.new }
{
    let Some(_found) = job_at(tables, job) else {
        return Reply::No(Refusal::NoJob);
    };
    let count = held_outputs(tables, job);
    release_outputs(tables, marks, job);
    Reply::Count(count)
}
