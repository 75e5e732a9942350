//! How outputs are printed: Pick, Mark, Done, Back and Forward, and CancelOut.
ghost use Rattle.std.specs.Prelude.{◌≡◌, ◌≤◌, ◌*◌, ◌&&◌, ℕ, not, if◌then◌else◌, IfSome, IfNone, None, Some, slice_get};
ghost use Rattle.mas_types.specs.declared.queues.Queue.{Queue};
ghost use Rattle.mas_types.specs.Limits.{members_most};
ghost use Rattle.mas_types.specs.Ids.{is_somebody, same_member};
ghost use Rattle.mas_types.specs.Queue.{has_key, in_hardcopy, has_output as has_output_lem};
ghost use Rattle.mas_types.specs.Selection.{is_for_printer, for_printer as for_printer_lem};
ghost use Rattle.mas_types.specs.Commands.Printing.{pick_row, mark_row, done_row, back_row, forward_row, output_gone, with_job_over};
ghost use Rattle.mas_types.specs.Commands.Operator.{cancel_out_row};
ghost use Rattle.output_queue.specs.Outputs.{HasOutput};
ghost use Rattle.queue_telling.specs.Orders.{HaveOrders};
ghost use Rattle.queue_telling.specs.Telling.{Tell};
ghost use Rattle.queue_effect.specs.Standing.{Plays, IfRefused, AreFit, IsFitOutput};
ghost use Rattle.page_marks.specs.Marks.{Touches};

use crate::groups::free_groups;
use crate::life::in_phase_of;
use crate::lookups::{job_at, output_at, printing_at, put_job, put_output, setting, take_output};
use ckpt_tables::Tables;
use lay_bytes::{JobRec, OutRec};
use mas_types::{JobNo, MemberId, OutNo, Phase, Refusal, Reply, Thing};
use output_queue::{find_for_printer, has_output};
use page_marks::Marks;
use printer_proc::{backspace, forward};
use queue_slots::Found;

fn for_printer(tables: &Tables, by: MemberId) -> Option<Found<OutRec>>
    requires { by.0 ≤ members_most }
    ensures here { IfSome result (λ f. slice_get tables.now.outputs f.at ≡ Some (Some f.item)) }
    ensures some { IfSome result (λ f. (Q : Queue) → Tell tables.now Q
        → HasOutput (is_for_printer Q by) tables.now.outputs Q.outputs f.at f.item) }
    ensures none { IfNone result ((Q : Queue) → Tell tables.now Q → for_printer_lem Q by ≡ None) }
{
    match setting(tables, by) {
        Some(setting) => find_for_printer(
            tables.outputs.as_slice(),
            tables.jobs.as_slice(),
            by,
            setting,
        ),
        None => None,
    }
}

fn busy_at(output: &OutRec, by: MemberId) -> OutRec
    ensures value { result ≡ record output.now { busy = by } }
    ensures fit { (n : ℕ) → by.0 ≤ members_most → IsFitOutput n output.now → IsFitOutput n result }
    ensures same_order { result.order ≡ output.now.order }
{
    OutRec {
        busy: by,
        ..*output
    }
}

/// Pick: the output selected for the member's printer becomes busy at the member.
pub fn pick(tables: &mut Tables, marks: &mut Marks, by: MemberId) -> Reply
    requires { by.0 ≤ members_most }
    ensures plays { Plays tables.old tables.new (λ Q. pick_row Q by) result }
    ensures refused { IfRefused result (tables.new ≡ tables.old) }
    ensures fit { AreFit tables.old → AreFit tables.new }
    ensures orders { HaveOrders tables.old → HaveOrders tables.new }
    ensures order { tables.new.order ≡ tables.old.order }
    ensures touches { AreFit tables.old → Touches marks.old.pages marks.new.pages tables.old tables.new }
{
    if let Some(_other) = printing_at(tables, by) {
        return Reply::No(Refusal::InUse(by));
    }
    let Some(found) = for_printer(tables, by) else {
        return Reply::No(Refusal::Nothing);
    };
    put_output(tables, marks, found.at, busy_at(&found.item, by));
    Reply::Output(found.item.job, found.item.index)
}

fn total(output: &OutRec) -> u32
    ensures { result ≡ output.now.lines * output.now.copies }
{
    output.lines as u32 * output.copies as u32
}

fn marked(output: &OutRec, mark: u32) -> OutRec
    ensures value { result ≡ record output.now { mark = mark } }
    ensures fit { (n : ℕ) → IsFitOutput n output.now → IsFitOutput n result }
    ensures same_order { result.order ≡ output.now.order }
{
    OutRec { mark, ..*output }
}

/// Mark: so many lines of the output are printed.
pub fn mark(
    tables: &mut Tables,
    marks: &mut Marks,
    by: MemberId,
    job: JobNo,
    index: OutNo,
    at: u32,
) -> Reply
    ensures plays { Plays tables.old tables.new (λ Q. mark_row Q by job index at) result }
    ensures refused { IfRefused result (tables.new ≡ tables.old) }
    ensures fit { AreFit tables.old → AreFit tables.new }
    ensures orders { HaveOrders tables.old → HaveOrders tables.new }
    ensures order { tables.new.order ≡ tables.old.order }
    ensures touches { AreFit tables.old → Touches marks.old.pages marks.new.pages tables.old tables.new }
{
    let Some(found) = output_at(tables, job, index) else {
        return Reply::No(Refusal::NoOutput);
    };
    if found.item.busy.0 != by.0 {
        return Reply::No(Refusal::InUse(found.item.busy));
    }
    let mark = at.min(total(&found.item));
    put_output(tables, marks, found.at, marked(&found.item, mark));
    Reply::Count(mark)
}

/// Back: the printer of the member is set back.
pub fn back(tables: &mut Tables, marks: &mut Marks, by: MemberId, lines: u32) -> Reply
    ensures plays { Plays tables.old tables.new (λ Q. back_row Q by lines) result }
    ensures refused { IfRefused result (tables.new ≡ tables.old) }
    ensures fit { AreFit tables.old → AreFit tables.new }
    ensures orders { HaveOrders tables.old → HaveOrders tables.new }
    ensures order { tables.new.order ≡ tables.old.order }
    ensures touches { AreFit tables.old → Touches marks.old.pages marks.new.pages tables.old tables.new }
{
    let Some(found) = printing_at(tables, by) else {
        return Reply::No(Refusal::Nothing);
    };
    let mark = backspace(found.item.mark, lines);
    put_output(tables, marks, found.at, marked(&found.item, mark));
    Reply::Count(mark)
}

/// Forward: the printer of the member is set forward.
pub fn set_forward(tables: &mut Tables, marks: &mut Marks, by: MemberId, lines: u32) -> Reply
    ensures plays { Plays tables.old tables.new (λ Q. forward_row Q by lines) result }
    ensures refused { IfRefused result (tables.new ≡ tables.old) }
    ensures fit { AreFit tables.old → AreFit tables.new }
    ensures orders { HaveOrders tables.old → HaveOrders tables.new }
    ensures order { tables.new.order ≡ tables.old.order }
    ensures touches { AreFit tables.old → Touches marks.old.pages marks.new.pages tables.old tables.new }
{
    let Some(found) = printing_at(tables, by) else {
        return Reply::No(Refusal::Nothing);
    };
    let mark = forward(found.item.mark, lines, total(&found.item));
    put_output(tables, marks, found.at, marked(&found.item, mark));
    Reply::Count(mark)
}

fn phase_over(tables: &Tables, job: &JobRec) -> Phase
    ensures { (Q : Queue) → Tell tables.now Q
        → result ≡ (if in_hardcopy job.now.phase && not (has_output_lem job.now.number Q) then Phase.Purge else
        job.now.phase) }
{
    if matches!(job.phase, Phase::Hardcopy) && !has_output(tables.outputs.as_slice(), job.number) {
        Phase::Purge
    } else {
        job.phase
    }
}

/// A job in Hardcopy that has no output any more goes to Purge.
fn close_job(tables: &mut Tables, marks: &mut Marks, job: JobNo)
    ensures stands { (Q : Queue) → Tell tables.old Q → Tell tables.new (with_job_over job Q) }
    ensures fit { AreFit tables.old → AreFit tables.new }
    ensures orders { HaveOrders tables.old → HaveOrders tables.new }
    ensures order { tables.new.order ≡ tables.old.order }
    ensures touches { AreFit tables.old → Touches marks.old.pages marks.new.pages tables.old tables.new }
{
    let Some(found) = job_at(tables, job) else {
        return;
    };
    let phase = phase_over(tables, &found.item);
    put_job(tables, marks, found.at, in_phase_of(&found.item, phase));
}

/// The output goes, its groups become free, and its job goes to Purge where it was the last one.
fn remove_output(
    tables: &mut Tables,
    marks: &mut Marks,
    found: &Found<OutRec>,
    job: JobNo,
    index: OutNo,
)
    requires { slice_get tables.old.outputs found.now.at ≡ Some (Some found.now.item) }
    ensures stands { (Q : Queue) → Tell tables.old Q
        → HasOutput (has_key job index) tables.old.outputs Q.outputs found.now.at found.now.item
        → Tell tables.new (output_gone job index Q) }
    ensures fit { AreFit tables.old → AreFit tables.new }
    ensures orders { HaveOrders tables.old → HaveOrders tables.new }
    ensures order { tables.new.order ≡ tables.old.order }
    ensures touches { AreFit tables.old → Touches marks.old.pages marks.new.pages tables.old tables.new }
{
    take_output(tables, marks, found.at);
    free_groups(tables, marks, Thing::Output(job, index));
    close_job(tables, marks, job);
}

/// Done: the output, all of which is printed, goes.
pub fn finish(
    tables: &mut Tables,
    marks: &mut Marks,
    by: MemberId,
    job: JobNo,
    index: OutNo,
) -> Reply
    ensures plays { Plays tables.old tables.new (λ Q. done_row Q by job index) result }
    ensures refused { IfRefused result (tables.new ≡ tables.old) }
    ensures fit { AreFit tables.old → AreFit tables.new }
    ensures orders { HaveOrders tables.old → HaveOrders tables.new }
    ensures order { tables.new.order ≡ tables.old.order }
    ensures touches { AreFit tables.old → Touches marks.old.pages marks.new.pages tables.old tables.new }
{
    let Some(found) = output_at(tables, job, index) else {
        return Reply::No(Refusal::NoOutput);
    };
    if found.item.busy.0 != by.0 {
        return Reply::No(Refusal::InUse(found.item.busy));
    }
    if found.item.mark < total(&found.item) {
        return Reply::No(Refusal::Nothing);
    }
    remove_output(tables, marks, &found, job, index);
    Reply::Output(job, index)
}

/// Whether the output is busy at another than the member.
pub fn is_elsewhere(busy: MemberId, by: MemberId) -> bool
    ensures { result ≡ (is_somebody busy && not (same_member busy by)) }
{
    busy.0 != 0 && busy.0 != by.0
}

/// CancelOut: the output goes, printed or not.
pub fn cancel_out(
    tables: &mut Tables,
    marks: &mut Marks,
    by: MemberId,
    job: JobNo,
    index: OutNo,
) -> Reply
    ensures plays { Plays tables.old tables.new (λ Q. cancel_out_row Q by job index) result }
    ensures refused { IfRefused result (tables.new ≡ tables.old) }
    ensures fit { AreFit tables.old → AreFit tables.new }
    ensures orders { HaveOrders tables.old → HaveOrders tables.new }
    ensures order { tables.new.order ≡ tables.old.order }
    ensures touches { AreFit tables.old → Touches marks.old.pages marks.new.pages tables.old tables.new }
{
    let Some(found) = output_at(tables, job, index) else {
        return Reply::No(Refusal::NoOutput);
    };
    if is_elsewhere(found.item.busy, by) {
        return Reply::No(Refusal::InUse(found.item.busy));
    }
    remove_output(tables, marks, &found, job, index);
    Reply::Output(job, index)
}
