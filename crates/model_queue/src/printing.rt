//! How outputs are printed: Pick, Mark, Done, Back and Forward.
ghost use Rattle.std.specs.Prelude.{◌≡◌, ◌&&◌, ◌≤◌, ◌<◌, ◌+◌, ◌-◌, min, not, length, IfSome, IfNone, Some, None, if◌then◌else◌, slice_get, slice_set, ◌∷◌, []};
ghost use Rattle.std.specs.List.{list_any};
ghost use Rattle.mas_types.specs.declared.jobs.Output.{Output};
ghost use Rattle.mas_types.specs.declared.jobs.Phase.TheVariants as phase;
ghost use Rattle.mas_types.specs.Limits.{members_most, text_lines_most};
ghost use Rattle.mas_types.specs.Queue.{has_key, in_hardcopy, is_of, line_count, output_at as output_at_lem, prints_at, printing_at as printing_at_lem, total as total_lem};
ghost use Rattle.mas_types.specs.Lists.{first_some};
ghost use Rattle.mas_types.specs.Selection.{for_printer, is_for_printer};
ghost use Rattle.mas_types.specs.Sound.{IsSound};
ghost use Rattle.mas_types.specs.Row.{ComesTo, none_such, output_not_at as output_not_at_lem};
ghost use Rattle.mas_types.specs.Commands.Printing.{back_row, done_row, forward_row, in_use, mark_row, not_printed as not_printed_lem, output_gone, pick_row};
ghost use Rattle.model_queue.specs.Places.{StandsAt};

use crate::conditions::is_hardcopy;
use crate::groups::{OutputGroups, free_groups};
use crate::jobs::change_job;
use crate::outputs::{
    ForPrinter, Keyed, PrintingAt, has_output, output_at, printing_at, setting_of, total,
};
use crate::picking::{Changes, best_place_by_class, first_place, remove_first};
use crate::refusing::output_not_at;
use mas_types::{Job, JobNo, List, MemberId, OutNo, Output, Phase, Queue, Refusal, Reply};

fn place_for_printer(queue: &Queue, by: MemberId) -> Option<usize>
    requires { by.0 ≤ members_most }
    ensures some { IfSome result (λ at. StandsAt (is_for_printer queue.now by) queue.now.outputs at) }
    ensures none { IfNone result (for_printer queue.now by ≡ None) }
{
    match setting_of(queue, by) {
        Some(setting) => {
            best_place_by_class(&queue.outputs, &setting.prt, &ForPrinter { queue, by })
        }
        None => None,
    }
}

fn printing_already(queue: &Queue, by: MemberId) -> Option<Refusal>
    ensures { result ≡ in_use by (printing_at_lem queue.now by) }
{
    match printing_at(queue, by) {
        Some(_) => Some(Refusal::InUse(by)),
        None => None,
    }
}

/// Pick: the output selected for the member's printer becomes busy at the member.
pub fn pick(queue: &mut Queue, by: MemberId) -> Reply
    requires { by.0 ≤ members_most }
    ensures { ComesTo queue.old (pick_row queue.old by) queue.new result }
{
    if let Some(why) = printing_already(queue, by) {
        return Reply::No(why);
    }
    let Some(at) = place_for_printer(queue, by) else {
        return Reply::No(Refusal::Nothing);
    };
    let output = queue.outputs.item_mut(at);
    output.busy = by;
    Reply::Output(output.job, output.index)
}

/// An output gets a mark.
fn put_mark(outputs: &mut List<Output>, at: usize, mark: u32)
    requires { at < length outputs.old }
    ensures { (o : Output) → slice_get outputs.old at ≡ Some o
        → outputs.new ≡ slice_set outputs.old at (record o { mark = mark }) }
{
    outputs.item_mut(at).mark = mark;
}

fn marked_at(output: &Output, at: u32) -> u32
    requires { line_count output.now.text ≤ text_lines_most }
    ensures { result ≡ min at (total_lem output.now) }
{
    at.min(total(output))
}

/// Mark: so many lines of the output are printed.
pub fn mark(queue: &mut Queue, by: MemberId, job: JobNo, index: OutNo, at: u32) -> Reply
    requires { IsSound queue.old }
    ensures { ComesTo queue.old (mark_row queue.old by job index at) queue.new result }
{
    let Some(place) = first_place(&queue.outputs, &Keyed { job, index }) else {
        return Reply::No(Refusal::NoOutput);
    };
    let found = queue.outputs.item(place);
    if let Some(why) = output_not_at(found, by) {
        return Reply::No(why);
    }
    let mark = marked_at(found, at);
    put_mark(&mut queue.outputs, place, mark);
    Reply::Count(mark)
}

/// The place of the output that is busy at a member. There is none at nobody.
fn printing_place(queue: &Queue, by: MemberId) -> Option<usize>
    ensures some { IfSome result (λ at. StandsAt (prints_at by) queue.now.outputs at) }
    ensures same { (o : Output) → IfSome result
        (λ at. slice_get queue.now.outputs at ≡ Some o → printing_at_lem queue.now by ≡ Some o) }
    ensures none { IfNone result (printing_at_lem queue.now by ≡ None) }
{
    if by.0 == 0 {
        return None;
    }
    first_place(&queue.outputs, &PrintingAt(by))
}

/// Back: the mark of the output that the member prints falls.
pub fn back(queue: &mut Queue, by: MemberId, lines: u32) -> Reply
    ensures { ComesTo queue.old (back_row queue.old by lines) queue.new result }
{
    let Some(place) = printing_place(queue, by) else {
        return Reply::No(Refusal::Nothing);
    };
    let mark = queue.outputs.item(place).mark.saturating_sub(lines);
    put_mark(&mut queue.outputs, place, mark);
    Reply::Count(mark)
}

fn forwarded(output: &Output, lines: u32) -> u32
    requires { line_count output.now.text ≤ text_lines_most }
    ensures { result ≡ min (output.now.mark + lines) (total_lem output.now) }
{
    let total = total(output);
    if (output.mark as u64 + lines as u64) < total as u64 {
        output.mark + lines
    } else {
        total
    }
}

/// Forward: the mark of the output that the member prints rises.
pub fn forward(queue: &mut Queue, by: MemberId, lines: u32) -> Reply
    requires { IsSound queue.old }
    ensures { ComesTo queue.old (forward_row queue.old by lines) queue.new result }
{
    let Some(place) = printing_place(queue, by) else {
        return Reply::No(Refusal::Nothing);
    };
    let mark = forwarded(queue.outputs.item(place), lines);
    put_mark(&mut queue.outputs, place, mark);
    Reply::Count(mark)
}

/// A job in Hardcopy that has no output goes to Purge.
#[derive(Clone, Copy)]
struct IsOver<'a> {
    outputs: &'a List<Output>,
}

impl<'a> Changes<Job> for IsOver<'a> {
    ghost changed = { λ s j. if in_hardcopy j.phase
        && not (list_any (is_of j.number) s.outputs.now) then record j { phase = phase.Purge } else j };

    fn change(&self, item: &mut Job) {
        if is_hardcopy(item.phase) && !has_output(self.outputs, item.number) {
            item.phase = Phase::Purge;
        }
    }
}

/// The output goes, and its groups become Free; a job in Hardcopy whose last output went goes to Purge.
pub fn remove_output(queue: &mut Queue, job: JobNo, index: OutNo)
    ensures { queue.new ≡ output_gone job index queue.old }
{
    remove_first(&mut queue.outputs, &Keyed { job, index });
    free_groups(&mut queue.owners, &OutputGroups { job, index });
    change_job(
        &mut queue.jobs,
        job,
        &IsOver {
            outputs: &queue.outputs,
        },
    );
}

fn not_printed(output: &Output) -> Option<Refusal>
    requires { line_count output.now.text ≤ text_lines_most }
    ensures { result ≡ not_printed_lem (Some output.now) }
{
    if output.mark < total(output) {
        Some(Refusal::Nothing)
    } else {
        None
    }
}

fn not_done_by(output: &Output, by: MemberId) -> Option<Refusal>
    requires { line_count output.now.text ≤ text_lines_most }
    ensures { result ≡ first_some (output_not_at_lem by (Some output.now) ∷ (not_printed_lem (Some output.now) ∷ [])) }
{
    match output_not_at(output, by) {
        Some(why) => Some(why),
        None => not_printed(output),
    }
}

/// Why an output isn't done: there is none, it isn't busy at the member, or it isn't printed to its end.
fn not_done(queue: &Queue, by: MemberId, job: JobNo, index: OutNo) -> Option<Refusal>
    requires { IsSound queue.now }
    ensures { result ≡ first_some (done_row queue.now by job index).refusals }
{
    match output_at(&queue.outputs, job, index) {
        Some(output) => not_done_by(output, by),
        None => Some(Refusal::NoOutput),
    }
}

/// Done: the output is printed, and goes.
pub fn done(queue: &mut Queue, by: MemberId, job: JobNo, index: OutNo) -> Reply
    requires { IsSound queue.old }
    ensures { ComesTo queue.old (done_row queue.old by job index) queue.new result }
{
    match not_done(queue, by, job, index) {
        Some(why) => Reply::No(why),
        None => {
            remove_output(queue, job, index);
            Reply::Output(job, index)
        }
    }
}
