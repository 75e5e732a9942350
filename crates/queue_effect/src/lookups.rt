//! What the tables have of jobs, outputs, members and lines, and writing of slots.
ghost use Rattle.std.specs.Prelude.{◌≡◌, ◌<◌, ◌&&◌, IfSome, IfNone, None, Some, length, slice_get, slice_set, option_copied, true};
ghost use Rattle.std.specs.List.{list_any};
ghost use Rattle.mas_types.specs.declared.queues.Queue.{Queue};
ghost use Rattle.mas_types.specs.Ids.{same_number, is_somebody};
ghost use Rattle.mas_types.specs.Queue.{setting_of, has_number, has_key, prints_at, in_xmit, job_at as job_at_lem, output_at as output_at_lem, wire_at};
ghost use Rattle.mas_types.specs.Queue.{printing_at as printing_at_lem};
ghost use Rattle.job_queue.specs.Jobs.{HasJob};
ghost use Rattle.output_queue.specs.Outputs.{HasOutput};
ghost use Rattle.queue_telling.specs.Orders.{HaveOrders};
ghost use Rattle.queue_telling.specs.Telling.{Tell};
ghost use Rattle.queue_effect.specs.Standing.{AreFit, IsFitJob, IsFitOutput};
ghost use Rattle.page_marks.specs.Marks.{Touches};

use ckpt_tables::Tables;
use job_queue::find_job;
use lay_bytes::{JobRec, OutRec};
use mas_types::{JobNo, LineCount, MemberId, OutNo, Phase, Setting};
use output_queue::{find_output, find_printing};
use page_marks::Marks;
use queue_slots::Found;

/// The setting of a member; none of nobody, and of a member that isn't there.
pub fn setting(tables: &Tables, by: MemberId) -> Option<&Setting>
    ensures { (Q : Queue) → Tell tables.now Q → setting_of Q by ≡ option_copied result }
{
    if by.0 == 0 {
        return None;
    }
    tables.members.as_slice().get(by.0 as usize - 1)
}

/// What went over a line; none of a line that isn't there.
pub fn wire(tables: &Tables, line: u8) -> Option<LineCount>
    ensures { (Q : Queue) → Tell tables.now Q → wire_at Q line ≡ result }
{
    if line == 0 {
        return None;
    }
    tables.lines.as_slice().get(line as usize - 1).copied()
}

/// The job with a number.
pub fn job_at(tables: &Tables, job: JobNo) -> Option<Found<JobRec>>
    ensures here { IfSome result (λ f. slice_get tables.now.jobs f.at ≡ Some (Some f.item)) }
    ensures some { IfSome result (λ f. (Q : Queue) → Tell tables.now Q
        → HasJob (has_number job) tables.now.jobs Q.jobs f.at f.item) }
    ensures none { IfNone result ((Q : Queue) → Tell tables.now Q → job_at_lem Q job ≡ None) }
{
    find_job(tables.jobs.as_slice(), job)
}

/// The output of a job with an index.
pub fn output_at(tables: &Tables, job: JobNo, index: OutNo) -> Option<Found<OutRec>>
    ensures here { IfSome result (λ f. slice_get tables.now.outputs f.at ≡ Some (Some f.item)) }
    ensures some { IfSome result (λ f. (Q : Queue) → Tell tables.now Q
        → HasOutput (has_key job index) tables.now.outputs Q.outputs f.at f.item) }
    ensures none { IfNone result ((Q : Queue) → Tell tables.now Q → output_at_lem Q job index ≡ None) }
{
    find_output(tables.outputs.as_slice(), job, index)
}

/// The output that is busy at a member; none at nobody.
pub fn printing_at(tables: &Tables, by: MemberId) -> Option<Found<OutRec>>
    ensures here { IfSome result (λ f. slice_get tables.now.outputs f.at ≡ Some (Some f.item)) }
    ensures some { IfSome result (λ f. (Q : Queue) → Tell tables.now Q
        → HasOutput (prints_at by) tables.now.outputs Q.outputs f.at f.item) }
    ensures somebody { IfSome result (λ f. is_somebody by ≡ true) }
    ensures none { IfNone result ((Q : Queue) → Tell tables.now Q → printing_at_lem Q by ≡ None) }
{
    if by.0 == 0 {
        return None;
    }
    find_printing(tables.outputs.as_slice(), by)
}

fn is_sent(counts: &[LineCount], job: JobNo) -> bool
    ensures { result ≡ list_any (λ count. same_number count.current job) counts.now }
{
    counts.iter().any(|count| count.current.0 == job.0)
}

/// Whether a line sends the job.
pub fn is_current(counts: &[LineCount], job: &JobRec) -> bool
    ensures { result ≡ (in_xmit job.now.phase && list_any (λ count. same_number count.current job.now.number)
        counts.now) }
{
    matches!(job.phase, Phase::Xmit) && is_sent(counts, job.number)
}

/// Writes the slot of a job.
pub fn put_job(tables: &mut Tables, marks: &mut Marks, at: usize, job: JobRec)
    requires { at < length tables.old.jobs }
    ensures value { tables.new ≡ record tables.old { jobs = slice_set tables.old.jobs at (Some job) } }
    ensures fit { (x : JobRec) → slice_get tables.old.jobs at ≡ Some (Some x)
        → (IsFitJob tables.old.order x → IsFitJob tables.old.order job) → AreFit tables.old → AreFit tables.new }
    ensures orders { (x : JobRec) → slice_get tables.old.jobs at ≡ Some (Some x) → job.order ≡ x.order
        → HaveOrders tables.old → HaveOrders tables.new }
    ensures touches { AreFit tables.old → Touches marks.old.pages marks.new.pages tables.old tables.new }
{
    marks.put_job(at);
    *tables.jobs.item_mut(at) = Some(job);
}

/// Empties the slot of a job.
pub fn take_job(tables: &mut Tables, marks: &mut Marks, at: usize)
    requires { at < length tables.old.jobs }
    ensures value { tables.new ≡ record tables.old { jobs = slice_set tables.old.jobs at None } }
    ensures fit { AreFit tables.old → AreFit tables.new }
    ensures orders { HaveOrders tables.old → HaveOrders tables.new }
    ensures touches { AreFit tables.old → Touches marks.old.pages marks.new.pages tables.old tables.new }
{
    marks.put_job(at);
    *tables.jobs.item_mut(at) = None;
}

/// Writes the slot of an output.
pub fn put_output(tables: &mut Tables, marks: &mut Marks, at: usize, output: OutRec)
    requires { at < length tables.old.outputs }
    ensures value { tables.new ≡ record tables.old { outputs = slice_set tables.old.outputs at (Some output) } }
    ensures fit { (x : OutRec) → slice_get tables.old.outputs at ≡ Some (Some x)
        → (IsFitOutput tables.old.order x → IsFitOutput tables.old.order output) → AreFit tables.old
        → AreFit tables.new }
    ensures orders { (x : OutRec) → slice_get tables.old.outputs at ≡ Some (Some x) → output.order ≡ x.order
        → HaveOrders tables.old → HaveOrders tables.new }
    ensures touches { AreFit tables.old → Touches marks.old.pages marks.new.pages tables.old tables.new }
{
    marks.put_output(&tables.config, at);
    *tables.outputs.item_mut(at) = Some(output);
}

/// Empties the slot of an output.
pub fn take_output(tables: &mut Tables, marks: &mut Marks, at: usize)
    requires { at < length tables.old.outputs }
    ensures value { tables.new ≡ record tables.old { outputs = slice_set tables.old.outputs at None } }
    ensures fit { AreFit tables.old → AreFit tables.new }
    ensures orders { HaveOrders tables.old → HaveOrders tables.new }
    ensures touches { AreFit tables.old → Touches marks.old.pages marks.new.pages tables.old tables.new }
{
    marks.put_output(&tables.config, at);
    *tables.outputs.item_mut(at) = None;
}
