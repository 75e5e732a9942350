//! The output that a printer takes next.
ghost use Rattle.std.specs.Prelude.{◌≡◌, ◌≤◌, IfSome, IfNone, None, Some, find, option_map, slice_get};
ghost use Rattle.mas_types.specs.declared.queues.Queue.{Queue};
ghost use Rattle.mas_types.specs.Limits.{members_most};
ghost use Rattle.mas_types.specs.Queue.{setting_of};
ghost use Rattle.mas_types.specs.Selection.{is_for_printer, for_printer};
ghost use Rattle.job_queue.specs.Jobs.{AreJobs};
ghost use Rattle.output_queue.specs.Outputs.{AreOutputs, HasOutput};

use crate::kinds::ForPrinter;
use job_queue::by_number;
use lay_bytes::{JobRec, OutRec};
use mas_types::{JobNo, MemberId, OutNo, Setting, member_name};
use queue_slots::{Found, best_slot_by_class};

/// The slot of the output selected for a member's printer, by the member's setting: of those that it may take, of those
/// of the first class that any of them has, of those of which the jobs have the greatest priority, the first; none
/// exactly where none is selected. The member is one of at most eight.
pub fn find_for_printer(
    outputs: &[Option<OutRec>],
    jobs: &[Option<JobRec>],
    by: MemberId,
    setting: &Setting,
) -> Option<Found<OutRec>>
    requires { by.0 ≤ members_most }
    ensures here { IfSome result (λ f. slice_get outputs.now f.at ≡ Some (Some f.item)) }
    ensures some { IfSome result (λ f. (Q : Queue) → AreJobs jobs.now Q.jobs → AreOutputs outputs.now Q.outputs
        → setting_of Q by ≡ Some setting.now → HasOutput (is_for_printer Q by) outputs.now Q.outputs f.at f.item) }
    ensures none { IfNone result ((Q : Queue) → AreJobs jobs.now Q.jobs → AreOutputs outputs.now Q.outputs
        → setting_of Q by ≡ Some setting.now → for_printer Q by ≡ None) }
{
    let test = ForPrinter {
        jobs: by_number(jobs),
        by,
        name: member_name(by),
        forms: setting.forms,
    };
    best_slot_by_class(outputs, &setting.prt, &test)
}

/// The output selected for a member's printer; none exactly where none is selected. The member is one of at most eight.
pub fn select(
    outputs: &[Option<OutRec>],
    jobs: &[Option<JobRec>],
    by: MemberId,
    setting: &Setting,
) -> Option<(JobNo, OutNo)>
    requires { by.0 ≤ members_most }
    ensures { (Q : Queue) → AreJobs jobs.now Q.jobs → AreOutputs outputs.now Q.outputs
        → setting_of Q by ≡ Some setting.now → result ≡ option_map (λ o. (o.job, o.index)) (for_printer Q by) }
{
    match find_for_printer(outputs, jobs, by, setting) {
        Some(found) => Some((found.item.job, found.item.index)),
        None => None,
    }
}
