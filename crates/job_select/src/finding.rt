//! What goes first of a chain, by the slots and their chains.
ghost use Rattle.std.specs.Prelude.{◌≡◌, ◌≤◌, ◌&&◌, ℕ, List, true, IfSome, IfNone, None, Some, find, is_some, slice_get};
ghost use Rattle.mas_types.specs.declared.jobs.Job.{Job};
ghost use Rattle.mas_types.specs.declared.jobs.Output.{Output};
ghost use Rattle.mas_types.specs.declared.queues.Queue.{Queue};
ghost use Rattle.mas_types.specs.Ids.{is_somebody};
ghost use Rattle.mas_types.specs.Limits.{members_most};
ghost use Rattle.mas_types.specs.Lists.{is_greatest_of};
ghost use Rattle.mas_types.specs.Queue.{in_convert, in_execute, in_output, in_purge, is_in, is_busy_at, prints_at, setting_of};
ghost use Rattle.mas_types.specs.Selection.{job_prio, may_convert, is_for_printer, for_printer};
ghost use Rattle.job_queue.specs.Jobs.{AreJobs, HasJob};
ghost use Rattle.output_queue.specs.Outputs.{AreOutputs, HasOutput};
ghost use Rattle.job_select.specs.Chains.{AreChains};
ghost use Rattle.job_select.specs.Kinds.{job_chain, number_chain, output_chain};
ghost use Rattle.job_select.specs.Indexes.{is_for_classes};

use crate::chains::{Chains, slots_in};
use crate::choices::{any_in, best_in, first_in};
use crate::classes::{any_by_class, best_by_class};
use crate::jobs::{
    CONVERT_CHAIN, CONVERTING_CHAINS, ConvertedBy, ENDED_CHAIN, ForConvert, ForExec, ForGather,
    ForPurge, PURGE_CHAIN, RUNNING_CHAINS, RunBy,
};
use crate::outputs::{ForPrinter, PRINTING_CHAINS, PrintedBy};
use lay_bytes::{JobRec, OutRec};
use mas_types::{Class, List, MemberId, Setting, member_name};
use queue_slots::Found;

/// The slot of the job selected for conversion.
pub fn for_convert(jobs: &[Option<JobRec>], chains: &Chains) -> Option<Found<JobRec>>
    requires { AreChains job_chain jobs.now chains.now }
    ensures here { IfSome result (λ f. slice_get jobs.now f.at ≡ Some (Some f.item)) }
    ensures some { IfSome result (λ f. (js : List Job) → AreJobs jobs.now js
        → HasJob (is_greatest_of job_prio may_convert js) jobs.now js f.at f.item) }
    ensures none { IfNone result ((js : List Job) → AreJobs jobs.now js
        → find (is_greatest_of job_prio may_convert js) js ≡ None) }
{
    best_in(jobs, slots_in(chains, CONVERT_CHAIN), &ForConvert)
}

/// The slot of the job selected for execution by initiators of these classes.
pub fn for_exec(
    jobs: &[Option<JobRec>],
    chains: &Chains,
    classes: &List<Class>,
) -> Option<Found<JobRec>>
    requires { AreChains job_chain jobs.now chains.now }
    ensures here { IfSome result (λ f. slice_get jobs.now f.at ≡ Some (Some f.item)) }
    ensures some { IfSome result (λ f. (js : List Job) → AreJobs jobs.now js
        → HasJob (is_for_classes classes.now js) jobs.now js f.at f.item) }
    ensures none { IfNone result ((js : List Job) → AreJobs jobs.now js
        → find (is_for_classes classes.now js) js ≡ None) }
{
    best_by_class(jobs, chains, classes, &ForExec)
}

/// The slot of the first job that is to be purged.
pub fn for_purge(jobs: &[Option<JobRec>], chains: &Chains) -> Option<Found<JobRec>>
    requires { AreChains job_chain jobs.now chains.now }
    ensures here { IfSome result (λ f. slice_get jobs.now f.at ≡ Some (Some f.item)) }
    ensures some { IfSome result (λ f. (js : List Job) → AreJobs jobs.now js
        → HasJob (is_in in_purge) jobs.now js f.at f.item) }
    ensures none { IfNone result ((js : List Job) → AreJobs jobs.now js
        → find (is_in in_purge) js ≡ None) }
{
    first_in(jobs, slots_in(chains, PURGE_CHAIN), &ForPurge)
}

/// The slot of the first job whose outputs wait to be handed to the printers.
pub fn for_gather(jobs: &[Option<JobRec>], chains: &Chains) -> Option<Found<JobRec>>
    requires { AreChains job_chain jobs.now chains.now }
    ensures here { IfSome result (λ f. slice_get jobs.now f.at ≡ Some (Some f.item)) }
    ensures some { IfSome result (λ f. (js : List Job) → AreJobs jobs.now js
        → HasJob (is_in in_output) jobs.now js f.at f.item) }
    ensures none { IfNone result ((js : List Job) → AreJobs jobs.now js
        → find (is_in in_output) js ≡ None) }
{
    first_in(jobs, slots_in(chains, ENDED_CHAIN), &ForGather)
}

/// The slot of the first job that the member converts.
pub fn converted_by(jobs: &[Option<JobRec>], chains: &Chains, by: MemberId) -> Option<Found<JobRec>>
    requires chained { AreChains job_chain jobs.now chains.now }
    requires member { is_somebody by ≡ true }
    ensures here { IfSome result (λ f. slice_get jobs.now f.at ≡ Some (Some f.item)) }
    ensures some { IfSome result (λ f. (js : List Job) → AreJobs jobs.now js
        → HasJob (λ j. in_convert j.phase && is_busy_at by j) jobs.now js f.at f.item) }
    ensures none { IfNone result ((js : List Job) → AreJobs jobs.now js
        → find (λ j. in_convert j.phase && is_busy_at by j) js ≡ None) }
{
    first_in(
        jobs,
        slots_in(chains, CONVERTING_CHAINS + by.0 as u32),
        &ConvertedBy(by),
    )
}

/// The slot of the first job that the member runs.
pub fn run_by(jobs: &[Option<JobRec>], chains: &Chains, by: MemberId) -> Option<Found<JobRec>>
    requires chained { AreChains job_chain jobs.now chains.now }
    requires member { is_somebody by ≡ true }
    ensures here { IfSome result (λ f. slice_get jobs.now f.at ≡ Some (Some f.item)) }
    ensures some { IfSome result (λ f. (js : List Job) → AreJobs jobs.now js
        → HasJob (λ j. in_execute j.phase && is_busy_at by j) jobs.now js f.at f.item) }
    ensures none { IfNone result ((js : List Job) → AreJobs jobs.now js
        → find (λ j. in_execute j.phase && is_busy_at by j) js ≡ None) }
{
    first_in(
        jobs,
        slots_in(chains, RUNNING_CHAINS + by.0 as u32),
        &RunBy(by),
    )
}

/// The slot of the first output that the member prints.
pub fn printed_by(
    outputs: &[Option<OutRec>],
    chains: &Chains,
    by: MemberId,
) -> Option<Found<OutRec>>
    requires chained { AreChains output_chain outputs.now chains.now }
    requires member { is_somebody by ≡ true }
    ensures here { IfSome result (λ f. slice_get outputs.now f.at ≡ Some (Some f.item)) }
    ensures some { IfSome result (λ f. (os : List Output) → AreOutputs outputs.now os
        → HasOutput (prints_at by) outputs.now os f.at f.item) }
    ensures none { IfNone result ((os : List Output) → AreOutputs outputs.now os
        → find (prints_at by) os ≡ None) }
{
    first_in(
        outputs,
        slots_in(chains, PRINTING_CHAINS + by.0 as u32),
        &PrintedBy(by),
    )
}

/// The slot of the output selected for a member's printer, by the member's setting.
pub fn for_printer_of(
    outputs: &[Option<OutRec>],
    chains: &Chains,
    jobs: &[Option<JobRec>],
    numbers: &Chains,
    by: MemberId,
    setting: &Setting,
) -> Option<Found<OutRec>>
    requires chained { AreChains output_chain outputs.now chains.now }
    requires numbered { AreChains number_chain jobs.now numbers.now }
    requires member { by.0 ≤ members_most }
    ensures here { IfSome result (λ f. slice_get outputs.now f.at ≡ Some (Some f.item)) }
    ensures some { IfSome result (λ f. (Q : Queue) → AreJobs jobs.now Q.jobs
        → AreOutputs outputs.now Q.outputs → setting_of Q by ≡ Some setting.now
        → HasOutput (is_for_printer Q by) outputs.now Q.outputs f.at f.item) }
    ensures none { IfNone result ((Q : Queue) → AreJobs jobs.now Q.jobs
        → AreOutputs outputs.now Q.outputs → setting_of Q by ≡ Some setting.now
        → for_printer Q by ≡ None) }
{
    let choice = ForPrinter {
        jobs,
        numbers,
        by,
        name: member_name(by),
        forms: setting.forms,
    };
    best_by_class(outputs, chains, &setting.prt, &choice)
}

/// Whether a job is selected for conversion.
pub fn any_for_convert(jobs: &[Option<JobRec>], chains: &Chains) -> bool
    requires { AreChains job_chain jobs.now chains.now }
    ensures { (js : List Job) → AreJobs jobs.now js
        → result ≡ is_some (find (is_greatest_of job_prio may_convert js) js) }
{
    any_in(jobs, slots_in(chains, CONVERT_CHAIN), &ForConvert)
}

/// Whether a job is selected for execution by initiators of these classes.
pub fn any_for_exec(jobs: &[Option<JobRec>], chains: &Chains, classes: &List<Class>) -> bool
    requires { AreChains job_chain jobs.now chains.now }
    ensures { (js : List Job) → AreJobs jobs.now js
        → result ≡ is_some (find (is_for_classes classes.now js) js) }
{
    any_by_class(jobs, chains, classes, &ForExec)
}

/// Whether an output is selected for a member's printer, by the member's setting.
pub fn any_for_printer(
    outputs: &[Option<OutRec>],
    chains: &Chains,
    jobs: &[Option<JobRec>],
    numbers: &Chains,
    by: MemberId,
    setting: &Setting,
) -> bool
    requires chained { AreChains output_chain outputs.now chains.now }
    requires numbered { AreChains number_chain jobs.now numbers.now }
    requires member { by.0 ≤ members_most }
    ensures { (Q : Queue) → AreJobs jobs.now Q.jobs → AreOutputs outputs.now Q.outputs
        → setting_of Q by ≡ Some setting.now → result ≡ is_some (for_printer Q by) }
{
    let choice = ForPrinter {
        jobs,
        numbers,
        by,
        name: member_name(by),
        forms: setting.forms,
    };
    any_by_class(outputs, chains, &setting.prt, &choice)
}
