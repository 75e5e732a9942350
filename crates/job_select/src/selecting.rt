//! What an index selects: the answers of walks over all slots.
ghost use Rattle.std.specs.Prelude.{◌≡◌, ◌≤◌, Some, is_some, option_map};
ghost use Rattle.mas_types.specs.declared.queues.Queue.{Queue};
ghost use Rattle.mas_types.specs.Limits.{members_most};
ghost use Rattle.mas_types.specs.Queue.{setting_of, first_in, in_convert, in_execute, in_output, in_purge, printing_at};
ghost use Rattle.mas_types.specs.Units.{working_at};
ghost use Rattle.mas_types.specs.Selection.{for_convert as for_convert_lem, for_printer};
ghost use Rattle.output_queue.specs.Outputs.{rec_of, unordered};
ghost use Rattle.job_select.specs.Indexes.{StandsFor, for_classes};

use crate::finding::{
    any_for_convert, any_for_exec, any_for_printer, converted_by, for_convert, for_exec,
    for_gather, for_printer_of, for_purge, printed_by, run_by,
};
use crate::index::Index;
use lay_bytes::OutRec;
use mas_types::{Class, JobNo, List, MemberId, OutNo, Setting};

impl Index {
    /// The job selected for conversion; none exactly where none is selected.
    pub fn convert(&self) -> Option<JobNo>
        ensures { (Q : Queue) → StandsFor self.now Q
            → result ≡ option_map (λ j. j.number) (for_convert_lem Q) }
    {
        match for_convert(self.jobs.as_slice(), &self.job_chains) {
            Some(found) => Some(found.item.number),
            None => None,
        }
    }

    /// The job selected for execution by initiators of these classes; none exactly where none is
    /// selected.
    pub fn exec(&self, classes: &List<Class>) -> Option<JobNo>
        ensures { (Q : Queue) → StandsFor self.now Q
            → result ≡ option_map (λ j. j.number) (for_classes classes.now Q) }
    {
        match for_exec(self.jobs.as_slice(), &self.job_chains, classes) {
            Some(found) => Some(found.item.number),
            None => None,
        }
    }

    /// The output selected for a member's printer by the member's setting; none exactly where none
    /// is selected. The member is one of at most eight.
    pub fn output(&self, by: MemberId, setting: &Setting) -> Option<(JobNo, OutNo)>
        requires { by.0 ≤ members_most }
        ensures { (Q : Queue) → StandsFor self.now Q → setting_of Q by ≡ Some setting.now
            → result ≡ option_map (λ o. (o.job, o.index)) (for_printer Q by) }
    {
        let found = for_printer_of(
            self.outputs.as_slice(),
            &self.output_chains,
            self.jobs.as_slice(),
            &self.numbers,
            by,
            setting,
        );
        match found {
            Some(found) => Some((found.item.job, found.item.index)),
            None => None,
        }
    }

    /// Whether a job is selected for conversion.
    pub fn any_convert(&self) -> bool
        ensures { (Q : Queue) → StandsFor self.now Q → result ≡ is_some (for_convert_lem Q) }
    {
        any_for_convert(self.jobs.as_slice(), &self.job_chains)
    }

    /// Whether a job is selected for execution by initiators of these classes.
    pub fn any_exec(&self, classes: &List<Class>) -> bool
        ensures { (Q : Queue) → StandsFor self.now Q
            → result ≡ is_some (for_classes classes.now Q) }
    {
        any_for_exec(self.jobs.as_slice(), &self.job_chains, classes)
    }

    /// Whether an output is selected for a member's printer by the member's setting. The member is
    /// one of at most eight.
    pub fn any_output(&self, by: MemberId, setting: &Setting) -> bool
        requires { by.0 ≤ members_most }
        ensures { (Q : Queue) → StandsFor self.now Q → setting_of Q by ≡ Some setting.now
            → result ≡ is_some (for_printer Q by) }
    {
        any_for_printer(
            self.outputs.as_slice(),
            &self.output_chains,
            self.jobs.as_slice(),
            &self.numbers,
            by,
            setting,
        )
    }

    /// The first job that is to be purged; none exactly where none is.
    pub fn purge(&self) -> Option<JobNo>
        ensures { (Q : Queue) → StandsFor self.now Q
            → result ≡ option_map (λ j. j.number) (first_in in_purge Q) }
    {
        match for_purge(self.jobs.as_slice(), &self.job_chains) {
            Some(found) => Some(found.item.number),
            None => None,
        }
    }

    /// The first job whose outputs wait to be handed to the printers; none exactly where none is.
    pub fn gather(&self) -> Option<JobNo>
        ensures { (Q : Queue) → StandsFor self.now Q
            → result ≡ option_map (λ j. j.number) (first_in in_output Q) }
    {
        match for_gather(self.jobs.as_slice(), &self.job_chains) {
            Some(found) => Some(found.item.number),
            None => None,
        }
    }

    /// The first job that the member converts; none exactly where it converts none, as nobody does.
    pub fn converting(&self, by: MemberId) -> Option<JobNo>
        ensures { (Q : Queue) → StandsFor self.now Q
            → result ≡ option_map (λ j. j.number) (working_at Q by in_convert) }
    {
        if by.0 == 0 {
            return None;
        }
        match converted_by(self.jobs.as_slice(), &self.job_chains, by) {
            Some(found) => Some(found.item.number),
            None => None,
        }
    }

    /// The first job that the member runs; none exactly where it runs none, as nobody does.
    pub fn running(&self, by: MemberId) -> Option<JobNo>
        ensures { (Q : Queue) → StandsFor self.now Q
            → result ≡ option_map (λ j. j.number) (working_at Q by in_execute) }
    {
        if by.0 == 0 {
            return None;
        }
        match run_by(self.jobs.as_slice(), &self.job_chains, by) {
            Some(found) => Some(found.item.number),
            None => None,
        }
    }

    /// The record, without its order, of the output that the member prints; none exactly where it
    /// prints none, as nobody does.
    pub fn printing(&self, by: MemberId) -> Option<OutRec>
        ensures { (Q : Queue) → StandsFor self.now Q
            → option_map unordered result ≡ option_map rec_of (printing_at Q by) }
    {
        if by.0 == 0 {
            return None;
        }
        match printed_by(self.outputs.as_slice(), &self.output_chains, by) {
            Some(found) => Some(found.item),
            None => None,
        }
    }
}
