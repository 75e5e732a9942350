//! Which outputs the rows of the table speak of, and what becomes of them.
ghost use Rattle.std.specs.Prelude.{◌≡◌, ◌&&◌, ◌||◌, ◌≤◌, not, false, find, option_copied};
ghost use Rattle.std.specs.List.{list_any};
ghost use Rattle.std.specs.Option.{option_map_or};
ghost use Rattle.mas_types.specs.Limits.{members_most, text_lines_most};
ghost use Rattle.mas_types.specs.Lists.{change_first as change_first_lem};
ghost use Rattle.mas_types.specs.Ids.{is_somebody as is_somebody_lem, same_member as same_member_lem, same_name as same_name_lem, nobody};
ghost use Rattle.mas_types.specs.Names.{member_name as member_name_lem, local_name};
ghost use Rattle.mas_types.specs.Queue.{has_key, in_hardcopy, is_in, is_of, line_count as line_count_lem, printing_at as printing_at_lem, prints_at, total as total_lem, job_at as job_at_lem, setting_of as setting_of_lem};
ghost use Rattle.mas_types.specs.Selection.{job_prio, of_class, output_prio as output_prio_lem, may_print, has_forms_of};
ghost use Rattle.mas_types.specs.Commands.Operator.{is_held_of, released};
ghost use Rattle.mas_types.specs.Commands.Printing.{picked_by, marked};
ghost use Rattle.mas_types.specs.Reset.{reset_output};

use crate::conditions::{
    is_elsewhere, is_hardcopy, is_somebody, same_class, same_index, same_member, same_name,
    same_number,
};
use crate::jobs::job_at;
use crate::picking::{Changes, Classed, Picks, Ranks, change_first, first, is_any};
use mas_types::{
    Class, JobNo, List, MemberId, Name8, OutNo, Output, Queue, Setting, Text, member_name,
};

/// The output with a job's number and an index.
#[derive(Clone, Copy)]
pub struct Keyed {
    /// The job's number.
    pub job: JobNo,
    /// The index.
    pub index: OutNo,
}

impl Picks<Output> for Keyed {
    ghost picks = { λ s o. has_key s.job s.index o };

    fn picks(&self, item: &Output) -> bool {
        same_number(item.job, self.job) && same_index(item.index, self.index)
    }
}

/// The outputs of a job.
#[derive(Clone, Copy)]
pub struct OfJob(pub JobNo);

impl Picks<Output> for OfJob {
    ghost picks = { λ s o. is_of s.0 o };

    fn picks(&self, item: &Output) -> bool {
        same_number(item.job, self.0)
    }
}

/// The held outputs of a job.
#[derive(Clone, Copy)]
pub struct HeldOf(pub JobNo);

impl Picks<Output> for HeldOf {
    ghost picks = { λ s o. is_held_of s.0 o };

    fn picks(&self, item: &Output) -> bool {
        same_number(item.job, self.0) && item.held
    }
}

/// The outputs of a job that are busy at another than the member.
#[derive(Clone, Copy)]
pub struct Elsewhere {
    /// The job.
    pub job: JobNo,
    /// The member.
    pub by: MemberId,
}

impl Picks<Output> for Elsewhere {
    ghost picks = { λ s o. is_of s.job o && is_somebody_lem o.busy && not (same_member_lem o.busy s.by) };

    fn picks(&self, item: &Output) -> bool {
        same_number(item.job, self.job)
            && is_somebody(item.busy)
            && !same_member(item.busy, self.by)
    }
}

/// The outputs that are busy at a member.
#[derive(Clone, Copy)]
pub struct PrintingAt(pub MemberId);

impl Picks<Output> for PrintingAt {
    ghost picks = { λ s o. prints_at s.0 o };

    fn picks(&self, item: &Output) -> bool {
        same_member(item.busy, self.0)
    }
}

/// What an output's destination is where any printer may take it.
const LOCAL: Name8 = Name8(*b"LOCAL   ");

/// The outputs that a member's printer may take.
#[derive(Clone, Copy)]
pub struct ForPrinter<'a> {
    /// The queue.
    pub queue: &'a Queue,
    /// The member.
    pub by: MemberId,
    ghost small: { by.0 ≤ members_most },
}

impl<'a> Picks<Output> for ForPrinter<'a> {
    ghost picks = { λ s o. may_print s.queue.now s.by o };

    fn picks(&self, item: &Output) -> bool {
        !item.held
            && !is_somebody(item.busy)
            && is_job_in_hardcopy(self.queue, item.job)
            && has_forms(self.queue, self.by, item)
            && goes_to(item, self.by)
    }
}

impl<'a> Ranks<Output> for ForPrinter<'a> {
    ghost rank = { λ s o. output_prio_lem s.queue.now o };

    fn rank(&self, item: &Output) -> u8 {
        output_prio(self.queue, item)
    }
}

impl<'a> Classed<Output> for ForPrinter<'a> {
    ghost has_class = { λ s c o. of_class c o };

    fn has_class(&self, class: Class, item: &Output) -> bool {
        same_class(item.class, class)
    }
}

fn is_job_in_hardcopy(queue: &Queue, job: JobNo) -> bool
    ensures { result ≡ option_map_or (is_in in_hardcopy) (job_at_lem queue.now job) false }
{
    match job_at(&queue.jobs, job) {
        Some(job) => is_hardcopy(job.phase),
        None => false,
    }
}

fn output_prio(queue: &Queue, output: &Output) -> u8
    ensures { result ≡ output_prio_lem queue.now output.now }
{
    match job_at(&queue.jobs, output.job) {
        Some(job) => job.fields.prio.0,
        None => 0,
    }
}

/// The setting of a member; none of nobody, and of a member that isn't there.
pub fn setting_of(queue: &Queue, by: MemberId) -> Option<&Setting>
    ensures { setting_of_lem queue.now by ≡ option_copied result }
{
    if by.0 == 0 {
        return None;
    }
    queue.members.as_slice().get(by.0 as usize - 1)
}

fn has_forms(queue: &Queue, by: MemberId, output: &Output) -> bool
    ensures { result ≡ has_forms_of queue.now by output.now }
{
    match setting_of(queue, by) {
        Some(setting) => same_name(&output.forms, &setting.forms),
        None => false,
    }
}

fn goes_to(output: &Output, by: MemberId) -> bool
    requires { by.0 ≤ members_most }
    ensures { result ≡ (same_name_lem output.now.dest local_name || same_name_lem output.now.dest
        (member_name_lem by)) }
{
    same_name(&output.dest, &LOCAL) || same_name(&output.dest, &member_name(by))
}

/// The output becomes busy at a member's printer.
#[derive(Clone, Copy)]
pub struct PickedBy(pub MemberId);

impl Changes<Output> for PickedBy {
    ghost changed = { λ s o. picked_by s.0 o };

    fn change(&self, item: &mut Output) {
        item.busy = self.0;
    }
}

/// The output is held no longer.
#[derive(Clone, Copy)]
pub struct IsReleased;

impl Changes<Output> for IsReleased {
    ghost changed = { λ s o. released o };

    fn change(&self, item: &mut Output) {
        item.held = false;
    }
}

/// The output has another class.
#[derive(Clone, Copy)]
pub struct IsOfClass(pub Class);

impl Changes<Output> for IsOfClass {
    ghost changed = { λ s o. record o { class = s.0 } };

    fn change(&self, item: &mut Output) {
        item.class = self.0;
    }
}

/// The member at which the output is busy is reset.
#[derive(Clone, Copy)]
pub struct IsFreed;

impl Changes<Output> for IsFreed {
    ghost changed = { λ s o. reset_output o };

    fn change(&self, item: &mut Output) {
        item.busy = MemberId(0);
    }
}

/// The outputs that are busy at a member that is picked.
#[derive(Clone, Copy)]
pub struct BusyOutputs<'a, P> {
    /// The members.
    pub members: &'a P,
}

impl<'a, P: Picks<MemberId>> Picks<Output> for BusyOutputs<'a, P> {
    ghost picks = { λ s o. P.picks s.members.now o.busy };

    fn picks(&self, item: &Output) -> bool {
        self.members.picks(&item.busy)
    }
}

/// The output with a job's number and an index.
pub fn output_at(outputs: &List<Output>, job: JobNo, index: OutNo) -> Option<&Output>
    ensures { option_copied result ≡ find (has_key job index) outputs.now }
{
    first(outputs, &Keyed { job, index })
}

/// The output that is busy at a member. There is none at nobody.
pub fn printing_at(queue: &Queue, by: MemberId) -> Option<&Output>
    ensures { option_copied result ≡ printing_at_lem queue.now by }
{
    if by.0 == 0 {
        return None;
    }
    first(&queue.outputs, &PrintingAt(by))
}

/// Whether the job has an output.
pub fn has_output(outputs: &List<Output>, job: JobNo) -> bool
    ensures { result ≡ list_any (is_of job) outputs.now }
{
    is_any(outputs, &OfJob(job))
}

/// The output with a job's number and an index is changed.
pub fn change_output<F: Changes<Output>>(
    outputs: &mut List<Output>,
    job: JobNo,
    index: OutNo,
    change: &F,
)
    ensures { outputs.new ≡ change_first_lem (has_key job index) (F.changed change.now) outputs.old }
{
    change_first(outputs, &Keyed { job, index }, change);
}

fn line_count(text: &Text) -> u32
    requires { line_count_lem text.now ≤ text_lines_most }
    ensures value { result ≡ line_count_lem text.now }
    ensures few { result ≤ 9999 }
{
    match text {
        Text::Whole(lines) => lines.len() as u32,
        Text::Gone(_, count) => *count as u32,
    }
}

/// How many lines the output prints, where its text has at most 9,999.
pub fn total(output: &Output) -> u32
    requires { line_count_lem output.now.text ≤ text_lines_most }
    ensures { result ≡ total_lem output.now }
{
    line_count(&output.text) * output.copies as u32
}
