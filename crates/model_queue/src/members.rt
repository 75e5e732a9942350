//! What is set of a member, and the resets.
ghost use Rattle.std.specs.Prelude.{◌≡◌, ◌-◌, not, IfOk, OnOk, OnErr, if◌then◌else◌};
ghost use Rattle.mas_types.specs.Ids.{is_somebody as is_somebody_lem, same_member as same_member_lem};
ghost use Rattle.mas_types.specs.Lists.{change as change_lem, change_at};
ghost use Rattle.mas_types.specs.Owners.{freed, is_held_by};
ghost use Rattle.mas_types.specs.Queue.{is_member as is_member_lem};
ghost use Rattle.mas_types.specs.Reset.{reset as reset_lem, reset_job, reset_output};
ghost use Rattle.mas_types.specs.Row.{ComesTo};
ghost use Rattle.mas_types.specs.Commands.Members.{reset_row, restart_row, set_init_row, set_prt_row};

use crate::conditions::{is_member, is_somebody, same_member};
use crate::groups::{HeldGroups, free_groups};
use crate::jobs::{BusyJobs, IsReset};
use crate::outputs::{BusyOutputs, IsFreed};
use crate::picking::{Picks, change_each};
use mas_types::{
    Class, Config, Copied, Job, List, MemberId, Name8, NoMemory, Output, Queue, Refusal, Reply,
    Setting,
};
use std::alloc::Global;

fn put_init(members: &mut List<Setting>, by: MemberId, classes: List<Class>)
    ensures { members.new ≡ (if is_somebody_lem by then change_at (by.0 - 1) (λ s. record s { init = classes })
        members.old else members.old) }
{
    if by.0 == 0 {
        return;
    }
    if by.0 as usize > members.len() {
        return;
    }
    members.item_mut(by.0 as usize - 1).init = classes;
}

/// SetInit: the classes of the member's initiators. After NoMemory nothing is changed.
pub fn set_init(
    alloc: Global,
    queue: &mut Queue,
    by: MemberId,
    classes: &List<Class>,
) -> Result<Reply, NoMemory>
    ensures ok { IfOk result (λ reply. ComesTo queue.old (set_init_row queue.old by classes.now) queue.new reply) }
    ensures err { OnErr result (queue.new ≡ queue.old) }
{
    let copy = classes.copy(alloc)?;
    put_init(&mut queue.members, by, copy);
    Ok(Reply::Plain)
}

fn put_prt(
    members: &mut List<Setting>,
    by: MemberId,
    classes: List<Class>,
    forms: Name8,
    lines: u16,
)
    ensures { members.new ≡ (if is_somebody_lem by then change_at (by.0 - 1)
        (λ s. record s { prt = classes; forms = forms; lines = lines }) members.old else members.old) }
{
    if by.0 == 0 {
        return;
    }
    if by.0 as usize > members.len() {
        return;
    }
    let setting = members.item_mut(by.0 as usize - 1);
    setting.prt = classes;
    setting.forms = forms;
    setting.lines = lines;
}

/// SetPrt: the classes, the forms and the lines at a time of the member's printer. After NoMemory nothing is changed.
pub fn set_prt(
    alloc: Global,
    queue: &mut Queue,
    by: MemberId,
    classes: &List<Class>,
    forms: Name8,
    lines: u16,
) -> Result<Reply, NoMemory>
    ensures ok { IfOk result (λ reply.
        ComesTo queue.old (set_prt_row queue.old by classes.now forms lines) queue.new reply) }
    ensures err { OnErr result (queue.new ≡ queue.old) }
{
    let copy = classes.copy(alloc)?;
    put_prt(&mut queue.members, by, copy, forms, lines);
    Ok(Reply::Plain)
}

/// One member.
#[derive(Clone, Copy)]
struct One(MemberId);

impl Picks<MemberId> for One {
    ghost picks = { λ s m. same_member_lem m s.0 };

    fn picks(&self, item: &MemberId) -> bool {
        same_member(*item, self.0)
    }
}

/// The members of a configuration.
#[derive(Clone, Copy)]
struct Members(Config);

impl Picks<MemberId> for Members {
    ghost picks = { λ s m. is_member_lem s.0 m };

    fn picks(&self, item: &MemberId) -> bool {
        is_member(&self.0, *item)
    }
}

fn reset_jobs<P: Picks<MemberId>>(jobs: &mut List<Job>, members: &P)
    ensures { jobs.new ≡ change_lem (λ j. P.picks members.now j.busy) reset_job jobs.old }
{
    change_each(jobs.as_mut_slice(), &BusyJobs { members }, &IsReset);
}

fn reset_outputs<P: Picks<MemberId>>(outputs: &mut List<Output>, members: &P)
    ensures { outputs.new ≡ change_lem (λ o. P.picks members.now o.busy) reset_output outputs.old }
{
    change_each(outputs.as_mut_slice(), &BusyOutputs { members }, &IsFreed);
}

/// Each member that is picked is reset.
fn reset_members<P: Picks<MemberId>>(queue: &mut Queue, members: &P)
    ensures { queue.new ≡ reset_lem (P.picks members.now) queue.old }
{
    reset_jobs(&mut queue.jobs, members);
    reset_outputs(&mut queue.outputs, members);
    free_groups(&mut queue.owners, &HeldGroups { members });
}

/// Reset: what is busy at the member becomes free of it.
pub fn reset(queue: &mut Queue, of: MemberId) -> Reply
    ensures { ComesTo queue.old (reset_row queue.old of) queue.new result }
{
    if !is_member(&queue.config, of) {
        return Reply::No(Refusal::NoMember);
    }
    reset_members(queue, &One(of));
    Reply::Plain
}

/// Restart: every member is reset.
pub fn restart(queue: &mut Queue) -> Reply
    ensures { ComesTo queue.old (restart_row queue.old) queue.new result }
{
    let members = Members(queue.config);
    reset_members(queue, &members);
    Reply::Plain
}
