//! What is set of a member, and the resets.
ghost use Rattle.std.specs.Prelude.{◌≡◌, map, IfOk, OnErr};
ghost use Rattle.mas_types.specs.declared.queues.Queue.{Queue};
ghost use Rattle.mas_types.specs.Fit.{AreClasses, IsName, ArePrinterLines};
ghost use Rattle.mas_types.specs.Lists.{change_at};
ghost use Rattle.mas_types.specs.Owners.{freed, is_held_by};
ghost use Rattle.mas_types.specs.Reset.{reset as reset_lem};
ghost use Rattle.mas_types.specs.Commands.Members.{set_init_row, set_prt_row, reset_row, restart_row};
ghost use Rattle.queue_effect.specs.Slots.{setting_changed};
ghost use Rattle.queue_telling.specs.Orders.{HaveOrders};
ghost use Rattle.queue_telling.specs.Telling.{Tell};
ghost use Rattle.queue_effect.specs.Standing.{Plays, IfRefused, AreFit};
ghost use Rattle.queue_resets.specs.Resets.{changed_where, is_one_of as is_one_of_lem, job_reset, output_reset};
ghost use Rattle.page_marks.specs.Marks.{Touches};

use ckpt_tables::Tables;
use mas_types::{Class, Copied, List, MemberId, Name8, NoMemory, Refusal, Reply};
use page_marks::{MEMBERS_PAGE, Marks};
use queue_resets::{Who, is_one_of, reset_job_slots, reset_output_slots, reset_owner_list};
use std::alloc::Global;

/// What a printer is set up with besides its classes.
#[derive(Clone, Copy)]
pub struct Setup {
    /// The forms in it.
    pub forms: Name8,
    /// How many lines it prints at a time.
    pub lines: u16,
}

fn put_init_at(tables: &mut Tables, marks: &mut Marks, at: usize, init: List<Class>)
    requires { AreClasses init }
    ensures value { tables.new ≡ record tables.old
        { members = change_at at (λ s. record s { init = init }) tables.old.members } }
    ensures fit { AreFit tables.old → AreFit tables.new }
    ensures orders { HaveOrders tables.old → HaveOrders tables.new }
    ensures touches { AreFit tables.old → Touches marks.old.pages marks.new.pages tables.old tables.new }
{
    if at >= tables.members.len() {
        return;
    }
    marks.put(MEMBERS_PAGE);
    tables.members.item_mut(at).init = init;
}

fn put_init(tables: &mut Tables, marks: &mut Marks, by: MemberId, init: List<Class>)
    requires { AreClasses init }
    ensures value { tables.new ≡ record tables.old
        { members = setting_changed by (λ s. record s { init = init }) tables.old.members } }
    ensures fit { AreFit tables.old → AreFit tables.new }
    ensures orders { HaveOrders tables.old → HaveOrders tables.new }
    ensures touches { AreFit tables.old → Touches marks.old.pages marks.new.pages tables.old tables.new }
{
    if by.0 == 0 {
        return;
    }
    put_init_at(tables, marks, by.0 as usize - 1, init);
}

/// SetInit: the member's initiators get other classes. Nothing is changed without memory.
pub fn set_init(
    alloc: Global,
    tables: &mut Tables,
    marks: &mut Marks,
    by: MemberId,
    classes: &List<Class>,
) -> Result<Reply, NoMemory>
    requires { AreClasses classes.now }
    ensures plays { IfOk result (λ reply. Plays tables.old tables.new (λ Q. set_init_row Q by classes.now) reply) }
    ensures refused { IfOk result (λ reply. IfRefused reply (tables.new ≡ tables.old)) }
    ensures unchanged { OnErr result ((tables.new ≡ tables.old) × (marks.new ≡ marks.old)) }
    ensures fit { AreFit tables.old → AreFit tables.new }
    ensures orders { HaveOrders tables.old → HaveOrders tables.new }
    ensures order { tables.new.order ≡ tables.old.order }
    ensures touches { AreFit tables.old → Touches marks.old.pages marks.new.pages tables.old tables.new }
{
    let init = classes.copy(alloc)?;
    put_init(tables, marks, by, init);
    Ok(Reply::Plain)
}

fn put_prt_at(tables: &mut Tables, marks: &mut Marks, at: usize, prt: List<Class>, setup: Setup)
    requires classes { AreClasses prt }
    requires forms { IsName setup.forms }
    requires lines { ArePrinterLines setup.lines }
    ensures value { tables.new ≡ record tables.old {
      members =
          change_at at (λ s. record s { prt = prt; forms = setup.forms; lines = setup.lines }) tables.old.members;
    } }
    ensures fit { AreFit tables.old → AreFit tables.new }
    ensures orders { HaveOrders tables.old → HaveOrders tables.new }
    ensures touches { AreFit tables.old → Touches marks.old.pages marks.new.pages tables.old tables.new }
{
    if at >= tables.members.len() {
        return;
    }
    marks.put(MEMBERS_PAGE);
    let setting = tables.members.item_mut(at);
    setting.prt = prt;
    setting.forms = setup.forms;
    setting.lines = setup.lines;
}

fn put_prt(tables: &mut Tables, marks: &mut Marks, by: MemberId, prt: List<Class>, setup: Setup)
    requires classes { AreClasses prt }
    requires forms { IsName setup.forms }
    requires lines { ArePrinterLines setup.lines }
    ensures value { tables.new ≡ record tables.old {
      members = setting_changed by
          (λ s. record s { prt = prt; forms = setup.forms; lines = setup.lines }) tables.old.members;
    } }
    ensures fit { AreFit tables.old → AreFit tables.new }
    ensures orders { HaveOrders tables.old → HaveOrders tables.new }
    ensures touches { AreFit tables.old → Touches marks.old.pages marks.new.pages tables.old tables.new }
{
    if by.0 == 0 {
        return;
    }
    put_prt_at(tables, marks, by.0 as usize - 1, prt, setup);
}

/// SetPrt: the member's printer gets other classes, forms and lines. Nothing is changed without memory.
pub fn set_prt(
    alloc: Global,
    tables: &mut Tables,
    marks: &mut Marks,
    by: MemberId,
    classes: &List<Class>,
    setup: Setup,
) -> Result<Reply, NoMemory>
    requires classes { AreClasses classes.now }
    requires forms { IsName setup.forms }
    requires lines { ArePrinterLines setup.lines }
    ensures plays { IfOk result (λ reply.
        Plays tables.old tables.new (λ Q. set_prt_row Q by classes.now setup.forms setup.lines) reply) }
    ensures refused { IfOk result (λ reply. IfRefused reply (tables.new ≡ tables.old)) }
    ensures unchanged { OnErr result ((tables.new ≡ tables.old) × (marks.new ≡ marks.old)) }
    ensures fit { AreFit tables.old → AreFit tables.new }
    ensures orders { HaveOrders tables.old → HaveOrders tables.new }
    ensures order { tables.new.order ≡ tables.old.order }
    ensures touches { AreFit tables.old → Touches marks.old.pages marks.new.pages tables.old tables.new }
{
    let prt = classes.copy(alloc)?;
    put_prt(tables, marks, by, prt, setup);
    Ok(Reply::Plain)
}

fn reset_jobs(tables: &mut Tables, marks: &mut Marks, who: Who)
    ensures value { tables.new ≡ record tables.old
        { jobs = map (changed_where (λ r. is_one_of_lem who r.busy) job_reset) tables.old.jobs } }
    ensures fit { AreFit tables.old → AreFit tables.new }
    ensures orders { HaveOrders tables.old → HaveOrders tables.new }
    ensures touches { AreFit tables.old → Touches marks.old.pages marks.new.pages tables.old tables.new }
{
    marks.put_jobs(&tables.config);
    reset_job_slots(tables.jobs.as_mut_slice(), who);
}

fn reset_outputs(tables: &mut Tables, marks: &mut Marks, who: Who)
    ensures value { tables.new ≡ record tables.old
        { outputs = map (changed_where (λ r. is_one_of_lem who r.busy) output_reset) tables.old.outputs } }
    ensures fit { AreFit tables.old → AreFit tables.new }
    ensures orders { HaveOrders tables.old → HaveOrders tables.new }
    ensures touches { AreFit tables.old → Touches marks.old.pages marks.new.pages tables.old tables.new }
{
    marks.put_outputs(&tables.config);
    reset_output_slots(tables.outputs.as_mut_slice(), who);
}

fn reset_owners(tables: &mut Tables, marks: &mut Marks, who: Who)
    ensures value { tables.new ≡ record tables.old
        { owners = freed (is_held_by (is_one_of_lem who)) tables.old.owners } }
    ensures fit { AreFit tables.old → AreFit tables.new }
    ensures orders { HaveOrders tables.old → HaveOrders tables.new }
    ensures touches { AreFit tables.old → Touches marks.old.pages marks.new.pages tables.old tables.new }
{
    marks.put_groups(&tables.config);
    reset_owner_list(tables.owners.as_mut_slice(), who);
}

/// What is busy at one of the members becomes free of it, and its groups become free.
fn reset_members(tables: &mut Tables, marks: &mut Marks, who: Who)
    ensures stands { (Q : Queue) → Tell tables.old Q → Tell tables.new (reset_lem (is_one_of_lem who) Q) }
    ensures fit { AreFit tables.old → AreFit tables.new }
    ensures orders { HaveOrders tables.old → HaveOrders tables.new }
    ensures order { tables.new.order ≡ tables.old.order }
    ensures touches { AreFit tables.old → Touches marks.old.pages marks.new.pages tables.old tables.new }
{
    reset_jobs(tables, marks, who);
    reset_outputs(tables, marks, who);
    reset_owners(tables, marks, who);
}

/// Reset: what is busy at the member becomes free of it, and its groups become free.
pub fn reset(tables: &mut Tables, marks: &mut Marks, of: MemberId) -> Reply
    ensures plays { Plays tables.old tables.new (λ Q. reset_row Q of) result }
    ensures refused { IfRefused result (tables.new ≡ tables.old) }
    ensures fit { AreFit tables.old → AreFit tables.new }
    ensures orders { HaveOrders tables.old → HaveOrders tables.new }
    ensures order { tables.new.order ≡ tables.old.order }
    ensures touches { AreFit tables.old → Touches marks.old.pages marks.new.pages tables.old tables.new }
{
    if !is_one_of(Who::Every(tables.config.members), of) {
        return Reply::No(Refusal::NoMember);
    }
    reset_members(tables, marks, Who::One(of));
    Reply::Plain
}

/// Restart: Reset of every member.
pub fn restart(tables: &mut Tables, marks: &mut Marks) -> Reply
    ensures plays { Plays tables.old tables.new restart_row result }
    ensures refused { IfRefused result (tables.new ≡ tables.old) }
    ensures fit { AreFit tables.old → AreFit tables.new }
    ensures orders { HaveOrders tables.old → HaveOrders tables.new }
    ensures order { tables.new.order ≡ tables.old.order }
    ensures touches { AreFit tables.old → Touches marks.old.pages marks.new.pages tables.old tables.new }
{
    reset_members(tables, marks, Who::Every(tables.config.members));
    Reply::Plain
}
