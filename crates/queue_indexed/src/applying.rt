//! A command on tables with an index.
ghost use Rattle.std.specs.Prelude.{◌≡◌, ◌≤◌, ◌<◌, ◌+◌, ◌^◌, true, IfOk, OnOk, OnErr};
ghost use Rattle.mas_types.specs.Closings.{IsReplyNamed};
ghost use Rattle.mas_types.specs.Fit.{IsFit};
ghost use Rattle.mas_types.specs.Step.{may_give, row_of};
ghost use Rattle.ckpt_tables.specs.Shape.{HasSpelling};
ghost use Rattle.ckpt_pages.specs.Sound.{AreSound};
ghost use Rattle.page_marks.specs.Marks.{Touches};
ghost use Rattle.queue_commands.specs.Orders.{HaveOrders};
ghost use Rattle.queue_commands.specs.Telling.{TellSound};
ghost use Rattle.queue_commands.specs.Standing.{AreFit, IfRefused, Plays};
ghost use Rattle.queue_commands.specs.Given.{IsGiver};
ghost use Rattle.job_select.specs.Behind.{IsKept};

use ckpt_tables::Tables;
use job_select::KeptIndex;
use mas_types::{Command, MemberId, NoMemory, Reply};
use page_marks::Marks;
use queue_commands::{Ends, give};
use std::alloc::Global;

/// Gives a command of a member as `give` does, on the same conditions, to tables and the index that is kept with them.
/// The tables, the marks and the reply are those of `give`. The index follows by the pages with marks. If there is no
/// memory for that, it is lost, and the command is done all the same. A refused command leaves the index as it was, and
/// so does one for which there is no memory.
pub fn apply_with(
    alloc: Global,
    tables: &mut Tables,
    marks: &mut Marks,
    kept: &mut KeptIndex,
    by: MemberId,
    command: &Command,
) -> Result<Reply, NoMemory>
    requires spelling { HasSpelling tables.old }
    requires fit { AreFit tables.old }
    requires order { tables.old.order + 32 < 2 ^ 63 }
    requires giver { IsGiver by command.now }
    requires command { IsFit command.now }
    requires kept { IsKept kept.old tables.old }
    ensures plays { IfOk result (λ reply. Plays tables.old tables.new (λ Q. row_of Q by command.now) reply) }
    ensures sound { OnOk result ((s : TellSound tables.old) → may_give s.queue by command.now ≡ true
        → TellSound tables.new) }
    ensures faultless { OnOk result
        (AreSound tables.old → (s : TellSound tables.old) → may_give s.queue by command.now ≡ true
        → AreSound tables.new) }
    ensures named { IfOk result IsReplyNamed }
    ensures refused { IfOk result (λ reply. IfRefused reply (tables.new ≡ tables.old)) }
    ensures unmoved { IfOk result (λ reply. IfRefused reply (kept.new ≡ kept.old)) }
    ensures no_memory { OnErr result ((tables.new ≡ tables.old) × (marks.new ≡ marks.old)
        × (kept.new ≡ kept.old)) }
    ensures touches { Touches marks.old.pages marks.new.pages tables.old tables.new }
    ensures kept { IsKept kept.new tables.new }
    ensures spelling { HasSpelling tables.new }
    ensures fit { AreFit tables.new }
    ensures orders { HaveOrders tables.old → HaveOrders tables.new }
    ensures order { tables.new.order ≤ tables.old.order + 32 }
    ensures config { tables.new.config ≡ tables.old.config }
{
    let ends = Ends {
        jobs: kept.jobs_end(tables),
        outputs: kept.outputs_end(tables),
    };
    match give(alloc, tables, marks, ends, by, command) {
        Ok(Reply::No(why)) => Ok(Reply::No(why)),
        Ok(reply) => {
            kept.follow(alloc, tables, marks);
            Ok(reply)
        }
        Err(NoMemory) => Err(NoMemory),
    }
}
