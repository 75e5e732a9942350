//! A command on tables that have a spelling.
ghost use Rattle.std.specs.Prelude.{◌≡◌, ◌≤◌, ◌<◌, ◌+◌, ◌^◌, true, All, IfOk, OnOk, OnErr};
ghost use Rattle.mas_types.specs.declared.ids.MemberId.{MemberId};
ghost use Rattle.mas_types.specs.Closings.{IsReplyNamed};
ghost use Rattle.mas_types.specs.Fit.{IsFit};
ghost use Rattle.mas_types.specs.Step.{may_give, row_of};
ghost use Rattle.lay_bytes.specs.Limits.{copies_most};
ghost use Rattle.ckpt_tables.specs.declared.tables.Tables.{Tables};
ghost use Rattle.ckpt_tables.specs.Shape.{HasSpelling};
ghost use Rattle.ckpt_pages.specs.Sound.{AreSound};
ghost use Rattle.queue_effect.specs.Orders.{HaveOrders};
ghost use Rattle.queue_effect.specs.Telling.{TellSound};
ghost use Rattle.queue_effect.specs.Standing.{AreEnds, AreFit, IfRefused, Plays};
ghost use Rattle.page_marks.specs.Marks.{Touches};
ghost use Rattle.queue_commands.specs.Given.{IsGiver, IsInRange, is_plain as is_plain_lem};

use ckpt_tables::Tables;
use mas_types::{Command, MemberId, NoMemory, OutSpec, Reply};
use page_marks::Marks;
use queue_effect::{Ends, apply};
use queue_tables::law_of_told_queues;
use std::alloc::Global;

/// Gives a command of a member, or Restart by the operator: for each queue that the tables tell, whatever its texts
/// are, they tell what the command leaves of it, and the reply is the command's. The tables can be spelled by pages as
/// before, and where they told a sound queue, and the command's giver may give it, they still do. A refused command, or
/// one for which there is no memory, changes nothing. Where no two jobs or outputs had one order, none have; so tables
/// without a fault stay so.
///
/// The orders of jobs and outputs are below the next one, which is below 2^63 - 32, and what is busy is so at nobody or
/// at one of at most eight members. What the command carries is within the limits. A display looks at no slot past the
/// ends, where nothing stands.
pub fn give(
    alloc: Global,
    tables: &mut Tables,
    marks: &mut Marks,
    ends: Ends,
    by: MemberId,
    command: &Command,
) -> Result<Reply, NoMemory>
    requires spelling { HasSpelling tables.old }
    requires fit { AreFit tables.old }
    requires order { tables.old.order + 32 < 2 ^ 63 }
    requires ends { AreEnds ends tables.old }
    requires giver { IsGiver by command.now }
    requires command { IsFit command.now }
    ensures plays { IfOk result (λ reply. Plays tables.old tables.new (λ Q. row_of Q by command.now) reply) }
    ensures sound { OnOk result ((s : TellSound tables.old) → may_give s.queue by command.now ≡ true
        → TellSound tables.new) }
    ensures faultless { OnOk result
        (AreSound tables.old → (s : TellSound tables.old) → may_give s.queue by command.now ≡ true
        → AreSound tables.new) }
    ensures named { IfOk result IsReplyNamed }
    ensures refused { IfOk result (λ reply. IfRefused reply (tables.new ≡ tables.old)) }
    ensures no_memory { OnErr result ((tables.new ≡ tables.old) × (marks.new ≡ marks.old)) }
    ensures touches { Touches marks.old.pages marks.new.pages tables.old tables.new }
    ensures spelling { HasSpelling tables.new }
    ensures fit { AreFit tables.new }
    ensures orders { HaveOrders tables.old → HaveOrders tables.new }
    ensures order { tables.new.order ≤ tables.old.order + 32 }
    ensures config { tables.new.config ≡ tables.old.config }
{
    law_of_told_queues();
    read_numbers(command);
    match apply(alloc, tables, marks, ends, by, command) {
        Ok(reply) => Ok(reply),
        Err(NoMemory) => Err(NoMemory),
    }
}

/// Reads the numbers of a command that tables keep, which are within the ranges of their types.
fn read_numbers(command: &Command)
    ensures { IsInRange command.now }
{
    match command {
        Command::Ended { outputs, .. } => read_copies(outputs.as_slice()),
        Command::Sent { number, .. } => {
            let _number = *number;
        }
        Command::Got { number, .. } => {
            let _number = *number;
        }
        _ => {}
    }
}

fn read_copies(outputs: &[OutSpec])
    ensures { All (λ s. s.copies ≤ copies_most) outputs.now }
{
    for output in outputs {
        read_copies_of(output);
    }
}

fn read_copies_of(output: &OutSpec)
    ensures { output.now.copies ≤ copies_most }
{
    let _copies = output.copies;
}

/// Whether a command brings no text.
pub fn is_plain(command: &Command) -> bool
    ensures { result ≡ is_plain_lem command.now }
{
    !matches!(
        command,
        Command::Enter { .. } | Command::Ended { .. } | Command::Got { .. }
    )
}
