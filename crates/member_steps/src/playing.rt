//! A command on a member's tables.
ghost use Rattle.std.specs.Prelude.{◌≡◌, ◌+◌, ◌≤◌, ◌<◌, ◌^◌, [], ◌∷◌, true, false, IfOk, OnOk};
ghost use Rattle.mas_types.specs.declared.queues.Queue.{Queue};
ghost use Rattle.mas_types.specs.Fit.{IsFit};
ghost use Rattle.mas_types.specs.Limits.{members_most};
ghost use Rattle.mas_types.specs.Step.{may_give};
ghost use Rattle.ckpt_tables.specs.Shape.{HasSpelling};
ghost use Rattle.queue_telling.specs.Telling.{Tell, TellSound};
ghost use Rattle.member_node.specs.Standing.{AreFit};
ghost use Rattle.member_node.specs.Given.{IsGiver, is_plain};
ghost use Rattle.member_node.specs.Batches.{HasDone};
ghost use Rattle.member_steps.specs.Steps.{IsGiven, entry_of, step_lines};

use cmd_report::reply_lines;
use mas_types::{Command, Lines, NoMemory};
use member_node::Member;
use std::alloc::Global;

/// Does the command on the member's tables, and answers the lines of its reply.
///
/// After NoMemory the command may be done.
pub fn give(
    member: &mut Member,
    alloc: Global,
    step: u32,
    command: Command,
) -> Result<Lines, NoMemory>
    requires by { member.old.id.0 ≤ members_most }
    requires plain { is_plain command ≡ true }
    requires command { IsFit command }
    requires giver { IsGiver member.old.id command }
    requires nothing { member.old.batch ≡ [] }
    requires spelling { HasSpelling member.old.checkpoint.tables }
    requires fit { AreFit member.old.checkpoint.tables }
    requires here { member.old.behind ≡ false }
    requires order { member.old.checkpoint.tables.order + 32 < 2 ^ 63 }
    ensures id { member.new.id ≡ member.old.id }
    ensures level { member.new.checkpoint.level ≡ member.old.checkpoint.level }
    ensures pages { member.new.checkpoint.pages ≡ member.old.checkpoint.pages }
    ensures room { member.new.room ≡ member.old.room }
    ensures behind { member.new.behind ≡ member.old.behind }
    ensures fresh { member.new.fresh ≡ member.old.fresh }
    ensures levels { member.new.checkpoint.levels ≡ member.old.checkpoint.levels }
    ensures spelling { HasSpelling member.new.checkpoint.tables }
    ensures fit { AreFit member.new.checkpoint.tables }
    ensures given { IfOk result (λ lines. IsGiven member.old.id step command lines member.new.batch) }
    ensures entry { OnOk result ((Q : Queue) → Tell member.old.checkpoint.tables Q
        → member.new.batch ≡ entry_of Q member.old.id step command ∷ []) }
    ensures lines { IfOk result (λ lines. (Q : Queue) → Tell member.old.checkpoint.tables Q
        → lines ≡ step_lines Q member.old.id step command) }
    ensures done { OnOk result ((Q : Queue) → HasDone Q member.old.batch member.old.checkpoint
        → HasDone Q member.new.batch member.new.checkpoint) }
    ensures order { member.new.checkpoint.tables.order ≤ member.old.checkpoint.tables.order + 32 }
    ensures sound { OnOk result ((s : TellSound member.old.checkpoint.tables)
        → may_give s.queue member.old.id command ≡ true → TellSound member.new.checkpoint.tables) }
    ensures config { member.new.checkpoint.tables.config ≡ member.old.checkpoint.tables.config }
{
    member.do_command(alloc, step, command)?;
    reply_lines(alloc, member.id, step, member.last_reply())
}
