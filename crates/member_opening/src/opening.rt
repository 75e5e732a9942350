//! The first commands of a deck's step: its job begins, and the member takes the groups that the text needs.
ghost use Rattle.std.specs.Prelude.{◌≡◌, ◌+◌, ◌*◌, ◌≤◌, ◌<◌, ◌^◌, [], ℕ, All, not, true, false, IfOk};
ghost use Rattle.mas_types.specs.declared.queues.Queue.{Queue};
ghost use Rattle.mas_types.specs.Closings.{IsReplyNamed};
ghost use Rattle.mas_types.specs.Fit.{IsJobFields};
ghost use Rattle.mas_types.specs.Limits.{members_most};
ghost use Rattle.mas_types.specs.Queue.{is_member};
ghost use Rattle.ckpt_tables.specs.Shape.{HasSpelling};
ghost use Rattle.queue_telling.specs.Telling.{Tell, TellSound};
ghost use Rattle.member_node.specs.Standing.{AreFit};
ghost use Rattle.member_node.specs.Batches.{HasDone};
ghost use Rattle.member_decks.specs.Decks.{are_refused, ends_as, opening, takes};
ghost use Rattle.member_decks.specs.Taking.{Gives, GivesAt, asked};

use mas_types::{Command, JobFields, NoMemory, Reply};
use member_decks::Opened;
use member_node::Member;
use queue_texts::law_of_texts;
use std::alloc::Global;

/// Takes what is missing of the groups for a text, as often as needed; false where a Take is refused. Each command is
/// done on the member's tables and has its entry in the batch. No text is touched.
///
/// After NoMemory the tables and the batch have the Takes that were done before.
pub fn take_groups(
    member: &mut Member,
    alloc: Global,
    step: u32,
    missing: u32,
) -> Result<bool, NoMemory>
    requires some { 1 ≤ member.old.id.0 }
    requires by { member.old.id.0 ≤ members_most }
    requires here { member.old.behind ≡ false }
    requires member { is_member member.old.checkpoint.tables.config member.old.id ≡ true }
    requires spelling { HasSpelling member.old.checkpoint.tables }
    requires fit { AreFit member.old.checkpoint.tables }
    requires order { member.old.checkpoint.tables.order + 32 * (missing + 1) < 2 ^ 63 }
    ensures id { member.new.id ≡ member.old.id }
    ensures room { member.new.room ≡ member.old.room }
    ensures here { member.new.behind ≡ false }
    ensures fresh { member.new.fresh ≡ member.old.fresh }
    ensures level { member.new.checkpoint.level ≡ member.old.checkpoint.level }
    ensures levels { member.new.checkpoint.levels ≡ member.old.checkpoint.levels }
    ensures pages { member.new.checkpoint.pages ≡ member.old.checkpoint.pages }
    ensures taking { (Q : Queue) (times : ℕ) → missing ≤ times → Tell member.old.checkpoint.tables Q
        → GivesAt (asked Q member.old.id step (takes times Q member.old.id missing))
        (λ disks per. TellSound member.old.checkpoint.tables) member.old member.new result }
    ensures all { IfOk result (λ all. (Q : Queue) (times : ℕ) → missing ≤ times → Tell member.old.checkpoint.tables Q
        → all ≡ not (are_refused times Q member.old.id missing)) }
    ensures named { All (λ e. IsReplyNamed e.reply) member.old.batch
        → All (λ e. IsReplyNamed e.reply) member.new.batch }
    ensures done { (Q : Queue) → HasDone Q member.old.batch member.old.checkpoint
        → HasDone Q member.new.batch member.new.checkpoint }
    ensures sound { TellSound member.old.checkpoint.tables → TellSound member.new.checkpoint.tables }
    ensures spelling { HasSpelling member.new.checkpoint.tables }
    ensures fit { AreFit member.new.checkpoint.tables }
    ensures order { member.new.checkpoint.tables.order ≤ member.old.checkpoint.tables.order + 32 * missing }
    ensures config { member.new.checkpoint.tables.config ≡ member.old.checkpoint.tables.config }
{
    law_of_texts();
    if missing == 0 {
        return Ok(true);
    }
    member.do_command(alloc, step, Command::Take { want: missing })?;
    match member.last_reply() {
        Reply::Count(taken) => {
            let taken = *taken;
            take_groups(member, alloc, step, missing - taken)
        }
        _ => Ok(false),
    }
}

/// Begins a job and takes so many groups for its text; after a refused Take the job is dropped. Each command is done on
/// the member's tables and has its entry in the batch, which was empty.
///
/// After NoMemory the tables and the batch have the commands that were done before.
pub fn open_deck(
    member: &mut Member,
    alloc: Global,
    step: u32,
    fields: JobFields,
    groups: u32,
) -> Result<Opened, NoMemory>
    requires some { 1 ≤ member.old.id.0 }
    requires by { member.old.id.0 ≤ members_most }
    requires here { member.old.behind ≡ false }
    requires fields { IsJobFields fields }
    requires nothing { member.old.batch ≡ [] }
    requires member { is_member member.old.checkpoint.tables.config member.old.id ≡ true }
    requires spelling { HasSpelling member.old.checkpoint.tables }
    requires fit { AreFit member.old.checkpoint.tables }
    requires order { member.old.checkpoint.tables.order + 32 * (groups + 3) < 2 ^ 63 }
    ensures id { member.new.id ≡ member.old.id }
    ensures room { member.new.room ≡ member.old.room }
    ensures here { member.new.behind ≡ false }
    ensures fresh { member.new.fresh ≡ member.old.fresh }
    ensures level { member.new.checkpoint.level ≡ member.old.checkpoint.level }
    ensures levels { member.new.checkpoint.levels ≡ member.old.checkpoint.levels }
    ensures pages { member.new.checkpoint.pages ≡ member.old.checkpoint.pages }
    ensures opening { (Q : Queue) → Tell member.old.checkpoint.tables Q
        → Gives (asked Q member.old.id step (opening Q member.old.id fields groups))
        (λ disks per. TellSound member.old.checkpoint.tables) member.new.checkpoint.tables member.new.batch result }
    ensures opened { IfOk result (λ opened. (Q : Queue) → Tell member.old.checkpoint.tables Q
        → opened ≡ ends_as Q member.old.id fields groups) }
    ensures named { All (λ e. IsReplyNamed e.reply) member.new.batch }
    ensures done { (Q : Queue) → HasDone Q [] member.old.checkpoint → HasDone Q member.new.batch member.new.checkpoint }
    ensures sound { TellSound member.old.checkpoint.tables → TellSound member.new.checkpoint.tables }
    ensures spelling { HasSpelling member.new.checkpoint.tables }
    ensures fit { AreFit member.new.checkpoint.tables }
    ensures order { member.new.checkpoint.tables.order ≤ member.old.checkpoint.tables.order + 32 * (groups + 2) }
    ensures config { member.new.checkpoint.tables.config ≡ member.old.checkpoint.tables.config }
{
    law_of_texts();
    member.do_command(alloc, step, Command::Begin { fields })?;
    let Reply::Job(job) = member.last_reply() else {
        return Ok(Opened::Closed);
    };
    let job = *job;
    if take_groups(member, alloc, step, groups)? {
        return Ok(Opened::Ready(job));
    }
    member.do_command(alloc, step, Command::Drop { job })?;
    Ok(Opened::Closed)
}
