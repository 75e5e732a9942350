//! How a job ends: Ended.
ghost use Rattle.std.specs.Prelude.{◌≡◌, ◌≤◌, ◌<◌, ◌+◌, ◌^◌, ◌++◌, ◌∷◌, [], ℕ, nat_lt, length, All, if◌then◌else◌, Some, slice_get};
ghost use Rattle.mas_types.specs.declared.queues.Queue.{Queue};
ghost use Rattle.mas_types.specs.Fit.{IsOutSpec};
ghost use Rattle.mas_types.specs.Ids.{nobody};
ghost use Rattle.mas_types.specs.Limits.{index_most};
ghost use Rattle.mas_types.specs.Queue.{has_number, change_job};
ghost use Rattle.mas_types.specs.Owners.{member_count as member_count_lem, groups_needed as groups_needed_lem, output_places};
ghost use Rattle.mas_types.specs.Commands.Life.{ended_row, ended, with_outputs, new_outputs, places_of_outputs, groups_of_outputs};
ghost use Rattle.track_groups.specs.Groups.{given};
ghost use Rattle.job_queue.specs.Jobs.{HasJob};
ghost use Rattle.lay_bytes.specs.Used.{used};
ghost use Rattle.queue_telling.specs.Orders.{HaveOrders};
ghost use Rattle.queue_telling.specs.Telling.{Tell};
ghost use Rattle.queue_effect.specs.Standing.{Plays, IfRefused, AreFit, IsFitJob};
ghost use Rattle.page_marks.specs.Marks.{Touches};

use crate::groups::{free_members, give_groups};
use crate::lookups::put_job;
use crate::working::{Stage, job_at_work};
use ckpt_tables::Tables;
use lay_bytes::JobRec;
use mas_types::{JobNo, List, MemberId, OutNo, OutSpec, Phase, Refusal, Reply, Thing, purge_if};
use output_queue::add;
use page_marks::{HEADER_PAGE, Marks};
use queue_slots::{Found, free_slot, used_count};
use spool_text::groups_needed;
use track_groups::{law_of_giving, member_count};

fn ended_record(job: &JobRec) -> JobRec
    ensures value { result ≡ record job.now
        { phase = if job.now.cancelled then Phase.Purge else Phase.Output; busy = nobody } }
    ensures fit { (n : ℕ) → IsFitJob n job.now → IsFitJob n result }
    ensures same_order { result.order ≡ job.now.order }
{
    JobRec {
        phase: purge_if(job.cancelled, Phase::Output),
        busy: MemberId(0),
        ..*job
    }
}

/// Too few slots are free for so many more outputs.
fn are_outputs_full(tables: &Tables, more: usize) -> bool
    requires few { more ≤ index_most }
    requires fit { AreFit tables.now }
    ensures value { result ≡ nat_lt tables.now.config.outputs (length (used tables.now.outputs) + more) }
{
    (tables.config.outputs as usize) < used_count(tables.outputs.as_slice()) + more
}

/// How many groups the texts of the outputs take.
fn groups_of(outputs: &[OutSpec]) -> u32
    requires few { length outputs.now ≤ index_most }
    requires fit { All IsOutSpec outputs.now }
    ensures { result ≡ groups_of_outputs outputs.now }
{
    let mut groups = 0;
    for output in outputs {
        groups += groups_needed(&output.text);
    }
    groups
}

/// Adds an output of the job, in the lowest groups of the member. A slot is free, and the member has so many groups.
fn add_output(
    tables: &mut Tables,
    marks: &mut Marks,
    by: MemberId,
    job: JobNo,
    index: OutNo,
    output: &OutSpec,
)
    requires spec { IsOutSpec output.now }
    requires fit { AreFit tables.old }
    requires slot { length (used tables.old.outputs) < length tables.old.outputs }
    requires groups { groups_needed_lem output.now.text ≤ member_count_lem by tables.old.owners }
    requires order { tables.old.order < 2 ^ 63 }
    ensures stands { (Q : Queue) → Tell tables.old Q
        → Tell tables.new (record Q {
          outputs = Q.outputs ++ new_outputs job index.0 (output.now ∷ []);
          owners = given by (output_places job index (groups_needed_lem output.now.text)) Q.owners;
        }) }
    ensures left { member_count_lem by tables.new.owners + groups_needed_lem output.now.text
        ≡ member_count_lem by tables.old.owners }
    ensures slots { length tables.new.outputs ≡ length tables.old.outputs }
    ensures used { length (used tables.new.outputs) ≡ length (used tables.old.outputs) + 1 }
    ensures order { tables.new.order ≡ tables.old.order + 1 }
    ensures fits { AreFit tables.new }
    ensures orders { HaveOrders tables.old → HaveOrders tables.new }
    ensures touches { AreFit tables.old → Touches marks.old.pages marks.new.pages tables.old tables.new }
{
    let order = tables.order;
    let Some(at) = free_slot(tables.outputs.as_slice()) else {
        unreachable!();
    };
    let Ok(()) = add(tables.outputs.as_mut_slice(), job, index, output, order) else {
        unreachable!();
    };
    tables.order += 1;
    marks.put_output(&tables.config, at);
    marks.put(HEADER_PAGE);
    give_groups(
        tables,
        marks,
        by,
        Thing::Output(job, index),
        groups_needed(&output.text),
    );
}

/// Adds the outputs of the job with their indexes from one on.
fn add_outputs(
    tables: &mut Tables,
    marks: &mut Marks,
    by: MemberId,
    job: JobNo,
    first: u8,
    outputs: &[OutSpec],
)
    requires few { first + length outputs.now ≤ index_most + 1 }
    requires specs { All IsOutSpec outputs.now }
    requires fit { AreFit tables.old }
    requires slots { length (used tables.old.outputs) + length outputs.now ≤ length tables.old.outputs }
    requires groups { groups_of_outputs outputs.now ≤ member_count_lem by tables.old.owners }
    requires order { tables.old.order + length outputs.now ≤ 2 ^ 63 }
    ensures stands { (Q : Queue) → Tell tables.old Q
        → Tell tables.new (record Q {
          outputs = Q.outputs ++ new_outputs job first outputs.now;
          owners = given by (places_of_outputs job first outputs.now) Q.owners;
        }) }
    ensures order { tables.new.order ≡ tables.old.order + length outputs.now }
    ensures fits { AreFit tables.new }
    ensures orders { HaveOrders tables.old → HaveOrders tables.new }
    ensures touches { AreFit tables.old → Touches marks.old.pages marks.new.pages tables.old tables.new }
{
    let Some((output, rest)) = outputs.split_first() else {
        return;
    };
    law_of_giving();
    add_output(tables, marks, by, job, OutNo(first), output);
    add_outputs(tables, marks, by, job, first + 1, rest);
}

/// The job ends with these outputs: they are added, and what the member has of groups beyond theirs becomes free.
fn end_with(
    tables: &mut Tables,
    marks: &mut Marks,
    found: &Found<JobRec>,
    by: MemberId,
    job: JobNo,
    outputs: &[OutSpec],
)
    requires few { length outputs.now ≤ index_most }
    requires specs { All IsOutSpec outputs.now }
    requires fit { AreFit tables.old }
    requires here { slice_get tables.old.jobs found.now.at ≡ Some (Some found.now.item) }
    requires slots { length (used tables.old.outputs) + length outputs.now ≤ length tables.old.outputs }
    requires groups { groups_of_outputs outputs.now ≤ member_count_lem by tables.old.owners }
    requires order { tables.old.order + length outputs.now ≤ 2 ^ 63 }
    ensures stands { (Q : Queue) → Tell tables.old Q
        → HasJob (has_number job) tables.old.jobs Q.jobs found.now.at found.now.item
        → Tell tables.new (with_outputs by job outputs.now (change_job job ended Q)) }
    ensures order { tables.new.order ≡ tables.old.order + length outputs.now }
    ensures fits { AreFit tables.new }
    ensures orders { HaveOrders tables.old → HaveOrders tables.new }
    ensures touches { AreFit tables.old → Touches marks.old.pages marks.new.pages tables.old tables.new }
{
    law_of_giving();
    put_job(tables, marks, found.at, ended_record(&found.item));
    add_outputs(tables, marks, by, job, 1, outputs);
    free_members(tables, marks, by);
}

/// Ended: the job has run and goes to Output with its outputs, or without any to Purge where it is cancelled.
pub fn end_job(
    tables: &mut Tables,
    marks: &mut Marks,
    by: MemberId,
    job: JobNo,
    outputs: &List<OutSpec>,
) -> Reply
    requires few { length outputs.now ≤ index_most }
    requires specs { All IsOutSpec outputs.now }
    requires fit { AreFit tables.old }
    requires order { tables.old.order + 32 ≤ 2 ^ 63 }
    ensures plays { Plays tables.old tables.new (λ Q. ended_row Q by job outputs.now) result }
    ensures refused { IfRefused result (tables.new ≡ tables.old) }
    ensures fits { AreFit tables.new }
    ensures orders { HaveOrders tables.old → HaveOrders tables.new }
    ensures order { tables.new.order ≤ tables.old.order + 32 }
    ensures touches { AreFit tables.old → Touches marks.old.pages marks.new.pages tables.old tables.new }
{
    let found = match job_at_work(tables, by, job, Stage::Run) {
        Ok(found) => found,
        Err(why) => return Reply::No(why),
    };
    if found.item.cancelled {
        end_with(tables, marks, &found, by, job, &[]);
        return Reply::Count(0);
    }
    if are_outputs_full(tables, outputs.len()) {
        return Reply::No(Refusal::OutputsFull);
    }
    if member_count(tables.owners.as_slice(), by) < groups_of(outputs.as_slice()) {
        return Reply::No(Refusal::Nothing);
    }
    end_with(tables, marks, &found, by, job, outputs.as_slice());
    Reply::Count(outputs.len() as u32)
}
