//! The queue of tables with the texts that the spool volumes give.
ghost use Rattle.std.specs.Prelude.{◌≡◌, ◌≤◌, ◌<◌, ℕ, false, [], All, List, length, IfOk};
ghost use Rattle.lay_bytes.specs.declared.records.JobRec.{JobRec as JobRecLem};
ghost use Rattle.lay_bytes.specs.declared.records.OutRec.{OutRec as OutRecLem};
ghost use Rattle.mas_types.specs.declared.ids.Dev.TheVariants.{Spool};
ghost use Rattle.mas_types.specs.declared.queues.Thing.{Thing as ThingLem};
ghost use Rattle.mas_types.specs.declared.queues.Thing.TheVariants.{Deck, Output as OutputOf};
ghost use Rattle.mas_types.specs.Queue.{line_count};
ghost use Rattle.spool_plant.specs.declared.plant.Part.TheVariants.{Disk};
ghost use Rattle.spool_plant.specs.View.{disk_now};
ghost use Rattle.spool_volumes.specs.Volumes.{volume_of, IsSteady, AreRoomy};
ghost use Rattle.spool_volumes.specs.Looks.{LooksAt};
ghost use Rattle.spool_volumes.specs.Texts.{IsLimited};
ghost use Rattle.track_groups.specs.Places.{groups_of as groups_of_lem};
ghost use Rattle.track_texts.specs.Index.{AreTextGroups};
ghost use Rattle.ckpt_tables.specs.Shape.{HasSpelling};
ghost use Rattle.job_queue.specs.Jobs.{AreJobs};
ghost use Rattle.output_queue.specs.Outputs.{AreOutputs};
ghost use Rattle.queue_telling.specs.Telling.{Tell};
ghost use Rattle.mas_complex.specs.Texts.{lost_now, spools_at, bytes_on, IsReadUnless, HasTexts};
ghost use Rattle.warm_start.specs.Spooled.{IsGiven, AreGiven};

use crate::looking::OPERATOR;
use crate::queues::{jobs_in_order, outputs_in_order};
use ckpt_tables::Tables;
use mas_complex::{BriefJob, BriefOutput, BriefQueue, BriefText};
use mas_types::{Copied, Dev, GroupNo, List, NoMemory, Owner, Thing};
use spool_plant::Plant;
use spool_volumes::read_text;
use std::alloc::Global;
use track_groups::law_of_places;
use track_texts::TextGroups;

// Syncs each volume of the configuration. One that fails is lost.
fn sync_volumes<P: Plant>(plant: &mut P, volumes: u8)
    ensures looks { LooksAt P.tells 0 (P.view plant.old) (P.view plant.new) }
    ensures synced { P.tells → (n : ℕ) → 1 ≤ n → n ≤ volumes → (P.view plant.new).lost (Disk (Spool n)) ≡ false
        → (disk_now (P.view plant.new) (Spool n)).unsynced ≡ [] }
{
    for volume in 0..volumes {
        let _act = plant.sync(OPERATOR, Dev::Spool(volume + 1));
    }
}

// The groups of a deck or an output, each of which is there.
fn groups_in(
    alloc: Global,
    texts: &TextGroups,
    owners: &[Owner],
    thing: Thing,
) -> Result<List<GroupNo>, NoMemory>
    requires { AreTextGroups texts.now owners.now }
    ensures groups { IfOk result (λ groups. groups ≡ groups_of_lem thing owners.now) }
    ensures numbered { (t : ThingLem) → All (λ g. g.0 < length owners.now) (groups_of_lem t owners.now) }
{
    law_of_places();
    texts.groups_of(alloc, thing)
}

// The text of a deck or an output, of which its slot counts so many lines.
fn text_in<P: Plant>(
    alloc: Global,
    plant: &mut P,
    tables: &Tables,
    texts: &TextGroups,
    thing: Thing,
    count: u16,
) -> Result<BriefText, NoMemory>
    requires spelling { HasSpelling tables.now }
    requires index { AreTextGroups texts.now tables.now.owners }
    requires roomy { AreRoomy (P.view plant.old) tables.now.config }
    ensures looks { LooksAt P.tells 0 (P.view plant.old) (P.view plant.new) }
    ensures count { IfOk result (λ text. line_count text ≡ count) }
    ensures limited { IfOk result IsLimited }
    ensures text { IfOk result (λ text. P.tells
        → IsReadUnless (lost_now (P.view plant.new)) (bytes_on (spools_at (P.view plant.old) (P.view plant.old).now))
        tables.now.config.groups text (groups_of_lem thing tables.now.owners)) }
    ensures given { IfOk result (λ text. P.tells → IsSteady (P.view plant.old) (P.view plant.new)
        → IsGiven (P.view plant.old) tables.now.config.groups text (groups_of_lem thing tables.now.owners)) }
{
    let per = tables.config.groups as u32;
    let groups = groups_in(alloc, texts, tables.owners.as_slice(), thing)?;
    // The operator is never stopped.
    let Ok(text) = read_text(plant, OPERATOR, per, groups.as_slice(), count) else {
        return Err(NoMemory);
    };
    Ok(text)
}

// The jobs of tables with their texts.
fn jobs_on<P: Plant>(
    alloc: Global,
    plant: &mut P,
    tables: &Tables,
    texts: &TextGroups,
) -> Result<List<BriefJob>, NoMemory>
    requires spelling { HasSpelling tables.now }
    requires index { AreTextGroups texts.now tables.now.owners }
    requires roomy { AreRoomy (P.view plant.old) tables.now.config }
    ensures looks { LooksAt P.tells 0 (P.view plant.old) (P.view plant.new) }
    ensures jobs { IfOk result (λ jobs. AreJobs tables.now.jobs jobs) }
    ensures limited { IfOk result (λ jobs. All (λ j. IsLimited j.text) jobs) }
    ensures texts { IfOk result (λ jobs. P.tells
        → All (λ j. IsReadUnless (lost_now (P.view plant.new))
        (bytes_on (spools_at (P.view plant.old) (P.view plant.old).now)) tables.now.config.groups j.text
        (groups_of_lem (Deck j.number) tables.now.owners)) jobs) }
    ensures given { IfOk result (λ jobs. P.tells → IsSteady (P.view plant.old) (P.view plant.new)
        → All (λ j. IsGiven (P.view plant.old) tables.now.config.groups j.text
        (groups_of_lem (Deck j.number) tables.now.owners)) jobs) }
{
    let records = jobs_in_order(alloc, tables.jobs.as_slice())?;
    let mut jobs = List::new(alloc);
    for record in records.as_slice() {
        let text = text_in(
            alloc,
            plant,
            tables,
            texts,
            Thing::Deck(record.number),
            record.cards,
        )?;
        jobs.push(BriefJob {
            number: record.number,
            fields: record.fields,
            phase: record.phase,
            cancelled: record.cancelled,
            busy: record.busy,
            text,
        })?;
    }
    Ok(jobs)
}

// The outputs of tables with their texts.
fn outputs_on<P: Plant>(
    alloc: Global,
    plant: &mut P,
    tables: &Tables,
    texts: &TextGroups,
) -> Result<List<BriefOutput>, NoMemory>
    requires spelling { HasSpelling tables.now }
    requires index { AreTextGroups texts.now tables.now.owners }
    requires roomy { AreRoomy (P.view plant.old) tables.now.config }
    ensures looks { LooksAt P.tells 0 (P.view plant.old) (P.view plant.new) }
    ensures outputs { IfOk result (λ outputs. AreOutputs tables.now.outputs outputs) }
    ensures limited { IfOk result (λ outputs. All (λ o. IsLimited o.text) outputs) }
    ensures texts { IfOk result (λ outputs. P.tells
        → All (λ o. IsReadUnless (lost_now (P.view plant.new))
        (bytes_on (spools_at (P.view plant.old) (P.view plant.old).now)) tables.now.config.groups o.text
        (groups_of_lem (OutputOf o.job o.index) tables.now.owners)) outputs) }
    ensures given { IfOk result (λ outputs. P.tells → IsSteady (P.view plant.old) (P.view plant.new)
        → All (λ o. IsGiven (P.view plant.old) tables.now.config.groups o.text
        (groups_of_lem (OutputOf o.job o.index) tables.now.owners)) outputs) }
{
    let records = outputs_in_order(alloc, tables.outputs.as_slice())?;
    let mut outputs = List::new(alloc);
    for record in records.as_slice() {
        let thing = Thing::Output(record.job, record.index);
        let text = text_in(alloc, plant, tables, texts, thing, record.lines)?;
        outputs.push(BriefOutput {
            job: record.job,
            index: record.index,
            class: record.class,
            dest: record.dest,
            forms: record.forms,
            copies: record.copies,
            held: record.held,
            busy: record.busy,
            mark: record.mark,
            text,
        })?;
    }
    Ok(outputs)
}

/// The queue of tables with its texts, as they stand on the spool volumes: the operator syncs each volume of the
/// configuration, and then reads the text of each deck and each output.
///
/// Each volume that isn't lost has room for its groups. A text is what its groups hold, with as many lines as its slot
/// counts, and all of it is synced. One with a group on a volume that is lost, or with one that holds no records, is
/// gone, and names the first such group; only where a volume is lost in the call is no more said of a text with a group
/// on it than the number of its lines. No byte of a device is changed, and no volume is lost but by an act that failed.
///
/// NoMemory comes only if the run is out of memory.
pub fn spooled_queue<P: Plant>(
    alloc: Global,
    plant: &mut P,
    tables: &Tables,
) -> Result<BriefQueue, NoMemory>
    requires spelling { HasSpelling tables.now }
    requires roomy { AreRoomy (P.view plant.old) tables.now.config }
    ensures looks { LooksAt P.tells 0 (P.view plant.old) (P.view plant.new) }
    ensures tell { IfOk result (Tell tables.now) }
    ensures limited { IfOk result (λ queue. All (λ j. IsLimited j.text) queue.jobs
        × All (λ o. IsLimited o.text) queue.outputs) }
    ensures texts { IfOk result (λ queue. P.tells
        → HasTexts (lost_now (P.view plant.new)) (spools_at (P.view plant.new) (P.view plant.new).now)
        tables.now.config.groups queue) }
    ensures given { IfOk result (λ queue. P.tells → IsSteady (P.view plant.old) (P.view plant.new)
        → AreGiven (P.view plant.new) tables.now.config.groups queue) }
{
    law_of_places();
    sync_volumes(plant, tables.config.volumes);
    let texts = TextGroups::of(alloc, tables.owners.as_slice())?;
    let jobs = jobs_on(alloc, plant, tables, &texts)?;
    let outputs = outputs_on(alloc, plant, tables, &texts)?;
    Ok(BriefQueue {
        config: tables.config,
        jobs,
        outputs,
        owners: tables.owners.copy(alloc)?,
        members: tables.members.copy(alloc)?,
        routes: tables.routes.copy(alloc)?,
        lines: tables.lines.copy(alloc)?,
        last: tables.last,
    })
}
