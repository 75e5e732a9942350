//! A warm start: what the copies hold is found, and each copy that is left gets it.
ghost use Rattle.std.specs.Prelude.{◌≡◌, ◌≢◌, ◌⊎◌, ◌&&◌, ◌<◌, ◌≤◌, Bool, not, [], None, length, IfOk, IfErr, OnOk, IsErrOf, true, false};
ghost use Rattle.mas_types.specs.declared.ids.Dev.{Dev as DevLem};
ghost use Rattle.mas_types.specs.declared.ids.Dev.TheVariants.{Ckpt1, Ckpt2, Spool};
ghost use Rattle.mas_types.specs.Sound.{IsSound};
ghost use Rattle.mas_types.specs.Limits.{pages_most};
ghost use Rattle.spool_plant.specs.declared.plant.Part.TheVariants.{Disk};
ghost use Rattle.spool_plant.specs.View.{View, disk_now};
ghost use Rattle.spool_plant.specs.Acts.{Goes, top};
ghost use Rattle.ckpt_copy.specs.Pages.{bytes_of, level};
ghost use Rattle.ckpt_copy.specs.Meanwhile.{Meanwhile};
ghost use Rattle.ckpt_pages.specs.Given.{levels_given};
ghost use Rattle.duplex_pair.specs.declared.errors.PairNo.TheVariants.{BothLost as PairNoBothLost, Halted as PairNoHalted};
ghost use Rattle.duplex_pair.specs.Halves.{IsCkpt, pick, other, IsGone, SameOrLost, SomeAlive, IsBothLost};
ghost use Rattle.duplex_pair.specs.Both.{PairActed, BothMeanwhile};
ghost use Rattle.ckpt_places.specs.declared.places.Place.TheVariants.{Before as AtBefore};
ghost use Rattle.mas_complex.specs.Locking.{book_of};
ghost use Rattle.mas_complex.specs.Headline.{LeavesQueue};
ghost use Rattle.mas_complex.specs.Paper.{no_counts};
ghost use Rattle.mas_complex.specs.Past.{nobody_noted, values_of};
ghost use Rattle.mas_complex.specs.Renewals.{no_renewals};
ghost use Rattle.spool_volumes.specs.Volumes.{IsSteady, AreRoomy};
ghost use Rattle.queue_telling.specs.Telling.{Tell};
ghost use Rattle.start_choice.specs.Choosing.{IsFew, goes as goes_lem};
ghost use Rattle.warm_start.specs.Judging.{Has};
ghost use Rattle.warm_start.specs.Inspecting.{FindsNone};
ghost use Rattle.mas_complex.specs.Texts.{HasTexts, lost_now, spools_at};
ghost use Rattle.warm_start.specs.Spooled.{AreGiven};
ghost use Rattle.warm_start.specs.Starting.{Chosen, Fitting, MayLose, Starts, OneFailed, LosesBoth, IsHeld, IsCauseOf, IsSmallAt, IsSmallVolumeAt, OnlyLooked, OnlyLookedAtAll, HasStarted, HeldBack};

use crate::looking::{OPERATOR, judge_both};
use crate::spooled::spooled_queue;
use ckpt_copy::Copying;
use ckpt_pages::levels_of;
use ckpt_tables::Tables;
use duplex_pair::{Pair, PairNo, pages_level};
use mas_complex::{BriefQueue, Complex, Steady};
use mas_types::limits::PAGE_BYTES;
use mas_types::{Config, Dev, Level, List, Page};
use queue_tables::law_of_told_queues;
use spool_plant::{Part, Plant};
use start_choice::{Good, Start, StartNo, choose, is_to_go};
use std::alloc::Global;

/// What a run goes on with after a warm start.
#[derive(Drop)]
pub struct Started<P: Plant + Drop, C: Steady + Drop> {
    /// The shared value, which begins with the queue that was found.
    pub complex: Complex<P, C>,
    /// The tables that were found.
    pub tables: Tables,
    /// The pages that spell them.
    pub pages: List<Page>,
    /// The level of each page.
    pub levels: List<Level>,
}

/// Why a warm start gave nothing, and the plant that was lent to it.
#[derive(Drop)]
pub struct Unstarted<P: Drop> {
    /// The plant.
    pub plant: P,
    /// Why nothing was started.
    pub why: StartNo,
}

// What was found on the copies.
#[derive(Drop)]
struct Found {
    start: Start,
    levels: List<Level>,
}

// What was found, and all else that takes memory.
#[derive(Drop)]
struct Ready {
    start: Start,
    levels: List<Level>,
    base: BriefQueue,
}

fn refuse_if_small<P: Plant>(plant: &P, dev: Dev, needed: u64) -> Result<(), StartNo>
    ensures small { IfErr result (λ why. (why ≡ StartNo.DeviceSize dev ((P.view plant.now).size dev))
        × ((P.view plant.now).size dev < needed)) }
    ensures large { OnOk result (needed ≤ (P.view plant.now).size dev) }
{
    let size = plant.size(dev);
    if size < needed {
        Err(StartNo::DeviceSize { dev, size })
    } else {
        Ok(())
    }
}

// Refuses a volume that isn't lost and is too small.
fn refuse_small_volume<P: Plant>(plant: &P, volume: u8, needed: u64) -> Result<(), StartNo>
    ensures small { IfErr result (λ why.
        (why ≡ StartNo.DeviceSize (Spool volume) ((P.view plant.now).size (Spool volume)))
        × ((P.view plant.now).size (Spool volume) < needed) × ((P.view plant.now).lost (Disk (Spool volume)) ≡ false)) }
    ensures large { OnOk result ((P.view plant.now).lost (Disk (Spool volume)) ≡ false
        → needed ≤ (P.view plant.now).size (Spool volume)) }
{
    let dev = Dev::Spool(volume);
    if plant.lost(Part::Disk(dev)) {
        return Ok(());
    }
    refuse_if_small(plant, dev, needed)
}

// Refuses the first volume of the configuration that isn't lost and has no room for its groups.
fn refuse_small_volumes<P: Plant>(plant: &P, config: &Config) -> Result<(), StartNo>
    ensures small { IfErr result (IsSmallVolumeAt config.now (P.view plant.now)) }
    ensures roomy { OnOk result (AreRoomy (P.view plant.now) config.now) }
{
    let needed = PAGE_BYTES as u64 * config.groups as u64;
    for volume in 0..config.volumes {
        refuse_small_volume(plant, volume + 1, needed)?;
    }
    Ok(())
}

/// Refuses the first device that is too small: CKPT1, CKPT2, and then each volume of the configuration that isn't lost.
/// The only error is DeviceSize, with the device and its bytes.
pub fn refuse_small<P: Plant>(plant: &P, needed: u64, config: &Config) -> Result<(), StartNo>
    ensures small { IfErr result (IsSmallAt needed config.now (P.view plant.now)) }
    ensures large { OnOk result ((needed ≤ (P.view plant.now).size Ckpt1) × (needed ≤ (P.view plant.now).size Ckpt2)) }
    ensures roomy { OnOk result (AreRoomy (P.view plant.now) config.now) }
{
    refuse_if_small(plant, Dev::Ckpt1, needed)?;
    refuse_if_small(plant, Dev::Ckpt2, needed)?;
    refuse_small_volumes(plant, config)
}

/// Which copy counts, and whether the other one stays. Nothing is written.
pub(crate) fn choose_copy<P: Plant, C: Steady + Drop>(
    alloc: Global,
    plant: &mut P,
    pair: &mut Pair<C>,
) -> Result<Start, StartNo>
    requires alive1 { pair.old.first.alive ≡ true }
    requires alive2 { pair.old.second.alive ≡ true }
    ensures acted { PairActed 0 true pair.new.first.alive true pair.new.second.alive false (P.view plant.old)
        (P.view plant.new) }
    ensures gone1 { P.tells → IsGone Ckpt1 true pair.new.first.alive (P.view plant.new) }
    ensures gone2 { P.tells → IsGone Ckpt2 true pair.new.second.alive (P.view plant.new) }
    ensures during { P.tells → OnlyLooked (P.view plant.old) (P.view plant.new) }
    ensures starts { OnOk result (Starts pair.new.first.alive pair.new.second.alive (P.view plant.old)
        (P.view plant.new)) }
    ensures cause { IfErr result (IsCauseOf C.reads P.tells C.needs (P.view plant.old) (P.view plant.new)
        pair.new.first.alive pair.new.second.alive) }
    ensures none { IfErr result (FindsNone C.reads P.tells C.needs (P.view plant.old) (P.view plant.new)) }
    ensures few { IfOk result (λ start. IsFew start.found) }
    ensures chosen { IfOk result (Chosen C.count C.room C.room_most C.room_in C.ready C.reads C.rests P.tells
        (P.view plant.old) (P.view plant.new) pair.new.first.copy pair.new.second.copy pair.new.first.alive
        pair.new.second.alive pair.new.first.found pair.new.second.found) }
{
    let Ok((first, second)) = judge_both(alloc, plant, pair) else {
        return Err(StartNo::NoMemory);
    };
    let first_room = pair.first.copy.room();
    let second_room = pair.second.copy.room();
    choose(first, first_room, second, second_room)
}

// Which copy counts, and the levels of its pages. Nothing is written.
fn find<P: Plant, C: Steady + Drop>(
    alloc: Global,
    plant: &mut P,
    pair: &mut Pair<C>,
) -> Result<Found, StartNo>
    requires alive1 { pair.old.first.alive ≡ true }
    requires alive2 { pair.old.second.alive ≡ true }
    ensures acted { PairActed 0 true pair.new.first.alive true pair.new.second.alive false (P.view plant.old)
        (P.view plant.new) }
    ensures gone1 { P.tells → IsGone Ckpt1 true pair.new.first.alive (P.view plant.new) }
    ensures gone2 { P.tells → IsGone Ckpt2 true pair.new.second.alive (P.view plant.new) }
    ensures during { P.tells → OnlyLooked (P.view plant.old) (P.view plant.new) }
    ensures starts { OnOk result (Starts pair.new.first.alive pair.new.second.alive (P.view plant.old)
        (P.view plant.new)) }
    ensures cause { IfErr result (IsCauseOf C.reads P.tells C.needs (P.view plant.old) (P.view plant.new)
        pair.new.first.alive pair.new.second.alive) }
    ensures large { IfOk result (λ found. (C.needs (length found.start.found.pages) ≤ (P.view plant.new).size Ckpt1)
        × (C.needs (length found.start.found.pages) ≤ (P.view plant.new).size Ckpt2)) }
    ensures roomy { IfOk result (λ found. AreRoomy (P.view plant.new) found.start.found.tables.config) }
    ensures levels { IfOk result (λ found. found.levels ≡ levels_given found.start.found.pages) }
    ensures chosen { IfOk result (λ found.
        Chosen C.count C.room C.room_most C.room_in C.ready C.reads C.rests P.tells (P.view plant.old)
        (P.view plant.new) pair.new.first.copy pair.new.second.copy pair.new.first.alive pair.new.second.alive
        pair.new.first.found pair.new.second.found found.start) }
{
    let start = choose_copy(alloc, plant, pair)?;
    let needed = C::size_for(start.found.pages.len() as u16);
    refuse_small(plant, needed, &start.found.tables.config)?;
    let Ok(levels) = levels_of(alloc, start.found.pages.as_slice()) else {
        return Err(StartNo::NoMemory);
    };
    Ok(Found { start, levels })
}

// Which copy counts, the queue that its tables tell with its texts, and with it all that the start takes of memory.
// Nothing is written.
fn prepare<P: Plant, C: Steady + Drop>(
    alloc: Global,
    plant: &mut P,
    pair: &mut Pair<C>,
) -> Result<Ready, StartNo>
    requires alive1 { pair.old.first.alive ≡ true }
    requires alive2 { pair.old.second.alive ≡ true }
    ensures goes { Goes (P.view plant.old) (P.view plant.new) }
    ensures loses { (d : DevLem) → (P.view plant.new).loses d ≡ (P.view plant.old).loses d }
    ensures gone1 { P.tells → IsGone Ckpt1 true pair.new.first.alive (P.view plant.new) }
    ensures gone2 { P.tells → IsGone Ckpt2 true pair.new.second.alive (P.view plant.new) }
    ensures during { P.tells → OnlyLookedAtAll (P.view plant.old) (P.view plant.new) }
    ensures starts { OnOk result (Starts pair.new.first.alive pair.new.second.alive (P.view plant.old)
        (P.view plant.new)) }
    ensures cause { IfErr result (IsCauseOf C.reads P.tells C.needs (P.view plant.old) (P.view plant.new)
        pair.new.first.alive pair.new.second.alive) }
    ensures lost { IfErr result (λ why. why ≡ StartNo.BothLost → LosesBoth (P.view plant.old) (P.view plant.new)) }
    ensures large { IfOk result (λ ready. (C.needs (length ready.start.found.pages) ≤ (P.view plant.new).size Ckpt1)
        × (C.needs (length ready.start.found.pages) ≤ (P.view plant.new).size Ckpt2)) }
    ensures roomy { IfOk result (λ ready. AreRoomy (P.view plant.new) ready.start.found.tables.config) }
    ensures levels { IfOk result (λ ready. ready.levels ≡ levels_given ready.start.found.pages) }
    ensures tell { IfOk result (λ ready. Tell ready.start.found.tables ready.base) }
    ensures sound { IfOk result (λ ready. IsSound ready.base) }
    ensures texts { IfOk result (λ ready. P.tells
        → HasTexts (lost_now (P.view plant.new)) (spools_at (P.view plant.new) (P.view plant.new).now)
        ready.start.found.tables.config.groups ready.base) }
    ensures given { IfOk result (λ ready. P.tells → IsSteady (P.view plant.old) (P.view plant.new)
        → AreGiven (P.view plant.new) ready.start.found.tables.config.groups ready.base) }
    ensures chosen { IfOk result (λ ready.
        Chosen C.count C.room C.room_most C.room_in C.ready C.reads C.rests P.tells (P.view plant.old)
        (P.view plant.new) pair.new.first.copy pair.new.second.copy pair.new.first.alive pair.new.second.alive
        pair.new.first.found pair.new.second.found ready.start) }
{
    let found = find(alloc, plant, pair)?;
    let Ok(base) = spooled_queue(alloc, plant, &found.start.found.tables) else {
        return Err(StartNo::NoMemory);
    };
    law_of_told_queues();
    Ok(Ready {
        start: found.start,
        levels: found.levels,
        base,
    })
}

// Loses a copy that is to go, unless it counts as lost.
fn lose_where<P: Plant, C: Steady + Drop>(plant: &mut P, pair: &mut Pair<C>, dev: Dev, goes: bool)
    requires ckpt { IsCkpt dev }
    ensures other { other dev pair.new.first pair.new.second ≡ other dev pair.old.first pair.old.second }
    ensures copy { (pick dev pair.new.first pair.new.second).copy ≡ (pick dev pair.old.first pair.old.second).copy }
    ensures found { (pick dev pair.new.first pair.new.second).found ≡ (pick dev pair.old.first pair.old.second).found }
    ensures alive { (pick dev pair.new.first pair.new.second).alive
        ≡ ((pick dev pair.old.first pair.old.second).alive && not goes) }
    ensures lost { MayLose dev (pick dev pair.old.first pair.old.second).alive
        (pick dev pair.new.first pair.new.second).alive (P.view plant.old) (P.view plant.new) }
    ensures gone { P.tells → IsGone dev (pick dev pair.old.first pair.old.second).alive
        (pick dev pair.new.first pair.new.second).alive (P.view plant.new) }
    ensures during { P.tells → Meanwhile dev (SameOrLost (disk_now (P.view plant.old) dev)) (P.view plant.old)
        (P.view plant.new) }
    ensures idle { (pick dev pair.new.first pair.new.second).alive ≡ (pick dev pair.old.first pair.old.second).alive
        → plant.new ≡ plant.old }
{
    if !goes {
        return;
    }
    if !pair.alive(dev) {
        return;
    }
    pair.lose(plant, dev);
}

// The copy beside the one that counts goes, where it may not stay.
fn lose_unfit<P: Plant, C: Steady + Drop>(plant: &mut P, pair: &mut Pair<C>, start: &Start)
    requires fits1 { goes_lem Ckpt1 start.now ≡ false → pair.old.first.alive ≡ true
        → Fitting C.count C.room C.room_most C.ready C.rests P.tells Ckpt1 (P.view plant.old) pair.old.first.copy
        pair.old.first.alive pair.old.first.found start.now.found.pages }
    requires fits2 { goes_lem Ckpt2 start.now ≡ false → pair.old.second.alive ≡ true
        → Fitting C.count C.room C.room_most C.ready C.rests P.tells Ckpt2 (P.view plant.old) pair.old.second.copy
        pair.old.second.alive pair.old.second.found start.now.found.pages }
    requires one { ((goes_lem Ckpt1 start.now ≡ false)
        × Has C.count C.room C.room_most C.ready C.rests P.tells Ckpt1 (P.view plant.old) pair.old.first.copy
        pair.old.first.alive pair.old.first.found start.now.found.pages)
        ⊎ ((goes_lem Ckpt2 start.now ≡ false)
        × Has C.count C.room C.room_most C.ready C.rests P.tells Ckpt2 (P.view plant.old) pair.old.second.copy
        pair.old.second.alive pair.old.second.found start.now.found.pages) }
    ensures goes { Goes (P.view plant.old) (P.view plant.new) }
    ensures starts { (old : View) → Starts pair.old.first.alive pair.old.second.alive old (P.view plant.old)
        → Starts pair.new.first.alive pair.new.second.alive old (P.view plant.new) }
    ensures gone1 { P.tells → IsGone Ckpt1 true pair.old.first.alive (P.view plant.old)
        → IsGone Ckpt1 true pair.new.first.alive (P.view plant.new) }
    ensures gone2 { P.tells → IsGone Ckpt2 true pair.old.second.alive (P.view plant.old)
        → IsGone Ckpt2 true pair.new.second.alive (P.view plant.new) }
    ensures during { P.tells → BothMeanwhile (SameOrLost (disk_now (P.view plant.old) Ckpt1))
        (SameOrLost (disk_now (P.view plant.old) Ckpt2)) (P.view plant.old) (P.view plant.new) }
    ensures fits1 { pair.new.first.alive ≡ true
        → Fitting C.count C.room C.room_most C.ready C.rests P.tells Ckpt1 (P.view plant.new) pair.new.first.copy
        pair.new.first.alive pair.new.first.found start.now.found.pages }
    ensures fits2 { pair.new.second.alive ≡ true
        → Fitting C.count C.room C.room_most C.ready C.rests P.tells Ckpt2 (P.view plant.new) pair.new.second.copy
        pair.new.second.alive pair.new.second.found start.now.found.pages }
    ensures dead1 { pair.old.first.alive ≡ false → (P.view plant.new).loses Ckpt1 ≡ (P.view plant.old).loses Ckpt1 }
    ensures dead2 { pair.old.second.alive ≡ false → (P.view plant.new).loses Ckpt2 ≡ (P.view plant.old).loses Ckpt2 }
    ensures kept1 { goes_lem Ckpt1 start.now ≡ false → (P.view plant.new).loses Ckpt1 ≡ (P.view plant.old).loses Ckpt1 }
    ensures kept2 { goes_lem Ckpt2 start.now ≡ false → (P.view plant.new).loses Ckpt2 ≡ (P.view plant.old).loses Ckpt2 }
    ensures one { ((pair.new.first.alive ≡ true) × (pair.new.first.found ≡ level (bytes_of start.now.found.pages)))
        ⊎ ((pair.new.second.alive ≡ true) × (pair.new.second.found ≡ level (bytes_of start.now.found.pages))) }
{
    lose_where(plant, pair, Dev::Ckpt1, is_to_go(start, Dev::Ckpt1));
    lose_where(plant, pair, Dev::Ckpt2, is_to_go(start, Dev::Ckpt2));
}

// Each copy that is left gets the pages found.
fn bring<P: Plant, C: Steady + Drop>(
    plant: &mut P,
    pair: &mut Pair<C>,
    start: &Start,
) -> Result<(), PairNo>
    requires fits1 { goes_lem Ckpt1 start.now ≡ false → pair.old.first.alive ≡ true
        → Fitting C.count C.room C.room_most C.ready C.rests P.tells Ckpt1 (P.view plant.old) pair.old.first.copy
        pair.old.first.alive pair.old.first.found start.now.found.pages }
    requires fits2 { goes_lem Ckpt2 start.now ≡ false → pair.old.second.alive ≡ true
        → Fitting C.count C.room C.room_most C.ready C.rests P.tells Ckpt2 (P.view plant.old) pair.old.second.copy
        pair.old.second.alive pair.old.second.found start.now.found.pages }
    requires one { ((goes_lem Ckpt1 start.now ≡ false)
        × Has C.count C.room C.room_most C.ready C.rests P.tells Ckpt1 (P.view plant.old) pair.old.first.copy
        pair.old.first.alive pair.old.first.found start.now.found.pages)
        ⊎ ((goes_lem Ckpt2 start.now ≡ false)
        × Has C.count C.room C.room_most C.ready C.rests P.tells Ckpt2 (P.view plant.old) pair.old.second.copy
        pair.old.second.alive pair.old.second.found start.now.found.pages) }
    ensures goes { Goes (P.view plant.old) (P.view plant.new) }
    ensures starts { (old : View) → Starts pair.old.first.alive pair.old.second.alive old (P.view plant.old)
        → Starts pair.new.first.alive pair.new.second.alive old (P.view plant.new) }
    ensures gone1 { P.tells → IsGone Ckpt1 true pair.old.first.alive (P.view plant.old)
        → IsGone Ckpt1 true pair.new.first.alive (P.view plant.new) }
    ensures gone2 { P.tells → IsGone Ckpt2 true pair.old.second.alive (P.view plant.old)
        → IsGone Ckpt2 true pair.new.second.alive (P.view plant.new) }
    ensures during { P.tells → BothMeanwhile
        (IsHeld C.reads (disk_now (P.view plant.old) Ckpt1) (bytes_of start.now.found.pages))
        (IsHeld C.reads (disk_now (P.view plant.old) Ckpt2) (bytes_of start.now.found.pages)) (P.view plant.old)
        (P.view plant.new) }
    ensures ready1 { pair.new.first.alive ≡ true → C.ready pair.new.first.copy (P.view plant.new) }
    ensures ready2 { pair.new.second.alive ≡ true → C.ready pair.new.second.copy (P.view plant.new) }
    ensures as_many1 { pair.new.first.alive ≡ true → length start.now.found.pages ≡ C.count pair.new.first.copy }
    ensures as_many2 { pair.new.second.alive ≡ true → length start.now.found.pages ≡ C.count pair.new.second.copy }
    ensures rests1 { OnOk result (P.tells → pair.new.first.alive ≡ true
        → C.rests pair.new.first.copy (bytes_of start.now.found.pages) (disk_now (P.view plant.new) Ckpt1)) }
    ensures rests2 { OnOk result (P.tells → pair.new.second.alive ≡ true
        → C.rests pair.new.second.copy (bytes_of start.now.found.pages) (disk_now (P.view plant.new) Ckpt2)) }
    ensures dead1 { pair.old.first.alive ≡ false → (P.view plant.new).loses Ckpt1 ≡ (P.view plant.old).loses Ckpt1 }
    ensures dead2 { pair.old.second.alive ≡ false → (P.view plant.new).loses Ckpt2 ≡ (P.view plant.old).loses Ckpt2 }
    ensures kept1 { goes_lem Ckpt1 start.now ≡ false → (P.view plant.new).loses Ckpt1 ≡ (P.view plant.old).loses Ckpt1 }
    ensures kept2 { goes_lem Ckpt2 start.now ≡ false → (P.view plant.new).loses Ckpt2 ≡ (P.view plant.old).loses Ckpt2 }
    ensures both { IsErrOf result PairNoBothLost → IsBothLost pair.new.first.alive pair.new.second.alive }
    ensures failed { IsErrOf result PairNoBothLost → (old : View)
        → Starts pair.old.first.alive pair.old.second.alive old (P.view plant.old) → OneFailed old (P.view plant.new) }
    ensures halts { IsErrOf result PairNoHalted → ⊥ }
    ensures ok { OnOk result (SomeAlive pair.new.first.alive pair.new.second.alive) }
{
    lose_unfit(plant, pair, start);
    pair.mend(plant, OPERATOR, start.found.pages.as_slice())
}

/// A warm start of a pair of copies, of which nothing is known yet, on a plant.
///
/// The operator looks at both copies. The one that counts is the usable one of greater level, CKPT1 on a tie: its pages
/// spell tables without a fault. The other one is lost by a call where it can't be used or doesn't fit, and else it
/// gets the pages of the one that counts, if it lags one level behind. Before that it syncs the spool volumes and reads
/// the texts of the queue from them: one with a group on a volume that is lost, or with one that holds no records, is
/// gone, and names the first such group. The shared value then begins with the queue that the pages and the volumes
/// give, and nobody holds its lock.
///
/// NotFormatted comes where no copy can be used while one isn't lost, with the state of each; DeviceSize where a device
/// is too small for the pages found, or a volume that isn't lost for the groups of their configuration, the first such;
/// BothLost only where both copies count as lost at the end, and were lost before or an act failed on one that wasn't.
/// After an error other than BothLost nothing was written, and no copy was lost by a call.
pub fn warm<P: Plant + Drop, C: Steady + Drop>(
    alloc: Global,
    plant: P,
    pair: Pair<C>,
) -> Result<Started<P, C>, Unstarted<P>>
    requires alive1 { pair.first.alive ≡ true }
    requires alive2 { pair.second.alive ≡ true }
    ensures started { IfOk result (λ w.
        HasStarted C.count C.room_in C.needs C.reads P.tells w.complex.base w.tables w.pages w.levels w.complex.level
        w.complex.pair.first.copy w.complex.pair.first.alive w.complex.pair.second.copy w.complex.pair.second.alive
        (P.view plant) (P.view w.complex.plant)) }
    ensures since { IfOk result (λ w. w.complex.since ≡ (P.view w.complex.plant).now) }
    ensures fresh { IfOk result (λ w. P.tells
        → ∥ ((later : View) → Goes (P.view w.complex.plant) later
        → LeavesQueue C.reads w.complex.base w.complex.since later) ∥₁) }
    ensures journal { IfOk result (λ w. w.complex.journal.batches ≡ []) }
    ensures places { IfOk result (λ w. (w.complex.first ≡ AtBefore) × (w.complex.second ≡ AtBefore)) }
    ensures none { IfOk result (λ w. (w.complex.current ≡ None) × (w.complex.placed ≡ false)) }
    ensures unreserved { IfOk result (λ w. w.complex.reserved ≡ None) }
    ensures printed { IfOk result (λ w. w.complex.printed ≡ no_counts) }
    ensures renewals { IfOk result (λ w. w.complex.renewals ≡ no_renewals) }
    ensures had { IfOk result (λ w. values_of w.complex.had ≡ nobody_noted) }
    ensures book { IfOk result (λ w. w.complex.book ≡ book_of w.complex.base.config) }
    ensures cause { IfErr result (λ u. (alive1 alive2 : Bool)
        × IsCauseOf C.reads P.tells C.needs (P.view plant) (P.view u.plant) alive1 alive2 u.why) }
    ensures looked { IfErr result (λ u. u.why ≢ StartNo.BothLost
        → (P.tells → OnlyLookedAtAll (P.view plant) (P.view u.plant))
        × ((d : DevLem) → (P.view u.plant).loses d ≡ (P.view plant).loses d)) }
    ensures lost { IfErr result (λ u. u.why ≡ StartNo.BothLost → LosesBoth (P.view plant) (P.view u.plant)) }
    ensures goes { IfErr result (λ u. Goes (P.view plant) (P.view u.plant)) }
    ensures held { IfErr result (λ u. P.tells → HeldBack C.reads C.room_in (P.view plant) (P.view u.plant)) }
{
    let mut plant = plant;
    let mut pair = pair;
    let ready = match prepare(alloc, &mut plant, &mut pair) {
        Ok(ready) => ready,
        Err(why) => return Err(Unstarted { plant, why }),
    };
    // The operator never halts.
    let Ok(()) = bring(&mut plant, &mut pair, &ready.start) else {
        return Err(Unstarted {
            plant,
            why: StartNo::BothLost,
        });
    };
    let Good { pages, tables } = ready.start.found;
    let level = pages_level(pages.as_slice());
    let complex = Complex::make(alloc, plant, pair, ready.base, level);
    Ok(Started {
        complex,
        tables,
        pages,
        levels: ready.levels,
    })
}
