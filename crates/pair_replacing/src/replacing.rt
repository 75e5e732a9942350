//! A lost copy is replaced.
ghost use Rattle.std.specs.Prelude.{◌≡◌, ◌≢◌, ◌⊎◌, ℕ, ◌+◌, ◌≤◌, List, length, OnOk, OnErr, Err, IsErrOf, true, false};
ghost use Rattle.mas_types.specs.declared.ids.Dev.TheVariants.{Ckpt1, Ckpt2};
ghost use Rattle.mas_types.specs.Limits.{pages_least, pages_most};
ghost use Rattle.spool_plant.specs.View.{disk_now};
ghost use Rattle.spool_plant.specs.Acts.{Rose, top};
ghost use Rattle.spool_plant.specs.declared.plant.Part.TheVariants.{Disk};
ghost use Rattle.ckpt_copy.specs.Pages.{bytes_of};
ghost use Rattle.pair_replacing.specs.declared.replacing.ReplaceNo.TheVariants.{NotLost, BothLost, Failed, Halted as ReplaceHalted, NoMemory as ReplaceNoMemory};
ghost use Rattle.duplex_pair.specs.Halves.{IsCkpt, pick, other, IsBothLost};
ghost use Rattle.pair_replacing.specs.Replacing.{Replaces, WhileReplaced, IsOrBlank, IsBlank, IsOrForms, IsFormed, formed_no, no_memory, replace_stopped};

use ckpt_copy::{CopyNo, Copying};
use duplex_pair::{Half, Pair};
use mas_types::{Dev, MemberId, NoMemory, Page};
use spool_plant::{Act, Plant};

/// Why a copy wasn't replaced.
#[derive(Clone, Copy)]
pub enum ReplaceNo {
    /// The copy isn't lost. No act was made.
    NotLost,
    /// Both copies are lost, so that there is nothing to copy. No act was made.
    BothLost,
    /// The new device failed: its count of faults rose in this call, and it is lost.
    Failed,
    /// The member was stopped inside the call: its count of stops rose. The copy counts as lost.
    Halted,
    /// There was no memory. No act was made. A pair takes none, and never answers so.
    NoMemory,
}

impl From<CopyNo> for ReplaceNo {
    ghost from_gives = { λ no e. e ≡ formed_no no };

    fn from(no: CopyNo) -> ReplaceNo {
        match no {
            CopyNo::Failed => ReplaceNo::Failed,
            CopyNo::Halted => ReplaceNo::Halted,
        }
    }
}

impl From<NoMemory> for ReplaceNo {
    ghost from_gives = { λ no e. e ≡ no_memory };

    fn from(_no: NoMemory) -> ReplaceNo {
        ReplaceNo::NoMemory
    }
}

// Puts a device of zeros in a device's place.
fn renew_device<P: Plant>(plant: &mut P, dev: Dev) -> Result<(), ReplaceNo>
    ensures replaces { Replaces 0 dev false (P.view plant.old) (P.view plant.new) }
    ensures time { (P.view plant.new).now ≤ (P.view plant.old).now + 1 }
    ensures no { OnErr result (IsErrOf result Failed) }
    ensures failed { OnErr result (Rose ((P.view plant.old).faults (Disk dev)) ((P.view plant.new).faults (Disk dev))) }
    ensures lost { OnErr result ((P.view plant.new).lost (Disk dev) ≡ true) }
    ensures there { OnOk result ((P.view plant.new).lost (Disk dev) ≡ false) }
    ensures last { OnOk result ((P.view plant.old).now ≢ top) }
    ensures during { P.tells → WhileReplaced dev
        (IsOrBlank ((P.view plant.old).size dev) (disk_now (P.view plant.old) dev)) (P.view plant.old)
        (P.view plant.new) }
    ensures blank { OnOk result (P.tells → IsBlank ((P.view plant.old).size dev) (disk_now (P.view plant.new) dev)) }
{
    match plant.renew(dev) {
        Act::Done => Ok(()),
        Act::Failed | Act::Halted => Err(ReplaceNo::Failed),
    }
}

// Another device takes the place of this copy's, and the copy is formed on it.
fn replace_copy<P: Plant, C: Copying + Drop>(
    half: &mut Half<C>,
    plant: &mut P,
    by: MemberId,
    dev: Dev,
    pages: &[Page],
) -> Result<(), ReplaceNo>
    requires dev { dev ≡ C.dev half.old.copy }
    requires enough { pages_least ≤ length pages.now }
    requires few { length pages.now ≤ pages_most }
    requires size { C.needs (length pages.now) ≤ (P.view plant.old).size dev }
    ensures dev { C.dev half.new.copy ≡ dev }
    ensures err { OnErr result (half.new ≡ half.old) }
    ensures acted { OnErr result (IsErrOf result Failed ⊎ IsErrOf result ReplaceHalted) }
    ensures replaces { Replaces by.0 dev (replace_stopped result) (P.view plant.old) (P.view plant.new) }
    ensures failed { IsErrOf result Failed
        → Rose ((P.view plant.old).faults (Disk dev)) ((P.view plant.new).faults (Disk dev)) }
    ensures lost { IsErrOf result Failed → (P.view plant.new).lost (Disk dev) ≡ true }
    ensures last { IsErrOf result ReplaceHalted → (P.view plant.old).now ≢ top }
    ensures ok { OnOk result ((half.new.alive ≡ true)
        × IsFormed C.count C.room C.room_most C.ready (length pages.now) dev (P.view plant.new) half.new.copy) }
    ensures during { P.tells → WhileReplaced dev
        (IsOrForms C.reads (disk_now (P.view plant.old) dev) (bytes_of pages.now)) (P.view plant.old)
        (P.view plant.new) }
    ensures formed { OnOk result (P.tells
        → C.rests half.new.copy (bytes_of pages.now) (disk_now (P.view plant.new) dev)) }
{
    renew_device(plant, dev)?;
    half.copy.form(plant, by, pages)?;
    half.alive = true;
    Ok(())
}

/// Puts another device in the place of a lost one, and makes a copy of these pages on it: those that the other copy
/// reads. The copy counts as lost up to an Ok, and as alive from then on; the other copy stays as it is.
///
/// At each moment of the call the device is as it was, or each of its images reads as none or as these pages. After
/// Ok each reads as these pages. NotLost comes exactly where the copy counts as alive, and BothLost exactly where
/// neither does; then no act is made. After any error the pair is as it was. After Failed the new device is lost
/// too. Halted comes only where the member was stopped inside the call.
pub fn replace<P: Plant, C: Copying + Drop>(
    pair: &mut Pair<C>,
    plant: &mut P,
    by: MemberId,
    dev: Dev,
    pages: &[Page],
) -> Result<(), ReplaceNo>
    requires ckpt { IsCkpt dev }
    requires enough { pages_least ≤ length pages.now }
    requires few { length pages.now ≤ pages_most }
    requires size { C.needs (length pages.now) ≤ (P.view plant.old).size dev }
    ensures other { other dev pair.new.first pair.new.second ≡ other dev pair.old.first pair.old.second }
    ensures err { OnErr result (pick dev pair.new.first pair.new.second ≡ pick dev pair.old.first pair.old.second) }
    ensures alive { (pick dev pair.old.first pair.old.second).alive ≡ true → IsErrOf result NotLost }
    ensures not_lost { IsErrOf result NotLost → ((pick dev pair.old.first pair.old.second).alive ≡ true)
        × (plant.new ≡ plant.old) }
    ensures dead { IsBothLost pair.old.first.alive pair.old.second.alive → IsErrOf result BothLost }
    ensures both { IsErrOf result BothLost → IsBothLost pair.old.first.alive pair.old.second.alive
        × (plant.new ≡ plant.old) }
    ensures acted { (pick dev pair.old.first pair.old.second).alive ≡ false
        → (other dev pair.old.first pair.old.second).alive ≡ true
        → OnErr result (IsErrOf result Failed ⊎ IsErrOf result ReplaceHalted) }
    ensures memory { IsErrOf result ReplaceNoMemory → ⊥ }
    ensures replaces { Replaces by.0 dev (replace_stopped result) (P.view plant.old) (P.view plant.new) }
    ensures failed { IsErrOf result Failed
        → Rose ((P.view plant.old).faults (Disk dev)) ((P.view plant.new).faults (Disk dev)) }
    ensures lost { IsErrOf result Failed → (P.view plant.new).lost (Disk dev) ≡ true }
    ensures last { IsErrOf result ReplaceHalted → (P.view plant.old).now ≢ top }
    ensures ok { OnOk result (((pick dev pair.new.first pair.new.second).alive ≡ true)
        × IsFormed C.count C.room C.room_most C.ready (length pages.now) dev (P.view plant.new)
        (pick dev pair.new.first pair.new.second).copy) }
    ensures during { P.tells → WhileReplaced dev
        (IsOrForms C.reads (disk_now (P.view plant.old) dev) (bytes_of pages.now)) (P.view plant.old)
        (P.view plant.new) }
    ensures formed { OnOk result (P.tells
        → C.rests (pick dev pair.new.first pair.new.second).copy (bytes_of pages.now)
        (disk_now (P.view plant.new) dev)) }
{
    if pair.alive(dev) {
        return Err(ReplaceNo::NotLost);
    }
    if !pair.first.alive && !pair.second.alive {
        return Err(ReplaceNo::BothLost);
    }
    match dev {
        Dev::Ckpt1 => replace_copy(&mut pair.first, plant, by, dev, pages),
        Dev::Ckpt2 => replace_copy(&mut pair.second, plant, by, dev, pages),
        Dev::Spool(_) => unreachable!(),
    }
}
