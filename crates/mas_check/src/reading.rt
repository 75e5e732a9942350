//! What the groups of texts hold on the spool volumes.
ghost use Rattle.std.specs.Prelude.{◌≡◌, ◌*◌, ◌≤◌, [], ◌∷◌, length, IfOk};
ghost use Rattle.mas_types.specs.Limits.{volumes_most};
ghost use Rattle.spool_volumes.specs.Volumes.{volume_of};
ghost use Rattle.mas_check.specs.Volumes.{group_at, AreRecords, AreGroups, lost_volume as lost_volume_lem};
ghost use Rattle.mas_check.specs.Worlds.{OnlyReads};

use crate::groups::{Group, has_text};
use crate::records::{count_records, law_of_page};
use mas_types::limits::PAGE_BYTES;
use mas_types::{Dev, List, MemberId, NoMemory, Owner};
use spool_plant::{Act, Part, Plant};
use std::alloc::Global;

/// The operator, who never halts.
const OPERATOR: MemberId = MemberId(0);

// The number of records on a group's page, of volumes of so many groups.
fn read_group<P: Plant>(plant: &mut P, per: u32, group: u32) -> Option<u16>
    requires some { 1 ≤ per }
    requires volume { volume_of per (group_at group) ≤ 255 }
    ensures reads { OnlyReads P.tells (P.view plant.old) (P.view plant.new) }
    ensures held { AreRecords P.tells (P.view plant.old) (P.view plant.new) per group result }
{
    let dev = Dev::Spool((group / per) as u8 + 1);
    let at = PAGE_BYTES as u64 * (group % per) as u64;
    if plant.lost(Part::Disk(dev)) || plant.size(dev) < at + PAGE_BYTES as u64 {
        return None;
    }
    let mut page = [0; 4096];
    match plant.read(OPERATOR, dev, at, &mut page) {
        Act::Done => {
            law_of_page(&page);
            count_records(&page)
        }
        Act::Failed | Act::Halted => None,
    }
}

// A group with what it holds. It is read where it is of a text.
fn find_group<P: Plant>(plant: &mut P, per: u16, at: u32, owner: &Owner) -> Group
    requires some { 1 ≤ per }
    requires volume { volume_of per (group_at at) ≤ 255 }
    ensures reads { OnlyReads P.tells (P.view plant.old) (P.view plant.new) }
    ensures held { let owners = owner.now ∷ [] in let groups = result ∷ [] in
        AreGroups P.tells (P.view plant.old) (P.view plant.new) per at owners groups }
{
    if has_text(owner) {
        let records = read_group(plant, per as u32, at);
        Group {
            owner: *owner,
            records,
        }
    } else {
        Group {
            owner: *owner,
            records: None,
        }
    }
}

/// The groups of these owners with what they hold: each group of a text is read.
pub(crate) fn read_groups<P: Plant>(
    alloc: Global,
    plant: &mut P,
    per: u16,
    owners: &[Owner],
) -> Result<List<Group>, NoMemory>
    requires some { 1 ≤ per }
    requires few { length owners.now ≤ volumes_most * per }
    ensures reads { OnlyReads P.tells (P.view plant.old) (P.view plant.new) }
    ensures groups { IfOk result
        (AreGroups P.tells (P.view plant.old) (P.view plant.new) per 0 owners.now) }
    ensures count { IfOk result (λ groups. length groups ≡ length owners.now) }
{
    let mut groups = List::new(alloc);
    for (i, owner) in owners.iter().enumerate() {
        groups.push(find_group(plant, per, i as u32, owner))?;
    }
    Ok(groups)
}

/// The least volume that is lost with a group of a text on it.
pub(crate) fn lost_volume<P: Plant>(plant: &P, per: u16, owners: &[Owner]) -> Option<u8>
    requires some { 1 ≤ per }
    requires few { length owners.now ≤ volumes_most * per }
    ensures { result ≡ lost_volume_lem (P.view plant.now) per owners.now }
{
    for (i, owner) in owners.iter().enumerate() {
        let volume = (i as u32 / per as u32) as u8 + 1;
        if has_text(owner) && plant.lost(Part::Disk(Dev::Spool(volume))) {
            return Some(volume);
        }
    }
    None
}
