//! A text into a member's groups on the spool volumes.
ghost use Rattle.std.specs.Prelude.{◌≡◌, ◌≢◌, ◌≤◌, ◌<◌, ◌==◌, ◌∷◌, [], ℕ, All, None, Some, OnOk, length, slice_get};
ghost use Rattle.mas_types.specs.declared.jobs.Text.TheVariants.{Whole};
ghost use Rattle.mas_types.specs.Fit.{AreLines};
ghost use Rattle.mas_types.specs.declared.ids.GroupNo.{GroupNo};
ghost use Rattle.mas_types.specs.Owners.{groups_needed};
ghost use Rattle.spool_text.specs.Texts.{packed};
ghost use Rattle.spool_volumes.specs.Volumes.{volume_of as volume_of_lem, AreRoomy};
ghost use Rattle.mas_complex.specs.Journals.{kept_all};
ghost use Rattle.mas_complex.specs.Locking.{IsUp};
ghost use Rattle.mas_complex.specs.Meaning.{run};
ghost use Rattle.mas_complex.specs.Parts.{parts_of};
ghost use Rattle.mas_complex.specs.Spool.{IsGroupOf, IsHeldBy, IsVolumeOf};
ghost use Rattle.mas_complex.specs.Texts.{IsSynced, IsThere, spools_at};
ghost use Rattle.member_decks.specs.Spooling.{AreQuiet, GroupsKept, IsGroupKept, OnVolumes, Rise, SpoolCauses, StandBelow, answer_of, lies_there as lies_there_lem, page_in};

use mas_complex::{Complex, Steady};
use mas_types::{GroupNo, Lines, MemberId, Page};
use member_decks::SpoolError;
use spool_plant::{Act, Plant};
use spool_text::{law_of_groups, pack};
use spool_volumes::{law_of_read_texts, volume_of};

// Whether a group lies on a volume.
fn is_on(per: u32, volume: u8, group: GroupNo) -> bool
    requires { 1 ≤ per }
    ensures { result ≡ (volume_of_lem per group == volume) }
{
    (group.0 / per) as u64 + 1 == volume as u64
}

// Whether one of the groups lies on a volume.
fn lies_there(per: u32, volume: u8, groups: &[GroupNo]) -> bool
    requires { 1 ≤ per }
    ensures { result ≡ lies_there_lem per volume groups.now }
{
    groups.iter().any(|group| is_on(per, volume, *group))
}

fn answer(act: Act, volume: u8) -> Result<(), SpoolError>
    ensures { result ≡ answer_of act volume }
{
    match act {
        Act::Done => Ok(()),
        Act::Failed => Err(SpoolError::Lost(volume)),
        Act::Halted => Err(SpoolError::Halted),
    }
}

fn group_at(groups: &[GroupNo], place: usize) -> GroupNo
    requires { place < length groups.now }
    ensures { slice_get groups.now place ≡ Some result }
{
    groups[place]
}

// Writes the page at a place of a text into a group of the member.
fn write_page<P: Plant + Drop, C: Steady + Drop>(
    complex: &mut Complex<P, C>,
    by: MemberId,
    group: GroupNo,
    text: &Lines,
    place: u32,
) -> Result<(), SpoolError>
    requires up { IsUp complex.old.book by }
    requires none { complex.old.current ≡ None }
    requires text { AreLines text.now }
    requires place { place < groups_needed text.now }
    requires group { IsGroupOf complex.old.base.config group }
    requires held { P.tells → IsHeldBy by group (run complex.old.base (kept_all complex.old.journal.batches)) }
    ensures pair { complex.new.pair ≡ complex.old.pair }
    ensures frame { parts_of complex.new ≡ record (parts_of complex.old) { plant = complex.new.plant } }
    ensures acts { OnVolumes P.tells by.0 (P.view complex.old.plant) (P.view complex.new.plant) }
    ensures cause { SpoolCauses result by.0 complex.old.base.config.groups (group ∷ []) (P.view complex.old.plant)
        (P.view complex.new.plant) }
    ensures stands { OnOk result (P.tells → AreRoomy (P.view complex.old.plant) complex.old.base.config
        → slice_get (packed text.now) place
        ≡ Some (page_in (spools_at (P.view complex.new.plant) (P.view complex.new.plant).now)
        complex.old.base.config.groups group)) }
    ensures spares { P.tells → (h : GroupNo) → h.0 ≢ group.0 → IsGroupKept complex.old.base.config.groups h
        (spools_at (P.view complex.old.plant) (P.view complex.old.plant).now)
        (spools_at (P.view complex.new.plant) (P.view complex.new.plant).now) }
{
    law_of_groups();
    let mut page = Page([0; 4096]);
    pack(text, place, &mut page);
    let config = complex.base.config();
    let volume = volume_of(config.volumes, config.groups as u32, group);
    answer(complex.spool_write(by, group, &page), volume)
}

/// Writes each page of a text into the group at its place, a group of the member: once this is done each stands there,
/// synced or not, and other groups hold what they held. Lost comes with a volume that failed in the call and is lost,
/// Halted only where the member was stopped in it.
pub fn write_pages<P: Plant + Drop, C: Steady + Drop>(
    complex: &mut Complex<P, C>,
    by: MemberId,
    groups: &[GroupNo],
    text: &Lines,
) -> Result<(), SpoolError>
    requires up { IsUp complex.old.book by }
    requires none { complex.old.current ≡ None }
    requires text { AreLines text.now }
    requires few { length groups.now ≤ 65536 }
    requires as_many { length groups.now ≡ groups_needed text.now }
    requires rise { Rise groups.now }
    requires within { All (IsGroupOf complex.old.base.config) groups.now }
    requires held { P.tells → All (λ g. IsHeldBy by g (run complex.old.base (kept_all complex.old.journal.batches)))
        groups.now }
    ensures pair { complex.new.pair ≡ complex.old.pair }
    ensures frame { parts_of complex.new ≡ record (parts_of complex.old) { plant = complex.new.plant } }
    ensures acts { OnVolumes P.tells by.0 (P.view complex.old.plant) (P.view complex.new.plant) }
    ensures cause { SpoolCauses result by.0 complex.old.base.config.groups groups.now (P.view complex.old.plant)
        (P.view complex.new.plant) }
    ensures stand { OnOk result (P.tells → AreRoomy (P.view complex.old.plant) complex.old.base.config
        → StandBelow (length groups.now) (spools_at (P.view complex.new.plant) (P.view complex.new.plant).now)
        complex.old.base.config.groups (packed text.now) groups.now) }
    ensures spares { P.tells → GroupsKept complex.old.base.config.groups groups.now
        (spools_at (P.view complex.old.plant) (P.view complex.old.plant).now)
        (spools_at (P.view complex.new.plant) (P.view complex.new.plant).now) }
{
    for place in 0..groups.len() {
        write_page(complex, by, group_at(groups, place), text, place as u32)?;
    }
    Ok(())
}

// Syncs a volume, if one of the groups lies on it.
fn sync_volume<P: Plant + Drop, C: Steady + Drop>(
    complex: &mut Complex<P, C>,
    by: MemberId,
    groups: &[GroupNo],
    volume: u8,
) -> Result<(), SpoolError>
    requires up { IsUp complex.old.book by }
    requires some { 1 ≤ complex.old.base.config.groups }
    requires volume { IsVolumeOf complex.old.base.config volume }
    ensures pair { complex.new.pair ≡ complex.old.pair }
    ensures frame { parts_of complex.new ≡ record (parts_of complex.old) { plant = complex.new.plant } }
    ensures acts { OnVolumes P.tells by.0 (P.view complex.old.plant) (P.view complex.new.plant) }
    ensures cause { SpoolCauses result by.0 complex.old.base.config.groups groups.now (P.view complex.old.plant)
        (P.view complex.new.plant) }
    ensures synced { OnOk result (P.tells → (k : ℕ) (g : GroupNo) → slice_get groups.now k ≡ Some g
        → volume_of_lem complex.old.base.config.groups g ≡ volume
        → IsSynced (spools_at (P.view complex.new.plant) (P.view complex.new.plant).now) complex.old.base.config.groups
        g) }
    ensures quiet { P.tells → AreQuiet (spools_at (P.view complex.old.plant) (P.view complex.old.plant).now)
        (spools_at (P.view complex.new.plant) (P.view complex.new.plant).now) }
{
    if !lies_there(complex.base.config().groups as u32, volume, groups) {
        return Ok(());
    }
    answer(complex.spool_sync(by, volume), volume)
}

/// Syncs each volume on which one of the groups lies. Lost comes with a volume that failed in the call and is lost,
/// Halted only where the member was stopped in it.
pub fn sync_volumes<P: Plant + Drop, C: Steady + Drop>(
    complex: &mut Complex<P, C>,
    by: MemberId,
    groups: &[GroupNo],
) -> Result<(), SpoolError>
    requires up { IsUp complex.old.book by }
    requires some { 1 ≤ complex.old.base.config.groups }
    requires within { All (IsGroupOf complex.old.base.config) groups.now }
    ensures pair { complex.new.pair ≡ complex.old.pair }
    ensures frame { parts_of complex.new ≡ record (parts_of complex.old) { plant = complex.new.plant } }
    ensures acts { OnVolumes P.tells by.0 (P.view complex.old.plant) (P.view complex.new.plant) }
    ensures cause { SpoolCauses result by.0 complex.old.base.config.groups groups.now (P.view complex.old.plant)
        (P.view complex.new.plant) }
    ensures synced { OnOk result (P.tells
        → All (IsSynced (spools_at (P.view complex.new.plant) (P.view complex.new.plant).now)
        complex.old.base.config.groups) groups.now) }
    ensures quiet { P.tells → AreQuiet (spools_at (P.view complex.old.plant) (P.view complex.old.plant).now)
        (spools_at (P.view complex.new.plant) (P.view complex.new.plant).now) }
{
    for before in 0..complex.base.config().volumes {
        sync_volume(complex, by, groups, before + 1)?;
    }
    Ok(())
}

/// Writes a text into groups of the member, of which there are as many as it needs, in their order, and syncs the
/// volumes on which they lie. It needs no lock: no text of a deck or an output stands in a group of a member. Once this
/// is done the text stands in the groups, all of it synced.
///
/// Lost comes only where the faults of a volume rose on which one of the groups lies, Halted only where the member was
/// stopped. Of other volumes none is lost, and no fault is counted. Whatever is answered, each other group is as it
/// was.
pub fn spool_text<P: Plant + Drop, C: Steady + Drop>(
    complex: &mut Complex<P, C>,
    by: MemberId,
    groups: &[GroupNo],
    text: &Lines,
) -> Result<(), SpoolError>
    requires up { IsUp complex.old.book by }
    requires none { complex.old.current ≡ None }
    requires text { AreLines text.now }
    requires few { length groups.now ≤ 65536 }
    requires as_many { length groups.now ≡ groups_needed text.now }
    requires rise { Rise groups.now }
    requires some { 1 ≤ complex.old.base.config.groups }
    requires within { All (IsGroupOf complex.old.base.config) groups.now }
    requires held { P.tells → All (λ g. IsHeldBy by g (run complex.old.base (kept_all complex.old.journal.batches)))
        groups.now }
    ensures pair { complex.new.pair ≡ complex.old.pair }
    ensures frame { parts_of complex.new ≡ record (parts_of complex.old) { plant = complex.new.plant } }
    ensures acts { OnVolumes P.tells by.0 (P.view complex.old.plant) (P.view complex.new.plant) }
    ensures cause { SpoolCauses result by.0 complex.old.base.config.groups groups.now (P.view complex.old.plant)
        (P.view complex.new.plant) }
    ensures there { OnOk result (P.tells → AreRoomy (P.view complex.old.plant) complex.old.base.config
        → IsThere (spools_at (P.view complex.new.plant) (P.view complex.new.plant).now) complex.old.base.config.groups
        (Whole text.now) groups.now) }
    ensures spares { P.tells → GroupsKept complex.old.base.config.groups groups.now
        (spools_at (P.view complex.old.plant) (P.view complex.old.plant).now)
        (spools_at (P.view complex.new.plant) (P.view complex.new.plant).now) }
{
    write_pages(complex, by, groups, text)?;
    sync_volumes(complex, by, groups)?;
    law_of_groups();
    law_of_read_texts();
    Ok(())
}
