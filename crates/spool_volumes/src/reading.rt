//! Reading a text.
ghost use Rattle.std.specs.Prelude.{◌≡◌, ◌≤◌, ◌<◌, ◌++◌, true, false, Some, None, All, [], ◌∷◌, length, IfOk, IsErrOf, Ok as OkLem};
ghost use Rattle.mas_types.specs.declared.ids.Dev.TheVariants.{Spool};
ghost use Rattle.mas_types.specs.Limits.{page_bytes};
ghost use Rattle.mas_types.specs.Queue.{line_count};
ghost use Rattle.mas_types.specs.Records.{is_record};
ghost use Rattle.spool_plant.specs.Acts.{Rose};
ghost use Rattle.spool_plant.specs.declared.plant.Part.TheVariants.{Disk};
ghost use Rattle.spool_volumes.specs.Volumes.{page_of, volume_of, volumes_now, IsPlaced, IsSteady};
ghost use Rattle.spool_volumes.specs.Looks.{volumes_shown, lie_on_lost, LooksAt, SparesOthers, read_stopped};
ghost use Rattle.spool_volumes.specs.Texts.{last_of, records_on, text_of, whole_text, Adds, IsLimited};
ghost use Rattle.spool_volumes.specs.declared.reading.ReadError.TheVariants.{Halted as ReadErrorHalted};

use brief_queue::{BriefLines, BriefText};
use mas_types::limits::PAGE_BYTES;
use mas_types::{Dev, GroupNo, MemberId, Page};
use spool_plant::{Act, Part, Plant};
use spool_text::{add_lines, law_of_reading};

/// Why a text was not read.
#[derive(Clone, Copy)]
pub enum ReadError {
    /// The member was stopped inside a read.
    Halted,
}

// Reads the page of a group; false where its volume is lost.
fn read_page<P: Plant>(
    plant: &mut P,
    by: MemberId,
    per: u32,
    group: GroupNo,
    into: &mut [u8],
) -> Result<bool, ReadError>
    requires some { 1 ≤ per }
    requires page { length into.old ≡ page_bytes }
    requires placed { IsPlaced (P.view plant.old) per group }
    ensures looks { LooksAt P.tells by.0 (P.view plant.old) (P.view plant.new) }
    ensures spares { SparesOthers by.0 per (group ∷ []) (read_stopped result) (P.view plant.old) (P.view plant.new) }
    ensures read { result ≡ OkLem true → P.tells → page_of (volumes_now (P.view plant.old)) per group ≡ Some into.new }
    ensures lost { result ≡ OkLem false → IsSteady (P.view plant.old) (P.view plant.new)
        → page_of (volumes_now (P.view plant.old)) per group ≡ None }
    ensures out { result ≡ OkLem false → (P.view plant.new).lost (Disk (Spool (volume_of per group))) ≡ true }
    ensures halted { IsErrOf result ReadErrorHalted → (0 < by.0)
        × Rose ((P.view plant.old).stops by.0) ((P.view plant.new).stops by.0) }
{
    let dev = Dev::Spool((group.0 / per) as u8 + 1);
    if plant.lost(Part::Disk(dev)) {
        return Ok(false);
    }
    let at = PAGE_BYTES as u64 * (group.0 % per) as u64;
    match plant.read(by, dev, at, into) {
        Act::Done => Ok(true),
        Act::Failed => Ok(false),
        Act::Halted => Err(ReadError::Halted),
    }
}

// Adds the lines of a group; false where it holds no records or its volume is lost.
fn add_group<P: Plant>(
    plant: &mut P,
    by: MemberId,
    per: u32,
    group: GroupNo,
    lines: &mut BriefLines,
) -> Result<bool, ReadError>
    requires some { 1 ≤ per }
    requires placed { IsPlaced (P.view plant.old) per group }
    ensures looks { LooksAt P.tells by.0 (P.view plant.old) (P.view plant.new) }
    ensures spares { SparesOthers by.0 per (group ∷ []) (read_stopped result) (P.view plant.old) (P.view plant.new) }
    ensures added { result ≡ OkLem true → P.tells
        → Adds (records_on (volumes_now (P.view plant.old)) per group) lines.old lines.new }
    ensures records { result ≡ OkLem true → All (λ line. is_record line ≡ true) lines.old
        → All (λ line. is_record line ≡ true) lines.new }
    ensures none { result ≡ OkLem false → P.tells → IsSteady (P.view plant.old) (P.view plant.new)
        → records_on (volumes_now (P.view plant.old)) per group ≡ None }
    ensures out { result ≡ OkLem false → P.tells → (P.view plant.new).lost (Disk (Spool (volume_of per group))) ≡ false
        → records_on (volumes_shown (P.view plant.old)) per group ≡ None }
    ensures halted { IsErrOf result ReadErrorHalted → (0 < by.0)
        × Rose ((P.view plant.old).stops by.0) ((P.view plant.new).stops by.0) }
{
    law_of_reading();
    let mut page = Page([0; 4096]);
    if !read_page(plant, by, per, group, &mut page.0)? {
        return Ok(false);
    }
    Ok(add_lines(&page, lines))
}

// The text of these lines, of which so many are counted.
fn ended(count: u16, groups: &[GroupNo], lines: BriefLines) -> BriefText
    ensures text { result ≡ whole_text count groups.now lines }
    ensures count { line_count result ≡ count }
{
    if lines.are(count) {
        return BriefText::whole(lines);
    }
    BriefText::gone(last_group(groups), count)
}

/// The last of groups, 0 where there is none.
pub fn last_group(groups: &[GroupNo]) -> GroupNo
    ensures { result ≡ last_of groups.now }
{
    match groups.last() {
        Some(group) => *group,
        None => GroupNo(0),
    }
}

/// The text of groups in the order of their places, of which its slot counts so many lines; each volume has `per`
/// groups, at least one, and each group lies within its volume, where that isn't lost. It is whole, or gone with the
/// first group that lies on a lost volume or holds no records; the last group counts as such where the lines are not as
/// many as the slot counts.
///
/// Its lines are within the limits of a text, whatever the volumes hold. What else is said of the text holds where no
/// volume was lost in the call, and so it does where none of its groups lies on a volume that is lost then: else read
/// again. Halted comes only where the member was stopped inside a read, never for the operator; else nobody is stopped.
/// No byte of a volume is changed, and nothing more is unsynced. A volume on which none of the groups lies isn't lost,
/// and no fault of it is counted. No byte of the text is kept in memory.
pub fn read_text<P: Plant>(
    plant: &mut P,
    by: MemberId,
    per: u32,
    groups: &[GroupNo],
    count: u16,
) -> Result<BriefText, ReadError>
    requires some { 1 ≤ per }
    requires placed { All (IsPlaced (P.view plant.old) per) groups.now }
    ensures looks { LooksAt P.tells by.0 (P.view plant.old) (P.view plant.new) }
    ensures spares { SparesOthers by.0 per groups.now (read_stopped result) (P.view plant.old) (P.view plant.new) }
    ensures count { IfOk result (λ text. line_count text ≡ count) }
    ensures limited { IfOk result IsLimited }
    ensures left { IfOk result (λ text. P.tells → lie_on_lost (P.view plant.new) per groups.now ≡ false
        → text ≡ text_of (records_on (volumes_shown (P.view plant.old)) per) count groups.now) }
    ensures text { IfOk result (λ text. P.tells → IsSteady (P.view plant.old) (P.view plant.new)
        → text ≡ text_of (records_on (volumes_now (P.view plant.old)) per) count groups.now) }
    ensures halted { IsErrOf result ReadErrorHalted → (0 < by.0)
        × Rose ((P.view plant.old).stops by.0) ((P.view plant.new).stops by.0) }
{
    let mut lines = BriefLines::none();
    for group in groups {
        if !add_group(plant, by, per, *group, &mut lines)? {
            return Ok(BriefText::gone(*group, count));
        }
    }
    Ok(ended(count, groups, lines))
}
