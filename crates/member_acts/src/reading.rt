//! Reading the text of a job, or of an output, from the spool volumes.
ghost use Rattle.member_acts.specs.Names.{text_lines_most, text_unless, SpoolStops, IsReadable, as_it_is, IsCounted, names_read};
ghost use Rattle.member_acts.specs.Reads.{Adds, AreRecords, MayReadGroups, MayReadThing, ReadsOn, ReadsTextOf, ReadsThing, adding, so_far};
ghost use Rattle.std.specs.Prelude.{◌≡◌, ◌≤◌, ◌∷◌, [], IfOk};

use crate::gone::gone_group;
use ckpt_tables::bytes_in;
use job_outcome::Read;
use mas_complex::{Complex, Steady};
use mas_types::{GroupNo, Lines, MemberId, Page, Thing};
use member_node::{Member, NodeNo};
use spool_plant::{Act, Plant};
use spool_text::{TextNo, law_of_reading, unpack};
use spool_volumes::{last_group, volume_of};
use std::alloc::Global;
use track_groups::{groups_of, law_of_places};

// Adds the lines of a group; or answers the volume that was found lost. Where the group holds no records the text is
// gone with it, unless a group before it held none.
fn add_group<P: Plant + Drop, C: Steady + Drop>(
    complex: &mut Complex<P, C>,
    alloc: Global,
    by: MemberId,
    group: GroupNo,
    lines: &mut Lines,
    gone: &mut Option<GroupNo>,
) -> Result<Option<u8>, NodeNo>
    requires { MayReadGroups complex.old by (group ∷ []) }
    ensures { Adds complex.old complex.new by (adding group (so_far lines.old gone.old) (so_far lines.new gone.new))
        result }
{
    law_of_reading();
    let config = complex.base.config();
    let mut page = Page([0; 4096]);
    match complex.spool_read(by, group, &mut page) {
        Act::Done => {}
        Act::Failed => return Ok(Some(volume_of(config.volumes, config.groups as u32, group))),
        Act::Halted => return Err(NodeNo::Halted),
    }
    // Called for what it says: that the page has 4,096 bytes.
    let _bytes = bytes_in(&page);
    match unpack(alloc, &page, lines) {
        Ok(()) => Ok(None),
        Err(TextNo::Bad) => {
            *gone = gone.or(Some(group));
            Ok(None)
        }
        Err(TextNo::NoMemory) => Err(NodeNo::NoMemory),
    }
}

// What was read, of which so many lines are counted.
fn ended(count: u16, groups: &[GroupNo], lines: Lines, gone: Option<GroupNo>) -> Read
    requires count { count ≤ text_lines_most }
    requires lines { AreRecords lines }
    ensures text { result ≡ as_it_is (text_unless count groups.now lines gone) }
    ensures fits { IsReadable result }
    ensures counted { IsCounted count result }
{
    if let Some(group) = gone {
        return Read::Gone(group);
    }
    if lines.len() == count as usize {
        return Read::Lines(lines);
    }
    Read::Gone(last_group(groups))
}

// Reads a text of so many lines from its groups, in the order of their places, for a member that isn't stopped. Where
// content is told and none of the groups lies on a volume that is found lost, the text is read as it stands there: its
// lines, or gone with the first group that holds no records, or with the last one where the lines aren't as many as are
// counted. Else the answer is the volume.
//
// Else NoMemory comes, out of memory, or Halted, where the member was stopped in the call.
fn read_text<P: Plant + Drop, C: Steady + Drop>(
    complex: &mut Complex<P, C>,
    alloc: Global,
    by: MemberId,
    groups: &[GroupNo],
    count: u16,
) -> Result<Read, NodeNo>
    requires may { MayReadGroups complex.old by groups.now }
    requires count { count ≤ text_lines_most }
    ensures on { ReadsOn complex.old complex.new by }
    ensures cause { SpoolStops names_read result by.0 (P.view complex.old.plant) (P.view complex.new.plant) }
    ensures text { IfOk result (ReadsTextOf complex.old complex.new groups.now count) }
{
    let mut lines = Lines::new(alloc);
    let mut gone = None;
    for group in groups {
        if let Some(volume) = add_group(complex, alloc, by, *group, &mut lines, &mut gone)? {
            return Ok(Read::Lost(volume));
        }
    }
    Ok(ended(count, groups, lines, gone))
}

/// Reads the text of a job, or of an output, that has so many lines, for a member that isn't stopped. It needs no lock.
/// The groups are those that the member's tables tell. A text that was gone when the run began isn't read.
///
/// NoMemory leaves all as it was. Halted comes only where the member was stopped.
pub(crate) fn read_thing<P: Plant + Drop, C: Steady + Drop>(
    member: &Member,
    alloc: Global,
    complex: &mut Complex<P, C>,
    thing: Thing,
    count: u16,
) -> Result<Read, NodeNo>
    requires may { MayReadThing complex.old member.now }
    requires count { count ≤ text_lines_most }
    ensures { ReadsThing complex.old complex.new member.now thing count result }
{
    if let Some(group) = gone_group(complex, thing) {
        return Ok(Read::Gone(group));
    }
    law_of_places();
    complex.kept_texts();
    let Ok(groups) = groups_of(alloc, member.checkpoint.tables.owners.as_slice(), thing) else {
        return Err(NodeNo::NoMemory);
    };
    read_text(complex, alloc, member.id, groups.as_slice(), count)
}
