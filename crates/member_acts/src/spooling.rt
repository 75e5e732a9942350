//! The outputs of a job into a member's groups on the spool volumes.
ghost use Rattle.member_acts.specs.Outputs.{MayWrite, SpoolsEach, WritesEach, into};

use mas_complex::{Complex, Steady};
use mas_types::{GroupNo, MemberId, OutSpec};
use member_decks::SpoolError;
use member_opening::{sync_volumes, write_pages};
use spool_plant::Plant;
use spool_text::{groups_needed, law_of_groups};
use spool_volumes::law_of_read_texts;

// Writes each output's text into the next of the groups, as many as it needs.
fn write_outputs<P: Plant + Drop, C: Steady + Drop>(
    complex: &mut Complex<P, C>,
    by: MemberId,
    groups: &[GroupNo],
    specs: &[OutSpec],
) -> Result<(), SpoolError>
    requires { MayWrite complex.old by groups.now specs.now }
    ensures { WritesEach complex.old complex.new by (into groups.now specs.now) result }
{
    let Some((spec, rest)) = specs.split_first() else {
        return Ok(());
    };
    let (its, others) = groups.split_at(groups_needed(&spec.text) as usize);
    write_pages(complex, by, its, &spec.text)?;
    write_outputs(complex, by, others, rest)
}

/// Writes them, and syncs the volumes on which the groups lie. Of other volumes none is lost, and no fault is counted.
/// Lost comes with a volume that failed in the call and is lost, Halted only where the member was stopped in it.
pub(crate) fn write_and_sync<P: Plant + Drop, C: Steady + Drop>(
    complex: &mut Complex<P, C>,
    by: MemberId,
    groups: &[GroupNo],
    specs: &[OutSpec],
) -> Result<(), SpoolError>
    requires { MayWrite complex.old by groups.now specs.now }
    ensures { SpoolsEach complex.old complex.new by (into groups.now specs.now) result }
{
    write_outputs(complex, by, groups, specs)?;
    sync_volumes(complex, by, groups)?;
    law_of_groups();
    law_of_read_texts();
    Ok(())
}
