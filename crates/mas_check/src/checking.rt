//! The check of a checkpoint.
ghost use Rattle.std.specs.Prelude.{◌≡◌, ◌<◌, ◌^◌, IfSome};
ghost use Rattle.ckpt_tables.specs.Shape.{HasSpelling};
ghost use Rattle.ckpt_pages.specs.Sound.{AreSound};
ghost use Rattle.mas_check.specs.Checks.{page_answer as page_answer_lem, verdict_of as verdict_of_lem, text_verdict as text_verdict_lem, IsAnswer, IsCheckOrNone};
ghost use Rattle.mas_check.specs.Worlds.{OnlyReads};
ghost use Rattle.mas_check.specs.declared.checking.CheckNo.TheVariants.{NoMemory as no_memory};

use crate::groups::first_wrong_group;
use crate::reading::{lost_volume, read_groups};
use ckpt_pages::{PageNo, TableFault, decode, first_fault};
use ckpt_tables::Tables;
use mas_types::{FaultKind, NoMemory, Page, Verdict};
use spool_plant::Plant;
use std::alloc::Global;

/// Why a check gave no verdict.
#[derive(Clone, Copy)]
pub enum CheckNo {
    /// The pages have no fault, and this volume is lost, the least such with a group of a text on it.
    SpoolLost(u8),
    /// Out of memory.
    NoMemory,
}

impl From<NoMemory> for CheckNo {
    ghost from_gives = { λ _ no. no ≡ no_memory };

    fn from(_error: NoMemory) -> Self {
        CheckNo::NoMemory
    }
}

// The answer for pages that aren't decoded.
fn page_answer(why: PageNo) -> Result<Verdict, CheckNo>
    ensures { result ≡ page_answer_lem why }
{
    match why {
        PageNo::BadPage(page) => Ok(Verdict::Fault(FaultKind::Page, page as u32)),
        PageNo::NoMemory => Err(CheckNo::NoMemory),
    }
}

fn verdict_of(fault: TableFault) -> Verdict
    ensures { result ≡ verdict_of_lem fault }
{
    match fault {
        TableFault::Number(slot) => Verdict::Fault(FaultKind::Number, slot),
        TableFault::Owner(group) => Verdict::Fault(FaultKind::Owner, group),
        TableFault::Place(group) => Verdict::Fault(FaultKind::Place, group),
    }
}

// The verdict on tables without a fault, where this is the first group of a text that holds no records of it.
fn text_verdict(wrong: Option<usize>) -> Verdict
    requires { IfSome wrong (λ group. group < 2 ^ 32) }
    ensures { result ≡ text_verdict_lem wrong }
{
    match wrong {
        Some(group) => Verdict::Fault(FaultKind::Text, group as u32),
        None => Verdict::Sound,
    }
}

// Checks the texts of tables without a fault.
fn check_texts<P: Plant>(alloc: Global, plant: &mut P, tables: &Tables) -> Result<Verdict, CheckNo>
    requires spelling { HasSpelling tables.now }
    requires sound { AreSound tables.now }
    ensures reads { OnlyReads P.tells (P.view plant.old) (P.view plant.new) }
    ensures answer { IsCheckOrNone P.tells tables.now (P.view plant.old) (P.view plant.new) result }
{
    let per = tables.config.groups;
    let owners = tables.owners.as_slice();
    let groups = read_groups(alloc, plant, per, owners)?;
    if let Some(volume) = lost_volume(plant, per, owners) {
        return Err(CheckNo::SpoolLost(volume));
    }
    let wrong = first_wrong_group(alloc, tables, groups.as_slice())?;
    Ok(text_verdict(wrong))
}

// Checks tables and their texts.
fn check_tables<P: Plant>(alloc: Global, plant: &mut P, tables: &Tables) -> Result<Verdict, CheckNo>
    requires { HasSpelling tables.now }
    ensures reads { OnlyReads P.tells (P.view plant.old) (P.view plant.new) }
    ensures answer { IsCheckOrNone P.tells tables.now (P.view plant.old) (P.view plant.new) result }
{
    match first_fault(alloc, tables)? {
        None => check_texts(alloc, plant, tables),
        Some(fault) => Ok(verdict_of(fault)),
    }
}

/// Checks the pages of a checkpoint, and the texts of its queue on the spool volumes.
///
/// The verdict is Sound where there is no fault, and else the first kind that occurs with its least place. The kinds in
/// order are:
///
/// - Page: a page that is no spelling.
/// - Number: the slot of a job or an output whose number, order, job, member, mark or count of lines is wrong. Output
///   slots are counted after those of jobs.
/// - Owner: a group whose job, output or member isn't there.
/// - Place: a group whose place is taken before it, or leaves a gap before it.
/// - Text: a group of a deck or an output that holds no records, as one outside its volume; or the last of its text,
///   where the records of the text are not as many as its slot counts.
///
/// SpoolLost comes where the pages have no fault and a group of a deck or an output lies on a volume that is lost at
/// the end, with the least such volume. NoMemory comes only when out of memory.
///
/// Nothing is written, synced, said or printed, and no device is lost by a call. A volume of which a read fails is
/// lost, as ever.
pub fn check<P: Plant>(alloc: Global, plant: &mut P, pages: &[Page]) -> Result<Verdict, CheckNo>
    ensures reads { OnlyReads P.tells (P.view plant.old) (P.view plant.new) }
    ensures answer { IsAnswer P.tells pages.now (P.view plant.old) (P.view plant.new) result }
{
    match decode(alloc, pages) {
        Ok(tables) => check_tables(alloc, plant, &tables),
        Err(why) => page_answer(why),
    }
}
