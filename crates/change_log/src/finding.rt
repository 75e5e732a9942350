//! What a copy in the log form reads as.
ghost use Rattle.std.specs.Prelude.{◌≡◌, ℕ, ◌+◌, ◌*◌, ◌≤◌, ◌<◌, length, slice_index, OnOk, IfOk, IfSome, IsErrOf, false};
ghost use Rattle.mas_types.specs.Limits.{page_bytes, pages_most};
ghost use Rattle.spool_plant.specs.declared.plant.Part.TheVariants.{Disk as DiskPart};
ghost use Rattle.spool_plant.specs.View.{disk_now};
ghost use Rattle.ckpt_copy.specs.Causes.{Caused, IsOut, answer_of, answer_found};
ghost use Rattle.ckpt_copy.specs.Changes.{NoMore};
ghost use Rattle.ckpt_copy.specs.Meanwhile.{Meanwhile};
ghost use Rattle.ckpt_copy.specs.Pages.{bytes_of};
ghost use Rattle.change_log.specs.Logs.{slots, gates_in, gathered, block};
ghost use Rattle.change_log.specs.LogStates.{IsReady};
ghost use Rattle.change_log.specs.LogRests.{AreInside};
ghost use Rattle.change_log.specs.LogFound.{IsHeadIn, ArePlacesIn};

use crate::directory::read_directory;
use crate::layout::{BLOCK, FORM_LOG, SLOTS, directory_place, image_place, size_of_log};
use crate::places::{PLACES, home_places, lay_images};
use ckpt_copy::acts::{read_act, read_block};
use ckpt_copy::{CopyNo, FindNo, GATE_OPEN};
use mas_types::limits::{PAGES_LEAST, PAGES_MOST};
use mas_types::{Dev, List, MemberId, Page};
use spool_plant::Plant;
use std::alloc::Global;

// Block 0 of a valid copy in the log form: the number of pages, and which gates are open.
#[derive(Clone, Copy)]
pub(crate) struct Head {
    pub(crate) pages: u16,
    pub(crate) gates: [bool; SLOTS as usize],
}

fn head_of(block: &[u8; 12], size: u64) -> Option<Head>
    ensures ready { IfSome result (λ head. IsReady head.pages size) }
    ensures four { IfSome result (λ head. length head.gates ≡ slots) }
    ensures head { IsHeadIn result block.now size }
{
    let pages = u16::from_be_bytes([block[2], block[3]]);
    let is_valid = block[0] == GATE_OPEN
        && block[1] == FORM_LOG
        && pages >= PAGES_LEAST
        && pages <= PAGES_MOST
        && size_of_log(pages) <= size;
    if !is_valid {
        return None;
    }
    let gates = [
        block[8] == GATE_OPEN,
        block[9] == GATE_OPEN,
        block[10] == GATE_OPEN,
        block[11] == GATE_OPEN,
    ];
    Some(Head { pages, gates })
}

// Reads block 0. It is None where the device isn't that of a copy in the log form.
pub(crate) fn read_head<P: Plant>(
    plant: &mut P,
    by: MemberId,
    dev: Dev,
) -> Result<Option<Head>, CopyNo>
    ensures cause { Caused by.0 dev (P.view plant.old) (P.view plant.new) (answer_of result) }
    ensures out { P.tells → IsOut dev (P.view plant.new) (answer_of result) }
    ensures there { (P.view plant.old).lost (DiskPart dev) ≡ false
        → OnOk result ((P.view plant.new).lost (DiskPart dev) ≡ false) }
    ensures during { P.tells → Meanwhile dev (NoMore (disk_now (P.view plant.old) dev))
        (P.view plant.old) (P.view plant.new) }
    ensures same { OnOk result (P.tells → disk_now (P.view plant.new) dev ≡ disk_now (P.view plant.old) dev) }
    ensures ready { IfOk result (λ found. IfSome found (λ head. IsReady head.pages ((P.view plant.old).size dev))) }
    ensures four { IfOk result (λ found. IfSome found (λ head. length head.gates ≡ slots)) }
    ensures head { IfOk result (λ found. P.tells → IsHeadIn found (disk_now
        (P.view plant.old) dev).bytes ((P.view plant.old).size dev)) }
{
    let size = plant.size(dev);
    if size < size_of_log(PAGES_LEAST) {
        return Ok(None);
    }
    let mut block = [0; 12];
    read_act(plant, by, dev, 0, &mut block)?;
    Ok(head_of(&block, size))
}

// Where the pages stand, by the directories of the open slots. It is None where one of these isn't valid.
pub(crate) fn read_slots<P: Plant>(
    plant: &mut P,
    by: MemberId,
    dev: Dev,
    head: &Head,
) -> Result<Option<[u16; PLACES]>, CopyNo>
    requires ready { IsReady head.now.pages ((P.view plant.old).size dev) }
    ensures cause { Caused by.0 dev (P.view plant.old) (P.view plant.new) (answer_of result) }
    ensures out { P.tells → IsOut dev (P.view plant.new) (answer_of result) }
    ensures there { (P.view plant.old).lost (DiskPart dev) ≡ false
        → OnOk result ((P.view plant.new).lost (DiskPart dev) ≡ false) }
    ensures during { P.tells → Meanwhile dev (NoMore (disk_now (P.view plant.old) dev))
        (P.view plant.old) (P.view plant.new) }
    ensures same { OnOk result (P.tells → disk_now (P.view plant.new) dev ≡ disk_now (P.view plant.old) dev) }
    ensures inside { IfOk result (λ found. IfSome found (λ places. AreInside head.now.pages places)) }
    ensures placed { IfOk result (λ found. P.tells → head.now.gates ≡ gates_in (disk_now (P.view plant.old) dev).bytes
        → ArePlacesIn head.now.pages found (disk_now (P.view plant.old) dev).bytes) }
{
    let mut places = home_places();
    for slot in 0..SLOTS {
        if !head.gates[slot as usize] {
            continue;
        }
        let first = directory_place(head.pages, slot);
        let block = read_block(plant, by, dev, BLOCK * first)?;
        let Some(listed) = read_directory(&block.0, head.pages) else {
            return Ok(None);
        };
        let images = image_place(head.pages, slot);
        lay_images(
            &mut places,
            images,
            &listed.numbers[..listed.count as usize],
        );
    }
    Ok(Some(places))
}

// Reads the pages where they stand.
pub(crate) fn read_pages<P: Plant>(
    alloc: Global,
    plant: &mut P,
    by: MemberId,
    dev: Dev,
    places: &[u16; PLACES],
    count: u16,
) -> Result<List<Page>, FindNo>
    requires ready { IsReady count ((P.view plant.old).size dev) }
    requires inside { AreInside count places.now }
    ensures cause { Caused by.0 dev (P.view plant.old) (P.view plant.new) (answer_found result) }
    ensures out { P.tells → IsOut dev (P.view plant.new) (answer_found result) }
    ensures there { (P.view plant.old).lost (DiskPart dev) ≡ false
        → OnOk result ((P.view plant.new).lost (DiskPart dev) ≡ false) }
    ensures during { P.tells → Meanwhile dev (NoMore (disk_now (P.view plant.old) dev))
        (P.view plant.old) (P.view plant.new) }
    ensures same { OnOk result (P.tells → disk_now (P.view plant.new) dev ≡ disk_now (P.view plant.old) dev) }
    ensures valid { IsErrOf result FindNo.NotValid → ⊥ }
    ensures count { IfOk result (λ pages. length pages ≡ count) }
    ensures pages { IfOk result (λ pages. P.tells → bytes_of pages
        ≡ gathered count (λ p. block (slice_index places.now p) (disk_now (P.view plant.old) dev).bytes)) }
{
    let mut pages = List::new(alloc);
    for place in 0..count {
        let page = read_block(plant, by, dev, BLOCK * places[place as usize] as u64)?;
        pages.push(page)?;
    }
    Ok(pages)
}
