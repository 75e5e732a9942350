//! What a log writes: a slot behind its closed gate, the home pages, and the gates.
ghost use Rattle.std.specs.Prelude.{◌≡◌, ◌==◌, ◌&&◌, ℕ, ◌+◌, ◌-◌, ◌*◌, ◌≤◌, ◌<◌, [], List, Bool, nat_lt, length, slice_index, OnOk, false};
ghost use Rattle.mas_types.specs.Limits.{page_bytes, pages_least, pages_most};
ghost use Rattle.spool_plant.specs.declared.plant.Part.TheVariants.{Disk as DiskPart};
ghost use Rattle.spool_plant.specs.View.{disk_now, slice};
ghost use Rattle.ckpt_copy.specs.Causes.{Caused, IsOut, answer_of};
ghost use Rattle.ckpt_copy.specs.Changes.{Spreads};
ghost use Rattle.ckpt_copy.specs.Meanwhile.{Meanwhile};
ghost use Rattle.ckpt_copy.specs.Pages.{bytes_of, page_in, ArePages};
ghost use Rattle.ckpt_copy.specs.Reading.{AllRead};
ghost use Rattle.change_log.specs.Logs.{reads, slots, log_size, directory_block, image_block, block};
ghost use Rattle.change_log.specs.LogStates.{Stands, AreHome};
ghost use Rattle.change_log.specs.LogRests.{Rests, Formed, SlotWritten, AreImages, AreWritten};

use crate::directory::write_directory;
use crate::layout::{BLOCK, SLOTS, directory_place, gate_at, log_head};
use crate::places::PLACES;
use ckpt_copy::acts::{bytes_in, sync_act, write_act, write_pages, write_synced};
use ckpt_copy::{CopyNo, GATE_CLOSED, HEAD_AT};
use mas_types::{Dev, MemberId, Page};
use spool_plant::Plant;

// The level that stands in a first page.
fn level_in(page: &Page) -> [u8; 8]
    ensures level { result ≡ slice 8 8 page.now.0 }
    ensures size { length page.now.0 ≡ page_bytes }
{
    let mut level = [0; 8];
    level.copy_from_slice(&page.0[8..16]);
    level
}

// Whether a page is the next of those that changed, after so many of them.
fn is_next(changed: &[u16], count: usize, page: usize) -> bool
    ensures { result ≡ (nat_lt count (length changed.now) && (slice_index changed.now count == page)) }
{
    count < changed.len() && changed[count] as usize == page
}

// Writes the images of the pages that changed, one after another from a block on.
fn write_images<P: Plant>(
    plant: &mut P,
    by: MemberId,
    dev: Dev,
    first: u64,
    pages: &[Page],
    changed: &[u16],
) -> Result<(), CopyNo>
    requires place { first ≤ log_size pages_most }
    requires few { length pages.now ≤ pages_most }
    requires changed { ArePages (length pages.now) changed.now }
    requires size { page_bytes * (first + length changed.now) ≤ (P.view plant.old).size dev }
    ensures cause { Caused by.0 dev (P.view plant.old) (P.view plant.new) (answer_of result) }
    ensures out { P.tells → IsOut dev (P.view plant.new) (answer_of result) }
    ensures during { P.tells
        → Meanwhile dev (Spreads (page_bytes * first) (page_bytes * length changed.now)
        (disk_now (P.view plant.old) dev)) (P.view plant.old) (P.view plant.new) }
    ensures sized { OnOk result (length (bytes_of pages.now) ≡ page_bytes * length pages.now) }
    ensures put { OnOk result (P.tells → AreImages first changed.now (bytes_of pages.now)
        (disk_now (P.view plant.new) dev).bytes) }
{
    let mut count = 0;
    for (i, page) in pages.iter().enumerate() {
        let bytes = bytes_in(page);
        if !is_next(changed, count, i) {
            continue;
        }
        write_act(plant, by, dev, BLOCK * (first + count as u64), bytes)?;
        count += 1;
    }
    Ok(())
}

// Writes a slot behind its closed gate: the directory and the images of the pages that changed, and syncs them.
pub(crate) fn write_slot<P: Plant>(
    plant: &mut P,
    by: MemberId,
    dev: Dev,
    slot: u8,
    pages: &[Page],
    changed: &[u16],
) -> Result<(), CopyNo>
    requires enough { pages_least ≤ length pages.now }
    requires few { length pages.now ≤ pages_most }
    requires slot { slot < slots }
    requires changed { ArePages (length pages.now) changed.now }
    requires size { log_size (length pages.now) ≤ (P.view plant.old).size dev }
    ensures cause { Caused by.0 dev (P.view plant.old) (P.view plant.new) (answer_of result) }
    ensures out { P.tells → IsOut dev (P.view plant.new) (answer_of result) }
    ensures there { OnOk result ((P.view plant.new).lost (DiskPart dev) ≡ false) }
    ensures during { P.tells
        → Meanwhile dev (Spreads (page_bytes * directory_block (length pages.now) slot)
        (page_bytes * (length pages.now + 1)) (disk_now (P.view plant.old) dev))
        (P.view plant.old) (P.view plant.new) }
    ensures sized { OnOk result (length (bytes_of pages.now) ≡ page_bytes * length pages.now) }
    ensures written { OnOk result (P.tells → SlotWritten (length pages.now) slot changed.now
        (bytes_of pages.now) (disk_now (P.view plant.new) dev)) }
{
    let first = directory_place(pages.len() as u16, slot);
    let directory = write_directory(&level_in(&pages[0]), changed);
    write_act(plant, by, dev, BLOCK * first, &directory)?;
    write_images(plant, by, dev, first + 1, pages, changed)?;
    sync_act(plant, by, dev)?;
    Ok(())
}

// Writes the home pages of all pages that stand in a slot.
fn write_homes<P: Plant>(
    plant: &mut P,
    by: MemberId,
    dev: Dev,
    places: &[u16; PLACES],
    pages: &[Page],
) -> Result<(), CopyNo>
    requires few { length pages.now ≤ pages_most }
    requires size { log_size (length pages.now) ≤ (P.view plant.old).size dev }
    ensures cause { Caused by.0 dev (P.view plant.old) (P.view plant.new) (answer_of result) }
    ensures out { P.tells → IsOut dev (P.view plant.new) (answer_of result) }
    ensures during { P.tells → (gates : List Bool) → Rests (length pages.now) gates places.now
        (bytes_of pages.now) (disk_now (P.view plant.old) dev)
        → Meanwhile dev (Rests (length pages.now) gates places.now (bytes_of pages.now))
        (P.view plant.old) (P.view plant.new) }
    ensures written { OnOk result (P.tells → (gates : List Bool)
        → Rests (length pages.now) gates places.now (bytes_of pages.now) (disk_now (P.view plant.old) dev)
        → AreWritten (length pages.now) (bytes_of pages.now) (disk_now (P.view plant.new) dev).bytes) }
{
    for (i, page) in pages.iter().enumerate() {
        let bytes = bytes_in(page);
        if places[i] as usize == i + 1 {
            continue;
        }
        write_act(plant, by, dev, BLOCK * (1 + i as u64), bytes)?;
    }
    Ok(())
}

// Closes the gates that are open, from slot 0 upwards, each with a sync of its own.
fn close_slots<P: Plant>(
    plant: &mut P,
    by: MemberId,
    dev: Dev,
    gates: &[bool; SLOTS as usize],
) -> Result<(), CopyNo>
    requires size { page_bytes ≤ (P.view plant.old).size dev }
    ensures cause { Caused by.0 dev (P.view plant.old) (P.view plant.new) (answer_of result) }
    ensures out { P.tells → IsOut dev (P.view plant.new) (answer_of result) }
    ensures during { P.tells → (n : ℕ) → (places pages : List ℕ) → Rests n gates.now places pages
        (disk_now (P.view plant.old) dev) → AreHome n pages (disk_now (P.view plant.old) dev)
        → Meanwhile dev (AllRead reads pages) (P.view plant.old) (P.view plant.new) }
    ensures closed { OnOk result (P.tells → (n : ℕ) → (places pages : List ℕ)
        → Rests n gates.now places pages (disk_now (P.view plant.old) dev) → AreHome n pages
        (disk_now (P.view plant.old) dev)
        → Stands n (λ s. []) pages (disk_now (P.view plant.new) dev)) }
{
    for slot in 0..SLOTS {
        if !gates[slot as usize] {
            continue;
        }
        write_synced(plant, by, dev, gate_at(slot), &[GATE_CLOSED])?;
    }
    Ok(())
}

// Brings the pages that stand in slots home, and closes the slots.
pub(crate) fn settle_slots<P: Plant>(
    plant: &mut P,
    by: MemberId,
    dev: Dev,
    gates: &[bool; SLOTS as usize],
    places: &[u16; PLACES],
    pages: &[Page],
) -> Result<(), CopyNo>
    requires few { length pages.now ≤ pages_most }
    requires size { log_size (length pages.now) ≤ (P.view plant.old).size dev }
    ensures cause { Caused by.0 dev (P.view plant.old) (P.view plant.new) (answer_of result) }
    ensures out { P.tells → IsOut dev (P.view plant.new) (answer_of result) }
    ensures during { P.tells → Rests (length pages.now) gates.now places.now (bytes_of pages.now)
        (disk_now (P.view plant.old) dev)
        → Meanwhile dev (AllRead reads (bytes_of pages.now)) (P.view plant.old) (P.view plant.new) }
    ensures settled { OnOk result (P.tells → Rests (length pages.now) gates.now places.now
        (bytes_of pages.now) (disk_now (P.view plant.old) dev)
        → Stands (length pages.now) (λ s. []) (bytes_of pages.now) (disk_now (P.view plant.new) dev)) }
{
    write_homes(plant, by, dev, places, pages)?;
    sync_act(plant, by, dev)?;
    close_slots(plant, by, dev, gates)?;
    Ok(())
}

// Writes block 0 except VALID, and the home pages, and syncs them.
pub(crate) fn write_formed<P: Plant>(
    plant: &mut P,
    by: MemberId,
    dev: Dev,
    pages: &[Page],
) -> Result<(), CopyNo>
    requires few { length pages.now ≤ pages_most }
    requires size { log_size (length pages.now) ≤ (P.view plant.old).size dev }
    ensures cause { Caused by.0 dev (P.view plant.old) (P.view plant.new) (answer_of result) }
    ensures out { P.tells → IsOut dev (P.view plant.new) (answer_of result) }
    ensures during { P.tells
        → Meanwhile dev (Spreads 1 (page_bytes - 1 + page_bytes * length pages.now) (disk_now
        (P.view plant.old) dev)) (P.view plant.old) (P.view plant.new) }
    ensures written { OnOk result (P.tells → pages_least ≤ length pages.now
        → Formed (length pages.now) (bytes_of pages.now) (disk_now (P.view plant.new) dev)) }
{
    write_act(plant, by, dev, HEAD_AT, &log_head(pages.len() as u16))?;
    write_pages(plant, by, dev, BLOCK, pages)?;
    Ok(())
}
