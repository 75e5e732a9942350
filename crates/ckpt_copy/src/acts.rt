//! Acts on the device of a copy, answered as a `Result`.
//!
//! Places and lengths are in bytes. In each call Failed comes only where the device's faults rose in it, and the device
//! is lost then; Halted only where the stops of `by` rose. No call changes another device, the console, a printer or a
//! wire.
ghost use Rattle.std.specs.Prelude.{◌≡◌, ◌⊎◌, ◌+◌, ◌*◌, ◌≤◌, [], length, OnOk, IfOk, false};
ghost use Rattle.mas_types.specs.Limits.{page_bytes, pages_most};
ghost use Rattle.spool_plant.specs.declared.plant.Part.TheVariants.{Disk as DiskPart};
ghost use Rattle.spool_plant.specs.Acts.{next};
ghost use Rattle.spool_plant.specs.View.{disk_now, slice};
ghost use Rattle.ckpt_copy.specs.Causes.{Caused, IsOut, answer_of};
ghost use Rattle.ckpt_copy.specs.Changes.{Spreads, NoMore, IsPut, IsRead};
ghost use Rattle.ckpt_copy.specs.Meanwhile.{Meanwhile};
ghost use Rattle.ckpt_copy.specs.Pages.{bytes_of};

use crate::copying::CopyNo;
use crate::layout::BLOCK;
use mas_types::limits::PAGE_BYTES;
use mas_types::{Dev, MemberId, Page};
use spool_plant::{Act, Plant};

fn answered(act: Act) -> Result<(), CopyNo>
    ensures { answer_of result ≡ act }
{
    match act {
        Act::Done => Ok(()),
        Act::Failed => Err(CopyNo::Failed),
        Act::Halted => Err(CopyNo::Halted),
    }
}

/// Writes bytes, without a sync: a crash may leave any bytes there, and no others are touched. Failed comes where the
/// device failed, Halted where the member was stopped in the act: then some of the bytes may stand there.
pub fn write_act<P: Plant>(
    plant: &mut P,
    by: MemberId,
    dev: Dev,
    at: u64,
    bytes: &[u8],
) -> Result<(), CopyNo>
    requires { at + length bytes.now ≤ (P.view plant.old).size dev }
    ensures cause { Caused by.0 dev (P.view plant.old) (P.view plant.new) (answer_of result) }
    ensures out { P.tells → IsOut dev (P.view plant.new) (answer_of result) }
    ensures there { OnOk result ((P.view plant.new).lost (DiskPart dev) ≡ false) }
    ensures one { (P.view plant.new).now ≡ next (P.view plant.old).now }
    ensures during { P.tells → Meanwhile dev (Spreads at (length bytes.now) (disk_now (P.view plant.old) dev))
        (P.view plant.old) (P.view plant.new) }
    ensures put { OnOk result (P.tells
        → slice at (length bytes.now) (disk_now (P.view plant.new) dev).bytes ≡ bytes.now) }
{
    answered(plant.write(by, dev, at, bytes))
}

/// Syncs the device: what it has then is what each crash leaves of it. No byte changes. Failed comes where the device
/// failed, Halted where the member was stopped in the act.
pub fn sync_act<P: Plant>(plant: &mut P, by: MemberId, dev: Dev) -> Result<(), CopyNo>
    ensures cause { Caused by.0 dev (P.view plant.old) (P.view plant.new) (answer_of result) }
    ensures out { P.tells → IsOut dev (P.view plant.new) (answer_of result) }
    ensures there { OnOk result ((P.view plant.new).lost (DiskPart dev) ≡ false) }
    ensures one { (P.view plant.new).now ≡ next (P.view plant.old).now }
    ensures during { P.tells → Meanwhile dev (Spreads 0 0 (disk_now (P.view plant.old) dev)) (P.view plant.old)
        (P.view plant.new) }
    ensures synced { OnOk result (P.tells → ((disk_now (P.view plant.new) dev).unsynced ≡ [])
        × ((disk_now (P.view plant.new) dev).bytes ≡ (disk_now (P.view plant.old) dev).bytes)) }
{
    answered(plant.sync(by, dev))
}

/// Writes bytes and syncs the device. The errors are those of the two acts.
pub fn write_synced<P: Plant>(
    plant: &mut P,
    by: MemberId,
    dev: Dev,
    at: u64,
    bytes: &[u8],
) -> Result<(), CopyNo>
    requires { at + length bytes.now ≤ (P.view plant.old).size dev }
    ensures cause { Caused by.0 dev (P.view plant.old) (P.view plant.new) (answer_of result) }
    ensures out { P.tells → IsOut dev (P.view plant.new) (answer_of result) }
    ensures there { OnOk result ((P.view plant.new).lost (DiskPart dev) ≡ false) }
    ensures during { P.tells → Meanwhile dev (Spreads at (length bytes.now) (disk_now (P.view plant.old) dev))
        (P.view plant.old) (P.view plant.new) }
    ensures put { OnOk result (P.tells → IsPut at (length bytes.now) bytes.now (disk_now (P.view plant.new) dev)) }
{
    write_act(plant, by, dev, at, bytes)?;
    sync_act(plant, by, dev)
}

/// The bytes of a page, `PAGE_BYTES` of them.
pub fn bytes_in(page: &Page) -> &[u8]
    ensures size { length result.now ≡ page_bytes }
    ensures bytes { result.now ≡ page.now.0 }
{
    &page.0
}

// Writes pages one after another.
fn write_each<P: Plant>(
    plant: &mut P,
    by: MemberId,
    dev: Dev,
    start: u64,
    pages: &[Page],
) -> Result<(), CopyNo>
    requires place { start ≤ page_bytes * (1 + pages_most) }
    requires few { length pages.now ≤ pages_most }
    requires size { start + page_bytes * length pages.now ≤ (P.view plant.old).size dev }
    ensures cause { Caused by.0 dev (P.view plant.old) (P.view plant.new) (answer_of result) }
    ensures out { P.tells → IsOut dev (P.view plant.new) (answer_of result) }
    ensures during { P.tells → Meanwhile dev
        (Spreads start (page_bytes * length pages.now) (disk_now (P.view plant.old) dev)) (P.view plant.old)
        (P.view plant.new) }
    ensures put { OnOk result (P.tells
        → slice start (page_bytes * length pages.now) (disk_now (P.view plant.new) dev).bytes ≡ bytes_of pages.now) }
{
    let mut at = start;
    for page in pages {
        write_act(plant, by, dev, at, bytes_in(page))?;
        at += BLOCK;
    }
    Ok(())
}

/// Writes pages one after another, and syncs the device. The errors are those of the acts: Failed and Halted.
pub fn write_pages<P: Plant>(
    plant: &mut P,
    by: MemberId,
    dev: Dev,
    start: u64,
    pages: &[Page],
) -> Result<(), CopyNo>
    requires place { start ≤ page_bytes * (1 + pages_most) }
    requires few { length pages.now ≤ pages_most }
    requires size { start + page_bytes * length pages.now ≤ (P.view plant.old).size dev }
    ensures cause { Caused by.0 dev (P.view plant.old) (P.view plant.new) (answer_of result) }
    ensures out { P.tells → IsOut dev (P.view plant.new) (answer_of result) }
    ensures there { OnOk result ((P.view plant.new).lost (DiskPart dev) ≡ false) }
    ensures during { P.tells → Meanwhile dev
        (Spreads start (page_bytes * length pages.now) (disk_now (P.view plant.old) dev)) (P.view plant.old)
        (P.view plant.new) }
    ensures put { OnOk result (P.tells
        → IsPut start (page_bytes * length pages.now) (bytes_of pages.now) (disk_now (P.view plant.new) dev)) }
{
    write_each(plant, by, dev, start, pages)?;
    sync_act(plant, by, dev)
}

/// Reads as many bytes as there is room for. After an error nothing is said of `into`. Failed comes where the device
/// failed, Halted where the member was stopped in the act.
pub fn read_act<P: Plant>(
    plant: &mut P,
    by: MemberId,
    dev: Dev,
    at: u64,
    into: &mut [u8],
) -> Result<(), CopyNo>
    requires { at + length into.old ≤ (P.view plant.old).size dev }
    ensures cause { Caused by.0 dev (P.view plant.old) (P.view plant.new) (answer_of result) }
    ensures out { P.tells → IsOut dev (P.view plant.new) (answer_of result) }
    ensures there { OnOk result ((P.view plant.new).lost (DiskPart dev) ≡ false) }
    ensures one { (P.view plant.new).now ≡ next (P.view plant.old).now }
    ensures during { P.tells → Meanwhile dev (NoMore (disk_now (P.view plant.old) dev)) (P.view plant.old)
        (P.view plant.new) }
    ensures read { OnOk result (P.tells
        → IsRead at (length into.old) into.new (disk_now (P.view plant.old) dev) (disk_now (P.view plant.new) dev)) }
{
    answered(plant.read(by, dev, at, into))
}

/// Reads the page that begins there. The errors are those of `read_act`.
pub fn read_block<P: Plant>(plant: &mut P, by: MemberId, dev: Dev, at: u64) -> Result<Page, CopyNo>
    requires { at + page_bytes ≤ (P.view plant.old).size dev }
    ensures one { (P.view plant.new).now ≡ next (P.view plant.old).now }
    ensures cause { Caused by.0 dev (P.view plant.old) (P.view plant.new) (answer_of result) }
    ensures out { P.tells → IsOut dev (P.view plant.new) (answer_of result) }
    ensures there { OnOk result ((P.view plant.new).lost (DiskPart dev) ≡ false) }
    ensures during { P.tells → Meanwhile dev (NoMore (disk_now (P.view plant.old) dev)) (P.view plant.old)
        (P.view plant.new) }
    ensures same { OnOk result (P.tells → disk_now (P.view plant.new) dev ≡ disk_now (P.view plant.old) dev) }
    ensures page { IfOk result (λ page. P.tells
        → page.0 ≡ slice at page_bytes (disk_now (P.view plant.old) dev).bytes) }
{
    let mut page = Page([0; PAGE_BYTES]);
    read_act(plant, by, dev, at, &mut page.0)?;
    Ok(page)
}
