//! A copy of the checkpoint on one device, of any form.
ghost use Rattle.std.specs.Prelude.{◌≡◌, ◌⊎◌, ℕ, ◌+◌, ◌*◌, ◌≤◌, ◌<◌, [], ◌∷◌, List, length, replicate, OnOk, OnErr, IfOk, IsErrOf, Option, Some, None, false};
ghost use Rattle.mas_types.specs.declared.ids.Dev.{Dev};
ghost use Rattle.spool_plant.specs.View.{View, Disk, disk_now};
ghost use Rattle.spool_plant.specs.Acts.{Goes, DiffersIn, next};
ghost use Rattle.spool_plant.specs.declared.plant.Part.TheVariants.{Disk as DiskPart};
ghost use Rattle.mas_types.specs.Limits.{pages_least, pages_most};
ghost use Rattle.ckpt_copy.specs.Causes.{Caused, IsOut, answer_of, answer_found, found_no, no_memory};
ghost use Rattle.ckpt_copy.specs.Changes.{NoMore};
ghost use Rattle.ckpt_copy.specs.Meanwhile.{Meanwhile};
ghost use Rattle.ckpt_copy.specs.Pages.{bytes_of, level, page_in, ArePages, Covers};
ghost use Rattle.ckpt_copy.specs.Reading.{AllRead, EachReads, EachForms, IsNone};

use mas_types::{List, MemberId, NoMemory, Page};
use spool_plant::Plant;
use std::alloc::Global;

/// Why a call of a copy wasn't done.
#[derive(Clone, Copy)]
pub enum CopyNo {
    /// The device failed: its count of faults rose in this call, and it is lost.
    Failed,
    /// The member was stopped: its count of stops rose in this call.
    Halted,
}

/// Why a copy wasn't found.
#[derive(Clone, Copy)]
pub enum FindNo {
    /// The device failed: its count of faults rose in this call, and it is lost.
    Failed,
    /// The member was stopped: its count of stops rose in this call.
    Halted,
    /// The copy reads as none.
    NotValid,
    /// There was no memory for the pages.
    NoMemory,
}

impl From<CopyNo> for FindNo {
    ghost from_gives = { λ no e. e ≡ found_no no };

    fn from(no: CopyNo) -> FindNo {
        match no {
            CopyNo::Failed => FindNo::Failed,
            CopyNo::Halted => FindNo::Halted,
        }
    }
}

impl From<NoMemory> for FindNo {
    ghost from_gives = { λ no e. e ≡ no_memory };

    fn from(_no: NoMemory) -> FindNo {
        FindNo::NoMemory
    }
}

/// A copy of the checkpoint's pages on one device.
///
/// What the bytes of a device read as, pages or none, is a function of the bytes alone. New pages are put behind a
/// closed gate, and the gate is opened once they are synced: so a crash at any moment leaves the old pages or the new.
/// After Failed the device is lost. After Halted only `find` makes the copy known again, until then nothing is said of
/// what it reads.
pub trait Copying {
    /// The device.
    ghost dev: { Self → Dev };

    /// How many pages it has.
    ghost count: { Self → ℕ };

    /// How many bytes of device so many pages need.
    ghost needs: { ℕ → ℕ };

    /// The puts possible before a settle.
    ghost room: { Self → ℕ };

    /// The puts possible after `form`.
    ghost room_most: { ℕ };

    /// The puts possible once one more gate was opened.
    ghost room_after: { ℕ → ℕ };

    /// A `form` or `find` has answered Ok: the number of pages is known, and the device is large enough.
    ghost ready: { Self → View → Type 0 };

    /// What a copy's bytes read as: the bytes of the pages, one after another, or none.
    ghost reads: { List ℕ → Option (List ℕ) };

    /// What stands behind the closed gate that `open_gate` opens.
    ghost behind: { Self → List ℕ → List ℕ };

    /// What a put of the pages with these numbers, out of all these pages, leaves behind the closed gate.
    ghost written: { Self → List ℕ → List ℕ → Disk → Type 0 };

    /// The puts possible before a settle, of the bytes alone.
    ghost room_in: { List ℕ → ℕ };

    /// What the copy keeps in memory fits the device, and each image reads as these pages.
    ghost rests: { Self → List ℕ → Disk → Type 0 };

    /// At rest as `rests` has it, and the next pages stand behind a closed gate, synced.
    ghost holds: { Self → List ℕ → List ℕ → Disk → Type 0 };

    /// How many bytes of device so many pages need.
    fn size_for(pages: u16) -> u64
        ensures { result ≡ needs pages };

    /// How many puts are possible before a settle.
    fn room(&self) -> u8
        ensures { result ≡ room self.now };

    /// Makes a copy of these pages of whatever is on the device: closes VALID, writes block 0 and the pages, and opens
    /// VALID, each with a sync. The copy then has as many pages.
    ///
    /// At each moment of the call an image reads as none or as these pages, or it is, but for VALID, an image of before
    /// the call. After Ok each image reads as these pages.
    fn form<P: Plant>(&mut self, plant: &mut P, by: MemberId, pages: &[Page]) -> Result<(), CopyNo>
        requires enough { pages_least ≤ length pages.now }
        requires few { length pages.now ≤ pages_most }
        requires size { needs (length pages.now) ≤ (P.view plant.old).size (dev self.old) }
        ensures dev { dev self.new ≡ dev self.old }
        ensures count { OnOk result (count self.new ≡ length pages.now) }
        ensures room { OnOk result (room self.new ≡ room_most) }
        ensures ready { OnOk result (ready self.new (P.view plant.new)) }
        ensures err { OnErr result (self.new ≡ self.old) }
        ensures cause { Caused by.0 (dev self.old) (P.view plant.old) (P.view plant.new) (answer_of result) }
        ensures out { P.tells → IsOut (dev self.old) (P.view plant.new) (answer_of result) }
        ensures there { OnOk result ((P.view plant.new).lost (DiskPart (dev self.old)) ≡ false) }
        ensures during { P.tells → Meanwhile (dev self.old)
            (EachForms reads (disk_now (P.view plant.old) (dev self.old)) (bytes_of pages.now)) (P.view plant.old)
            (P.view plant.new) }
        ensures formed { OnOk result (P.tells
            → rests self.new (bytes_of pages.now) (disk_now (P.view plant.new) (dev self.old))) };

    /// Finds what the copy reads as: syncs, so that what a halted call left is settled, and then reads. The copy then
    /// has that many pages.
    ///
    /// NotValid comes exactly where the copy reads as none. Each image at each moment of the call is one of before it.
    fn find<P: Plant>(
        &mut self,
        alloc: Global,
        plant: &mut P,
        by: MemberId,
    ) -> Result<List<Page>, FindNo>
        ensures dev { dev self.new ≡ dev self.old }
        ensures count { IfOk result (λ pages. count self.new ≡ length pages) }
        ensures room { OnOk result (room self.new ≤ room_most) }
        ensures ready { OnOk result (ready self.new (P.view plant.new)) }
        ensures err { OnErr result (self.new ≡ self.old) }
        ensures cause { Caused by.0 (dev self.old) (P.view plant.old) (P.view plant.new) (answer_found result) }
        ensures out { P.tells → IsOut (dev self.old) (P.view plant.new) (answer_found result) }
        ensures there { OnOk result ((P.view plant.new).lost (DiskPart (dev self.old)) ≡ false) }
        ensures there_none { IsErrOf result FindNo.NotValid
            → (P.view plant.new).lost (DiskPart (dev self.old)) ≡ false }
        ensures during { P.tells → Meanwhile (dev self.old) (NoMore (disk_now (P.view plant.old) (dev self.old)))
            (P.view plant.old) (P.view plant.new) }
        ensures found { IfOk result (λ pages. P.tells
            → rests self.new (bytes_of pages) (disk_now (P.view plant.new) (dev self.old))) }
        ensures settled { OnOk result (P.tells → (disk_now (P.view plant.new) (dev self.old)).unsynced ≡ []) }
        ensures room_found { OnOk result
            (P.tells → room self.new ≡ room_in (disk_now (P.view plant.new) (dev self.old)).bytes) }
        ensures not_valid { IsErrOf result FindNo.NotValid → P.tells
            → IsNone reads (disk_now (P.view plant.new) (dev self.old)) };

    /// Reads one page of the copy, by one read.
    fn read_page<P: Plant>(
        &self,
        plant: &mut P,
        by: MemberId,
        page: u16,
        into: &mut Page,
    ) -> Result<(), CopyNo>
        requires ready { ready self.now (P.view plant.old) }
        requires page { page < count self.now }
        ensures cause { Caused by.0 (dev self.now) (P.view plant.old) (P.view plant.new) (answer_of result) }
        ensures out { P.tells → IsOut (dev self.now) (P.view plant.new) (answer_of result) }
        ensures there { OnOk result ((P.view plant.new).lost (DiskPart (dev self.now)) ≡ false) }
        ensures one { (P.view plant.new).now ≡ next (P.view plant.old).now }
        ensures during { P.tells → Meanwhile (dev self.now) (NoMore (disk_now (P.view plant.old) (dev self.now)))
            (P.view plant.old) (P.view plant.new) }
        ensures err { OnErr result (into.new ≡ into.old) }
        ensures read { OnOk result (P.tells → (was : List ℕ)
            → rests self.now was (disk_now (P.view plant.old) (dev self.now)) → into.new.0 ≡ page_in page was) };

    /// Writes the next pages behind a closed gate, and syncs them. `changed` are the numbers of the pages that differ
    /// from what the copy reads, ascending from 0; a page that doesn't differ may be among them. The level in page 0
    /// has to be above the one that the copy reads.
    ///
    /// At each moment of the call each image reads as before it.
    fn put<P: Plant>(
        &mut self,
        plant: &mut P,
        by: MemberId,
        pages: &[Page],
        changed: &[u16],
    ) -> Result<(), CopyNo>
        requires ready { ready self.old (P.view plant.old) }
        requires as_many { length pages.now ≡ count self.old }
        requires room { 1 ≤ room self.old }
        requires changed { ArePages (count self.old) changed.now }
        ensures dev { dev self.new ≡ dev self.old }
        ensures count { count self.new ≡ count self.old }
        ensures room { room self.new ≡ room self.old }
        ensures ready { ready self.new (P.view plant.new) }
        ensures err { OnErr result (self.new ≡ self.old) }
        ensures cause { Caused by.0 (dev self.old) (P.view plant.old) (P.view plant.new) (answer_of result) }
        ensures out { P.tells → IsOut (dev self.old) (P.view plant.new) (answer_of result) }
        ensures there { OnOk result ((P.view plant.new).lost (DiskPart (dev self.old)) ≡ false) }
        ensures during { P.tells → (was : List ℕ) → rests self.old was (disk_now (P.view plant.old) (dev self.old))
            → Meanwhile (dev self.old) (AllRead reads was) (P.view plant.old) (P.view plant.new) }
        ensures held { OnOk result (P.tells → (was : List ℕ)
            → rests self.old was (disk_now (P.view plant.old) (dev self.old)) → level was < level (bytes_of pages.now)
            → Covers (count self.old) changed.now was (bytes_of pages.now)
            → holds self.new was (bytes_of pages.now) (disk_now (P.view plant.new) (dev self.old))) }
        ensures written { OnOk result (P.tells
            → written self.new changed.now (bytes_of pages.now) (disk_now (P.view plant.new) (dev self.old))) };

    /// Opens the gate before the pages that the last `put` wrote, and syncs it. Without such a put nothing is said of
    /// what the copy reads afterwards.
    ///
    /// At each moment of the call each image reads as the old or the new pages. After Ok each reads as the new ones.
    fn open_gate<P: Plant>(&mut self, plant: &mut P, by: MemberId) -> Result<(), CopyNo>
        requires ready { ready self.old (P.view plant.old) }
        requires room { 1 ≤ room self.old }
        ensures dev { dev self.new ≡ dev self.old }
        ensures count { count self.new ≡ count self.old }
        ensures room { OnOk result (room self.new ≡ room_after (room self.old)) }
        ensures ready { ready self.new (P.view plant.new) }
        ensures err { OnErr result (self.new ≡ self.old) }
        ensures cause { Caused by.0 (dev self.old) (P.view plant.old) (P.view plant.new) (answer_of result) }
        ensures out { P.tells → IsOut (dev self.old) (P.view plant.new) (answer_of result) }
        ensures there { OnOk result ((P.view plant.new).lost (DiskPart (dev self.old)) ≡ false) }
        ensures during { P.tells → (was next : List ℕ)
            → holds self.old was next (disk_now (P.view plant.old) (dev self.old))
            → Meanwhile (dev self.old) (EachReads reads was next) (P.view plant.old) (P.view plant.new) }
        ensures opened { OnOk result (P.tells → (was next : List ℕ)
            → holds self.old was next (disk_now (P.view plant.old) (dev self.old))
            → rests self.new next (disk_now (P.view plant.new) (dev self.old))) };

    /// Makes room for puts again. The pages have to be those that the copy reads, and no put may wait.
    ///
    /// At each moment of the call each image reads as before it.
    fn settle<P: Plant>(
        &mut self,
        plant: &mut P,
        by: MemberId,
        pages: &[Page],
    ) -> Result<(), CopyNo>
        requires ready { ready self.old (P.view plant.old) }
        requires as_many { length pages.now ≡ count self.old }
        ensures dev { dev self.new ≡ dev self.old }
        ensures count { count self.new ≡ count self.old }
        ensures room { OnOk result (room self.new ≡ room_most) }
        ensures ready { ready self.new (P.view plant.new) }
        ensures err { OnErr result (self.new ≡ self.old) }
        ensures cause { Caused by.0 (dev self.old) (P.view plant.old) (P.view plant.new) (answer_of result) }
        ensures out { P.tells → IsOut (dev self.old) (P.view plant.new) (answer_of result) }
        ensures during { P.tells → rests self.old (bytes_of pages.now) (disk_now (P.view plant.old) (dev self.old))
            → Meanwhile (dev self.old) (AllRead reads (bytes_of pages.now)) (P.view plant.old) (P.view plant.new) }
        ensures settled { OnOk result (P.tells
            → rests self.old (bytes_of pages.now) (disk_now (P.view plant.old) (dev self.old))
            → rests self.new (bytes_of pages.now) (disk_now (P.view plant.new) (dev self.old))) };

    /// Any acts leave the number of pages and the size of the device as they are.
    ghost stays_ready: { (copy : Self) (old new : View) → Goes old new → ready copy old → ready copy new };

    /// The number of pages is in range.
    ghost ready_count: { (copy : Self) (v : View) → ready copy v → (pages_least ≤ count copy)
        × (count copy ≤ pages_most) };

    /// At rest each image reads as the pages.
    ghost rests_reads: { (copy : Self) (pages : List ℕ) (disk : Disk) → rests copy pages disk
        → AllRead reads pages disk };

    /// At rest the bytes of the device themselves read as the pages.
    ghost rests_now: { (copy : Self) (pages : List ℕ) (disk : Disk) → rests copy pages disk
        → reads disk.bytes ≡ Some pages };

    /// While the next pages wait, each image reads as before.
    ghost holds_reads: { (copy : Self) (was next : List ℕ) (disk : Disk) → holds copy was next disk
        → AllRead reads was disk };

    /// The copy may be put again before its gate is opened: the pages that wait count for nothing.
    ghost holds_rests: { (copy : Self) (was next : List ℕ) (disk : Disk) → holds copy was next disk
        → rests copy was disk };

    /// Reads and syncs leave it at rest.
    ghost rests_stays: { (copy : Self) (pages : List ℕ) (old new : Disk) → NoMore old new → rests copy pages old
        → rests copy pages new };

    /// Reads and syncs leave the pages that wait.
    ghost holds_stays: { (copy : Self) (was next : List ℕ) (old new : Disk) → NoMore old new → holds copy was next old
        → holds copy was next new };

    /// A device of zeros reads as none, whatever stands in its VALID gate.
    ghost blank_reads: { (size : ℕ) (image : List ℕ) → DiffersIn 0 1 (replicate size 0) image → reads image ≡ None };

    /// The pages that wait stand on the device.
    ghost holds_behind: { (copy : Self) (was next : List ℕ) (disk : Disk) → holds copy was next disk
        → behind copy disk.bytes ≡ next };
}
