//! A plant over the files of a folder.
ghost use Rattle.std.specs.Prelude.{◌≡◌, ◌<◌, ◌≤◌, ℕ, length, IfOk, false};
ghost use Rattle.spool_plant.specs.Acts.{Acts, FitsInto, act_of, top};
ghost use Rattle.plant_files.specs.FileView.{size_of, tally_view};

use crate::folder::{EACH_MOST, Folder, open_folder};
use crate::hold::{FolderError, Opening, hold_folder};
use crate::streams::Streams;
use crate::tally::Tally;
use mas_types::{Dev, MemberId};
use spool_disk::{PLACES, place_number};
use spool_plant::{Act, Fuse, Part, Plant, Took};
use std::alloc::{AllocError, Global};
use std::fs::{File, OpenFile};
use std::io::{Read, Seek, Write};
use std::os::unix::fs::FileExt;
use std::rt::Files;

/// The bytes of each device that has a file.
pub const DEVICE_SIZE: u64 = 16_777_216;

/// Devices, printers and lines as files of a folder, and standard output as the console. What the files of a system
/// hold can't be known, so this plant tells nothing of it. No act of it halts, and arming a stop is only counted. As
/// long as it is there its folder is held, and the standard streams are open.
#[derive(Drop)]
pub struct FilePlant<R: Files + Print + Drop> {
    /// The system's files and streams.
    rt: R,
    /// The standard streams.
    streams: Streams,
    // The folder that is held, unless it isn't there. It is let go where this is closed.
    held: Option<R::File>,
    /// The folder's files.
    folder: Folder<R::File>,
    /// The counts of faults, losses and armed calls.
    tally: Tally,
}

fn note_lost<F: Read + Write + Seek + FileExt + OpenFile + Drop>(
    lost: &mut [bool],
    folder: &Folder<F>,
    part: Part,
)
    requires { length lost.old ≡ 1032 }
{
    lost[place_number(part)] = !folder.has(part);
}

// By their places, the parts that are lost since they have no file.
fn lost_parts<F: Read + Write + Seek + FileExt + OpenFile + Drop>(
    alloc: Global,
    folder: &Folder<F>,
) -> Result<Vec<bool>, AllocError>
    ensures { IfOk result (λ lost. length lost.items ≡ 1032) }
{
    let mut lost = vec![in alloc; true; PLACES]?;
    note_lost(&mut lost, folder, Part::Console);
    note_lost(&mut lost, folder, Part::Disk(Dev::Ckpt1));
    note_lost(&mut lost, folder, Part::Disk(Dev::Ckpt2));
    for number in 1..=EACH_MOST {
        note_lost(&mut lost, folder, Part::Disk(Dev::Spool(number)));
        note_lost(&mut lost, folder, Part::Printer(MemberId(number)));
        note_lost(&mut lost, folder, Part::Wire(number));
    }
    Ok(lost)
}

impl<R: Files<File = File> + Print + Drop> FilePlant<R> {
    ghost use Rattle.plant_files.specs.FileView.{IsFresh};

    /// A plant over a folder's files CKPT1, CKPT2, SPOOL1 to SPOOL8, PRT1 to PRT8, LINE1.IN to LINE8.IN and LINE1.OUT
    /// to LINE8.OUT. First the folder is held, and then the files of its devices: until this plant is dropped, or the
    /// program ends, no other run opens them, but that any number may look at them at once. A part is lost whose file
    /// can't be opened, or beside which stands a file of its name and `.LOST`. Which files are made, and how they are
    /// opened, is said by `opening`. Each error comes as it says, and changes no byte of a file.
    pub fn open(
        rt: R,
        alloc: Global,
        streams: Streams,
        folder: &str,
        opening: Opening,
    ) -> Result<FilePlant<R>, FolderError>
        ensures { IfOk result (λ p. IsFresh (tally_view p.tally)) }
    {
        let held = hold_folder(&rt, folder, opening)?;
        let folder = open_folder(&rt, alloc, folder, opening)?;
        if folder.has_twins() {
            return Err(FolderError::OneFile);
        }
        folder.lock_devices(opening)?;
        let lost = lost_parts(alloc, &folder)?;
        let tally = Tally::new(alloc, &lost)?;
        Ok(FilePlant {
            rt,
            streams,
            held,
            folder,
            tally,
        })
    }
}

// Ends a `take` that failed, and one that gave so many bytes.
fn failed_take(tally: &mut Tally, part: Part) -> Took
    ensures acts { (by : ℕ) → Acts by part (tally_view tally.old) (tally_view tally.new) (act_of result) }
    ensures fits { (room : ℕ) → FitsInto room result }
{
    let _ = tally.end_act(part, false);
    Took::Failed
}

fn finished_take(tally: &mut Tally, part: Part, n: usize) -> Took
    requires { ((tally_view tally.old).now < top) × ((tally_view tally.old).lost part ≡ false) }
    ensures acts { (by : ℕ) → Acts by part (tally_view tally.old) (tally_view tally.new) (act_of result) }
    ensures fits { (room : ℕ) → n ≤ room → FitsInto room result }
{
    let _ = tally.end_act(part, true);
    Took::Bytes(n)
}

impl<R: Files + Print + Drop> Plant for FilePlant<R>
where
    R::File: FileExt,
{
    ghost tells = { ⊥ };

    ghost view = { λ p. tally_view p.tally };

    ghost sized = { λ p told t le d. absurd told };

    ghost there = { λ p told d whole. absurd told };

    ghost halts_none = { Unit {0} };

    ghost unstopped = { λ p is member. p.tally.unstopped member };

    ghost halts_armed = { Unit {0} };

    ghost unarmed = { λ p is member none. p.tally.unstopped member };

    fn now(&self) -> u64 {
        self.tally.moment
    }

    fn size(&self, dev: Dev) -> u64 {
        match dev {
            Dev::Ckpt1 | Dev::Ckpt2 => DEVICE_SIZE,
            Dev::Spool(number) if 1 <= number && number <= EACH_MOST => DEVICE_SIZE,
            Dev::Spool(_) => 0,
        }
    }

    fn lost(&self, part: Part) -> bool {
        self.tally.lost(part)
    }

    fn read(&mut self, _by: MemberId, dev: Dev, at: u64, into: &mut [u8]) -> Act {
        let part = Part::Disk(dev);
        if !self.tally.may_act(part) {
            return self.tally.end_act(part, false);
        }
        let done = self.folder.read(dev, at, into).is_ok();
        self.tally.end_act(part, done)
    }

    fn write(&mut self, _by: MemberId, dev: Dev, at: u64, bytes: &[u8]) -> Act {
        let part = Part::Disk(dev);
        if !self.tally.may_act(part) {
            return self.tally.end_act(part, false);
        }
        let done = self.folder.write(dev, at, bytes).is_ok();
        self.tally.end_act(part, done)
    }

    fn sync(&mut self, _by: MemberId, dev: Dev) -> Act {
        let part = Part::Disk(dev);
        if !self.tally.may_act(part) {
            return self.tally.end_act(part, false);
        }
        let done = self.folder.sync(dev).is_ok();
        self.tally.end_act(part, done)
    }

    fn say(&mut self, _by: MemberId, line: &[u8]) -> Act {
        let part = Part::Console;
        if !self.tally.may_act(part) {
            return self.tally.end_act(part, false);
        }
        let done = self.streams.say(&self.rt, line).is_ok();
        self.tally.end_act(part, done)
    }

    fn print(&mut self, by: MemberId, line: &[u8]) -> Act {
        let part = Part::Printer(by);
        if !self.tally.may_act(part) {
            return self.tally.end_act(part, false);
        }
        let done = self.folder.print(by, line).is_ok();
        self.tally.end_act(part, done)
    }

    fn give(&mut self, _by: MemberId, wire: u8, bytes: &[u8]) -> Act {
        let part = Part::Wire(wire);
        if !self.tally.may_act(part) {
            return self.tally.end_act(part, false);
        }
        let done = self.folder.give(wire, bytes).is_ok();
        self.tally.end_act(part, done)
    }

    fn take(&mut self, _by: MemberId, wire: u8, into: &mut [u8]) -> Took {
        let part = Part::Wire(wire);
        if !self.tally.may_act(part) {
            return failed_take(&mut self.tally, part);
        }
        match self.folder.take(wire, into) {
            Ok(n) => finished_take(&mut self.tally, part, n),
            Err(_) => failed_take(&mut self.tally, part),
        }
    }

    fn arm(&mut self, member: MemberId, _fuse: Fuse, _n: u32) {
        self.tally.arm(member);
    }

    fn renew(&mut self, dev: Dev) -> Act {
        if !self.tally.may_renew() {
            return self.tally.end_renewal(dev, false);
        }
        let done = self.folder.renew(&self.rt, dev).is_ok();
        self.tally.end_renewal(dev, done)
    }

    fn lose(&mut self, dev: Dev) {
        // Where no mark can be put, the device is lost in this run alone.
        let _ = self.folder.mark_lost(&self.rt, dev);
        self.tally.lose(dev);
    }
}
