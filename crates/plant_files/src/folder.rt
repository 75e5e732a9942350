//! The files of a folder.
ghost use Rattle.std.specs.Prelude.{◌≡◌, ◌≤◌, length, IfOk};

use crate::files::{append, empty, not_there, read_next};
use crate::hold::{FolderError, Opening, sync_folder};
use crate::marked::{How, Marked, open_marked, open_or_make};
use mas_types::{Dev, MemberId};
use spool_plant::Part;
use std::alloc::{AllocError, Global};
use std::fs::{self, File, OpenFile};
use std::io::{self, ErrorKind, Read, Seek, Write};
use std::os::unix::fs::FileExt;
use std::rt::Files;

// The volumes, printers and lines that have files, from 1 on.
pub(crate) const EACH_MOST: u8 = 8;

// The open files of a folder. Those of volumes, printers and lines stand by their numbers from 1 on.
#[derive(Drop)]
pub(crate) struct Folder<F: Drop> {
    path: String,
    pub(crate) ckpt1: Marked<F>,
    pub(crate) ckpt2: Marked<F>,
    pub(crate) volumes: Vec<Marked<F>>,
    pub(crate) printers: Vec<Marked<F>>,
    pub(crate) lines_in: Vec<Marked<F>>,
    pub(crate) lines_out: Vec<Marked<F>>,
}

// The files of these names, by their numbers from 1 on.
fn open_each<R: Files>(
    rt: &R,
    alloc: Global,
    folder: &str,
    kind: (&str, &str),
    how: How,
) -> Result<Vec<Marked<R::File>>, AllocError> {
    let (front, back) = kind;
    let mut all = Vec::new(alloc);
    for number in 1..=EACH_MOST {
        let name = format!(in alloc; "{front}{number}{back}")?;
        all.push(open_marked(rt, alloc, folder, name.as_str(), how)?)?;
    }
    Ok(all)
}

// A folder has a file of a copy of the checkpoint.
fn has_copy<R: Files>(rt: &R, alloc: Global, folder: &str) -> Result<bool, AllocError> {
    for name in ["CKPT1", "CKPT2"] {
        let path = format!(in alloc; "{folder}/{name}")?;
        if fs::exists(rt, path.as_str()).unwrap_or(true) {
            return Ok(true);
        }
    }
    Ok(false)
}

// Files that are missing are made.
fn makes<R: Files>(
    rt: &R,
    alloc: Global,
    folder: &str,
    opening: Opening,
) -> Result<bool, AllocError> {
    match opening {
        Opening::Make => Ok(true),
        Opening::GoOn => has_copy(rt, alloc, folder),
        Opening::Look => Ok(false),
    }
}

// Opens all files of a folder that is held, and makes those that are missing.
fn open_all<R: Files>(rt: &R, alloc: Global, folder: &str) -> Result<Folder<R::File>, AllocError> {
    let opened = Folder {
        path: format!(in alloc; "{folder}")?,
        ckpt1: open_marked(rt, alloc, folder, "CKPT1", How::Make)?,
        ckpt2: open_marked(rt, alloc, folder, "CKPT2", How::Make)?,
        volumes: open_each(rt, alloc, folder, ("SPOOL", ""), How::Make)?,
        printers: open_each(rt, alloc, folder, ("PRT", ""), How::Make)?,
        lines_in: open_each(rt, alloc, folder, ("LINE", ".IN"), How::MakeToRead)?,
        lines_out: open_each(rt, alloc, folder, ("LINE", ".OUT"), How::Make)?,
    };
    let _ = sync_folder(rt, folder);
    Ok(opened)
}

// Opens the devices of a folder to be read alone. Printers and lines stay closed.
fn open_to_look<R: Files>(
    rt: &R,
    alloc: Global,
    folder: &str,
) -> Result<Folder<R::File>, AllocError> {
    Ok(Folder {
        path: format!(in alloc; "{folder}")?,
        ckpt1: open_marked(rt, alloc, folder, "CKPT1", How::Look)?,
        ckpt2: open_marked(rt, alloc, folder, "CKPT2", How::Look)?,
        volumes: open_each(rt, alloc, folder, ("SPOOL", ""), How::Look)?,
        printers: open_each(rt, alloc, folder, ("PRT", ""), How::Leave)?,
        lines_in: open_each(rt, alloc, folder, ("LINE", ".IN"), How::Leave)?,
        lines_out: open_each(rt, alloc, folder, ("LINE", ".OUT"), How::Leave)?,
    })
}

// Opens the files of a folder that is held.
pub(crate) fn open_folder<R: Files>(
    rt: &R,
    alloc: Global,
    folder: &str,
    opening: Opening,
) -> Result<Folder<R::File>, AllocError> {
    if makes(rt, alloc, folder, opening)? {
        open_all(rt, alloc, folder)
    } else {
        open_to_look(rt, alloc, folder)
    }
}

// What stands at a number from 1 on.
fn numbered<F: Drop>(files: &mut [Marked<F>], number: u8) -> io::Result<&mut Marked<F>> {
    let at = number as usize;
    if 0 < at && at <= files.len() {
        Ok(&mut files[at - 1])
    } else {
        Err(not_there())
    }
}

fn is_there<F: Drop>(files: &[Marked<F>], number: u8) -> bool {
    let at = number as usize;
    0 < at && at <= files.len() && files[at - 1].is_there()
}

fn is_among<F: OpenFile + Drop>(device: &Marked<F>, others: &[Marked<F>]) -> bool {
    others.iter().any(|other| device.is_file_of(other))
}

impl<F: OpenFile + Drop> Folder<F> {
    // Two devices are one file.
    pub(crate) fn has_twins(&self) -> bool {
        let volumes = self.volumes.as_slice();
        let copies = self.ckpt1.is_file_of(&self.ckpt2);
        let both = is_among(&self.ckpt1, volumes) || is_among(&self.ckpt2, volumes);
        let among = (1..volumes.len()).any(|at| is_among(&volumes[at], &volumes[..at]));
        copies || both || among
    }
}

impl Folder<File> {
    // Locks the files of the devices too, which another folder may name by links, or another machine by the folder
    // itself. One that can't be locked is held by the folder's lock alone.
    pub(crate) fn lock_devices(&self, opening: Opening) -> Result<(), FolderError> {
        self.ckpt1.lock(opening)?;
        self.ckpt2.lock(opening)?;
        for volume in self.volumes.iter() {
            volume.lock(opening)?;
        }
        Ok(())
    }
}

impl<F: Read + Write + Seek + FileExt + OpenFile + Drop> Folder<F> {
    fn marked(&mut self, dev: Dev) -> io::Result<&mut Marked<F>> {
        match dev {
            Dev::Ckpt1 => Ok(&mut self.ckpt1),
            Dev::Ckpt2 => Ok(&mut self.ckpt2),
            Dev::Spool(number) => numbered(&mut self.volumes, number),
        }
    }

    // Has what a part wants. The console isn't one of the folder's.
    pub(crate) fn has(&self, part: Part) -> bool {
        match part {
            Part::Disk(Dev::Ckpt1) => self.ckpt1.is_there(),
            Part::Disk(Dev::Ckpt2) => self.ckpt2.is_there(),
            Part::Disk(Dev::Spool(number)) => is_there(&self.volumes, number),
            Part::Console => true,
            Part::Printer(member) => is_there(&self.printers, member.0),
            Part::Wire(number) => is_there(&self.lines_in, number)
                && is_there(&self.lines_out, number),
        }
    }

    pub(crate) fn read(&mut self, dev: Dev, at: u64, into: &mut [u8]) -> io::Result<()> {
        self.marked(dev)?.read(at, into)
    }

    // Writes to a device. The texts on a volume grow, a copy of the checkpoint has its size from the first batches on.
    pub(crate) fn write(&mut self, dev: Dev, at: u64, bytes: &[u8]) -> io::Result<()> {
        let marked = self.marked(dev)?;
        match dev {
            Dev::Ckpt1 | Dev::Ckpt2 => marked.write(at, bytes),
            Dev::Spool(_) => marked.write_ahead(at, bytes),
        }
    }

    // Leaves on the disk what the printers printed.
    fn sync_paper(&mut self) -> io::Result<()> {
        for printer in self.printers.iter_mut() {
            printer.sync_lines()?;
        }
        Ok(())
    }

    // Syncs a device. A batch may say of lines that they are printed: so they are on the disk before a copy of the
    // checkpoint is synced, and where a printer can't be synced no copy is from then on.
    pub(crate) fn sync(&mut self, dev: Dev) -> io::Result<()> {
        if let Dev::Ckpt1 | Dev::Ckpt2 = dev {
            self.sync_paper()?;
        }
        self.marked(dev)?.sync()
    }

    pub(crate) fn print(&mut self, member: MemberId, line: &[u8]) -> io::Result<()> {
        numbered(&mut self.printers, member.0)?.print(line)
    }

    pub(crate) fn give(&mut self, line: u8, bytes: &[u8]) -> io::Result<()> {
        append(numbered(&mut self.lines_out, line)?.file()?, bytes)
    }

    pub(crate) fn take(&mut self, line: u8, into: &mut [u8]) -> io::Result<usize>
        ensures { IfOk result (λ n. n ≤ length into.new) }
    {
        read_next(numbered(&mut self.lines_in, line)?.file()?, into)
    }

    // Empties a device's file, and takes away the mark that says that it is lost.
    pub(crate) fn renew<R: Files<File = F>>(&mut self, rt: &R, dev: Dev) -> io::Result<()> {
        let marked = self.marked(dev)?;
        let file = open_or_make(rt, marked.path())?;
        empty(&file)?;
        match fs::remove_file(rt, marked.mark()) {
            Err(error) if error.kind() != ErrorKind::NotFound => return Err(error),
            _ => {}
        }
        marked.put(file);
        sync_folder(rt, self.path.as_str())
    }

    // Puts the mark beside a device's file that says that it is lost.
    pub(crate) fn mark_lost<R: Files>(&mut self, rt: &R, dev: Dev) -> io::Result<()> {
        if let Ok(marked) = self.marked(dev) {
            open_or_make(rt, marked.mark())?;
        }
        sync_folder(rt, self.path.as_str())
    }
}
