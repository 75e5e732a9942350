//! A file of the folder, and the mark beside it.
use crate::files::{add_line, append_line, lengthen, not_there, read_at, sync_written};
use crate::hold::{FolderError, Opening, lock};
use std::alloc::{AllocError, Global};
use std::fs::{self, File, OpenFile, OpenOptions};
use std::io::{self, ErrorKind, Read, Seek, Write};
use std::os::unix::fs::{FileExt, FileTypeExt, MetadataExt};
use std::rt::Files;

// How a file is opened.
#[derive(Clone, Copy)]
pub(crate) enum How {
    // To be read and written; it is made where it is missing.
    Make,
    // To be read; it is made where it is missing.
    MakeToRead,
    // To be read. Where it is missing it reads as zeros.
    Look,
    // Not to be opened.
    Leave,
}

// What a run has of a file.
#[derive(Drop)]
enum Kept<F: Drop> {
    Open(F),
    // It isn't there, and isn't made. It reads as zeros, and can't be written.
    Blank,
    // It can't be opened, wasn't to be, or its mark says that it is lost.
    Lost,
}

// The lines that a printer printed.
#[derive(Clone, Copy)]
enum Paper {
    // All are on the disk.
    Synced,
    // Some are written, and not synced yet.
    Written,
    // Some were written and couldn't be synced: a later sync tells nothing of them.
    Unsure,
}

// A file, its path, and the path of the mark beside it that says that it is lost.
#[derive(Drop)]
pub(crate) struct Marked<F: Drop> {
    kept: Kept<F>,
    paper: Paper,
    // The last line that this run added has its end.
    is_whole: bool,
    // The file ends there, or behind it, as far as this run knows.
    end: u64,
    path: String,
    mark: String,
}

// Opens a file, and makes it where it is missing.
pub(crate) fn open_or_make<R: Files>(rt: &R, path: &str) -> io::Result<R::File> {
    OpenOptions::new()
        .read(true)
        .write(true)
        .create(true)
        .open(rt, path)
}

// Opens a file that is only read, and makes it where it is missing.
fn open_to_read<R: Files>(rt: &R, path: &str) -> io::Result<R::File> {
    match OpenOptions::new().read(true).open(rt, path) {
        Err(error) if error.kind() == ErrorKind::NotFound => open_or_make(rt, path),
        answer => answer,
    }
}

fn opened<F: Drop>(answer: io::Result<F>) -> Kept<F> {
    match answer {
        Ok(file) => Kept::Open(file),
        Err(_) => Kept::Lost,
    }
}

// Opens a file to be read, unless it is missing. A pipe, at which an opening waits for another program, is none.
fn open_to_look<R: Files>(rt: &R, path: &str) -> Kept<R::File> {
    match fs::metadata(rt, path) {
        Err(error) if error.kind() == ErrorKind::NotFound => Kept::Blank,
        Ok(found) if !found.file_type().is_fifo() => {
            opened(OpenOptions::new().read(true).open(rt, path))
        }
        _ => Kept::Lost,
    }
}

fn open_kept<R: Files>(rt: &R, path: &str, mark: &str, how: How) -> Kept<R::File> {
    if fs::exists(rt, mark).unwrap_or(true) {
        return Kept::Lost;
    }
    match how {
        How::Make => opened(open_or_make(rt, path)),
        How::MakeToRead => opened(open_to_read(rt, path)),
        How::Look => open_to_look(rt, path),
        How::Leave => Kept::Lost,
    }
}

// Opens a file of the folder. It is lost where a mark stands beside it.
pub(crate) fn open_marked<R: Files>(
    rt: &R,
    alloc: Global,
    folder: &str,
    name: &str,
    how: How,
) -> Result<Marked<R::File>, AllocError> {
    let path = format!(in alloc; "{folder}/{name}")?;
    let mark = format!(in alloc; "{folder}/{name}.LOST")?;
    Ok(Marked {
        kept: open_kept(rt, path.as_str(), mark.as_str(), how),
        paper: Paper::Synced,
        is_whole: false,
        end: 0,
        path,
        mark,
    })
}

// Files whose metadata can't be read count as two.
fn is_same_file<F: OpenFile>(file: &F, other: &F) -> bool {
    match (file.metadata(), other.metadata()) {
        (Ok(one), Ok(two)) => one.ino() != 0 && one.ino() == two.ino() && one.dev() == two.dev(),
        _ => false,
    }
}

impl<F: Drop> Marked<F> {
    pub(crate) fn path(&self) -> &str {
        self.path.as_str()
    }

    pub(crate) fn mark(&self) -> &str {
        self.mark.as_str()
    }

    pub(crate) fn is_there(&self) -> bool {
        match self.kept {
            Kept::Open(_) | Kept::Blank => true,
            Kept::Lost => false,
        }
    }

    pub(crate) fn file(&mut self) -> io::Result<&mut F> {
        match &mut self.kept {
            Kept::Open(file) => Ok(file),
            Kept::Blank | Kept::Lost => Err(not_there()),
        }
    }

    // Puts another file in the place of this one.
    pub(crate) fn put(&mut self, file: F) {
        self.kept = Kept::Open(file);
        self.is_whole = false;
        self.end = 0;
    }
}

impl Marked<File> {
    pub(crate) fn lock(&self, opening: Opening) -> Result<(), FolderError> {
        match &self.kept {
            Kept::Open(file) => match lock(file, opening) {
                Err(FolderError::InUse) => Err(FolderError::InUse),
                _ => Ok(()),
            },
            Kept::Blank | Kept::Lost => Ok(()),
        }
    }
}

impl<F: OpenFile + Drop> Marked<F> {
    // Is the same file of the system as another one.
    pub(crate) fn is_file_of(&self, other: &Marked<F>) -> bool {
        match (&self.kept, &other.kept) {
            (Kept::Open(file), Kept::Open(others)) => is_same_file(file, others),
            _ => false,
        }
    }
}

impl<F: Read + Write + Seek + FileExt + OpenFile + Drop> Marked<F> {
    // Notes a line that was printed, or one at which the printer failed.
    fn note_line(&mut self, is_printed: bool) {
        self.paper = match self.paper {
            Paper::Unsure => Paper::Unsure,
            Paper::Synced | Paper::Written if is_printed => Paper::Written,
            Paper::Synced | Paper::Written => Paper::Synced,
        };
    }

    pub(crate) fn read(&mut self, at: u64, into: &mut [u8]) -> io::Result<()> {
        match &mut self.kept {
            Kept::Open(file) => read_at(file, at, into),
            Kept::Blank => {
                into.fill(0);
                Ok(())
            }
            Kept::Lost => Err(not_there()),
        }
    }

    pub(crate) fn write(&mut self, at: u64, bytes: &[u8]) -> io::Result<()> {
        self.file()?.write_all_at(bytes, at)
    }

    // Writes to a file that is made longer ahead of its bytes: a sync takes several times as long where the file got
    // longer since the last one. Where it can't be made longer the bytes stand there nevertheless.
    pub(crate) fn write_ahead(&mut self, at: u64, bytes: &[u8]) -> io::Result<()> {
        self.write(at, bytes)?;
        let end = at.saturating_add(bytes.len() as u64);
        if self.end < end {
            self.end = lengthen(self.file()?, end).unwrap_or(end);
        }
        Ok(())
    }

    pub(crate) fn sync(&mut self) -> io::Result<()> {
        match &mut self.kept {
            Kept::Open(file) => file.sync_data(),
            Kept::Blank => Ok(()),
            Kept::Lost => Err(not_there()),
        }
    }

    pub(crate) fn print(&mut self, line: &[u8]) -> io::Result<()> {
        let is_whole = self.is_whole;
        let file = self.file()?;
        let printed = if is_whole {
            add_line(file, line)
        } else {
            append_line(file, line)
        };
        if printed.is_err() {
            // The printer is lost, and no batch says of the lines since the last sync that they are printed.
            let _ = sync_written(file);
        }
        self.is_whole = printed.is_ok();
        self.note_line(printed.is_ok());
        printed
    }

    // Leaves on the disk what was printed.
    pub(crate) fn sync_lines(&mut self) -> io::Result<()> {
        match self.paper {
            Paper::Synced => Ok(()),
            Paper::Written => {
                self.paper = Paper::Unsure;
                sync_written(self.file()?)?;
                self.paper = Paper::Synced;
                Ok(())
            }
            Paper::Unsure => Err(not_there()),
        }
    }
}
