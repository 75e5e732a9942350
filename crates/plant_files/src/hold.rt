//! A folder that one run holds at a time.
use std::alloc::AllocError;
use std::fs::{self, File, OpenFile, TryLockError};
use std::io::{self, ErrorKind};
use std::rt::Files;
use thiserror::Error;

/// What a run does with its folder.
#[derive(Clone, Copy)]
pub enum Opening {
    /// The run formats the devices: the folder and all files that are missing are made.
    Make,
    /// The run goes on with what is there. Where the folder is missing, or has no file of either copy of the
    /// checkpoint, nothing is made, and the run goes as with `Look`. Else all files that are missing are made.
    GoOn,
    /// The run only looks: nothing is made, the devices are opened to be read alone, and others may look beside it.
    Look,
}

/// Why a folder isn't opened. Then no byte of its files was changed.
#[derive(Debug, Drop, Error)]
pub enum FolderError {
    /// Another run holds it, or the file of a device.
    #[error("another run holds the folder")]
    InUse,
    /// It is missing, and can't be made.
    #[error("the folder can't be made")]
    NotMade,
    /// It, or what stands above it, is something else than a folder.
    #[error("this is no folder")]
    NotFolder,
    /// It can't be opened to be read.
    #[error("the folder can't be opened")]
    NotOpened,
    /// Its file system gives no lock on it.
    #[error("the folder can't be locked")]
    NotLocked,
    /// Two of its devices are one file, as by a link.
    #[error("two devices of the folder are one file")]
    OneFile,
    /// There was no memory for the names of its files.
    #[error("there was no memory")]
    NoMemory,
}

impl From<AllocError> for FolderError {
    fn from(_error: AllocError) -> FolderError {
        FolderError::NoMemory
    }
}

// Leaves what a folder names on the disk.
pub(crate) fn sync_folder<R: Files>(rt: &R, path: &str) -> io::Result<()> {
    File::open(rt, path)?.sync_all()
}

// Leaves the names of the folders on a path on the disk, as far as the system does that.
fn sync_above<R: Files<File = File>>(rt: &R, folder: &str) {
    let top = if folder.starts_with('/') { "/" } else { "." };
    let _ = sync_folder(rt, top);
    for (at, _) in folder.match_indices('/') {
        if let Some(above) = folder.get(..at) {
            let _ = sync_folder(rt, above);
        }
    }
}

fn make_folder<R: Files<File = File>>(rt: &R, folder: &str) -> Result<(), FolderError> {
    fs::create_dir_all(rt, folder).map_err(|_| FolderError::NotMade)?;
    sync_above(rt, folder);
    Ok(())
}

// Whether a folder is there, which is made where that is asked for.
fn is_there<R: Files<File = File>>(
    rt: &R,
    folder: &str,
    opening: Opening,
) -> Result<bool, FolderError> {
    match fs::metadata(rt, folder) {
        Ok(found) if found.is_dir() => Ok(true),
        Ok(_) => Err(FolderError::NotFolder),
        Err(error) => match (error.kind(), opening) {
            (ErrorKind::NotFound, Opening::Make) => {
                make_folder(rt, folder)?;
                Ok(true)
            }
            (ErrorKind::NotFound, _) => Ok(false),
            (ErrorKind::NotADirectory, _) => Err(FolderError::NotFolder),
            _ => Err(FolderError::NotOpened),
        },
    }
}

// Locks a folder or a file, alone or beside others that only look.
pub(crate) fn lock(file: &File, opening: Opening) -> Result<(), FolderError> {
    let locked = match opening {
        Opening::Look => file.try_lock_shared(),
        Opening::Make | Opening::GoOn => file.try_lock(),
    };
    match locked {
        Ok(()) => Ok(()),
        Err(TryLockError::WouldBlock) => Err(FolderError::InUse),
        Err(TryLockError::Error(_)) => Err(FolderError::NotLocked),
    }
}

// Holds a folder until the file that it answers is closed, which the system does where the program ends, however it
// ends. None where the folder isn't there, and isn't to be made.
pub(crate) fn hold_folder<R: Files<File = File>>(
    rt: &R,
    folder: &str,
    opening: Opening,
) -> Result<Option<File>, FolderError> {
    if !is_there(rt, folder, opening)? {
        return Ok(None);
    }
    let held = File::open(rt, folder).map_err(|_| FolderError::NotOpened)?;
    lock(&held, opening)?;
    Ok(Some(held))
}
