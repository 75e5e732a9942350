//! How the program ends: as its top call does, or before that has any device. The codes up to 8 are the top call's.
ghost use Rattle.std.specs.Prelude.{◌≡◌};
ghost use Rattle.mas_process.specs.Endings.{ending_code, folder_text};

use mas_types::{NoMemory, Status, status_code, status_line};
use mas_words::WordsNo;
use plant_files::FolderError;
use std::io::{self, Write};

/// How the program ends.
#[derive(Drop)]
pub enum Ending {
    /// As the top call ends, or as it would end without a device.
    Top(Status),
    /// The folder isn't opened.
    Folder(FolderError),
    /// A standard stream is closed, and the null device can't be opened in its place.
    NoNullDevice,
}

impl From<WordsNo> for Ending {
    fn from(why: WordsNo) -> Ending {
        match why {
            WordsNo::Words => Ending::Top(Status::Words),
            WordsNo::NoMemory => Ending::Top(Status::NoMemory),
        }
    }
}

impl From<FolderError> for Ending {
    fn from(why: FolderError) -> Ending {
        match why {
            FolderError::NoMemory => Ending::Top(Status::NoMemory),
            why => Ending::Folder(why),
        }
    }
}

/// The exit code: 9 where another run holds the folder, 10 where the folder can't be opened, and 11 where a stream is
/// closed.
pub fn code_of(ending: &Ending) -> u8
    ensures { result ≡ ending_code ending.now }
{
    match ending {
        Ending::Top(status) => status_code(status),
        Ending::Folder(FolderError::NoMemory) => status_code(&Status::NoMemory),
        Ending::Folder(FolderError::InUse) => 9,
        Ending::Folder(_) => 10,
        Ending::NoNullDevice => 11,
    }
}

// What the line of a folder that isn't opened says.
fn text_of(why: &FolderError) -> &'static [u8]
    ensures { result.now ≡ folder_text why.now }
{
    match why {
        FolderError::InUse => b"MAS FOLDER IN USE",
        FolderError::NotMade => b"MAS FOLDER NOT MADE",
        FolderError::NotFolder => b"MAS FOLDER NOT A FOLDER",
        FolderError::NotOpened => b"MAS FOLDER NOT OPENED",
        FolderError::NotLocked => b"MAS FOLDER NOT LOCKED",
        FolderError::OneFile => b"MAS FOLDER DEVICES ARE ONE FILE",
        FolderError::NoMemory => b"MAS NO MEMORY",
    }
}

// Writes a line with its end.
fn write_text<W: Write>(error: &mut W, line: &[u8]) -> io::Result<()> {
    error.write_all(line)?;
    error.write_all(b"\n")
}

/// Writes the line of an ending to standard error; none where every step has closed. Where that is a pipe whose reader
/// has ended it fails; the program ignores the signal of it, so the exit code stays.
pub fn write_line_of(rt: &HostRuntime, ending: &Ending) -> io::Result<()> {
    let mut error = rt.stderr();
    match ending {
        Ending::Top(status) => match status_line(rt.alloc(), status) {
            Ok(None) => Ok(()),
            Ok(Some(line)) => write_text(&mut error, line.as_slice()),
            Err(NoMemory) => write_text(&mut error, text_of(&FolderError::NoMemory)),
        },
        Ending::Folder(why) => write_text(&mut error, text_of(why)),
        Ending::NoNullDevice => write_text(&mut error, b"MAS NO NULL DEVICE"),
    }
}
