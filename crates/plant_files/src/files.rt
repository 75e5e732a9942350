//! What is done with an open file.
ghost use Rattle.std.specs.Prelude.{◌≡◌, ◌≤◌, length, IfOk};

use std::fs::OpenFile;
use std::io::{self, ErrorKind, Read, Seek, SeekFrom, Write};
use std::os::unix::fs::FileExt;

// Reads from a place on until the bytes are full or the file ends, and answers how many came.
fn read_full<F: FileExt>(file: &F, at: u64, into: &mut [u8]) -> io::Result<usize>
    ensures { IfOk result (λ n. n ≤ length into.new) }
{
    let mut filled = 0;
    for _ in 0..u64::MAX {
        if filled == into.len() {
            break;
        }
        match file.read_at(&mut into[filled..], at.wrapping_add(filled as u64)) {
            Ok(0) => break,
            Ok(n) => filled += n,
            Err(error) if error.kind() == ErrorKind::Interrupted => {}
            Err(error) => return Err(error),
        }
    }
    Ok(filled)
}

// The bytes of a file from a place on. Behind its end are zeros.
pub(crate) fn read_at<F: FileExt>(file: &F, at: u64, into: &mut [u8]) -> io::Result<()> {
    let filled = read_full(file, at, into)?;
    into[filled..].fill(0);
    Ok(())
}

// A file that is made longer ahead ends at a multiple of so many bytes.
const AHEAD: u64 = 131_072;

// Writes so many of these zeros.
fn write_zeros<F: FileExt>(
    file: &F,
    at: u64,
    zeros: &[u8; AHEAD as usize],
    count: usize,
) -> io::Result<()>
    requires { count ≤ 131072 }
{
    file.write_all_at(&zeros[..count], at)
}

// Makes a file longer that ends there, or before, and answers where it ends then. Zeros are written, as which it was
// read there before. A longer file stays, and so does what is no file of a disk.
pub(crate) fn lengthen<F: FileExt + OpenFile>(file: &F, end: u64) -> io::Result<u64> {
    let found = file.metadata()?;
    if !found.is_file() {
        return Ok(u64::MAX);
    }
    if found.len() > end {
        return Ok(found.len());
    }
    let more = (AHEAD - end % AHEAD) % AHEAD;
    write_zeros(file, end, &[0; AHEAD as usize], more as usize)?;
    Ok(end.saturating_add(more))
}

// Adds bytes at the end of a file.
pub(crate) fn append<F: Write + Seek>(file: &mut F, bytes: &[u8]) -> io::Result<()> {
    file.seek(SeekFrom::End(0))?;
    file.write_all(bytes)
}

// A line of fewer bytes is written with its end at once.
const LINE_MOST: usize = 512;

// Writes a line and its end.
pub(crate) fn write_line<W: Write>(stream: &mut W, line: &[u8]) -> io::Result<()> {
    if line.len() >= LINE_MOST {
        stream.write_all(line)?;
        return stream.write_all(b"\n");
    }
    let mut whole = [b'\n'; LINE_MOST];
    whole[..line.len()].copy_from_slice(line);
    stream.write_all(&whole[..line.len() + 1])
}

// A file ends with the end of a line, or is empty.
fn ends_a_line<F: FileExt + Seek>(file: &mut F) -> io::Result<bool> {
    let end = file.seek(SeekFrom::End(0))?;
    if end == 0 {
        return Ok(true);
    }
    let mut last = [0];
    read_at(file, end - 1, &mut last)?;
    Ok(last[0] == b'\n')
}

// Adds a line at the end of a file, which ends a line.
pub(crate) fn add_line<F: Write + Seek>(file: &mut F, line: &[u8]) -> io::Result<()> {
    file.seek(SeekFrom::End(0))?;
    write_line(file, line)
}

// Adds a line at the end of a file. One before it that was cut off gets its end first.
pub(crate) fn append_line<F: FileExt + Write + Seek>(file: &mut F, line: &[u8]) -> io::Result<()> {
    if !ends_a_line(file)? {
        append(file, b"\n")?;
    }
    add_line(file, line)
}

// The next bytes of a file, as many as one read gives.
pub(crate) fn read_next<F: Read>(file: &mut F, into: &mut [u8]) -> io::Result<usize>
    ensures { IfOk result (λ n. n ≤ length into.new) }
{
    for _ in 0..u64::MAX {
        match file.read(into) {
            Err(error) if error.kind() == ErrorKind::Interrupted => {}
            answer => return answer,
        }
    }
    Err(io::Error::from(ErrorKind::Interrupted))
}

// Leaves what was written to a file on its disk, and its size, not the times of its last change. A device that keeps
// nothing, as a terminal or the null device, has nothing to leave.
pub(crate) fn sync_written<F: OpenFile>(file: &F) -> io::Result<()> {
    match file.sync_data() {
        Err(error) if error.kind() == ErrorKind::InvalidInput => Ok(()),
        answer => answer,
    }
}

// The error of what has no file.
pub(crate) fn not_there() -> io::Error {
    io::Error::from(ErrorKind::NotFound)
}

// Leaves a file of no bytes, which reads as zeros, on the disk.
pub(crate) fn empty<F: OpenFile>(file: &F) -> io::Result<()> {
    file.set_len(0)?;
    file.sync_all()
}
