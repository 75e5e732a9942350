//! The standard streams.
use crate::files::{not_there, write_line};
use std::alloc::Global;
use std::fs::{File, OpenOptions};
use std::io::{self, Write};
use std::os::fd::AsFd;

// What stands in the place of a stream that is closed. It is opened to be written alone, so that a read of it fails.
const NULL_DEVICE: &str = "/dev/null";

/// Standard input, output and error, of which each is open, so that no file of a folder gets its number. A read of
/// standard input that was closed fails, and so does a line on standard output that was closed; what is written to
/// standard error that was closed is dropped.
#[derive(Drop)]
pub struct Streams {
    // The null devices in the places of those that were closed, which stay open as long as these streams.
    nulls: Vec<File>,
    // Standard output was open.
    has_console: bool,
}

fn is_open<S: AsFd>(stream: &S) -> bool {
    stream.as_fd().try_clone_to_owned().is_ok()
}

fn are_open(rt: &HostRuntime) -> bool {
    is_open(&rt.stdin()) && is_open(&rt.stdout()) && is_open(&rt.stderr())
}

impl Streams {
    /// Opens the null device in the place of each standard stream that is closed. No other file may be opened before.
    /// An error comes where that can't be done.
    pub fn open(rt: &HostRuntime, alloc: Global) -> io::Result<Streams> {
        let has_console = is_open(&rt.stdout());
        let mut nulls = Vec::new(alloc);
        for _ in 0..3 {
            if are_open(rt) {
                break;
            }
            // The system gives the least number that is free.
            nulls.push(OpenOptions::new().write(true).open(rt, NULL_DEVICE)?)?;
        }
        if !are_open(rt) {
            return Err(not_there());
        }
        Ok(Streams { nulls, has_console })
    }

    // Writes a line with its end to standard output. A program ignores the signal of a pipe that has ended, so the
    // write fails there.
    pub(crate) fn say<R: Print>(&self, rt: &R, line: &[u8]) -> io::Result<()> {
        if !self.has_console {
            return Err(not_there());
        }
        let mut out = io::writer(rt);
        write_line(&mut out, line)?;
        out.flush()
    }
}
