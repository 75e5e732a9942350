//! A source of bytes in memory.
ghost use Rattle.std.specs.Prelude.{◌≡◌, ◌+◌, ◌-◌, ◌≤◌, ℕ, List, length, take, drop, min, if◌then◌else◌};
ghost use Rattle.spool_plant.specs.Source.{Gives, GivesCount, gives_from, given_by, got_of};

use mas_types::List;
use spool_plant::{Got, Source};

/// Bytes in memory, and the number of bytes after which the source fails, if it does.
#[derive(Drop)]
pub struct MemSource {
    /// All its bytes.
    bytes: List<u8>,
    /// How many of them were taken.
    at: usize,
    /// The number of bytes after which it fails.
    fail_at: Option<u64>,
    /// The reads that failed.
    faults: u64,
    ghost within: { at ≤ length bytes },
}

// How many bytes come now, if the source doesn't fail.
fn portion(given: usize, left: usize, room: usize, fail_at: Option<u64>) -> Option<usize>
    ensures { got_of result ≡ gives_from fail_at given left room }
{
    let most = left.min(room);
    match fail_at {
        None => Some(most),
        Some(place) if place as usize <= given => None,
        Some(place) => Some(most.min(place as usize - given)),
    }
}

fn copy_first(from: &[u8], n: usize, into: &mut [u8])
    requires there { n ≤ length from.now }
    requires room { n ≤ length into.old }
    ensures { take n into.new ≡ take n from.now }
{
    into[..n].copy_from_slice(&from[..n]);
}

impl MemSource {
    ghost use Rattle.spool_disk.specs.MemSource.{left_of, given_of, fault_of};

    /// A source of these bytes. Where `fail_at` is a number, each call fails from when so many bytes were given.
    pub fn new(bytes: List<u8>, fail_at: Option<u64>) -> MemSource
        ensures left { left_of result ≡ bytes }
        ensures given { given_of result ≡ 0 }
        ensures fault { fault_of result ≡ fail_at }
    {
        MemSource {
            bytes,
            at: 0,
            fail_at,
            faults: 0,
        }
    }
}

impl Source for MemSource {
    ghost use Rattle.spool_disk.specs.MemSource.{left_of, given_of, fault_of};

    ghost tells = { Unit {0} };

    ghost left = { left_of };

    ghost faults = { λ s. s.faults };

    fn next(&mut self, into: &mut [u8]) -> Got
        ensures counts { GivesCount (length into.old) self.old.faults self.new.faults result }
        ensures content { Gives (left_of self.old) (left_of self.new) into.new result }
        ensures gives { result ≡ gives_from (fault_of self.old) (given_of self.old) (length (left_of self.old))
            (length into.old) }
        ensures given { given_of self.new ≡ given_of self.old + given_by result }
        ensures fault { fault_of self.new ≡ fault_of self.old }
    {
        let left = self.bytes.len() - self.at;
        match portion(self.at, left, into.len(), self.fail_at) {
            Some(n) => {
                copy_first(&self.bytes.as_slice()[self.at..], n, into);
                self.at += n;
                Got::Bytes(n)
            }
            None => {
                self.faults = self.faults.saturating_add(1);
                Got::Failed
            }
        }
    }
}
