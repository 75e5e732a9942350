//! Standard input as a source.
ghost use Rattle.std.specs.Prelude.{[]};

use spool_plant::{Got, Source};
use std::io::Read;

/// Standard input. What a stream of the system has left can't be known, so this source tells nothing of it.
#[derive(Drop)]
pub struct StdSource<R: Input> {
    /// The stream.
    reader: R::Reader,
    /// The reads that failed.
    faults: u64,
}

impl<R: Input> StdSource<R> {
    /// A source over standard input, which has given nothing yet.
    pub fn new(rt: R) -> StdSource<R>
    where
        R: Drop,
    {
        StdSource {
            reader: rt.reader(),
            faults: 0,
        }
    }
}

impl<R: Input> Source for StdSource<R> {
    ghost tells = { ⊥ };

    ghost left = { λ s. [] };

    ghost faults = { λ s. s.faults };

    fn next(&mut self, into: &mut [u8]) -> Got {
        match self.reader.read(into) {
            Ok(count) => Got::Bytes(count),
            Err(_) => {
                self.faults = self.faults.saturating_add(1);
                Got::Failed
            }
        }
    }
}
