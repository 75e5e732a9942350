//! Reading a source to its end.
ghost use Rattle.std.specs.Prelude.{◌≡◌, ℕ, ◌+◌, ◌≤◌, ◌<◌, [], ◌++◌, length, take, drop, IfOk, IfErr, OnOk, OnErr, IsErrOf, Ok};
ghost use Rattle.spool_plant.specs.Acts.{Rose};
ghost use Rattle.script_input.specs.Reading.{TakesAtMost};
ghost use Rattle.script_input.specs.declared.reading.SourceError.TheVariants.{NoMemory as no_memory};

use mas_types::limits::SCRIPT_BYTES;
use mas_types::{List, NoMemory};
use spool_plant::{Got, Source};
use std::alloc::Global;

// The most bytes that are asked for at once.
const PIECE: usize = 65_536;

/// Why a source gave no script.
#[derive(Clone, Copy, Debug)]
pub enum SourceError {
    /// The source failed.
    Fault,
    /// The source has over `SCRIPT_BYTES` bytes.
    TooLong,
    /// Out of memory.
    NoMemory,
}

impl From<NoMemory> for SourceError {
    ghost from_gives = { λ _ no. no ≡ no_memory };

    fn from(_error: NoMemory) -> SourceError {
        SourceError::NoMemory
    }
}

fn zeros(alloc: Global, n: usize) -> Result<Vec<u8>, NoMemory>
    ensures { IfOk result (λ bytes. length bytes.items ≡ n) }
{
    match vec![in alloc; 0; n] {
        Ok(bytes) => Ok(bytes),
        Err(_) => Err(NoMemory),
    }
}

// Fills the front of a piece, of at most `room` bytes: how many came, none where nothing was left.
fn next_piece<S: Source>(
    source: &mut S,
    piece: &mut [u8],
    room: usize,
) -> Result<usize, SourceError>
    requires some { 0 < room }
    requires there { room ≤ length piece.old }
    ensures within { IfOk result (λ n. n ≤ room) }
    ensures fault { IfErr result (λ no. (no ≡ SourceError.Fault) × Rose (S.faults source.old) (S.faults source.new)) }
    ensures faults { S.faults source.old ≤ S.faults source.new }
    ensures came { S.tells → IfOk result (λ n. take n piece.new ++ S.left source.new ≡ S.left source.old) }
    ensures over { S.tells → result ≡ Ok 0 → S.left source.new ≡ [] }
    ensures same { S.tells → OnErr result (S.left source.new ≡ S.left source.old) }
{
    match source.next(&mut piece[..room]) {
        Got::Bytes(n) => Ok(n),
        Got::End => Ok(0),
        Got::Failed => Err(SourceError::Fault),
    }
}

/// Reads a source to its end. At most `SCRIPT_BYTES` bytes and one more are taken from it. Fault comes where the source
/// failed, TooLong where it has more than `SCRIPT_BYTES` bytes, and NoMemory only when out of memory.
pub fn read_source<S: Source>(alloc: Global, source: &mut S) -> Result<List<u8>, SourceError>
    ensures within { IfOk result (λ bytes. length bytes ≤ SCRIPT_BYTES) }
    ensures fault { IsErrOf result SourceError.Fault → Rose (S.faults source.old) (S.faults source.new) }
    ensures faults { S.faults source.old ≤ S.faults source.new }

    // All that was left came, and nothing is left.
    ensures bytes { S.tells → IfOk result (λ bytes. bytes ≡ S.left source.old) }
    ensures nothing_left { S.tells → OnOk result (S.left source.new ≡ []) }

    // There is a byte too many, and it was taken.
    ensures too_long { S.tells → IsErrOf result SourceError.TooLong → SCRIPT_BYTES < length (S.left source.old) }
    ensures read { S.tells → IsErrOf result SourceError.TooLong
        → S.left source.new ≡ drop (SCRIPT_BYTES + 1) (S.left source.old) }

    // Whatever comes, what is left is the rest of what was left.
    ensures taken { S.tells → TakesAtMost (SCRIPT_BYTES + 1) (S.left source.old) (S.left source.new) }
{
    let mut piece = zeros(alloc, PIECE)?;
    let mut bytes = List::new(alloc);
    while bytes.len() <= SCRIPT_BYTES {
        let room = PIECE.min(SCRIPT_BYTES + 1 - bytes.len());
        let n = next_piece(source, &mut piece, room)?;
        if n == 0 {
            return Ok(bytes);
        }
        bytes.push_all(&piece[..n])?;
    }
    Err(SourceError::TooLong)
}
