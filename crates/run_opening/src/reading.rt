//! The source of a script, read to its end.
ghost use Rattle.std.specs.Prelude.{◌≡◌, ℕ, ◌≤◌, ◌<◌, true, [], Err, IfOk, IfErr, OnOk, IsErrOf, length};
ghost use Rattle.spool_plant.specs.Acts.{Rose};
ghost use Rattle.run_opening.specs.Refusals.{IsTakenFrom, is_of_script, status_of_script as status_of_script_lem};
ghost use Rattle.mas_types.specs.declared.answers.LineCause.{LineCause};

use mas_types::limits::SCRIPT_BYTES;
use mas_types::{List, Status};
use script_input::{SourceError, read_source};
use script_lang::ScriptNo;
use spool_plant::Source;
use std::alloc::Global;

/// Reads a source to its end, or why the run ends.
pub fn read_text<S: Source>(alloc: Global, source: &mut S) -> Result<List<u8>, Status>
    ensures bytes { S.tells → IfOk result (λ bytes. bytes ≡ S.left source.old) }
    ensures read { S.tells → OnOk result (S.left source.new ≡ []) }
    ensures taken { S.tells → IsTakenFrom (S.left source.old) (S.left source.new) }
    ensures kind { IfErr result (λ status. is_of_script status ≡ true) }
    ensures long { S.tells → IsErrOf result Status.TooLong → SCRIPT_BYTES < length (S.left source.old) }
    ensures short { IfOk result (λ bytes. length bytes ≤ SCRIPT_BYTES) }
    ensures no_line { (line : ℕ) (cause : LineCause) → result ≡ Err (Status.BadLine line cause) → ⊥ }
    ensures source { IsErrOf result Status.SourceFault → Rose (S.faults source.old) (S.faults source.new) }
{
    match read_source(alloc, source) {
        Ok(bytes) => Ok(bytes),
        Err(SourceError::Fault) => Err(Status::SourceFault),
        Err(SourceError::TooLong) => Err(Status::TooLong),
        Err(SourceError::NoMemory) => Err(Status::NoMemory),
    }
}

/// The status of a run whose script isn't read.
pub fn status_of_script(why: ScriptNo) -> Status
    ensures { result ≡ status_of_script_lem why }
{
    match why {
        ScriptNo::BadLine { line, cause } => Status::BadLine { line, cause },
        ScriptNo::TooLong => Status::TooLong,
        ScriptNo::NoMemory => Status::NoMemory,
    }
}
