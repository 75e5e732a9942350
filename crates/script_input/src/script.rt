//! Reading a script.
ghost use Rattle.std.specs.Prelude.{false, true, All, IfOk};
ghost use Rattle.script_lang.specs.Script.{ComesTo};
ghost use Rattle.script_laws.specs.Limits.{IsScript};
ghost use Rattle.script_input.specs.Played.{IsPlayed, MayBeRaced};
ghost use Rattle.script_input.specs.Script.{read_as};

use crate::laws::law_of_typed_commands;
use script_lang::{Script, ScriptNo};
use script_laws::{law_of_limits, law_of_scripts};
use std::alloc::Global;

/// Reads the script of a run: of one from an empty queue where `cold` is true, and of one that only formats where
/// `only` is true.
///
/// `BadLine` of what the language of scripts refuses, at the least such line by the first of its causes; never by the
/// cause NotBuilt, as each line of the language is played. `TooLong` exactly where there are over 16,777,216 bytes.
/// NoMemory comes only when out of memory.
pub fn read_script(alloc: Global, bytes: &[u8], cold: bool, only: bool) -> Result<Script, ScriptNo>
    ensures said { ComesTo result (read_as (record { cold = cold; race = false; only = only }) bytes.now) }

    // The configuration, the routes and the steps are within the limits, and each step is one that is played.
    ensures fits { IfOk result IsScript }
    ensures plays { IfOk result (λ script. All IsPlayed script.steps) }
{
    law_of_limits();
    law_of_typed_commands();
    script_lang::read_script(alloc, bytes, cold, false, only)
}

/// Reads the script of a race, as `read_script` does: a line that may not stand in a race is refused too, with the
/// cause Race.
pub fn read_race(alloc: Global, bytes: &[u8], cold: bool) -> Result<Script, ScriptNo>
    ensures said { ComesTo result (read_as (record { cold = cold; race = true; only = false }) bytes.now) }

    // So are its limits, and each step is one that is played, and that may stand in a race.
    ensures fits { IfOk result IsScript }
    ensures plays { IfOk result (λ script. All IsPlayed script.steps) }
    ensures races { IfOk result (λ script. All MayBeRaced script.steps) }
{
    law_of_limits();
    law_of_typed_commands();
    law_of_scripts();
    script_lang::read_script(alloc, bytes, cold, true, false)
}
