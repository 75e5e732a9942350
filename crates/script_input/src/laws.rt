//! What is true of all scripts.
ghost use Rattle.script_input.specs.Laws.{TypesCommands};

use script_laws::law_of_scripts;

/// A script gives no other commands than those that an operator types, so each is one that is played.
pub fn law_of_typed_commands()
    ensures { TypesCommands }
{
    law_of_scripts();
}
