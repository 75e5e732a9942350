//! What is true of all texts.
ghost use Rattle.operator_cmds.specs.Laws.{ComputesCommands};

/// A text is computed to be a command exactly where it is a spelling of it.
pub fn law_of_commands()
    ensures { ComputesCommands }
{}
