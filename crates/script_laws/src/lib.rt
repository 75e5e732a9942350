//! What is true of all scripts.
#![tactic(auto)]

ghost use Rattle.script_laws.specs.Laws.{SaysWithinLimits, ReadsLines, ReadsScripts, RefusesFirst};

use operator_cmds::laws::law_of_commands;

/// What a script says is within the limits: its configuration and routes, its at most 99,999 steps, and what each asks
/// for.
pub fn law_of_limits()
    ensures { SaysWithinLimits }
{
    law_of_commands();
}

/// The words of a line other than CONFIG are read as a step exactly where the grammar has them as a line of that step:
/// never in a run that only formats, and in a race only what may stand there.
pub fn law_of_lines()
    ensures { ReadsLines }
{
    law_of_commands();
}

/// Bytes are read as a script exactly where they are at most 16,777,216 and the grammar has their lines as lines of
/// that script, which has at most 99,999 steps.
pub fn law_of_scripts()
    ensures { ReadsScripts }
{
    law_of_commands();
}

/// A line is refused by the cause End only where it begins a deck that is cut off, and by another cause only where it
/// is the first line with which no script may begin.
pub fn law_of_refusals()
    ensures { RefusesFirst }
{
    law_of_commands();
}
