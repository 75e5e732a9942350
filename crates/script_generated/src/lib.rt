//! What is true of the scripts that are generated, and of the summaries of their runs.
#![tactic(auto)]

ghost use Rattle.script_generated.specs.Steps.{PlaysGenerated, ReadsGenerated};
ghost use Rattle.script_generated.specs.Sums.{SumsAreOfTable};

use script_laws::law_of_scripts;

/// The script that is generated of 1 to 1,000 decks is read as these decks and the work on them, over the default
/// configuration; none of its lines is refused, and the program plays each of them.
pub fn law_of_generated_scripts()
    ensures reads { ReadsGenerated }
    ensures plays { PlaysGenerated }
{
    law_of_scripts();
}

/// The lines that a summary counts are those that each Mark printed by the table of commands, and the jobs are those of
/// the queue after the entries: where these may be given, have their replies by the table, begin with a sound queue
/// that has no outputs, and set no mark back or forward.
pub fn law_of_summaries()
    ensures { SumsAreOfTable }
{}
