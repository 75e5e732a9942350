//! What holds of runs.
ghost use Rattle.mas_run.specs.Calm.{FindNone};
ghost use Rattle.mas_run.specs.Unstopped.{PlaysOn};

use spool_plant::Plant;

/// Where no volume failed in a run, nor the printer of a member that its script has a line of, no line found one lost:
/// what its lines come to, and so its commands and what it says, follows from its script, the queue that it began with,
/// where members were stopped, and what came over lines to other nodes.
pub fn law_of_sound_volumes<P: Plant>()
    ensures { FindNone P.tells }
{}

/// Where no stop of a member was counted in a run, no line of that member was cut but the one in which the run ended.
pub fn law_of_plays_on()
    ensures bare { PlaysOn ⊥ }
    ensures told { PlaysOn (Unit {0}) }
{}
