//! What the next run makes of what a run left.
ghost use Rattle.run_laws.specs.Left.{CrashesLeave};
ghost use Rattle.run_laws.specs.Joins.{FindsWhatIsLeft};
ghost use Rattle.run_laws.specs.Early.{FindsWhatWasThere};
ghost use Rattle.run_laws.specs.Unstopped.{PlaysOnUnarmed};

use ckpt_pages::law_of_checkpoints;
use mas_run::law_of_plays_on;
use queue_laws::laws::law_of_runs;
use spool_plant::Plant;

/// A crash of a plant in memory leaves an image of each device, and nothing of one that was lost.
pub fn law_of_crashes()
    ensures { CrashesLeave }
{}

/// A warm run on a plant that shows what a crash at a moment of a run may leave begins, with the queue after the
/// entries that were kept at the moment, or with the one after these and those that were in flight. Of a text with a
/// group on a volume that either run lost, only the number of lines is said.
///
/// It begins: what the copies hold and the sizes of devices don't hinder it, where the devices are large enough, and
/// levels and orders are left. These are left by a run that began with a level and a next order below 2^61, as a cold
/// one does. Else a lack of memory may hinder it, or its words or script, or that both copies are lost: the crash left
/// none, or an act failed in the new run on one that it left.
pub fn law_of_next_runs<P: Plant, N: Plant>(left: &P, next: &N)
    ensures { FindsWhatIsLeft P.tells N.tells }
{
    let _left = left;
    let _next = next;
    law_of_checkpoints();
    law_of_runs();
}

/// A warm run on a plant that shows what a crash in a warm start may leave, before the first moment of its run, finds
/// the pages that the start found, or pages that one of the copies gave before it.
pub fn law_of_early_crashes<N: Plant>(next: &N)
    ensures { FindsWhatWasThere N.tells }
{
    let _next = next;
}

/// On a plant that halts an act only where a stop of its member was armed, as the plant over files does that
/// `plant_fuse` makes: where no stop of a member was armed before a run, and no line of its script arms one, no line of
/// that member was cut but the one in which the run ended, if one was.
pub fn law_of_unarmed_runs<P: Plant>(plant: &P)
    ensures bare { P.halts_armed → PlaysOnUnarmed ⊥ (P.view plant.now) }
    ensures told { P.halts_armed → PlaysOnUnarmed (Unit {0}) (P.view plant.now) }
{
    let _plant = plant;
    law_of_plays_on();
}
