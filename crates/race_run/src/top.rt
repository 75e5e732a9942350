//! A race from the source of its script on.
ghost use Rattle.std.specs.Prelude.{◌≡◌, ◌≢◌, ◌⊎◌, ℕ, ◌≤◌, true, false, [], None, All, IfOk, IfErr, OnOk};
ghost use Rattle.std.specs.Prelude.{IsErrOf, length};
ghost use Rattle.mas_types.specs.declared.answers.CopyState.{CopyState};
ghost use Rattle.mas_types.specs.declared.ids.Dev.{Dev};
ghost use Rattle.mas_types.specs.declared.ids.Dev.TheVariants.{Ckpt1, Ckpt2};
ghost use Rattle.mas_types.specs.Limits.{steps_most};
ghost use Rattle.mas_types.specs.Lists.{first_some};
ghost use Rattle.script_lang.specs.declared.types.Script.{Script as ScriptLem};
ghost use Rattle.script_laws.specs.Limits.{IsScript};
ghost use Rattle.script_input.specs.Played.{IsPlayed, MayBeRaced};
ghost use Rattle.spool_plant.specs.View.{View};
ghost use Rattle.spool_plant.specs.Acts.{Rose};
ghost use Rattle.ckpt_form.specs.Form.{form_needs};
ghost use Rattle.ckpt_tables.specs.Shape.{page_count};
ghost use Rattle.warm_start.specs.Starting.{OnlyLookedAtAll};
ghost use Rattle.spool_volumes.specs.Volumes.{AreRoomy};
ghost use Rattle.member_node.specs.Calls.{console_now};
ghost use Rattle.run_opening.specs.Lines.{Proceeds};
ghost use Rattle.run_opening.specs.Refusals.{Answers, IsPlayedOut, IsTakenFrom, IsTooSmall, is_of_script};
ghost use Rattle.run_opening.specs.Refusals.{refused_sizes};
ghost use Rattle.run_opening.specs.Runs.{has_begun, AreSidesKept, Begins, IsUnbegun};
ghost use Rattle.run_opening.specs.Statuses.{IsCaused, LeavesLost, is_of_text, is_unplayed};
ghost use Rattle.run_opening.specs.Unstarted.{IsNotStarted};
ghost use Rattle.run_opening.specs.Volumes.{AreVolumesKept};
ghost use Rattle.race_run.specs.Races.{IsRace, IsUnhindered};
ghost use Rattle.race_run.specs.Scripts.{IsSaid, refusal_before_race};

use crate::lines::Course;
use crate::running::race_asked;
use mas_race::Meet;
use mas_types::Status;
use run_opening::{Ended, open_run, read_text, status_of_script, unbegun};
use script_input::read_race;
use script_lang::Script;
use spool_plant::{Plant, Source};
use std::alloc::Global;
use std::sync::Wait;
use std::thread::Threads;

// Reads the script of a race to its end, or why the run ends.
fn read_all<S: Source>(alloc: Global, cold: bool, source: &mut S) -> Result<Script, Status>
    ensures fits { IfOk result IsScript }
    ensures plays { IfOk result (λ script. All IsPlayed script.steps) }
    ensures races { IfOk result (λ script. All MayBeRaced script.steps) }
    ensures said { S.tells → IfOk result (IsSaid cold (S.left source.old)) }
    ensures read { S.tells → OnOk result (S.left source.new ≡ []) }
    ensures taken { S.tells → IsTakenFrom (S.left source.old) (S.left source.new) }
    ensures kind { IfErr result (λ status. is_of_script status ≡ true) }
    ensures refused { S.tells → IfErr result
        (λ status. (v : View) → Answers cold (refusal_before_race cold (S.left source.old) v) status) }
    ensures source { IsErrOf result Status.SourceFault → Rose (S.faults source.old) (S.faults source.new) }
{
    let bytes = read_text(alloc, source)?;
    match read_race(alloc, bytes.as_slice(), cold) {
        Ok(script) => Ok(script),
        Err(why) => Err(status_of_script(why)),
    }
}

// Opens the run of a script that was read, and has its members race.
fn race_read<R: Threads + Wait + Sync, P: Plant + Send + Drop, M: Meet + Sync>(
    rt: &R,
    alloc: Global,
    cold: bool,
    script: &Script,
    plant: P,
    meet: &M,
) -> Ended<P>
    requires fits { IsScript script.now }
    requires plays { All IsPlayed script.now.steps }
    requires races { All MayBeRaced script.now.steps }
    ensures refused { Answers cold (first_some (refused_sizes cold script.now.config (P.view plant))) result.status }
    ensures device { cold ≡ true → (dev : Dev) (size : ℕ) → result.status ≡ Status.DeviceSize dev size
        → IsTooSmall script.now.config dev size (P.view plant) }
    ensures no_source { result.status ≡ Status.SourceFault → ⊥ }
    ensures no_text { is_of_text result.status ≡ false }
    ensures formatted { cold ≡ true → (first second : CopyState) → result.status ≡ Status.NotFormatted first second
        → ⊥ }
    ensures unstarted { cold ≡ false → has_begun result.base ≡ false
        → IsNotStarted P.tells result.status (P.view plant) (P.view result.plant) }
    ensures cause { IsCaused result.status (P.view plant) (P.view result.plant) }
    ensures begun { Begins result.status result.base }
    ensures unbegun { has_begun result.base ≡ false
        → IsUnbegun result.base result.journal result.since (P.view result.plant).now }
    ensures untouched { has_begun result.base ≡ false → (result.status ≡ Status.BothLost)
        ⊎ ((result.plant ≡ plant) ⊎ ((cold ≡ false)
        × (P.tells → OnlyLookedAtAll (P.view plant) (P.view result.plant)))) }
    ensures unsaid { P.tells → has_begun result.base ≡ false
        → console_now (P.view result.plant) ≡ console_now (P.view plant) }
    ensures unprinted { P.tells → has_begun result.base ≡ false → AreSidesKept (P.view plant) (P.view result.plant) }
    ensures volumes { P.tells → has_begun result.base ≡ false → AreVolumesKept (P.view plant) (P.view result.plant) }
    ensures goes { Proceeds (P.view plant) (P.view result.plant) }
    ensures lost { has_begun result.base ≡ false → LeavesLost result.status (P.view plant) (P.view result.plant) }
    ensures arms { has_begun result.base ≡ false → (m : ℕ)
        → (P.view result.plant).arms m ≡ (P.view plant).arms m }
    ensures loses { has_begun result.base ≡ false → (result.status ≢ Status.BothLost) ⊎ (cold ≡ true) → (d : Dev)
        → (P.view result.plant).loses d ≡ (P.view plant).loses d }
    ensures room { has_begun result.base ≡ true
        → (form_needs (page_count result.base.config) ≤ (P.view plant).size Ckpt1)
        × (form_needs (page_count result.base.config) ≤ (P.view plant).size Ckpt2) }
    ensures roomy { has_begun result.base ≡ true → AreRoomy (P.view result.plant) result.base.config }
    ensures race { has_begun result.base ≡ true
        → IsRace cold P.tells script.now result.status result.base result.journal result.since (P.view plant)
        (P.view result.plant) }
{
    match open_run(alloc, cold, script, plant) {
        Ok(run) => {
            let course = Course {
                rt,
                meet,
                alloc,
                lines: script.steps.as_slice(),
            };
            race_asked(&course, run)
        }
        Err(ended) => ended,
    }
}

/// Plays a script as `play_script` does, but each member plays its own lines in a thread of its own, beside the others.
///
/// The script is read to its end before anything is played. It has no LOCK, FREE, LINE, REPLACE or LOSE, and of STOP
/// only IN and PRINT: any such line is refused, with the cause Race. Stops are armed, and lines of members that are
/// none are refused, before the members begin. Each member plays its lines in their order, a turn after the other at
/// the one shared value. A try at the lock that is refused is made again in a later turn, so no line says BUSY or
/// DORMANT. One that finds the lock with a stopped member takes it over; the reset of that member is then the next
/// command of its line. `meet` is called about each line, without the turn.
///
/// A member that is stopped in its line is down from then on. A run ends for a member if both copies are lost, the
/// console failed, or it is out of memory; the others go on. Of several members' statuses the one with the least code
/// other than 0 counts. If each line has closed the operator says the history: a line for each entry that was kept, in
/// order, and one for its end.
///
/// That a member ever gets its turn isn't said, so neither is that the call returns. The status Words never comes.
pub fn race_script<R: Threads + Wait + Sync, P: Plant + Send + Drop, S: Source, M: Meet + Sync>(
    rt: &R,
    alloc: Global,
    cold: bool,
    script: &mut S,
    plant: P,
    meet: &M,
) -> Ended<P>
    // What is refused before the race, and why else a run ends.
    ensures refused { S.tells → Answers cold (refusal_before_race cold (S.left script.old) (P.view plant))
        result.status }
    ensures words { result.status ≢ Status.Words }
    ensures device { cold ≡ true → (dev : Dev) (size : ℕ) → result.status ≡ Status.DeviceSize dev size
        → ((read : ScriptLem) × (S.tells → IsSaid cold (S.left script.old) read)
        × IsTooSmall read.config dev size (P.view plant)) }
    ensures formatted { cold ≡ true → (first second : CopyState) → result.status ≡ Status.NotFormatted first second
        → ⊥ }
    ensures unstarted { cold ≡ false → has_begun result.base ≡ false
        → IsNotStarted P.tells result.status (P.view plant) (P.view result.plant) }
    ensures source { result.status ≡ Status.SourceFault → Rose (S.faults script.old) (S.faults script.new) }
    ensures cause { IsCaused result.status (P.view plant) (P.view result.plant) }
    ensures begun { Begins result.status result.base }

    // A run that has not begun leaves all as it was, except where both copies were lost in the formatting or the start.
    // A warm one looked at the copies.
    ensures unbegun { has_begun result.base ≡ false
        → IsUnbegun result.base result.journal result.since (P.view result.plant).now }
    ensures untouched { has_begun result.base ≡ false → (result.status ≡ Status.BothLost)
        ⊎ ((result.plant ≡ plant) ⊎ ((cold ≡ false)
        × (P.tells → OnlyLookedAtAll (P.view plant) (P.view result.plant)))) }
    ensures unsaid { P.tells → has_begun result.base ≡ false
        → console_now (P.view result.plant) ≡ console_now (P.view plant) }
    ensures unprinted { P.tells → has_begun result.base ≡ false → AreSidesKept (P.view plant) (P.view result.plant) }
    ensures volumes { P.tells → has_begun result.base ≡ false → AreVolumesKept (P.view plant) (P.view result.plant) }

    // No run loses a device by a call, or arms a stop, except by a line that says so; a takeover may lose a copy. A
    // warm start loses a copy that it doesn't take.
    ensures goes { Proceeds (P.view plant) (P.view result.plant) }
    ensures lost { has_begun result.base ≡ false → LeavesLost result.status (P.view plant) (P.view result.plant) }
    ensures arms { has_begun result.base ≡ false → (m : ℕ)
        → (P.view result.plant).arms m ≡ (P.view plant).arms m }
    ensures loses { has_begun result.base ≡ false → (result.status ≢ Status.BothLost) ⊎ (cold ≡ true) → (d : Dev)
        → (P.view result.plant).loses d ≡ (P.view plant).loses d }

    // At most one byte more than a script may have is taken from its source.
    ensures taken { S.tells → IsTakenFrom (S.left script.old) (S.left script.new) }

    // Where the script is refused, or can't be read, no act is made.
    ensures idle { is_unplayed result.status ≡ true → result.plant ≡ plant }

    // A run that has begun plays what its script asks for: each member's turns stand in the one history.
    ensures room { has_begun result.base ≡ true
        → (form_needs (page_count result.base.config) ≤ (P.view plant).size Ckpt1)
        × (form_needs (page_count result.base.config) ≤ (P.view plant).size Ckpt2) }
    ensures roomy { has_begun result.base ≡ true → AreRoomy (P.view result.plant) result.base.config }
    ensures read { S.tells → has_begun result.base ≡ true → S.left script.new ≡ [] }
    ensures race { has_begun result.base ≡ true
        → ((read : ScriptLem) × (S.tells → IsSaid cold (S.left script.old) read)
        × IsRace cold P.tells read result.status result.base result.journal result.since (P.view plant)
        (P.view result.plant)) }

    // What neither a fault nor the loss of both copies hinders is raced to its end, where a warm run finds a queue and
    // its devices are large enough for it.
    ensures complete { S.tells → refusal_before_race cold (S.left script.old) (P.view plant) ≡ None
        → IsUnhindered (S.faults script.old) (S.faults script.new) (P.view plant) (P.view result.plant)
        → IsPlayedOut cold result.status }
{
    match read_all(alloc, cold, script) {
        Ok(script) => race_read(rt, alloc, cold, &script, plant, meet),
        Err(status) => unbegun(alloc, status, plant),
    }
}
