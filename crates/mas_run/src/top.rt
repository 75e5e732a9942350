//! A script that is played.
ghost use Rattle.mas_run.specs.Names.{CopyState, Dev, Ckpt1, Ckpt2, first_some, Script as ScriptLem, IsScript, IsPlayed, View, Rose, form_needs, page_count, OnlyLookedAtAll, AreRoomy, console_now, IsNotStarted, refused_sizes, Answers, IsPlayedOut, IsTakenFrom, IsTooSmall, is_of_script, has_begun, AreSidesKept, Begins, IsUnbegun, IsCaused, LeavesLost, is_of_text, is_unplayed, AreVolumesKept, Proceeds};
ghost use Rattle.std.specs.Prelude.{◌≡◌, ◌≢◌, ◌⊎◌, ℕ, ◌≤◌, true, false, [], None, All, IfOk, IfErr, OnOk, IsErrOf, ◌<◌, Err};
ghost use Rattle.mas_run.specs.Refusals.{refusal_before_play, said_by, steps_of, IsSaid};
ghost use Rattle.mas_run.specs.Runs.{IsRun, run_result};
ghost use Rattle.mas_run.specs.Statuses.{IsStill};

use crate::play::play_asked;
use mas_types::Status;
use run_opening::{Ended, open_run, read_text, status_of_script, unbegun};
use script_input::read_script;
use script_lang::Script;
use script_laws::law_of_scripts;
use spool_plant::{Plant, Source};
use std::alloc::Global;

// Reads the script of a run to its end, or why the run ends.
fn read_all<S: Source>(
    alloc: Global,
    cold: bool,
    only: bool,
    source: &mut S,
) -> Result<Script, Status>
    ensures fits { IfOk result IsScript }
    ensures plays { IfOk result (λ script. All IsPlayed script.steps) }
    ensures said { S.tells → IfOk result (IsSaid cold only (S.left source.old)) }
    ensures only { only ≡ true → IfOk result (λ script. script.steps ≡ []) }
    ensures read { S.tells → OnOk result (S.left source.new ≡ []) }
    ensures taken { S.tells → IsTakenFrom (S.left source.old) (S.left source.new) }
    ensures kind { IfErr result (λ status. is_of_script status ≡ true) }
    ensures refused { S.tells → IfErr result
        (λ status. (v : View) → Answers cold (refusal_before_play cold only (S.left source.old) v) status) }
    ensures source { IsErrOf result Status.SourceFault → Rose (S.faults source.old) (S.faults source.new) }
{
    let bytes = read_text(alloc, source)?;
    law_of_scripts();
    match read_script(alloc, bytes.as_slice(), cold, only) {
        Ok(script) => Ok(script),
        Err(why) => Err(status_of_script(why)),
    }
}

/// Plays a script that was read, cold or warm, as `play_script` does.
pub fn play_steps<P: Plant + Drop>(alloc: Global, cold: bool, script: Script, plant: P) -> Ended<P>
    requires fits { IsScript script }
    requires plays { All IsPlayed script.steps }
    ensures refused { Answers cold (first_some (refused_sizes cold script.config (P.view plant))) result.status }
    ensures device { cold ≡ true → (dev : Dev) (size : ℕ) → result.status ≡ Status.DeviceSize dev size
        → IsTooSmall script.config dev size (P.view plant) }
    ensures no_source { result.status ≡ Status.SourceFault → ⊥ }
    ensures no_text { is_of_text result.status ≡ false }
    ensures formatted { cold ≡ true → (first second : CopyState) → result.status ≡ Status.NotFormatted first second
        → ⊥ }
    ensures unstarted { cold ≡ false → has_begun result.base ≡ false
        → IsNotStarted P.tells result.status (P.view plant) (P.view result.plant) }
    ensures cause { IsCaused result.status (P.view plant) (P.view result.plant) }
    ensures begun { Begins result.status result.base }
    ensures unbegun { has_begun result.base ≡ false
        → IsUnbegun result.base result.journal result.since (P.view result.plant).now }
    ensures untouched { has_begun result.base ≡ false → (result.status ≡ Status.BothLost)
        ⊎ ((result.plant ≡ plant) ⊎ ((cold ≡ false)
        × (P.tells → OnlyLookedAtAll (P.view plant) (P.view result.plant)))) }
    ensures unsaid { P.tells → has_begun result.base ≡ false
        → console_now (P.view result.plant) ≡ console_now (P.view plant) }
    ensures unprinted { P.tells → has_begun result.base ≡ false → AreSidesKept (P.view plant) (P.view result.plant) }
    ensures goes { Proceeds (P.view plant) (P.view result.plant) }
    ensures arms { has_begun result.base ≡ false → (m : ℕ)
        → (P.view result.plant).arms m ≡ (P.view plant).arms m }
    ensures loses { has_begun result.base ≡ false → (result.status ≢ Status.BothLost) ⊎ (cold ≡ true) → (d : Dev)
        → (P.view result.plant).loses d ≡ (P.view plant).loses d }
    ensures lost { has_begun result.base ≡ false → LeavesLost result.status (P.view plant) (P.view result.plant) }
    ensures volumes { P.tells → has_begun result.base ≡ false → AreVolumesKept (P.view plant) (P.view result.plant) }
    ensures room { has_begun result.base ≡ true
        → (form_needs (page_count result.base.config) ≤ (P.view plant).size Ckpt1)
        × (form_needs (page_count result.base.config) ≤ (P.view plant).size Ckpt2) }
    ensures roomy { has_begun result.base ≡ true → AreRoomy (P.view result.plant) result.base.config }
    ensures run { has_begun result.base ≡ true
        → IsRun cold P.tells script (P.view plant)
        (run_result result.status result.base result.journal result.since (P.view result.plant)) }
    ensures stepless { script.steps ≡ [] → P.tells → AreVolumesKept (P.view plant) (P.view result.plant) }
{
    match open_run(alloc, cold, &script, plant) {
        Ok(run) => play_asked(alloc, script.steps.as_slice(), run),
        Err(ended) => ended,
    }
}

/// Plays a script on a plant: cold from an empty queue, for which CKPT1 and CKPT2 are formatted, and else warm, from
/// the queue that is found on them. A run that `only` formats refuses every step.
///
/// The script is read to its end before anything is played. Its lines are steps of SYSA to SYSH, stops of a member, and
/// losses of a device. A cold run refuses the first device that is too small for the script's configuration, CKPT1,
/// CKPT2, and then each spool volume that isn't lost, and formats both copies with the empty queue of the script's
/// configuration and routes. A warm run looks at both, takes the usable one of greater level, CKPT1 on a tie, refuses a
/// device that is too small for it in the same order, syncs the volumes and reads the texts, loses the other copy where
/// it can't be used or doesn't fit and else brings it up, and gives Restart as its first batch; its jobs are at the
/// node of the configuration that is found. Then the lines are played one after another.
///
/// A step closes before its commands where its member is none or was stopped, a card of its deck is wrong, the member
/// that it resets is none or is up, or its member doesn't get the lock. Else a deck's job begins and gets the groups
/// that its text needs, in a batch; the text is written into them and synced; and the job is entered, in a second
/// batch. After a refused Take, or where a volume of one of the groups failed, the job is dropped. A command is done in
/// one batch. The lock of a stopped holder is taken over by who resets it, with what became of a batch in flight. Work
/// does at most so many units, one after another, up to one that is refused or to where none applies; what it did is
/// kept before a text is read or written, where the lock's hold is spent, and at its end. The lines of an output are
/// printed from its mark on, in their order, and then marked. LINE of a line to another node gives the frames whose
/// turn it is on it, takes what waits there, at most 65,536 bytes, and serves the frames that these complete in the
/// stream that its member took from the line in the run, each after the batch that custody of its job needs is kept. A
/// batch is kept once each copy that is left has it, and the lines of its step are said then, those of a display first
/// and the closing line last. A step takes the lock of the checkpoint and gives it up at its end, unless its member
/// holds it by LOCK. A copy that fails or is lost is left out, and the run goes on with the other. REPLACE puts another
/// device in the place of a lost copy's, and forms a copy of the pages of the other on it: it counts from then on, and
/// is good, once its step said OK.
///
/// A member that is stopped in its step is down from then on, and holds what it held; the operator says so, and the run
/// goes on. The status Words never comes.
pub fn play_script<P: Plant + Drop, S: Source>(
    alloc: Global,
    cold: bool,
    only: bool,
    script: &mut S,
    plant: P,
) -> Ended<P>
    // What is refused before play, and why else a run ends.
    ensures refused { S.tells → Answers cold (refusal_before_play cold only (S.left script.old) (P.view plant))
        result.status }
    ensures words { result.status ≢ Status.Words }
    ensures device { cold ≡ true → (dev : Dev) (size : ℕ) → result.status ≡ Status.DeviceSize dev size
        → ((read : ScriptLem) × (S.tells → IsSaid cold only (S.left script.old) read)
        × IsTooSmall read.config dev size (P.view plant)) }
    ensures formatted { cold ≡ true → (first second : CopyState) → result.status ≡ Status.NotFormatted first second
        → ⊥ }
    ensures unstarted { cold ≡ false → has_begun result.base ≡ false
        → IsNotStarted P.tells result.status (P.view plant) (P.view result.plant) }
    ensures source { result.status ≡ Status.SourceFault → Rose (S.faults script.old) (S.faults script.new) }
    ensures cause { IsCaused result.status (P.view plant) (P.view result.plant) }
    ensures begun { Begins result.status result.base }

    // A run that has not begun leaves all as it was, except where both copies were lost in the formatting or the start.
    // A warm one looked at the copies.
    ensures unbegun { has_begun result.base ≡ false
        → IsUnbegun result.base result.journal result.since (P.view result.plant).now }
    ensures untouched { has_begun result.base ≡ false → (result.status ≡ Status.BothLost)
        ⊎ ((result.plant ≡ plant) ⊎ ((cold ≡ false)
        × (P.tells → OnlyLookedAtAll (P.view plant) (P.view result.plant)))) }
    ensures unsaid { P.tells → has_begun result.base ≡ false
        → console_now (P.view result.plant) ≡ console_now (P.view plant) }
    ensures unprinted { P.tells → has_begun result.base ≡ false → AreSidesKept (P.view plant) (P.view result.plant) }
    ensures volumes { P.tells → has_begun result.base ≡ false → AreVolumesKept (P.view plant) (P.view result.plant) }

    // No run loses a device by a call, or arms a stop, except by a line that says so. A warm start loses a copy that it
    // doesn't take. Only a line that replaces a copy puts another device in a lost one's place.
    ensures goes { Proceeds (P.view plant) (P.view result.plant) }
    ensures lost { has_begun result.base ≡ false → LeavesLost result.status (P.view plant) (P.view result.plant) }
    ensures arms { has_begun result.base ≡ false → (m : ℕ)
        → (P.view result.plant).arms m ≡ (P.view plant).arms m }
    ensures loses { has_begun result.base ≡ false → (result.status ≢ Status.BothLost) ⊎ (cold ≡ true) → (d : Dev)
        → (P.view result.plant).loses d ≡ (P.view plant).loses d }

    // At most one byte more than a script may have is taken from its source.
    ensures taken { S.tells → IsTakenFrom (S.left script.old) (S.left script.new) }

    // Where the script is refused, or can't be read, no act is made.
    ensures idle { is_unplayed result.status ≡ true → result.plant ≡ plant }

    // A run that has begun plays what its script asks for.
    ensures room { has_begun result.base ≡ true
        → (form_needs (page_count result.base.config) ≤ (P.view plant).size Ckpt1)
        × (form_needs (page_count result.base.config) ≤ (P.view plant).size Ckpt2) }
    ensures roomy { has_begun result.base ≡ true → AreRoomy (P.view result.plant) result.base.config }
    ensures read { S.tells → has_begun result.base ≡ true → S.left script.new ≡ [] }
    ensures run { has_begun result.base ≡ true
        → ((read : ScriptLem) × (S.tells → IsSaid cold only (S.left script.old) read)
        × IsRun cold P.tells read (P.view plant)
        (run_result result.status result.base result.journal result.since (P.view result.plant))) }
    ensures formats { only ≡ true → P.tells → AreVolumesKept (P.view plant) (P.view result.plant) }

    // What neither a fault, nor a line that loses a copy, nor a takeover of the lock hinders is played to its end,
    // where a warm run finds a queue and its devices are large enough for it.
    ensures complete { S.tells → refusal_before_play cold only (S.left script.old) (P.view plant) ≡ None
        → IsStill P.tells (steps_of (said_by cold only (S.left script.old))) (S.faults script.old) (S.faults script.new)
        (P.view plant) (P.view result.plant) → IsPlayedOut cold result.status }
{
    match read_all(alloc, cold, only, script) {
        Ok(script) => play_steps(alloc, cold, script, plant),
        Err(status) => unbegun(alloc, status, plant),
    }
}
