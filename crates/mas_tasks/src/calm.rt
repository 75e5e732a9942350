//! What the words ask for, done with one thread.
ghost use Rattle.std.specs.Prelude.{◌≡◌, ◌≢◌, ◌⊎◌, ℕ, Bool, true, false, map, string_bytes, None, Some};
ghost use Rattle.run_opening.specs.Lines.{Proceeds};
ghost use Rattle.run_opening.specs.Volumes.{AreVolumesKept};
ghost use Rattle.run_opening.specs.Runs.{has_begun, Begins, IsUnbegun};
ghost use Rattle.run_opening.specs.Statuses.{IsCaused, LeavesLost};
ghost use Rattle.member_node.specs.Calls.{console_now};
ghost use Rattle.mas_tasks.specs.Checks.{IsCheckRun};
ghost use Rattle.mas_tasks.specs.Generates.{IsGenerated};
ghost use Rattle.mas_tasks.specs.Plays.{IsPlayed};
ghost use Rattle.mas_tasks.specs.Reports.{IsReport};
ghost use Rattle.mas_tasks.specs.ScriptRuns.{run_end, source_of};
ghost use Rattle.mas_tasks.specs.Tasks.{task_asked};

use crate::generating::play_generated;
use crate::inspecting::check_found;
use crate::reporting::report_queue;
use crate::tasks::{Task, read_task, status_of_no};
use mas_run::play_script;
use mas_types::Status;
use run_opening::{Ended, unbegun};
use spool_plant::{Plant, Source};
use std::alloc::Global;

/// Does on a plant what the words behind the program's name ask for.
///
/// `play` plays a script, with `--cold` from an empty queue and else from the queue that is found, as `play_script`
/// does. `report` says the queue that a start would find, a line for each job, output, volume and member and then
/// `END`; it reads no script, and changes and loses no device. `format` reads a script that has no steps, and formats
/// CKPT1 and CKPT2 with the empty queue of its configuration and routes, as a cold run does. `check` says one line:
/// what is wrong with the pages of greatest level that a copy reads as and with the texts of their queue, if anything;
/// it reads no script, and changes and loses no device. `generate` plays the script of so many decks from an empty
/// queue, as `play --cold` plays any, and then says in one line what it came to; it reads no script. Where the words
/// are none of the program's, or ask for `race`, for which threads are needed, the status is Words, and nothing is
/// touched.
pub fn calm_top<P: Plant + Drop, S: Source>(
    alloc: Global,
    words: &[String],
    script: &mut S,
    plant: P,
) -> Ended<P>
    // Wrong words are refused, unless out of memory, and no others; then nothing is touched.
    ensures words { result.status ≡ Status.Words → task_asked (map string_bytes words.now) ≡ None }
    ensures refused { task_asked (map string_bytes words.now) ≡ None → (result.status ≡ Status.Words)
        ⊎ (result.status ≡ Status.NoMemory) }
    ensures unread { task_asked (map string_bytes words.now) ≡ None → (script.new ≡ script.old) × (result.plant ≡ plant)
        × (has_begun result.base ≡ false) }

    // What the words ask for.
    ensures play { (cold : Bool) → task_asked (map string_bytes words.now) ≡ Some (Task.Play cold)
        → IsPlayed cold false (source_of S.tells S.faults S.left script.old script.new)
        (run_end P.tells P.view plant result) }
    ensures report { task_asked (map string_bytes words.now) ≡ Some Task.Report → (script.new ≡ script.old)
        × IsReport (run_end P.tells P.view plant result) }
    ensures format { task_asked (map string_bytes words.now) ≡ Some Task.Format
        → IsPlayed true true (source_of S.tells S.faults S.left script.old script.new)
        (run_end P.tells P.view plant result) }
    ensures check { task_asked (map string_bytes words.now) ≡ Some Task.Check → (script.new ≡ script.old)
        × (has_begun result.base ≡ false) × IsCheckRun P.tells result.status (P.view plant) (P.view result.plant) }
    ensures generate { (decks : ℕ) → task_asked (map string_bytes words.now) ≡ Some (Task.Generate decks)
        → (script.new ≡ script.old) × IsGenerated decks (run_end P.tells P.view plant result) }

    // In every run: why it ends, and whether it has begun, which a check never does. Unless it has begun it changes no
    // byte of a volume, and says nothing but the line of a check.
    ensures cause { IsCaused result.status (P.view plant) (P.view result.plant) }
    ensures begun { task_asked (map string_bytes words.now) ≢ Some Task.Check → Begins result.status result.base }
    ensures unbegun { has_begun result.base ≡ false
        → IsUnbegun result.base result.journal result.since (P.view result.plant).now }
    ensures unsaid { P.tells → task_asked (map string_bytes words.now) ≢ Some Task.Check → has_begun result.base ≡ false
        → console_now (P.view result.plant) ≡ console_now (P.view plant) }
    ensures lost { has_begun result.base ≡ false → LeavesLost result.status (P.view plant) (P.view result.plant) }
    ensures goes { Proceeds (P.view plant) (P.view result.plant) }
    ensures volumes { P.tells → has_begun result.base ≡ false → AreVolumesKept (P.view plant) (P.view result.plant) }
{
    let task = match read_task(alloc, words) {
        Ok(task) => task,
        Err(why) => return unbegun(alloc, status_of_no(why), plant),
    };
    match task {
        Task::Play(cold) => play_script(alloc, cold, false, script, plant),
        Task::Report => report_queue(alloc, plant),
        Task::Format => play_script(alloc, true, true, script, plant),
        Task::Check => check_found(alloc, plant),
        Task::Generate(decks) => play_generated(alloc, decks, plant),
    }
}
