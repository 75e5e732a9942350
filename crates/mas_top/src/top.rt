//! The top call.
ghost use Rattle.std.specs.Prelude.{◌≡◌, Bool, map, string_bytes, None, Some};
ghost use Rattle.mas_tasks.specs.ScriptRuns.{run_end, source_of};
ghost use Rattle.mas_top.specs.Raced.{IsRaced};
ghost use Rattle.mas_tasks.specs.Tasks.{race_asked};
ghost use Rattle.mas_top.specs.Tops.{DoesCalm};

use mas_race::{Meet, NoMeet};
use mas_tasks::{calm_top, race_of, status_of_no};
use mas_words::read_words;
use race_run::race_script;
use run_opening::{Ended, unbegun};
use spool_plant::{Plant, Source};
use std::alloc::Global;
use std::sync::Wait;
use std::thread::Threads;

/// Does on a plant what the words behind the program's name ask for, `race` too: that plays a script as `play` does,
/// but each member's lines in a thread of its own, as `race_script` does, and after all lines the operator says the
/// history. `meet` is called about each line of a member. All other words are done as by `calm_top`.
///
/// That it returns isn't said of a race.
pub fn race_top<R: Threads + Wait + Sync, P: Plant + Send + Drop, S: Source, M: Meet + Sync>(
    rt: &R,
    alloc: Global,
    words: &[String],
    script: &mut S,
    plant: P,
    meet: &M,
) -> Ended<P>
    ensures race { (cold : Bool) → race_asked (map string_bytes words.now) ≡ Some cold
        → IsRaced cold (source_of S.tells S.faults S.left script.old script.new)
        (run_end P.tells P.view plant result) }
    ensures calm { race_asked (map string_bytes words.now) ≡ None → DoesCalm (map string_bytes words.now)
        (source_of S.tells S.faults S.left script.old script.new) (script.new ≡ script.old)
        (run_end P.tells P.view plant result) }
{
    let read = match read_words(alloc, words) {
        Ok(read) => read,
        Err(why) => return unbegun(alloc, status_of_no(why), plant),
    };
    match race_of(&read) {
        Some(cold) => race_script(rt, alloc, cold, script, plant, meet),
        None => calm_top(alloc, words, script, plant),
    }
}

/// Does on a plant what the words behind the program's name ask for. In a race no members meet.
pub fn mas_top<R: Threads + Wait + Sync, P: Plant + Send + Drop, S: Source>(
    rt: &R,
    alloc: Global,
    words: &[String],
    script: &mut S,
    plant: P,
) -> Ended<P>
    ensures race { (cold : Bool) → race_asked (map string_bytes words.now) ≡ Some cold
        → IsRaced cold (source_of S.tells S.faults S.left script.old script.new)
        (run_end P.tells P.view plant result) }
    ensures calm { race_asked (map string_bytes words.now) ≡ None → DoesCalm (map string_bytes words.now)
        (source_of S.tells S.faults S.left script.old script.new) (script.new ≡ script.old)
        (run_end P.tells P.view plant result) }
{
    race_top(rt, alloc, words, script, plant, &NoMeet)
}
