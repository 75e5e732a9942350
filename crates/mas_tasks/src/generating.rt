//! The run of a script that is made of so many decks.
ghost use Rattle.std.specs.Prelude.{◌≡◌, ◌≢◌, ◌≤◌, length, take, false, IfOk};
ghost use Rattle.gen_work.specs.Generated.{IsDeckCount};
ghost use Rattle.gen_work.specs.Summaries.{summary_line as summary_line_lem, summary_of as summary_of_lem};
ghost use Rattle.spool_plant.specs.Source.{Gives, GivesCount};
ghost use Rattle.run_opening.specs.Lines.{Proceeds};
ghost use Rattle.run_opening.specs.Runs.{has_begun, Begins, IsUnbegun};
ghost use Rattle.run_opening.specs.Statuses.{IsCaused, LeavesLost};
ghost use Rattle.run_opening.specs.Volumes.{AreVolumesKept};
ghost use Rattle.member_node.specs.Calls.{console_now};
ghost use Rattle.mas_tasks.specs.Generates.{IsGenerated, IsSaid, MaySay};
ghost use Rattle.mas_tasks.specs.ScriptRuns.{run_end};

use gen_work::{generate, summary_line, summary_of};
use mas_complex::{BriefJournal, BriefQueue};
use mas_run::play_script;
use mas_types::{List, MemberId, NoMemory, Status};
use run_opening::{Ended, unbegun};
use script_generated::law_of_generated_scripts;
use spool_plant::{Act, Got, Plant, Source};
use std::alloc::Global;

/// The operator, who never halts.
const OPERATOR: MemberId = MemberId(0);

/// The text of a script in memory.
#[derive(Drop)]
struct ScriptText {
    /// All its bytes.
    bytes: List<u8>,
    /// How many of them were taken.
    taken: usize,
    ghost within: { taken ≤ length bytes },
}

fn copy_first(from: &[u8], n: usize, into: &mut [u8])
    requires there { n ≤ length from.now }
    requires room { n ≤ length into.old }
    ensures { take n into.new ≡ take n from.now }
{
    into[..n].copy_from_slice(&from[..n]);
}

impl Source for ScriptText {
    ghost use Rattle.mas_tasks.specs.ScriptTexts.{left_of};

    ghost tells = { Unit {0} };

    ghost left = { left_of };

    ghost faults = { λ script. 0 };

    fn next(&mut self, into: &mut [u8]) -> Got
        ensures counts { GivesCount (length into.old) 0 0 result }
        ensures content { Gives (left_of self.old) (left_of self.new) into.new result }
    {
        let left = self.bytes.len() - self.taken;
        let n = left.min(into.len());
        copy_first(&self.bytes.as_slice()[self.taken..], n, into);
        self.taken += n;
        Got::Bytes(n)
    }
}

// The line that says what a run came to.
fn summary_text(
    alloc: Global,
    base: &BriefQueue,
    journal: &BriefJournal,
) -> Result<List<u8>, NoMemory>
    ensures { IfOk result (λ line. line ≡ summary_line_lem (summary_of_lem base.now journal.now)) }
{
    let summary = summary_of(alloc, base, journal)?;
    summary_line(alloc, summary)
}

// The operator says a line.
fn say_line<P: Plant>(plant: &mut P, line: &[u8]) -> Status
    ensures said { IsSaid P.tells line.now result (P.view plant.old) (P.view plant.new) }
{
    match plant.say(OPERATOR, line) {
        Act::Done => Status::Done,
        Act::Failed => Status::ConsoleFault,
        // The operator never halts.
        Act::Halted => unreachable!(),
    }
}

// The end of a run whose lines were all played: what it came to is said.
fn sum_up<P: Plant + Drop>(
    alloc: Global,
    since: u64,
    base: BriefQueue,
    journal: BriefJournal,
    plant: P,
) -> Ended<P>
    ensures summed { MaySay P.tells (summary_line_lem (summary_of_lem base journal)) result.status (P.view plant)
        (P.view result.plant) }
    ensures base { result.base ≡ base }
    ensures journal { result.journal ≡ journal }
    ensures since { result.since ≡ since }
{
    let line = match summary_text(alloc, &base, &journal) {
        Ok(line) => line,
        Err(_) => {
            return Ended {
                status: Status::NoMemory,
                plant,
                base,
                since,
                journal,
            };
        }
    };
    let mut plant = plant;
    let status = say_line(&mut plant, line.as_slice());
    Ended {
        status,
        plant,
        base,
        since,
        journal,
    }
}

/// Plays the script of so many decks on an empty queue, for which CKPT1 and CKPT2 are formatted, as any script is
/// played cold. Where each of its lines was played the operator says in one line more what it came to: how many decks
/// were entered, how many lines were printed, and how many jobs are left. ConsoleFault where that can't be said.
/// NoMemory also where there is none for the script, and then nothing is done, or for that line.
pub(crate) fn play_generated<P: Plant + Drop>(alloc: Global, decks: u32, plant: P) -> Ended<P>
    requires { IsDeckCount decks }
    ensures generated { IsGenerated decks (run_end P.tells P.view plant result) }
    ensures words { result.status ≢ Status.Words }
    ensures cause { IsCaused result.status (P.view plant) (P.view result.plant) }
    ensures begun { Begins result.status result.base }
    ensures unbegun { has_begun result.base ≡ false
        → IsUnbegun result.base result.journal result.since (P.view result.plant).now }
    ensures unsaid { P.tells → has_begun result.base ≡ false
        → console_now (P.view result.plant) ≡ console_now (P.view plant) }
    ensures lost { has_begun result.base ≡ false → LeavesLost result.status (P.view plant) (P.view result.plant) }
    ensures goes { Proceeds (P.view plant) (P.view result.plant) }
    ensures volumes { P.tells → has_begun result.base ≡ false → AreVolumesKept (P.view plant) (P.view result.plant) }
{
    law_of_generated_scripts();
    let text = match generate(alloc, decks) {
        Ok(text) => text,
        Err(_) => return unbegun(alloc, Status::NoMemory, plant),
    };
    let mut script = ScriptText {
        bytes: text,
        taken: 0,
    };
    let Ended {
        status,
        plant,
        base,
        since,
        journal,
    } = play_script(alloc, true, false, &mut script, plant);
    match status {
        Status::Done => sum_up(alloc, since, base, journal, plant),
        status => Ended {
            status,
            plant,
            base,
            since,
            journal,
        },
    }
}
