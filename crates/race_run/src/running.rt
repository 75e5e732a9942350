//! The members race from a value on, and the race ends.
ghost use Rattle.std.specs.Prelude.{◌≡◌, ◌≢◌, ◌≤◌, ℕ, All, IfOk, OnErr, length, true, false};
ghost use Rattle.mas_types.specs.declared.ids.Dev.{Dev};
ghost use Rattle.mas_types.specs.declared.ids.Dev.TheVariants.{Ckpt1, Ckpt2};
ghost use Rattle.mas_types.specs.Limits.{members_most, steps_most};
ghost use Rattle.script_input.specs.Played.{IsPlayed, MayBeRaced};
ghost use Rattle.spool_plant.specs.declared.plant.Part.TheVariants.{Disk};
ghost use Rattle.duplex_pair.specs.Halves.{SomeAlive};
ghost use Rattle.mas_complex.specs.Journals.{AreSettled, kept_all};
ghost use Rattle.mas_complex.specs.Meaning.{run as run_of};
ghost use Rattle.mas_complex.specs.Renewals.{no_renewals};
ghost use Rattle.member_node.specs.Calls.{Grows};
ghost use Rattle.run_turns.specs.Scenes.{scene_of};
ghost use Rattle.mas_race.specs.Beginnings.{began_with};
ghost use Rattle.run_opening.specs.Fresh.{AreFresh};
ghost use Rattle.run_opening.specs.Lines.{Proceeds};
ghost use Rattle.run_opening.specs.Shows.{BetweenLines, Shows};
ghost use Rattle.run_opening.specs.Statuses.{IsCausedFrom, is_of_play};
ghost use Rattle.race_run.specs.Races.{IsRaceOf};
ghost use Rattle.race_run.specs.Values.{CanBegin, HaveAllRaced, IsUntouched};

use crate::lines::Course;
use crate::racers::race_rest;
use ckpt_form::CopyForm;
use mas_complex::Complex;
use mas_race::{Beginning, Meet, Shared};
use mas_types::{List, Status};
use member_gate::Gate;
use member_node::Member;
use race_ends::{prepare, say_history};
use run_opening::{Ended, OpenRun, end_run, status_of};
use spool_plant::Plant;
use std::marker::Brand;
use std::sync::Wait;
use std::thread::Threads;

// The members race from a value on, which begins the race. It is handed back with the status of them all.
fn race_value<
    R: Threads + Wait + Sync,
    P: Plant + Send + Drop,
    M: Meet + Sync,
    J: Beginning + Send + Sync,
>(
    course: &Course<'_, R, M>,
    complex: Complex<P, CopyForm>,
    members: List<Member>,
) -> (Status, Complex<P, CopyForm>)
    requires began { began_with complex ≡ J.began }
    requires begin { CanBegin complex members course.now.lines.now }
    ensures raced { HaveAllRaced complex result.1 course.now.lines.now result.0 }
{
    let count = members.len() as u8;
    let shared = Shared::<P, CopyForm, J>::new(complex);
    match Gate::make(course.alloc, shared, count) {
        Ok((gate, root)) => {
            let (root, status) = race_rest(course, &gate, root, members);
            let shared = gate.close(course.rt, root);
            (status, shared.into_complex())
        }
        Err(shared) => (Status::NoMemory, shared.into_complex()),
    }
}

/// The members of a run that has begun race through its lines. Before that the operator arms stops, and refuses lines
/// of members that are none. If each line has closed the operator says the history.
pub(crate) fn race_asked<R: Threads + Wait + Sync, P: Plant + Send + Drop, M: Meet + Sync>(
    course: &Course<'_, R, M>,
    run: OpenRun<P, CopyForm>,
) -> Ended<P>
    requires few { length course.now.lines.now ≤ steps_most }
    requires played { All IsPlayed course.now.lines.now }
    requires raced { All MayBeRaced course.now.lines.now }
    requires between { BetweenLines run.complex run.members 1 }
    requires fresh { AreFresh run.complex.base.config run.members }
    requires shows { Shows (Unit {0}) (scene_of (run_of run.complex.base (kept_all run.complex.journal.batches)))
        run.complex }
    requires settled { AreSettled run.complex.journal.batches (P.view run.complex.plant).now }
    requires untouched { IsUntouched run.complex }
    requires unrenewed { run.complex.renewals ≡ no_renewals }
    requires some { SomeAlive run.complex.pair.first.alive run.complex.pair.second.alive }
    requires there1 { run.complex.pair.first.alive ≡ true → (P.view run.complex.plant).lost (Disk Ckpt1) ≡ false }
    requires there2 { run.complex.pair.second.alive ≡ true → (P.view run.complex.plant).lost (Disk Ckpt2) ≡ false }
    ensures base { result.base ≡ run.complex.base }
    ensures since { result.since ≡ run.complex.since }
    ensures kind { is_of_play result.status ≡ true }
    ensures goes { Proceeds (P.view run.complex.plant) (P.view result.plant) }
    ensures grow { (d : Dev) → Grows ((P.view run.complex.plant).loses d) ((P.view result.plant).loses d) }
    ensures cause { IsCausedFrom run.complex.pair.first.alive run.complex.pair.second.alive result.status
        (P.view run.complex.plant) (P.view result.plant) }
    ensures race { IsRaceOf P.tells course.now.lines.now result.status result.base run.complex.journal.batches
        result.journal result.since (P.view run.complex.plant) (P.view result.plant) }
{
    let OpenRun {
        complex,
        members,
        ..
    } = run;
    let mut complex = complex;
    if let Err(why) = prepare(course.alloc, &mut complex, course.lines) {
        return end_run(status_of(&Err(why)), complex);
    }
    let (status, complex) = race_value::<R, P, M, Brand>(course, complex, members);
    let Status::Done = &status else {
        return end_run(status, complex);
    };
    let mut complex = complex;
    let answer = say_history(course.alloc, &mut complex);
    end_run(answer, complex)
}
