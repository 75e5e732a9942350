//! The lines of a member, each a turn after the other at a value that others change between two turns.
ghost use Rattle.std.specs.Prelude.{◌≡◌, ◌≤◌, ◌+◌, Bool, [], ◌∷◌, length, None, OnOk, false, true};
ghost use Rattle.mas_types.specs.Limits.{steps_most};
ghost use Rattle.gate_facts.specs.Ways.{EachWay};
ghost use Rattle.race_turns.specs.Races.{is_raced as is_raced_lem, lines_of};
ghost use Rattle.race_run.specs.Racing.{StepIsRaced, plays as plays_lem};
ghost use Rattle.member_racing.specs.Asked.{IsAsked};
ghost use Rattle.race_run.specs.Races.{seen_in};
ghost use Rattle.race_run.specs.Racing.{AreAsked, AreRaced, IsCausedIn, LineIsRaced, MayRace, asked_at};

use gate_turns::Turns;
use mas_complex::{Complex, Steady};
use mas_race::{Beginning, Meet};
use mas_types::MemberId;
use member_node::{Member, NodeNo};
use member_racing::{Stage, line_turn};
use script_lang::{Ask, Step};
use spool_plant::Plant;
use std::alloc::Global;
use std::sync::Wait;
use std::thread;

/// What all members of a race have: the runtime, where they meet, and the script's lines.
#[derive(Drop)]
pub(crate) struct Course<'a, R, M> {
    /// The runtime.
    pub(crate) rt: &'a R,
    /// Where they meet.
    pub(crate) meet: &'a M,
    /// The allocator.
    pub(crate) alloc: Global,
    /// The lines of the script.
    pub(crate) lines: &'a [Step],
}

// Whether a line is played in turns by its member.
fn is_raced(asked: &Ask) -> bool
    ensures { result ≡ is_raced_lem asked.now }
{
    !matches!(asked, Ask::Stop | Ask::StopIn(..) | Ask::Lose(_))
}

// Whether this member plays the line.
fn plays(by: MemberId, line: &Step) -> bool
    ensures { result ≡ plays_lem by line.now }
{
    by.0 == line.by.0 && is_raced(&line.what)
}

// After a try that was refused the others come first.
fn let_others(stage: &Stage) {
    if let Stage::Opens = stage {
        thread::yield_now();
    }
}

// Plays a line, a turn after the other. A try that was refused is made again.
fn play_line<P: Plant + Drop, C: Steady + Drop, T: Turns<Complex<P, C>>, J: Beginning, R: Wait>(
    rt: &R,
    alloc: Global,
    member: &mut Member,
    turns: &mut T,
    number: u32,
    asked: &Ask,
) -> Result<(), NodeNo>
    requires free { T.held turns.old ≡ None }
    requires may { MayRace (T.finds turns.old) (T.follows (T.place turns.old)) T.rests (T.bound turns.old)
        (λ told. (T.memory turns.old told).cares) J.began.view (T.memory turns.old false).base
        member.old number }
    requires asked { IsAsked (T.memory turns.old false).base member.old.id asked.now }
    requires few { (1 ≤ number) × (number ≤ steps_most) }
    ensures free { T.held turns.new ≡ None }
    ensures place { T.place turns.new ≡ T.place turns.old }
    ensures bound { T.bound turns.new ≡ T.bound turns.old }
    ensures cares { (told : Bool) → (T.memory turns.new told).cares ≡ (T.memory turns.old told).cares }
    ensures base { EachWay P.tells (λ told. (T.memory turns.new told).base ≡ (T.memory turns.old told).base) }
    ensures id { member.new.id ≡ member.old.id }
    ensures next { OnOk result (MayRace (T.finds turns.new) (T.follows (T.place turns.new)) T.rests (T.bound turns.new)
        (λ told. (T.memory turns.new told).cares) J.began.view (T.memory turns.new false).base
        member.new (number + 1)) }
    ensures caused { IsCausedIn J.began.view (T.memory turns.new false) result }
    ensures raced { P.tells → LineIsRaced (T.memory turns.old true).base member.old.id
        (seen_in (T.memory turns.old true).base J.began.view member.old.id) (asked_at number asked.now)
        (T.memory turns.old true) (T.memory turns.new true) result }
{
    let mut stage = Stage::Opens;
    for _ in rt.forever() {
        turns.turn();
        let next = line_turn(member, alloc, turns.value(), number, asked, stage);
        turns.back();
        stage = next?;
        if let Stage::Closed = &stage {
            return Ok(());
        }
        let_others(&stage);
    }
    unreachable!()
}

// Plays a line of the script, if it is one of the member's.
fn play_step<
    P: Plant + Drop,
    C: Steady + Drop,
    T: Turns<Complex<P, C>>,
    J: Beginning,
    R: Wait,
    M: Meet,
>(
    course: &Course<'_, R, M>,
    member: &mut Member,
    turns: &mut T,
    number: u32,
    line: &Step,
) -> Result<(), NodeNo>
    requires free { T.held turns.old ≡ None }
    requires may { MayRace (T.finds turns.old) (T.follows (T.place turns.old)) T.rests (T.bound turns.old)
        (λ told. (T.memory turns.old told).cares) J.began.view (T.memory turns.old false).base
        member.old number }
    requires asked { AreAsked (T.memory turns.old false).base member.old.id
        (lines_of member.old.id number (line.now ∷ [])) }
    requires few { (1 ≤ number) × (number ≤ steps_most) }
    ensures free { T.held turns.new ≡ None }
    ensures place { T.place turns.new ≡ T.place turns.old }
    ensures bound { T.bound turns.new ≡ T.bound turns.old }
    ensures cares { (told : Bool) → (T.memory turns.new told).cares ≡ (T.memory turns.old told).cares }
    ensures base { EachWay P.tells (λ told. (T.memory turns.new told).base ≡ (T.memory turns.old told).base) }
    ensures id { member.new.id ≡ member.old.id }
    ensures next { OnOk result (MayRace (T.finds turns.new) (T.follows (T.place turns.new)) T.rests (T.bound turns.new)
        (λ told. (T.memory turns.new told).cares) J.began.view (T.memory turns.new false).base
        member.new (number + 1)) }
    ensures caused { IsCausedIn J.began.view (T.memory turns.new false) result }
    ensures raced { P.tells → StepIsRaced (T.memory turns.old true).base member.old.id
        (seen_in (T.memory turns.old true).base J.began.view member.old.id) number line.now
        (T.memory turns.old true) (T.memory turns.new true) result }
{
    if !plays(member.id, line) {
        return Ok(());
    }
    course.meet.before(member.id, number);
    play_line::<P, C, T, J, R>(course.rt, course.alloc, member, turns, number, &line.what)?;
    course.meet.after(member.id, number);
    Ok(())
}

/// Plays the member's lines one after another, up to one that ends the run for it.
pub(crate) fn play_lines<
    P: Plant + Drop,
    C: Steady + Drop,
    T: Turns<Complex<P, C>>,
    J: Beginning,
    R: Wait,
    M: Meet,
>(course: &Course<'_, R, M>, member: &mut Member, turns: &mut T) -> Result<(), NodeNo>
    requires free { T.held turns.old ≡ None }
    requires may { MayRace (T.finds turns.old) (T.follows (T.place turns.old)) T.rests (T.bound turns.old)
        (λ told. (T.memory turns.old told).cares) J.began.view (T.memory turns.old false).base
        member.old 1 }
    requires asked { AreAsked (T.memory turns.old false).base member.old.id
        (lines_of member.old.id 1 course.now.lines.now) }
    requires few { length course.now.lines.now ≤ steps_most }
    ensures free { T.held turns.new ≡ None }
    ensures place { T.place turns.new ≡ T.place turns.old }
    ensures bound { T.bound turns.new ≡ T.bound turns.old }
    ensures cares { (told : Bool) → (T.memory turns.new told).cares ≡ (T.memory turns.old told).cares }
    ensures base { EachWay P.tells (λ told. (T.memory turns.new told).base ≡ (T.memory turns.old told).base) }
    ensures id { member.new.id ≡ member.old.id }
    ensures caused { IsCausedIn J.began.view (T.memory turns.new false) result }
    ensures raced { P.tells → AreRaced (T.memory turns.old true).base member.old.id
        (seen_in (T.memory turns.old true).base J.began.view member.old.id) 1 course.now.lines.now
        (T.memory turns.old true) (T.memory turns.new true) result }
{
    let mut number = 0;
    for line in course.lines {
        number += 1;
        play_step::<P, C, T, J, R, M>(course, member, turns, number, line)?;
    }
    Ok(())
}
