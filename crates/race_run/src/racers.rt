//! The members of a race, each in a thread of its own.
ghost use Rattle.std.specs.Prelude.{◌≡◌, ◌≤◌, ◌<◌, false, true, length};
ghost use Rattle.std.specs.Thread.{IsSend, IsSync};
ghost use Rattle.mas_types.specs.Limits.{steps_most};
ghost use Rattle.gate_facts.specs.Values.{marked_at};
ghost use Rattle.member_gate.specs.Passes.{IsPassOf, members_of, view};
ghost use Rattle.member_gate.specs.Views.{given_to, giving};
ghost use Rattle.race_run.specs.Races.{lesser as lesser_lem};
ghost use Rattle.race_run.specs.Racers.{MayRaceWithin, RacedWith};
ghost use Rattle.race_run.specs.Rounds.{MayAllRace, RacedOn, TakesFirst};

use crate::lines::{Course, play_lines};
use ckpt_form::CopyForm;
use mas_race::{Beginning, Meet, Passing, Shared, Turn};
use mas_types::{List, Status, status_code};
use member_gate::{Gate, Pass};
use member_node::{Member, NodeNo};
use run_opening::status_of;
use spool_plant::Plant;
use std::sync::Wait;
use std::thread::{Threads, join};

// The member takes turns with its pass, until its lines are played.
fn race_with<P: Plant + Drop, R: Wait, M: Meet, J: Beginning>(
    course: &Course<'_, R, M>,
    gate: &Gate<Shared<P, CopyForm, J>>,
    member: &mut Member,
    turn: &mut Turn<P, CopyForm, J>,
) -> Result<(), NodeNo>
    requires own { IsPassOf gate.now turn.old.pass }
    requires may { MayRaceWithin turn.old.pass (λ s. s.complex) J.began member.old course.now.lines.now }
    requires few { length course.now.lines.now ≤ steps_most }
    ensures own { IsPassOf gate.now turn.new.pass }
    ensures id { member.new.id ≡ member.old.id }
    ensures raced { RacedWith P.tells J.began.view (view turn.old.pass) (view turn.new.pass) member.old.id
        course.now.lines.now result }
{
    let mut turns = Passing::new(course.rt, gate, turn);
    play_lines::<P, CopyForm, Passing<'_, P, CopyForm, J, R>, J, R, M>(course, member, &mut turns)
}

// A member plays its lines with its pass, which is handed back with how they ended.
fn race_one<P: Plant + Drop, R: Wait, M: Meet, J: Beginning>(
    course: &Course<'_, R, M>,
    gate: &Gate<Shared<P, CopyForm, J>>,
    pass: Pass<Shared<P, CopyForm, J>>,
    member: Member,
) -> (Pass<Shared<P, CopyForm, J>>, Result<(), NodeNo>)
    requires own { IsPassOf gate.now pass }
    requires may { MayRaceWithin pass (λ s. s.complex) J.began member course.now.lines.now }
    requires few { length course.now.lines.now ≤ steps_most }
    ensures own { IsPassOf gate.now result.0 }
    ensures raced { RacedWith P.tells J.began.view (view pass) (view result.0) member.id
        course.now.lines.now result.1 }
{
    let mut member = member;
    let mut turn = Turn::new(pass);
    let answer = race_with(course, gate, &mut member, &mut turn);
    drop(member);
    (turn.into_pass(), answer)
}

// Of two statuses the one with the least code other than 0.
pub(crate) fn lesser(one: Status, other: Status) -> Status
    ensures { result ≡ lesser_lem one other }
{
    let a = status_code(&one);
    let b = status_code(&other);
    if a == 0 || (b != 0 && b < a) {
        other
    } else {
        one
    }
}

// Takes the first member away.
fn next_member(members: &mut List<Member>) -> Option<Member>
    ensures { TakesFirst members.old members.new result }
{
    if members.len() > 0 {
        Some(members.remove(0))
    } else {
        None
    }
}

// The pass of the next member.
fn split_next<P: Plant + Drop, J: Beginning>(
    gate: &Gate<Shared<P, CopyForm, J>>,
    root: &mut Pass<Shared<P, CopyForm, J>>,
    member: &Member,
) -> Pass<Shared<P, CopyForm, J>>
    requires own { IsPassOf gate.now root.old }
    requires new { (0 < member.now.id.0) × (member.now.id.0 ≤ members_of gate.now)
        × (marked_at (view root.old).given member.now.id.0 ≡ false) }
    requires root { ((view root.old).has ≡ false) × ((view root.old).root ≡ true) }
    ensures own { IsPassOf gate.now root.new }
    ensures root { view root.new ≡ giving member.now.id.0 (view root.old) }
    ensures pass { IsPassOf gate.now result }
    ensures view { view result ≡ given_to member.now.id.0 (view root.old) }
{
    gate.split(root, member.id)
}

// Members race, each in a thread of its own. The root pass, from which theirs are split, takes them in again.
#[cycle(race_rest)]
pub(crate) fn race_rest<
    R: Threads + Wait + Sync,
    P: Plant + Send + Drop,
    M: Meet + Sync,
    J: Beginning + Send + Sync,
>(
    course: &Course<'_, R, M>,
    gate: &Gate<Shared<P, CopyForm, J>>,
    root: Pass<Shared<P, CopyForm, J>>,
    members: List<Member>,
) -> (Pass<Shared<P, CopyForm, J>>, Status)
    requires own { IsPassOf gate.now root }
    requires may { MayAllRace root (λ s. s.complex) J.began (members_of gate.now) members course.now.lines.now }
    requires few { length course.now.lines.now ≤ steps_most }
    ensures own { IsPassOf gate.now result.0 }
    ensures raced { RacedOn P.tells J.began.view course.now.lines.now (view root) members (view result.0) result.1 }
{
    let mut root = root;
    let mut members = members;
    let Some(member) = next_member(&mut members) else {
        return (root, Status::Done);
    };
    let pass = split_next(gate, &mut root, &member);
    let others = move || -> (Pass<Shared<P, CopyForm, J>>, Status)
        requires { IsSync R.row × IsSend P.row × IsSync M.row × IsSend J.row × IsSync J.row × IsPassOf gate.now root
            × MayAllRace root (λ s. s.complex) J.began (members_of gate.now) members course.now.lines.now
            × (length course.now.lines.now ≤ steps_most) }
        ensures own { IsPassOf gate.entry.now result.0 }
        ensures raced { RacedOn P.tells J.began.view course.entry.now.lines.now (view root) members
            (view result.0) result.1 }
    { race_rest(course, gate, root, members) };
    let (mine, rest) = join(course.rt, || race_one(course, gate, pass, member), others);
    let mut all = rest.0;
    gate.join(&mut all, mine.0);
    (all, lesser(status_of(&mine.1), rest.1))
}
