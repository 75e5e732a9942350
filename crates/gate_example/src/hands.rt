//! What each thread does in its turns.
ghost use Rattle.std.specs.Prelude.{◌≡◌, ◌++◌, ◌<◌, ◌≤◌, [], ◌∷◌, false, true, take, length, MatchBool, IfSome};
ghost use Rattle.gate_facts.specs.Values.{begun_of, marked_at, entries_by};
ghost use Rattle.gate_facts.specs.Memory.{seats};
ghost use Rattle.member_gate.specs.Passes.{view, IsPassOf, IsSame};
ghost use Rattle.gate_example.specs.Writing.{entry, written};

use crate::diary::Diary;
use mas_types::{Command, Entry, MemberId, Reply};
use member_gate::{Gate, Pass};
use std::alloc::Global;
use std::sync::Wait;
use std::thread::{Threads, join};

/// One turn, in which the member writes an entry of this step if there is memory for it.
pub fn write_one<R: Wait>(
    rt: &R,
    gate: &Gate<Diary>,
    pass: &mut Pass<Diary>,
    by: u8,
    step: u32,
) -> bool
    requires own { IsPassOf gate.now pass.old }
    requires free { (view pass.old).has ≡ false }
    requires by { ((view pass.old).member ≡ by) × (marked_at (view pass.old).cares by ≡ true) × (by < seats) }
    ensures own { IsPassOf gate.now pass.new }
    ensures free { (view pass.new).has ≡ false }
    ensures same { IsSame (view pass.old) (view pass.new) }
    ensures written { MatchBool result
        (begun_of (view pass.new).bare.last by ≡ begun_of (view pass.old).bare.last by ++ entry by step ∷ [])
        (begun_of (view pass.new).bare.last by ≡ begun_of (view pass.old).bare.last by) }
{
    let mut diary = gate.turn(rt, pass);
    let entry = Entry {
        by: MemberId(by),
        step,
        command: Command::Purge,
        reply: Reply::Plain,
    };
    match diary.add(entry) {
        Ok(()) => {
            gate.end_turn(pass, diary);
            true
        }
        Err(_) => {
            gate.end_turn(pass, diary);
            false
        }
    }
}

/// Writes an entry for each step, a turn each, while there is memory. The number answers for how many.
pub fn write_all<R: Wait>(
    rt: &R,
    gate: &Gate<Diary>,
    pass: Pass<Diary>,
    by: u8,
    steps: &[u32],
) -> (Pass<Diary>, usize)
    requires own { IsPassOf gate.now pass }
    requires free { (view pass).has ≡ false }
    requires by { ((view pass).member ≡ by) × (marked_at (view pass).cares by ≡ true) × (by < seats) }
    requires new { begun_of (view pass).bare.last by ≡ [] }
    ensures own { IsPassOf gate.now result.0 }
    ensures free { (view result.0).has ≡ false }
    ensures same { IsSame (view pass) (view result.0) }
    ensures count { result.1 ≤ length steps.now }
    ensures written { begun_of (view result.0).bare.last by ≡ written by (take result.1 steps.now) }
{
    let mut pass = pass;
    let mut next = 0;
    while next < steps.len() {
        if !write_one(rt, gate, &mut pass, by, steps[next]) {
            break;
        }
        next += 1;
    }
    (pass, next)
}

/// Two threads write in turn. In the one history the entries of each stand once and in its order.
pub fn two<R: Threads + Wait + Sync>(
    rt: &R,
    alloc: Global,
    first: &[u32],
    second: &[u32],
) -> Option<(Diary, usize, usize)>
    ensures first { IfSome result (λ r. entries_by 1 r.0.entries ≡ written 1 (take r.1 first.now)) }
    ensures second { IfSome result (λ r. entries_by 2 r.0.entries ≡ written 2 (take r.2 second.now)) }
{
    let (gate, mut root) = Gate::make(alloc, Diary::new(alloc), 2).ok()?;
    let one = gate.split(&mut root, MemberId(1));
    let two = gate.split(&mut root, MemberId(2));
    let (a, b) = join(
        rt,
        || write_all(rt, &gate, one, 1, first),
        || write_all(rt, &gate, two, 2, second),
    );
    gate.join(&mut root, a.0);
    gate.join(&mut root, b.0);
    let diary = gate.close(rt, root);
    Some((diary, a.1, b.1))
}
