//! Many members that write in turn, each in a thread of its own.
ghost use Rattle.std.specs.Prelude.{◌≡◌, ◌+◌, ◌<◌, ◌≤◌, false, true, [], IfSome};
ghost use Rattle.std.specs.Thread.{IsSync};
ghost use Rattle.gate_facts.specs.Values.{begun_of, marked_at};
ghost use Rattle.gate_facts.specs.Memory.{seats};
ghost use Rattle.member_gate.specs.Marking.{single};
ghost use Rattle.member_gate.specs.Passes.{view, IsPassOf, members_of};
ghost use Rattle.gate_example.specs.Crowds.{IsRest, HaveWritten, StandInOrder};

use crate::diary::Diary;
use crate::hands::write_all;
use mas_types::{MEMBERS_MOST, MemberId};
use member_gate::{Gate, Pass};
use std::alloc::Global;
use std::sync::Wait;
use std::thread::{Threads, join};

/// All members write an entry for each step, a turn each, while there is memory. In the one history the entries of each
/// stand once and in order.
pub fn together<R: Threads + Wait + Sync>(
    rt: &R,
    alloc: Global,
    members: u8,
    steps: &[u32],
) -> Option<Diary>
    requires { members ≤ MEMBERS_MOST }
    ensures { IfSome result (λ d. StandInOrder d.entries members steps.now) }
{
    let (gate, root) = Gate::make(alloc, Diary::new(alloc), members).ok()?;
    let root = spread(rt, &gate, root, members, 1, steps);
    Some(gate.close(rt, root))
}

// A pass for the member `by`, who is the next.
fn split_next(gate: &Gate<Diary>, root: &mut Pass<Diary>, members: u8, by: u8) -> Pass<Diary>
    requires own { IsPassOf gate.now root.old }
    requires members { (members ≡ members_of gate.now) × (members < seats) }
    requires by { (0 < by) × (by ≤ members) }
    requires rest { IsRest (view root.old) by }
    ensures root { IsPassOf gate.now root.new }
    ensures rest { IsRest (view root.new) (by + 1) }
    ensures own { IsPassOf gate.now result }
    ensures free { (view result).has ≡ false }
    ensures by { ((view result).member ≡ by) × (marked_at (view result).cares by ≡ true) × (by < seats) }
    ensures new { begun_of (view result).bare.last by ≡ [] }
    ensures cares { (view result).cares ≡ single by }
{
    gate.split(root, MemberId(by))
}

// The member `by` writes in a thread of its own, beside all members above it.
#[cycle(spread)]
fn spread<R: Threads + Wait + Sync>(
    rt: &R,
    gate: &Gate<Diary>,
    root: Pass<Diary>,
    members: u8,
    by: u8,
    steps: &[u32],
) -> Pass<Diary>
    requires own { IsPassOf gate.now root }
    requires members { (members ≡ members_of gate.now) × (members < seats) }
    requires by { (0 < by) × (by ≤ members + 1) }
    requires rest { IsRest (view root) by }
    ensures own { IsPassOf gate.now result }
    ensures free { (view result).has ≡ false }
    ensures written { HaveWritten (view result) by members steps.now }
{
    if by > members {
        return root;
    }
    let mut root = root;
    let pass = split_next(gate, &mut root, members, by);
    let above = by + 1;
    let others = move || -> Pass<Diary>
        requires { IsSync R.row × IsPassOf gate.now root × (members ≡ members_of gate.now) × (members < seats)
            × (0 < above) × (above ≤ members + 1) × IsRest (view root) above }
        ensures own { IsPassOf gate.entry.now result }
        ensures free { (view result).has ≡ false }
        ensures written { HaveWritten (view result) above members steps.entry.now }
    { spread(rt, gate, root, members, above, steps) };
    let (mine, mut all) = join(rt, || write_all(rt, gate, pass, by, steps), others);
    gate.join(&mut all, mine.0);
    all
}
