//! The calls of the gate. The table under it has two words and one slot: the turn word, which is one more than the
//! member that has the turn, or 0; the number of entries that are kept; and the value, while nobody has it.
ghost use Rattle.std.specs.Prelude.{◌≡◌, ℕ, ◌+◌, ◌<◌, ◌≤◌, Bool, true, false, IfOk, IfErr};
ghost use Rattle.gate_facts.specs.Values.{marked_at};
ghost use Rattle.gate_facts.specs.Memory.{IsLeft};
ghost use Rattle.gate_facts.specs.Ways.{EachWay};
ghost use Rattle.member_gate.specs.Views.{Finds, MayLeave, MineGrows, MayBegin, memory_in, refused, taking, counting, ending, opener, opened, giving, given_to, joined};
ghost use Rattle.member_gate.specs.Passes.{view, IsPassOf, members_of};

use crate::kept::Kept;
use crate::pass::{Gate, Held, Pass};
use crate::plays::{Begins, Brings, Counts, Ends, Gives, Tries, Whom, Whose};
use atomic_table::Table;
use mas_types::{MEMBERS_MOST, MemberId};
use std::alloc::Global;
use std::marker::Brand;
use std::sync::Wait;
use std::thread::Parker;
use std::time::Duration;

// For so many microseconds a pass that waits sleeps between two tries. Passes that only yielded would keep the
// processors from the one that has the turn.
const NAP: u64 = 1_000;

impl<V: Kept> Gate<V> {
    /// A gate with this value, for so many members, and the pass of member 0, from which the others are split. The
    /// value is handed back when out of memory.
    pub fn make(alloc: Global, value: V, members: u8) -> Result<(Gate<V>, Pass<V>), V>
        requires value { EachWay V.tells (λ told. MayBegin (V.facts value told)) }
        requires few { members ≤ MEMBERS_MOST }
        ensures ok { IfOk result (λ r. IsPassOf r.0 r.1 × (members_of r.0 ≡ members)
            × (view r.1 ≡ ending (opened (opener (V.facts value))))) }
        ensures err { IfErr result (λ v. v ≡ value) }
    {
        let count = value.kept_count();
        let Ok((table, mut seat)) = Table::vacant(alloc, &[1, count], 1, &value) else {
            return Err(value);
        };
        table.shared.store::<Begins>(&mut seat, 1, count);
        match table.shared.exchange(&mut seat, 0, Some(value)) {
            None => {}
            Some(_) => unreachable!(),
        }
        table.shared.store::<Ends>(&mut seat, 0, 0);
        let gate = Gate { table, members };
        Ok((gate, Pass { seat, by: 0 }))
    }

    /// A pass for a member, split from the one that came with the gate, which has split none for it yet. The old pass
    /// hands over what it knows of the member.
    pub fn split(&self, pass: &mut Pass<V>, by: MemberId) -> Pass<V>
        requires own { IsPassOf self.now pass.old }
        requires free { (view pass.old).has ≡ false }
        requires root { (view pass.old).root ≡ true }
        requires new { (0 < by.0) × (by.0 ≤ members_of self.now) × (marked_at (view pass.old).given by.0 ≡ false) }
        ensures same { IsPassOf self.now pass.new }
        ensures left { view pass.new ≡ giving by.0 (view pass.old) }
        ensures right { IsPassOf self.now result × (view result ≡ given_to by.0 (view pass.old)) }
    {
        self.split_for::<Brand>(pass, by.0)
    }

    fn split_for<J: Whom>(&self, pass: &mut Pass<V>, by: u8) -> Pass<V>
        requires own { IsPassOf self.now pass.old }
        requires free { (view pass.old).has ≡ false }
        requires root { (view pass.old).root ≡ true }
        requires whom { by ≡ J.whom }
        requires new { (0 < by) × (by ≤ members_of self.now) × (marked_at (view pass.old).given by ≡ false) }
        ensures same { IsPassOf self.now pass.new }
        ensures left { view pass.new ≡ giving by (view pass.old) }
        ensures right { IsPassOf self.now result × (view result ≡ given_to by (view pass.old)) }
    {
        let seat = self.table.shared.split_seat::<Gives<J>>(&mut pass.seat);
        Pass { seat, by }
    }

    /// Takes the turn, and the value with it, where nobody has the turn. `Held` comes only where this call's look at
    /// the turn word found that member in it.
    pub fn try_turn(&self, pass: &mut Pass<V>) -> Result<V, Held>
        requires own { IsPassOf self.now pass.old }
        requires free { (view pass.old).has ≡ false }
        ensures same { IsPassOf self.now pass.new }
        ensures ok { IfOk result (λ x. Finds V.tells (view pass.old) (V.facts x)
            × (view pass.new ≡ taking (view pass.old) ((view pass.old).tries + 1) (V.facts x))) }
        ensures err { IfErr result (λ h. view pass.new ≡ refused (view pass.old) (h.0.0 + 1)) }
    {
        let taken = pass.by as u64 + 1;
        let found = self
            .table
            .shared
            .compare_exchange::<Tries>(&mut pass.seat, 0, 0, taken);
        if found == 0 {
            match self.table.shared.exchange(&mut pass.seat, 0, None) {
                Some(value) => Ok(value),
                None => unreachable!(),
            }
        } else {
            Err(Held(MemberId((found - 1) as u8)))
        }
    }

    /// Waits for the turn, and takes it and the value. Between two tries the thread sleeps.
    pub fn turn<R: Wait>(&self, rt: &R, pass: &mut Pass<V>) -> V
        requires own { IsPassOf self.now pass.old }
        requires free { (view pass.old).has ≡ false }
        ensures same { IsPassOf self.now pass.new }
        ensures value { Finds V.tells (view pass.old) (V.facts result) }
        ensures view { (n : ℕ) × (view pass.new ≡ taking (view pass.old) n (V.facts result)) }
    {
        let parker = Parker::new();
        for _ in rt.forever() {
            match self.try_turn(pass) {
                Ok(value) => return value,
                Err(_) => parker.park_timeout(rt, Duration::from_micros(NAP)),
            }
        }
        unreachable!()
    }

    /// Gives the turn up, and the value with it. What was kept in this turn is the pass's own from now on.
    pub fn end_turn(&self, pass: &mut Pass<V>, value: V)
        requires own { IsPassOf self.now pass.old }
        requires turn { (view pass.old).has ≡ true }
        requires value { MayLeave V.tells (view pass.old) (V.facts value) }
        ensures same { IsPassOf self.now pass.new }
        ensures view { view pass.new ≡ ending (counting (view pass.old) (V.facts value)) }
        ensures left { (told : Bool)
            → IsLeft (view pass.new).member (memory_in (view pass.new) told) (V.facts value told) }
        ensures mine { MineGrows V.tells (view pass.old) (view pass.new) (V.facts value) }
    {
        self.count_up::<Brand>(pass, &value);
        match self.table.shared.exchange(&mut pass.seat, 0, Some(value)) {
            None => {}
            Some(_) => unreachable!(),
        }
        self.table.shared.store::<Ends>(&mut pass.seat, 0, 0);
    }

    // The pass still has the turn, and knows the value that it will give back.
    fn count_up<J: Whose>(&self, pass: &mut Pass<V>, value: &V)
        requires own { IsPassOf self.now pass.old }
        requires turn { (view pass.old).has ≡ true }
        requires whose { V.facts value.now ≡ J.whose }
        requires value { MayLeave V.tells (view pass.old) (V.facts value.now) }
        ensures own { IsPassOf self.now pass.new }
        ensures view { view pass.new ≡ counting (view pass.old) (V.facts value.now) }
        ensures mine { MineGrows V.tells (view pass.old) (view pass.new) (V.facts value.now) }
    {
        let count = value.kept_count();
        self.table
            .shared
            .store::<Counts<J>>(&mut pass.seat, 1, count);
    }

    /// Takes in another pass, with all that it knows of its members and what became kept in its turns.
    pub fn join(&self, pass: &mut Pass<V>, other: Pass<V>)
        requires own { IsPassOf self.now pass.old × IsPassOf self.now other }
        requires free { ((view pass.old).has ≡ false) × ((view other).has ≡ false) }
        ensures same { IsPassOf self.now pass.new }
        ensures view { view pass.new ≡ joined (view pass.old) (view other) }
    {
        let Pass { seat, by: _ } = other;
        self.table.shared.join_seat::<Brings>(&mut pass.seat, seat);
    }

    /// Waits for the turn as the pass, and takes the value out for good.
    pub fn close<R: Wait>(self, rt: &R, mut pass: Pass<V>) -> V
    where
        V: Drop,
        requires own { IsPassOf self pass }
        requires free { (view pass).has ≡ false }
        ensures value { Finds V.tells (view pass) (V.facts result) }
    {
        self.turn(rt, &mut pass)
    }
}
