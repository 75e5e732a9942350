//! The gate and its passes, as values.
ghost use Rattle.std.specs.Prelude.{◌≡◌, ◌≤◌, true, false};
ghost use Rattle.mas_types.specs.Limits.{members_most};
ghost use Rattle.member_gate.specs.Hands.{in_hand};

use crate::kept::Kept;
use crate::plays::Lock;
use crate::view::View;
use atomic_table::{Seat, Table};
use mas_types::MemberId;
use std::alloc::Global;

/// A value that members use in turn.
#[derive(Drop)]
pub struct Gate<V: Kept> {
    pub(crate) table: Table<Option<V>, View, V, Lock, Global>,
    pub(crate) members: u8,
    /// The table has two words and one slot.
    pub ghost counts: { (table.shared.table_id.words ≡ 2) × (table.shared.table_id.slots ≡ 1) },
    /// There are at most as many members as may be.
    pub ghost few: { members ≤ members_most },
}

/// What one thread knows of the value, and its right to a turn.
#[derive(Drop)]
pub struct Pass<V> {
    pub(crate) seat: Seat<Option<V>, View>,
    pub(crate) by: u8,
    /// Its seat can be used.
    pub ghost live: { seat.me.0.live ≡ true },
    /// Its first turn isn't under way.
    pub ghost begun: { seat.me.0.opening ≡ false },
    /// Its seat is of its member.
    pub ghost by_is: { by ≡ seat.me.0.member },
    /// What it has in hand is what its seat has.
    pub ghost hand_is: { seat.me.1 ≡ in_hand seat.me.0.has },
}

/// The member that has the turn.
#[derive(Clone, Copy)]
pub struct Held(pub MemberId);
