//! What a plant shows, and what each act does to it.
ghost use Rattle.std.specs.Prelude.{◌≡◌, ◌+◌, ◌≤◌, length, IsTrue, ◌↔◌};
ghost use Rattle.std.specs.Prelude.{ℕ, false};
ghost use Rattle.mas_types.specs.declared.ids.Dev.{Dev};
ghost use Rattle.spool_plant.specs.View.{View, disk_at, disk_now};
ghost use Rattle.spool_plant.specs.Acts.{Acts, Reads, Writes, Syncs, Says, Prints, GivesOn, Takes, FitsInto, act_of, Arms, Renews, RenewsThere, Loses, LosesThere};
ghost use Rattle.spool_plant.specs.declared.plant.Part.TheVariants.{Disk, Console, Printer, Wire};

use mas_types::{Dev, MemberId};

/// A part of the outside, which can be lost by itself.
#[derive(Clone, Copy)]
pub enum Part {
    /// A device: a checkpoint data set or a spool volume.
    Disk(Dev),
    /// The console of the complex.
    Console,
    /// The printer of a member.
    Printer(MemberId),
    /// The wire of a line, by the line's number.
    Wire(u8),
}

/// How an act ended.
#[derive(Clone, Copy)]
pub enum Act {
    /// The act was done whole.
    Done,
    /// The part failed. Its count of faults rose, and it is lost from now on.
    Failed,
    /// The member was stopped inside the act. Its count of stops rose.
    Halted,
}

/// How taking bytes from a wire ended.
#[derive(Clone, Copy)]
pub enum Took {
    /// So many bytes came.
    Bytes(usize),
    /// The wire failed. Its count of faults rose, and it is lost from now on.
    Failed,
    /// The member was stopped inside the act. Its count of stops rose.
    Halted,
}

/// What an armed stop counts.
#[derive(Clone, Copy)]
pub enum Fuse {
    /// Acts of any kind.
    Any,
    /// Prints.
    Print,
}

/// The outside. Every call but `now`, `size`, `lost` and `arm` is an act, which takes one moment.
///
/// A moment is the number of acts made. What holds at a past moment never changes. At the greatest `u64` the
/// moment stays, and every act that has an answer fails there and changes nothing but the loss of its part.
pub trait Plant {
    /// That the plant tells its content: what `view` says of past worlds is then true of it.
    ghost tells: { Type 0 };

    /// What the plant shows.
    ghost view: { Self → View };

    /// That no act of the plant halts.
    ghost halts_none: { Type 0 };

    /// That an act of a member halts only where a stop of it was armed.
    ghost halts_armed: { Type 0 };

    /// The number of acts made.
    fn now(&self) -> u64
        ensures { result ≡ (view self.now).now };

    /// The bytes that a device has. They never change in number.
    fn size(&self, dev: Dev) -> u64
        ensures { result ≡ (view self.now).size dev };

    /// That a part is lost now.
    fn lost(&self, part: Part) -> bool
        ensures { result ≡ (view self.now).lost part };

    /// Reads as many bytes of a device, from `at` on, as `into` has.
    fn read(&mut self, by: MemberId, dev: Dev, at: u64, into: &mut [u8]) -> Act
        requires { at + length into.old ≤ (view self.old).size dev }
        ensures acts { Acts by.0 (Disk dev) (view self.old) (view self.new) result }
        ensures content { tells → Reads dev at (view self.old) (view self.new) into.new result };

    /// Writes bytes to a device from `at` on. They are unsynced until a `sync` of the device. Halted and Failed may
    /// leave any bytes in their range.
    fn write(&mut self, by: MemberId, dev: Dev, at: u64, bytes: &[u8]) -> Act
        requires { at + length bytes.now ≤ (view self.old).size dev }
        ensures acts { Acts by.0 (Disk dev) (view self.old) (view self.new) result }
        ensures content { tells → Writes dev at bytes.now (view self.old) (view self.new) result };

    /// Leaves nothing of a device unsynced, once it is done.
    fn sync(&mut self, by: MemberId, dev: Dev) -> Act
        ensures acts { Acts by.0 (Disk dev) (view self.old) (view self.new) result }
        ensures content { tells → Syncs dev (view self.old) (view self.new) result };

    /// Adds a line to the console. Halted may leave nothing, a torn line or the whole line.
    fn say(&mut self, by: MemberId, line: &[u8]) -> Act
        ensures acts { Acts by.0 Console (view self.old) (view self.new) result }
        ensures content { tells → Says line.now (view self.old) (view self.new) result };

    /// Adds a line to the member's own printer. Halted may leave nothing, a torn line or the whole line.
    fn print(&mut self, by: MemberId, line: &[u8]) -> Act
        ensures acts { Acts by.0 (Printer by) (view self.old) (view self.new) result }
        ensures content { tells → Prints by.0 line.now (view self.old) (view self.new) result };

    /// Gives bytes on a wire. Halted and Failed may have given the first of them.
    fn give(&mut self, by: MemberId, wire: u8, bytes: &[u8]) -> Act
        ensures acts { Acts by.0 (Wire wire) (view self.old) (view self.new) result }
        ensures content { tells → GivesOn wire by.0 bytes.now (view self.old) (view self.new) result };

    /// Takes the first bytes that wait on a wire, into the first places of `into`. None come only where none wait or
    /// `into` is empty. Halted and Failed take none.
    fn take(&mut self, by: MemberId, wire: u8, into: &mut [u8]) -> Took
        ensures acts { Acts by.0 (Wire wire) (view self.old) (view self.new) (act_of result) }
        ensures fits { FitsInto (length into.old) result }
        ensures content { tells → Takes wire by.0 (view self.old) (view self.new) into.new result };

    /// Arms a stop: the member's `n`-th act from now, or its `n`-th print, is to halt, where the plant can halt
    /// members. An `n` of 0 arms nothing. It is no act, and the operator never halts.
    fn arm(&mut self, member: MemberId, fuse: Fuse, n: u32)
        ensures { Arms member.0 (view self.old) (view self.new) };

    /// Puts a device of zeros in a device's place, whether that was lost or not. Nobody makes it, so it never halts.
    fn renew(&mut self, dev: Dev) -> Act
        ensures acts { Renews dev (view self.old) (view self.new) result }
        ensures content { tells → RenewsThere dev (view self.old) (view self.new) result };

    /// Loses a device. No fault is counted.
    fn lose(&mut self, dev: Dev)
        ensures acts { Loses (Disk dev) (view self.old) (view self.new) }
        ensures content { tells → LosesThere dev (view self.old) (view self.new) };

    /// A device that is told has as many bytes as its size.
    ghost sized: { (p : Self) → tells → (t : ℕ) → t ≤ (view p).now → (d : Dev)
        → length (disk_at (view p) t d).bytes ≡ (view p).size d };

    /// A device that isn't lost isn't lost in the world of now.
    ghost there: { (p : Self) → tells → (d : Dev) → (view p).lost (Disk d) ≡ false
        → (disk_now (view p) d).lost ≡ false };

    /// Where no act halts, no member was stopped.
    ghost unstopped: { (p : Self) → halts_none → (member : ℕ) → (view p).stops member ≡ 0 };

    /// Where only armed acts halt, a member of which no stop was armed wasn't stopped.
    ghost unarmed: { (p : Self) → halts_armed → (member : ℕ) → (view p).arms member ≡ 0
        → (view p).stops member ≡ 0 };
}
