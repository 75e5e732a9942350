//! A plant over any plant, which halts the acts whose stop was armed.
ghost use Rattle.std.specs.Prelude.{◌≡◌, ◌≢◌, ◌+◌, ◌≤◌, ◌<◌, ◌/◌, length, take, slice_index, true, false};
ghost use Rattle.spool_plant.specs.Acts.{act_of, top};
ghost use Rattle.spool_plant.specs.declared.plant.Act.TheVariants.{Done};
ghost use Rattle.spool_disk.specs.FuseView.{armed_of};
ghost use Rattle.spool_disk.specs.Fuses.{none_armed};
ghost use Rattle.plant_fuse.specs.FuseViews.{fused_view, AreWithin};
ghost use Rattle.plant_fuse.specs.Closing.{Closes, halved_by};
ghost use Rattle.plant_fuse.specs.Unarmed.{AreUnarmed};

use crate::stops::Stops;
use crate::tally::Tally;
use http_server::Log;
use mas_types::{Dev, MemberId};
use spool_disk::Fuses;
use spool_plant::{Act, Fuse, Part, Plant, Took};

/// A plant over an inner plant, which keeps armed stops to itself and passes every other call on, except the acts that
/// it halts: of a halted write, line or gift it passes on the first half of the bytes, of a halted read or sync a read
/// of no bytes, and of a halted `take` one into no bytes. Where the inner plant answers Failed or Halted to what was
/// passed on, that is the answer. A line of which the half was passed on counts as torn.
#[derive(Drop)]
pub struct Fused<P: Plant + Drop> {
    /// The inner plant.
    pub inner: P,
    /// The stops that are armed.
    pub fuses: Fuses,
    /// The stops of each member that this plant made, and the moment behind the last one that it answered.
    pub stops: Stops,
    /// The calls that armed a stop of each member.
    pub arms: Tally,
    /// The acts that passed on the half of a line: the place, which is 0 for the console and else the member's number
    /// and one more, and the moment of the act. They take no memory.
    pub halved: Log<u64, u64>,
    ghost within: { P.tells → AreWithin (P.view inner) halved.items },
    ghost unarmed: { AreUnarmed (armed_of fuses) stops.counts arms.counts },
}

// The first half of some bytes.
fn half(bytes: &[u8]) -> &[u8]
    ensures { result.now ≡ take (length bytes.now / 2) bytes.now }
{
    &bytes[..bytes.len() / 2]
}

// Ends an act that halts, of which what was passed on was answered so.
fn close(stops: &mut Stops, by: MemberId, passed: Act) -> Act
    ensures closes { Closes by.0 passed stops.old.counts stops.new.counts result }
    ensures last { stops.new.last ≡ stops.old.last }
    ensures few { by.0 < 256 }
{
    match passed {
        Act::Done => {
            stops.count(by);
            Act::Halted
        }
        Act::Failed => Act::Failed,
        Act::Halted => Act::Halted,
    }
}

// Notes an act at a moment that passed on the half of a line, where it didn't fail.
fn note_half(halved: &mut Log<u64, u64>, place: u64, moment: u64, passed: Act)
    ensures { halved.new.items ≡ halved_by passed (place, moment) halved.old.items }
{
    match passed {
        Act::Failed => {}
        Act::Done | Act::Halted => *halved = halved.and(&place, &moment),
    }
}

fn act_taken(passed: Took) -> Act
    ensures { result ≡ act_of passed }
{
    match passed {
        Took::Bytes(_) => Act::Done,
        Took::Failed => Act::Failed,
        Took::Halted => Act::Halted,
    }
}

fn took_nothing(act: Act) -> Took
    requires { act ≢ Done }
    ensures { act_of result ≡ act }
{
    match act {
        Act::Failed => Took::Failed,
        _ => Took::Halted,
    }
}

impl<P: Plant + Drop> Fused<P> {
    ghost use Rattle.plant_fuse.specs.FuseViews.{ShowsInner};

    /// Nothing is armed, and no line was halved.
    pub fn new(inner: P) -> Fused<P>
        ensures view { ShowsInner (P.view inner)
            (fused_view (P.view result.inner) result.halved.items result.stops result.arms.counts) }
        ensures none { armed_of result.fuses ≡ none_armed }
    {
        Fused {
            inner,
            fuses: Fuses::new(),
            stops: Stops::new(),
            arms: Tally::new(),
            halved: Log::new(),
        }
    }
}

impl<P: Plant + Drop> Plant for Fused<P> {
    ghost use Rattle.spool_plant.specs.Acts.{Acts, Reads, Writes, Syncs, Says, Prints, GivesOn, Takes, FitsInto, Arms, Renews, RenewsThere};
    ghost use Rattle.spool_disk.specs.Fuses.{burnt, to_halt, with_fuse};
    ghost use Rattle.plant_fuse.specs.Unarmed.{none_stopped};
    ghost use Rattle.spool_plant.specs.declared.plant.Act.{Act};
    ghost use Rattle.spool_plant.specs.declared.plant.Part.TheVariants.{Disk, Console, Printer, Wire};

    ghost tells = { P.tells };

    ghost view = { λ f. fused_view (P.view f.inner) f.halved.items f.stops f.arms.counts };

    ghost sized = { λ f told t le d. P.sized f.inner told t le d };

    ghost there = { λ f told d whole. P.there f.inner told d whole };

    ghost halts_none = { ⊥ };

    ghost unstopped = { λ f never member. absurd never };

    // Where the inner plant halts nothing.
    ghost halts_armed = { P.halts_none };

    ghost unarmed = { λ f is member none. none_stopped ((P.view f.inner).stops member)
        (slice_index f.stops.counts member) (P.unstopped f.inner is member) (f.unarmed member none).unstopped };

    fn now(&self) -> u64 {
        self.inner.now()
    }

    fn size(&self, dev: Dev) -> u64 {
        self.inner.size(dev)
    }

    fn lost(&self, part: Part) -> bool {
        self.inner.lost(part)
    }

    fn read(&mut self, by: MemberId, dev: Dev, at: u64, into: &mut [u8]) -> Act
        requires { at + length into.old ≤ (P.view self.old.inner).size dev }
        ensures acts { Acts by.0 (Disk dev)
            (fused_view (P.view self.old.inner) self.old.halved.items self.old.stops self.old.arms.counts)
            (fused_view (P.view self.new.inner) self.new.halved.items self.new.stops self.new.arms.counts)
            result }
        ensures content { P.tells → Reads dev at
            (fused_view (P.view self.old.inner) self.old.halved.items self.old.stops self.old.arms.counts)
            (fused_view (P.view self.new.inner) self.new.halved.items self.new.stops self.new.arms.counts)
            into.new result }
        ensures armed { armed_of self.new.fuses ≡ burnt (armed_of self.old.fuses) by.0 false }
        ensures halts { to_halt (armed_of self.old.fuses) by.0 false ≡ true → result ≢ Done }
        ensures passes { to_halt (armed_of self.old.fuses) by.0 false ≡ false
            → self.new.stops.counts ≡ self.old.stops.counts }
    {
        if self.fuses.fire(by, false) {
            let passed = self.inner.read(by, dev, 0, &mut []);
            let act = close(&mut self.stops, by, passed);
            self.stops.note(&self.inner, act);
            act
        } else {
            let act = self.inner.read(by, dev, at, into);
            self.stops.note(&self.inner, act);
            act
        }
    }

    fn write(&mut self, by: MemberId, dev: Dev, at: u64, bytes: &[u8]) -> Act
        requires { at + length bytes.now ≤ (P.view self.old.inner).size dev }
        ensures acts { Acts by.0 (Disk dev)
            (fused_view (P.view self.old.inner) self.old.halved.items self.old.stops self.old.arms.counts)
            (fused_view (P.view self.new.inner) self.new.halved.items self.new.stops self.new.arms.counts)
            result }
        ensures content { P.tells → Writes dev at bytes.now
            (fused_view (P.view self.old.inner) self.old.halved.items self.old.stops self.old.arms.counts)
            (fused_view (P.view self.new.inner) self.new.halved.items self.new.stops self.new.arms.counts)
            result }
        ensures armed { armed_of self.new.fuses ≡ burnt (armed_of self.old.fuses) by.0 false }
        ensures halts { to_halt (armed_of self.old.fuses) by.0 false ≡ true → result ≢ Done }
        ensures passes { to_halt (armed_of self.old.fuses) by.0 false ≡ false
            → self.new.stops.counts ≡ self.old.stops.counts }
        ensures half { P.tells → to_halt (armed_of self.old.fuses) by.0 false ≡ true → (r : Act)
            × Writes dev at (take (length bytes.now / 2) bytes.now) (P.view self.old.inner) (P.view self.new.inner) r }
    {
        if self.fuses.fire(by, false) {
            let passed = self.inner.write(by, dev, at, half(bytes));
            let act = close(&mut self.stops, by, passed);
            self.stops.note(&self.inner, act);
            act
        } else {
            let act = self.inner.write(by, dev, at, bytes);
            self.stops.note(&self.inner, act);
            act
        }
    }

    fn sync(&mut self, by: MemberId, dev: Dev) -> Act
        ensures acts { Acts by.0 (Disk dev)
            (fused_view (P.view self.old.inner) self.old.halved.items self.old.stops self.old.arms.counts)
            (fused_view (P.view self.new.inner) self.new.halved.items self.new.stops self.new.arms.counts)
            result }
        ensures content { P.tells → Syncs dev
            (fused_view (P.view self.old.inner) self.old.halved.items self.old.stops self.old.arms.counts)
            (fused_view (P.view self.new.inner) self.new.halved.items self.new.stops self.new.arms.counts)
            result }
        ensures armed { armed_of self.new.fuses ≡ burnt (armed_of self.old.fuses) by.0 false }
        ensures halts { to_halt (armed_of self.old.fuses) by.0 false ≡ true → result ≢ Done }
        ensures passes { to_halt (armed_of self.old.fuses) by.0 false ≡ false
            → self.new.stops.counts ≡ self.old.stops.counts }
    {
        if self.fuses.fire(by, false) {
            let passed = self.inner.read(by, dev, 0, &mut []);
            let act = close(&mut self.stops, by, passed);
            self.stops.note(&self.inner, act);
            act
        } else {
            let act = self.inner.sync(by, dev);
            self.stops.note(&self.inner, act);
            act
        }
    }

    fn say(&mut self, by: MemberId, line: &[u8]) -> Act
        ensures acts { Acts by.0 Console
            (fused_view (P.view self.old.inner) self.old.halved.items self.old.stops self.old.arms.counts)
            (fused_view (P.view self.new.inner) self.new.halved.items self.new.stops self.new.arms.counts)
            result }
        ensures content { P.tells → Says line.now
            (fused_view (P.view self.old.inner) self.old.halved.items self.old.stops self.old.arms.counts)
            (fused_view (P.view self.new.inner) self.new.halved.items self.new.stops self.new.arms.counts)
            result }
        ensures armed { armed_of self.new.fuses ≡ burnt (armed_of self.old.fuses) by.0 false }
        ensures halts { to_halt (armed_of self.old.fuses) by.0 false ≡ true → result ≢ Done }
        ensures passes { to_halt (armed_of self.old.fuses) by.0 false ≡ false
            → self.new.stops.counts ≡ self.old.stops.counts }
        ensures half { P.tells → to_halt (armed_of self.old.fuses) by.0 false ≡ true → (r : Act)
            × Says (take (length line.now / 2) line.now) (P.view self.old.inner) (P.view self.new.inner) r }
    {
        if self.fuses.fire(by, false) {
            let moment = self.inner.now();
            let passed = self.inner.say(by, half(line));
            note_half(&mut self.halved, 0, moment, passed);
            let act = close(&mut self.stops, by, passed);
            self.stops.note(&self.inner, act);
            act
        } else {
            let act = self.inner.say(by, line);
            self.stops.note(&self.inner, act);
            act
        }
    }

    fn print(&mut self, by: MemberId, line: &[u8]) -> Act
        ensures acts { Acts by.0 (Printer by)
            (fused_view (P.view self.old.inner) self.old.halved.items self.old.stops self.old.arms.counts)
            (fused_view (P.view self.new.inner) self.new.halved.items self.new.stops self.new.arms.counts)
            result }
        ensures content { P.tells → Prints by.0 line.now
            (fused_view (P.view self.old.inner) self.old.halved.items self.old.stops self.old.arms.counts)
            (fused_view (P.view self.new.inner) self.new.halved.items self.new.stops self.new.arms.counts)
            result }
        ensures armed { armed_of self.new.fuses ≡ burnt (armed_of self.old.fuses) by.0 true }
        ensures halts { to_halt (armed_of self.old.fuses) by.0 true ≡ true → result ≢ Done }
        ensures passes { to_halt (armed_of self.old.fuses) by.0 true ≡ false
            → self.new.stops.counts ≡ self.old.stops.counts }
        ensures half { P.tells → to_halt (armed_of self.old.fuses) by.0 true ≡ true → (r : Act)
            × Prints by.0 (take (length line.now / 2) line.now) (P.view self.old.inner) (P.view self.new.inner) r }
    {
        if self.fuses.fire(by, true) {
            let moment = self.inner.now();
            let passed = self.inner.print(by, half(line));
            note_half(&mut self.halved, by.0 as u64 + 1, moment, passed);
            let act = close(&mut self.stops, by, passed);
            self.stops.note(&self.inner, act);
            act
        } else {
            let act = self.inner.print(by, line);
            self.stops.note(&self.inner, act);
            act
        }
    }

    fn give(&mut self, by: MemberId, wire: u8, bytes: &[u8]) -> Act
        ensures acts { Acts by.0 (Wire wire)
            (fused_view (P.view self.old.inner) self.old.halved.items self.old.stops self.old.arms.counts)
            (fused_view (P.view self.new.inner) self.new.halved.items self.new.stops self.new.arms.counts)
            result }
        ensures content { P.tells → GivesOn wire by.0 bytes.now
            (fused_view (P.view self.old.inner) self.old.halved.items self.old.stops self.old.arms.counts)
            (fused_view (P.view self.new.inner) self.new.halved.items self.new.stops self.new.arms.counts)
            result }
        ensures armed { armed_of self.new.fuses ≡ burnt (armed_of self.old.fuses) by.0 false }
        ensures halts { to_halt (armed_of self.old.fuses) by.0 false ≡ true → result ≢ Done }
        ensures passes { to_halt (armed_of self.old.fuses) by.0 false ≡ false
            → self.new.stops.counts ≡ self.old.stops.counts }
        ensures half { P.tells → to_halt (armed_of self.old.fuses) by.0 false ≡ true → (r : Act)
            × GivesOn wire by.0 (take (length bytes.now / 2) bytes.now) (P.view self.old.inner) (P.view self.new.inner)
            r }
    {
        if self.fuses.fire(by, false) {
            let passed = self.inner.give(by, wire, half(bytes));
            let act = close(&mut self.stops, by, passed);
            self.stops.note(&self.inner, act);
            act
        } else {
            let act = self.inner.give(by, wire, bytes);
            self.stops.note(&self.inner, act);
            act
        }
    }

    fn take(&mut self, by: MemberId, wire: u8, into: &mut [u8]) -> Took
        ensures acts { Acts by.0 (Wire wire)
            (fused_view (P.view self.old.inner) self.old.halved.items self.old.stops self.old.arms.counts)
            (fused_view (P.view self.new.inner) self.new.halved.items self.new.stops self.new.arms.counts)
            (act_of result) }
        ensures fits { FitsInto (length into.old) result }
        ensures content { P.tells → Takes wire by.0
            (fused_view (P.view self.old.inner) self.old.halved.items self.old.stops self.old.arms.counts)
            (fused_view (P.view self.new.inner) self.new.halved.items self.new.stops self.new.arms.counts)
            into.new result }
        ensures armed { armed_of self.new.fuses ≡ burnt (armed_of self.old.fuses) by.0 false }
        ensures halts { to_halt (armed_of self.old.fuses) by.0 false ≡ true → (act_of result) ≢ Done }
        ensures passes { to_halt (armed_of self.old.fuses) by.0 false ≡ false
            → self.new.stops.counts ≡ self.old.stops.counts }
    {
        if self.fuses.fire(by, false) {
            let passed = act_taken(self.inner.take(by, wire, &mut []));
            let act = close(&mut self.stops, by, passed);
            self.stops.note(&self.inner, act);
            took_nothing(act)
        } else {
            let took = self.inner.take(by, wire, into);
            self.stops.note(&self.inner, act_taken(took));
            took
        }
    }

    fn arm(&mut self, member: MemberId, fuse: Fuse, n: u32)
        ensures arms { Arms member.0 (fused_view (P.view self.old.inner) self.old.halved.items self.old.stops
            self.old.arms.counts) (fused_view (P.view self.new.inner) self.new.halved.items self.new.stops
            self.new.arms.counts) }
        ensures armed { armed_of self.new.fuses ≡ with_fuse (armed_of self.old.fuses) member.0 fuse n }
        ensures inner { P.view self.new.inner ≡ P.view self.old.inner }
    {
        self.arms.count(member);
        self.fuses.arm(member, fuse, n);
    }

    fn renew(&mut self, dev: Dev) -> Act
        ensures acts { Renews dev (fused_view (P.view self.old.inner) self.old.halved.items self.old.stops
            self.old.arms.counts) (fused_view (P.view self.new.inner) self.new.halved.items self.new.stops
            self.new.arms.counts) result }
        ensures content { P.tells → RenewsThere dev
            (fused_view (P.view self.old.inner) self.old.halved.items self.old.stops self.old.arms.counts)
            (fused_view (P.view self.new.inner) self.new.halved.items self.new.stops self.new.arms.counts)
            result }
        ensures armed { armed_of self.new.fuses ≡ armed_of self.old.fuses }
    {
        self.inner.renew(dev)
    }

    fn lose(&mut self, dev: Dev) {
        self.inner.lose(dev);
    }
}
