//! Acts on the spool volumes.
ghost use Rattle.mas_complex.specs.Names.{page_bytes, Spool, Acts, Syncs, Disk, volume_of, start_of};
ghost use Rattle.std.specs.Prelude.{◌≡◌, ◌≤◌, ◌<◌, ◌*◌, length, false};
ghost use Rattle.mas_complex.specs.Journals.{entries_in};
ghost use Rattle.mas_complex.specs.Locking.{IsUp};
ghost use Rattle.mas_complex.specs.Spool.{IsGroupOf, IsVolumeOf, IsHeldBy, device_of, is_within, ReadsGroup, WritesGroup};
ghost use Rattle.mas_complex.specs.Texts.{HasTexts, lost_now, spools_at};
ghost use Rattle.mas_complex.specs.TextExamples.{WorkedTexts};
ghost use Rattle.mas_complex.specs.Parts.{parts_of};
ghost use Rattle.mas_complex.specs.Begins.{kept_queue, queue_with};

use crate::complex::Complex;
use brief_queue::BriefQueue;
use ckpt_form::Steady;
use mas_types::limits::PAGE_BYTES;
use mas_types::{Dev, GroupNo, MemberId, Page};
use spool_plant::{Act, Plant};
use track_groups::law_of_places;

/// Worked examples of texts on the volumes.
pub fn examples_of_texts()
    ensures { WorkedTexts }
{}

// The device on which a group lies, where there are so many volumes with so many groups each.
fn device(volumes: u8, per: u32, group: GroupNo) -> Dev
    requires some { 1 ≤ per }
    requires placed { volume_of per group ≤ volumes }
    ensures { result ≡ device_of per group }
{
    prove!((group.0 / per) as u64 + 1 <= volumes as u64);
    Dev::Spool((group.0 / per) as u8 + 1)
}

// Where the group's page begins on its volume.
fn start(per: u32, group: GroupNo) -> u64
    requires { 1 ≤ per }
    ensures { result ≡ start_of per group }
{
    PAGE_BYTES as u64 * (group.0 % per) as u64
}

// The page of a group is read where there are so many volumes with so many groups each, or no byte from a volume that
// is too small for it.
#[tactic(auto, using(crate::proofs::Basics::few_quotient))]
fn read_place<P: Plant>(
    plant: &mut P,
    by: MemberId,
    volumes: u8,
    per: u32,
    group: GroupNo,
    into: &mut Page,
) -> Act
    requires some { 1 ≤ per }
    requires placed { group.0 < volumes * per }
    ensures acts { Acts by.0 (Disk (device_of per group)) (P.view plant.old) (P.view plant.new) result }
    ensures content { P.tells → ReadsGroup per group (P.view plant.old) (P.view plant.new) into.new result }
    ensures nowhere { is_within (P.view plant.old) per group ≡ false → into.new ≡ into.old }
{
    let dev = device(volumes, per, group);
    let at = start(per, group);
    if at + PAGE_BYTES as u64 <= plant.size(dev) {
        plant.read(by, dev, at, &mut into.0)
    } else {
        plant.read(by, dev, 0, &mut [])
    }
}

// The page of a group is written where there are so many volumes with so many groups each, or no byte to a volume that
// is too small for it.
#[tactic(auto, using(crate::proofs::Basics::few_quotient))]
fn write_place<P: Plant>(
    plant: &mut P,
    by: MemberId,
    volumes: u8,
    per: u32,
    group: GroupNo,
    bytes: &Page,
) -> Act
    requires some { 1 ≤ per }
    requires placed { group.0 < volumes * per }
    ensures acts { Acts by.0 (Disk (device_of per group)) (P.view plant.old) (P.view plant.new) result }
    ensures content { P.tells → WritesGroup per group (P.view plant.old) (P.view plant.new) bytes.now result }
    ensures whole { length bytes.now.0 ≡ page_bytes }
{
    let dev = device(volumes, per, group);
    let at = start(per, group);
    if at + PAGE_BYTES as u64 <= plant.size(dev) {
        plant.write(by, dev, at, &bytes.0)
    } else {
        plant.write(by, dev, 0, &[])
    }
}

// The page of a group of the queue's configuration is read.
fn read_group<P: Plant>(
    plant: &mut P,
    by: MemberId,
    base: &BriefQueue,
    group: GroupNo,
    into: &mut Page,
) -> Act
    requires { IsGroupOf base.now.config group }
    ensures acts { Acts by.0 (Disk (device_of base.now.config.groups group)) (P.view plant.old) (P.view plant.new)
        result }
    ensures content { P.tells → ReadsGroup base.now.config.groups group (P.view plant.old) (P.view plant.new) into.new
        result }
    ensures nowhere { is_within (P.view plant.old) base.now.config.groups group ≡ false → into.new ≡ into.old }
{
    let shape = base.config();
    read_place(plant, by, shape.volumes, shape.groups as u32, group, into)
}

// The page of a group of the queue's configuration is written.
fn write_group<P: Plant>(
    plant: &mut P,
    by: MemberId,
    base: &BriefQueue,
    group: GroupNo,
    bytes: &Page,
) -> Act
    requires { IsGroupOf base.now.config group }
    ensures acts { Acts by.0 (Disk (device_of base.now.config.groups group)) (P.view plant.old) (P.view plant.new)
        result }
    ensures content { P.tells → WritesGroup base.now.config.groups group (P.view plant.old) (P.view plant.new)
        bytes.now result }
    ensures whole { length bytes.now.0 ≡ page_bytes }
{
    let shape = base.config();
    write_place(plant, by, shape.volumes, shape.groups as u32, group, bytes)
}

impl<P: Plant + Drop, C: Steady + Drop> Complex<P, C> {
    /// Reads the page of a group of the configuration, for a member that isn't stopped. It needs no lock. Where the
    /// page doesn't lie within its volume, the act is one of no bytes at the volume's start, and `into` is as it was.
    ///
    /// Failed comes only where the volume's faults rose, and it is lost then; Halted only where the member was stopped
    /// in it.
    pub fn spool_read(&mut self, by: MemberId, group: GroupNo, into: &mut Page) -> Act
        requires up { IsUp self.old.book by }
        requires group { IsGroupOf self.old.base.config group }
        ensures pair { self.new.pair ≡ self.old.pair }
        ensures base { self.new.base ≡ self.old.base }
        ensures since { self.new.since ≡ self.old.since }
        ensures renewals { self.new.renewals ≡ self.old.renewals }
        ensures printed { self.new.printed ≡ self.old.printed }
        ensures book { self.new.book ≡ self.old.book }
        ensures journal { self.new.journal ≡ self.old.journal }
        ensures current { self.new.current ≡ self.old.current }
        ensures reserved { self.new.reserved ≡ self.old.reserved }
        ensures placed { self.new.placed ≡ self.old.placed }
        ensures first { self.new.first ≡ self.old.first }
        ensures second { self.new.second ≡ self.old.second }
        ensures level { self.new.level ≡ self.old.level }
        ensures acts { Acts by.0 (Disk (device_of self.old.base.config.groups group)) (P.view self.old.plant)
            (P.view self.new.plant) result }
        ensures content { P.tells → ReadsGroup self.old.base.config.groups group (P.view self.old.plant)
            (P.view self.new.plant) into.new result }
        ensures nowhere { is_within (P.view self.old.plant) self.old.base.config.groups group ≡ false
            → into.new ≡ into.old }
        ensures frame { parts_of self.new ≡ record (parts_of self.old) { plant = self.new.plant } }
    {
        read_group(&mut self.plant, by, &self.base, group, into)
    }

    /// Writes the page of a group of the configuration, for a member that isn't stopped. It needs no lock. The group is
    /// the member's, in the queue after the kept entries and in the one with those in flight, so no text of a deck or
    /// an output stands in it. The page is unsynced until the volume is synced. Where it doesn't lie within its volume,
    /// the act is one of no bytes at the volume's start.
    ///
    /// Failed comes only where the volume's faults rose, and it is lost then; Halted only where the member was stopped
    /// in it.
    pub fn spool_write(&mut self, by: MemberId, group: GroupNo, bytes: &Page) -> Act
        requires up { IsUp self.old.book by }
        requires group { IsGroupOf self.old.base.config group }
        requires kept { P.tells → IsHeldBy by group (kept_queue self.old) }
        requires flying { P.tells → IsHeldBy by group (queue_with self.old (entries_in self.old.current)) }
        ensures pair { self.new.pair ≡ self.old.pair }
        ensures base { self.new.base ≡ self.old.base }
        ensures since { self.new.since ≡ self.old.since }
        ensures renewals { self.new.renewals ≡ self.old.renewals }
        ensures printed { self.new.printed ≡ self.old.printed }
        ensures book { self.new.book ≡ self.old.book }
        ensures journal { self.new.journal ≡ self.old.journal }
        ensures current { self.new.current ≡ self.old.current }
        ensures reserved { self.new.reserved ≡ self.old.reserved }
        ensures placed { self.new.placed ≡ self.old.placed }
        ensures first { self.new.first ≡ self.old.first }
        ensures second { self.new.second ≡ self.old.second }
        ensures level { self.new.level ≡ self.old.level }
        ensures acts { Acts by.0 (Disk (device_of self.old.base.config.groups group)) (P.view self.old.plant)
            (P.view self.new.plant) result }
        ensures content { P.tells → WritesGroup self.old.base.config.groups group (P.view self.old.plant)
            (P.view self.new.plant) bytes.now result }
        ensures frame { parts_of self.new ≡ record (parts_of self.old) { plant = self.new.plant } }
    {
        law_of_places();
        write_group(&mut self.plant, by, &self.base, group, bytes)
    }

    /// Syncs a spool volume of the configuration, or the one of the stream, for a member that isn't stopped. Nothing on
    /// it is unsynced once that is done.
    ///
    /// Failed comes only where the volume's faults rose, and it is lost then; Halted only where the member was stopped
    /// in it.
    pub fn spool_sync(&mut self, by: MemberId, volume: u8) -> Act
        requires up { IsUp self.old.book by }
        requires volume { IsVolumeOf self.old.base.config volume }
        ensures pair { self.new.pair ≡ self.old.pair }
        ensures base { self.new.base ≡ self.old.base }
        ensures since { self.new.since ≡ self.old.since }
        ensures renewals { self.new.renewals ≡ self.old.renewals }
        ensures printed { self.new.printed ≡ self.old.printed }
        ensures book { self.new.book ≡ self.old.book }
        ensures journal { self.new.journal ≡ self.old.journal }
        ensures current { self.new.current ≡ self.old.current }
        ensures reserved { self.new.reserved ≡ self.old.reserved }
        ensures placed { self.new.placed ≡ self.old.placed }
        ensures first { self.new.first ≡ self.old.first }
        ensures second { self.new.second ≡ self.old.second }
        ensures level { self.new.level ≡ self.old.level }
        ensures acts { Acts by.0 (Disk (Spool volume)) (P.view self.old.plant) (P.view self.new.plant) result }
        ensures content { P.tells → Syncs (Spool volume) (P.view self.old.plant) (P.view self.new.plant) result }
        ensures frame { parts_of self.new ≡ record (parts_of self.old) { plant = self.new.plant } }
    {
        self.plant.sync(by, Dev::Spool(volume))
    }

    /// The texts of the queue after the kept batches stand on the spool volumes, all of them synced, except those with
    /// a group on a volume that is lost; and so do those of the queue with the batch in flight.
    pub fn kept_texts(&self)
        ensures kept { P.tells → ∥ HasTexts (lost_now (P.view self.now.plant)) (spools_at (P.view self.now.plant)
            (P.view self.now.plant).now) self.now.base.config.groups (kept_queue self.now) ∥₁ }
        ensures coming { P.tells → ∥ HasTexts (lost_now (P.view self.now.plant)) (spools_at (P.view self.now.plant)
            (P.view self.now.plant).now) self.now.base.config.groups (queue_with self.now
            (entries_in self.now.current)) ∥₁ }
    {}
}
