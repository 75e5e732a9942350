//! The moment, and what is counted.
ghost use Rattle.std.specs.Prelude.{◌≡◌, ◌<◌, ◌≤◌, ℕ, length, IfOk, map, slice_index, true, false};
ghost use Rattle.spool_plant.specs.Acts.{Acts, Arms, Loses, Renews, top};
ghost use Rattle.spool_plant.specs.declared.plant.Act.TheVariants.{Done, Failed};
ghost use Rattle.spool_plant.specs.declared.plant.Part.TheVariants.{Disk};
ghost use Rattle.spool_disk.specs.Health.{health_at};
ghost use Rattle.spool_disk.specs.Places.{slot_of, place_of};
ghost use Rattle.plant_files.specs.Lost.{lost_part};

use mas_types::{Dev, MemberId};
use spool_disk::{Counts, Health, place_number, slot_number};
use spool_plant::{Act, Part};
use std::alloc::{AllocError, Global};

#[derive(Drop)]
pub(crate) struct Tally {
    pub(crate) moment: u64,
    pub(crate) counts: Counts,
    // Nobody is ever stopped.
    ghost unstopped: { (m : ℕ) → slice_index counts.stops.items m ≡ 0 },
}

// Parts without a fault, of which these are lost.
fn parts_by(alloc: Global, lost: &[bool]) -> Result<Vec<Health>, AllocError>
    ensures { IfOk result (λ v. v.items ≡ map lost_part lost.now) }
{
    lost.iter()
        .map(|lost| Health {
            faults: 0,
            since: None,
            lost: *lost,
        })
        .collect(alloc)
}

impl Tally {
    ghost use Rattle.plant_files.specs.FileView.{tally_view, IsFresh, shown_of, done_by, failed_by, lost_by, renewed_by, armed_by};

    // No act was made, and these parts are lost, by their places.
    pub(crate) fn new(alloc: Global, lost: &[bool]) -> Result<Tally, AllocError>
        requires { length lost.now ≡ 1032 }
        ensures { IfOk result (λ t. IsFresh (tally_view t)) }
    {
        Ok(Tally {
            moment: 0,
            counts: Counts::new(alloc, parts_by(alloc, lost)?)?,
        })
    }

    pub(crate) fn lost(&self, part: Part) -> bool
        ensures { result ≡ (tally_view self.now).lost part }
    {
        self.counts.parts[place_number(part)].lost
    }

    // An act on a part may be tried now.
    pub(crate) fn may_act(&self, part: Part) -> bool
        ensures { result ≡ true → ((tally_view self.now).now < top) × ((tally_view self.now).lost part ≡ false) }
    {
        self.moment < u64::MAX && !self.lost(part)
    }

    // An act was done.
    fn finish(&mut self)
        requires { self.old.moment < top }
        ensures { shown_of self.new ≡ done_by (shown_of self.old) }
    {
        self.moment += 1;
    }

    // An act on a part failed.
    fn fail(&mut self, part: Part)
        ensures shown { shown_of self.new ≡ failed_by part (shown_of self.old) }
        ensures fits { (health_at self.old.counts.parts.items (place_of part)).faults ≤ top }
        ensures few { place_of part < 1032 }
        ensures small { self.old.moment ≤ top }
    {
        self.counts.fail(place_number(part), self.moment);
        self.moment = self.moment.saturating_add(1);
    }

    // Ends an act on a part, which was done or else failed.
    pub(crate) fn end_act(&mut self, part: Part, done: bool) -> Act
        requires { done ≡ true → ((tally_view self.old).now < top) × ((tally_view self.old).lost part ≡ false) }
        ensures acts { (by : ℕ) → Acts by part (tally_view self.old) (tally_view self.new) result }
        ensures done { done ≡ true → result ≡ Done }
        ensures failed { done ≡ false → result ≡ Failed }
    {
        if done {
            self.finish();
            Act::Done
        } else {
            self.fail(part);
            Act::Failed
        }
    }

    fn count_arm(&mut self, member: MemberId)
        ensures shown { shown_of self.new ≡ armed_by member.0 (shown_of self.old) }
        ensures few { member.0 < 256 }
    {
        self.counts.arm(member.0 as usize);
    }

    // A renewal may be tried now.
    pub(crate) fn may_renew(&self) -> bool
        ensures { result ≡ true → (tally_view self.now).now < top }
    {
        self.moment < u64::MAX
    }

    // Another device came in a device's place.
    fn note_renewal(&mut self, dev: Dev)
        requires { self.old.moment < top }
        ensures shown { shown_of self.new ≡ renewed_by dev (shown_of self.old) }
        ensures few { slot_of dev < 258 }
    {
        self.counts.renew(slot_number(dev));
        self.moment += 1;
    }

    // Ends a renewal, which was done or else failed.
    pub(crate) fn end_renewal(&mut self, dev: Dev, done: bool) -> Act
        requires { done ≡ true → (tally_view self.old).now < top }
        ensures { Renews dev (tally_view self.old) (tally_view self.new) result }
    {
        if done {
            self.note_renewal(dev);
            Act::Done
        } else {
            self.fail(Part::Disk(dev));
            Act::Failed
        }
    }

    // A stop of a member is armed, which only is counted.
    pub(crate) fn arm(&mut self, member: MemberId)
        ensures { Arms member.0 (tally_view self.old) (tally_view self.new) }
    {
        self.count_arm(member);
    }

    fn count_loss(&mut self, dev: Dev)
        ensures shown { shown_of self.new ≡ lost_by dev (shown_of self.old) }
        ensures fits { slice_index self.old.counts.loses.items (slot_of dev) ≤ top }
        ensures few { slot_of dev < 258 }
        ensures small { self.old.moment ≤ top }
    {
        self.counts.lose(slot_number(dev), self.moment);
        self.moment = self.moment.saturating_add(1);
    }

    // A device is lost.
    pub(crate) fn lose(&mut self, dev: Dev)
        ensures { Loses (Disk dev) (tally_view self.old) (tally_view self.new) }
    {
        self.count_loss(dev);
    }
}
