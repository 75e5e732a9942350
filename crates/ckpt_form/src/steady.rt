//! Copies that a shared value may have.
ghost use Rattle.std.specs.Prelude.{◌≡◌, ◌≤◌, ℕ, Bool, true};
ghost use Rattle.mas_types.specs.declared.ids.Dev.{Dev};
ghost use Rattle.spool_plant.specs.View.{View};
ghost use Rattle.spool_plant.specs.Acts.{Goes};
ghost use Rattle.ckpt_form.specs.Fits.{is_fit, fit_kept, kept_fit, fit_stays, some_room};

use crate::form::CopyForm;
use ckpt_copy::Copying;

/// A copy of which a test says that it is ready, so that a type can keep that it is.
pub trait Steady: Copying {
    /// The test.
    ghost fits: { Self → View → Bool };

    /// What passes it is ready.
    ghost fit_ready: { (copy : Self) (v : View) → fits copy v ≡ true → Self.ready copy v };

    /// What is ready passes it.
    ghost ready_fit: { (copy : Self) (v : View) → Self.ready copy v → fits copy v ≡ true };

    /// Any acts leave it as it is.
    ghost stays_fit: { (copy : Self) (old new : View) → Goes old new → fits copy old ≡ true → fits copy new ≡ true };

    /// It rests on the sizes of the devices alone: a stop that is armed, which is no act, leaves it too.
    ghost sizes_fit: { (copy : Self) (old new : View) → ((d : Dev) → new.size d ≡ old.size d) → fits copy old ≡ true
        → fits copy new ≡ true };

    /// One that was settled has room for a put.
    ghost has_room: { 1 ≤ Self.room_most };
}

impl Steady for CopyForm {
    ghost fits = { λ c v. is_fit c.pages (v.size c.dev) c.gates c.places c.next_places };

    ghost fit_ready = { λ c v fit. fit_kept c.pages (v.size c.dev) c.gates c.places c.next_places fit };

    ghost ready_fit = { λ c v ready. kept_fit c.pages (v.size c.dev) c.gates c.places c.next_places ready };

    ghost stays_fit = { λ c old new goes fit.
        fit_stays c.pages (old.size c.dev) (new.size c.dev) c.gates c.places c.next_places (goes.size c.dev) fit };

    ghost sizes_fit = { λ c old new same fit.
        fit_stays c.pages (old.size c.dev) (new.size c.dev) c.gates c.places c.next_places (same c.dev) fit };

    ghost has_room = { some_room };
}
