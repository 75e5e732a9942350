//! Stops of a member between its acts, and stops that are armed.
ghost use Rattle.std.specs.Prelude.{◌≡◌, length};
ghost use Rattle.mas_complex.specs.Parts.{parts_of};
ghost use Rattle.member_lines.specs.Stops.{ArmsStop, Stops};

use crate::admissions::is_member;
use mas_complex::{Complex, Steady};
use mas_types::MemberId;
use spool_plant::{Fuse, Plant};

/// A member that is up stops between acts, and holds what it held. A stop of a stopped member, or of one above the
/// configured ones, does nothing.
pub fn stop_line<P: Plant + Drop, C: Steady + Drop>(complex: &mut Complex<P, C>, m: MemberId)
    requires { length complex.old.book.members ≡ complex.old.base.config.members }
    ensures { Stops m complex.old complex.new }
{
    if !is_member(&complex.base.config(), m) {
        return;
    }
    if complex.stopped(m) {
        return;
    }
    complex.stop(m);
}

/// Arms a stop of a member that is up: its `n`-th act from now, or its `n`-th print, is to halt, where the plant can
/// halt members. An `n` of 0 arms nothing. None is armed at a stopped member, or at one above the configured ones:
/// then nothing is changed. Nothing is said, and it is no act.
pub fn arm_line<P: Plant + Drop, C: Steady + Drop>(
    complex: &mut Complex<P, C>,
    m: MemberId,
    fuse: Fuse,
    n: u32,
)
    requires { length complex.old.book.members ≡ complex.old.base.config.members }
    ensures pair { complex.new.pair ≡ complex.old.pair }
    ensures frame { parts_of complex.new ≡ record (parts_of complex.old) { plant = complex.new.plant } }
    ensures arms { ArmsStop m complex.old complex.new }
{
    if !is_member(&complex.base.config(), m) {
        return;
    }
    if complex.stopped(m) {
        return;
    }
    complex.arm(m, fuse, n);
}
