//! How a sitting ends: the step's next state, and what becomes of the lock.
ghost use Rattle.std.specs.Prelude.{◌≡◌};
ghost use Rattle.member_sittings.specs.Names.{released};

use step_turns::{Grant, Holder, Release, State};

/// What a sitting leaves of its step.
#[derive(Drop)]
pub struct SittingEnd {
    /// Where the step stands.
    pub next: State,
    /// How many commands were given in the sitting: so many less are left of the member's hold.
    pub given: u64,
    /// What becomes of the lock.
    pub release: Release,
}

/// What becomes of the lock after so many commands. One that was taken for the step is given up at each sitting's end.
/// One that the operator took is kept, except at the end of a step in which its hold is spent.
pub fn release_of(holder: Holder, given: u64, next: &State) -> Release
    ensures { result ≡ released holder.grant holder.hold given next.now }
{
    let told = matches!(next, State::Told);
    match holder.grant {
        Grant::ForStep if told => Release::Outer,
        Grant::ForStep => Release::Inner,
        Grant::ByLock if told && holder.hold as u64 <= given => Release::Outer,
        Grant::ByLock => Release::Keep,
    }
}
