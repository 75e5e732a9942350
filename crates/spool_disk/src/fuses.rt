//! Stops that are armed.
ghost use Rattle.std.specs.Prelude.{◌≡◌, ◌<◌, true};
ghost use Rattle.spool_disk.specs.Fuses.{sooner, none_armed, halts_next, to_halt, burnt, with_fuse};

use mas_types::MemberId;
use spool_plant::Fuse;

// The sooner of two stops, where 0 is none.
fn sooner_of(first: u32, second: u32) -> u32
    ensures { result ≡ sooner first second }
{
    if first == 0 {
        second
    } else if second == 0 {
        first
    } else {
        first.min(second)
    }
}

/// The armed stops of all members. Of two stops of a kind the sooner one stays.
#[derive(Drop)]
pub struct Fuses {
    /// For each member the acts up to the one that halts, 0 where none is armed.
    acts: [u32; 256],
    /// For each member the prints up to the one that halts, 0 where none is armed.
    prints: [u32; 256],
}

impl Fuses {
    ghost use Rattle.spool_disk.specs.FuseView.{armed_of};

    /// Nothing is armed.
    pub fn new() -> Fuses
        ensures { armed_of result ≡ none_armed }
    {
        Fuses {
            acts: [0; 256],
            prints: [0; 256],
        }
    }

    /// Arms the n-th act of a member from now, of any kind, or its n-th print. With an `n` of 0 nothing is armed.
    pub fn arm(&mut self, member: MemberId, fuse: Fuse, n: u32)
        ensures { armed_of self.new ≡ with_fuse (armed_of self.old) member.0 fuse n }
    {
        let at = member.0 as usize;
        match fuse {
            Fuse::Any => self.acts[at] = sooner_of(self.acts[at], n),
            Fuse::Print => self.prints[at] = sooner_of(self.prints[at], n),
        }
    }

    /// The next act of a member halts, if it is a print or if it isn't.
    pub fn halts(&self, by: MemberId, prints: bool) -> bool
        ensures { result ≡ halts_next (armed_of self.now) by.0 prints }
    {
        let at = by.0 as usize;
        self.acts[at] == 1 || (prints && self.prints[at] == 1)
    }

    /// A member makes an act.
    pub fn burn(&mut self, by: MemberId, prints: bool)
        ensures { armed_of self.new ≡ burnt (armed_of self.old) by.0 prints }
    {
        let at = by.0 as usize;
        self.acts[at] = self.acts[at].saturating_sub(1);
        if prints {
            self.prints[at] = self.prints[at].saturating_sub(1);
        }
    }

    /// A member makes an act, and it is told whether the act is to halt. The operator's acts never are.
    pub fn fire(&mut self, by: MemberId, prints: bool) -> bool
        ensures halts { result ≡ to_halt (armed_of self.old) by.0 prints }
        ensures burnt { armed_of self.new ≡ burnt (armed_of self.old) by.0 prints }
        ensures member { result ≡ true → 0 < by.0 }
    {
        let halts = by.0 > 0 && self.halts(by, prints);
        self.burn(by, prints);
        halts
    }
}
