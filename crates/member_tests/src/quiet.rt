//! A plant in memory that tells nothing of what it holds.
ghost use Rattle.std.specs.Prelude.{◌≡◌, ◌≤◌, ℕ};

use mas_types::{Dev, MemberId};
use spool_disk::MemPlant;
use spool_plant::{Act, Fuse, Part, Plant, Took};

#[derive(Drop)]
pub(crate) struct Quiet {
    pub(crate) plant: MemPlant,
}

impl Plant for Quiet {
    ghost tells = { ⊥ };

    ghost view = { λ q. ⟦<MemPlant as Plant>⟧.view q.plant };

    fn now(&self) -> u64 {
        self.plant.now()
    }

    fn size(&self, dev: Dev) -> u64 {
        self.plant.size(dev)
    }

    fn lost(&self, part: Part) -> bool {
        self.plant.lost(part)
    }

    fn read(&mut self, by: MemberId, dev: Dev, at: u64, into: &mut [u8]) -> Act {
        self.plant.read(by, dev, at, into)
    }

    fn write(&mut self, by: MemberId, dev: Dev, at: u64, bytes: &[u8]) -> Act {
        self.plant.write(by, dev, at, bytes)
    }

    fn sync(&mut self, by: MemberId, dev: Dev) -> Act {
        self.plant.sync(by, dev)
    }

    fn say(&mut self, by: MemberId, line: &[u8]) -> Act {
        self.plant.say(by, line)
    }

    fn print(&mut self, by: MemberId, line: &[u8]) -> Act {
        self.plant.print(by, line)
    }

    fn give(&mut self, by: MemberId, wire: u8, bytes: &[u8]) -> Act {
        self.plant.give(by, wire, bytes)
    }

    fn take(&mut self, by: MemberId, wire: u8, into: &mut [u8]) -> Took {
        self.plant.take(by, wire, into)
    }

    fn arm(&mut self, member: MemberId, fuse: Fuse, n: u32) {
        self.plant.arm(member, fuse, n);
    }

    fn renew(&mut self, dev: Dev) -> Act {
        self.plant.renew(dev)
    }

    fn lose(&mut self, dev: Dev) {
        self.plant.lose(dev);
    }

    ghost sized = { λ p told t le d. absurd told };

    ghost there = { λ p told d is. absurd told };

    ghost halts_none = { ⊥ };

    ghost unstopped = { λ q never member. absurd never };

    ghost halts_armed = { ⊥ };

    ghost unarmed = { λ q never member none. absurd never };
}
