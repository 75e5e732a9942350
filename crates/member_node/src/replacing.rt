//! How a member replaces a lost copy.
ghost use Rattle.std.specs.Prelude.{◌≡◌, ◌≤◌, None, length, true, IsErrOf, OnOk};
ghost use Rattle.spool_plant.specs.Acts.{Rose};
ghost use Rattle.spool_plant.specs.declared.plant.Part.TheVariants.{Disk};
ghost use Rattle.mas_complex.specs.ReplaceNo.TheVariants.{NotLost, BothLost, Failed};
ghost use Rattle.duplex_pair.specs.Halves.{IsBothLost, IsCkpt, other, pick};
ghost use Rattle.mas_complex.specs.Replacing.{IsFormed, Replaces, replace_stopped};
ghost use Rattle.mas_complex.specs.Elsewhere.{Elsewhere};
ghost use Rattle.mas_complex.specs.Locking.{MayAct};
ghost use Rattle.mas_complex.specs.Parts.{parts_of, replaced_in};

use crate::member::Member;
use mas_complex::{Complex, ReplaceNo, Steady};
use mas_types::Dev;
use spool_plant::Plant;

impl Member {
    ghost use Rattle.member_node.specs.Copies.{IsAtRest, first_of, second_of};
    ghost use Rattle.member_node.specs.Reads.{pages_had};

    /// Replaces the lost copy on a device by one of the pages that the member read last, or has. It holds the lock, and
    /// nothing is in flight. The device has the size that the pages need.
    ///
    /// After Ok the copy counts as alive and reads these pages, with all its room. NotLost comes exactly where it
    /// counted as alive, and BothLost exactly where neither copy did; NoMemory before the first act. Nothing is changed
    /// then. Failed comes only where the device's faults rose, and it is lost then; Halted only where the member was
    /// stopped in it. After these two the copy counts as lost as before.
    pub fn replace<P: Plant + Drop, C: Steady + Drop>(
        &self,
        complex: &mut Complex<P, C>,
        dev: Dev,
    ) -> Result<(), ReplaceNo>
        requires may { MayAct complex.old.book self.now.id }
        requires ckpt { IsCkpt dev }
        requires none { complex.old.current ≡ None }
        requires rests1 { IsAtRest P.tells (first_of complex.old) (pages_had self.now.behind self.now.room
            self.now.checkpoint.pages) }
        requires rests2 { IsAtRest P.tells (second_of complex.old) (pages_had self.now.behind self.now.room
            self.now.checkpoint.pages) }
        requires size { C.needs (length (pages_had self.now.behind self.now.room self.now.checkpoint.pages))
            ≤ (P.view complex.old.plant).size dev }
        ensures frame { parts_of complex.new ≡ replaced_in result dev (P.view complex.old.plant).now
            (P.view complex.new.plant).now (parts_of complex.new) (parts_of complex.old) }
        ensures other { other dev complex.new.pair.first complex.new.pair.second
            ≡ other dev complex.old.pair.first complex.old.pair.second }
        ensures alive { (pick dev complex.old.pair.first complex.old.pair.second).alive ≡ true
            → IsErrOf result NotLost }
        ensures not_lost { IsErrOf result NotLost
            → (pick dev complex.old.pair.first complex.old.pair.second).alive ≡ true }
        ensures dead { IsBothLost complex.old.pair.first.alive complex.old.pair.second.alive
            → IsErrOf result BothLost }
        ensures both { IsErrOf result BothLost
            → IsBothLost complex.old.pair.first.alive complex.old.pair.second.alive }
        ensures replaces { Replaces self.now.id.0 dev (replace_stopped result) (P.view complex.old.plant)
            (P.view complex.new.plant) }
        ensures failed { IsErrOf result Failed → Rose ((P.view complex.old.plant).faults (Disk dev))
            ((P.view complex.new.plant).faults (Disk dev)) }
        ensures lost { IsErrOf result Failed → (P.view complex.new.plant).lost (Disk dev) ≡ true }
        ensures formed { OnOk result (((pick dev complex.new.pair.first complex.new.pair.second).alive ≡ true)
            × IsFormed C.count C.room C.room_most C.ready
            (length (pages_had self.now.behind self.now.room self.now.checkpoint.pages)) dev
            (P.view complex.new.plant) (pick dev complex.new.pair.first complex.new.pair.second).copy) }
        ensures rests1 { IsAtRest P.tells (first_of complex.new) (pages_had self.now.behind self.now.room
            self.now.checkpoint.pages) }
        ensures rests2 { IsAtRest P.tells (second_of complex.new) (pages_had self.now.behind self.now.room
            self.now.checkpoint.pages) }
        ensures elsewhere { P.tells → Elsewhere dev (P.view complex.old.plant) (P.view complex.new.plant) }
    {
        complex.replace(self.id, dev, self.pages())
    }
}
