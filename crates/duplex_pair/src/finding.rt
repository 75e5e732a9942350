//! The pages that two copies give together.
ghost use Rattle.std.specs.Prelude.{◌≡◌, ◌≢◌, ◌⊎◌, ◌&&◌, not, ℕ, OnOk, OnErr, IfOk, IsErrOf, true, false};
ghost use Rattle.mas_types.specs.declared.ids.Dev.{Dev as DevLem};
ghost use Rattle.mas_types.specs.declared.ids.Dev.TheVariants.{Ckpt1, Ckpt2};
ghost use Rattle.spool_plant.specs.View.{disk_now};
ghost use Rattle.spool_plant.specs.Acts.{Goes, Loses};
ghost use Rattle.spool_plant.specs.declared.plant.Part.{Part};
ghost use Rattle.spool_plant.specs.declared.plant.Part.TheVariants.{Disk};
ghost use Rattle.ckpt_copy.specs.Changes.{NoMore};
ghost use Rattle.ckpt_copy.specs.Pages.{bytes_of, level};
ghost use Rattle.duplex_pair.specs.declared.errors.PairFindNo.TheVariants.{BothLost as FindNoBothLost, NotValid as FindNoNotValid};
ghost use Rattle.ckpt_copy.specs.Meanwhile.{Meanwhile};
ghost use Rattle.ckpt_copy.specs.Reading.{IsNone};
ghost use Rattle.duplex_pair.specs.Halves.{IsCkpt, pick, other, IsBothLost, SomeAlive};
ghost use Rattle.duplex_pair.specs.Both.{BothMeanwhile};
ghost use Rattle.duplex_pair.specs.Finds.{PairFound};
ghost use Rattle.duplex_pair.specs.Outcomes.{find_stopped};
ghost use Rattle.duplex_pair.specs.Founds.{better, chosen, goes_away, WasChosen};

use crate::errors::{Look, PairFindNo};
use crate::pages::pages_level;
use crate::pair::Pair;
use ckpt_copy::Copying;
use mas_types::{Dev, List, MemberId, Page};
use spool_plant::Plant;
use std::alloc::Global;

/// The pages of greater level, the first where they have one level.
pub fn better_of(one: List<Page>, two: List<Page>) -> List<Page>
    ensures { result ≡ better one two }
{
    if pages_level(one.as_slice()) < pages_level(two.as_slice()) {
        two
    } else {
        one
    }
}

fn chosen_of(first: Look, second: Look) -> Result<List<Page>, PairFindNo>
    ensures { result ≡ chosen first second }
{
    match (first, second) {
        (Look::Pages(one), Look::Pages(two)) => Ok(better_of(one, two)),
        (Look::Pages(one), Look::Lost) => Ok(one),
        (Look::Pages(one), Look::Unread) => Ok(one),
        (Look::Lost, Look::Pages(two)) => Ok(two),
        (Look::Unread, Look::Pages(two)) => Ok(two),
        (Look::Lost, Look::Lost) => Err(PairFindNo::BothLost),
        (Look::Lost, Look::Unread) => Err(PairFindNo::NotValid),
        (Look::Unread, Look::Lost) => Err(PairFindNo::NotValid),
        (Look::Unread, Look::Unread) => Err(PairFindNo::NotValid),
    }
}

// A copy that can't be read goes where the other can.
fn is_to_go(look: &Look, other: &Look) -> bool
    ensures { result ≡ goes_away look.now other.now }
{
    matches!(look, Look::Unread) && matches!(other, Look::Pages(_))
}

impl<C: Copying + Drop> Pair<C> {
    fn lose_where<P: Plant>(&mut self, plant: &mut P, dev: Dev, goes: bool)
        requires ckpt { IsCkpt dev }
        ensures other { other dev self.new.first self.new.second ≡ other dev self.old.first self.old.second }
        ensures copy { (pick dev self.new.first self.new.second).copy ≡ (pick dev self.old.first self.old.second).copy }
        ensures found { (pick dev self.new.first self.new.second).found
            ≡ (pick dev self.old.first self.old.second).found }
        ensures alive { (pick dev self.new.first self.new.second).alive
            ≡ ((pick dev self.old.first self.old.second).alive && not goes) }
        ensures goes { Goes (P.view plant.old) (P.view plant.new) }
        ensures loses { goes ≡ true → Loses (Disk dev) (P.view plant.old) (P.view plant.new) }
        ensures is_lost { goes ≡ true → (P.view plant.new).lost (Disk dev) ≡ true }
        ensures else_lost { (p : Part) → (p ≢ Disk dev) ⊎ (goes ≡ false)
            → (P.view plant.new).lost p ≡ (P.view plant.old).lost p }
        ensures during { P.tells → Meanwhile dev (NoMore (disk_now (P.view plant.old) dev)) (P.view plant.old)
            (P.view plant.new) }
        ensures idle { goes ≡ false → plant.new ≡ plant.old }
    {
        if goes {
            self.lose(plant, dev);
        }
    }

    /// Finds the pages of greatest level, those of CKPT1 on a tie: each copy is synced and then read. One that can't be
    /// read is lost, by one call, where the other can. The device of a copy that counts as lost has to be lost.
    ///
    /// After an error no copy was lost by a call. BothLost comes exactly where both copies count as lost after the
    /// looks, NotValid exactly where one doesn't and none reads. At each moment of the call an image of a copy is one
    /// of before it. Halted comes only where the member was stopped inside the call, NoMemory only when out of memory.
    pub fn find<P: Plant>(
        &mut self,
        alloc: Global,
        plant: &mut P,
        by: MemberId,
    ) -> Result<List<Page>, PairFindNo>
        requires lost1 { self.old.first.alive ≡ false → (P.view plant.old).lost (Disk Ckpt1) ≡ true }
        requires lost2 { self.old.second.alive ≡ false → (P.view plant.old).lost (Disk Ckpt2) ≡ true }
        ensures acted { PairFound by.0 self.old.first.alive self.new.first.alive self.old.second.alive
            self.new.second.alive (find_stopped result) (P.view plant.old) (P.view plant.new) }
        ensures unlost { OnErr result ((d : DevLem) → (P.view plant.new).loses d ≡ (P.view plant.old).loses d) }
        ensures lost1 { self.new.first.alive ≡ false → (P.view plant.new).lost (Disk Ckpt1) ≡ true }
        ensures lost2 { self.new.second.alive ≡ false → (P.view plant.new).lost (Disk Ckpt2) ≡ true }
        ensures both { IsErrOf result FindNoBothLost → IsBothLost self.new.first.alive self.new.second.alive }
        ensures not_valid { IsErrOf result FindNoNotValid → SomeAlive self.new.first.alive self.new.second.alive }
        ensures none1 { IsErrOf result FindNoNotValid → P.tells → self.new.first.alive ≡ true
            → IsNone C.reads (disk_now (P.view plant.new) Ckpt1) }
        ensures none2 { IsErrOf result FindNoNotValid → P.tells → self.new.second.alive ≡ true
            → IsNone C.reads (disk_now (P.view plant.new) Ckpt2) }
        ensures found { IfOk result (λ pages.
            WasChosen C.count C.room C.room_most C.ready C.rests P.tells (P.view plant.new) self.new.first.copy
            self.new.first.alive self.new.first.found self.new.second.copy self.new.second.alive self.new.second.found
            pages) }
        ensures during { P.tells → BothMeanwhile (NoMore (disk_now (P.view plant.old) Ckpt1))
            (NoMore (disk_now (P.view plant.old) Ckpt2)) (P.view plant.old) (P.view plant.new) }
    {
        let first = self.look(alloc, plant, by, Dev::Ckpt1)?;
        let second = self.look(alloc, plant, by, Dev::Ckpt2)?;
        let first_goes = is_to_go(&first, &second);
        let second_goes = is_to_go(&second, &first);
        self.lose_where(plant, Dev::Ckpt1, first_goes);
        self.lose_where(plant, Dev::Ckpt2, second_goes);
        chosen_of(first, second)
    }
}
