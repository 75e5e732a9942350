//! How far a batch in flight has come is seen on each copy.
ghost use Rattle.mas_complex.specs.Names.{Dev, IsConfig, page_bytes, page_count as page_count_lem, disk_now, Acted, IsCkpt, other, HasRoom, WasSeen, look_stopped, Rose, Disk, LookHalted as LookNoHalted};
ghost use Rattle.std.specs.Prelude.{◌≡◌, All, None, length, true, IfOk, IfSome, IsErrOf, OnErr};
ghost use Rattle.mas_complex.specs.CallCounts.{pair_of};
ghost use Rattle.mas_complex.specs.Elsewhere.{OnPair};
ghost use Rattle.mas_complex.specs.Journals.{entries_in};
ghost use Rattle.mas_complex.specs.Parts.{half_beside, half_on, parts_of, place_beside, place_on, with_copy};
ghost use Rattle.mas_complex.specs.Seen.{IfPages, IsPlaceSeen, HasNext, IsOneSeen, ReadsSeen, looked, sought, IsUsed};
ghost use Rattle.mas_complex.specs.Begins.{queue_with};

use crate::complex::Complex;
use crate::places::{place_seen, set_place};
use brief_queue::BriefQueue;
use ckpt_form::Steady;
use ckpt_tables::{law_of_page_sizes, page_count};
use duplex_pair::{Look, LookNo};
use mas_types::{Dev, List, MemberId, Page};
use spool_plant::Plant;
use std::alloc::Global;

// What a look at a copy gave, if its pages are as many as they should be; else the copy counts as one that can't be
// read.
fn usable(look: Look, count: usize) -> Look
    ensures used { IsUsed count look result }
    ensures sized { IfPages look (All (λ page. length page.0 ≡ page_bytes)) }
{
    match look {
        Look::Lost => Look::Lost,
        Look::Unread => Look::Unread,
        Look::Pages(pages) => {
            law_of_page_sizes(pages.as_slice());
            if pages.len() == count {
                Look::Pages(pages)
            } else {
                Look::Unread
            }
        }
    }
}

// How many pages a copy has.
fn pages_of(base: &BriefQueue) -> u16
    requires { IsConfig base.now.config }
    ensures { result ≡ page_count_lem base.now.config }
{
    page_count(&base.config())
}

impl<P: Plant + Drop, C: Steady + Drop> Complex<P, C> {
    // How far the batch in flight has come on the copy of one device, which counts as alive.
    fn look_on(&mut self, alloc: Global, by: MemberId, dev: Dev) -> Result<Look, LookNo>
        requires ckpt { IsCkpt dev }
        requires alive { (half_on dev self.old).alive ≡ true }
        ensures frame { parts_of self.new ≡ with_copy dev (parts_of self.new) (parts_of self.old) }
        ensures other { half_beside dev self.new ≡ half_beside dev self.old }
        ensures other_place { place_beside dev self.new ≡ place_beside dev self.old }
        ensures acted { Acted by.0 dev (half_on dev self.old).alive (half_on dev self.new).alive (look_stopped result)
            (P.view self.old.plant) (P.view self.new.plant) }
        ensures place { IsPlaceSeen result self.old.level (place_on dev self.new) }
        ensures seen { IfOk result (λ look. WasSeen C.count C.room C.room_most C.ready C.reads C.rests P.tells dev
            (P.view self.new.plant) (half_on dev self.old).copy (half_on dev self.new).copy
            (half_on dev self.new).alive look) }
        ensures next { IfOk result (λ look. P.tells → HasNext (queue_with self.old (entries_in self.old.current))
            (entries_in self.old.current) self.old.level (place_on dev self.new) look) }
        ensures room { IfOk result (λ look. P.tells → HasRoom C.room C.room_in (half_on dev self.new).copy look
            (disk_now (P.view self.new.plant) dev).bytes) }
        ensures same { OnErr result (half_on dev self.new ≡ half_on dev self.old) }
        ensures bytes { P.tells → (d : Dev)
            → (disk_now (P.view self.new.plant) d).bytes ≡ (disk_now (P.view self.old.plant) d).bytes }
        ensures leaves { OnPair P.tells by.0 (look_stopped result) (pair_of self.old) (pair_of self.new) }
    {
        let done = self.pair.look(alloc, &mut self.plant, by, dev);
        let place = place_seen(&done, self.level);
        set_place(dev, &mut self.first, &mut self.second, place);
        done
    }

    // The pages of the copy on one device; none of one that counts as lost. One that can't be read, or has other than
    // as many pages as the configuration, is lost.
    #[tactic(auto, using(crate::proofs::Counted::pair_none))]
    pub(crate) fn see_on(
        &mut self,
        alloc: Global,
        by: MemberId,
        dev: Dev,
    ) -> Result<Option<List<Page>>, LookNo>
        requires ckpt { IsCkpt dev }
        requires config { IsConfig self.old.base.config }
        ensures frame { parts_of self.new ≡ with_copy dev (parts_of self.new) (parts_of self.old) }
        ensures other { half_beside dev self.new ≡ half_beside dev self.old }
        ensures halted { IsErrOf result LookNoHalted
            → Rose ((P.view self.old.plant).stops by.0) ((P.view self.new.plant).stops by.0) }
        ensures stands { OnErr result ((half_on dev self.new).alive ≡ true) }
        ensures seen { IfOk result (λ pages. IsOneSeen P.tells (sought C.reads (parts_of self.old))
            (looked C.count C.room (half_on dev self.new) (place_on dev self.new)) pages) }
        ensures many { IfOk result (λ pages. IfSome pages (λ some. length some ≡ page_count_lem self.old.base.config)) }
        ensures reads { IfOk result (λ pages. P.tells
            → ReadsSeen C.reads (disk_now (P.view self.new.plant) dev).bytes pages) }
        ensures unseen { IfOk result (λ pages. P.tells → pages ≡ None → (half_on dev self.old).alive ≡ true
            → Rose ((P.view self.old.plant).faults (Disk dev)) ((P.view self.new.plant).faults (Disk dev))) }
        ensures was_alive { (half_on dev self.new).alive ≡ true → (half_on dev self.old).alive ≡ true }
        ensures leaves { OnPair P.tells by.0 (look_stopped result) (pair_of self.old) (pair_of self.new) }
        ensures room { IfOk result (λ pages. P.tells → IfSome pages (λ some. C.room
            (half_on dev self.new).copy ≡ C.room_in (disk_now (P.view self.new.plant) dev).bytes)) }
        ensures same { OnErr result (half_on dev self.new ≡ half_on dev self.old) }
        ensures bytes { P.tells → (d : Dev)
            → (disk_now (P.view self.new.plant) d).bytes ≡ (disk_now (P.view self.old.plant) d).bytes }
    {
        if !self.pair.alive(dev) {
            return Ok(None);
        }
        let count = pages_of(&self.base);
        let look = self.look_on(alloc, by, dev)?;
        match usable(look, count as usize) {
            Look::Pages(pages) => Ok(Some(pages)),
            Look::Lost => Ok(None),
            Look::Unread => {
                self.lose_copy(dev);
                Ok(None)
            }
        }
    }
}
