//! A copy in the log form.
ghost use Rattle.std.specs.Prelude.{◌≡◌, ℕ, ◌+◌, ◌-◌, ◌≤◌, ◌<◌};
ghost use Rattle.ckpt_copy.specs.Pages.{page_in};
ghost use Rattle.change_log.specs.Logs.{log_size, room_in, free_after, slots};
ghost use Rattle.change_log.specs.Logs.{reads as log_reads};
ghost use Rattle.change_log.specs.LogRests.{IsKept, Rests, Holds, SlotWritten, next_slot};
ghost use Rattle.change_log.specs.LogRests.{behind as log_behind};
ghost use Rattle.change_log.specs.LogStaying.{kept_stays, kept_count, rests_all, rests_bytes, log_rests_stays, log_holds_stays, log_holds_behind, log_blank};

use crate::finding::{read_head, read_pages, read_slots};
use crate::layout::{BLOCK, SLOTS, free_slots, gate_at, image_place, size_of_log};
use crate::places::{PLACES, home_places, lay_images};
use crate::writing::{settle_slots, write_formed, write_slot};
use ckpt_copy::acts::{read_act, sync_act, write_synced};
use ckpt_copy::{CopyNo, Copying, FindNo, GATE_CLOSED, GATE_OPEN, VALID_AT};
use mas_types::limits::PAGE_BYTES;
use mas_types::{Dev, List, MemberId, Page};
use spool_plant::Plant;
use std::alloc::Global;

/// Home pages, and slots with the pages that changed since.
#[derive(Clone, Copy)]
pub struct LogCopy {
    /// The device that it is on.
    dev: Dev,
    /// How many pages it has.
    pages: u16,
    // Which slots are open.
    gates: [bool; SLOTS as usize],
    // The block in which each page stands.
    places: [u16; PLACES],
    // The block in which each page stands once the slot that the last put wrote is open.
    next_places: [u16; PLACES],
}

impl LogCopy {
    /// A copy on a device, of so many pages until `form` or `find` says otherwise. Nothing is read.
    pub fn new(dev: Dev, pages: u16) -> LogCopy
        ensures dev { ⟦<LogCopy as Copying>⟧.dev result ≡ dev }
        ensures count { ⟦<LogCopy as Copying>⟧.count result ≡ pages }
    {
        LogCopy {
            dev,
            pages,
            gates: [false; SLOTS as usize],
            places: home_places(),
            next_places: home_places(),
        }
    }

    // The slot that the next put writes.
    fn next_slot(&self) -> u8
        ensures { result ≡ next_slot self.now.gates }
    {
        SLOTS - free_slots(&self.gates)
    }
}

impl Copying for LogCopy {
    ghost dev = { λ c. c.dev };

    ghost count = { λ c. c.pages };

    ghost needs = { log_size };

    ghost room = { λ c. free_after 0 c.gates };

    ghost room_most = { slots };

    ghost room_after = { λ room. room - 1 };

    ghost ready = { λ c v. IsKept c.pages (v.size c.dev) c.gates c.places c.next_places };

    ghost reads = { log_reads };

    ghost behind = { λ c bytes. log_behind c.pages c.next_places bytes };

    ghost written = { λ c numbers pages disk. SlotWritten c.pages (next_slot c.gates) numbers pages disk };

    ghost room_in = { room_in };

    ghost rests = { λ c was disk. Rests c.pages c.gates c.places was disk };

    ghost holds = { λ c was next disk. Holds c.pages c.gates c.places c.next_places was next disk };

    ghost stays_ready = { λ c old new goes ready.
        kept_stays c.pages (old.size c.dev) (new.size c.dev) c.gates c.places c.next_places (goes.size c.dev) ready };

    ghost ready_count = { λ c v ready. kept_count c.pages (v.size c.dev) c.gates c.places c.next_places ready };

    ghost rests_reads = { λ c pages disk rests. rests_all c.pages c.gates c.places pages disk rests };

    ghost rests_now = { λ c pages disk rests. rests_bytes c.pages c.gates c.places pages disk rests };

    ghost holds_reads = { λ c was next disk holds. rests_all c.pages c.gates c.places was disk holds.rests };

    ghost holds_rests = { λ c was next disk holds. holds.rests };

    ghost rests_stays = { λ c pages old new stays rests.
        log_rests_stays old new stays c.pages c.gates c.places pages rests };

    ghost holds_stays = { λ c was next old new stays holds.
        log_holds_stays old new stays c.pages c.gates c.places c.next_places was next holds };

    ghost blank_reads = { λ size image differs. log_blank size image differs };

    ghost holds_behind = { λ c was next disk holds.
        log_holds_behind c.pages c.gates c.places c.next_places was next disk holds };

    fn size_for(pages: u16) -> u64 {
        size_of_log(pages)
    }

    fn room(&self) -> u8 {
        free_slots(&self.gates)
    }

    fn form<P: Plant>(
        &mut self,
        plant: &mut P,
        by: MemberId,
        pages: &[Page],
    ) -> Result<(), CopyNo> {
        write_synced(plant, by, self.dev, VALID_AT, &[GATE_CLOSED])?;
        write_formed(plant, by, self.dev, pages)?;
        write_synced(plant, by, self.dev, VALID_AT, &[GATE_OPEN])?;
        self.pages = pages.len() as u16;
        self.gates = [false; SLOTS as usize];
        self.places = home_places();
        self.next_places = self.places;
        Ok(())
    }

    fn find<P: Plant>(
        &mut self,
        alloc: Global,
        plant: &mut P,
        by: MemberId,
    ) -> Result<List<Page>, FindNo> {
        let dev = self.dev;
        sync_act(plant, by, dev)?;
        let Some(head) = read_head(plant, by, dev)? else {
            return Err(FindNo::NotValid);
        };
        let Some(places) = read_slots(plant, by, dev, &head)? else {
            return Err(FindNo::NotValid);
        };
        let pages = read_pages(alloc, plant, by, dev, &places, head.pages)?;
        self.pages = head.pages;
        self.gates = head.gates;
        self.places = places;
        self.next_places = places;
        Ok(pages)
    }

    fn read_page<P: Plant>(
        &self,
        plant: &mut P,
        by: MemberId,
        page: u16,
        into: &mut Page,
    ) -> Result<(), CopyNo> {
        let at = BLOCK * self.places[page as usize] as u64;
        let mut read = Page([0; PAGE_BYTES]);
        read_act(plant, by, self.dev, at, &mut read.0)?;
        *into = read;
        Ok(())
    }

    fn put<P: Plant>(
        &mut self,
        plant: &mut P,
        by: MemberId,
        pages: &[Page],
        changed: &[u16],
    ) -> Result<(), CopyNo> {
        let slot = self.next_slot();
        write_slot(plant, by, self.dev, slot, pages, changed)?;
        let mut places = self.places;
        lay_images(&mut places, image_place(self.pages, slot), changed);
        self.next_places = places;
        Ok(())
    }

    fn open_gate<P: Plant>(&mut self, plant: &mut P, by: MemberId) -> Result<(), CopyNo> {
        let slot = self.next_slot();
        write_synced(plant, by, self.dev, gate_at(slot), &[GATE_OPEN])?;
        self.gates[slot as usize] = true;
        self.places = self.next_places;
        Ok(())
    }

    fn settle<P: Plant>(
        &mut self,
        plant: &mut P,
        by: MemberId,
        pages: &[Page],
    ) -> Result<(), CopyNo> {
        settle_slots(plant, by, self.dev, &self.gates, &self.places, pages)?;
        self.gates = [false; SLOTS as usize];
        self.places = home_places();
        Ok(())
    }
}
