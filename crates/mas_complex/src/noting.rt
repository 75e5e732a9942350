//! The pages that a member has, noted for clauses alone.
ghost use Rattle.mas_complex.specs.Names.{Ckpt1, Ckpt2, members_most, disk_now, bytes_of, Before as AtBefore};
ghost use Rattle.std.specs.Prelude.{◌≡◌, ◌+◌, ◌<◌, Some, true, slice_set, length};
ghost use Rattle.mas_complex.specs.Parts.{parts_of};
ghost use Rattle.mas_complex.specs.Past.{HasNoted, nobody_noted, values_of};

use crate::complex::Complex;
use crate::counts::COUNTS;
use ckpt_form::Steady;
use mas_types::{List, MemberId, Page};
use spool_plant::Plant;
use std::snapshot::Snapshot;

/// The pages that a member noted last.
#[derive(Drop)]
pub struct Note {
    /// It noted pages.
    pub noted: bool,
    /// The pages, for clauses alone.
    pub pages: Snapshot<List<Page>>,
}

// A note of no pages.
fn no_note(none: &List<Page>) -> Note
    ensures { result.pages.value ≡ none.now }
{
    Note {
        noted: false,
        pages: Snapshot::of(none),
    }
}

// Nobody has noted any pages.
pub(crate) fn none_noted(none: &List<Page>) -> [Note; COUNTS]
    requires { length none.now ≡ 0 }
    ensures { values_of result ≡ nobody_noted }
{
    [
        no_note(none),
        no_note(none),
        no_note(none),
        no_note(none),
        no_note(none),
        no_note(none),
        no_note(none),
        no_note(none),
        no_note(none),
    ]
}

// Writes the note of one member anew.
#[tactic(auto, using(crate::proofs::Pasts::values_set, crate::proofs::Pasts::noted_here))]
fn put_note(had: &mut [Note], at: usize, pages: &List<Page>)
    requires { at < length had.old }
    ensures written { values_of had.new ≡ slice_set (values_of had.old) at pages.now }
    ensures noted { HasNoted (values_of had.new) at pages.now }
{
    had[at] = Note {
        noted: true,
        pages: Snapshot::of(pages),
    };
}

impl<P: Plant + Drop, C: Steady + Drop> Complex<P, C> {
    /// Notes the pages that a member has: those that each copy reads which counts as alive. It makes no act and takes
    /// no memory: clauses alone read the note. Whatever others write, a page whose level isn't above that of the noted
    /// ones stays as it was.
    pub fn note_pages(&mut self, by: MemberId, pages: &List<Page>)
        requires member { by.0 < members_most + 1 }
        requires first { self.old.pair.first.alive ≡ true → self.old.first ≡ AtBefore }
        requires second { self.old.pair.second.alive ≡ true → self.old.second ≡ AtBefore }
        requires reads1 { P.tells → self.old.pair.first.alive ≡ true
            → C.reads (disk_now (P.view self.old.plant) Ckpt1).bytes ≡ Some (bytes_of pages.now) }
        requires reads2 { P.tells → self.old.pair.second.alive ≡ true
            → C.reads (disk_now (P.view self.old.plant) Ckpt2).bytes ≡ Some (bytes_of pages.now) }
        ensures noted { HasNoted (values_of self.new.had) by.0 pages.now }
        ensures frame { parts_of self.new ≡ record (parts_of self.old)
            { had = slice_set (values_of self.old.had) by.0 pages.now } }
    {
        put_note(&mut self.had, by.0 as usize, pages);
    }
}
