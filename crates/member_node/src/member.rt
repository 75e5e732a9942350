//! A member: its checkpoint, and the commands that it has done on it.
ghost use Rattle.std.specs.Prelude.{◌≡◌, ◌+◌, ◌≤◌, ◌<◌, ◌^◌, ◌++◌, [], ◌∷◌, true, All, length, slice_set, false, IfOk, OnOk, OnErr};
ghost use Rattle.mas_types.specs.declared.commands.Reply.{Reply as ReplyLem};
ghost use Rattle.mas_types.specs.declared.queues.Queue.{Queue};
ghost use Rattle.mas_types.specs.Closings.{IsReplyNamed};
ghost use Rattle.mas_types.specs.Fit.{IsConfig, IsFit};
ghost use Rattle.mas_types.specs.Limits.{pages_most};
ghost use Rattle.ckpt_tables.specs.Shape.{HasSpelling};
ghost use Rattle.mas_types.specs.Step.{may_give};
ghost use Rattle.queue_telling.specs.Telling.{Tell, TellSound};
ghost use Rattle.mas_complex.specs.Meaning.{step as step_of};
ghost use Rattle.queue_indexed.specs.Standing.{AreFit, IfRefused};
ghost use Rattle.queue_indexed.specs.Given.{IsGiver};
ghost use Rattle.queue_indexed.specs.Behind.{IsKept};
ghost use Rattle.member_node.specs.Drawn.{AreUnmarkedDrawn};
ghost use Rattle.member_node.specs.Mirrors.{IsMirrorBut};
ghost use Rattle.page_tables.specs.Bringing.{are_orders_low};

use crate::checkpoint::{Checkpoint, blank};
use mas_types::limits::PAGE_BYTES;
use mas_types::{Command, Config, Entry, List, MemberId, NoMemory, Page, Reply};
use page_marks::Marks;
use queue_indexed::{KeptIndex, apply_with};
use std::alloc::Global;

/// Why a member's call wasn't done.
#[derive(Clone, Copy)]
pub enum NodeNo {
    /// Both copies are lost.
    BothLost,
    /// The member was stopped: its count of stops rose in this call.
    Halted,
    /// The console failed: its count of faults rose in this call.
    ConsoleFault,
    /// There was no memory.
    NoMemory,
}

/// A member with its own checkpoint.
#[derive(Drop)]
pub struct Member {
    /// Its number, from 1; 0 is the operator.
    pub id: MemberId,
    /// Its tables, after the commands of its batch, and the pages as they were before them.
    pub checkpoint: Checkpoint,
    /// The commands that it has done and not written yet.
    pub batch: List<Entry>,
    /// Room for the pages that it reads of the copies, as many as its checkpoint has.
    pub room: List<Page>,
    /// It has read all pages, and its checkpoint isn't brought up to them yet.
    pub behind: bool,
    /// It has read nothing yet: its pages are of no level. Nothing above can say so of a member that has read, which
    /// would make it read all pages anew.
    pub(crate) fresh: bool,
    /// The pages that may differ between the room and its own, besides page 0.
    pub differ: Marks,
    /// The pages that commands may have changed since its pages were drawn or read.
    pub marks: Marks,
    /// The index that it keeps with its tables.
    pub kept: KeptIndex,

    /// Each other page stands in the room as it is its own.
    ghost mirrored: { IsMirrorBut differ.pages room checkpoint.pages },

    /// Each of its pages without a mark is the one that its tables are drawn as.
    ghost unchanged: { AreUnmarkedDrawn marks.pages checkpoint.tables checkpoint.levels checkpoint.pages },

    /// Once it has read, the orders of its jobs and outputs are below the next one.
    ghost ordered: { fresh ≡ false → are_orders_low checkpoint.tables ≡ true },

    /// Its index, unless it is lost, is of its tables.
    ghost indexed: { IsKept kept checkpoint.tables },
}

// So many pages of zeros.
fn blank_pages(alloc: Global, count: usize) -> Result<List<Page>, NoMemory>
    requires { count ≤ pages_most }
    ensures { IfOk result (λ pages. length pages ≡ count) }
{
    let mut pages = List::new(alloc);
    for _page in 0..count {
        pages.push(Page([0; PAGE_BYTES]))?;
    }
    Ok(pages)
}

// The place of an entry to come.
fn place(by: MemberId, step: u32) -> Entry {
    Entry {
        by,
        step,
        command: Command::Gather,
        reply: Reply::Plain,
    }
}

// Writes an entry anew.
fn put_entry(batch: &mut List<Entry>, at: usize, entry: Entry)
    requires { at < length batch.old }
    ensures { batch.new ≡ slice_set batch.old at entry }
{
    batch.as_mut_slice()[at] = entry;
}

impl Member {
    ghost use Rattle.member_node.specs.Batches.{HasDone, last_reply as last_of};
    ghost use Rattle.member_node.specs.Drawn.{AreDrawn};

    /// A member of a run with this configuration, which has read nothing and done nothing: its checkpoint is that of an
    /// empty queue, with every page at level 1. It has to read the copies before it gives a command. NoMemory comes
    /// only when out of memory.
    pub fn new(alloc: Global, id: MemberId, config: &Config) -> Result<Member, NoMemory>
        requires { IsConfig config.now }
        ensures id { IfOk result (λ member. member.id ≡ id) }
        ensures config { IfOk result (λ member. member.checkpoint.tables.config ≡ config.now) }
        ensures drawn { IfOk result (λ member.
            AreDrawn member.checkpoint.tables member.checkpoint.level member.checkpoint.levels
            member.checkpoint.pages) }
        ensures batch { IfOk result (λ member. member.batch ≡ []) }
        ensures room { IfOk result (λ member. length member.room ≡ length member.checkpoint.pages) }
        ensures behind { IfOk result (λ member. member.behind ≡ false) }
        ensures fresh { IfOk result (λ member. member.fresh ≡ true) }
    {
        let checkpoint = blank(alloc, config, &List::new(alloc))?;
        Member::with(alloc, id, checkpoint)
    }

    /// A member with this checkpoint, which has done nothing, and room for as many pages. NoMemory comes only when out
    /// of memory.
    pub fn with(alloc: Global, id: MemberId, checkpoint: Checkpoint) -> Result<Member, NoMemory>
        requires { length checkpoint.pages ≤ pages_most }
        ensures id { IfOk result (λ member. member.id ≡ id) }
        ensures checkpoint { IfOk result (λ member. member.checkpoint ≡ checkpoint) }
        ensures batch { IfOk result (λ member. member.batch ≡ []) }
        ensures room { IfOk result (λ member. length member.room ≡ length checkpoint.pages) }
        ensures behind { IfOk result (λ member. member.behind ≡ false) }
        ensures fresh { IfOk result (λ member. member.fresh ≡ true) }
    {
        let room = blank_pages(alloc, checkpoint.pages.len())?;
        Ok(Member {
            id,
            checkpoint,
            batch: List::new(alloc),
            room,
            behind: false,
            fresh: true,
            differ: Marks::all(),
            marks: Marks::all(),
            kept: KeptIndex::none(alloc),
        })
    }

    /// Does a command on its tables: for each queue that the tables tell, the batch has one entry more, the command
    /// with the reply that it has there, and the tables tell the queue that it leaves.
    ///
    /// NoMemory leaves the member as it was.
    pub fn do_command(&mut self, alloc: Global, step: u32, command: Command) -> Result<(), NoMemory>
        requires here { self.old.behind ≡ false }
        requires command { IsFit command }
        requires giver { IsGiver self.old.id command }
        requires spelling { HasSpelling self.old.checkpoint.tables }
        requires fit { AreFit self.old.checkpoint.tables }
        requires order { self.old.checkpoint.tables.order + 32 < 2 ^ 63 }
        ensures id { self.new.id ≡ self.old.id }
        ensures room { self.new.room ≡ self.old.room }
        ensures behind { self.new.behind ≡ self.old.behind }
        ensures fresh { self.new.fresh ≡ self.old.fresh }
        ensures differ { self.new.differ ≡ self.old.differ }
        ensures level { self.new.checkpoint.level ≡ self.old.checkpoint.level }
        ensures levels { self.new.checkpoint.levels ≡ self.old.checkpoint.levels }
        ensures pages { self.new.checkpoint.pages ≡ self.old.checkpoint.pages }
        ensures pushed { OnOk result ((r : ReplyLem)
            × (self.new.batch ≡ self.old.batch
            ++ record { by = self.old.id; step = step; command = command; reply = r } ∷ []) × IsReplyNamed r) }
        ensures entry { OnOk result ((Q : Queue) → Tell self.old.checkpoint.tables Q
            → self.new.batch ≡ self.old.batch
            ++ record { by = self.old.id; step = step; command = command; reply = (step_of Q self.old.id command).1 }
            ∷ []) }
        ensures effect { OnOk result ((Q : Queue) → Tell self.old.checkpoint.tables Q
            → Tell self.new.checkpoint.tables (step_of Q self.old.id command).0) }
        ensures sound { OnOk result ((s : TellSound self.old.checkpoint.tables)
            → may_give s.queue self.old.id command ≡ true → TellSound self.new.checkpoint.tables) }
        ensures named { OnOk result ((Q : Queue) → Tell self.old.checkpoint.tables Q
            → IsReplyNamed (step_of Q self.old.id command).1) }
        ensures refused { OnOk result ((Q : Queue) → Tell self.old.checkpoint.tables Q
            → IfRefused (step_of Q self.old.id command).1 (self.new.checkpoint.tables ≡ self.old.checkpoint.tables)) }
        ensures own { OnOk result (All (λ e. e.by ≡ self.old.id) self.old.batch
            → All (λ e. e.by ≡ self.old.id) self.new.batch) }
        ensures done { OnOk result ((Q : Queue) → HasDone Q self.old.batch self.old.checkpoint
            → HasDone Q self.new.batch self.new.checkpoint) }
        ensures err { OnErr result (self.new ≡ self.old) }
        ensures spelling { HasSpelling self.new.checkpoint.tables }
        ensures fit { AreFit self.new.checkpoint.tables }
        ensures order { self.new.checkpoint.tables.order ≤ self.old.checkpoint.tables.order + 32 }
        ensures config { self.new.checkpoint.tables.config ≡ self.old.checkpoint.tables.config }
    {
        let at = self.batch.len();
        self.batch.push(place(self.id, step))?;
        let by = self.id;
        match apply_with(
            alloc,
            &mut self.checkpoint.tables,
            &mut self.marks,
            &mut self.kept,
            by,
            &command,
        ) {
            Ok(reply) => {
                let entry = Entry {
                    by,
                    step,
                    command,
                    reply,
                };
                put_entry(&mut self.batch, at, entry);
                Ok(())
            }
            Err(NoMemory) => {
                self.batch.remove(at);
                Err(NoMemory)
            }
        }
    }

    /// The reply to the last command of its batch.
    pub fn last_reply(&self) -> &Reply
        requires { 1 ≤ length self.now.batch }
        ensures { result.now ≡ last_of self.now.batch }
    {
        &self.batch.item(self.batch.len() - 1).reply
    }
}
