//! Starts on copies of which either is as a run left it, older, without pages, with pages that can't be used, or lost:
//! each start by itself, and with each of its acts failing. Told are its status, the parts that are lost, what became
//! of the bytes of both copies, also of those that were lost in it, whether both read as the same pages then, and what
//! the next start finds.
use crate::cases::{Case, NEVER, boxed, crashed, start};
use crate::looks::{BLOCK, add_equal, add_left, add_lost, add_status, content, put};
use crate::modes::{Told, kept_at};
use crate::player::{Played, Player};
use mas_types::{Dev, NoMemory};
use spool_disk::MemPlant;
use spool_plant::{Choice, Part, Plant};
use std::alloc::Global;
use tests_lines::Writer;

/// The first bytes of a page 0.
const HEADER: &[u8] = b"MASCKPT1";

/// A byte of a page 0 that no field names.
const NO_FIELD: usize = 48;

#[derive(Clone, Copy)]
enum Form {
    Left,
    Older,
    Unread,
    Unsound,
    Lost,
}

const FORMS: [Form; 5] = [
    Form::Left,
    Form::Older,
    Form::Unread,
    Form::Unsound,
    Form::Lost,
];

fn form_word(form: Form) -> &'static [u8] {
    match form {
        Form::Left => b" as it was left",
        Form::Older => b" older",
        Form::Unread => b" without pages",
        Form::Unsound => b" with pages that can't be used",
        Form::Lost => b" lost",
    }
}

// Each page 0 gets a byte that no field names: it spells no tables.
fn spoil(bytes: &mut [u8]) {
    for page in bytes.chunks_mut(BLOCK) {
        if page.starts_with(HEADER) && page.len() > NO_FIELD {
            page[NO_FIELD] = 1;
        }
    }
}

// The bytes of a copy as it was at a moment of a run.
fn older(alloc: Global, run: &Played, moment: u64, dev: Dev) -> Result<Vec<u8>, NoMemory> {
    let mut earlier = crashed(alloc, &run.plant, moment, Choice::Old)?;
    content(alloc, &mut earlier, dev)
}

// The bytes of a copy that can't be used.
fn unsound(alloc: Global, plant: &mut MemPlant, dev: Dev) -> Result<Vec<u8>, NoMemory> {
    let mut bytes = content(alloc, plant, dev)?;
    spoil(&mut bytes);
    Ok(bytes)
}

// Brings a copy that a run left to a form. An older one is as it was at a moment.
fn bring_to(
    alloc: Global,
    run: &Played,
    moment: u64,
    form: Form,
    left: &mut MemPlant,
    dev: Dev,
) -> Result<(), NoMemory> {
    match form {
        Form::Left => {}
        Form::Older => put(left, dev, 0, older(alloc, run, moment, dev)?.as_slice()),
        Form::Unread => put(left, dev, 0, &[9; 64]),
        Form::Unsound => {
            let bytes = unsound(alloc, left, dev)?;
            put(left, dev, 0, bytes.as_slice());
        }
        Form::Lost => left.lose(dev),
    }
    Ok(())
}

// What a run leaves, with copies in these forms.
fn prepared(
    alloc: Global,
    run: &Played,
    moment: u64,
    first: Form,
    second: Form,
) -> Result<Box<MemPlant>, NoMemory> {
    let mut left = crashed(alloc, &run.plant, run.plant.now(), Choice::Old)?;
    bring_to(alloc, run, moment, first, &mut left, Dev::Ckpt1)?;
    bring_to(alloc, run, moment, second, &mut left, Dev::Ckpt2)?;
    crashed(alloc, &left, left.now(), Choice::New)
}

// The bytes of a copy are the same in both plants.
fn is_same(
    alloc: Global,
    before: &mut MemPlant,
    after: &mut MemPlant,
    dev: Dev,
) -> Result<bool, NoMemory> {
    let first = content(alloc, before, dev)?;
    let second = content(alloc, after, dev)?;
    Ok(first.as_slice() == second.as_slice())
}

// The plant at the last moment at which a device wasn't lost, with all that was written by then. There is none where
// the device was lost from the first moment on.
fn last_there(
    alloc: Global,
    after: &MemPlant,
    dev: Dev,
) -> Result<Option<Box<MemPlant>>, NoMemory> {
    for past in 0..after.now() {
        let moment = after.now().saturating_sub(past).saturating_sub(1);
        let then = crashed(alloc, after, moment, Choice::New)?;
        if !then.lost(Part::Disk(dev)) {
            return Ok(Some(then));
        }
    }
    Ok(None)
}

// What stood on a copy that is lost, unless it was lost before the start.
fn add_lost_copy(
    alloc: Global,
    line: &mut Writer,
    before: &mut MemPlant,
    after: &MemPlant,
    dev: Dev,
) -> Result<(), NoMemory> {
    line.add(b" is lost");
    let Some(then) = last_there(alloc, after, dev)? else {
        return Ok(());
    };
    let mut then = then;
    let same = is_same(alloc, before, &mut then, dev)?;
    line.add_flag(b" as it was", same);
    line.add_flag(b" and written", !same);
    Ok(())
}

// What became of the bytes of a copy.
fn add_copy(
    alloc: Global,
    line: &mut Writer,
    before: &mut MemPlant,
    after: &mut MemPlant,
    dev: Dev,
) -> Result<(), NoMemory> {
    if after.lost(Part::Disk(dev)) {
        return add_lost_copy(alloc, line, before, after, dev);
    }
    let same = is_same(alloc, before, after, dev)?;
    line.add_flag(b" is the same", same);
    line.add_flag(b" is written", !same);
    Ok(())
}

// What became of the bytes of both copies.
fn add_copies(
    alloc: Global,
    line: &mut Writer,
    before: &mut MemPlant,
    after: &mut MemPlant,
) -> Result<(), NoMemory> {
    line.add(b", CKPT1");
    add_copy(alloc, line, before, after, Dev::Ckpt1)?;
    line.add(b", CKPT2");
    add_copy(alloc, line, before, after, Dev::Ckpt2)
}

// How a start ended, which parts are lost, and what became of both copies.
fn add_start(
    alloc: Global,
    line: &mut Writer,
    ready: &MemPlant,
    ended: &mut Played,
) -> Result<(), NoMemory> {
    add_status(alloc, line, &ended.status);
    add_lost(line, &ended.plant);
    let mut before = crashed(alloc, ready, 0, Choice::Old)?;
    add_copies(alloc, line, &mut before, &mut ended.plant)?;
    if ended.plant.lost(Part::Disk(Dev::Ckpt1)) || ended.plant.lost(Part::Disk(Dev::Ckpt2)) {
        return Ok(());
    }
    add_equal(alloc, line, &mut ended.plant)
}

// A copy of a plant, of which an act is to fail.
fn failing(alloc: Global, ready: &MemPlant, act: u64) -> Result<Box<MemPlant>, NoMemory> {
    let mut plant = ready.crash_at(alloc, 0, Choice::Old)?;
    plant.fail_at(act);
    boxed(alloc, plant)
}

impl<P: Player> Told<P> {
    // The outcome of a start, and how many acts it made.
    fn start(
        &mut self,
        ready: &MemPlant,
        ended: &mut Played,
        act: Option<u64>,
    ) -> Result<u64, NoMemory> {
        let acts = ended.plant.now();
        let mut found = Writer::new(self.alloc);
        add_left(&self.player, &mut found, ended)?;
        let number = self.state(found);
        let mut line = Writer::new(self.alloc);
        add_start(self.alloc, &mut line, ready, ended)?;
        line.add_number(b", then #", number);
        self.at(act.unwrap_or(acts), line);
        Ok(acts)
    }

    // A start, of which an act fails if one is named.
    fn attempt(
        &mut self,
        case: &Case,
        ready: &MemPlant,
        act: Option<u64>,
    ) -> Result<u64, NoMemory> {
        let plant = failing(self.alloc, ready, act.unwrap_or(NEVER))?;
        let mut ended = start(&self.player, case.next.bytes(), plant)?;
        self.start(ready, &mut ended, act)
    }

    // A start on copies in these forms, and again with each of its acts failing.
    fn pair(&mut self, case: &Case, ready: &MemPlant) -> Result<(), NoMemory> {
        let acts = self.attempt(case, ready, None)?;
        self.end();
        for act in 0..acts {
            self.attempt(case, ready, Some(act))?;
        }
        self.end();
        Ok(())
    }

    // The heading of two forms.
    fn forms(&mut self, first: Form, second: Form) {
        self.out.add(b"CKPT1");
        self.out.add(form_word(first));
        self.out.add(b", CKPT2");
        self.out.add(form_word(second));
        self.out.add(b"\n");
    }

    // Starts on copies in two forms.
    fn starts_on(
        &mut self,
        case: &Case,
        run: &Played,
        moment: u64,
        first: Form,
        second: Form,
    ) -> Result<(), NoMemory> {
        self.forms(first, second);
        let ready = prepared(self.alloc, run, moment, first, second)?;
        self.pair(case, &ready)
    }

    fn starts_on_all(&mut self, case: &Case, run: &Played, moment: u64) -> Result<(), NoMemory> {
        for pair in 0..FORMS.len() * FORMS.len() {
            let first = FORMS[pair / FORMS.len()];
            let second = FORMS[pair % FORMS.len()];
            self.starts_on(case, run, moment, first, second)?;
        }
        Ok(())
    }

    /// Starts on copies of every two forms. An older copy is as it was when a batch was kept.
    pub fn starts(&mut self, case: &Case, batch: u64) -> Result<(), NoMemory> {
        let run = case.run(&self.player)?;
        self.starts_on_all(case, &run, kept_at(&run, batch))
    }
}
