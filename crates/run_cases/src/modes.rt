//! The modes: a run with its end, a block that it leaves, a crash at each moment, and acts that fail or halt one after
//! another.
use crate::cases::{Case, crashed, device};
use crate::looks::{add_ended, block, content, count_said, found, kept_and_begun};
use crate::player::{Played, Player};
use mas_types::{Dev, List, MemberId, NoMemory};
use spool_disk::MemPlant;
use spool_plant::{Choice, Plant};
use std::alloc::Global;
use tests_lines::{Writer, number_at};

/// What is told: the lines, the states that starts found, by number, and the stretch of moments or acts with one
/// outcome that isn't told yet.
#[derive(Drop)]
pub struct Told<P> {
    /// What plays.
    pub player: P,
    /// Whose memory it takes.
    pub alloc: Global,
    /// What is told.
    pub out: Writer,
    states: List<Writer>,
    from: u64,
    to: u64,
    outcome: Writer,
}

impl<P: Player> Told<P> {
    /// Nothing is told.
    pub fn new(player: P) -> Told<P> {
        let alloc = player.alloc();
        Told {
            player,
            alloc,
            out: Writer::new(alloc),
            states: List::new(alloc),
            from: 0,
            to: 0,
            outcome: Writer::new(alloc),
        }
    }

    /// Tells a line as it is.
    pub fn echo(&mut self, line: &str) {
        self.out.add(line.as_bytes());
        self.out.add(b"\n");
    }

    // The number of a state that was told.
    fn known(&self, state: &[u8]) -> Option<u64> {
        for at in 0..self.states.len() {
            if self.states.item(at).bytes() == state {
                return Some(at as u64);
            }
        }
        None
    }

    /// The number of a state, which is told where it is a new one.
    pub fn state(&mut self, state: Writer) -> u64 {
        if let Some(number) = self.known(state.bytes()) {
            return number;
        }
        let number = self.states.len() as u64;
        self.out.add_number(b"#", number);
        self.out.add(b" ");
        self.out.add_text(&state);
        self.out.add(b"\n");
        if self.states.push(state).is_err() {
            self.out.lack();
        }
        number
    }

    /// Tells the stretch, if there is one.
    pub fn end(&mut self) {
        if self.outcome.bytes().len() == 0 {
            return;
        }
        self.out.add_number(b"", self.from);
        self.out.add_number(b"..", self.to);
        self.out.add(b" ");
        self.out.add_text(&self.outcome);
        self.out.add(b"\n");
        self.outcome.clear();
    }

    /// The outcome of a moment or an act. It goes on with the stretch, or begins one.
    pub fn at(&mut self, at: u64, outcome: Writer) {
        if self.outcome.bytes() != outcome.bytes() {
            self.end();
            self.from = at;
            self.outcome = outcome;
        }
        self.to = at;
    }

    // What a start finds behind a crash at a moment, with one image.
    fn add_image(
        &mut self,
        line: &mut Writer,
        case: &Case,
        run: &Played,
        t: u64,
        image: (Choice, &[u8]),
    ) -> Result<(), NoMemory> {
        let (choice, word) = image;
        let mut state = Writer::new(self.alloc);
        let left = crashed(self.alloc, &run.plant, t, choice)?;
        let batches = found(&self.player, &mut state, case, left)?;
        let number = self.state(state);
        line.add_number(word, batches);
        line.add_number(b" #", number);
        Ok(())
    }

    // What a start finds behind a crash at a moment, with each image.
    fn add_found(
        &mut self,
        line: &mut Writer,
        case: &Case,
        run: &Played,
        t: u64,
    ) -> Result<(), NoMemory> {
        self.add_image(line, case, run, t, (Choice::Old, b", old "))?;
        self.add_image(line, case, run, t, (Choice::New, b", new "))?;
        self.add_image(line, case, run, t, (Choice::Ones, b", ones "))
    }

    // The outcome of a moment.
    fn moment(&mut self, case: &Case, run: &Played, t: u64) -> Result<(), NoMemory> {
        let mut line = Writer::new(self.alloc);
        add_moment(self.alloc, &mut line, run, t)?;
        self.add_found(&mut line, case, run, t)?;
        self.at(t, line);
        Ok(())
    }

    fn moments(&mut self, case: &Case, run: &Played, from: u64, to: u64) -> Result<(), NoMemory> {
        for t in from..=to.min(run.plant.now()) {
            self.moment(case, run, t)?;
        }
        self.end();
        Ok(())
    }

    // The outcome of a run, and what a start finds behind a crash at its end, by an act's number or that of the last
    // moment.
    fn outcome(&mut self, case: &Case, run: &Played, number: Option<u64>) -> Result<(), NoMemory> {
        let now = run.plant.now();
        let mut line = Writer::new(self.alloc);
        add_ended(self.alloc, &mut line, run);
        self.add_found(&mut line, case, run, now)?;
        self.at(number.unwrap_or(now), line);
        Ok(())
    }

    fn ended(&mut self, case: &Case, number: Option<u64>) -> Result<(), NoMemory> {
        let run = case.run(&self.player)?;
        self.outcome(case, &run, number)
    }

    // The outcome of a run by itself.
    fn whole(&mut self, case: &Case) -> Result<(), NoMemory> {
        self.ended(case, None)?;
        self.end();
        Ok(())
    }

    // A crash at each of the moments that a mode is about.
    fn crashes(&mut self, case: &Case, word: u8, first: u64, second: u64) -> Result<(), NoMemory> {
        let run = case.run(&self.player)?;
        let (from, to) = moments_of(&run, word, first, second);
        self.moments(case, &run, from, to)
    }

    // Each act of a stretch fails, or halts.
    fn acts(&mut self, case: &mut Case, halts: bool, from: u64, to: u64) -> Result<(), NoMemory> {
        for act in from..=to {
            if halts {
                case.halts = act;
            } else {
                case.fails[1] = act;
            }
            self.ended(case, Some(act))?;
        }
        self.end();
        Ok(())
    }

    // A block that a run leaves.
    fn block(&mut self, case: &Case, line: &str) -> Result<(), NoMemory> {
        let number = number_at(line, 2).unwrap_or(0);
        let Some(dev) = device(number_at(line, 1)) else {
            return Ok(());
        };
        let mut run = case.run(&self.player)?;
        let bytes = content(self.alloc, &mut run.plant, dev)?;
        add_rows(&mut self.out, block(bytes.as_slice(), number as usize));
        Ok(())
    }
}

fn add_row(out: &mut Writer, at: u64, bytes: &[u8]) {
    out.add_number(b"", at);
    out.add(b":");
    for byte in bytes {
        out.add_number(b" ", *byte as u64);
    }
    out.add(b"\n");
}

// The bytes of a block, sixteen a line, without the lines of zeros.
fn add_rows(out: &mut Writer, bytes: &[u8]) {
    for (row, bytes) in bytes.chunks(16).enumerate() {
        if !bytes.starts_with(&[0; 16]) {
            add_row(out, (row as u64).saturating_mul(16), bytes);
        }
    }
}

/// The moment at which a batch was kept.
pub fn kept_at(run: &Played, number: u64) -> u64 {
    let batches = run.journal.batches();
    match batches.get(number as usize) {
        Some(batch) => batch.last(),
        None => u64::MAX,
    }
}

// How many lines were said and printed.
fn add_lines_count(alloc: Global, line: &mut Writer, plant: &MemPlant) -> Result<(), NoMemory> {
    let said = count_said(alloc, plant)? as u64;
    let printed = plant.printer_lines(alloc, MemberId(1))?.len() as u64;
    line.add_number(b", said ", said);
    line.add_number(b", printed ", printed);
    Ok(())
}

// How many batches were kept and begun at a moment, and how many lines said and printed.
fn add_moment(alloc: Global, line: &mut Writer, run: &Played, t: u64) -> Result<(), NoMemory> {
    let (kept, begun) = kept_and_begun(run.journal.batches(), t);
    line.add_number(b"kept ", kept);
    line.add_number(b", begun ", begun);
    let left = crashed(alloc, &run.plant, t, Choice::Old)?;
    add_lines_count(alloc, line, &left)
}

// The first and the last of the moments that a mode is about.
fn moments_of(run: &Played, word: u8, first: u64, second: u64) -> (u64, u64) {
    match word {
        b'm' => (first, second),
        b'k' => (kept_at(run, first), kept_at(run, second)),
        _ => (run.since, second),
    }
}

/// Plays a case in the mode of a line's first letter.
pub fn play<P: Player>(
    case: &mut Case,
    told: &mut Told<P>,
    word: u8,
    line: &str,
) -> Result<(), NoMemory> {
    let first = number_at(line, 1).unwrap_or(0);
    let second = number_at(line, 2).unwrap_or(u64::MAX);
    match word {
        b'p' => told.whole(case),
        b'b' => told.block(case, line),
        b'f' => told.acts(case, false, first, second),
        b'h' => told.acts(case, true, first, second),
        b'w' => told.starts(case, first),
        b's' => told.stops(case, first, second),
        _ => told.crashes(case, word, first, second),
    }
}
