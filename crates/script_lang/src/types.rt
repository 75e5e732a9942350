//! Scripts.
ghost use Rattle.std.specs.Prelude.{◌≡◌};
ghost use Rattle.script_lang.specs.declared.types.ScriptNo.TheVariants.{NoMemory as no_memory};

use mas_types::{Command, Config, Dev, LineCause, Lines, List, MemberId, NoMemory, Route};
use spool_plant::Fuse;

/// What a step asks for.
#[derive(Drop)]
pub enum Ask {
    /// To enter a deck of these cards.
    Deck(Lines),
    /// To give an operator's command.
    Command(Command),
    /// To do at most so many work units, 1 to 9,999.
    Work(u32),
    /// To keep the checkpoint.
    Lock,
    /// To give the checkpoint up.
    Free,
    /// To serve a line to another node once, 1 to 8.
    Line(u8),
    /// To replace a lost copy of the checkpoint.
    Replace(Dev),
    /// To stop the member between acts.
    Stop,
    /// To stop the member at its n-th act or print from now on, 1 to 999,999.
    StopIn(Fuse, u32),
    /// To lose a device.
    Lose(Dev),
}

/// A step: its member, 0 where a device is lost, and what it asks for.
#[derive(Drop)]
pub struct Step {
    /// Its member, 0 where a device is lost.
    pub by: MemberId,
    /// What it asks for.
    pub what: Ask,
}

/// What a script says.
#[derive(Drop)]
pub struct Script {
    /// The configuration of a cold run.
    pub config: Config,
    /// The routes of a cold run.
    pub routes: List<Route>,
    /// At most 99,999, in order.
    pub steps: List<Step>,
}

/// Why a script is not read.
#[derive(Clone, Copy, Debug)]
pub enum ScriptNo {
    /// The least line that is refused, counted from 1, and the first of its causes.
    BadLine { line: u32, cause: LineCause },
    /// The script has over 16,777,216 bytes.
    TooLong,
    /// Out of memory.
    NoMemory,
}

impl From<NoMemory> for ScriptNo {
    ghost from_gives = { λ _ no. no ≡ no_memory };

    fn from(_error: NoMemory) -> ScriptNo {
        ScriptNo::NoMemory
    }
}

/// What the run of a script allows.
#[derive(Clone, Copy)]
pub struct Run {
    /// It begins with an empty queue.
    pub cold: bool,
    /// Each member runs in a thread of its own.
    pub race: bool,
    /// It only formats: no line but CONFIG.
    pub only: bool,
}
