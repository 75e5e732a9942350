//! Cases of runs over a plant in memory: what a run says and leaves, a crash at each of its moments with the start
//! after it, and each act that fails or halts. A line that begins with a point sets something of a case, one with an
//! exclamation mark plays it, and the others are lines of its scripts. Each stretch of moments or acts with one outcome
//! is told in a line, and each state that a start finds is told once and has a number. Who plays the scripts is a
//! parameter.
#![tactic(auto)]

mod bases;
mod cases;
mod looks;
mod modes;
mod plain;
mod player;
mod queues;
mod starts;
mod stops;
mod whole;

pub use cases::Case;
use cases::set;
use mas_types::NoMemory;
pub use modes::Told;
use modes::play;
pub use player::{Played, Player, Run};

/// Does what a line asks for: a setting, a mode, or a line of a script.
pub fn take<P: Player>(case: &mut Case, told: &mut Told<P>, line: &str) -> Result<(), NoMemory> {
    match line.as_bytes() {
        [b'.', word, ..] => {
            told.echo(line);
            set(told.alloc, case, *word, line);
        }
        [b'!', word, ..] => {
            told.echo(line);
            play(case, told, *word, line)?;
        }
        _ => case.add(line),
    }
    Ok(())
}
