//! What the words ask for.
ghost use Rattle.std.specs.Prelude.{◌≡◌};
ghost use Rattle.mas_words.specs.declared.types.WordsNo.TheVariants.{NoMemory as no_memory};

use mas_types::{List, NoMemory};

/// The command.
#[derive(Clone, Copy)]
pub enum Verb {
    /// Plays a script.
    Play,
    /// Plays a script with a thread for each member.
    Race,
    /// Formats the devices.
    Format,
    /// Shows the queue that is found.
    Report,
    /// Looks for faults in the pages that are found.
    Check,
    /// Plays a script that is generated, of 1 to 1,000 decks.
    Generate(u32),
}

/// The words, read.
#[derive(Drop)]
pub struct Words {
    /// What is asked for.
    pub verb: Verb,
    /// `--cold` stands there: the run begins with an empty queue.
    pub cold: bool,
    /// The folder of the devices; empty where no folder is given, which means the current one.
    pub dir: List<u8>,
}

/// Why words are not read.
#[derive(Clone, Copy, Debug)]
pub enum WordsNo {
    /// They spell no command with its options.
    Words,
    /// Out of memory.
    NoMemory,
}

impl From<NoMemory> for WordsNo {
    ghost from_gives = { λ _ no. no ≡ no_memory };

    fn from(_error: NoMemory) -> Self {
        WordsNo::NoMemory
    }
}
