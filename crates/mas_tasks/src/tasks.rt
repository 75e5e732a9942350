//! What the program does.
ghost use Rattle.std.specs.Prelude.{◌≡◌, map, string_bytes};
ghost use Rattle.mas_words.specs.Words.{Reads};
ghost use Rattle.mas_tasks.specs.Tasks.{race_of as race_of_lem, status_of_no as status_of_no_lem, task_asked, task_of as task_of_lem};

use mas_types::Status;
use mas_words::{Verb, Words, WordsNo, read_words};
use std::alloc::Global;

/// What the program does with one thread.
#[derive(Clone, Copy)]
pub enum Task {
    /// Plays a script, cold where true: from an empty queue. Else from the queue that is found.
    Play(bool),
    /// Says the queue that is found.
    Report,
    /// Formats the checkpoint.
    Format,
    /// Checks the pages and the texts that are found.
    Check,
    /// Plays the script of so many decks from an empty queue, and says what it came to.
    Generate(u32),
}

/// What the words ask for. None where that is a race.
pub fn task_of(words: &Words) -> Option<Task>
    ensures { result ≡ task_of_lem words.now }
{
    match words.verb {
        Verb::Play => Some(Task::Play(words.cold)),
        Verb::Report => Some(Task::Report),
        Verb::Format => Some(Task::Format),
        Verb::Check => Some(Task::Check),
        Verb::Generate(decks) => Some(Task::Generate(decks)),
        Verb::Race => None,
    }
}

/// Whether the words ask for a race: a cold one where true. None where they ask for something else.
pub fn race_of(words: &Words) -> Option<bool>
    ensures { result ≡ race_of_lem words.now }
{
    match words.verb {
        Verb::Race => Some(words.cold),
        _ => None,
    }
}

/// Reads what the words ask for: `Words` where they aren't the program's, or ask for a race.
pub(crate) fn read_task(alloc: Global, words: &[String]) -> Result<Task, WordsNo>
    ensures { Reads (task_asked (map string_bytes words.now)) result }
{
    let read = read_words(alloc, words)?;
    match task_of(&read) {
        Some(task) => Ok(task),
        None => Err(WordsNo::Words),
    }
}

/// The status of a run whose words aren't read.
pub fn status_of_no(why: WordsNo) -> Status
    ensures { result ≡ status_of_no_lem why }
{
    match why {
        WordsNo::Words => Status::Words,
        WordsNo::NoMemory => Status::NoMemory,
    }
}
