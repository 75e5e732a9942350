//! `mas`: does what its words ask for, on the devices of a folder. Standard input is the script, standard output the
//! console.
#![tactic(auto)]

ghost use Rattle.std.specs.Prelude.{◌≡◌};
ghost use Rattle.mas_main.specs.Openings.{opening_for, opening_of_words};

use mas_process::{
    Ending, close_files, code_of, folder_of, let_journal_go, let_queue_go, words_of, write_line_of,
};
use mas_top::{Task, mas_top, race_of, task_of};
use mas_types::Status;
use mas_words::{Words, read_words};
use plant_files::{FilePlant, Opening, StdSource, Streams};
use plant_fuse::Fused;
use run_opening::Ended;
use std::process::ExitCode;

// What a task does with the folder.
fn opening_of(task: Task) -> Opening
    ensures { result ≡ opening_for task }
{
    match task {
        Task::Play(true) | Task::Format | Task::Generate(_) => Opening::Make,
        Task::Play(false) => Opening::GoOn,
        Task::Report | Task::Check => Opening::Look,
    }
}

// What is done with the folder: a race opens it as a play does.
fn opening_asked(words: &Words) -> Option<Opening>
    ensures { result ≡ opening_of_words words.now }
{
    match race_of(words) {
        Some(cold) => Some(opening_of(Task::Play(cold))),
        None => match task_of(words) {
            Some(task) => Some(opening_of(task)),
            None => None,
        },
    }
}

// What the top call is handed.
struct Opened {
    words: Vec<String>,
    script: StdSource<HostRuntime>,
    plant: Fused<FilePlant<HostRuntime>>,
}

// Opens what the words of the program ask for. Where they are refused, or the folder isn't opened, no file of it is
// touched.
fn open(rt: &HostRuntime) -> Result<Opened, Ending> {
    // Before any other file is opened.
    let streams = Streams::open(rt, rt.alloc()).map_err(|_| Ending::NoNullDevice)?;
    let words = words_of(rt)?;
    let read = read_words(rt.alloc(), &words)?;
    let Some(opening) = opening_asked(&read) else {
        return Err(Ending::Top(Status::Words));
    };
    let folder = folder_of(&read)?;
    let files = FilePlant::open(*rt, rt.alloc(), streams, folder, opening)?;
    Ok(Opened {
        words,
        script: StdSource::new(*rt),
        plant: Fused::new(files),
    })
}

// What the run leaves is let go by the crate that knows how.
fn close(ended: Ended<Fused<FilePlant<HostRuntime>>>) -> Ending {
    let Ended {
        status,
        plant,
        base,
        since: _,
        journal,
    } = ended;
    close_files(plant);
    let_queue_go(base);
    let_journal_go(journal);
    Ending::Top(status)
}

fn main(rt: HostRuntime) -> ExitCode {
    let ending = match open(&rt) {
        Ok(
            Opened {
                words,
                script,
                plant,
            },
        ) => {
            let mut script = script;
            close(mas_top(&rt, rt.alloc(), &words, &mut script, plant))
        }
        Err(ending) => ending,
    };
    // Where standard error can't be written to, the exit status alone tells.
    let _ = write_line_of(&rt, &ending);
    ExitCode::from(code_of(&ending))
}
