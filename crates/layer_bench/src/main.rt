//! Does one thing as often as it is told: reads and writes pages, reads decks, scripts or frames, gives commands, looks
//! for units, or plays events on a net. The first word says which, by its first letter, and numbers behind it how often
//! and of what size. Without such a word it does each a few times. `bench/layers` takes the time and the memory.
#![tactic(auto)]

mod decks;
mod frames;
mod nets;
mod pages;
mod queues;
mod samples;
mod scripts;
mod units;

use std::env;
use std::process::ExitCode;

/// How often, and of what size.
type Numbers = [u32; 3];

// The first letter of the first word behind the program's name, and the numbers that the next words are, 0 where one
// isn't there or is no number.
fn words(rt: &HostRuntime) -> (u8, Numbers) {
    let mut letter = 0;
    let mut numbers = [0; 3];
    let Ok(args) = env::args(rt) else {
        return (letter, numbers);
    };
    for (at, word) in args.skip(1).take(4).enumerate() {
        if at == 0 {
            letter = word.as_str().as_bytes().first().copied().unwrap_or(0);
        } else if at < 4 {
            numbers[at - 1] = word.as_str().parse::<u32>().unwrap_or(0);
        }
    }
    (letter, numbers)
}

// Whether each thing was done.
fn run(rt: &HostRuntime, letter: u8, numbers: Numbers) -> bool {
    let alloc = rt.alloc();
    match letter {
        b'p' => pages::run(alloc, numbers),
        b'd' => decks::run(alloc, numbers),
        b's' => scripts::run(alloc, numbers),
        b'f' => frames::run(alloc, numbers),
        b'q' => queues::run(alloc, numbers),
        b'u' => units::run(alloc, numbers),
        b'n' => nets::run(rt, numbers),
        _ => {
            pages::run(alloc, [1, 323, 0])
                && decks::run(alloc, [1, 0, 0])
                && scripts::run(alloc, [1, 80, 0])
                && frames::run(alloc, [1, 100, 80])
                && queues::run(alloc, [16, 8, 0])
                && units::run(alloc, [16, 8, 0])
                && nets::run(rt, [2_000, 0, 0])
        }
    }
}

fn main(rt: HostRuntime) -> ExitCode {
    let (letter, numbers) = words(&rt);
    if run(&rt, letter, numbers) {
        ExitCode::SUCCESS
    } else {
        ExitCode::FAILURE
    }
}
