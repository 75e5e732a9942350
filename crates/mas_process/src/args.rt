//! What the process is called with.
use mas_words::{Words, WordsNo};
use std::io::ErrorKind;
use std::{env, str};

/// The folder of the devices, where none is given.
const FOLDER: &str = ".";

/// The words after the program's name. Words that aren't UTF-8 are none of the program's.
pub fn words_of(rt: &HostRuntime) -> Result<Vec<String>, WordsNo> {
    let mut words = Vec::new(rt.alloc());
    let args = match env::args(rt) {
        Ok(args) => args,
        Err(error) if error.kind() == ErrorKind::InvalidData => return Err(WordsNo::Words),
        Err(_) => return Err(WordsNo::NoMemory),
    };
    for word in args.skip(1) {
        if words.push(word).is_err() {
            return Err(WordsNo::NoMemory);
        }
    }
    Ok(words)
}

/// The folder of the devices.
pub fn folder_of(words: &Words) -> Result<&str, WordsNo> {
    if words.dir.len() == 0 {
        return Ok(FOLDER);
    }
    // The bytes are those of a word, so they are UTF-8.
    str::from_utf8(words.dir.as_slice()).map_err(|_| WordsNo::Words)
}
