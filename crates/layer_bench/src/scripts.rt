//! Reads a script of nearly 16 MiB.
use mas_types::limits::SCRIPT_BYTES;
use script_lang::{ScriptNo, read_script};
use std::alloc::{AllocError, Global};

// The bytes of the cards of a deck, where no number says them.
const CARDS_BYTES: usize = 16_000;

// The bytes of the lines round the cards of a deck, or more.
const ROUND_BYTES: usize = 100;

// Decks of fewer bytes stand alone, since a script has at most 99,999 steps.
const ALONE_BYTES: usize = 1_000;

const CARD: &[u8] =
    b"A CARD OF DATA THAT FILLS ALL OF ITS EIGHTY COLUMNS WITH TEXT UP TO THE LAST ONE";

fn push_deck(text: &mut Vec<u8>, width: usize, cards_bytes: usize) -> Result<(), AllocError> {
    text.extend_from_slice(b"SYSA DECK\n")?;
    let card = &CARD[..width.min(CARD.len())];
    for _card in 0..cards_bytes / (card.len() + 1) {
        text.extend_from_slice(card)?;
        text.push(b'\n')?;
    }
    text.extend_from_slice(b"++END\n")?;
    if cards_bytes < ALONE_BYTES {
        return Ok(());
    }
    text.extend_from_slice(b"SYSA WORK 40\nSYSA $TPRT,Q=ABC,F=STD,L=20\n\n")
}

fn script(alloc: Global, width: usize, cards_bytes: usize) -> Result<Vec<u8>, AllocError> {
    let mut text = Vec::with_capacity(alloc, SCRIPT_BYTES)?;
    for _deck in 0..SCRIPT_BYTES {
        if text.len().saturating_add(cards_bytes) > SCRIPT_BYTES - ROUND_BYTES {
            break;
        }
        push_deck(&mut text, width, cards_bytes)?;
    }
    Ok(text)
}

// How many steps were read in all.
fn read_often(alloc: Global, text: &[u8], count: u32) -> Result<usize, ScriptNo> {
    let mut steps = 0usize;
    for _time in 0..count {
        let script = read_script(alloc, text, true, false, false)?;
        steps = steps.saturating_add(script.steps.len());
    }
    Ok(steps)
}

/// Reads a script as often as the first number says, with cards of as many bytes as the second says, in decks of as
/// many bytes as the third says, or 16,000.
pub fn run(alloc: Global, numbers: [u32; 3]) -> bool {
    let [count, width, bytes] = numbers;
    let cards_bytes = if bytes == 0 {
        CARDS_BYTES
    } else {
        bytes as usize
    };
    match script(alloc, width as usize, cards_bytes) {
        Ok(text) => read_often(alloc, text.as_slice(), count).is_ok(),
        Err(_) => false,
    }
}
