//! Reads a deck of 9,999 cards.
use card_reader::{DeckNo, read_deck};
use mas_types::limits::TEXT_LINES_MOST;
use mas_types::{Lines, Name8, NoMemory};
use std::alloc::Global;

// The card with this number: a JOB statement, and then steps with data.
fn card(number: usize) -> &'static [u8] {
    if number == 0 {
        return b"//PAYROLL JOB (1234),'THE NAME OF ONE',CLASS=B,MSGCLASS=C,PRTY=9";
    }
    match number % 8 {
        1 => b"//STEP1    EXEC PGM=IEBGENER,PARM='A,B''C'      A COMMENT BEHIND THE OPERANDS",
        2 => b"//SYSUT2   DD SYSOUT=(A,,STD),DEST=LOCAL,COPIES=2,",
        3 => b"//            HOLD=YES                           THE STATEMENT GOES ON HERE",
        4 => b"//SYSUT1   DD *",
        _ => b"A CARD OF DATA THAT FILLS ALL OF ITS EIGHTY COLUMNS WITH TEXT UP TO THE LAST ONE",
    }
}

fn cards(alloc: Global) -> Result<Lines, NoMemory> {
    let mut cards = Lines::new(alloc);
    for number in 0..TEXT_LINES_MOST {
        cards.push(card(number))?;
    }
    Ok(cards)
}

// How many cards were stored in all.
fn read_often(alloc: Global, count: u32) -> Result<usize, DeckNo> {
    let cards = cards(alloc)?;
    let mut stored = 0usize;
    for _time in 0..count {
        let deck = read_deck(alloc, Name8(*b"HERE    "), &cards)?;
        stored = stored.saturating_add(deck.text.len());
    }
    Ok(stored)
}

/// Reads the deck so many times.
pub fn run(alloc: Global, numbers: [u32; 3]) -> bool {
    read_often(alloc, numbers[0]).is_ok()
}
