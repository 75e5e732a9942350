//! The script of so many decks. Each part adds its text at the end of the script; out of memory, a front of the
//! text may stand there.
ghost use Rattle.std.specs.Prelude.{◌≡◌, ◌≤◌, [], ◌∷◌, ◌++◌, codes, IfOk, OnOk};
ghost use Rattle.mas_types.specs.Limits.{members_most};
ghost use Rattle.gen_work.specs.Generated.{IsDeckCount, data_card, data_cards, deck_class, deck_data_count, deck_member, deck_lines, deck_priority, end_cards, job_card, line_text, lines_text, script_text, step_cards, work_lines};

use mas_types::words::{push_decimal, push_digits, push_member, push_text};
use mas_types::{Class, List, MemberId, NoMemory, Prio};
use std::alloc::Global;

/// The most decks that are made.
pub const DECKS_MOST: u32 = 1_000;

/// The script of 1 to 1,000 decks: decks 1 to `n`, given by SYSA and SYSB in turn, with `SYSA WORK 40` after each
/// fourth, and `SYSB WORK 9999` at the end. Each job prints 1 to 9 lines.
pub fn generate(alloc: Global, n: u32) -> Result<List<u8>, NoMemory>
    requires { IsDeckCount n }
    ensures { IfOk result (λ script. script ≡ script_text n) }
{
    let mut script = List::new(alloc);
    for deck in 1..=n {
        push_deck(&mut script, deck)?;
        push_work(&mut script, deck)?;
    }
    push_line(&mut script, b"SYSB WORK 9999")?;
    Ok(script)
}

// The member that gives a deck.
fn member(deck: u32) -> MemberId
    ensures is { result ≡ deck_member deck }
    ensures there { result.0 ≤ members_most }
{
    if deck % 2 == 1 {
        MemberId(1)
    } else {
        MemberId(2)
    }
}

fn class(deck: u32) -> Class
    ensures { result ≡ deck_class deck }
{
    Class(b'A' + (7 * deck as u64 % 26) as u8)
}

fn priority(deck: u32) -> Prio
    ensures { result ≡ deck_priority deck }
{
    Prio((5 * deck as u64 % 16) as u8)
}

fn data_count(deck: u32) -> u32
    ensures { result ≡ deck_data_count deck }
{
    deck % 9 + 1
}

fn push_line(script: &mut List<u8>, text: &[u8]) -> Result<(), NoMemory>
    ensures { OnOk result (script.new ≡ script.old ++ line_text text.now) }
{
    push_text(script, text)?;
    script.push(b'\n')
}

// Adds a deck, from the line of the member that gives it to its end.
fn push_deck(script: &mut List<u8>, deck: u32) -> Result<(), NoMemory>
    ensures { OnOk result (script.new ≡ script.old ++ lines_text (deck_lines deck)) }
{
    push_member(script, member(deck))?;
    push_line(script, b" DECK")?;
    push_job_card(script, deck)?;
    push_step_cards(script)?;
    push_data_cards(script, deck)?;
    push_end_cards(script)
}

fn push_job_card(script: &mut List<u8>, deck: u32) -> Result<(), NoMemory>
    ensures { OnOk result (script.new ≡ script.old ++ line_text (job_card deck)) }
{
    push_text(script, b"//G")?;
    push_digits(script, 5, deck as u64)?;
    push_text(script, b" JOB CLASS=")?;
    script.push(class(deck).0)?;
    push_text(script, b",PRTY=")?;
    push_decimal(script, priority(deck).0 as u64)?;
    script.push(b'\n')
}

fn push_step_cards(script: &mut List<u8>) -> Result<(), NoMemory>
    ensures { OnOk result (script.new ≡ script.old ++ lines_text step_cards) }
{
    push_line(script, b"//S EXEC PGM=IEBGENER")?;
    push_line(script, b"//SYSPRINT DD SYSOUT=*")?;
    push_line(script, b"//SYSIN DD DUMMY")?;
    push_line(script, b"//SYSUT1 DD *")
}

fn push_data_cards(script: &mut List<u8>, deck: u32) -> Result<(), NoMemory>
    ensures { OnOk result (script.new ≡ script.old ++ lines_text (data_cards deck)) }
{
    for number in 1..=data_count(deck) {
        push_data_card(script, deck, number)?;
    }
    Ok(())
}

fn push_data_card(script: &mut List<u8>, deck: u32, number: u32) -> Result<(), NoMemory>
    ensures { OnOk result (script.new ≡ script.old ++ line_text (data_card deck number)) }
{
    push_text(script, b"LINE ")?;
    push_decimal(script, number as u64)?;
    push_text(script, b" OF ")?;
    push_decimal(script, deck as u64)?;
    script.push(b'\n')
}

// Adds the cards after the data, and the end of the deck.
fn push_end_cards(script: &mut List<u8>) -> Result<(), NoMemory>
    ensures { OnOk result (script.new ≡ script.old ++ lines_text (end_cards ++ codes "++END" ∷ [])) }
{
    push_line(script, b"/*")?;
    push_line(script, b"//SYSUT2 DD SYSOUT=A")?;
    push_line(script, b"//")?;
    push_line(script, b"++END")
}

// After each fourth deck adds that SYSA works.
fn push_work(script: &mut List<u8>, deck: u32) -> Result<(), NoMemory>
    ensures { OnOk result (script.new ≡ script.old ++ lines_text (work_lines deck)) }
{
    if deck % 4 == 0 {
        return push_line(script, b"SYSA WORK 40");
    }
    Ok(())
}
