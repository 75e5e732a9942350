//! Frames into bytes.
ghost use Rattle.std.specs.Prelude.{◌≡◌, ◌<◌, ◌++◌, drop, IfOk, OnOk};
ghost use Rattle.nje_frames.specs.Grammar.{frame_text, number_text, cards_text};

use crate::frames::Frame;
use crate::{ETX, LINE_FEED, NUMBER_DIGITS, STX};
use mas_types::words::{push_digits, push_text};
use mas_types::{Lines, List, NoMemory};
use std::alloc::Global;

fn push_number(bytes: &mut List<u8>, number: u32) -> Result<(), NoMemory>
    ensures { OnOk result (bytes.new ≡ bytes.old ++ number_text number) }
{
    push_digits(bytes, NUMBER_DIGITS as u8, number as u64)
}

fn push_cards(bytes: &mut List<u8>, text: &Lines) -> Result<(), NoMemory>
    ensures { OnOk result (bytes.new ≡ bytes.old ++ cards_text text.now) }
{
    for at in 0..text.len() {
        push_text(bytes, text.line(at))?;
        bytes.push(LINE_FEED)?;
    }
    Ok(())
}

/// Writes a frame, as it stands: STX, `J`, its number in ten digits, the names of its nodes with their padding, a line
/// feed, its cards with a line feed after each, and ETX; an acknowledgement as STX, `A`, its number and ETX. Only a
/// frame within its limits is read again. NoMemory comes only when out of memory.
pub fn write_frame(alloc: Global, frame: &Frame) -> Result<List<u8>, NoMemory>
    ensures { IfOk result (λ bytes. bytes ≡ frame_text frame.now) }
{
    let mut bytes = List::new(alloc);
    bytes.push(STX)?;
    match frame {
        Frame::Job {
            number,
            origin,
            node,
            text,
        } => {
            bytes.push(b'J')?;
            push_number(&mut bytes, *number)?;
            push_text(&mut bytes, &origin.0)?;
            push_text(&mut bytes, &node.0)?;
            bytes.push(LINE_FEED)?;
            push_cards(&mut bytes, text)?;
        }
        Frame::Ack(number) => {
            bytes.push(b'A')?;
            push_number(&mut bytes, *number)?;
        }
    }
    bytes.push(ETX)?;
    Ok(bytes)
}
