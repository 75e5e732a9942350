//! Reads a stream that comes over a line to another node, in chunks.
use mas_types::{Lines, List, Name8, NoMemory};
use nje_frames::{Frame, FrameReader, write_frame};
use std::alloc::Global;

// The stream is this long, or up to a frame longer, before it comes again.
const STREAM_BYTES: usize = 1 << 20;

// The bytes of a chunk, as many as a step takes from a line.
const CHUNK_BYTES: usize = 65_536;

const CARD: &[u8] =
    b"A CARD OF DATA THAT FILLS ALL OF ITS EIGHTY COLUMNS WITH TEXT UP TO THE LAST ONE";

// A job with so many cards of so many bytes, behind its JOB statement.
fn job(alloc: Global, cards: u32, width: u32) -> Result<Frame, NoMemory> {
    let card = &CARD[..CARD.len().min(width as usize)];
    let mut text = Lines::new(alloc);
    text.push(b"//PAYROLL JOB (1234),'THE NAME OF ONE',CLASS=B")?;
    for _card in 1..cards {
        text.push(card)?;
    }
    Ok(Frame::Job {
        number: 1,
        origin: Name8(*b"HERE    "),
        node: Name8(*b"FAR     "),
        text,
    })
}

// The job's frame and an acknowledgement, again and again.
fn stream(alloc: Global, cards: u32, width: u32) -> Result<Vec<u8>, NoMemory> {
    let job = write_frame(alloc, &job(alloc, cards, width)?)?;
    let ack = write_frame(alloc, &Frame::Ack(1))?;
    let mut bytes = Vec::new(alloc);
    for _frame in 0..STREAM_BYTES {
        if bytes.len() >= STREAM_BYTES {
            break;
        }
        bytes.extend_from_slice(job.as_slice())?;
        bytes.extend_from_slice(ack.as_slice())?;
    }
    Ok(bytes)
}

// How many frames were read in all.
fn read_often(alloc: Global, bytes: &[u8], count: u32) -> Result<usize, NoMemory> {
    let mut reader = FrameReader::new(alloc);
    let mut read = 0usize;
    for _time in 0..count {
        for piece in bytes.chunks(CHUNK_BYTES) {
            let mut frames = List::new(alloc);
            reader.feed(piece, &mut frames)?;
            read = read.saturating_add(frames.len());
        }
    }
    Ok(read)
}

/// Reads a stream as often as the first number says, of jobs with as many cards as the second says, of as many bytes as
/// the third says.
pub fn run(alloc: Global, numbers: [u32; 3]) -> bool {
    let [count, cards, width] = numbers;
    match stream(alloc, cards, width) {
        Ok(bytes) => read_often(alloc, bytes.as_slice(), count).is_ok(),
        Err(_) => false,
    }
}
