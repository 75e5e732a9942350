//! A queue in one line.
use mas_types::{Job, LineCount, Output, Owner, Phase, Queue, Text};
use tests_lines::Writer;

// Two numbers, each behind a word.
fn add_two(line: &mut Writer, word: &[u8], first: u64, between: &[u8], second: u64) {
    line.add_number(word, first);
    line.add_number(between, second)
}

fn add_text(line: &mut Writer, text: &Text) {
    match text {
        Text::Whole(lines) => line.add_lines(lines, 0),
        Text::Gone(group, count) => {
            add_two(line, b" gone ", group.0 as u64, b" of ", *count as u64)
        }
    }
}

fn phase_word(phase: Phase) -> &'static [u8] {
    match phase {
        Phase::Input => b" INPUT",
        Phase::Convert => b" CONVERT",
        Phase::Execute => b" EXECUTE",
        Phase::Output => b" OUTPUT",
        Phase::Hardcopy => b" HARDCOPY",
        Phase::Purge => b" PURGE",
        Phase::Xmit => b" XMIT",
    }
}

fn add_job(line: &mut Writer, job: &Job) {
    line.add_number(b", J", job.number.0 as u64);
    line.add_fields(&job.fields);
    line.add(phase_word(job.phase));
    line.add_flag(b" cancelled", job.cancelled);
    line.add_number(b" busy ", job.busy.0 as u64);
    add_text(line, &job.text)
}

// Of what kind an output is, and where it goes.
fn add_kind(line: &mut Writer, output: &Output) {
    line.add(&[b' ', output.class.0]);
    line.add_name(&output.dest);
    line.add_name(&output.forms);
    line.add_number(b" ", output.copies as u64)
}

fn add_output(line: &mut Writer, output: &Output) {
    add_two(
        line,
        b", O",
        output.job.0 as u64,
        b".",
        output.index.0 as u64,
    );
    add_kind(line, output);
    line.add_flag(b" held", output.held);
    add_two(
        line,
        b" busy ",
        output.busy.0 as u64,
        b" mark ",
        output.mark as u64,
    );
    add_text(line, &output.text)
}

fn add_owner(line: &mut Writer, owner: &Owner) {
    match owner {
        Owner::Free => line.add(b" -"),
        Owner::Member(member) => line.add_number(b" M", member.0 as u64),
        Owner::Deck { job, place } => add_two(line, b" D", job.0 as u64, b".", *place as u64),
        Owner::Output { job, index, place } => {
            add_two(line, b" O", job.0 as u64, b".", index.0 as u64);
            line.add_number(b".", *place as u64)
        }
    }
}

fn is_used(line: &LineCount) -> bool {
    line.sent != 0 || line.got != 0 || line.current.0 != 0
}

/// Adds all of a queue but the settings of its members and its routes.
pub fn add_queue(line: &mut Writer, queue: &Queue) {
    line.add_config(&queue.config);
    line.add_number(b", last ", queue.last.0 as u64);
    for job in queue.jobs.as_slice() {
        add_job(line, job);
    }
    for output in queue.outputs.as_slice() {
        add_output(line, output);
    }
    line.add(b", groups");
    for owner in queue.owners.as_slice() {
        add_owner(line, owner);
    }
    let used = queue.lines.as_slice().iter().any(|line| is_used(line));
    line.add_flag(b", lines are used", used)
}
