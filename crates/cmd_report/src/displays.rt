//! Displays.
ghost use Rattle.std.specs.Prelude.{◌≡◌, ◌≤◌, ◌++◌, [], ◌∷◌, map, filter, length, All, IfOk, OnOk, decimal, find};
ghost use Rattle.mas_types.specs.Limits.{members_most};
ghost use Rattle.mas_types.specs.Queue.{has_number, is_of as is_of_lem, line_count as line_count_lem};
ghost use Rattle.mas_types.specs.Row.{ComesTo};
ghost use Rattle.mas_types.specs.Shown.{busy_text, held_text, output_key, job_line as job_line_lem, output_line as output_line_lem, volume_line as volume_line_lem, volume_lines, member_line as member_line_lem, member_lines, show_row};
ghost use Rattle.mas_types.specs.Names.{name_text};
ghost use Rattle.mas_types.specs.Owners.{free_count as free_count_lem};
ghost use Rattle.std.specs.Option.{option_copied};
ghost use Rattle.cmd_report.specs.Named.{IsNamed};

use mas_types::words::{
    push_classes, push_decimal, push_digits, push_key, push_member, push_name, push_output_key,
    push_phase, push_text,
};
use mas_types::{
    Job, JobNo, Lines, List, MemberId, NoMemory, Output, Owner, Queue, Refusal, Reply, Setting,
    Text, What,
};
use std::alloc::Global;

/// What a display of the queue answers: its lines, or NoJob where it is of a job that isn't there. NoMemory comes only
/// when out of memory.
pub fn show(alloc: Global, queue: &Queue, what: What) -> Result<Reply, NoMemory>
    requires { IsNamed queue.now }
    ensures { IfOk result (λ reply. ComesTo queue.now (show_row queue.now what) queue.now reply) }
{
    let mut lines = Lines::new(alloc);
    match what {
        What::Queue => push_jobs(alloc, &mut lines, queue.jobs.as_slice())?,
        What::Job(number) => {
            let Some(job) = job_of(queue.jobs.as_slice(), number) else {
                return Ok(Reply::No(Refusal::NoJob));
            };
            push_job(alloc, &mut lines, job)?;
            push_outputs_of(alloc, &mut lines, number, queue.outputs.as_slice())?;
        }
        What::Outputs => push_outputs(alloc, &mut lines, queue.outputs.as_slice())?,
        What::Spool => push_volumes(alloc, &mut lines, queue)?,
        What::Members => push_members(alloc, &mut lines, queue.members.as_slice())?,
    }
    Ok(Reply::Shown(lines))
}

fn job_of(jobs: &[Job], number: JobNo) -> Option<&Job>
    ensures { option_copied result ≡ find (has_number number) jobs.now }
{
    jobs.iter().find(|job| job.number.0 == number.0)
}

fn push_jobs(alloc: Global, lines: &mut Lines, jobs: &[Job]) -> Result<(), NoMemory>
    requires { All (λ j. j.busy.0 ≤ members_most) jobs.now }
    ensures { OnOk result (lines.new ≡ lines.old ++ map job_line_lem jobs.now) }
{
    for job in jobs {
        push_job(alloc, lines, job)?;
    }
    Ok(())
}

fn push_job(alloc: Global, lines: &mut Lines, job: &Job) -> Result<(), NoMemory>
    requires { job.now.busy.0 ≤ members_most }
    ensures { OnOk result (lines.new ≡ lines.old ++ job_line_lem job.now ∷ []) }
{
    let line = job_line(alloc, job)?;
    lines.push(line.as_slice())
}

fn push_outputs(alloc: Global, lines: &mut Lines, outputs: &[Output]) -> Result<(), NoMemory>
    requires { All (λ o. o.busy.0 ≤ members_most) outputs.now }
    ensures { OnOk result (lines.new ≡ lines.old ++ map output_line_lem outputs.now) }
{
    for output in outputs {
        push_output(alloc, lines, output)?;
    }
    Ok(())
}

fn push_outputs_of(
    alloc: Global,
    lines: &mut Lines,
    number: JobNo,
    outputs: &[Output],
) -> Result<(), NoMemory>
    requires { All (λ o. o.busy.0 ≤ members_most) outputs.now }
    ensures { OnOk result (lines.new ≡ lines.old ++ map output_line_lem (filter (is_of_lem number) outputs.now)) }
{
    for output in outputs {
        if output.job.0 == number.0 {
            push_output(alloc, lines, output)?;
        }
    }
    Ok(())
}

fn push_output(alloc: Global, lines: &mut Lines, output: &Output) -> Result<(), NoMemory>
    requires { output.now.busy.0 ≤ members_most }
    ensures { OnOk result (lines.new ≡ lines.old ++ output_line_lem output.now ∷ []) }
{
    let line = output_line(alloc, output)?;
    lines.push(line.as_slice())
}

fn push_volumes(alloc: Global, lines: &mut Lines, queue: &Queue) -> Result<(), NoMemory>
    ensures { OnOk result (lines.new
        ≡ lines.old ++ volume_lines 1 queue.now.config.volumes queue.now.owners queue.now.config.groups) }
{
    let groups = queue.config.groups;
    let mut rest = queue.owners.as_slice();
    for before in 0..queue.config.volumes {
        let n = rest.len().min(groups as usize);
        let line = volume_line(alloc, before as u16 + 1, &rest[..n], groups)?;
        lines.push(line.as_slice())?;
        rest = &rest[n..];
    }
    Ok(())
}

fn push_members(alloc: Global, lines: &mut Lines, members: &[Setting]) -> Result<(), NoMemory>
    requires { length members.now ≤ members_most }
    ensures { OnOk result (lines.new ≡ lines.old ++ member_lines 1 members.now) }
{
    for (before, setting) in members.iter().enumerate() {
        let line = member_line(alloc, MemberId(before as u8 + 1), setting)?;
        lines.push(line.as_slice())?;
    }
    Ok(())
}

fn job_line(alloc: Global, job: &Job) -> Result<List<u8>, NoMemory>
    requires { job.now.busy.0 ≤ members_most }
    ensures { IfOk result (λ line. line ≡ job_line_lem job.now) }
{
    let mut line = List::new(alloc);
    push_key(&mut line, job.number)?;
    line.push(b' ')?;
    push_name(&mut line, &job.fields.name)?;
    line.push(b' ')?;
    line.push(job.fields.class.0)?;
    line.push(b' ')?;
    push_digits(&mut line, 2, job.fields.prio.0 as u64)?;
    line.push(b' ')?;
    push_phase(&mut line, job.phase)?;
    push_use(&mut line, job.busy, job.fields.held)?;
    Ok(line)
}

// Who works on it, and whether it is held, each behind a blank.
fn push_use(line: &mut List<u8>, busy: MemberId, held: bool) -> Result<(), NoMemory>
    requires { busy.0 ≤ members_most }
    ensures { OnOk result (line.new ≡ line.old ++ 32 ∷ busy_text busy ++ 32 ∷ held_text held) }
{
    line.push(b' ')?;
    push_busy(line, busy)?;
    line.push(b' ')?;
    push_text(line, held_word(held))
}

fn push_busy(line: &mut List<u8>, busy: MemberId) -> Result<(), NoMemory>
    requires { busy.0 ≤ members_most }
    ensures { OnOk result (line.new ≡ line.old ++ busy_text busy) }
{
    if busy.0 == 0 {
        push_text(line, b"-")
    } else {
        push_member(line, busy)
    }
}

fn held_word(held: bool) -> &'static [u8]
    ensures { result.now ≡ held_text held }
{
    if held { b"HELD" } else { b"-" }
}

fn output_line(alloc: Global, output: &Output) -> Result<List<u8>, NoMemory>
    requires { output.now.busy.0 ≤ members_most }
    ensures { IfOk result (λ line. line ≡ output_line_lem output.now) }
{
    let mut line = List::new(alloc);
    push_sorting(&mut line, output)?;
    push_counts(&mut line, output)?;
    push_use(&mut line, output.busy, output.held)?;
    Ok(line)
}

// The output's key, its class and its destination.
fn push_sorting(line: &mut List<u8>, output: &Output) -> Result<(), NoMemory>
    ensures { OnOk result (line.new
        ≡ line.old ++ (output_key output.now.job output.now.index
        ++ 32 ∷ output.now.class.0 ∷ 32 ∷ name_text output.now.dest)) }
{
    push_output_key(line, output.job, output.index)?;
    line.push(b' ')?;
    line.push(output.class.0)?;
    line.push(b' ')?;
    push_name(line, &output.dest)
}

// An output's forms, copies, lines and mark, each after a blank.
fn push_counts(line: &mut List<u8>, output: &Output) -> Result<(), NoMemory>
    ensures { OnOk result (line.new
        ≡ line.old ++ 32 ∷ (name_text output.now.forms
        ++ 32 ∷ (decimal output.now.copies
        ++ 32 ∷ (decimal (line_count_lem output.now.text) ++ 32 ∷ decimal output.now.mark)))) }
{
    line.push(b' ')?;
    push_name(line, &output.forms)?;
    push_number(line, output.copies as u64)?;
    push_number(line, line_count(&output.text) as u64)?;
    push_number(line, output.mark as u64)
}

// A number behind a blank.
fn push_number(line: &mut List<u8>, n: u64) -> Result<(), NoMemory>
    ensures { OnOk result (line.new ≡ line.old ++ 32 ∷ decimal n) }
{
    line.push(b' ')?;
    push_decimal(line, n)
}

fn line_count(text: &Text) -> usize
    ensures { result ≡ line_count_lem text.now }
{
    match text {
        Text::Whole(lines) => lines.len(),
        Text::Gone(_, count) => *count as usize,
    }
}

fn volume_line(
    alloc: Global,
    volume: u16,
    owners: &[Owner],
    groups: u16,
) -> Result<List<u8>, NoMemory>
    requires { length owners.now ≤ groups }
    ensures { IfOk result (λ line. line ≡ volume_line_lem volume owners.now groups) }
{
    let mut line = List::new(alloc);
    push_text(&mut line, b"VOL")?;
    push_decimal(&mut line, volume as u64)?;
    push_text(&mut line, b" FREE")?;
    push_number(&mut line, free_count(owners) as u64)?;
    push_text(&mut line, b" OF")?;
    push_number(&mut line, groups as u64)?;
    Ok(line)
}

fn free_count(owners: &[Owner]) -> usize
    ensures { result ≡ free_count_lem owners.now }
{
    owners
        .iter()
        .filter(|owner| matches!(**owner, Owner::Free))
        .count()
}

fn member_line(alloc: Global, member: MemberId, setting: &Setting) -> Result<List<u8>, NoMemory>
    requires { member.0 ≤ members_most }
    ensures { IfOk result (λ line. line ≡ member_line_lem member.0 setting.now) }
{
    let mut line = List::new(alloc);
    push_member(&mut line, member)?;
    push_text(&mut line, b" INIT=")?;
    push_classes(&mut line, setting.init.as_slice())?;
    push_text(&mut line, b" PRT=")?;
    push_classes(&mut line, setting.prt.as_slice())?;
    push_text(&mut line, b" F=")?;
    push_name(&mut line, &setting.forms)?;
    push_text(&mut line, b" L=")?;
    push_decimal(&mut line, setting.lines as u64)?;
    Ok(line)
}
