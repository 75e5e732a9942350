//! The next work unit of a member.
ghost use Rattle.std.specs.Prelude.{◌≡◌, ◌≤◌, ◌*◌, ◌||◌, length, is_some, option_map, nat_lt, if◌then◌else◌};
ghost use Rattle.mas_types.specs.declared.queues.Queue.{Queue};
ghost use Rattle.mas_types.specs.Limits.{members_most};
ghost use Rattle.mas_types.specs.Queue.{first_in, printing_at};
ghost use Rattle.mas_types.specs.Selection.{for_convert, for_execute, for_printer};
ghost use Rattle.mas_types.specs.Units.{unit_of, print_unit as print_unit_lem, working_at};
ghost use Rattle.job_queue.specs.Jobs.{in_phase};
ghost use Rattle.queue_telling.specs.Telling.{Tell};
ghost use Rattle.queue_effect.specs.Phases.{Tells, stands_in};

use crate::lookups::setting;
use ckpt_tables::Tables;
use job_queue::{find_convert, find_exec, find_in, find_working};
use lay_bytes::{JobRec, OutRec};
use mas_types::{JobNo, MemberId, Phase, Unit};
use output_queue::{find_for_printer, find_printing};

/// The next unit of a member: the first that applies, Idle where none does.
pub fn unit(tables: &Tables, by: MemberId) -> Unit
    requires { by.0 ≤ members_most }
    ensures { (Q : Queue) → Tell tables.now Q → result ≡ unit_of Q by }
{
    if let Some(unit) = printing(tables, by) {
        return unit;
    }
    if may_pick(tables, by) {
        return Unit::Pick;
    }
    let phases = phases_of(tables.jobs.as_slice());
    if any_in(tables, phases.purge, Phase::Purge) {
        return Unit::Purge;
    }
    if any_in(tables, phases.output, Phase::Output) {
        return Unit::Gather;
    }
    if let Some(job) = working(tables, phases.execute, by, Phase::Execute) {
        return Unit::Run(job);
    }
    if let Some(job) = working(tables, phases.convert, by, Phase::Convert) {
        return Unit::Convert(job);
    }
    if may_execute(tables, by) {
        return Unit::TakeExec;
    }
    if find_convert(tables.jobs.as_slice()).is_some() {
        return Unit::TakeConvert;
    }
    Unit::Idle
}

fn print_unit(output: &OutRec) -> Unit
    ensures { result ≡ (if nat_lt output.now.mark (output.now.lines * output.now.copies) then Unit.Print output.now.job
        output.now.index else Unit.Finish output.now.job output.now.index) }
{
    if output.mark < output.lines as u32 * output.copies as u32 {
        Unit::Print(output.job, output.index)
    } else {
        Unit::Finish(output.job, output.index)
    }
}

fn printing(tables: &Tables, by: MemberId) -> Option<Unit>
    ensures { (Q : Queue) → Tell tables.now Q → result ≡ option_map print_unit_lem (printing_at Q by) }
{
    if by.0 == 0 {
        return None;
    }
    match find_printing(tables.outputs.as_slice(), by) {
        Some(found) => Some(print_unit(&found.item)),
        None => None,
    }
}

fn may_pick(tables: &Tables, by: MemberId) -> bool
    requires { by.0 ≤ members_most }
    ensures { (Q : Queue) → Tell tables.now Q → result ≡ is_some (for_printer Q by) }
{
    match setting(tables, by) {
        Some(setting) => find_for_printer(
            tables.outputs.as_slice(),
            tables.jobs.as_slice(),
            by,
            setting,
        )
        .is_some(),
        None => false,
    }
}

/// Of the phases in which there may be work, those that any job is in.
#[derive(Clone, Copy)]
struct Phases {
    purge: bool,
    output: bool,
    execute: bool,
    convert: bool,
}

/// One look at all slots, which mostly tells that there is nothing to do.
fn phases_of(jobs: &[Option<JobRec>]) -> Phases
    ensures purge { Tells Phase.Purge jobs.now (length jobs.now) result.purge }
    ensures output { Tells Phase.Output jobs.now (length jobs.now) result.output }
    ensures execute { Tells Phase.Execute jobs.now (length jobs.now) result.execute }
    ensures convert { Tells Phase.Convert jobs.now (length jobs.now) result.convert }
{
    let mut phases = Phases {
        purge: false,
        output: false,
        execute: false,
        convert: false,
    };
    for slot in jobs {
        note_slot(&mut phases, slot);
    }
    phases
}

// Notes the phase of a slot's job.
fn note_slot(phases: &mut Phases, slot: &Option<JobRec>)
    ensures purge { phases.new.purge ≡ (stands_in Phase.Purge slot.now || phases.old.purge) }
    ensures output { phases.new.output ≡ (stands_in Phase.Output slot.now || phases.old.output) }
    ensures execute { phases.new.execute ≡ (stands_in Phase.Execute slot.now || phases.old.execute) }
    ensures convert { phases.new.convert ≡ (stands_in Phase.Convert slot.now || phases.old.convert) }
{
    if let Some(job) = slot {
        note_phase(phases, job.phase);
    }
}

fn note_phase(phases: &mut Phases, phase: Phase)
    ensures purge { phases.new.purge ≡ (in_phase Phase.Purge phase || phases.old.purge) }
    ensures output { phases.new.output ≡ (in_phase Phase.Output phase || phases.old.output) }
    ensures execute { phases.new.execute ≡ (in_phase Phase.Execute phase || phases.old.execute) }
    ensures convert { phases.new.convert ≡ (in_phase Phase.Convert phase || phases.old.convert) }
{
    match phase {
        Phase::Purge => phases.purge = true,
        Phase::Output => phases.output = true,
        Phase::Execute => phases.execute = true,
        Phase::Convert => phases.convert = true,
        Phase::Input => {}
        Phase::Hardcopy => {}
        Phase::Xmit => {}
    }
}

fn any_in(tables: &Tables, may_be: bool, phase: Phase) -> bool
    requires { Tells phase tables.now.jobs (length tables.now.jobs) may_be }
    ensures { (Q : Queue) → Tell tables.now Q → result ≡ is_some (first_in (in_phase phase) Q) }
{
    may_be && find_in(tables.jobs.as_slice(), phase).is_some()
}

fn working(tables: &Tables, may_be: bool, by: MemberId, phase: Phase) -> Option<JobNo>
    requires { Tells phase tables.now.jobs (length tables.now.jobs) may_be }
    ensures { (Q : Queue) → Tell tables.now Q → result ≡ option_map (λ j. j.number) (working_at Q by (in_phase phase)) }
{
    if by.0 == 0 {
        return None;
    }
    if !may_be {
        return None;
    }
    match find_working(tables.jobs.as_slice(), by, phase) {
        Some(found) => Some(found.item.number),
        None => None,
    }
}

fn may_execute(tables: &Tables, by: MemberId) -> bool
    ensures { (Q : Queue) → Tell tables.now Q → result ≡ is_some (for_execute Q by) }
{
    match setting(tables, by) {
        Some(setting) => find_exec(tables.jobs.as_slice(), &setting.init).is_some(),
        None => false,
    }
}
