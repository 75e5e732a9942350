//! The next work unit of a member, by an index.
ghost use Rattle.std.specs.Prelude.{◌≡◌, ◌≤◌, ◌*◌, is_some, option_map, nat_lt, if◌then◌else◌};
ghost use Rattle.mas_types.specs.declared.queues.Queue.{Queue};
ghost use Rattle.mas_types.specs.Limits.{members_most};
ghost use Rattle.mas_types.specs.Queue.{first_in, printing_at, in_purge, in_output, in_execute, in_convert};
ghost use Rattle.mas_types.specs.Selection.{for_convert, for_execute, for_printer};
ghost use Rattle.mas_types.specs.Units.{unit_of, print_unit as print_unit_lem, working_at};
ghost use Rattle.queue_commands.specs.Telling.{Tell};
ghost use Rattle.job_select.specs.Behind.{IsKept};
ghost use Rattle.job_select.specs.Indexes.{IsOf};

use ckpt_tables::Tables;
use job_select::{Index, KeptIndex};
use lay_bytes::OutRec;
use mas_types::{JobNo, MemberId, Unit};
use queue_commands::{setting, unit};

/// The next unit of a member, that of `unit`: by the index that is kept with the tables, or by walks over all slots
/// if it is lost.
pub fn find_unit(tables: &Tables, kept: &KeptIndex, by: MemberId) -> Unit
    requires member { by.0 ≤ members_most }
    requires kept { IsKept kept.now tables.now }
    ensures { (Q : Queue) → Tell tables.now Q → result ≡ unit_of Q by }
{
    if kept.current {
        return unit_with(tables, &kept.index, by);
    }
    unit(tables, by)
}

/// The next unit of a member, that of `unit`: the first that applies, Idle where none does. The
/// index is that of the tables.
pub fn unit_with(tables: &Tables, index: &Index, by: MemberId) -> Unit
    requires member { by.0 ≤ members_most }
    requires indexed { IsOf index.now tables.now }
    ensures { (Q : Queue) → Tell tables.now Q → result ≡ unit_of Q by }
{
    if let Some(unit) = printing(tables, index, by) {
        return unit;
    }
    if any_to_pick(tables, index, by) {
        return Unit::Pick;
    }
    if any_to_purge(tables, index) {
        return Unit::Purge;
    }
    if any_to_gather(tables, index) {
        return Unit::Gather;
    }
    if let Some(job) = running(tables, index, by) {
        return Unit::Run(job);
    }
    if let Some(job) = converting(tables, index, by) {
        return Unit::Convert(job);
    }
    if any_to_execute(tables, index, by) {
        return Unit::TakeExec;
    }
    if any_to_convert(tables, index) {
        return Unit::TakeConvert;
    }
    Unit::Idle
}

fn print_unit(output: &OutRec) -> Unit
    ensures { result ≡ (if nat_lt output.now.mark (output.now.lines * output.now.copies)
        then Unit.Print output.now.job output.now.index
        else Unit.Finish output.now.job output.now.index) }
{
    if output.mark < output.lines as u32 * output.copies as u32 {
        Unit::Print(output.job, output.index)
    } else {
        Unit::Finish(output.job, output.index)
    }
}

fn printing(tables: &Tables, index: &Index, by: MemberId) -> Option<Unit>
    requires { IsOf index.now tables.now }
    ensures { (Q : Queue) → Tell tables.now Q
        → result ≡ option_map print_unit_lem (printing_at Q by) }
{
    match index.printing(by) {
        Some(output) => Some(print_unit(&output)),
        None => None,
    }
}

fn any_to_pick(tables: &Tables, index: &Index, by: MemberId) -> bool
    requires member { by.0 ≤ members_most }
    requires indexed { IsOf index.now tables.now }
    ensures { (Q : Queue) → Tell tables.now Q → result ≡ is_some (for_printer Q by) }
{
    match setting(tables, by) {
        Some(setting) => index.any_output(by, setting),
        None => false,
    }
}

fn any_to_purge(tables: &Tables, index: &Index) -> bool
    requires { IsOf index.now tables.now }
    ensures { (Q : Queue) → Tell tables.now Q → result ≡ is_some (first_in in_purge Q) }
{
    index.purge().is_some()
}

fn any_to_gather(tables: &Tables, index: &Index) -> bool
    requires { IsOf index.now tables.now }
    ensures { (Q : Queue) → Tell tables.now Q → result ≡ is_some (first_in in_output Q) }
{
    index.gather().is_some()
}

fn running(tables: &Tables, index: &Index, by: MemberId) -> Option<JobNo>
    requires { IsOf index.now tables.now }
    ensures { (Q : Queue) → Tell tables.now Q
        → result ≡ option_map (λ j. j.number) (working_at Q by in_execute) }
{
    index.running(by)
}

fn converting(tables: &Tables, index: &Index, by: MemberId) -> Option<JobNo>
    requires { IsOf index.now tables.now }
    ensures { (Q : Queue) → Tell tables.now Q
        → result ≡ option_map (λ j. j.number) (working_at Q by in_convert) }
{
    index.converting(by)
}

fn any_to_execute(tables: &Tables, index: &Index, by: MemberId) -> bool
    requires { IsOf index.now tables.now }
    ensures { (Q : Queue) → Tell tables.now Q → result ≡ is_some (for_execute Q by) }
{
    match setting(tables, by) {
        Some(setting) => index.any_exec(&setting.init),
        None => false,
    }
}

fn any_to_convert(tables: &Tables, index: &Index) -> bool
    requires { IsOf index.now tables.now }
    ensures { (Q : Queue) → Tell tables.now Q → result ≡ is_some (for_convert Q) }
{
    index.any_convert()
}
