//! Tests of members, names, phases and owners.
ghost use Rattle.std.specs.Prelude.{◌≡◌, ◌&&◌, not, ◌+◌, nat_lt};
ghost use Rattle.mas_types.specs.Ids.{is_somebody as is_somebody_lem, same_class as same_class_lem, same_index as same_index_lem, same_member as same_member_lem, same_name as same_name_lem, same_number as same_number_lem};
ghost use Rattle.mas_types.specs.Queue.{in_input, in_convert, in_execute, in_output, in_hardcopy, in_purge, in_xmit, is_waiting as is_waiting_lem, is_member as is_member_lem};
ghost use Rattle.mas_types.specs.Commands.Life.{runs};
ghost use Rattle.mas_types.specs.Commands.Operator.{has_yet_to_run as has_yet_to_run_lem};

use mas_types::{Class, Config, Job, JobNo, MemberId, Name8, OutNo, Phase};

/// Whether it is a member, and not nobody.
pub fn is_somebody(m: MemberId) -> bool
    ensures { result ≡ is_somebody_lem m }
{
    m.0 != 0
}

/// Whether both are one member.
pub fn same_member(a: MemberId, b: MemberId) -> bool
    ensures { result ≡ same_member_lem a b }
{
    a.0 == b.0
}

/// Whether a thing that is busy at the one is busy at another than the other.
pub fn is_elsewhere(busy: MemberId, by: MemberId) -> bool
    ensures { result ≡ (is_somebody_lem busy && not (same_member_lem busy by)) }
{
    is_somebody(busy) && !same_member(busy, by)
}

/// Whether it is one of the members of the configuration.
pub fn is_member(config: &Config, m: MemberId) -> bool
    ensures { result ≡ is_member_lem config.now m }
{
    is_somebody(m) && m.0 <= config.members
}

/// Whether both are one job's number.
pub fn same_number(a: JobNo, b: JobNo) -> bool
    ensures { result ≡ same_number_lem a b }
{
    a.0 == b.0
}

/// Whether both are one index.
pub fn same_index(a: OutNo, b: OutNo) -> bool
    ensures { result ≡ same_index_lem a b }
{
    a.0 == b.0
}

/// Whether both are one class.
pub fn same_class(a: Class, b: Class) -> bool
    ensures { result ≡ same_class_lem a b }
{
    a.0 == b.0
}

/// Whether both are one name.
pub fn same_name(a: &Name8, b: &Name8) -> bool
    ensures { result ≡ same_name_lem a.now b.now }
{
    a.0[..] == b.0[..]
}

/// Whether it is Input.
pub fn is_input(phase: Phase) -> bool
    ensures { result ≡ in_input phase }
{
    matches!(phase, Phase::Input)
}

/// Whether it is Convert.
pub fn is_convert(phase: Phase) -> bool
    ensures { result ≡ in_convert phase }
{
    matches!(phase, Phase::Convert)
}

/// Whether it is Execute.
pub fn is_execute(phase: Phase) -> bool
    ensures { result ≡ in_execute phase }
{
    matches!(phase, Phase::Execute)
}

/// Whether it is Output.
pub fn is_output(phase: Phase) -> bool
    ensures { result ≡ in_output phase }
{
    matches!(phase, Phase::Output)
}

/// Whether it is Hardcopy.
pub fn is_hardcopy(phase: Phase) -> bool
    ensures { result ≡ in_hardcopy phase }
{
    matches!(phase, Phase::Hardcopy)
}

/// Whether it is Purge.
pub fn is_purge(phase: Phase) -> bool
    ensures { result ≡ in_purge phase }
{
    matches!(phase, Phase::Purge)
}

/// Whether it is Xmit.
pub fn is_xmit(phase: Phase) -> bool
    ensures { result ≡ in_xmit phase }
{
    matches!(phase, Phase::Xmit)
}

/// Whether a job in this phase may come to its end.
pub fn may_end(phase: Phase) -> bool
    ensures { result ≡ runs phase }
{
    is_convert(phase) || is_execute(phase)
}

/// Whether the class of a job in this phase still matters to it.
pub fn has_yet_to_run(phase: Phase) -> bool
    ensures { result ≡ has_yet_to_run_lem phase }
{
    is_input(phase) || is_convert(phase) || is_execute(phase)
}

/// Whether the job is neither held nor busy.
pub fn is_waiting(job: &Job) -> bool
    ensures { result ≡ is_waiting_lem job.now }
{
    !job.fields.held && !is_somebody(job.busy)
}

/// Whether so many more than are there are too many.
pub fn are_too_many(room: usize, there: usize, more: usize) -> bool
    ensures { result ≡ nat_lt room (there + more) }
{
    there > room || room - there < more
}
