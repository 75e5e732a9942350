//! The slot of a job, the slot of an output and the entry of a track group, in layout 1.
ghost use Rattle.std.specs.Int.{w16, w32, to_be_bytes};
ghost use Rattle.std.specs.Prelude.{◌≡◌, [], ◌∷◌, ◌++◌, ◌+◌, ◌≤◌, length, replicate, Ok, Some, Option, OnOk, IfOk, IfErr};
ghost use Rattle.mas_types.specs.declared.queues.Owner.{Owner as TheOwner};
ghost use Rattle.lay_bytes.specs.declared.records.JobRec.{JobRec as TheJobRec};
ghost use Rattle.lay_bytes.specs.declared.records.OutRec.{OutRec as TheOutRec};
ghost use Rattle.lay_bytes.specs.Fields.{piece, pieces};
ghost use Rattle.lay_bytes.specs.Slots.{phase_number as phase_number_lem, phase_of as phase_of_lem, flag as flag_lem, has_flag as has_flag_lem, job_flags as job_flags_lem, job_fields, fields_in, job_in, job_slot, output_fields, output_in, output_slot, owner_fields, owner_of as owner_of_lem, owner_entry, bad_field, bad_owner_field, IsJobRec, IsOutRec, IsOwner, IfUsed, IsSpelledApart};

use crate::fields::{BadField, Field, check_fields, put};
use crate::numbers::{read_u16, read_u32, read_u64};
use crate::records::{JobRec, OutRec};
use crate::runs::is_zero;
use mas_types::{Class, JobFields, JobNo, MemberId, Name8, OutNo, Owner, Phase, Prio};

/// The greatest number of a member in layout 1.
const MEMBER_MOST: u8 = 8;
/// The greatest job number in layout 1.
const JOB_MOST: u32 = 99_999;
/// The greatest index of an output among those of its job.
const INDEX_MOST: u8 = 32;
/// The greatest priority.
const PRIO_MOST: u8 = 15;
/// The most cards of a deck, and the most lines of an output.
const LINES_MOST: u16 = 9_999;

const HELD: u8 = 1;

const CANCELLED: u8 = 2;

const RESTART: u8 = 4;

const SCAN: u8 = 8;

const JOB_FIELDS: [Field; 14] = [
    Field::Byte(1, 7),
    Field::Class,
    Field::Byte(0, PRIO_MOST),
    Field::Byte(0, 15),
    Field::Byte(0, MEMBER_MOST),
    Field::Class,
    Field::Half(0, LINES_MOST),
    Field::Word(1, JOB_MOST),
    Field::Long(0, u64::MAX),
    Field::Name,
    Field::Name,
    Field::Name,
    Field::Name,
    Field::Zeros(204),
];

const OUTPUT_FIELDS: [Field; 13] = [
    Field::Byte(1, 1),
    Field::Class,
    Field::Byte(0, 1),
    Field::Byte(0, MEMBER_MOST),
    Field::Word(1, JOB_MOST),
    Field::Byte(1, INDEX_MOST),
    Field::Byte(1, u8::MAX),
    Field::Half(1, LINES_MOST),
    Field::Word(0, u32::MAX),
    Field::Long(0, u64::MAX),
    Field::Name,
    Field::Name,
    Field::Zeros(88),
];

fn phase_number(phase: Phase) -> u8
    ensures { result ≡ phase_number_lem phase }
{
    match phase {
        Phase::Input => 1,
        Phase::Convert => 2,
        Phase::Execute => 3,
        Phase::Output => 4,
        Phase::Hardcopy => 5,
        Phase::Purge => 6,
        Phase::Xmit => 7,
    }
}

fn phase_of(number: u8) -> Phase
    ensures { result ≡ phase_of_lem number }
{
    match number {
        1 => Phase::Input,
        2 => Phase::Convert,
        3 => Phase::Execute,
        4 => Phase::Output,
        5 => Phase::Hardcopy,
        6 => Phase::Purge,
        _ => Phase::Xmit,
    }
}

fn flag(value: u8, is_set: bool) -> u8
    ensures { result ≡ flag_lem value is_set }
{
    if is_set { value } else { 0 }
}

fn has_flag(value: u8, flags: u8) -> bool
    ensures { result ≡ has_flag_lem value flags }
{
    flags & value != 0
}

fn job_flags(job: &JobRec) -> u8
    ensures { result ≡ job_flags_lem job.now }
{
    flag(HELD, job.fields.held)
        + flag(CANCELLED, job.cancelled)
        + flag(RESTART, job.fields.restart)
        + flag(SCAN, job.fields.scan)
}

fn name_at(slot: &[u8], at: usize) -> Name8
    requires { at + 8 ≤ length slot.now }
    ensures { result.0 ≡ piece at 8 slot.now }
{
    let mut name = [0; 8];
    name.copy_from_slice(&slot[at..at + 8]);
    Name8(name)
}

fn fields_of(slot: &[u8; 256]) -> JobFields
    ensures { result ≡ fields_in (pieces 0 job_fields slot.now) }
{
    JobFields {
        name: name_at(slot, 20),
        class: Class(slot[1]),
        msgclass: Class(slot[5]),
        prio: Prio(slot[2]),
        held: has_flag(HELD, slot[3]),
        scan: has_flag(SCAN, slot[3]),
        restart: has_flag(RESTART, slot[3]),
        dest: name_at(slot, 28),
        node: name_at(slot, 36),
        origin: name_at(slot, 44),
    }
}

fn job_of(slot: &[u8; 256]) -> JobRec
    ensures { result ≡ job_in (pieces 0 job_fields slot.now) }
{
    JobRec {
        number: JobNo(read_u32(slot, 8)),
        fields: fields_of(slot),
        phase: phase_of(slot[0]),
        cancelled: has_flag(CANCELLED, slot[3]),
        busy: MemberId(slot[4]),
        cards: read_u16(slot, 6),
        order: read_u64(slot, 12),
    }
}

/// Reads a job's slot of 256 bytes, `None` where it is free, that is all zero.
///
/// `BadField` comes exactly where the slot is no spelling of a job. It has the least offset, in
/// bytes, of a field that is outside its range; the zeros behind the last field are one field.
pub fn read_job(slot: &[u8; 256]) -> Result<Option<JobRec>, BadField>
    ensures found { IfOk result (λ job. IfUsed IsJobRec job × (slot.now ≡ job_slot job)) }
    ensures only { (job : Option TheJobRec) → IfUsed IsJobRec job → slot.now ≡ job_slot job → result ≡ Ok job }
    ensures bad { IfErr result (λ bad. bad_field job_fields slot.now ≡ Some bad.0) }
{
    if is_zero(slot) {
        return Ok(None);
    }
    check_fields(&JOB_FIELDS, slot)?;
    Ok(Some(job_of(slot)))
}

/// Writes a job's slot of 256 bytes, over zeros; a free one stays zeros. What `read_job` reads of it is this job, where
/// each of its fields is within its range.
pub fn write_job(job: &JobRec, slot: &mut [u8])
    requires { slot.old ≡ replicate 256 0 }
    ensures { slot.new ≡ job_slot (Some job.now) }
{
    let front = [
        phase_number(job.phase),
        job.fields.class.0,
        job.fields.prio.0,
        job_flags(job),
        job.busy.0,
        job.fields.msgclass.0,
    ];
    put(&front, 0, slot);
    put(&job.cards.to_be_bytes(), 6, slot);
    put(&job.number.0.to_be_bytes(), 8, slot);
    put(&job.order.to_be_bytes(), 12, slot);
    put(&job.fields.name.0, 20, slot);
    put(&job.fields.dest.0, 28, slot);
    put(&job.fields.node.0, 36, slot);
    put(&job.fields.origin.0, 44, slot);
}

fn output_of(slot: &[u8; 128]) -> OutRec
    ensures { result ≡ output_in (pieces 0 output_fields slot.now) }
{
    OutRec {
        job: JobNo(read_u32(slot, 4)),
        index: OutNo(slot[8]),
        class: Class(slot[1]),
        dest: name_at(slot, 24),
        forms: name_at(slot, 32),
        copies: slot[9],
        held: has_flag(HELD, slot[2]),
        busy: MemberId(slot[3]),
        mark: read_u32(slot, 12),
        lines: read_u16(slot, 10),
        order: read_u64(slot, 16),
    }
}

/// Reads an output's slot of 128 bytes, `None` where it is free, that is all zero.
///
/// `BadField` comes exactly where the slot is no spelling of an output. It has the least offset,
/// in bytes, of a field that is outside its range; the zeros behind the last field are one field.
pub fn read_output(slot: &[u8; 128]) -> Result<Option<OutRec>, BadField>
    ensures found { IfOk result (λ output. IfUsed IsOutRec output × (slot.now ≡ output_slot output)) }
    ensures only { (output : Option TheOutRec) → IfUsed IsOutRec output → slot.now ≡ output_slot output
        → result ≡ Ok output }
    ensures bad { IfErr result (λ bad. bad_field output_fields slot.now ≡ Some bad.0) }
{
    if is_zero(slot) {
        return Ok(None);
    }
    check_fields(&OUTPUT_FIELDS, slot)?;
    Ok(Some(output_of(slot)))
}

/// Writes an output's slot of 128 bytes, over zeros; a free one stays zeros. What `read_output` reads of it is this
/// output, where each of its fields is within its range.
pub fn write_output(output: &OutRec, slot: &mut [u8])
    requires { slot.old ≡ replicate 128 0 }
    ensures { slot.new ≡ output_slot (Some output.now) }
{
    let front = [1, output.class.0, flag(HELD, output.held), output.busy.0];
    put(&front, 0, slot);
    put(&output.job.0.to_be_bytes(), 4, slot);
    put(&[output.index.0, output.copies], 8, slot);
    put(&output.lines.to_be_bytes(), 10, slot);
    put(&output.mark.to_be_bytes(), 12, slot);
    put(&output.order.to_be_bytes(), 16, slot);
    put(&output.dest.0, 24, slot);
    put(&output.forms.0, 32, slot);
}

fn check_owner(entry: &[u8; 8]) -> Result<(), BadField>
    ensures ok { OnOk result (bad_owner_field entry.now ≡ None) }
    ensures err { IfErr result (λ bad. bad_owner_field entry.now ≡ Some bad.0) }
{
    let fields = match entry[0] {
        0 => [
            Field::Byte(0, 0),
            Field::Byte(0, 0),
            Field::Half(0, 0),
            Field::Word(0, 0),
        ],
        1 => [
            Field::Byte(1, 1),
            Field::Byte(1, MEMBER_MOST),
            Field::Half(0, 0),
            Field::Word(0, 0),
        ],
        2 => [
            Field::Byte(2, 2),
            Field::Byte(0, 0),
            Field::Half(0, u16::MAX),
            Field::Word(1, JOB_MOST),
        ],
        _ => [
            Field::Byte(3, 3),
            Field::Byte(1, INDEX_MOST),
            Field::Half(0, u16::MAX),
            Field::Word(1, JOB_MOST),
        ],
    };
    check_fields(&fields, entry)
}

fn owner_of(kind: u8, who: u8, place: u16, job: JobNo) -> Owner
    ensures { result ≡ owner_of_lem kind who place job.0 }
{
    match kind {
        0 => Owner::Free,
        1 => Owner::Member(MemberId(who)),
        2 => Owner::Deck { job, place },
        _ => Owner::Output {
            job,
            index: OutNo(who),
            place,
        },
    }
}

/// Reads a group's entry of eight bytes.
///
/// `BadField` comes exactly where the entry is no spelling of an owner. It has the least offset,
/// in bytes, of a field that is outside its range, 0 where the kind is unknown.
pub fn read_owner(entry: &[u8; 8]) -> Result<Owner, BadField>
    ensures found { IfOk result (λ owner. IsOwner owner × (entry.now ≡ owner_entry owner)) }
    ensures only { (owner : TheOwner) → IsOwner owner → entry.now ≡ owner_entry owner → result ≡ Ok owner }
    ensures bad { IfErr result (λ bad. bad_owner_field entry.now ≡ Some bad.0) }
{
    check_owner(entry)?;
    Ok(owner_of(
        entry[0],
        entry[1],
        read_u16(entry, 2),
        JobNo(read_u32(entry, 4)),
    ))
}

fn put_entry(kind: u8, who: u8, place: u16, job: u32, entry: &mut [u8])
    requires { length entry.old ≡ 8 }
    ensures { entry.new ≡ (kind ∷ []) ++ (who ∷ []) ++ to_be_bytes w16 place ++ to_be_bytes w32 job }
{
    put(&[kind, who], 0, entry);
    put(&place.to_be_bytes(), 2, entry);
    put(&job.to_be_bytes(), 4, entry);
}

/// Writes a group's entry of eight bytes. What `read_owner` reads of it is this owner, where each
/// of its fields is within its range.
pub fn write_owner(owner: &Owner, entry: &mut [u8])
    requires { length entry.old ≡ 8 }
    ensures { entry.new ≡ owner_entry owner.now }
{
    match *owner {
        Owner::Free => put_entry(0, 0, 0, 0, entry),
        Owner::Member(member) => put_entry(1, member.0, 0, 0, entry),
        Owner::Deck { job, place } => put_entry(2, 0, place, job.0, entry),
        Owner::Output { job, index, place } => put_entry(3, index.0, place, job.0, entry),
    }
}

/// No two jobs, outputs or owners have one spelling, and each spelling has its width.
pub fn law_of_slots()
    ensures jobs { IsSpelledApart job_slot (IfUsed IsJobRec) 256 }
    ensures outputs { IsSpelledApart output_slot (IfUsed IsOutRec) 128 }
    ensures owners { IsSpelledApart owner_entry IsOwner 8 }
{}
