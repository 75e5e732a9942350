//! The kinds of entries: slots of jobs and of outputs, owners, members, lines, routes and levels.
ghost use Rattle.std.specs.Prelude.{◌≡◌, ◌≤◌, ◌<◌, ◌^◌, length, IfOk};
ghost use Rattle.std.specs.List.{slice_index};
ghost use Rattle.std.specs.Int.{w64, to_be_bytes};
ghost use Rattle.mas_types.specs.Fit.{IsSetting};
ghost use Rattle.mas_types.specs.Limits.{classes_most};
ghost use Rattle.lay_bytes.specs.Fields.{pieces, first_bad};
ghost use Rattle.lay_bytes.specs.Slots.{job_slot, output_slot, owner_entry, IsJobRec, IsOutRec, IsOwner, IfUsed};
ghost use Rattle.lay_bytes.proofs.SlotLemmas.{job_length, job_one, output_length, output_one, owner_length, owner_one};
ghost use Rattle.ckpt_tables.specs.Shape.{IsRoute, IsLineCount};
ghost use Rattle.ckpt_tables.specs.Pages.{setting_entry, line_entry, route_entry};
ghost use Rattle.ckpt_pages.specs.Fields.{setting_fields, classes_in, line_fields, line_in, route_fields, route_in};
ghost use Rattle.ckpt_pages.specs.Kinds.{line_size, line_apart, route_size, route_apart, level_size, level_apart, setting_size, setting_apart};

use crate::entries::{Entry, EntryError};
use lay_bytes::{
    Field, JobRec, OutRec, check_fields, read_job, read_output, read_owner, read_u16, read_u32,
    read_u64,
};
use mas_types::{Class, JobNo, Level, LineCount, List, Name8, NoMemory, Owner, Route, Setting};
use std::alloc::Global;

const SETTING_FIELDS: [Field; 6] = [
    Field::Byte(1, 1),
    Field::Classes,
    Field::Classes,
    Field::Name,
    Field::Half(1, 9_999),
    Field::Zeros(43),
];

const LINE_FIELDS: [Field; 4] = [
    Field::Word(0, u32::MAX),
    Field::Word(0, u32::MAX),
    Field::Word(0, 99_999),
    Field::Zeros(4),
];

const ROUTE_FIELDS: [Field; 3] = [Field::Name, Field::Byte(1, 8), Field::Zeros(7)];

impl Entry for Option<JobRec> {
    ghost WIDTH = { 256 };

    ghost spelling = { job_slot };

    ghost has_spelling = { IfUsed IsJobRec };

    const WIDTH: usize = 256;

    fn read(_alloc: Global, bytes: &[u8]) -> Result<Self, EntryError> {
        let mut slot = [0; 256];
        slot.copy_from_slice(bytes);
        read_job(&slot).map_err(|_| EntryError::Bad)
    }

    fn is_entry(bytes: &[u8]) -> bool {
        let mut slot = [0; 256];
        slot.copy_from_slice(bytes);
        read_job(&slot).is_ok()
    }

    ghost size = { job_length };

    ghost apart = { job_one };
}

impl Entry for Option<OutRec> {
    ghost WIDTH = { 128 };

    ghost spelling = { output_slot };

    ghost has_spelling = { IfUsed IsOutRec };

    const WIDTH: usize = 128;

    fn read(_alloc: Global, bytes: &[u8]) -> Result<Self, EntryError> {
        let mut slot = [0; 128];
        slot.copy_from_slice(bytes);
        read_output(&slot).map_err(|_| EntryError::Bad)
    }

    fn is_entry(bytes: &[u8]) -> bool {
        let mut slot = [0; 128];
        slot.copy_from_slice(bytes);
        read_output(&slot).is_ok()
    }

    ghost size = { output_length };

    ghost apart = { output_one };
}

impl Entry for Owner {
    ghost WIDTH = { 8 };

    ghost spelling = { owner_entry };

    ghost has_spelling = { IsOwner };

    const WIDTH: usize = 8;

    fn read(_alloc: Global, bytes: &[u8]) -> Result<Self, EntryError> {
        let mut entry = [0; 8];
        entry.copy_from_slice(bytes);
        read_owner(&entry).map_err(|_| EntryError::Bad)
    }

    fn is_entry(bytes: &[u8]) -> bool {
        let mut entry = [0; 8];
        entry.copy_from_slice(bytes);
        read_owner(&entry).is_ok()
    }

    ghost size = { owner_length };

    ghost apart = { owner_one };
}

impl Entry for Level {
    ghost WIDTH = { 8 };

    ghost spelling = { to_be_bytes w64 };

    ghost has_spelling = { λ level. level < 2 ^ 64 };

    const WIDTH: usize = 8;

    fn read(_alloc: Global, bytes: &[u8]) -> Result<Self, EntryError> {
        Ok(read_u64(bytes, 0))
    }

    fn is_entry(bytes: &[u8]) -> bool {
        let _level = read_u64(bytes, 0);
        true
    }

    ghost size = { level_size };

    ghost apart = { level_apart };
}

pub(crate) fn name_of(bytes: &[u8]) -> Name8
    requires { length bytes.now ≡ 8 }
    ensures { result.0 ≡ bytes.now }
{
    let mut name = [0; 8];
    name.copy_from_slice(bytes);
    Name8(name)
}

fn line_of(bytes: &[u8]) -> LineCount
    requires { length bytes.now ≡ 16 }
    ensures { result ≡ line_in (pieces 0 line_fields bytes.now) }
{
    LineCount {
        sent: read_u32(bytes, 0),
        got: read_u32(bytes, 4),
        current: JobNo(read_u32(bytes, 8)),
    }
}

impl Entry for LineCount {
    ghost WIDTH = { 16 };

    ghost spelling = { line_entry };

    ghost has_spelling = { IsLineCount };

    const WIDTH: usize = 16;

    fn read(_alloc: Global, bytes: &[u8]) -> Result<Self, EntryError> {
        let Ok(()) = check_fields(&LINE_FIELDS, bytes) else {
            return Err(EntryError::Bad);
        };
        Ok(line_of(bytes))
    }

    fn is_entry(bytes: &[u8]) -> bool {
        check_fields(&LINE_FIELDS, bytes).is_ok()
    }

    ghost size = { line_size };

    ghost apart = { line_apart };
}

fn route_of(bytes: &[u8]) -> Route
    requires { length bytes.now ≡ 16 }
    ensures { result ≡ route_in (pieces 0 route_fields bytes.now) }
{
    Route {
        name: name_of(&bytes[..8]),
        line: bytes[8],
    }
}

impl Entry for Route {
    ghost WIDTH = { 16 };

    ghost spelling = { route_entry };

    ghost has_spelling = { IsRoute };

    const WIDTH: usize = 16;

    fn read(_alloc: Global, bytes: &[u8]) -> Result<Self, EntryError> {
        let Ok(()) = check_fields(&ROUTE_FIELDS, bytes) else {
            return Err(EntryError::Bad);
        };
        Ok(route_of(bytes))
    }

    fn is_entry(bytes: &[u8]) -> bool {
        check_fields(&ROUTE_FIELDS, bytes).is_ok()
    }

    ghost size = { route_size };

    ghost apart = { route_apart };
}

fn classes_of(alloc: Global, bytes: &[u8]) -> Result<List<Class>, NoMemory>
    requires size { length bytes.now ≡ 37 }
    requires few { slice_index bytes.now 0 ≤ classes_most }
    ensures { IfOk result (λ classes. classes ≡ classes_in bytes.now) }
{
    let count = bytes[0] as usize;
    let mut classes = List::new(alloc);
    for byte in &bytes[1..1 + count] {
        classes.push(Class(*byte))?;
    }
    Ok(classes)
}

fn setting_of(alloc: Global, bytes: &[u8]) -> Result<Setting, NoMemory>
    requires size { length bytes.now ≡ 128 }
    requires good { first_bad 0 setting_fields bytes.now ≡ None }
    ensures { IfOk result (λ setting. IsSetting setting × (bytes.now ≡ setting_entry setting)) }
{
    Ok(Setting {
        init: classes_of(alloc, &bytes[1..38])?,
        prt: classes_of(alloc, &bytes[38..75])?,
        forms: name_of(&bytes[75..83]),
        lines: read_u16(bytes, 83),
    })
}

impl Entry for Setting {
    ghost WIDTH = { 128 };

    ghost spelling = { setting_entry };

    ghost has_spelling = { IsSetting };

    const WIDTH: usize = 128;

    fn read(alloc: Global, bytes: &[u8]) -> Result<Self, EntryError> {
        let Ok(()) = check_fields(&SETTING_FIELDS, bytes) else {
            return Err(EntryError::Bad);
        };
        let Ok(setting) = setting_of(alloc, bytes) else {
            return Err(EntryError::NoMemory);
        };
        Ok(setting)
    }

    fn is_entry(bytes: &[u8]) -> bool {
        check_fields(&SETTING_FIELDS, bytes).is_ok()
    }

    ghost size = { setting_size };

    ghost apart = { setting_apart };
}
