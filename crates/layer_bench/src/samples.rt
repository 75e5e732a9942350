//! Full tables of the largest spool, and their jobs.
ghost use Rattle.std.specs.Prelude.{◌≡◌, ◌≤◌, length, IfOk};
ghost use Rattle.mas_types.specs.Fit.{IsConfig};
ghost use Rattle.ckpt_tables.specs.Shape.{HasShape, page_count as page_count_lem};

use ckpt_pages::empty;
use ckpt_tables::Tables;
use lay_bytes::{JobRec, OutRec};
use mas_types::{
    Class, Config, JobFields, JobNo, Level, List, MemberId, Name8, NoMemory, OutNo, Owner, Phase,
    Prio,
};
use std::alloc::Global;

/// The most of everything: 323 pages.
fn largest() -> Config
    ensures config { IsConfig result }
    ensures pages { page_count_lem result ≡ 323 }
{
    Config {
        members: 8,
        jobs: 2_048,
        outputs: 4_096,
        volumes: 8,
        groups: 4_096,
        hold: 64,
        dormancy: 0,
        node: Name8(*b"HERE    "),
    }
}

fn job(number: u32, phase: Phase, cards: u16) -> JobRec {
    JobRec {
        number: JobNo(number),
        fields: JobFields {
            name: Name8(*b"PAYROLL1"),
            class: Class(b'A'),
            msgclass: Class(b'A'),
            prio: Prio(5),
            held: false,
            scan: false,
            restart: true,
            dest: Name8(*b"LOCAL   "),
            node: Name8(*b"HERE    "),
            origin: Name8(*b"HERE    "),
        },
        phase,
        cancelled: false,
        busy: MemberId(0),
        cards,
        order: number as u64,
    }
}

fn output(job: u32, index: u8) -> OutRec {
    OutRec {
        job: JobNo(job),
        index: OutNo(index),
        class: Class(b'A'),
        dest: Name8(*b"LOCAL   "),
        forms: Name8(*b"STD     "),
        copies: 1,
        held: false,
        busy: MemberId(0),
        mark: 0,
        lines: 100,
        order: 2_048 + job as u64 + 2_048 * index as u64,
    }
}

/// A job of this phase and so many cards in each slot.
pub(crate) fn fill_jobs(slots: &mut [Option<JobRec>], phase: Phase, cards: u16)
    requires { length slots.old ≤ 4096 }
{
    for (at, slot) in slots.iter_mut().enumerate() {
        *slot = Some(job(at as u32 + 1, phase, cards));
    }
}

fn fill_outputs(slots: &mut [Option<OutRec>])
    requires { length slots.old ≤ 4096 }
{
    for (at, slot) in slots.iter_mut().enumerate() {
        *slot = Some(output(at as u32 / 2 + 1, (at % 2) as u8 + 1));
    }
}

fn fill_owners(owners: &mut [Owner])
    requires { length owners.old ≤ 32768 }
{
    for (at, owner) in owners.iter_mut().enumerate() {
        *owner = Owner::Deck {
            job: JobNo(at as u32 / 16 + 1),
            place: (at % 16) as u16,
        };
    }
}

/// The tables of 323 pages, with a job, an output or a group's owner in each place.
pub(crate) fn full_tables(alloc: Global) -> Result<Tables, NoMemory>
    ensures shape { IfOk result HasShape }
    ensures pages { IfOk result (λ tables. page_count_lem tables.config ≡ 323) }
{
    let mut tables = empty(alloc, &largest(), &List::new(alloc))?;
    tables.last = JobNo(2_048);
    tables.order = 10_000;
    fill_jobs(tables.jobs.as_mut_slice(), Phase::Output, 100);
    fill_outputs(tables.outputs.as_mut_slice());
    fill_owners(tables.owners.as_mut_slice());
    Ok(tables)
}

/// Level 1 for each page.
pub(crate) fn first_levels(alloc: Global) -> Result<List<Level>, NoMemory>
    ensures { IfOk result (λ levels. length levels ≡ 323) }
{
    let mut levels = List::new(alloc);
    for _page in 0..323_u16 {
        levels.push(1)?;
    }
    Ok(levels)
}
