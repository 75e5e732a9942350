//! When a copy was replaced.
ghost use Rattle.mas_complex.specs.Names.{IsCkpt};
ghost use Rattle.std.specs.Prelude.{◌≡◌, ◌++◌, ◌∷◌, [], None, map, OnOk, OnErr};
ghost use Rattle.mas_complex.specs.Renewals.{no_renewals as none_renewed, begun_on, ended_at, ended_on};

use mas_types::{Dev, List, NoMemory};
use std::alloc::Global;

/// A copy was replaced: from when on and until when it wasn't good for that.
#[derive(Clone, Copy)]
pub struct Renewal {
    /// The moment at which another device was to take the place of its lost one.
    pub from: u64,
    /// The moment from which on the new copy is good: its VALID gate is open. None where that didn't come.
    pub until: Option<u64>,
}

/// The renewals of both copies, in order.
#[derive(Drop)]
pub struct Renewals {
    /// The renewals of CKPT1.
    pub first: List<Renewal>,
    /// The renewals of CKPT2.
    pub second: List<Renewal>,
}

// No copy was replaced.
pub(crate) fn no_renewals(alloc: Global) -> Renewals
    ensures { result ≡ none_renewed }
{
    Renewals {
        first: List::new(alloc),
        second: List::new(alloc),
    }
}

// A replacement begins at a moment.
fn begin(renewals: &mut List<Renewal>, from: u64) -> Result<(), NoMemory>
    ensures ok { OnOk result (renewals.new ≡ renewals.old ++ record { from = from; until = None } ∷ []) }
    ensures err { OnErr result (renewals.new ≡ renewals.old) }
{
    renewals.push(Renewal { from, until: None })
}

// A replacement of the copy on a device begins at a moment. At the greatest one none does.
pub(crate) fn begin_on(renewals: &mut Renewals, dev: Dev, from: u64) -> Result<(), NoMemory>
    requires ckpt { IsCkpt dev }
    ensures ok { OnOk result (renewals.new ≡ begun_on dev from renewals.old) }
    ensures err { OnErr result (renewals.new ≡ renewals.old) }
{
    if from == u64::MAX {
        return Ok(());
    }
    match dev {
        Dev::Ckpt1 => begin(&mut renewals.first, from),
        Dev::Ckpt2 => begin(&mut renewals.second, from),
        Dev::Spool(_) => unreachable!(),
    }
}

// A replacement that is open has ended at a moment.
fn end(renewal: Renewal, now: u64) -> Renewal
    ensures { result ≡ ended_at now renewal }
{
    match renewal.until {
        Some(_) => renewal,
        None => Renewal {
            from: renewal.from,
            until: Some(now),
        },
    }
}

fn end_all(renewals: &mut [Renewal], now: u64)
    ensures { renewals.new ≡ map (ended_at now) renewals.old }
{
    for renewal in renewals.iter_mut() {
        *renewal = end(*renewal, now);
    }
}

// Each replacement of the copy on a device that is open has ended at a moment.
pub(crate) fn end_on(renewals: &mut Renewals, dev: Dev, now: u64)
    requires ckpt { IsCkpt dev }
    ensures { renewals.new ≡ ended_on dev now renewals.old }
{
    match dev {
        Dev::Ckpt1 => end_all(renewals.first.as_mut_slice(), now),
        Dev::Ckpt2 => end_all(renewals.second.as_mut_slice(), now),
        Dev::Spool(_) => unreachable!(),
    }
}
