//! The tables of an empty queue.
ghost use Rattle.std.specs.Prelude.{◌≡◌, ◌≤◌, length, IfOk};
ghost use Rattle.mas_types.specs.Fit.{IsConfig};
ghost use Rattle.mas_types.specs.Limits.{routes_most};
ghost use Rattle.ckpt_tables.specs.Shape.{HasShape};
ghost use Rattle.ckpt_pages.specs.Starts.{empty_tables};
ghost use Rattle.ckpt_pages.specs.Laws.{EmptyHasSpelling, AreFirstLevels, EmptyStandsForEmpty};

use crate::copying::repeated;
use ckpt_tables::Tables;
use mas_types::{Config, List, NoMemory, Queue, Route, empty_queue};
use std::alloc::Global;

/// The tables that a cold start begins with: no job and no output, every group Free, the default setting for each
/// member, these routes, and no number and no order given. NoMemory comes only when out of memory.
pub fn empty(alloc: Global, config: &Config, routes: &List<Route>) -> Result<Tables, NoMemory>
    requires config { IsConfig config.now }
    requires routes { length routes.now ≤ routes_most }
    ensures value { IfOk result (λ tables. tables ≡ empty_tables config.now routes.now) }
    ensures shape { IfOk result HasShape }
{
    let Queue {
        config,
        jobs: _,
        outputs: _,
        owners,
        members,
        routes,
        lines,
        last,
    } = empty_queue(alloc, config, routes)?;
    Ok(Tables {
        config,
        jobs: repeated(alloc, None, config.jobs as usize)?,
        outputs: repeated(alloc, None, config.outputs as usize)?,
        owners,
        members,
        routes,
        lines,
        last,
        order: 0,
    })
}

/// Empty tables have a spelling, with level 1 for every page, and stand for the empty queue.
pub fn law_of_empty_tables()
    ensures spelling { EmptyHasSpelling }
    ensures levels { AreFirstLevels }
    ensures queue { EmptyStandsForEmpty }
{}
