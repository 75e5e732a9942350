//! What a run begins with: the default values, and a queue without jobs.
ghost use Rattle.std.specs.Prelude.{◌≡◌, ◌≤◌, IfOk, length, replicate};
ghost use Rattle.mas_types.specs.Fit.{IsConfig, IsSetting};
ghost use Rattle.mas_types.specs.Limits.{routes_most};
ghost use Rattle.mas_types.specs.Sound.{IsSound};
ghost use Rattle.mas_types.specs.Starts.{default_config as config_by_default, default_setting as setting_by_default, all_classes as every_class, classes_of as classes_of_text, no_count as count_of_nothing, empty_queue as queue_without_jobs, no_queue as queue_before_a_run};

use crate::copies::Copied;
use crate::ids::{Class, JobNo, Name8, NoMemory};
use crate::limits::WIRES_MOST;
use crate::lists::List;
use crate::queues::{Config, LineCount, Owner, Queue, Route, Setting};
use std::alloc::Global;

/// The configuration of a run whose script gives none: two members, room for 256 jobs and 512 outputs, one volume of
/// 512 track groups, a hold of 64 commands, no dormancy, and the node HERE.
pub fn default_config() -> Config
    ensures value { result ≡ config_by_default }
    ensures fits { IsConfig result }
{
    Config {
        members: 2,
        jobs: 256,
        outputs: 512,
        volumes: 1,
        groups: 512,
        hold: 64,
        dormancy: 0,
        node: Name8(*b"HERE    "),
    }
}

/// The setting of a member for which nothing was set: initiators and printer take all classes, A to Z and then 0 to 9,
/// and the printer has the forms STD and prints 20 lines at a time.
pub fn default_setting(alloc: Global) -> Result<Setting, NoMemory>
    ensures value { IfOk result (λ setting. setting ≡ setting_by_default) }
    ensures fits { IfOk result IsSetting }
{
    Ok(Setting {
        init: all_classes(alloc)?,
        prt: all_classes(alloc)?,
        forms: Name8(*b"STD     "),
        lines: 20,
    })
}

/// A queue without jobs and outputs: every group is Free, each member has the default setting, nothing went over a
/// line, and no number was given. Where the configuration and the number of routes are within the limits, it has the
/// sound parts.
pub fn empty_queue(alloc: Global, config: &Config, routes: &List<Route>) -> Result<Queue, NoMemory>
    ensures value { IfOk result (λ queue. queue ≡ queue_without_jobs config.now routes.now) }
    ensures sound { IsConfig config.now → length routes.now ≤ routes_most → IfOk result IsSound }
{
    let groups = config.volumes as usize * config.groups as usize;
    let owners = repeated(alloc, Owner::Free, groups)?;
    let lines = repeated(alloc, no_count(), WIRES_MOST as usize)?;
    let routes = routes.copy(alloc)?;
    let members = default_settings(alloc, config.members)?;
    Ok(Queue {
        config: *config,
        jobs: List::new(alloc),
        outputs: List::new(alloc),
        owners,
        members,
        routes,
        lines,
        last: JobNo(0),
    })
}

/// The queue of a run that has not begun: it has no members, no jobs and no groups, and its numbers are 0.
pub fn no_queue(alloc: Global) -> Queue
    ensures { result ≡ queue_before_a_run }
{
    Queue {
        config: Config {
            members: 0,
            jobs: 0,
            outputs: 0,
            volumes: 0,
            groups: 0,
            hold: 0,
            dormancy: 0,
            node: Name8(*b"        "),
        },
        jobs: List::new(alloc),
        outputs: List::new(alloc),
        owners: List::new(alloc),
        members: List::new(alloc),
        routes: List::new(alloc),
        lines: List::new(alloc),
        last: JobNo(0),
    }
}

fn all_classes(alloc: Global) -> Result<List<Class>, NoMemory>
    ensures { IfOk result (λ classes. classes ≡ every_class) }
{
    classes_of(alloc, b"ABCDEFGHIJKLMNOPQRSTUVWXYZ0123456789")
}

fn classes_of(alloc: Global, text: &[u8]) -> Result<List<Class>, NoMemory>
    ensures { IfOk result (λ classes. classes ≡ classes_of_text text.now) }
{
    let mut classes = List::new(alloc);
    for byte in text {
        classes.push(Class(*byte))?;
    }
    Ok(classes)
}

fn default_settings(alloc: Global, members: u8) -> Result<List<Setting>, NoMemory>
    ensures { IfOk result (λ settings. settings ≡ replicate members setting_by_default) }
{
    let mut settings = List::new(alloc);
    for _member in 0..members {
        settings.push(default_setting(alloc)?)?;
    }
    Ok(settings)
}

fn no_count() -> LineCount
    ensures { result ≡ count_of_nothing }
{
    LineCount {
        sent: 0,
        got: 0,
        current: JobNo(0),
    }
}

fn repeated<T: Copy + Drop>(alloc: Global, item: T, times: usize) -> Result<List<T>, NoMemory>
    ensures { IfOk result (λ items. items ≡ replicate times item) }
{
    let mut items = List::new(alloc);
    for _time in 0..times {
        items.push(item)?;
    }
    Ok(items)
}
