//! A queue without its texts.
ghost use Rattle.std.specs.Prelude.{◌≡◌, [], take, IfOk};

use crate::jobs::{BriefJob, BriefOutput};
use mas_types::{
    Config, Job, JobNo, LineCount, List, NoMemory, Output, Owner, Queue, Route, Setting,
};
use std::alloc::Global;
use std::marker::Model;

/// A queue of which memory has no texts. A contract sees the queue.
#[derive(Drop)]
pub struct BriefQueue {
    /// The configuration.
    pub config: Config,
    /// The jobs, the oldest first.
    pub jobs: List<BriefJob>,
    /// The outputs, the oldest first.
    pub outputs: List<BriefOutput>,
    /// Whose each track group is.
    pub owners: List<Owner>,
    /// The setting of each member.
    pub members: List<Setting>,
    /// The lines that lead to other nodes.
    pub routes: List<Route>,
    /// What went over each line.
    pub lines: List<LineCount>,
    /// The last number that was given to a job, 0 for none.
    pub last: JobNo,
}

impl Model for BriefQueue {
    ghost use Rattle.mas_types.specs.declared.queues.Queue.{Queue};

    ghost Value = { Queue };

    ghost view = { λ a. record {
      config = a.config;
      jobs = a.jobs;
      outputs = a.outputs;
      owners = a.owners;
      members = a.members;
      routes = a.routes;
      lines = a.lines;
      last = a.last;
    } };
}

// The jobs without their texts.
fn brief_jobs(alloc: Global, jobs: &[Job]) -> Result<List<BriefJob>, NoMemory>
    ensures { IfOk result (λ brief. brief ≡ jobs.now) }
{
    let mut brief = List::new(alloc);
    for job in jobs {
        brief.push(BriefJob::of(job))?;
    }
    Ok(brief)
}

// The outputs without their texts.
fn brief_outputs(alloc: Global, outputs: &[Output]) -> Result<List<BriefOutput>, NoMemory>
    ensures { IfOk result (λ brief. brief ≡ outputs.now) }
{
    let mut brief = List::new(alloc);
    for output in outputs {
        brief.push(BriefOutput::of(output))?;
    }
    Ok(brief)
}

impl BriefQueue {
    /// A queue that memory has. NoMemory comes only when out of memory.
    pub fn of(alloc: Global, queue: Queue) -> Result<BriefQueue, NoMemory>
        ensures { IfOk result (λ brief. brief ≡ queue) }
    {
        Ok(BriefQueue {
            config: queue.config,
            jobs: brief_jobs(alloc, queue.jobs.as_slice())?,
            outputs: brief_outputs(alloc, queue.outputs.as_slice())?,
            owners: queue.owners,
            members: queue.members,
            routes: queue.routes,
            lines: queue.lines,
            last: queue.last,
        })
    }

    /// A queue that has no texts.
    pub fn without_jobs(alloc: Global, queue: Queue) -> BriefQueue
        requires jobs { queue.jobs ≡ [] }
        requires outputs { queue.outputs ≡ [] }
        ensures { result ≡ queue }
    {
        BriefQueue {
            config: queue.config,
            jobs: List::new(alloc),
            outputs: List::new(alloc),
            owners: queue.owners,
            members: queue.members,
            routes: queue.routes,
            lines: queue.lines,
            last: queue.last,
        }
    }

    /// The configuration.
    pub fn config(&self) -> Config
        ensures { result ≡ self.now.config }
    {
        self.config
    }

    /// The jobs, the oldest first.
    pub fn jobs(&self) -> &[BriefJob]
        ensures { result.now ≡ self.now.jobs }
    {
        self.jobs.as_slice()
    }

    /// Whose each track group is.
    pub fn owners(&self) -> &List<Owner>
        ensures { result.now ≡ self.now.owners }
    {
        &self.owners
    }

    /// The outputs, the oldest first.
    pub fn outputs(&self) -> &[BriefOutput]
        ensures { result.now ≡ self.now.outputs }
    {
        self.outputs.as_slice()
    }
}
