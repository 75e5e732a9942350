//! `Copied`: values that can be copied where there is memory.
ghost use Rattle.std.specs.Prelude.{◌≡◌, IfOk};

use crate::commands::{Command, Reply};
use crate::ids::NoMemory;
use crate::jobs::{Job, OutSpec, Output, Text};
use crate::journals::Entry;
use crate::lists::List;
use crate::queues::{Queue, Setting};
use crate::texts::Lines;
use std::alloc::Global;

/// A value that can be copied where there is memory.
pub trait Copied: Sized {
    /// An equal value.
    fn copy(&self, alloc: Global) -> Result<Self, NoMemory>
        ensures { IfOk result (λ copy. copy ≡ self.now) };
}

impl<T: Copy> Copied for T {
    fn copy(&self, _alloc: Global) -> Result<Self, NoMemory> {
        Ok(*self)
    }
}

impl<T: Copied + Drop> Copied for List<T> {
    fn copy(&self, alloc: Global) -> Result<Self, NoMemory> {
        let mut copies = List::new(alloc);
        for item in self.as_slice() {
            copies.push(item.copy(alloc)?)?;
        }
        Ok(copies)
    }
}

impl Copied for Lines {
    fn copy(&self, alloc: Global) -> Result<Self, NoMemory> {
        self.copied(alloc)
    }
}

impl Copied for Text {
    fn copy(&self, alloc: Global) -> Result<Self, NoMemory> {
        Ok(match self {
            Text::Whole(lines) => Text::Whole(lines.copy(alloc)?),
            Text::Gone(group, count) => Text::Gone(*group, *count),
        })
    }
}

impl Copied for Job {
    fn copy(&self, alloc: Global) -> Result<Self, NoMemory> {
        Ok(Job {
            number: self.number,
            fields: self.fields,
            phase: self.phase,
            cancelled: self.cancelled,
            busy: self.busy,
            text: self.text.copy(alloc)?,
        })
    }
}

impl Copied for OutSpec {
    fn copy(&self, alloc: Global) -> Result<Self, NoMemory> {
        Ok(OutSpec {
            class: self.class,
            dest: self.dest,
            forms: self.forms,
            copies: self.copies,
            held: self.held,
            text: self.text.copy(alloc)?,
        })
    }
}

impl Copied for Output {
    fn copy(&self, alloc: Global) -> Result<Self, NoMemory> {
        Ok(Output {
            job: self.job,
            index: self.index,
            class: self.class,
            dest: self.dest,
            forms: self.forms,
            copies: self.copies,
            held: self.held,
            busy: self.busy,
            mark: self.mark,
            text: self.text.copy(alloc)?,
        })
    }
}

impl Copied for Setting {
    fn copy(&self, alloc: Global) -> Result<Self, NoMemory> {
        Ok(Setting {
            init: self.init.copy(alloc)?,
            prt: self.prt.copy(alloc)?,
            forms: self.forms,
            lines: self.lines,
        })
    }
}

impl Copied for Queue {
    fn copy(&self, alloc: Global) -> Result<Self, NoMemory> {
        Ok(Queue {
            config: self.config,
            jobs: self.jobs.copy(alloc)?,
            outputs: self.outputs.copy(alloc)?,
            owners: self.owners.copy(alloc)?,
            members: self.members.copy(alloc)?,
            routes: self.routes.copy(alloc)?,
            lines: self.lines.copy(alloc)?,
            last: self.last,
        })
    }
}

impl Copied for Command {
    fn copy(&self, alloc: Global) -> Result<Self, NoMemory> {
        Ok(match self {
            Command::Begin { fields } => Command::Begin { fields: *fields },
            Command::Take { want } => Command::Take { want: *want },
            Command::Drop { job } => Command::Drop { job: *job },
            Command::Enter { job, text } => Command::Enter {
                job: *job,
                text: text.copy(alloc)?,
            },
            Command::TakeConvert => Command::TakeConvert,
            Command::Converted { job } => Command::Converted { job: *job },
            Command::TakeExec => Command::TakeExec,
            Command::Ended { job, outputs } => Command::Ended {
                job: *job,
                outputs: outputs.copy(alloc)?,
            },
            Command::Gather => Command::Gather,
            Command::Pick => Command::Pick,
            Command::Mark { job, index, at } => Command::Mark {
                job: *job,
                index: *index,
                at: *at,
            },
            Command::Done { job, index } => Command::Done {
                job: *job,
                index: *index,
            },
            Command::Purge => Command::Purge,
            Command::Hold { job } => Command::Hold { job: *job },
            Command::Release { job } => Command::Release { job: *job },
            Command::Cancel { job } => Command::Cancel { job: *job },
            Command::SetPrio { job, prio } => Command::SetPrio {
                job: *job,
                prio: *prio,
            },
            Command::SetClass { job, class } => Command::SetClass {
                job: *job,
                class: *class,
            },
            Command::Out { job } => Command::Out { job: *job },
            Command::CancelOut { job, index } => Command::CancelOut {
                job: *job,
                index: *index,
            },
            Command::SetOut { job, index, class } => Command::SetOut {
                job: *job,
                index: *index,
                class: *class,
            },
            Command::Show { what } => Command::Show { what: *what },
            Command::SetInit { classes } => Command::SetInit {
                classes: classes.copy(alloc)?,
            },
            Command::SetPrt {
                classes,
                forms,
                lines,
            } => Command::SetPrt {
                classes: classes.copy(alloc)?,
                forms: *forms,
                lines: *lines,
            },
            Command::Back { lines } => Command::Back { lines: *lines },
            Command::Forward { lines } => Command::Forward { lines: *lines },
            Command::Reset { of } => Command::Reset { of: *of },
            Command::Restart => Command::Restart,
            Command::Load { line } => Command::Load { line: *line },
            Command::Sent { line, number } => Command::Sent {
                line: *line,
                number: *number,
            },
            Command::Got {
                line,
                number,
                job,
                text,
            } => Command::Got {
                line: *line,
                number: *number,
                job: *job,
                text: text.copy(alloc)?,
            },
        })
    }
}

impl Copied for Reply {
    fn copy(&self, alloc: Global) -> Result<Self, NoMemory> {
        Ok(match self {
            Reply::Plain => Reply::Plain,
            Reply::Job(job) => Reply::Job(*job),
            Reply::Output(job, index) => Reply::Output(*job, *index),
            Reply::Count(n) => Reply::Count(*n),
            Reply::Shown(lines) => Reply::Shown(lines.copy(alloc)?),
            Reply::No(why) => Reply::No(*why),
        })
    }
}

impl Copied for Entry {
    fn copy(&self, alloc: Global) -> Result<Self, NoMemory> {
        Ok(Entry {
            by: self.by,
            step: self.step,
            command: self.command.copy(alloc)?,
            reply: self.reply.copy(alloc)?,
        })
    }
}
