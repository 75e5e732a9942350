//! Copies of tables.
use crate::tables::Tables;
use mas_types::{Copied, NoMemory};
use std::alloc::Global;

impl Copied for Tables {
    fn copy(&self, alloc: Global) -> Result<Self, NoMemory> {
        Ok(Tables {
            config: self.config,
            jobs: self.jobs.copy(alloc)?,
            outputs: self.outputs.copy(alloc)?,
            owners: self.owners.copy(alloc)?,
            members: self.members.copy(alloc)?,
            routes: self.routes.copy(alloc)?,
            lines: self.lines.copy(alloc)?,
            last: self.last,
            order: self.order,
        })
    }
}
