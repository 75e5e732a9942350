//! The members of a run.
ghost use Rattle.std.specs.Prelude.{◌≡◌, ◌*◌, [], Some, All, length, IfOk};
ghost use Rattle.mas_types.specs.Fit.{IsConfig};
ghost use Rattle.mas_types.specs.Limits.{wires_most};
ghost use Rattle.run_opening.specs.Fresh.{AreFresh};

use mas_types::limits::WIRES_MOST;
use mas_types::{Config, List, MemberId, NoMemory};
use member_node::Member;
use nje_frames::FrameReader;
use std::alloc::Global;

/// The lines to other nodes that a member may serve.
const LINES: usize = WIRES_MOST as usize;

/// The members of a configuration, SYSA first. Each has read nothing and done nothing: before its first command it
/// reads what the copies have.
pub(crate) fn members_of(alloc: Global, config: &Config) -> Result<List<Member>, NoMemory>
    requires { IsConfig config.now }
    ensures { IfOk result (AreFresh config.now) }
{
    let mut members = List::new(alloc);
    for before in 0..config.members {
        let member = Member::new(alloc, MemberId(before + 1), config)?;
        members.push(member)?;
    }
    Ok(members)
}

/// What each member has read of each line to another node: nothing yet.
pub(crate) fn readers_of(alloc: Global, config: &Config) -> Result<List<FrameReader>, NoMemory>
    requires { IsConfig config.now }
    ensures many { IfOk result (λ readers. length readers ≡ wires_most * config.now.members) }
    ensures new { IfOk result (λ readers. All (λ reader. reader ≡ Some []) readers) }
{
    let mut readers = List::new(alloc);
    for _before in 0..LINES * config.members as usize {
        readers.push(FrameReader::new(alloc))?;
    }
    Ok(readers)
}
