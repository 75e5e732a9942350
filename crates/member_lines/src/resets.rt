//! The reset of a stopped member.
ghost use Rattle.std.specs.Prelude.{◌≡◌, ◌≤◌, IfOk};
ghost use Rattle.mas_types.specs.declared.commands.Command.TheVariants as command;
ghost use Rattle.mas_types.specs.Limits.{members_most};
ghost use Rattle.mas_complex.specs.Parts.{parts_of};
ghost use Rattle.member_sittings.specs.Sat.{SitsOn, sat_in};
ghost use Rattle.member_sittings.specs.Whole.{IsGivable, MaySit};
ghost use Rattle.run_turns.specs.Pieces.{reset_closing as reset_closing_lem};
ghost use Rattle.member_lines.specs.Resets.{Resets};

use cmd_report::one_line;
use mas_complex::{Complex, Steady};
use mas_types::{Closing, Command, MemberId, Reply};
use member_node::{Member, NodeNo};
use member_sittings::{SittingEnd, end_sitting};
use queue_texts::law_of_texts;
use spool_plant::Plant;
use std::alloc::Global;
use step_turns::{Holder, State};

// How a reset closes, by the reply to it: with the name of the member that was reset.
fn reset_closing(of: MemberId, reply: &Reply) -> Closing
    ensures { result ≡ reset_closing_lem of reply.now }
{
    match reply {
        Reply::No(why) => Closing::Reply(Reply::No(*why)),
        _ => Closing::ResetOf(of),
    }
}

/// The only sitting of a line that resets a member, which is stopped: the command is done on the tables of the member
/// that gives it and kept, and the line is said with the name of the one that was reset. All memory is taken before the
/// first write.
///
/// NoMemory leaves the journal and the copies as they were. BothLost comes only where both copies count as lost at the
/// end of the call, Halted only where the member was stopped in it, ConsoleFault only where the console failed. After
/// an error the member can't go on.
pub fn sit_reset<P: Plant + Drop, C: Steady + Drop>(
    member: &mut Member,
    alloc: Global,
    complex: &mut Complex<P, C>,
    holder: Holder,
    of: MemberId,
) -> Result<SittingEnd, NodeNo>
    requires may { MaySit complex.old member.old holder }
    requires of { of.0 ≤ members_most }
    requires givable { IsGivable complex.old.base member.old.id (command.Reset of) }
    ensures frame { parts_of complex.new ≡ sat_in (parts_of complex.new) (parts_of complex.old) }
    ensures id { member.new.id ≡ member.old.id }
    ensures resets { Resets holder of complex.old complex.new result }
    ensures again { IfOk result (SitsOn complex.old complex.new member.old member.new holder.step) }
{
    complex.kept_texts();
    law_of_texts();
    let command = Command::Reset { of };
    let Ok(()) = member.do_command(alloc, holder.step, command) else {
        return Err(NodeNo::NoMemory);
    };
    let end = reset_closing(of, member.last_reply());
    let Ok(lines) = one_line(alloc, holder.by, holder.step, &end) else {
        return Err(NodeNo::NoMemory);
    };
    end_sitting(member, alloc, complex, holder, State::Told, &lines)
}
