//! Lines that a member says.
ghost use Rattle.std.specs.Prelude.{◌≡◌, None};
ghost use Rattle.mas_complex.specs.Locking.{IsUp};
ghost use Rattle.mas_complex.specs.Parts.{parts_of};
ghost use Rattle.member_steps.specs.Saying.{HaveSaid, TellKept};

use mas_complex::{Complex, Steady};
use mas_types::Lines;
use member_node::{Member, NodeNo};
use spool_plant::Plant;

/// Says lines on the console, one after another. Each step that one of them tells is kept. Answers ConsoleFault where
/// the console failed, and Halted where the member was stopped: then the lines before that one stand there.
pub fn tell_lines<P: Plant + Drop, C: Steady + Drop>(
    member: &Member,
    complex: &mut Complex<P, C>,
    lines: &Lines,
) -> Result<(), NodeNo>
    requires up { IsUp complex.old.book member.now.id }
    requires none { complex.old.current ≡ None }
    requires kept { P.tells → TellKept lines.now complex.old.journal.batches (P.view complex.old.plant).now }
    ensures pair { complex.new.pair ≡ complex.old.pair }
    ensures base { complex.new.base ≡ complex.old.base }
    ensures printed { complex.new.printed ≡ complex.old.printed }
    ensures since { complex.new.since ≡ complex.old.since }
    ensures renewals { complex.new.renewals ≡ complex.old.renewals }
    ensures book { complex.new.book ≡ complex.old.book }
    ensures journal { complex.new.journal ≡ complex.old.journal }
    ensures current { complex.new.current ≡ complex.old.current }
    ensures reserved { complex.new.reserved ≡ complex.old.reserved }
    ensures placed { complex.new.placed ≡ complex.old.placed }
    ensures first { complex.new.first ≡ complex.old.first }
    ensures second { complex.new.second ≡ complex.old.second }
    ensures level { complex.new.level ≡ complex.old.level }
    ensures frame { parts_of complex.new ≡ record (parts_of complex.old) { plant = complex.new.plant } }
    ensures said { HaveSaid P.tells member.now.id.0 lines.now (P.view complex.old.plant) (P.view complex.new.plant)
        result }
{
    for at in 0..lines.len() {
        member.tell(complex, lines.line(at))?;
    }
    Ok(())
}
