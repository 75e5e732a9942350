//! The sittings of a step that gives a command, and of a deck's.
ghost use Rattle.std.specs.Prelude.{All};
ghost use Rattle.member_sittings.specs.Names.{IsReplyNamed, AreLines, Deck as DeckTask, Fresh, Give, SpoolDeck};
ghost use Rattle.member_sittings.specs.Asides.{DeckIsSpooled, IsReadDeck, deck_found};
ghost use Rattle.member_sittings.specs.Ends.{deck_ending};
ghost use Rattle.member_sittings.specs.Sat.{EndsSitting, Sits, begins, resumes};
ghost use Rattle.member_sittings.specs.Whole.{IsGivable, MayKeepBatch, MaySit};

use crate::closing::{end_sitting, give_up_sitting, pause_sitting};
use crate::ends::SittingEnd;
use card_reader::Deck;
use mas_complex::{Complex, Steady};
use mas_types::{Command, JobNo, Lines};
use member_decks::{Opened, finishing, last_lines};
use member_node::{Member, NodeNo};
use member_opening::open_deck;
use member_steps::give;
use queue_texts::{law_of_entered_texts, law_of_texts};
use spool_plant::Plant;
use spool_text::groups_needed;
use std::alloc::Global;
use step_turns::{Aside, Holder, State};

/// The only sitting of a step that gives a command: the command is done on the member's tables and kept, and the lines
/// of its reply are said. All memory is taken before the first write.
///
/// NoMemory leaves the journal and the copies as they were. BothLost comes only where both copies count as lost at the
/// end of the call, Halted only where the member was stopped in it, ConsoleFault only where the console failed. After
/// an error the member can't go on.
pub fn sit_command<P: Plant + Drop, C: Steady + Drop>(
    member: &mut Member,
    alloc: Global,
    complex: &mut Complex<P, C>,
    holder: Holder,
    command: Command,
) -> Result<SittingEnd, NodeNo>
    requires may { MaySit complex.old member.old holder }
    requires givable { IsGivable complex.old.base member.old.id command }
    ensures { Sits (begins holder (Fresh (Give command))) complex.old complex.new member.old member.new
        result }
{
    complex.kept_texts();
    law_of_texts();
    let Ok(lines) = give(member, alloc, holder.step, command) else {
        return Err(NodeNo::NoMemory);
    };
    end_sitting(member, alloc, complex, holder, State::Told, &lines)
}

/// Ends a sitting and its deck's step: the member's batch is kept, and the step closes with the reply to its last
/// command that isn't Drop, or with the volume that was found lost.
///
/// The errors are those of the end of any sitting with lines: NoMemory leaves the batch unbegun.
pub fn close_deck<P: Plant + Drop, C: Steady + Drop>(
    member: &mut Member,
    alloc: Global,
    complex: &mut Complex<P, C>,
    holder: Holder,
    lost: Option<u8>,
) -> Result<SittingEnd, NodeNo>
    requires may { MayKeepBatch complex.old member.old holder }
    requires named { All (λ e. IsReplyNamed e.reply) member.old.batch }
    ensures { EndsSitting (deck_ending holder member.old.batch lost) complex.old complex.new
        member.old member.new result }
{
    let Ok(lines) = last_lines(member, alloc, holder.step, lost) else {
        return Err(NodeNo::NoMemory);
    };
    end_sitting(member, alloc, complex, holder, State::Told, &lines)
}

/// The first sitting of a deck's step: its job begins and gets the groups that its text needs, and the step waits for
/// the text to be spooled. After a refused Begin or Take the step closes with that, and the job is dropped.
///
/// Out of memory, what was done of it is kept if there is memory for that. BothLost comes only where both copies
/// count as lost at the end of the call, Halted only where the member was stopped in it, ConsoleFault only where the
/// console failed. After an error the member can't go on.
pub fn sit_deck<P: Plant + Drop, C: Steady + Drop>(
    member: &mut Member,
    alloc: Global,
    complex: &mut Complex<P, C>,
    holder: Holder,
    deck: Deck,
) -> Result<SittingEnd, NodeNo>
    requires may { MaySit complex.old member.old holder }
    requires deck { IsReadDeck deck }
    ensures { Sits (begins holder (Fresh (DeckTask deck.fields deck.text))) complex.old complex.new
        member.old member.new result }
{
    complex.kept_texts();
    let groups = groups_needed(&deck.text);
    let Ok(opened) = open_deck(member, alloc, holder.step, deck.fields, groups) else {
        return Err(give_up_sitting(member, alloc, complex, holder));
    };
    let Opened::Ready(job) = opened else {
        return close_deck(member, alloc, complex, holder, None);
    };
    pause_sitting(
        member,
        alloc,
        complex,
        holder,
        Aside::SpoolDeck {
            job,
            text: deck.text,
        },
    )
}

/// A deck whose text was to go into the groups of its job.
#[derive(Drop)]
pub struct SpooledDeck {
    /// The number of its job.
    pub job: JobNo,
    /// Its cards.
    pub text: Lines,
    /// The volume that was found lost in this, if one was.
    pub lost: Option<u8>,
}

/// The second sitting of a deck's step: the job is entered with its text, or dropped where a volume was found lost, and
/// the step closes.
///
/// NoMemory leaves the journal and the copies as they were. BothLost comes only where both copies count as lost at the
/// end of the call, Halted only where the member was stopped in it, ConsoleFault only where the console failed. After
/// an error the member can't go on.
pub fn sit_spooled<P: Plant + Drop, C: Steady + Drop>(
    member: &mut Member,
    alloc: Global,
    complex: &mut Complex<P, C>,
    holder: Holder,
    deck: SpooledDeck,
) -> Result<SittingEnd, NodeNo>
    requires may { MaySit complex.old member.old holder }
    requires text { AreLines deck.text }
    requires spooled { DeckIsSpooled complex.old member.old.id deck.text deck.lost }
    ensures { Sits (resumes holder (SpoolDeck deck.job deck.text) (deck_found deck.lost)) complex.old
        complex.new member.old member.new result }
{
    complex.kept_texts();
    law_of_texts();
    law_of_entered_texts();
    let lost = deck.lost;
    let command = finishing(deck.job, deck.text, lost);
    let Ok(()) = member.do_command(alloc, holder.step, command) else {
        return Err(NodeNo::NoMemory);
    };
    close_deck(member, alloc, complex, holder, lost)
}
