//! A member's step, piece by piece, each in a turn at the shared value.
ghost use Rattle.std.specs.Prelude.{◌≡◌, ℕ, List, Option, length, Err, IfErr, IfOk, None, OnOk};
ghost use Rattle.lock_cycle.specs.Books.{IsMember};
ghost use Rattle.mas_complex.specs.Parts.{parts_of};
ghost use Rattle.run_turns.specs.Pieces.{entered};
ghost use Rattle.member_hand.specs.Chains.{HasTakenTurns, MayTakeTurns, begun};
ghost use Rattle.member_hand.specs.Plays.{Halts, IsAfterPiece, IsAfterStep, MayPlay, Pieced, Played, played_in, stopped_by};
ghost use Rattle.member_hand.specs.Sits.{SitsOnFrom, begins, start_of};
ghost use Rattle.member_hand.specs.Turns.{TookTurn};

use crate::asides::{act_then, nothing_found};
use crate::gates::{enter, leave, next_holder};
use crate::sits::{Stand, sit};
use gate_turns::{OneHand, Turns};
use mas_complex::{Complex, Steady};
use mas_types::MemberId;
use member_node::{Member, NodeNo};
use member_sittings::SittingEnd;
use nje_frames::FrameReader;
use spool_plant::Plant;
use std::alloc::Global;
use step_turns::{Holder, State, Task};

// The member's turn in a piece: it has the lock, or takes it again, takes its seat, and sits.
fn take_turn<P: Plant + Drop, C: Steady + Drop>(
    member: &mut Member,
    alloc: Global,
    complex: &mut Complex<P, C>,
    stand: Stand,
) -> Result<SittingEnd, NodeNo>
    requires { MayPlay complex.old member.old (start_of stand) }
    ensures frame { parts_of complex.new ≡ played_in (parts_of complex.new) (parts_of complex.old) }
    ensures id { member.new.id ≡ member.old.id }
    ensures book { complex.new.book ≡ entered complex.old.book stand.holder.by }
    ensures turn { IfOk result (TookTurn complex.old complex.new (start_of stand)) }
    ensures again { IfOk result (SitsOnFrom complex.old complex.new member.new (start_of stand)) }
    ensures cut { IfErr result (λ e. (reader : Option (List ℕ))
        → Halts complex.old complex.new member.old (start_of stand) reader reader e) }
{
    let holder = stand.holder;
    complex.retake_lock(holder.by);
    enter(member, alloc, complex, holder)?;
    sit(member, alloc, complex, stand)
}

// A piece of a step as `play_piece`, but that a member which was halted isn't stopped in the book yet, or only where it
// was halted at its printer.
fn try_piece<P: Plant + Drop, C: Steady + Drop>(
    member: &mut Member,
    alloc: Global,
    complex: &mut Complex<P, C>,
    reader: &mut FrameReader,
    stand: Stand,
) -> Result<Stand, NodeNo>
    requires { MayPlay complex.old member.old (start_of stand) }
    ensures frame { parts_of complex.new ≡ played_in (parts_of complex.new) (parts_of complex.old) }
    ensures id { member.new.id ≡ member.old.id }
    ensures piece { IfOk result (Pieced complex.old complex.new (start_of stand) reader.old reader.new) }
    ensures next { IfOk result (IsAfterPiece complex.old complex.new member.old member.new (start_of stand)) }
    ensures cut { IfErr result (Halts complex.old complex.new member.old (start_of stand) reader.old reader.new) }
    ensures members { length complex.new.book.members ≡ length complex.old.book.members }
{
    let holder = stand.holder;
    let end = take_turn(member, alloc, complex, stand)?;
    leave(complex, holder.by, &end);
    let whole = member.checkpoint.tables.config.hold;
    let next = next_holder(holder, whole, end.given);
    let found = act_then(member, alloc, complex, reader, holder.grant, &end.next)?;
    Ok(Stand {
        holder: next,
        state: end.next,
        found,
    })
}

/// A member that was halted is stopped in the book; after any other error all is as it was.
pub fn stop_halted<P: Plant + Drop, C: Steady + Drop>(
    complex: &mut Complex<P, C>,
    by: MemberId,
    why: NodeNo,
)
    requires { IsMember complex.old.book by }
    ensures { parts_of complex.new ≡ stopped_by why by (parts_of complex.old) }
{
    if why == NodeNo::Halted {
        complex.stop(by);
    }
}

/// One piece of a step that isn't told: the member has the lock, or takes it again, takes its seat and sits; what is
/// left of its hold is counted, and it leaves the lock or keeps it; then it does the acts that the step waits for.
/// Answers where the step stands then. A member that is halted in it is stopped in the book in the same call.
///
/// The reader is that of the line, if the step serves one. The errors are those of `sit` and `act_aside`. After one the
/// step is over; what it left is told for each.
pub fn play_piece<P: Plant + Drop, C: Steady + Drop>(
    member: &mut Member,
    alloc: Global,
    complex: &mut Complex<P, C>,
    reader: &mut FrameReader,
    stand: Stand,
) -> Result<Stand, NodeNo>
    requires { MayPlay complex.old member.old (start_of stand) }
    ensures frame { parts_of complex.new ≡ played_in (parts_of complex.new) (parts_of complex.old) }
    ensures id { member.new.id ≡ member.old.id }
    ensures piece { IfOk result (Pieced complex.old complex.new (start_of stand) reader.old reader.new) }
    ensures next { IfOk result (IsAfterPiece complex.old complex.new member.old member.new (start_of stand)) }
    ensures cut { IfErr result (λ e. Played complex.old complex.new member.old (start_of stand) reader.old reader.new
        (Err e)) }
{
    let by = stand.holder.by;
    match try_piece(member, alloc, complex, reader, stand) {
        Ok(stand) => Ok(stand),
        Err(why) => {
            stop_halted(complex, by, why);
            Err(why)
        }
    }
}

/// Plays a task of the member as a whole step, EACH PIECE IN A TURN at the shared value, which others may have between
/// two turns. Without LOCK the lock is given up at each sitting's end and taken again at the next one's beginning; with
/// it only at the step's end, and there only where the hold is spent. A step that is halted ends at once, and its
/// member is stopped in the book in the same turn. The reader is that of the line, if the task serves one: it goes on
/// with the bytes that the step takes.
///
/// Halted comes only where the member was stopped, BothLost only where both copies count as lost, ConsoleFault only
/// where the console failed at a line. After an error the member can't go on; what the step left is told for each.
pub fn play_in_turns<P: Plant + Drop, C: Steady + Drop, T: Turns<Complex<P, C>>>(
    member: &mut Member,
    alloc: Global,
    turns: &mut T,
    reader: &mut FrameReader,
    holder: Holder,
    task: Task,
) -> Result<(), NodeNo>
    requires free { T.held turns.old ≡ None }
    requires may { MayTakeTurns (T.finds turns.old) (T.follows (T.place turns.old)) T.rests (T.bound turns.old)
        (λ told. (T.memory turns.old told).cares) (begun member.old holder task reader.old) }
    ensures free { T.held turns.new ≡ None }
    ensures place { T.place turns.new ≡ T.place turns.old }
    ensures bound { T.bound turns.new ≡ T.bound turns.old }
    ensures chain { HasTakenTurns (T.follows (T.place turns.old)) (T.finds turns.old) (T.finds turns.new)
        (begun member.old holder task reader.old) member.new reader.new result }
{
    let mut stand = Stand {
        holder,
        state: State::Fresh(task),
        found: nothing_found(alloc),
    };
    loop {
        turns.turn();
        let played = play_piece(member, alloc, turns.value(), reader, stand);
        turns.back();
        stand = played?;
        if let State::Told = &stand.state {
            return Ok(());
        }
    }
}

/// Plays a task as `play_in_turns` on a value at which nobody else takes turns. The member has the lock as it begins.
pub fn play_task<P: Plant + Drop, C: Steady + Drop>(
    member: &mut Member,
    alloc: Global,
    complex: &mut Complex<P, C>,
    reader: &mut FrameReader,
    holder: Holder,
    task: Task,
) -> Result<(), NodeNo>
    requires { MayPlay complex.old member.old (begins holder task) }
    ensures frame { parts_of complex.new ≡ played_in (parts_of complex.new) (parts_of complex.old) }
    ensures id { member.new.id ≡ member.old.id }
    ensures played { Played complex.old complex.new member.old (begins holder task) reader.old reader.new result }
    ensures next { OnOk result (IsAfterStep complex.old complex.new member.old member.new (begins holder task)) }
{
    let mut hand = OneHand::new(complex);
    play_in_turns(member, alloc, &mut hand, reader, holder, task)
}
