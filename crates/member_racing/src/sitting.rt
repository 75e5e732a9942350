//! A sitting with its lock, and the acts aside that a step waits for, each in a turn of its own.
ghost use Rattle.std.specs.Prelude.{◌≡◌, IfOk};
ghost use Rattle.step_turns.specs.declared.states.Grant.TheVariants.{ForStep};
ghost use Rattle.member_resets.specs.Asides.{IfAway, MayActThen};
ghost use Rattle.member_resets.specs.Locks.{IsUnlocked};
ghost use Rattle.mas_complex.specs.Parts.{parts_of};
ghost use Rattle.member_resets.specs.Plays.{MayPlay, played_in};
ghost use Rattle.member_resets.specs.Sits.{start_of};
ghost use Rattle.member_racing.specs.Kinds.{ActsTurn, SitsTurn};
ghost use Rattle.member_racing.specs.Waits.{HasEase};

use crate::stages::{Stage, stage_of};
use mas_complex::{Complex, Steady};
use member_node::{Member, NodeNo};
use member_resets::{Stand, act_then, enter, leave, next_holder, nothing_found, sit};
use nje_frames::FrameReader;
use spool_plant::Plant;
use std::alloc::Global;
use step_turns::Grant;

// A sitting of a step: the member has the lock, or takes it again, takes its seat, sits, and leaves the lock. After an
// error it holds the lock still.
pub(crate) fn sit_turn<P: Plant + Drop, C: Steady + Drop>(
    member: &mut Member,
    alloc: Global,
    complex: &mut Complex<P, C>,
    stand: Stand,
) -> Result<Stage, NodeNo>
    requires may { MayPlay complex.old member.old (start_of stand) }
    requires grant { stand.holder.grant ≡ ForStep }
    ensures frame { parts_of complex.new ≡ played_in (parts_of complex.new) (parts_of complex.old) }
    ensures id { member.new.id ≡ member.old.id }
    ensures ease { IfOk result (λ s. HasEase complex.new member.new) }
    ensures sits { SitsTurn (start_of stand) complex.old complex.new member.new result }
{
    let holder = stand.holder;
    complex.retake_lock(holder.by);
    enter(member, alloc, complex, holder)?;
    let end = sit(member, alloc, complex, stand)?;
    leave(complex, holder.by, &end);
    let whole = member.checkpoint.tables.config.hold;
    let next = next_holder(holder, whole, end.given);
    Ok(stage_of(Stand {
        holder: next,
        state: end.next,
        found: nothing_found(alloc),
    }))
}

// The acts for which a step waits, after which it waits for a sitting. It serves no line, so nothing is read from one.
pub(crate) fn act_turn<P: Plant + Drop, C: Steady + Drop>(
    member: &Member,
    alloc: Global,
    complex: &mut Complex<P, C>,
    stand: Stand,
) -> Result<Stage, NodeNo>
    requires lock { IfAway stand.state (IsUnlocked ForStep complex.old.book member.now.id) }
    requires may { MayActThen complex.old member.now stand.state }
    requires ease { HasEase complex.old member.now }
    ensures frame { parts_of complex.new ≡ played_in (parts_of complex.new) (parts_of complex.old) }
    ensures ease { IfOk result (λ s. HasEase complex.new member.now) }
    ensures acts { ActsTurn complex.old complex.new member.now stand result }
{
    let Stand { holder, state, .. } = stand;
    let mut reader = FrameReader::new(alloc);
    let found = act_then(member, alloc, complex, &mut reader, Grant::ForStep, &state)?;
    Ok(Stage::Sits(Stand {
        holder,
        state,
        found,
    }))
}
