//! What a start finds on each copy.
ghost use Rattle.std.specs.Prelude.{◌≡◌, IfOk, true, false};
ghost use Rattle.mas_types.specs.declared.ids.Dev.TheVariants.{Ckpt1, Ckpt2};
ghost use Rattle.mas_types.specs.Limits.{pages_most};
ghost use Rattle.spool_plant.specs.View.{disk_now};
ghost use Rattle.ckpt_copy.specs.Changes.{NoMore};
ghost use Rattle.ckpt_copy.specs.Meanwhile.{Meanwhile};
ghost use Rattle.duplex_pair.specs.Halves.{IsCkpt, pick, other, Acted, IsGone};
ghost use Rattle.duplex_pair.specs.Both.{PairActed, BothMeanwhile};
ghost use Rattle.start_choice.specs.Choosing.{HasFew};
ghost use Rattle.duplex_pair.specs.Looks.{HasRoom};
ghost use Rattle.warm_start.specs.Judging.{WasLooked, WasJudged, HasSizes, HasRoomBy};

use ckpt_tables::law_of_page_sizes;
use duplex_pair::{Look, Pair};
use mas_complex::Steady;
use mas_types::{Dev, MemberId, NoMemory};
use spool_plant::Plant;
use start_choice::{Judged, judge, judge_beside};
use std::alloc::Global;

/// The operator, who starts the program and never halts.
pub(crate) const OPERATOR: MemberId = MemberId(0);

fn sized(look: &Look)
    ensures { HasSizes look.now }
{
    if let Look::Pages(pages) = look {
        law_of_page_sizes(pages.as_slice());
    }
}

// Looks at one copy.
fn look_at<P: Plant, C: Steady + Drop>(
    alloc: Global,
    plant: &mut P,
    pair: &mut Pair<C>,
    dev: Dev,
) -> Result<Look, NoMemory>
    requires ckpt { IsCkpt dev }
    requires alive { (pick dev pair.old.first pair.old.second).alive ≡ true }
    ensures other { other dev pair.new.first pair.new.second ≡ other dev pair.old.first pair.old.second }
    ensures acted { Acted 0 dev true (pick dev pair.new.first pair.new.second).alive false (P.view plant.old)
        (P.view plant.new) }
    ensures gone { P.tells → IsGone dev true (pick dev pair.new.first pair.new.second).alive (P.view plant.new) }
    ensures during { P.tells → Meanwhile dev (NoMore (disk_now (P.view plant.old) dev)) (P.view plant.old)
        (P.view plant.new) }
    ensures seen { IfOk result (WasLooked C.count C.room C.room_most C.ready C.reads C.rests P.tells dev
        (P.view plant.new) (pick dev pair.new.first pair.new.second).copy
        (pick dev pair.new.first pair.new.second).alive (pick dev pair.new.first pair.new.second).found) }
    ensures room { IfOk result (λ look. P.tells
        → HasRoom C.room C.room_in (pick dev pair.new.first pair.new.second).copy look
        (disk_now (P.view plant.new) dev).bytes) }
{
    let Ok(look) = pair.look(alloc, plant, OPERATOR, dev) else {
        return Err(NoMemory);
    };
    sized(&look);
    Ok(look)
}

/// Looks at both copies. Nothing is written, and none is lost by a call.
pub(crate) fn look_at_both<P: Plant, C: Steady + Drop>(
    alloc: Global,
    plant: &mut P,
    pair: &mut Pair<C>,
) -> Result<(Look, Look), NoMemory>
    requires alive1 { pair.old.first.alive ≡ true }
    requires alive2 { pair.old.second.alive ≡ true }
    ensures acted { PairActed 0 true pair.new.first.alive true pair.new.second.alive false (P.view plant.old)
        (P.view plant.new) }
    ensures gone1 { P.tells → IsGone Ckpt1 true pair.new.first.alive (P.view plant.new) }
    ensures gone2 { P.tells → IsGone Ckpt2 true pair.new.second.alive (P.view plant.new) }
    ensures during { P.tells → BothMeanwhile (NoMore (disk_now (P.view plant.old) Ckpt1))
        (NoMore (disk_now (P.view plant.old) Ckpt2)) (P.view plant.old) (P.view plant.new) }
    ensures first { IfOk result (λ both.
        WasLooked C.count C.room C.room_most C.ready C.reads C.rests P.tells Ckpt1 (P.view plant.new)
        pair.new.first.copy pair.new.first.alive pair.new.first.found both.0) }
    ensures second { IfOk result (λ both.
        WasLooked C.count C.room C.room_most C.ready C.reads C.rests P.tells Ckpt2 (P.view plant.new)
        pair.new.second.copy pair.new.second.alive pair.new.second.found both.1) }
    ensures room1 { IfOk result (λ both. P.tells
        → HasRoom C.room C.room_in pair.new.first.copy both.0 (disk_now (P.view plant.new) Ckpt1).bytes) }
    ensures room2 { IfOk result (λ both. P.tells
        → HasRoom C.room C.room_in pair.new.second.copy both.1 (disk_now (P.view plant.new) Ckpt2).bytes) }
{
    let first = look_at(alloc, plant, pair, Dev::Ckpt1)?;
    let second = look_at(alloc, plant, pair, Dev::Ckpt2)?;
    Ok((first, second))
}

/// Looks at both copies, and judges each.
pub(crate) fn judge_both<P: Plant, C: Steady + Drop>(
    alloc: Global,
    plant: &mut P,
    pair: &mut Pair<C>,
) -> Result<(Judged, Judged), NoMemory>
    requires alive1 { pair.old.first.alive ≡ true }
    requires alive2 { pair.old.second.alive ≡ true }
    ensures acted { PairActed 0 true pair.new.first.alive true pair.new.second.alive false (P.view plant.old)
        (P.view plant.new) }
    ensures gone1 { P.tells → IsGone Ckpt1 true pair.new.first.alive (P.view plant.new) }
    ensures gone2 { P.tells → IsGone Ckpt2 true pair.new.second.alive (P.view plant.new) }
    ensures during { P.tells → BothMeanwhile (NoMore (disk_now (P.view plant.old) Ckpt1))
        (NoMore (disk_now (P.view plant.old) Ckpt2)) (P.view plant.old) (P.view plant.new) }
    ensures first { IfOk result (λ both.
        WasJudged C.count C.room C.room_most C.ready C.reads C.rests P.tells Ckpt1 (P.view plant.new)
        pair.new.first.copy pair.new.first.alive pair.new.first.found both.0) }
    ensures second { IfOk result (λ both.
        WasJudged C.count C.room C.room_most C.ready C.reads C.rests P.tells Ckpt2 (P.view plant.new)
        pair.new.second.copy pair.new.second.alive pair.new.second.found both.1) }
    ensures room1 { IfOk result (λ both. P.tells
        → HasRoomBy C.room C.room_in pair.new.first.copy both.0 (disk_now (P.view plant.new) Ckpt1).bytes) }
    ensures room2 { IfOk result (λ both. P.tells
        → HasRoomBy C.room C.room_in pair.new.second.copy both.1 (disk_now (P.view plant.new) Ckpt2).bytes) }
    ensures few1 { IfOk result (λ both. HasFew both.0) }
    ensures few2 { IfOk result (λ both. HasFew both.1) }
{
    let (first, second) = look_at_both(alloc, plant, pair)?;
    let first_judged = judge(alloc, first)?;
    let second_judged = judge_beside(alloc, &first_judged, second)?;
    Ok((first_judged, second_judged))
}
