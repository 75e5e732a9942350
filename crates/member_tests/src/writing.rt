//! A batch that is written to both copies.
ghost use Rattle.std.specs.Prelude.{◌≡◌, ◌+◌, ◌≤◌, ◌<◌, length, IfOk, IfSome, OnOk, true, false, None, IsSome, All};
ghost use Rattle.mas_types.specs.declared.ids.Dev.TheVariants.{Ckpt1, Ckpt2};
ghost use Rattle.mas_types.specs.Fit.{IsConfig};
ghost use Rattle.spool_plant.specs.Acts.{top};
ghost use Rattle.ckpt_form.specs.Form.{form_needs};
ghost use Rattle.ckpt_places.specs.declared.places.Place.TheVariants.{Before as AtBefore, Put as AtPut};
ghost use Rattle.mas_complex.specs.Journals.{entries_reserved};
ghost use Rattle.mas_complex.specs.Locking.{MayAct, IsOwn};

use crate::quiet::Quiet;
use crate::shared::OPERATOR;
use ckpt_copy::Copying;
use ckpt_form::CopyForm;
use duplex_pair::{Pair, PairNo};
use mas_complex::{BriefQueue, Complex};
use mas_types::{Config, Dev, List, MemberId, NoMemory, Page, default_config, empty_queue};
use spool_plant::Plant;
use std::alloc::Global;

// The smallest configuration: its tables take six pages.
fn small_config() -> Config
    ensures fits { IsConfig result }
    ensures members { result.members ≡ 2 }
{
    Config {
        jobs: 16,
        outputs: 32,
        ..default_config()
    }
}

// A shared value over two copies that were formed with these pages; none where one couldn't be.
pub(crate) fn formed(
    alloc: Global,
    plant: Quiet,
    pages: &[Page],
) -> Result<Option<Complex<Quiet, CopyForm>>, NoMemory>
    requires six { length pages.now ≡ 6 }
    requires size1 { form_needs 6 ≤ (⟦<Quiet as Plant>⟧.view plant).size Ckpt1 }
    requires size2 { form_needs 6 ≤ (⟦<Quiet as Plant>⟧.view plant).size Ckpt2 }
    ensures none { IfOk result (λ some. IfSome some (λ c. c.current ≡ None)) }
    ensures unreserved { IfOk result (λ some. IfSome some (λ c. c.reserved ≡ None)) }
    ensures first { IfOk result (λ some. IfSome some (λ c. c.first ≡ AtBefore)) }
    ensures second { IfOk result (λ some. IfSome some (λ c. c.second ≡ AtBefore)) }
    ensures level { IfOk result (λ some. IfSome some (λ c. c.level ≡ 2)) }
    ensures count1 { IfOk result (λ some.
        IfSome some (λ c. c.pair.first.alive ≡ true → ⟦<CopyForm as Copying>⟧.count c.pair.first.copy ≡ 6)) }
    ensures count2 { IfOk result (λ some.
        IfSome some (λ c. c.pair.second.alive ≡ true → ⟦<CopyForm as Copying>⟧.count c.pair.second.copy ≡ 6)) }
    ensures room1 { IfOk result (λ some.
        IfSome some (λ c. c.pair.first.alive ≡ true → 1 ≤ ⟦<CopyForm as Copying>⟧.room c.pair.first.copy)) }
    ensures room2 { IfOk result (λ some.
        IfSome some (λ c. c.pair.second.alive ≡ true → 1 ≤ ⟦<CopyForm as Copying>⟧.room c.pair.second.copy)) }
    ensures members { IfOk result (λ some. IfSome some (λ c. length c.book.members ≡ 2)) }
    ensures config { IfOk result (λ some. IfSome some (λ c. IsConfig c.base.config)) }
{
    let none = empty_queue(alloc, &small_config(), &List::new(alloc))?;
    let base = BriefQueue::without_jobs(alloc, none);
    let mut plant = plant;
    let mut pair = Pair::new(CopyForm::new(Dev::Ckpt1, 6), CopyForm::new(Dev::Ckpt2, 6));
    let Ok(()) = pair.form(&mut plant, OPERATOR, pages) else {
        return Ok(None);
    };
    Ok(Some(Complex::make(alloc, plant, pair, base, 2)))
}

// The reserved batch is put on both copies.
fn log_both(
    complex: &mut Complex<Quiet, CopyForm>,
    by: MemberId,
    pages: &[Page],
) -> Result<(), PairNo>
    requires may { MayAct complex.old.book by }
    requires own { All (λ e. e.by ≡ by) (entries_reserved complex.old.reserved) }
    requires none { complex.old.current ≡ None }
    requires some { 1 ≤ length (entries_reserved complex.old.reserved) }
    requires reserved { IsSome complex.old.reserved }
    requires first { complex.old.first ≡ AtBefore }
    requires second { complex.old.second ≡ AtBefore }
    requires six { length pages.now ≡ 6 }
    requires count1 { complex.old.pair.first.alive ≡ true
        → ⟦<CopyForm as Copying>⟧.count complex.old.pair.first.copy ≡ 6 }
    requires count2 { complex.old.pair.second.alive ≡ true
        → ⟦<CopyForm as Copying>⟧.count complex.old.pair.second.copy ≡ 6 }
    requires room1 { complex.old.pair.first.alive ≡ true
        → 1 ≤ ⟦<CopyForm as Copying>⟧.room complex.old.pair.first.copy }
    requires room2 { complex.old.pair.second.alive ≡ true
        → 1 ≤ ⟦<CopyForm as Copying>⟧.room complex.old.pair.second.copy }
    ensures book { complex.new.book ≡ complex.old.book }
    ensures base { complex.new.base ≡ complex.old.base }
    ensures count1 { ⟦<CopyForm as Copying>⟧.count complex.new.pair.first.copy
        ≡ ⟦<CopyForm as Copying>⟧.count complex.old.pair.first.copy }
    ensures count2 { ⟦<CopyForm as Copying>⟧.count complex.new.pair.second.copy
        ≡ ⟦<CopyForm as Copying>⟧.count complex.old.pair.second.copy }
    ensures room1 { complex.new.pair.first.alive ≡ true → 1 ≤ ⟦<CopyForm as Copying>⟧.room complex.new.pair.first.copy }
    ensures room2 { complex.new.pair.second.alive ≡ true
        → 1 ≤ ⟦<CopyForm as Copying>⟧.room complex.new.pair.second.copy }
    ensures alive1 { complex.new.pair.first.alive ≡ true → complex.old.pair.first.alive ≡ true }
    ensures alive2 { complex.new.pair.second.alive ≡ true → complex.old.pair.second.alive ≡ true }
    ensures level { complex.new.level ≡ complex.old.level }
    ensures current { IsSome complex.new.current }
    ensures own { OnOk result (IsOwn complex.new.current by) }
    ensures first { OnOk result (complex.new.first ≡ AtPut) }
    ensures second { OnOk result (complex.new.second ≡ AtPut) }
{
    complex.log(by, Dev::Ckpt1, pages, &[0])?;
    complex.log(by, Dev::Ckpt2, pages, &[0])
}

// The gates of both copies are opened, as far as they can be.
fn open_both(complex: &mut Complex<Quiet, CopyForm>, by: MemberId) -> Result<(), PairNo>
    requires may { MayAct complex.old.book by }
    requires own { IsOwn complex.old.current by }
    requires current { IsSome complex.old.current }
    requires first { complex.old.first ≡ AtPut }
    requires second { complex.old.second ≡ AtPut }
    requires level { complex.old.level < top }
    requires room1 { complex.old.pair.first.alive ≡ true
        → 1 ≤ ⟦<CopyForm as Copying>⟧.room complex.old.pair.first.copy }
    requires room2 { complex.old.pair.second.alive ≡ true
        → 1 ≤ ⟦<CopyForm as Copying>⟧.room complex.old.pair.second.copy }
    ensures book { complex.new.book ≡ complex.old.book }
    ensures base { complex.new.base ≡ complex.old.base }
    ensures count1 { ⟦<CopyForm as Copying>⟧.count complex.new.pair.first.copy
        ≡ ⟦<CopyForm as Copying>⟧.count complex.old.pair.first.copy }
    ensures count2 { ⟦<CopyForm as Copying>⟧.count complex.new.pair.second.copy
        ≡ ⟦<CopyForm as Copying>⟧.count complex.old.pair.second.copy }
    ensures alive1 { complex.new.pair.first.alive ≡ true → complex.old.pair.first.alive ≡ true }
    ensures alive2 { complex.new.pair.second.alive ≡ true → complex.old.pair.second.alive ≡ true }
    ensures none { OnOk result (complex.new.current ≡ None) }
    ensures places { OnOk result ((complex.new.first ≡ AtBefore) × (complex.new.second ≡ AtBefore)) }
{
    complex.open_copy(by, Dev::Ckpt1)?;
    if !complex.pair.second.alive {
        return Ok(());
    }
    complex.open_copy(by, Dev::Ckpt2)
}

// The batch of a member is written, as far as the plant lets it.
pub(crate) fn write(
    complex: &mut Complex<Quiet, CopyForm>,
    by: MemberId,
    pages: &[Page],
) -> Result<(), PairNo>
    requires may { MayAct complex.old.book by }
    requires own { All (λ e. e.by ≡ by) (entries_reserved complex.old.reserved) }
    requires none { complex.old.current ≡ None }
    requires some { 1 ≤ length (entries_reserved complex.old.reserved) }
    requires reserved { IsSome complex.old.reserved }
    requires first { complex.old.first ≡ AtBefore }
    requires second { complex.old.second ≡ AtBefore }
    requires level { complex.old.level < top }
    requires six { length pages.now ≡ 6 }
    requires count1 { complex.old.pair.first.alive ≡ true
        → ⟦<CopyForm as Copying>⟧.count complex.old.pair.first.copy ≡ 6 }
    requires count2 { complex.old.pair.second.alive ≡ true
        → ⟦<CopyForm as Copying>⟧.count complex.old.pair.second.copy ≡ 6 }
    requires room1 { complex.old.pair.first.alive ≡ true
        → 1 ≤ ⟦<CopyForm as Copying>⟧.room complex.old.pair.first.copy }
    requires room2 { complex.old.pair.second.alive ≡ true
        → 1 ≤ ⟦<CopyForm as Copying>⟧.room complex.old.pair.second.copy }
    ensures book { complex.new.book ≡ complex.old.book }
    ensures base { complex.new.base ≡ complex.old.base }
    ensures count1 { ⟦<CopyForm as Copying>⟧.count complex.new.pair.first.copy
        ≡ ⟦<CopyForm as Copying>⟧.count complex.old.pair.first.copy }
    ensures count2 { ⟦<CopyForm as Copying>⟧.count complex.new.pair.second.copy
        ≡ ⟦<CopyForm as Copying>⟧.count complex.old.pair.second.copy }
    ensures alive1 { complex.new.pair.first.alive ≡ true → complex.old.pair.first.alive ≡ true }
    ensures alive2 { complex.new.pair.second.alive ≡ true → complex.old.pair.second.alive ≡ true }
    ensures none { OnOk result (complex.new.current ≡ None) }
    ensures places { OnOk result ((complex.new.first ≡ AtBefore) × (complex.new.second ≡ AtBefore)) }
{
    log_both(complex, by, pages)?;
    open_both(complex, by)
}
