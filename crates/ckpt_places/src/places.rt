//! How far a batch has come on a copy, and on both.
ghost use Rattle.std.specs.Prelude.{◌≡◌, true};
ghost use Rattle.ckpt_places.specs.declared.places.Place.TheVariants.{Opened as AtOpened};
ghost use Rattle.ckpt_places.specs.Kept.{all_open};

/// How far the batch in flight has come on a copy.
#[derive(Clone, Copy)]
pub enum Place {
    /// The copy is as before the batch.
    Before,
    /// The batch's pages stand behind a closed gate.
    Put,
    /// The copy reads the batch's pages.
    Opened,
    /// A call on the copy was stopped: it is as before the batch, or has it.
    Unsure,
}

/// Each copy that counts as alive has opened its gate before the batch's pages, so that the batch is kept.
pub fn all_opened(first_alive: bool, second_alive: bool, first: Place, second: Place) -> bool
    ensures all { result ≡ all_open first_alive second_alive first second }
    ensures first { result ≡ true → first_alive ≡ true → first ≡ AtOpened }
    ensures second { result ≡ true → second_alive ≡ true → second ≡ AtOpened }
{
    (!first_alive || matches!(first, Place::Opened))
        && (!second_alive || matches!(second, Place::Opened))
}
