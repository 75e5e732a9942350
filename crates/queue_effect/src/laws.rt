//! Which tables are fit for commands.
ghost use Rattle.queue_effect.specs.Laws.{SoundAreFit};

/// Sound tables are fit for commands.
pub fn law_of_fit_tables()
    ensures { SoundAreFit }
{}
