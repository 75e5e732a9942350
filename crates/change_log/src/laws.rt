//! What holds of a log whatever a crash leaves of its device.
ghost use Rattle.change_log.specs.Laws.{ReadsDirectories, SpellsDirectories, ReadsAtRest, ReadsWhileOpened, ReadsWhileClosed};

/// A directory that is written is valid, and lists the pages that it was written for. No other block is valid.
pub fn law_of_directories()
    ensures reads { ReadsDirectories }
    ensures spells { SpellsDirectories }
{}

/// A log with each page where its open slots put it reads as these pages, and so does whatever a crash leaves of it.
pub fn law_of_logs_at_rest()
    ensures { ReadsAtRest }
{}

/// While the gate of a slot after all open ones is opened, what a crash leaves reads as the old or as the new pages.
pub fn law_of_opened_slots()
    ensures { ReadsWhileOpened }
{}

/// While the lowest open slot is closed, after its pages were written home, what a crash leaves reads as before.
pub fn law_of_closed_slots()
    ensures { ReadsWhileClosed }
{}
