//! What a run leaves. It is let go here, so that the program itself proves nothing of how.
use brief_journal::BriefJournal;
use brief_queue::BriefQueue;
use plant_files::FilePlant;
use plant_fuse::Fused;

/// The devices are closed.
pub fn close_files(files: Fused<FilePlant<HostRuntime>>) {
    drop(files);
}

/// The queue that a run began with is let go.
pub fn let_queue_go(base: BriefQueue) {
    drop(base);
}

/// The commands of a run are let go, with their replies.
pub fn let_journal_go(journal: BriefJournal) {
    drop(journal);
}
